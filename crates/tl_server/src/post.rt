//! One request to a witness.

ghost use Rattle.std.specs.Prelude.{◌≡◌, ◌++◌};
ghost use Rattle.tl_device.specs.Device.{passage};
ghost use Rattle.tl_server.specs.Exchange.{Exchange};
ghost use Rattle.tl_server.specs.Inner.Deciding.{Rest};
ghost use Rattle.tl_server.specs.Inner.Posts.{PostAnswers};
ghost use Rattle.tl_server.specs.Serve.{Sends, Serves};
ghost use Rattle.tl_server.specs.Witness.{Replies, WitnessDecides, reply_answer, reply_kind};

use crate::fault::ServeFault;
use crate::head::{HeadRead, MOST_FIELDS, MOST_HEAD, read_head};
use crate::method::is_text;
use crate::posted::{Posted, posted_of};
use crate::receive::{Received, receive};
use crate::sending::{refuse, refuse_post, send};
use crate::witness::Witness;
use httparse::spans::EMPTY_HEADER_SPAN;
use std::alloc::Allocator;
use std::io::{Read, Write};
use std::sync::Wait;
use tl_device::Counted;
use tl_witness::Saver;

/// The most bytes of a request's body.
const MOST_BODY: u64 = 1_048_576;

// Returns the media type of a reply's body.
fn type_of(status: u16) -> &'static [u8]
    ensures { result.now ≡ reply_kind status }
{
    if status == 409 {
        b"text/x.tlog.size"
    } else {
        b"text/plain; charset=utf-8"
    }
}

// Writes the witness's reply.
fn send_reply<O: Write>(
    writer: &mut Counted<O>,
    status: u16,
    body: &[u8],
) -> Result<Option<u16>, ServeFault>
    ensures { Sends
        (reply_answer status body.now) (passage O.contents writer.old writer.new) result }
{
    send(writer, status, b"", type_of(status), body)
}

// Receives the body that a head announces, and replies to it. `part` is the part that came with the head.
fn answer_posted<R: Wait, A: Allocator, I: Read, O: Write, W: Witness<A>, S: Saver>(
    rt: &R,
    alloc: A,
    reader: &mut Counted<I>,
    writer: &mut Counted<O>,
    witness: &W,
    time: u64,
    saver: &mut S,
    posted: Posted,
    part: &[u8],
) -> Result<Option<u16>, ServeFault>
    ensures { Serves (S.saved saver.new ≡ S.saved saver.old)
        (Rest (PostAnswers (S.saved saver.new ≡ S.saved saver.old) (Replies W.digest
        (W.shown witness.now) time (S.saved saver.old) (S.saved saver.new)) posted part.now))
        (passage I.remaining reader.old reader.new)
        (passage O.contents writer.old writer.new) result }
{
    match receive(alloc, reader, posted, part) {
        Received::Failed => Err(ServeFault::Read),
        Received::Refused(status) => refuse_post(writer, status),
        Received::Whole(body) => {
            let reply = witness.reply(rt, body.as_slice(), time, saver);
            send_reply(writer, reply.status, reply.body.as_slice())
        }
    }
}

/// Answers one request to a witness (C2SP tlog-witness), and returns the status, or `None` if no byte came: 400 or
/// 431 if there is no head, 404 if the target isn't `/add-checkpoint`, 405 if the method isn't POST, 400 without one
/// `Content-Length` (RFC 9112, section 6), 413 above 1,048,576 bytes, 500 if an allocation for the body fails, 400 if
/// the input ends before the body does, else the status of the witness's reply. Nothing is allocated after that
/// reply.
pub fn serve_witness<R: Wait, A: Allocator, I: Read, O: Write, W: Witness<A>, S: Saver>(
    rt: &R,
    alloc: A,
    reader: &mut Counted<I>,
    writer: &mut Counted<O>,
    witness: &W,
    time: u64,
    saver: &mut S,
) -> Result<Option<u16>, ServeFault>
    ensures { Serves (S.saved saver.new ≡ S.saved saver.old) (Exchange (S.saved saver.new
        ≡ S.saved saver.old) (WitnessDecides (S.saved saver.new ≡ S.saved saver.old)
        (Replies W.digest (W.shown witness.now) time (S.saved saver.old) (S.saved saver.new))))
        (passage I.remaining reader.old reader.new)
        (passage O.contents writer.old writer.new) result }
{
    let mut buf = [0u8; MOST_HEAD];
    let mut headers = [EMPTY_HEADER_SPAN; MOST_FIELDS];
    match read_head(reader, &mut buf, &mut headers) {
        HeadRead::Failed => Err(ServeFault::Read),
        HeadRead::Nothing => Ok(None),
        HeadRead::NoHead(status) => refuse(writer, status),
        HeadRead::Head(len, spans) => {
            let bytes = &buf[..len];
            if !is_text(spans.path.of(bytes), b"/add-checkpoint") {
                return refuse(writer, 404);
            }
            let posted = posted_of(bytes, &headers, spans, MOST_BODY);
            let part = &bytes[spans.len..];
            answer_posted(
                rt, alloc, reader, writer, witness, time, saver, posted, part,
            )
        }
    }
}
