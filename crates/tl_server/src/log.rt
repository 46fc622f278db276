//! One request to a log.

ghost use Rattle.std.specs.Prelude.{◌≡◌, MatchOption, IsUtf8};
ghost use Rattle.tl_device.specs.Device.{passage};
ghost use Rattle.tl_server.specs.Exchange.{Exchange};
ghost use Rattle.tl_server.specs.Inner.Deciding.{Answered};
ghost use Rattle.tl_server.specs.Log.{AsksFor, LogAnswers, LogDecides, kind_of, look_answer};
ghost use Rattle.tl_server.specs.Serve.{Sends, Serves};

use crate::fault::ServeFault;
use crate::head::{HeadRead, MOST_FIELDS, MOST_HEAD, read_head};
use crate::method::is_text;
use crate::sending::{refuse, refuse_method, send};
use httparse::spans::EMPTY_HEADER_SPAN;
use std::alloc::Allocator;
use std::io::{Read, Write};
use std::str;
use tl_device::Counted;
use tl_publisher::{BoardReader, GetFault};
use tl_tile::{Resource, parse_path};

/// Returns the resource that a target asks for.
pub(crate) fn resource_of(target: &[u8]) -> Option<Resource>
    requires { IsUtf8 target.now }
    ensures { MatchOption result ((r : _) → ¬ (AsksFor target.now r)) (λ r. AsksFor target.now r) }
{
    let Ok(text) = str::from_utf8(target) else {
        return None;
    };
    match text.strip_prefix("/") {
        Some(path) => parse_path(path),
        None => None,
    }
}

/// Returns the media type of a resource.
pub(crate) fn type_of(resource: &Resource) -> &'static [u8]
    ensures { result.now ≡ kind_of resource.now }
{
    match resource {
        Resource::Checkpoint => b"text/plain; charset=utf-8",
        _ => b"application/octet-stream",
    }
}

// Answers with what the board has under a resource.
fn answer_look<A: Allocator, O: Write>(
    writer: &mut Counted<O>,
    resource: &Resource,
    look: Result<Option<Vec<u8, A>>, GetFault>,
) -> Result<Option<u16>, ServeFault>
    ensures { Sends
        (look_answer resource.now look) (passage O.contents writer.old writer.new) result }
{
    match look {
        Ok(Some(bytes)) => send(writer, 200, b"", type_of(resource), bytes.as_slice()),
        Ok(None) => refuse(writer, 404),
        Err(GetFault::Gone) => refuse(writer, 404),
        Err(GetFault::OutOfMemory) => refuse(writer, 500),
    }
}

/// Answers a request with this method and target.
pub(crate) fn answer_log<A: Allocator, B: Allocator, O: Write>(
    alloc: A,
    writer: &mut Counted<O>,
    board: &mut BoardReader<B>,
    method: &[u8],
    target: &[u8],
) -> Result<Option<u16>, ServeFault>
    requires { IsUtf8 target.now }
    ensures { Answered (LogAnswers A board.old board.new method.now target.now)
        (passage O.contents writer.old writer.new) result }
{
    let Some(resource) = resource_of(target) else {
        return refuse(writer, 404);
    };
    if !is_text(method, b"GET") {
        return refuse_method(writer, b"GET");
    }
    let look = board.get(alloc, &resource);
    answer_look(writer, &resource, look)
}

/// Answers one request to a log (C2SP tlog-tiles), and returns the status, or `None` if no byte came: 400 or 431 if
/// there is no head (RFC 9112, section 3; RFC 6585, section 5), 404 if the board has no such resource or is gone, 405
/// if the method isn't GET, 500 if an allocation for the resource's bytes fails, else 200. A body isn't read.
pub fn serve_log<A: Allocator, B: Allocator, I: Read, O: Write>(
    alloc: A,
    reader: &mut Counted<I>,
    writer: &mut Counted<O>,
    board: &mut BoardReader<B>,
) -> Result<Option<u16>, ServeFault>
    ensures { Serves (board.new ≡ board.old) (Exchange (board.new ≡ board.old)
        (LogDecides A board.old board.new)) (passage I.remaining reader.old reader.new)
        (passage O.contents writer.old writer.new) result }
{
    let mut buf = [0u8; MOST_HEAD];
    let mut headers = [EMPTY_HEADER_SPAN; MOST_FIELDS];
    match read_head(reader, &mut buf, &mut headers) {
        HeadRead::Failed => Err(ServeFault::Read),
        HeadRead::Nothing => Ok(None),
        HeadRead::NoHead(status) => refuse(writer, status),
        HeadRead::Head(len, spans) => {
            let bytes = &buf[..len];
            answer_log(
                alloc,
                writer,
                board,
                spans.method.of(bytes),
                spans.path.of(bytes),
            )
        }
    }
}
