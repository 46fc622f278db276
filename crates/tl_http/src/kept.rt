//! One request in the caller's form, over a connection that may be kept.

ghost use Rattle.std.specs.Prelude.{◌↔◌, ◌≤◌, IfOk, IsTrue, length};
ghost use Rattle.tl_device.specs.Device.{passage};
ghost use Rattle.tl_http.specs.Get.{Receives};
ghost use Rattle.tl_http.specs.Message.{sent};
ghost use Rattle.tl_http.specs.Exchange.{Answers, Exchanges, LeavesOpen, answered, sought};

use crate::body::read_body;
use crate::fault::HttpFault;
use crate::fields::copy_value;
use crate::head::{MOST_FIELDS, MOST_HEAD};
use crate::message::{Message, Response};
use crate::persistence::{body_framing, persists};
use crate::sendable::is_sendable;
use crate::taken::read_taken;
use crate::written::{head_of, send};
use httparse::spans::EMPTY_HEADER_SPAN;
use std::alloc::Allocator;
use std::io::{Read, Write};
use tl_device::Counted;

// Reports whether the connection stays open: it goes on, and no byte behind the body came with the head.
fn is_left_open(goes_on: bool, begun: &[u8], body: &[u8]) -> bool
    ensures open { IsTrue result ↔ (IsTrue goes_on × (length begun.now ≤ length body.now)) }
{
    goes_on && begun.len() <= body.len()
}

// Reads a response with a wanted status.
fn read_answer<A: Allocator + Copy, I: Read>(
    alloc: A,
    reader: &mut Counted<I>,
    message: &Message<'_>,
    limit: usize,
) -> Result<Response<A>, HttpFault>
    ensures table { Receives (Answers (sought message.now limit))
        (passage I.remaining reader.old reader.new) (answered result) }
    ensures open { IfOk result (λ response.
        LeavesOpen (passage I.remaining reader.old reader.new) response.body.items response.stays_open) }
{
    let mut buf = [0u8; MOST_HEAD];
    let mut headers = [EMPTY_HEADER_SPAN; MOST_FIELDS];
    let taken = read_taken(reader, &mut buf, &mut headers, message.statuses)?;
    let spans = taken.spans;
    let bytes = &buf[taken.start..taken.len];
    let name = message.field.as_bytes();
    let field = copy_value(alloc, bytes, &headers[..spans.headers], name)?;
    let begun = &bytes[spans.len..];
    let framing = body_framing(spans.code, taken.framing);
    let goes_on = persists(bytes, &headers, spans, framing);
    let body = read_body(alloc, reader, begun, framing, limit)?;
    let stays_open = is_left_open(goes_on, begun, body.as_slice());
    Ok(Response {
        status: spans.code,
        field,
        body,
        stays_open,
    })
}

/// Sends the caller's own request over HTTP/1.1, and returns a response with a wanted status. Its body, at most
/// `limit` bytes, is read as by `post`; status 204 and 304 have none (RFC 9112, section 6.3). `stays_open` reports
/// whether the connection can carry another request (section 9.3). Interim responses are skipped. Redirects aren't
/// followed, and codings aren't decoded. After a fault the connection can't be used again, and the server may have
/// acted on the request.
pub fn exchange<A: Allocator + Copy, I: Read, O: Write>(
    alloc: A,
    reader: &mut Counted<I>,
    writer: &mut Counted<O>,
    message: &Message<'_>,
    limit: usize,
) -> Result<Response<A>, HttpFault>
    ensures table { Exchanges (sent message.now) (sought message.now limit)
        (passage I.remaining reader.old reader.new) (passage O.contents writer.old writer.new)
        (answered result) }
    ensures open { IfOk result (λ response.
        LeavesOpen (passage I.remaining reader.old reader.new) response.body.items response.stays_open) }
{
    if !is_sendable(message) {
        return Err(HttpFault::BadTarget);
    }
    let head = head_of(alloc, message)?;
    send(writer, head.as_slice(), message.body)?;
    read_answer(alloc, reader, message, limit)
}
