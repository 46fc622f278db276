//! One request by POST and its response.

ghost use Rattle.tl_device.specs.Device.{passage};
ghost use Rattle.tl_http.specs.Get.{Receives};
ghost use Rattle.tl_http.specs.Post.{Posts, Replies, asked, replied};

use crate::body::read_body;
use crate::fault::HttpFault;
use crate::fields::copy_value;
use crate::head::{MOST_FIELDS, MOST_HEAD};
use crate::request::{Post, Reply};
use crate::sending::send_post;
use crate::taken::read_taken;
use crate::target::is_askable;
use httparse::spans::EMPTY_HEADER_SPAN;
use std::alloc::Allocator;
use std::io::{Read, Write};
use tl_device::Counted;

// Reads a response with one of these statuses, and the value of its field with this name.
fn read_reply<A: Allocator + Copy, I: Read>(
    alloc: A,
    reader: &mut Counted<I>,
    statuses: &[u16],
    name: &[u8],
    limit: usize,
) -> Result<Reply<A>, HttpFault>
    ensures { Receives (Replies statuses.now name.now limit)
        (passage I.remaining reader.old reader.new) (replied result) }
{
    let mut buf = [0u8; MOST_HEAD];
    let mut headers = [EMPTY_HEADER_SPAN; MOST_FIELDS];
    let taken = read_taken(reader, &mut buf, &mut headers, statuses)?;
    let bytes = &buf[taken.start..taken.len];
    let field = copy_value(alloc, bytes, &headers[..taken.spans.headers], name)?;
    let begun = &bytes[taken.spans.len..];
    let body = read_body(alloc, reader, begun, taken.framing, limit)?;
    Ok(Reply {
        status: taken.spans.code,
        field,
        body,
    })
}

/// Sends a POST request over HTTP/1.1, and returns a response with a wanted status: its status, the value of the
/// wanted field, and its body. The body has at most `limit` bytes, and is read as by `get` (RFC 9110, section 9.3.3;
/// RFC 9112, sections 6.3 and 7.1). Interim responses are skipped. Redirects aren't followed, and codings aren't
/// decoded. Trailers aren't read. The connection can't be used again.
pub fn post<A: Allocator + Copy, I: Read, O: Write>(
    alloc: A,
    reader: &mut Counted<I>,
    writer: &mut Counted<O>,
    post: &Post<'_>,
    limit: usize,
) -> Result<Reply<A>, HttpFault>
    ensures { Posts (asked post.now) limit (passage I.remaining reader.old reader.new)
        (passage O.contents writer.old writer.new) (replied result) }
{
    let host = post.host.as_bytes();
    let target = post.target.as_bytes();
    if !is_askable(host, target) {
        return Err(HttpFault::BadTarget);
    }
    send_post(writer, host, target, post.body)?;
    read_reply(alloc, reader, post.statuses, post.field.as_bytes(), limit)
}
