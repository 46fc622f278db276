//! One request by GET and its response.

ghost use Rattle.tl_device.specs.Device.{passage};
ghost use Rattle.tl_http.specs.Get.{Gets, Receives};
ghost use Rattle.tl_http.specs.Response.{Responds, outcome};

use crate::body::read_body;
use crate::fault::HttpFault;
use crate::head::{MOST_FIELDS, MOST_HEAD};
use crate::sending::send_request;
use crate::taken::read_taken;
use crate::target::is_askable;
use httparse::spans::EMPTY_HEADER_SPAN;
use std::alloc::Allocator;
use std::io::{Read, Write};
use tl_device::Counted;

// Reads a response with status 200, and returns its body.
fn read_response<A: Allocator + Copy, I: Read>(
    alloc: A,
    reader: &mut Counted<I>,
    limit: usize,
) -> Result<Vec<u8, A>, HttpFault>
    ensures { Receives
        (Responds limit) (passage I.remaining reader.old reader.new) (outcome result) }
{
    let mut buf = [0u8; MOST_HEAD];
    let mut headers = [EMPTY_HEADER_SPAN; MOST_FIELDS];
    match read_taken(reader, &mut buf, &mut headers, &[200]) {
        Err(fault) => Err(fault),
        Ok(taken) => {
            let bytes = &buf[taken.start..taken.len];
            read_body(
                alloc,
                reader,
                &bytes[taken.spans.len..],
                taken.framing,
                limit,
            )
        }
    }
}

/// Sends a GET request over HTTP/1.1 for `target` of `host`, and returns the body of the response if its status is
/// 200. The body has at most `limit` bytes: the data of its chunks, `Content-Length` bytes, or else all up to the end
/// of the input (RFC 9110, section 9.3.1; RFC 9112, sections 6.3 and 7.1). Interim responses are skipped. Redirects
/// aren't followed, and codings aren't decoded. Trailers aren't read. The connection can't be used again.
pub fn get<A: Allocator + Copy, I: Read, O: Write>(
    alloc: A,
    reader: &mut Counted<I>,
    writer: &mut Counted<O>,
    host: &str,
    target: &str,
    limit: usize,
) -> Result<Vec<u8, A>, HttpFault>
    ensures { Gets host.now target.now limit (passage I.remaining reader.old reader.new)
        (passage O.contents writer.old writer.new) (outcome result) }
{
    let host = host.as_bytes();
    let target = target.as_bytes();
    if !is_askable(host, target) {
        return Err(HttpFault::BadTarget);
    }
    send_request(writer, host, target)?;
    read_response(alloc, reader, limit)
}
