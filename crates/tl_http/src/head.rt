//! Reading the head of a response.

ghost use Rattle.std.specs.Prelude.{◌≡◌, ◌↔◌, IsTrue, length};
ghost use Rattle.tl_device.specs.Device.{passage};
ghost use Rattle.tl_http.specs.Response.{IsInterimStatus};
ghost use Rattle.tl_http.specs.Inner.Heads.{Parses, ReadsHead};

use httparse::Status;
use httparse::spans::{HeaderSpan, ResponseSpans, parse_response};
use std::io::Read;
use tl_device::Counted;

/// The most bytes of a head with the interim heads before it.
pub(crate) const MOST_HEAD: usize = 8192;

/// The most fields of a head.
pub(crate) const MOST_FIELDS: usize = 64;

/// The result of reading a head.
#[derive(Clone, Copy)]
pub(crate) enum HeadRead {
    /// A read failed.
    Failed,
    /// There is no head within the limits.
    Missing,
    /// A head: the place where it begins, how many bytes were read in all, and where its parts are, counted from
    /// there.
    Head(usize, usize, ResponseSpans),
}

// What the parser reports of some bytes.
#[derive(Clone, Copy)]
pub(crate) enum Parsed {
    // They begin with a head.
    Whole(ResponseSpans),
    // They don't hold a whole head; more may come.
    Partial,
    // They begin with no head of at most 64 fields, whatever follows.
    Refused,
}

// Parses bytes as the head of a response.
fn parse(bytes: &[u8], headers: &mut [HeaderSpan]) -> Parsed
    requires { length headers.old ≡ 64 }
    ensures { Parses bytes.now headers.new result }
{
    match parse_response(bytes, headers) {
        Ok(Status::Complete(spans)) => Parsed::Whole(spans),
        Ok(Status::Partial) => Parsed::Partial,
        Err(_) => Parsed::Refused,
    }
}

// Reports whether a response with this status is interim, and isn't 101 (Switching Protocols).
fn is_interim(status: u16) -> bool
    ensures { IsTrue result ↔ IsInterimStatus status }
{
    status >= 100 && status < 200 && status != 101
}

/// Reads until the bytes hold a head after interim ones or can't hold one, until the buffer is full, or until the
/// input ends.
pub(crate) fn read_head<I: Read>(
    reader: &mut Counted<I>,
    buf: &mut [u8],
    headers: &mut [HeaderSpan],
) -> HeadRead
    requires bytes { length buf.old ≡ 8192 }
    requires fields { length headers.old ≡ 64 }
    ensures { ReadsHead (passage I.remaining reader.old reader.new) buf.new headers.new result }
{
    let mut start = 0;
    let mut len = 0;
    'heads: loop {
        match parse(&buf[start..len], headers) {
            Parsed::Refused => return HeadRead::Missing,
            Parsed::Whole(spans) => {
                if !is_interim(spans.code) {
                    return HeadRead::Head(start, len, spans);
                }
                start += spans.len;
                continue 'heads;
            }
            Parsed::Partial => {}
        }
        if len == buf.len() {
            return HeadRead::Missing;
        }
        match reader.read_some(&mut buf[len..]) {
            None => return HeadRead::Failed,
            Some(n) => {
                if n == 0 {
                    return HeadRead::Missing;
                }
                len += n;
            }
        }
    }
}
