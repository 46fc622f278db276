//! Reading the head of a request.

ghost use Rattle.std.specs.Prelude.{◌≡◌, length};
ghost use Rattle.tl_device.specs.Device.{passage};
ghost use Rattle.tl_server.specs.Inner.Deciding.{Parses, ReadsHead};

use httparse::Status;
use httparse::spans::{HeaderSpan, RequestSpans, parse_request};
use std::io::Read;
use tl_device::Counted;

/// The most bytes of a head.
pub(crate) const MOST_HEAD: usize = 8192;

/// The most fields of a head.
pub(crate) const MOST_FIELDS: usize = 64;

/// The result of reading a head.
#[derive(Clone, Copy)]
pub(crate) enum HeadRead {
    /// A read failed.
    Failed,
    /// The input ended before a byte came.
    Nothing,
    /// There is no head within the limits; the status to answer with.
    NoHead(u16),
    /// A head: how many bytes were read in all, and where its parts are among them.
    Head(usize, RequestSpans),
}

// What the parser reports of some bytes.
#[derive(Clone, Copy)]
pub(crate) enum Parsed {
    // They begin with a head.
    Whole(RequestSpans),
    // They don't hold a whole head; more may come.
    Partial,
    // They begin with no head of at most 64 fields, whatever follows.
    Refused,
}

// Parses bytes as the head of a request.
fn parse(bytes: &[u8], headers: &mut [HeaderSpan]) -> Parsed
    requires { length headers.old ≡ 64 }
    ensures { Parses bytes.now headers.new result }
{
    match parse_request(bytes, headers) {
        Ok(Status::Complete(spans)) => Parsed::Whole(spans),
        Ok(Status::Partial) => Parsed::Partial,
        Err(_) => Parsed::Refused,
    }
}

/// Reads until the bytes begin with a head or can't begin with one, until the buffer is full, or until the input
/// ends.
pub(crate) fn read_head<I: Read>(
    reader: &mut Counted<I>,
    buf: &mut [u8],
    headers: &mut [HeaderSpan],
) -> HeadRead
    requires bytes { length buf.old ≡ 8192 }
    requires fields { length headers.old ≡ 64 }
    ensures { ReadsHead (passage I.remaining reader.old reader.new) buf.new headers.new result }
{
    let mut len = 0;
    while len < buf.len() {
        let n = match reader.read_some(&mut buf[len..]) {
            None => return HeadRead::Failed,
            Some(n) => n,
        };
        if n == 0 {
            return if len == 0 {
                HeadRead::Nothing
            } else {
                HeadRead::NoHead(400)
            };
        }
        len += n;
        match parse(&buf[..len], headers) {
            Parsed::Whole(spans) => return HeadRead::Head(len, spans),
            Parsed::Partial => {}
            Parsed::Refused => return HeadRead::NoHead(400),
        }
    }
    HeadRead::NoHead(431)
}
