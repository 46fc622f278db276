//! The length of a request's body, from the fields of its head.

ghost use Rattle.std.specs.Prelude.{◌-◌, ◌<◌, ◌^◌, All, length, map};
ghost use Rattle.httparse.specs.Spans.{IsHeaderWithin, header_bytes};
ghost use Rattle.tl_server.specs.Inner.Fields.{SizesBody};

use httparse::spans::HeaderSpan;
use tl_http::{Values, number_in, values_in};

/// The length of a body.
#[derive(Clone, Copy)]
pub(crate) enum Length {
    /// The fields don't give it.
    Unknown,
    /// It is above the limit.
    TooLarge,
    /// It is this many bytes.
    Is(u64),
}

/// Returns the length of the body that follows a head with these fields, up to `most` bytes.
pub(crate) fn length_in(buf: &[u8], headers: &[HeaderSpan], most: u64) -> Length
    requires within { All (IsHeaderWithin (length buf.now)) headers.now }
    requires counted { most < 2 ^ 64 - 1 }
    ensures { SizesBody most (map (header_bytes buf.now) headers.now) result }
{
    match values_in(buf, headers, b"Transfer-Encoding") {
        Values::None => {}
        _ => return Length::Unknown,
    }
    let text = match values_in(buf, headers, b"Content-Length") {
        Values::One(text) => text,
        _ => return Length::Unknown,
    };
    match number_in(text) {
        None => Length::Unknown,
        Some(n) if n > most => Length::TooLarge,
        Some(n) => Length::Is(n),
    }
}
