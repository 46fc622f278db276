//! What the head of a request says of its body.

ghost use Rattle.std.specs.Prelude.{◌≡◌, ◌-◌, ◌<◌, ◌^◌, map, take};
ghost use Rattle.httparse.specs.Spans.{IsRequestWithin, header_bytes, span_bytes};
ghost use Rattle.tl_server.specs.Inner.Posts.{AsksPost};

use crate::fields::{Length, length_in};
use crate::method::is_text;
use httparse::spans::{HeaderSpan, RequestSpans};

/// What a head says of the body that follows it.
#[derive(Clone, Copy)]
pub(crate) enum Posted {
    /// Another method than POST.
    OtherMethod,
    /// The fields don't give the length of the body.
    Unsized,
    /// The body is too large.
    TooLarge,
    /// The body has this many bytes.
    Sized(u64),
}

/// Returns what the head at the front of these bytes says of a body of at most `most` bytes.
pub(crate) fn posted_of(
    bytes: &[u8],
    headers: &[HeaderSpan],
    spans: RequestSpans,
    most: u64,
) -> Posted
    requires within { IsRequestWithin bytes.now headers.now spans }
    requires counted { most < 2 ^ 64 - 1 }
    ensures { AsksPost most (span_bytes bytes.now spans.method)
        (map (header_bytes bytes.now) (take spans.headers headers.now)) result }
{
    if !is_text(spans.method.of(bytes), b"POST") {
        return Posted::OtherMethod;
    }
    match length_in(bytes, &headers[..spans.headers], most) {
        Length::Unknown => Posted::Unsized,
        Length::TooLarge => Posted::TooLarge,
        Length::Is(n) => Posted::Sized(n),
    }
}
