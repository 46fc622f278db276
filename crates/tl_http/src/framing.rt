//! How the end of a body is found.

ghost use Rattle.std.specs.Prelude.{length, map, All};
ghost use Rattle.httparse.specs.Spans.{IsHeaderWithin, header_bytes};
ghost use Rattle.tl_http.specs.Inner.Framings.{FramesBody};

use crate::fault::HttpFault;
use crate::fields::{is_chunked, lacks_field, length_in};
use httparse::spans::HeaderSpan;

/// How the end of a body is found (RFC 9112, section 6.3).
#[derive(Clone, Copy)]
pub(crate) enum Framing {
    /// It has this many bytes.
    Sized(u64),
    /// It goes on to the end of the input.
    UntilEnd,
    /// It comes in chunks, each with its length.
    Chunked,
}

/// Returns how the fields frame the body, in a head with this minor version. `Encoded` if a field Transfer-Encoding
/// has another value than `chunked`, or comes with HTTP/1.0. `BadLength` if the length isn't clear.
pub(crate) fn framing_in(
    buf: &[u8],
    headers: &[HeaderSpan],
    minor: u8,
) -> Result<Framing, HttpFault>
    requires { All (IsHeaderWithin (length buf.now)) headers.now }
    ensures { FramesBody minor (map (header_bytes buf.now) headers.now) result }
{
    if lacks_field(buf, headers, b"Transfer-Encoding") {
        return match length_in(buf, headers) {
            Err(fault) => Err(fault),
            Ok(None) => Ok(Framing::UntilEnd),
            Ok(Some(n)) => Ok(Framing::Sized(n)),
        };
    }
    if minor != 1 {
        return Err(HttpFault::Encoded);
    }
    if !is_chunked(buf, headers) {
        return Err(HttpFault::Encoded);
    }
    if !lacks_field(buf, headers, b"Content-Length") {
        return Err(HttpFault::BadLength);
    }
    Ok(Framing::Chunked)
}
