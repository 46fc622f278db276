//! What the head of a response says of its body.

ghost use Rattle.std.specs.Prelude.{◌↔◌, Contains, IsTrue, map, take};
ghost use Rattle.httparse.specs.Spans.{IsResponseWithin, header_bytes};
ghost use Rattle.tl_http.specs.Inner.Heads.{Announces};

use crate::fault::HttpFault;
use crate::fields::has_no_coding;
use crate::framing::{Framing, framing_in};
use httparse::spans::{HeaderSpan, ResponseSpans};

// Reports whether a status is one of these.
fn is_wanted(statuses: &[u16], status: u16) -> bool
    ensures { IsTrue result ↔ Contains statuses.now status }
{
    statuses.contains(&status)
}

/// Returns how the body is framed, from the head at the front of these bytes. `GetFault` says why the body isn't
/// read: a later version, a status other than these, a coding, or a length that isn't clear.
pub(crate) fn announced(
    bytes: &[u8],
    headers: &[HeaderSpan],
    spans: ResponseSpans,
    statuses: &[u16],
) -> Result<Framing, HttpFault>
    requires { IsResponseWithin bytes.now headers.now spans }
    ensures { Announces (λ status. Contains statuses.now status) spans.version spans.code
        (map (header_bytes bytes.now) (take spans.headers headers.now)) result }
{
    if spans.version > 1 {
        return Err(HttpFault::Version);
    }
    if !is_wanted(statuses, spans.code) {
        return Err(HttpFault::Status(spans.code));
    }
    let fields = &headers[..spans.headers];
    if !has_no_coding(bytes, fields) {
        return Err(HttpFault::Encoded);
    }
    match framing_in(bytes, fields, spans.version) {
        Err(fault) => Err(fault),
        Ok(framing) => Ok(framing),
    }
}
