//! The fields of a response's head.

ghost use Rattle.std.specs.Prelude.{◌≡◌, ℕ, List, [], ◌∷◌, ◌↔◌, IsTrue, MatchOption, All, codes, length, map};
ghost use Rattle.httparse.specs.Spans.{IsHeaderWithin, header_bytes};
ghost use Rattle.tl_hash.specs.Bytes.{Bytes};
ghost use Rattle.tl_http.specs.FieldValues.{values_of};
ghost use Rattle.tl_http.specs.Fields.{IsChunked, IsIdentity, IsLength};
ghost use Rattle.tl_http.specs.Inner.Framings.{SaysLength};
ghost use Rattle.tl_http.specs.Inner.Values.{CopiesValue};
ghost use Rattle.tl_http.specs.Post.{only_one};

use crate::fault::HttpFault;
use crate::field_values::{Values, number_in, values_in};
use crate::growth::append;
use httparse::spans::HeaderSpan;
use std::alloc::{AllocError, Allocator};

// The first number that is too large for a length.
const END_OF_LENGTHS: u64 = 1 << 63;

/// Reports whether no field has this name, in any case.
pub(crate) fn lacks_field(buf: &[u8], headers: &[HeaderSpan], name: &[u8]) -> bool
    requires { All (IsHeaderWithin (length buf.now)) headers.now }
    ensures { IsTrue result ↔ (values_of name.now (map (header_bytes buf.now) headers.now) ≡ []) }
{
    matches!(values_in(buf, headers, name), Values::None)
}

/// Copies the value of the one field with this name. `None` if there is no such field or more than one. It fails only
/// when an allocation for some bytes fails.
pub(crate) fn copy_value<A: Allocator + Copy>(
    alloc: A,
    buf: &[u8],
    headers: &[HeaderSpan],
    name: &[u8],
) -> Result<Option<Vec<u8, A>>, AllocError>
    requires { All (IsHeaderWithin (length buf.now)) headers.now }
    ensures { CopiesValue
        (only_one (values_of name.now (map (header_bytes buf.now) headers.now))) result }
{
    let Values::One(value) = values_in(buf, headers, name) else {
        return Ok(None);
    };
    let mut copy = Vec::new(alloc);
    append(alloc, &mut copy, value, value.len())?;
    Ok(Some(copy))
}

/// Reports whether the body has no content coding: no field Content-Encoding, or one with the value `identity`.
pub(crate) fn has_no_coding(buf: &[u8], headers: &[HeaderSpan]) -> bool
    requires { All (IsHeaderWithin (length buf.now)) headers.now }
    ensures { IsTrue result ↔ IsIdentity
        (values_of (codes "Content-Encoding") (map (header_bytes buf.now) headers.now)) }
{
    match values_in(buf, headers, b"Content-Encoding") {
        Values::None => true,
        Values::One(value) => value.eq_ignore_ascii_case(b"identity"),
        Values::More => false,
    }
}

/// Reports whether there is one field Transfer-Encoding, with the value `chunked`.
pub(crate) fn is_chunked(buf: &[u8], headers: &[HeaderSpan]) -> bool
    requires { All (IsHeaderWithin (length buf.now)) headers.now }
    ensures { IsTrue result ↔ IsChunked
        (values_of (codes "Transfer-Encoding") (map (header_bytes buf.now) headers.now)) }
{
    match values_in(buf, headers, b"Transfer-Encoding") {
        Values::None => false,
        Values::One(value) => value.eq_ignore_ascii_case(b"chunked"),
        Values::More => false,
    }
}

// Returns the number that digits write. `None` if the text isn't digits or the number is 2^63 or more.
fn length_of(text: &[u8]) -> Option<u64>
    ensures { MatchOption result ((n : ℕ) → ¬ (IsLength n text.now)) (λ n. IsLength n text.now) }
{
    match number_in(text) {
        Some(n) if n < END_OF_LENGTHS => Some(n),
        _ => None,
    }
}

// Joins one value of Content-Length with what the values after it announce.
fn with_value(text: &[u8], below: Result<Option<u64>, HttpFault>) -> Result<Option<u64>, HttpFault>
    ensures { (values : List Bytes)
        → SaysLength values below → SaysLength (text.now ∷ values) result }
{
    let Some(n) = length_of(text) else {
        return Err(HttpFault::BadLength);
    };
    let others = match below {
        Err(fault) => return Err(fault),
        Ok(others) => others,
    };
    match others {
        None => Ok(Some(n)),
        Some(m) => {
            if m == n {
                Ok(Some(n))
            } else {
                Err(HttpFault::BadLength)
            }
        }
    }
}

/// Returns the length of the body that the fields announce, or `None` if no field does. `BadLength` if they aren't
/// one number below 2^63.
pub(crate) fn length_in(buf: &[u8], headers: &[HeaderSpan]) -> Result<Option<u64>, HttpFault>
    requires { All (IsHeaderWithin (length buf.now)) headers.now }
    ensures { SaysLength
        (values_of (codes "Content-Length") (map (header_bytes buf.now) headers.now)) result }
{
    let [first, rest @ ..] = headers else {
        return Ok(None);
    };
    let below = length_in(buf, rest);
    if !first.name.of(buf).eq_ignore_ascii_case(b"Content-Length") {
        return below;
    }
    with_value(first.value.of(buf), below)
}
