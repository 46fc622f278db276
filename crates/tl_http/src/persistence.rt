//! Whether a connection goes on after a response.

ghost use Rattle.std.specs.Prelude.{◌≡◌, ◌↔◌, ◌≤◌, IsTrue, All, codes, length, map, reverse, take};
ghost use Rattle.std.specs.List.{AllByRecursion};
ghost use Rattle.httparse.specs.Spans.{IsHeaderWithin, IsResponseWithin, header_bytes};
ghost use Rattle.tl_http.specs.FieldValues.{values_of};
ghost use Rattle.tl_http.specs.Persistence as spec;
ghost use Rattle.tl_http.specs.Persistence.{NamesClose, Persists};
ghost use Rattle.tl_http.specs.Inner.Closing.{NamesCloseAt};

use crate::framing::Framing;
use httparse::is_space_or_tab;
use httparse::spans::{HeaderSpan, ResponseSpans};

// The option of the field Connection that closes a connection.
const CLOSE: &[u8; 5] = b"close";

/// Returns how the body ends: a response with status 204 or 304 has none, whatever its fields say.
pub(crate) fn body_framing(status: u16, framing: Framing) -> Framing
    ensures framing { result ≡ spec.body_framing status framing }
{
    if status == 204 || status == 304 {
        return Framing::Sized(0);
    }
    framing
}

// Reports whether only spaces and tabs come before the end of the text or a comma.
fn is_item_end(text: &[u8]) -> bool
    ensures end { result ≡ spec.is_item_end text.now }
{
    for byte in text {
        if !is_space_or_tab(*byte) {
            return *byte == b',';
        }
    }
    true
}

// Reports whether only spaces and tabs stand between the end of the text and a comma before it, or its beginning.
fn is_item_start(text: &[u8]) -> bool
    ensures start { result ≡ spec.is_item_end (reverse text.now) }
{
    let [rest @ .., last] = text else {
        return true;
    };
    if !is_space_or_tab(*last) {
        return *last == b',';
    }
    is_item_start(rest)
}

// Reports whether the option `close` stands at this index of a value.
fn names_close_at(value: &[u8], start: usize) -> bool
    requires within { start ≤ length value.now }
    ensures close { IsTrue result ↔ NamesCloseAt value.now start }
{
    let (before, rest) = value.split_at(start);
    if rest.len() < CLOSE.len() {
        return false;
    }
    let (word, after) = rest.split_at(CLOSE.len());
    if !word.eq_ignore_ascii_case(CLOSE) {
        return false;
    }
    if !is_item_start(before) {
        return false;
    }
    is_item_end(after)
}

// Reports whether a value names the option `close`.
fn names_close(value: &[u8]) -> bool
    ensures close { IsTrue result ↔ NamesClose value.now }
{
    for start in 0..value.len() {
        if names_close_at(value, start) {
            return true;
        }
    }
    false
}

// Reports whether no field Connection names the option `close`.
fn lacks_close(buf: &[u8], headers: &[HeaderSpan]) -> bool
    requires { All (IsHeaderWithin (length buf.now)) headers.now }
    ensures unclosed { IsTrue result ↔ AllByRecursion (λ value. ¬ (NamesClose value))
        (values_of (codes "Connection") (map (header_bytes buf.now) headers.now)) }
{
    let [first, rest @ ..] = headers else {
        return true;
    };
    let below = lacks_close(buf, rest);
    if !first.name.of(buf).eq_ignore_ascii_case(b"Connection") {
        return below;
    }
    !names_close(first.value.of(buf)) && below
}

/// Reports whether the connection goes on after a response with the head at the front of these bytes and a body
/// framed like this.
pub(crate) fn persists(
    bytes: &[u8],
    headers: &[HeaderSpan],
    spans: ResponseSpans,
    framing: Framing,
) -> bool
    requires { IsResponseWithin bytes.now headers.now spans }
    ensures persists { IsTrue result ↔ Persists spans.version spans.code
        (map (header_bytes bytes.now) (take spans.headers headers.now)) framing }
{
    let Framing::Sized(_) = framing else {
        return false;
    };
    spans.version == 1 && spans.code != 101 && lacks_close(bytes, &headers[..spans.headers])
}
