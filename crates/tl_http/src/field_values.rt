//! Fields of a head, by their names.

ghost use Rattle.std.specs.Prelude.{◌≡◌, ◌<◌, ◌-◌, ◌^◌, ℕ, MatchOption, All, length, map, min};
ghost use Rattle.httparse.specs.Spans.{IsHeaderWithin, header_bytes};
ghost use Rattle.tl_http.specs.FieldValues.{values_of, IsNumber};
ghost use Rattle.tl_http.specs.Values.{AreValues};

use httparse::spans::HeaderSpan;

/// The values of the fields with one name.
#[derive(Clone, Copy)]
pub enum Values<'b> {
    /// There is none.
    None,
    /// There is this one.
    One(&'b [u8]),
    /// There are several.
    More,
}

/// Returns the values of the fields with this name, in any case (RFC 9110, section 5.1). The headers are spans of
/// `buf`.
pub fn values_in<'b>(buf: &'b [u8], headers: &[HeaderSpan], name: &[u8]) -> Values<'b>
    requires { All (IsHeaderWithin (length buf.now)) headers.now }
    ensures { AreValues (values_of name.now (map (header_bytes buf.now) headers.now)) result }
{
    let [first, rest @ ..] = headers else {
        return Values::None;
    };
    let below = values_in(buf, rest, name);
    if !first.name.of(buf).eq_ignore_ascii_case(name) {
        return below;
    }
    match below {
        Values::None => Values::One(first.value.of(buf)),
        Values::One(_) => Values::More,
        Values::More => Values::More,
    }
}

/// Reads a number in decimal digits, and returns 2^64 - 1 if it is larger. Returns `None` if the text is empty or not
/// all digits (RFC 9110, section 8.6).
pub fn number_in(text: &[u8]) -> Option<u64>
    ensures { MatchOption result ((n : ℕ) → ¬ (IsNumber text.now n))
        (λ m. (n : ℕ) × IsNumber text.now n × (m ≡ min n (2 ^ 64 - 1))) }
{
    if text.is_empty() {
        return None;
    }
    let mut n: u64 = 0;
    for byte in text {
        if !byte.is_ascii_digit() {
            return None;
        }
        n = n.saturating_mul(10).saturating_add((*byte - b'0') as u64);
    }
    Some(n)
}
