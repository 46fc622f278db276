//! The text of an answer after which the connection stays open.

ghost use Rattle.std.specs.Prelude.{◌≡◌, ◌≤◌, IsTrue, ◌+◌, ◌++◌, MatchOption, drop, length, nat_eq, take, vec_items};
ghost use Rattle.std.specs.List.{starts_with};
ghost use Rattle.tl_keepalive.specs.KeepAlive as spec;

/// The line that such an answer leaves out.
pub(crate) const CLOSE: &[u8; 19] = b"Connection: close\r\n";

// Reports whether these bytes begin with a text.
fn begins_with(bytes: &[u8], text: &[u8]) -> bool
    ensures fits { IsTrue result → length text.now ≤ length bytes.now }
    ensures front { result ≡ starts_with nat_eq bytes.now text.now }
{
    bytes.starts_with(text)
}

// Returns the first index at which a text stands in these bytes.
fn place_of(bytes: &[u8], text: &[u8]) -> Option<usize>
    ensures { MatchOption result (spec.without text.now bytes.now ≡ bytes.now)
        (λ at. (at + length text.now ≤ length bytes.now) × (spec.without text.now bytes.now
        ≡ take at bytes.now ++ drop (at + length text.now) bytes.now)) }
{
    for at in 0..bytes.len() {
        if begins_with(&bytes[at..], text) {
            return Some(at);
        }
    }
    None
}

// Moves what stands before the first place of a text over it, and returns where the bytes without that text begin.
fn shift(bytes: &mut [u8], text: &[u8]) -> usize
    ensures { (result ≤ length bytes.new) × (drop result bytes.new ≡ spec.without text.now bytes.old) }
{
    let Some(at) = place_of(bytes, text) else {
        return 0;
    };
    let len = text.len();
    bytes[..at + len].rotate_right(len);
    len
}

/// Moves what stands before the first place of a text over it, and returns where the bytes without that text begin.
pub(crate) fn take_out(bytes: &mut Vec<u8>, text: &[u8]) -> usize
    ensures { drop result (vec_items bytes.new) ≡ spec.without text.now (vec_items bytes.old) }
{
    shift(bytes.as_mut_slice(), text)
}
