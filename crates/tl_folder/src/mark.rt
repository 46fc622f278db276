//! The mark of a folder: a file with the number of entries that were published. A crash may remove it or leave an
//! older one.

ghost use Rattle.std.specs.Prelude.{◌≡◌, ◌≢◌, ◌<◌, ◌^◌, IfNone, IfSome, ℕ};
ghost use Rattle.tl_folder.specs.Places.{mark_text};

use tl_text::parse_size;

/// The most bytes that are read of a mark: more than the longest number and a newline.
pub(crate) const MOST_MARK: u64 = 32;

/// Returns the number below 2^63 that a mark's bytes state.
pub(crate) fn parse_mark(bytes: &[u8]) -> Option<u64>
    ensures marked { IfSome result (λ size. bytes.now ≡ mark_text size) }
    ensures unmarked { IfNone result ((size : ℕ) → size < 2 ^ 63 → bytes.now ≢ mark_text size) }
{
    let Ok(text) = str::from_utf8(bytes) else {
        return None;
    };
    let Some(number) = text.strip_suffix("\n") else {
        return None;
    };
    parse_size(number)
}
