//! Newlines.

ghost use Rattle.std.specs.Prelude.{◌≡◌, ◌==◌, count_by};
ghost use Rattle.tl_lines.specs.Inner.Cutting.{FindsNewline};

use memchr::memchr;

/// Finds the first newline of a piece.
pub(crate) fn find_newline(piece: &[u8]) -> Option<usize>
    ensures { FindsNewline piece.now result }
{
    memchr(b'\n', piece)
}

/// Counts the newlines of a piece.
pub(crate) fn count_newlines(piece: &[u8]) -> u64
    ensures { result ≡ count_by (λ byte. byte == 10) piece.now }
{
    piece.iter().filter(|byte| **byte == b'\n').count() as u64
}
