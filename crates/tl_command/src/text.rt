//! How many lines a text has and where the first of them end, found without a copy.

ghost use Rattle.std.specs.Prelude.{◌≡◌, ◌≤◌, length, take, None, Some, IfErr, IfNone, IfOk, IfSome, OnOk};
ghost use Rattle.tl_command.specs.Inner.Cuts.{AreWholeLines};
ghost use Rattle.tl_command.specs.Lines.{entries_of, first_too_long};

use crate::entries::first_entry;
use memchr::memchr;
use tl_tile::LONGEST_ENTRY;

/// The number of lines under a tile.
pub(crate) const TILE: usize = 256;

/// Returns the number of lines of a text, or as its error the index of the first line that has more than 65,535
/// bytes.
pub(crate) fn count_lines(text: &[u8]) -> Result<u64, u64>
    ensures count { IfOk result (λ count. count ≡ length (entries_of text.now)) }
    ensures short { OnOk result (first_too_long (entries_of text.now) ≡ None) }
    ensures long { IfErr result (λ place. first_too_long (entries_of text.now) ≡ Some place) }
    ensures within { IfErr result (λ place. place ≤ length text.now) }
{
    let mut count = 0u64;
    let mut rest = text;
    while !rest.is_empty() {
        let (line, others) = first_entry(rest);
        if line.len() > LONGEST_ENTRY {
            return Err(count);
        }
        count += 1;
        rest = others;
    }
    Ok(count)
}

/// Returns how many bytes the first `count` lines of a text have, each with its newline, or None if the text has
/// fewer newlines.
pub(crate) fn lines_end(text: &[u8], count: usize) -> Option<usize>
    ensures within { IfSome result (λ end. end ≤ length text.now) }
    ensures lines { IfSome result (λ end. AreWholeLines (take end text.now) count) }
    ensures fewer { IfNone result (length (entries_of text.now) ≤ count) }
{
    let mut at = 0;
    for _line in 0..count {
        let newline = memchr(b'\n', &text[at..])?;
        at += newline + 1;
    }
    Some(at)
}
