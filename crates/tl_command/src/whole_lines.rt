//! Cuts the whole lines at the beginning of a piece of input.

ghost use Rattle.std.specs.Prelude.{◌≡◌, [], ◌∷◌, length, map, IfNone, IfSome};
ghost use Rattle.tl_command.specs.Inner.Cuts.{BeginsWithLines};
ghost use Rattle.tl_command.specs.Inner.Growing.{BeginsWith};

use memchr::memchr;
use tl_tile::LONGEST_ENTRY;

/// The first four whole lines of a piece of input, without their newlines, and what follows them.
#[derive(Drop)]
pub(crate) struct FourLines<'a> {
    pub(crate) first: &'a [u8],
    pub(crate) second: &'a [u8],
    pub(crate) third: &'a [u8],
    pub(crate) fourth: &'a [u8],
    pub(crate) rest: &'a [u8],
}

// Returns the first line of a piece and what follows its newline, or None if the piece has no newline or the line is
// too long.
fn cut_line(piece: &[u8]) -> Option<(&[u8], &[u8])>
    ensures line { IfSome result (λ cut. BeginsWith piece.entry.now (cut.0.now ∷ []) cut.1.now) }
    ensures none { IfNone result (BeginsWithLines piece.entry.now 1 → ⊥) }
{
    let end = memchr(b'\n', piece)?;
    if end > LONGEST_ENTRY {
        return None;
    }
    Some((&piece[..end], &piece[end + 1..]))
}

/// Returns the first four lines of a piece, or None if it doesn't begin with four whole lines that are short enough.
pub(crate) fn cut_four(piece: &[u8]) -> Option<FourLines<'_>>
    ensures { IfSome result (λ four. BeginsWith piece.entry.now
        (four.first.now ∷ four.second.now ∷ four.third.now ∷ four.fourth.now ∷ []) four.rest.now) }
{
    let (first, rest) = cut_line(piece)?;
    let (second, rest) = cut_line(rest)?;
    let (third, rest) = cut_line(rest)?;
    let (fourth, rest) = cut_line(rest)?;
    Some(FourLines {
        first,
        second,
        third,
        fourth,
        rest,
    })
}

/// The first 256 whole lines of a piece of input, without their newlines, and what follows them.
#[derive(Drop)]
pub(crate) struct TileLines<'a> {
    pub(crate) lines: [&'a [u8]; 256],
    pub(crate) rest: &'a [u8],
}

/// Returns the first 256 lines of a piece, or None if it doesn't begin with 256 whole lines that are short enough.
pub(crate) fn cut_tile(piece: &[u8]) -> Option<TileLines<'_>>
    ensures begins { IfSome result (λ tile. BeginsWith piece.entry.now
        (map (λ line. line.now) tile.lines) tile.rest.now) }
    ensures count { IfSome result (λ tile. length tile.lines ≡ 256) }
    ensures none { IfNone result (BeginsWithLines piece.entry.now 256 → ⊥) }
{
    let mut lines = [&piece[..0]; 256];
    let mut rest = piece;
    for place in 0..256 {
        let (line, others) = cut_line(rest)?;
        lines[place] = line;
        rest = others;
    }
    Some(TileLines { lines, rest })
}
