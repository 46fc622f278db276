//! Places after whole lines at which a piece of input is cut to share the work. Nothing else is promised of them than
//! that they lie in the piece.

ghost use Rattle.std.specs.Prelude.{◌≤◌, length};

use crate::text::{TILE, lines_end};

// The number of tiles of lines at the beginning of a piece, and where the last of them ends.
#[derive(Clone, Copy)]
pub(super) struct Tiles {
    pub(super) end: usize,
    pub(super) count: usize,
}

// Returns the tiles of lines at the beginning of a piece, at most `most` of them.
pub(super) fn first_tiles(piece: &[u8], most: usize) -> Tiles
    ensures end { result.end ≤ length piece.now }
    ensures count { result.count ≤ most }
{
    let mut end = 0;
    for count in 0..most {
        let Some(tile) = lines_end(&piece[end..], TILE) else {
            return Tiles { end, count };
        };
        end += tile;
    }
    Tiles { end, count: most }
}
