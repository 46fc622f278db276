//! A text of lines with a mark at the end of each 256th, from which a cut after any number of lines is found.

ghost use Rattle.std.specs.Prelude.{◌≡◌, ◌+◌, ◌*◌, ◌≤◌, ◌∷◌, length, take, drop, slice_index};
ghost use Rattle.tl_command.specs.Inner.Cuts.{AreMarks, AreWholeLines};
ghost use Rattle.tl_command.specs.Lines.{entries_of};

use crate::text::{TILE, lines_end};

/// A text of lines, and the places where its first 256 lines end, its first 512, and so on. Each place has the base
/// added. There may be fewer places than tiles of lines.
#[derive(Drop)]
pub(crate) struct MarkedText<'a> {
    pub(crate) text: &'a [u8],
    pub(crate) ends: &'a [usize],
    pub(crate) base: usize,
}

impl<'a> MarkedText<'a> {
    // Returns the place where the lines of this many tiles end, with the base added.
    fn mark(&self, tiles: usize) -> usize
        requires { tiles ≤ length self.now.ends.now }
        ensures { result ≡ slice_index (self.now.base ∷ self.now.ends.now) tiles }
    {
        if tiles == 0 {
            return self.base;
        }
        self.ends[tiles - 1]
    }

    // Returns how many bytes the lines of this many tiles have.
    fn tiles_end(&self, tiles: usize) -> usize
        requires noted { tiles ≤ length self.now.ends.now }
        requires marks { AreMarks self.now.text.now self.now.base self.now.ends.now }
        ensures place { self.now.base + result
            ≡ slice_index (self.now.base ∷ self.now.ends.now) tiles }
        ensures within { result ≤ length self.now.text.now }
        ensures lines { AreWholeLines (take result self.now.text.now) (tiles * 256) }
    {
        self.mark(tiles) - self.base
    }

    // Returns the lines of this many tiles, and those after them. Each part keeps its places.
    fn cut_at(&self, tiles: usize) -> (MarkedText<'a>, MarkedText<'a>)
        requires noted { tiles ≤ length self.now.ends.now }
        requires marks { AreMarks self.now.text.now self.now.base self.now.ends.now }
        ensures front { entries_of result.0.text.now
            ≡ take (tiles * 256) (entries_of self.now.text.now) }
        ensures back { entries_of result.1.text.now
            ≡ drop (tiles * 256) (entries_of self.now.text.now) }
        ensures bytes { length result.0.text.now + length result.1.text.now
            ≡ length self.now.text.now }
        ensures front_marks { AreMarks result.0.text.now result.0.base result.0.ends.now }
        ensures back_marks { AreMarks result.1.text.now result.1.base result.1.ends.now }
    {
        let (front, back) = self.text.split_at(self.tiles_end(tiles));
        let (before, behind) = self.ends.split_at(tiles);
        let first = MarkedText {
            text: front,
            ends: before,
            base: self.base,
        };
        let others = MarkedText {
            text: back,
            ends: behind,
            base: self.mark(tiles),
        };
        (first, others)
    }

    // Returns the text up to `at`, which isn't before the end of the lines of this many tiles, and the rest. The
    // first part keeps the places of these tiles, the second has none.
    fn cut_behind(&self, tiles: usize, at: usize) -> (MarkedText<'a>, MarkedText<'a>)
        requires noted { tiles ≤ length self.now.ends.now }
        requires marks { AreMarks self.now.text.now self.now.base self.now.ends.now }
        requires behind { slice_index (self.now.base ∷ self.now.ends.now) tiles
            ≤ self.now.base + at }
        requires within { at ≤ length self.now.text.now }
        ensures front { result.0.text.now ≡ take at self.now.text.now }
        ensures back { result.1.text.now ≡ drop at self.now.text.now }
        ensures front_marks { AreMarks result.0.text.now result.0.base result.0.ends.now }
        ensures back_marks { AreMarks result.1.text.now result.1.base result.1.ends.now }
    {
        let (front, back) = self.text.split_at(at);
        let first = MarkedText {
            text: front,
            ends: &self.ends[..tiles],
            base: self.base,
        };
        let others = MarkedText {
            text: back,
            ends: &self.ends[..0],
            base: 0,
        };
        (first, others)
    }

    /// Returns the first `count` lines, or all of them if there are fewer, and the lines after these. It looks for
    /// newlines from the last noted place at or before the cut. The first part keeps the places that lie in it. The
    /// second keeps the others if the cut is at a noted place, else none.
    pub(crate) fn split(&self, count: usize) -> (MarkedText<'a>, MarkedText<'a>)
        requires { AreMarks self.now.text.now self.now.base self.now.ends.now }
        ensures front { entries_of result.0.text.now ≡ take count (entries_of self.now.text.now) }
        ensures back { entries_of result.1.text.now ≡ drop count (entries_of self.now.text.now) }
        ensures bytes { length result.0.text.now + length result.1.text.now
            ≡ length self.now.text.now }
        ensures front_marks { AreMarks result.0.text.now result.0.base result.0.ends.now }
        ensures back_marks { AreMarks result.1.text.now result.1.base result.1.ends.now }
    {
        let tiles = self.ends.len().min(count / TILE);
        let left = count - tiles * TILE;
        if left == 0 {
            return self.cut_at(tiles);
        }
        let at = self.tiles_end(tiles);
        match lines_end(&self.text[at..], left) {
            Some(more) => self.cut_behind(tiles, at + more),
            None => self.cut_behind(tiles, self.text.len()),
        }
    }
}
