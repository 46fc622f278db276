//! Fetched tiles, with their texts.

ghost use Rattle.std.specs.Prelude.{◌≡◌, ◌↔◌, ◌∷◌, ◌++◌, ℕ, List, [], length, take_while, IsTrue, MatchOption, IfOk, IfErr, OnErr, Some, None};
ghost use Rattle.std.specs.List.{prefix_len};
ghost use Rattle.tl_hash.specs.Bytes.{Bytes, Digest};
ghost use Rattle.tl_tile.specs.Fetched as spec;
ghost use Rattle.tl_tile.specs.Fetched.{same_tile, tiles_of, texts_of};
ghost use Rattle.tl_tile.specs.Verified.{HavePassed};
ghost use Rattle.tl_tile.specs.SourceFaults.{IsLast};
ghost use Rattle.tl_tile.specs.declared.source.SourceFault.TheVariants.{Unavailable};

use crate::resource::Tile;
use crate::source::{SourceFault, TileSource};
use std::alloc::Allocator;
use std::marker::Model;

// Reports whether two tiles are the same.
fn is_same(a: Tile, b: Tile) -> bool
    ensures { result ≡ same_tile a b }
{
    a.level == b.level && a.index == b.index && a.width == b.width
}

// Reports whether a tile is partial, or a full one of the eight levels over the entry with this index.
fn is_on_path(index: u64, tile: Tile) -> bool
    ensures { result ≡ spec.is_on_path index tile }
{
    if tile.width < 256 {
        return true;
    }
    tile.level < 8 && (index >> (8 * tile.level)) / 256 == tile.index
}

// Returns the number of tiles at the front that are partial, or full and over the entry with this index.
fn path_len<A: Allocator>(tiles: &[(Tile, Vec<u8, A>)], index: u64) -> usize
    ensures { result ≡ prefix_len (λ f. spec.is_on_path index f.0) (texts_of tiles.now) }
{
    let mut count = 0;
    for fetched in tiles {
        if !is_on_path(index, fetched.0) {
            return count;
        }
        count += 1;
    }
    count
}

// Returns the text of a tile, or `None` if it is not among these.
fn text_in<A: Allocator>(tiles: &[(Tile, Vec<u8, A>)], tile: Tile) -> Option<&[u8]>
    ensures { MatchOption result
        (tiles_of (texts_of tiles.now) tile ≡ None)
        (λ text. tiles_of (texts_of tiles.now) tile ≡ Some text.now) }
{
    for fetched in tiles {
        if is_same(fetched.0, tile) {
            return Some(fetched.1.as_slice());
        }
    }
    None
}

/// Tiles of a log as a source returned them, in the order of fetching. Contracts see the list of the tiles with their
/// texts.
#[derive(Drop)]
pub struct FetchedTiles<A: Allocator> {
    tiles: Vec<(Tile, Vec<u8, A>), A>,
}

impl<A: Allocator> Model for FetchedTiles<A> {
    ghost use Rattle.std.specs.Prelude.{ℕ, List};
    ghost use Rattle.tl_tile.specs.declared.resource.Tile.{Tile};
    ghost use Rattle.tl_tile.specs.Fetched.{texts_of};

    ghost Value = { List (Tile × List ℕ) };

    ghost view = { λ f. texts_of f.tiles.items };
}

impl<A: Allocator> FetchedTiles<A> {
    /// Returns a list of no tiles. Texts are allocated from `alloc`; an empty list allocates nothing.
    pub fn new(alloc: A) -> FetchedTiles<A>
        ensures { result ≡ [] }
    {
        FetchedTiles {
            tiles: Vec::new(alloc),
        }
    }

    /// Returns the tiles with their texts.
    pub fn as_slice(&self) -> &[(Tile, Vec<u8, A>)]
        ensures { texts_of result.now ≡ self.now }
    {
        &self.tiles
    }

    /// Reports whether there is none.
    pub fn is_empty(&self) -> bool
        ensures { IsTrue result ↔ (self.now ≡ []) }
    {
        self.tiles.is_empty()
    }

    /// Returns the text of a tile, or `None` if it is not among these.
    pub fn text_of(&self, tile: Tile) -> Option<&[u8]>
        ensures { MatchOption result
            (tiles_of self.now tile ≡ None)
            (λ text. tiles_of self.now tile ≡ Some text.now) }
    {
        text_in(&self.tiles, tile)
    }

    // Returns the text of the tile that was fetched last.
    pub(crate) fn last_text(&self) -> Option<&[u8]>
        ensures { MatchOption result (self.now ≡ [])
            (λ text. (t : Tile) × IsLast t text.now self.now) }
    {
        match self.tiles.as_slice() {
            [] => None,
            [.., last] => Some(last.1.as_slice()),
        }
    }

    /// Drops all tiles from the first full one on that isn't over the entry with this index. If the tiles passed all
    /// checks in the order of a read, so have those that stay, which are at most fifteen. A read of that entry goes
    /// on from them.
    pub fn keep_path(&mut self, index: u64)
        ensures path { self.new ≡ take_while (λ f. spec.is_on_path index f.0) self.old }
        ensures passed { (H : Digest) (size : ℕ) (root : Bytes)
            → HavePassed H size root self.old → HavePassed H size root self.new }
    {
        let count = path_len(&self.tiles, index);
        self.tiles.truncate(count);
    }

    // Drops all tiles.
    pub(crate) fn clear(&mut self)
        ensures { self.new ≡ [] }
    {
        self.tiles.clear();
    }
}

impl<A: Allocator + Copy> FetchedTiles<A> {
    // Returns the allocator.
    pub(crate) fn allocator(&self) -> A {
        *self.tiles.allocator()
    }

    // Fetches a tile, keeps it with its text, and returns the length of the text. It reserves room first, so that no
    // text that was fetched is lost.
    pub(crate) fn fetch<S: TileSource>(
        &mut self,
        source: &S,
        tile: Tile,
    ) -> Result<usize, SourceFault>
        ensures text { IfOk result (λ len. (text : Bytes) × (self.new ≡ self.old
            ++ (tile, text) ∷ []) × S.may_answer source.now tile text × (len ≡ length text)) }
        ensures unchanged { OnErr result (self.new ≡ self.old) }
        ensures lacks { IfErr result (λ fault. fault ≡ Unavailable → S.may_lack source.now tile) }
    {
        self.tiles.reserve(1)?;
        let text = match source.fetch(*self.tiles.allocator(), tile) {
            Ok(text) => text,
            Err(fault) => return Err(fault),
        };
        let len = text.len();
        self.tiles.push_reserved((tile, text));
        Ok(len)
    }
}
