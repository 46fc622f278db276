//! The right edge of a growing log: its size and the hashes of its partial tiles.

ghost use Rattle.std.specs.Prelude.{◌≡◌, ◌≤◌, ◌<◌, ◌+◌, ◌-◌, ◌%◌, ◌^◌, ◌⊎◌, [], ◌∷◌, ◌++◌, List, length, map, take, vec_items, option_map, MatchOption, IfSome, IfOk, OnOk, OnErr};
ghost use Rattle.tl_hash.specs.Bytes.{Bytes};
ghost use Rattle.tl_hash.specs.Tree.{leaf_input, tree_hash};
ghost use Rattle.tl_tile.specs.TileText.{level_count, partial_tile};
ghost use Rattle.tl_tile.specs.RightEdge.{filled_tiles, shown_partial, shown_filled, shown_since, hashes_below, count_below, IsEdgeOf};
ghost use Rattle.tl_tile.specs.Inner.Adds.{Adds};
ghost use Rattle.tl_tile.specs.Fetched.{texts_of, tiles_in};

mod joined;
mod restored;

use crate::fold::{fill, fold_level};
use crate::four_runs::tile_root;
use crate::resource::Tile;
use crate::tile::join;
use std::alloc::{AllocError, Allocator};
use std::marker::Model;
use tl_hash::{Hash, TreeHash, empty_hash, leaf_hash};

/// The right edge of a log: the number of its entries and the hashes of the partial tiles of that size (C2SP
/// tlog-tiles, "Partial Tiles"), at most 255 for each level, and nothing else. Contracts see the size, the kept
/// hashes, and how many hashes there is memory for.
#[derive(Drop)]
pub struct Edge<T: TreeHash, A: Allocator> {
    digest: T,
    kept: Vec<Hash, A>,
    size: u64,
}

impl<T: TreeHash, A: Allocator> Model for Edge<T, A> {
    ghost use Rattle.std.specs.Prelude.{◌≡◌, ◌<◌, ◌^◌, length, vec_capacity};
    ghost use Rattle.tl_tile.specs.RightEdge.{EdgeContents, count_below};

    ghost Value = { EdgeContents };

    ghost view = { λ e. record { size = e.size; kept = e.kept.items; room = vec_capacity e.kept } };

    ghost invariant = { λ e. (length e.kept.items ≡ count_below e.size 8) × (e.size < 2 ^ 32) };
}

// Returns the number of hashes that are kept for the levels below this one.
fn count_of(size: u64, level: u32) -> usize
    requires { level ≤ 8 }
    ensures { result ≡ count_below size level }
{
    let mut kept = 0;
    let mut count = size;
    for _lower in 0..level {
        kept += (count % 256) as usize;
        count /= 256;
    }
    kept
}

// Returns the tree hash over the kept hashes, from the lowest level up, or `None` for no entries.
fn root_of<T: TreeHash>(h: T, kept: &[Hash], size: u64) -> Option<Hash>
    requires small { size < 2 ^ 32 }
    requires counted { length kept.now ≡ count_below size 8 }
    ensures { (entries : List Bytes)
        → length entries ≡ size
        → kept.now ≡ hashes_below T.digest_of entries 8
        → MatchOption result (size ≡ 0) (λ root. root ≡ tree_hash T.digest_of entries) }
{
    let mut below = None;
    let mut end = kept.len();
    let mut count = size;
    for _level in 0..8u32 {
        let start = end - (count % 256) as usize;
        below = fold_level(h, &kept[start..end], below);
        end = start;
        count /= 256;
    }
    below
}

impl<T: TreeHash, A: Allocator + Copy> Edge<T, A> {
    /// Returns the edge of a log with no entries, which hashes with `h`. It allocates nothing.
    pub fn new(alloc: A, h: T) -> Edge<T, A>
        ensures { IsEdgeOf result T.digest_of [] }
    {
        Edge {
            digest: h,
            kept: Vec::new(alloc),
            size: 0,
        }
    }

    /// Returns the number of entries.
    pub fn size(&self) -> u64
        ensures { result ≡ self.now.size }
    {
        self.size
    }

    /// Returns the tree hash of the entries (RFC 6962, section 2.1). It allocates nothing.
    pub fn root(&self) -> Hash
        ensures { (entries : List Bytes)
            → IsEdgeOf self.now T.digest_of entries
            → result ≡ tree_hash T.digest_of entries }
    {
        match root_of(self.digest, &self.kept, self.size) {
            None => empty_hash(self.digest),
            Some(root) => root,
        }
    }

    /// Returns the partial tile of a level with its bytes, or `None` if the level has none. `level` is from 0 to 7;
    /// there are no partial tiles above level 3. It fails only if allocation fails, and allocates only if there is
    /// such a tile.
    pub fn partial(&self, level: u32) -> Result<Option<(Tile, Vec<u8, A>)>, AllocError>
        requires { level ≤ 7 }
        ensures tile { (entries : List Bytes)
            → IsEdgeOf self.now T.digest_of entries
            → IfOk result (λ found. option_map (λ t. (t.0, vec_items t.1)) found
            ≡ shown_partial T.digest_of entries level) }
        ensures named { IfOk result
            (λ found. IfSome found (λ t. t.0 ≡ partial_tile self.now.size level)) }
        ensures memory { OnErr result (0 < level_count self.now.size level % 256) }
    {
        let end = self.kept.len() - count_of(self.size, level);
        let count = self.size >> (8 * level);
        let width = (count % 256) as u32;
        if width == 0 {
            return Ok(None);
        }
        let alloc = *self.kept.allocator();
        let bytes = join(alloc, &self.kept[end - width as usize..end])?;
        let tile = Tile {
            level,
            index: count / 256,
            width,
        };
        Ok(Some((tile, bytes)))
    }

    /// Appends an entry, and returns the full tiles that it completes with their bytes, by level: those that a log
    /// serves with this entry and didn't serve before. The edge takes up to 2^32 - 1 entries. An entry costs one leaf
    /// hash, and 255 node hashes for each tile that it completes. If allocation fails, the edge doesn't change; it
    /// allocates only if there is no room for one more hash, or if the entry completes a tile.
    pub fn append(&mut self, entry: &[u8]) -> Result<Vec<(Tile, Vec<u8, A>), A>, AllocError>
        requires { self.old.size < 2 ^ 32 - 1 }
        ensures entry { (entries : List Bytes)
            → IsEdgeOf self.old T.digest_of entries
            → OnOk result (IsEdgeOf self.new T.digest_of (entries ++ entry.now ∷ [])) }
        ensures tiles { (entries : List Bytes)
            → IsEdgeOf self.old T.digest_of entries
            → IfOk result (λ tiles. map (λ t. (t.0, vec_items t.1)) tiles.items
            ≡ shown_filled T.digest_of (entries ++ entry.now ∷ [])) }
        ensures named { IfOk result
            (λ tiles. tiles_in (texts_of tiles.items) ≡ filled_tiles (self.old.size + 1)) }
        ensures size { OnOk result (self.new.size ≡ self.old.size + 1) }
        ensures unchanged { OnErr result (self.new ≡ self.old) }
        ensures full { OnErr result
            ((self.old.room ≤ length self.old.kept) ⊎ ((self.old.size + 1) % 256 ≡ 0)) }
    {
        let alloc = *self.kept.allocator();
        let leaf = leaf_hash(self.digest, entry);
        let filled = fill(alloc, self.digest, true, &self.kept, self.size, 0, leaf)?;
        self.kept.reserve(1)?;
        self.keep(filled.left, filled.hash, 1);
        Ok(filled.tiles)
    }

    /// Appends entries, as calls of `append` do one by one, and returns all full tiles that these return, in the same
    /// order. It hashes four entries side by side. The edge takes up to 2^32 - 1 entries in all. If allocation fails,
    /// the edge doesn't change; for no entries nothing is allocated.
    pub fn append_all<B: Allocator>(
        &mut self,
        entries: &[Vec<u8, B>],
    ) -> Result<Vec<(Tile, Vec<u8, A>), A>, AllocError>
        requires { self.old.size + length entries.now < 2 ^ 32 }
        ensures entries { (before : List Bytes)
            → IsEdgeOf self.old T.digest_of before
            → OnOk result (IsEdgeOf self.new T.digest_of (before ++ map vec_items entries.now)) }
        ensures tiles { (before : List Bytes)
            → IsEdgeOf self.old T.digest_of before
            → IfOk result (λ tiles. map (λ t. (t.0, vec_items t.1)) tiles.items
            ≡ shown_since T.digest_of (length before) (before ++ map vec_items entries.now)) }
        ensures size { OnOk result (self.new.size ≡ self.old.size + length entries.now) }
        ensures unchanged { OnErr result (self.new ≡ self.old) }
        ensures memory { OnErr result (0 < length entries.now) }
    {
        let mut tiles = Vec::new(*self.kept.allocator());
        if entries.is_empty() {
            return Ok(tiles);
        }
        let mut grown = self.copy()?;
        grown.append_each(entries, &mut tiles)?;
        *self = grown;
        Ok(tiles)
    }

    /// Appends an entry, as `append` does, and makes no tiles. If allocation fails, the edge doesn't change; it
    /// allocates only if there is no room for one more hash.
    pub fn push(&mut self, entry: &[u8]) -> Result<(), AllocError>
        requires { self.old.size < 2 ^ 32 - 1 }
        ensures entry { (entries : List Bytes)
            → IsEdgeOf self.old T.digest_of entries
            → OnOk result (IsEdgeOf self.new T.digest_of (entries ++ entry.now ∷ [])) }
        ensures size { OnOk result (self.new.size ≡ self.old.size + 1) }
        ensures unchanged { OnErr result (self.new ≡ self.old) }
        ensures full { OnErr result (self.old.room ≤ length self.old.kept) }
    {
        self.kept.reserve(1)?;
        let hash = leaf_hash(self.digest, entry);
        self.push_leaf(hash);
        Ok(())
    }

    /// Appends four entries, as four calls of `push` do, and hashes them side by side. If allocation fails, the edge
    /// doesn't change; it allocates only if there is no room for four more hashes.
    pub fn push_four(
        &mut self,
        first: &[u8],
        second: &[u8],
        third: &[u8],
        fourth: &[u8],
    ) -> Result<(), AllocError>
        requires { self.old.size < 2 ^ 32 - 4 }
        ensures entries { (entries : List Bytes)
            → IsEdgeOf self.old T.digest_of entries → OnOk result (IsEdgeOf self.new T.digest_of
            (entries ++ first.now ∷ second.now ∷ third.now ∷ fourth.now ∷ [])) }
        ensures size { OnOk result (self.new.size ≡ self.old.size + 4) }
        ensures unchanged { OnErr result (self.new ≡ self.old) }
        ensures full { OnErr result (self.old.room < length self.old.kept + 4) }
    {
        self.kept.reserve(4)?;
        let leaves = self.digest.digest_four(0, first, second, third, fourth);
        self.push_leaf(leaves[0]);
        self.push_leaf(leaves[1]);
        self.push_leaf(leaves[2]);
        self.push_leaf(leaves[3]);
        Ok(())
    }

    /// Appends the 256 entries of a tile, as 256 calls of `push` do. The edge must have no partial tile of level 0.
    /// Entries that SHA-256 pads to the same number of blocks are hashed side by side. If allocation fails, the edge
    /// doesn't change; it allocates only if there is no room for one more hash.
    pub fn push_tile(&mut self, entries: &[&[u8]; 256]) -> Result<(), AllocError>
        requires whole { self.old.size % 256 ≡ 0 }
        requires small { self.old.size + 256 < 2 ^ 32 }
        ensures entries { (before : List Bytes) → IsEdgeOf self.old T.digest_of before
            → OnOk result (IsEdgeOf self.new T.digest_of
            (before ++ map (λ entry. entry.now) entries.now)) }
        ensures size { OnOk result (self.new.size ≡ self.old.size + 256) }
        ensures unchanged { OnErr result (self.new ≡ self.old) }
        ensures full { OnErr result (self.old.room ≤ length self.old.kept) }
    {
        self.kept.reserve(1)?;
        self.push_root(tile_root(self.digest, entries));
        Ok(())
    }

    /// Returns a copy of the edge: its size, its hashes and their digest function. It fails only if allocation fails.
    pub fn copy(&self) -> Result<Edge<T, A>, AllocError>
        ensures size { IfOk result (λ edge. edge.size ≡ self.now.size) }
        ensures kept { IfOk result (λ edge. edge.kept ≡ self.now.kept) }
    {
        Ok(Edge {
            digest: self.digest,
            kept: Vec::from_slice(*self.kept.allocator(), &self.kept)?,
            size: self.size,
        })
    }

    // Appends entries, and adds the tiles that they complete to `tiles`.
    fn append_each<B: Allocator>(
        &mut self,
        entries: &[Vec<u8, B>],
        tiles: &mut Vec<(Tile, Vec<u8, A>), A>,
    ) -> Result<(), AllocError>
        requires { self.old.size + length entries.now < 2 ^ 32 }
        ensures { OnOk result (Adds T.digest_of (map vec_items entries.now) self.old self.new
            (texts_of tiles.old.items) (texts_of tiles.new.items)) }
    {
        let mut at = 0;
        while at < entries.len() {
            at += self.append_some(&entries[at..], tiles)?;
        }
        Ok(())
    }

    // Appends the first of some entries, as `append_each` does: four of them, or one if there are fewer. Returns how
    // many.
    fn append_some<B: Allocator>(
        &mut self,
        entries: &[Vec<u8, B>],
        tiles: &mut Vec<(Tile, Vec<u8, A>), A>,
    ) -> Result<usize, AllocError>
        requires some { 0 < length entries.now }
        requires small { self.old.size + length entries.now < 2 ^ 32 }
        ensures some { IfOk result (λ count. 0 < count) }
        ensures within { IfOk result (λ count. count ≤ length entries.now) }
        ensures adds { IfOk result
            (λ count. Adds T.digest_of (map vec_items (take count entries.now)) self.old self.new
            (texts_of tiles.old.items) (texts_of tiles.new.items)) }
    {
        if let [first, second, third, fourth, ..] = entries {
            self.append_four(first, second, third, fourth, tiles)?;
            return Ok(4);
        }
        let leaf = leaf_hash(self.digest, &entries[0]);
        self.append_leaf(leaf, tiles)?;
        Ok(1)
    }

    // Appends four entries, as `append_each` does.
    fn append_four(
        &mut self,
        first: &[u8],
        second: &[u8],
        third: &[u8],
        fourth: &[u8],
        tiles: &mut Vec<(Tile, Vec<u8, A>), A>,
    ) -> Result<(), AllocError>
        requires { self.old.size < 2 ^ 32 - 4 }
        ensures { OnOk result (Adds T.digest_of (first.now ∷ second.now ∷ third.now ∷ fourth.now
            ∷ []) self.old self.new (texts_of tiles.old.items) (texts_of tiles.new.items)) }
    {
        let leaves = self.digest.digest_four(0, first, second, third, fourth);
        self.append_leaf(leaves[0], tiles)?;
        self.append_leaf(leaves[1], tiles)?;
        self.append_leaf(leaves[2], tiles)?;
        self.append_leaf(leaves[3], tiles)?;
        Ok(())
    }

    // Appends an entry by its leaf hash, as `append_each` does.
    fn append_leaf(
        &mut self,
        leaf: Hash,
        tiles: &mut Vec<(Tile, Vec<u8, A>), A>,
    ) -> Result<(), AllocError>
        requires { self.old.size < 2 ^ 32 - 1 }
        ensures { (entry : Bytes)
            → leaf ≡ T.digest_of (leaf_input entry) → OnOk result (Adds T.digest_of
            (entry ∷ []) self.old self.new (texts_of tiles.old.items) (texts_of tiles.new.items)) }
    {
        let alloc = *self.kept.allocator();
        let mut filled = fill(alloc, self.digest, true, &self.kept, self.size, 0, leaf)?;
        self.kept.reserve(1)?;
        tiles.append(&mut filled.tiles)?;
        self.keep(filled.left, filled.hash, 1);
        Ok(())
    }

    // Appends an entry by its leaf hash. The edge must have room for one more hash.
    fn push_leaf(&mut self, leaf: Hash)
        requires size { self.old.size < 2 ^ 32 - 1 }
        requires room { length self.old.kept < self.old.room }
        ensures entry { (entries : List Bytes) (entry : Bytes)
            → leaf ≡ T.digest_of (leaf_input entry)
            → IsEdgeOf self.old T.digest_of entries
            → IsEdgeOf self.new T.digest_of (entries ++ entry ∷ []) }
        ensures size { self.new.size ≡ self.old.size + 1 }
        ensures kept { length self.new.kept ≤ length self.old.kept + 1 }
        ensures room { self.new.room ≡ self.old.room }
    {
        let alloc = *self.kept.allocator();
        let Ok(filled) = fill(alloc, self.digest, false, &self.kept, self.size, 0, leaf) else {
            unreachable!();
        };
        self.keep(filled.left, filled.hash, 1);
    }

    // Keeps the first `left` hashes and then `hash` in place of all others, for `more` further entries.
    fn keep(&mut self, left: usize, hash: Hash, more: u64)
        requires small { self.old.size + more < 2 ^ 32 }
        requires within { left ≤ length self.old.kept }
        requires counted { left + 1 ≡ count_below (self.old.size + more) 8 }
        requires room { left < self.old.room }
        ensures size { self.new.size ≡ self.old.size + more }
        ensures kept { self.new.kept ≡ take left self.old.kept ++ hash ∷ [] }
        ensures room { self.new.room ≡ self.old.room }
    {
        self.kept.truncate(left);
        self.kept.push_reserved(hash);
        self.size += more;
    }
}
