//! Fetching tiles and checking each of them against a root.

ghost use Rattle.std.specs.Prelude.{◌≡◌, ◌↔◌, ◌≤◌, ◌<◌, ◌+◌, ◌*◌, ◌/◌, ◌%◌, ◌^◌, ◌∷◌, ◌++◌, ℕ, List, [], length, IfErr, OnOk, IsTrue, MatchBool, MatchOption, Some, None, ◌⊎◌};
ghost use Rattle.tl_hash.specs.Bytes.{Bytes};
ghost use Rattle.tl_tile.specs.TileText as spec;
ghost use Rattle.tl_tile.specs.Fetched.{tiles_of, tiles_in};
ghost use Rattle.tl_tile.specs.Source.{HasTileWith, IsHashWith, IsTileOf};
ghost use Rattle.tl_tile.specs.Fetching.{IsOver, IsPartialOf, edge_tiles};
ghost use Rattle.tl_tile.specs.Verified.{AddsTiles, AreVerified, ComesNext};
ghost use Rattle.tl_tile.specs.Inner.Steps.{AreFetched, AreEdgeFrom, AddsOnly, IsThere};
ghost use Rattle.tl_tile.specs.Inner.TileTree.{AreTreesOf};
ghost use Rattle.tl_tile.specs.Inner.TreeKeys.{trees_in};
ghost use Rattle.tl_tile.specs.SourceFaults.{GivesReadFault};

use crate::resource::Tile;
use crate::source::{SourceFault, TileSource, bad_tile};
use crate::tile::full_tile;
use crate::tile_reader::edge_root::{edge_root, partial_tile};
use crate::tile_reader::fetched::FetchedTiles;
use crate::tile_reader::fold_tile::fold_tile;
use crate::tile_reader::hashes::hash_in;
use crate::tile_reader::trees::TileTrees;
use std::alloc::Allocator;
use tl_hash::{Hash, TreeHash};
use tl_store::ReadFault;

// Returns the partial tile of the highest level that has one.
fn highest_tile(size: u64) -> Tile
    requires { 0 < size }
    ensures partial { result ≡ spec.partial_tile size result.level }
    ensures wide { 0 < result.width }
    ensures level { result.level < 8 }
    ensures highest { (level : ℕ) → result.level < level → spec.level_count size level % 256 ≡ 0 }
{
    partial_tile(size, size.ilog2() / 8)
}

// Reports whether two hashes are the same.
fn same(a: Hash, b: Hash) -> bool
    ensures { IsTrue result ↔ (a ≡ b) }
{
    a == b
}

// A source, and the size and the root that its tiles are checked against.
#[derive(Drop)]
pub(crate) struct Checker<T: TreeHash, S: TileSource> {
    pub(crate) h: T,
    pub(crate) size: u64,
    pub(crate) root: Hash,
    pub(crate) source: S,
}

impl<T: TreeHash, S: TileSource> Checker<T, S> {
    // Fetches a tile of the log that isn't fetched yet, and checks the length of its text.
    fn fetch_tile<A: Allocator + Copy>(
        &self,
        tile: Tile,
        fetched: &mut FetchedTiles<A>,
    ) -> Result<(), ReadFault>
        requires of { IsTileOf self.now.size tile }
        requires narrow { tile.width ≤ 256 }
        requires next { ComesNext T.digest_of self.now.size self.now.root fetched.old tile }
        ensures text { OnOk result ((text : Bytes)
            × (fetched.new ≡ fetched.old ++ (tile, text) ∷ []) × (length text ≡ 32 * tile.width)) }
        ensures adds { AddsOnly (S.may_answer self.now.source) T.digest_of
            self.now.size self.now.root tile fetched.old fetched.new }
        ensures faults { IfErr result (GivesReadFault T.digest_of (λ t.
            S.may_lack self.now.source t × (t ≡ tile)) self.now.size self.now.root fetched.new) }
    {
        let len = match fetched.fetch(&self.source, tile) {
            Ok(len) => len,
            Err(SourceFault::Unavailable) => return Err(ReadFault::Source),
            Err(SourceFault::OutOfMemory) => return Err(ReadFault::OutOfMemory),
        };
        if len != 32 * tile.width as usize {
            return Err(bad_tile(tile));
        }
        Ok(())
    }

    // Fetches the partial tile of a level, if there is one.
    fn fetch_level<A: Allocator + Copy>(
        &self,
        level: u32,
        fetched: &mut FetchedTiles<A>,
    ) -> Result<(), ReadFault>
        requires level { level ≤ 7 }
        requires edge { AreEdgeFrom self.now.size (level + 1) fetched.old }
        requires fetched { AreFetched
            (S.may_answer self.now.source) T.digest_of self.now.size self.now.root fetched.old }
        ensures edge { OnOk result (AreEdgeFrom self.now.size level fetched.new) }
        ensures partial { (rest : List Tile)
            × (edge_tiles self.now.size ≡ tiles_in fetched.new ++ rest) }
        ensures fetched { AreFetched
            (S.may_answer self.now.source) T.digest_of self.now.size self.now.root fetched.new }
        ensures faults { IfErr result (GivesReadFault T.digest_of (λ t. S.may_lack self.now.source t
            × IsPartialOf self.now.size t) self.now.size self.now.root fetched.new) }
    {
        let tile = partial_tile(self.size, level);
        if tile.width == 0 {
            return Ok(());
        }
        self.fetch_tile(tile, fetched)
    }

    // Fetches the partial tiles, the highest first.
    fn fetch_levels<A: Allocator + Copy>(
        &self,
        fetched: &mut FetchedTiles<A>,
    ) -> Result<(), ReadFault>
        requires { fetched.old ≡ [] }
        ensures edge { OnOk result (AreEdgeFrom self.now.size 0 fetched.new) }
        ensures partial { (rest : List Tile)
            × (edge_tiles self.now.size ≡ tiles_in fetched.new ++ rest) }
        ensures fetched { AreFetched
            (S.may_answer self.now.source) T.digest_of self.now.size self.now.root fetched.new }
        ensures faults { IfErr result (GivesReadFault T.digest_of (λ t. S.may_lack self.now.source t
            × IsPartialOf self.now.size t) self.now.size self.now.root fetched.new) }
    {
        for above in 0..8u32 {
            self.fetch_level(7 - above, fetched)?;
        }
        Ok(())
    }

    // Fetches the right edge and checks it against the root.
    fn fetch_edge<A: Allocator + Copy>(
        &self,
        fetched: &mut FetchedTiles<A>,
    ) -> Result<(), ReadFault>
        requires some { 0 < self.now.size }
        requires none { fetched.old ≡ [] }
        ensures verified { OnOk result
            (AreVerified T.digest_of self.now.size self.now.root fetched.new) }
        ensures partial { (rest : List Tile)
            × (edge_tiles self.now.size ≡ tiles_in fetched.new ++ rest) }
        ensures fetched { AreFetched
            (S.may_answer self.now.source) T.digest_of self.now.size self.now.root fetched.new }
        ensures faults { IfErr result (GivesReadFault T.digest_of (λ t. S.may_lack self.now.source t
            × IsPartialOf self.now.size t) self.now.size self.now.root fetched.new) }
    {
        self.fetch_levels(fetched)?;
        let Some(root) = edge_root(self.h, fetched, self.size)? else {
            unreachable!();
        };
        if !same(root, self.root) {
            return Err(bad_tile(highest_tile(self.size)));
        }
        Ok(())
    }

    // Fetches the right edge and checks it, if no tiles are there yet.
    pub(crate) fn fetch_first<A: Allocator + Copy>(
        &self,
        fetched: &mut FetchedTiles<A>,
    ) -> Result<(), ReadFault>
        requires some { 0 < self.now.size }
        requires passed { (fetched.old ≡ [])
            ⊎ AreVerified T.digest_of self.now.size self.now.root fetched.old }
        ensures verified { OnOk result
            (AreVerified T.digest_of self.now.size self.now.root fetched.new) }
        ensures adds { AddsTiles (S.may_answer self.now.source) T.digest_of
            self.now.size self.now.root (IsPartialOf self.now.size) fetched.old fetched.new }
        ensures faults { IfErr result (GivesReadFault T.digest_of (λ t. S.may_lack self.now.source t
            × IsPartialOf self.now.size t) self.now.size self.now.root fetched.new) }
    {
        if !fetched.is_empty() {
            return Ok(());
        }
        self.fetch_edge(fetched)
    }

    // Reports whether the tile with the hash at this place of a level is full.
    pub(crate) fn is_full(&self, level: u32, place: u64) -> bool
        requires { level ≤ 7 }
        ensures { MatchBool result
            (place / 256 < spec.level_count self.now.size level / 256)
            (spec.level_count self.now.size level / 256 ≤ place / 256) }
    {
        place / 256 < partial_tile(self.size, level).index
    }

    // Returns the tile with the hash at this place of a level.
    fn tile_with(&self, level: u32, place: u64) -> Tile
        requires { level ≤ 7 }
        ensures { result ≡ spec.tile_with self.now.size level place }
    {
        if self.is_full(level, place) {
            full_tile(level, place / 256)
        } else {
            partial_tile(self.size, level)
        }
    }

    // Returns the text of the tile with this hash, or `None` if it wasn't fetched.
    pub(crate) fn text_with<'f, A: Allocator + Copy>(
        &self,
        level: u32,
        place: u64,
        fetched: &'f FetchedTiles<A>,
    ) -> Option<&'f [u8]>
        requires { level ≤ 7 }
        ensures { MatchOption result
            (tiles_of fetched.now (spec.tile_with self.now.size level place) ≡ None) (λ text.
            tiles_of fetched.now (spec.tile_with self.now.size level place) ≡ Some text.now) }
    {
        fetched.text_of(self.tile_with(level, place))
    }

    // Returns the hash at this place of a level from the tile that was fetched for it.
    fn hash_with<A: Allocator + Copy>(
        &self,
        level: u32,
        place: u64,
        fetched: &FetchedTiles<A>,
    ) -> Hash
        requires level { level ≤ 7 }
        requires place { place < spec.level_count self.now.size level }
        requires verified { AreVerified T.digest_of self.now.size self.now.root fetched.now }
        requires there { HasTileWith (tiles_of fetched.now) self.now.size level place }
        ensures { IsHashWith (tiles_of fetched.now) self.now.size level place result }
    {
        let Some(text) = self.text_with(level, place, fetched) else {
            unreachable!();
        };
        hash_in(text, (place % 256) as usize)
    }

    // Fetches a full tile, checks it against the tile above, and keeps the hashes of its fold.
    fn fetch_full<A: Allocator + Copy>(
        &self,
        level: u32,
        index: u64,
        fetched: &mut FetchedTiles<A>,
        trees: &mut TileTrees<A>,
    ) -> Result<(), ReadFault>
        requires level { level < 7 }
        requires index { index < spec.level_count self.now.size (level + 1) }
        requires new { tiles_of fetched.old (spec.full_tile level index) ≡ None }
        requires above { HasTileWith (tiles_of fetched.old) self.now.size (level + 1) index }
        requires verified { AreVerified T.digest_of self.now.size self.now.root fetched.old }
        requires trees { AreTreesOf T.digest_of (tiles_of fetched.old) (trees_in trees.old.map) }
        ensures there { OnOk result
            ((text : Bytes) × (tiles_of fetched.new (spec.full_tile level index) ≡ Some text)) }
        ensures verified { OnOk result
            (AreVerified T.digest_of self.now.size self.now.root fetched.new) }
        ensures trees { OnOk result
            (AreTreesOf T.digest_of (tiles_of fetched.new) (trees_in trees.new.map)) }
        ensures adds { AddsOnly (S.may_answer self.now.source) T.digest_of self.now.size
            self.now.root (spec.full_tile level index) fetched.old fetched.new }
        ensures faults { IfErr result (GivesReadFault T.digest_of (λ t. S.may_lack self.now.source t
            × (t ≡ spec.full_tile level index)) self.now.size self.now.root fetched.new) }
    {
        let tile = full_tile(level, index);
        let own = self.hash_with(level + 1, index, fetched);
        self.fetch_tile(tile, fetched)?;
        let Some(text) = fetched.last_text() else {
            unreachable!();
        };
        let hashes = fold_tile(fetched.allocator(), self.h, text)?;
        let hash = hashes[510];
        if !same(own, hash) {
            return Err(bad_tile(tile));
        }
        trees.keep(level, index, hashes)?;
        Ok(())
    }

    // Reports whether the tile with the hash at this place of a level was fetched.
    fn is_there<A: Allocator + Copy>(
        &self,
        level: u32,
        place: u64,
        fetched: &FetchedTiles<A>,
    ) -> bool
        requires size { self.now.size ≤ 2 ^ 62 }
        requires level { level ≤ 7 }
        requires place { place < spec.level_count self.now.size level }
        requires verified { AreVerified T.digest_of self.now.size self.now.root fetched.now }
        ensures { IsThere (tiles_of fetched.now) self.now.size level place result }
    {
        match self.text_with(level, place, fetched) {
            Some(_) => true,
            None => false,
        }
    }

    // Fetches the tile with the hash at this place of a level, and those above it that aren't there yet.
    pub(crate) fn fetch_with<A: Allocator + Copy>(
        &self,
        level: u32,
        place: u64,
        fetched: &mut FetchedTiles<A>,
        trees: &mut TileTrees<A>,
    ) -> Result<(), ReadFault>
        requires size { self.now.size ≤ 2 ^ 62 }
        requires level { level ≤ 7 }
        requires place { place < spec.level_count self.now.size level }
        requires verified { AreVerified T.digest_of self.now.size self.now.root fetched.old }
        requires trees { AreTreesOf T.digest_of (tiles_of fetched.old) (trees_in trees.old.map) }
        ensures there { OnOk result (HasTileWith (tiles_of fetched.new) self.now.size level place) }
        ensures verified { OnOk result
            (AreVerified T.digest_of self.now.size self.now.root fetched.new) }
        ensures trees { OnOk result
            (AreTreesOf T.digest_of (tiles_of fetched.new) (trees_in trees.new.map)) }
        ensures adds { AddsTiles (S.may_answer self.now.source) T.digest_of self.now.size
            self.now.root (IsOver level place) fetched.old fetched.new }
        ensures faults { IfErr result (GivesReadFault T.digest_of (λ t. S.may_lack self.now.source t
            × IsOver level place t) self.now.size self.now.root fetched.new) }
    {
        if self.is_there(level, place, fetched) {
            return Ok(());
        }
        self.fetch_with(level + 1, place / 256, fetched, trees)?;
        self.fetch_full(level, place / 256, fetched, trees)
    }
}
