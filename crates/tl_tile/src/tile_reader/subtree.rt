//! Complete subtrees, and their hashes from checked tiles.

ghost use Rattle.std.specs.Prelude.{◌≡◌, ◌≤◌, ◌<◌, ◌*◌, ◌/◌, ◌%◌, ◌^◌, [], length, All, IfOk, IfErr, IfSome, OnOk, ◌⊎◌};
ghost use Rattle.tl_store.specs.Stored as stored;
ghost use Rattle.tl_tile.specs.Folds.{IsSubtreeHash};
ghost use Rattle.tl_tile.specs.Fetched.{tiles_of};
ghost use Rattle.tl_tile.specs.Source.{HasTileWith};
ghost use Rattle.tl_tile.specs.Fetching.{IsOver, IsNeededFor};
ghost use Rattle.tl_tile.specs.Verified.{AddsTiles, AreVerified};
ghost use Rattle.tl_tile.specs.Inner.Steps.{IsSubtreeOf};
ghost use Rattle.tl_tile.specs.Inner.TileTree.{AreTreesOf};
ghost use Rattle.tl_tile.specs.Inner.TreeKeys.{trees_in};
ghost use Rattle.tl_tile.specs.SourceFaults.{GivesReadFault};
ghost use Rattle.tl_tile.specs.TileReader.{AreAuthentic};

use crate::source::TileSource;
use crate::tile_reader::checker::Checker;
use crate::tile_reader::fetched::FetchedTiles;
use crate::tile_reader::hashes::fold_part;
use crate::tile_reader::trees::TileTrees;
use std::alloc::Allocator;
use tl_hash::{Hash, TreeHash};
use tl_store::{ReadFault, split_index};

// The complete subtree over 2^level entries at this place of its level.
#[derive(Clone, Copy)]
pub(crate) struct Subtree {
    pub(crate) level: u32,
    pub(crate) place: u64,
}

// Returns the complete subtree whose stored hash has this number.
fn subtree_of(index: u64, size: u64) -> Subtree
    requires size { size ≤ 2 ^ 62 }
    requires index { index < stored.stored_count size }
    ensures within { IsSubtreeOf size result }
    ensures number { stored.stored_index result.level result.place ≡ index }
{
    let (level, place) = split_index(index);
    Subtree { level, place }
}

impl<T: TreeHash, S: TileSource> Checker<T, S> {
    // Returns the hash of a subtree from the fold of the full tile with its hashes, or `None` if that wasn't kept.
    fn tree_hash<A: Allocator + Copy>(
        &self,
        subtree: Subtree,
        first: u64,
        count: u64,
        fetched: &FetchedTiles<A>,
        trees: &TileTrees<A>,
    ) -> Option<Hash>
        requires within { IsSubtreeOf self.now.size subtree }
        requires first { first ≡ subtree.place * 2 ^ (subtree.level % 8) }
        requires count { count ≡ 2 ^ (subtree.level % 8) }
        requires trees { AreTreesOf T.digest_of (tiles_of fetched.now) (trees_in trees.now.map) }
        ensures { IfSome result (IsSubtreeHash T.digest_of
            (tiles_of fetched.now) self.now.size subtree.level subtree.place) }
    {
        let level = subtree.level / 8;
        if !self.is_full(level, first) {
            return None;
        }
        let Some(hashes) = trees.tree_of(level, first / 256) else {
            return None;
        };
        let many = 256 / count;
        let number = (512 - 2 * many + subtree.place % many) as usize;
        Some(hashes[number])
    }

    // Returns the hash of a subtree from a fold that was kept, or else from the text of the tile with its hashes.
    fn subtree_hash<A: Allocator + Copy>(
        &self,
        subtree: Subtree,
        first: u64,
        count: u64,
        fetched: &FetchedTiles<A>,
        trees: &TileTrees<A>,
    ) -> Hash
        requires within { IsSubtreeOf self.now.size subtree }
        requires first { first ≡ subtree.place * 2 ^ (subtree.level % 8) }
        requires count { count ≡ 2 ^ (subtree.level % 8) }
        requires verified { AreVerified T.digest_of self.now.size self.now.root fetched.now }
        requires trees { AreTreesOf T.digest_of (tiles_of fetched.now) (trees_in trees.now.map) }
        requires there { HasTileWith
            (tiles_of fetched.now) self.now.size (subtree.level / 8) first }
        ensures { IsSubtreeHash T.digest_of
            (tiles_of fetched.now) self.now.size subtree.level subtree.place result }
    {
        if let Some(hash) = self.tree_hash(subtree, first, count, fetched, trees) {
            return hash;
        }
        let Some(text) = self.text_with(subtree.level / 8, first, fetched) else {
            unreachable!();
        };
        fold_part(self.h, text, (first % 256) as usize, count as usize)
    }

    // Reads the stored hash of one subtree, and fetches the tiles it needs.
    fn read_subtree<A: Allocator + Copy>(
        &self,
        subtree: Subtree,
        fetched: &mut FetchedTiles<A>,
        trees: &mut TileTrees<A>,
    ) -> Result<Hash, ReadFault>
        requires size { self.now.size ≤ 2 ^ 62 }
        requires within { IsSubtreeOf self.now.size subtree }
        requires verified { AreVerified T.digest_of self.now.size self.now.root fetched.old }
        requires trees { AreTreesOf T.digest_of (tiles_of fetched.old) (trees_in trees.old.map) }
        ensures verified { OnOk result
            (AreVerified T.digest_of self.now.size self.now.root fetched.new) }
        ensures trees { OnOk result
            (AreTreesOf T.digest_of (tiles_of fetched.new) (trees_in trees.new.map)) }
        ensures hash { IfOk result (IsSubtreeHash T.digest_of
            (tiles_of fetched.new) self.now.size subtree.level subtree.place) }
        ensures adds { AddsTiles
            (S.may_answer self.now.source) T.digest_of self.now.size self.now.root (IsOver
            (subtree.level / 8) (subtree.place * 2 ^ (subtree.level % 8))) fetched.old fetched.new }
        ensures faults { IfErr result (GivesReadFault T.digest_of
            (λ t. S.may_lack self.now.source t × IsOver (subtree.level / 8)
            (subtree.place * 2 ^ (subtree.level % 8)) t) self.now.size self.now.root fetched.new) }
    {
        let count = 2u64.pow(subtree.level % 8);
        let first = subtree.place * count;
        self.fetch_with(subtree.level / 8, first, fetched, trees)?;
        Ok(self.subtree_hash(subtree, first, count, fetched, trees))
    }

    // Returns the stored hashes with these numbers, in order. Tiles that passed all checks are neither fetched nor
    // hashed again.
    pub(crate) fn read_numbers<A: Allocator + Copy, B: Allocator>(
        &self,
        alloc: B,
        indexes: &[u64],
        fetched: &mut FetchedTiles<A>,
    ) -> Result<Vec<Hash, B>, ReadFault>
        requires size { self.now.size ≤ 2 ^ 62 }
        requires some { 0 < self.now.size }
        requires asked { 0 < length indexes.now }
        requires within { All (λ index. index < stored.stored_count self.now.size) indexes.now }
        requires passed { (fetched.old ≡ [])
            ⊎ AreVerified T.digest_of self.now.size self.now.root fetched.old }
        ensures authentic { IfOk result
            (λ hashes. AreAuthentic T.digest_of
            (record { size = self.now.size; root = self.now.root; indexes = indexes.now; fetched = fetched.new })
            hashes.items) }
        ensures count { IfOk result (λ hashes. length hashes.items ≡ length indexes.now) }
        ensures verified { OnOk result
            (AreVerified T.digest_of self.now.size self.now.root fetched.new) }
        ensures adds { AddsTiles
            (S.may_answer self.now.source) T.digest_of self.now.size self.now.root
            (IsNeededFor self.now.size indexes.now) fetched.old fetched.new }
        ensures faults { IfErr result (GivesReadFault T.digest_of (λ t. S.may_lack self.now.source t
            × IsNeededFor self.now.size indexes.now t) self.now.size self.now.root fetched.new) }
    {
        let mut hashes = Vec::new(alloc);
        self.fetch_first(fetched)?;
        let mut trees = TileTrees::new(fetched.allocator());
        for index in indexes {
            let subtree = subtree_of(*index, self.size);
            let hash = self.read_subtree(subtree, fetched, &mut trees)?;
            hashes.push(hash)?;
        }
        Ok(hashes)
    }
}
