//! Stored hashes from tiles that are checked against a root.
//!
//! `checker` fetches the partial tiles, whose hashes must fold to the root (`edge_root`). For each number it then
//! fetches the full tiles over its subtree, from the top down, and compares the hash that each folds to (`fold_tile`)
//! with that in the tile above. `trees` keeps all hashes of a full tile's fold, in which `subtree` finds the number's
//! hash; in a partial tile the hash is folded again (`hashes`). `fetched` keeps what a source returned, also a bad
//! tile.

ghost use Rattle.std.specs.Prelude.{◌≡◌, ◌≤◌, ◌<◌, List, length, map, All, Any, MatchBool, IfOk, IfErr, OnOk};
ghost use Rattle.tl_hash.specs.Bytes.{Bytes, Digest};
ghost use Rattle.tl_store.specs.Stored.{stored_hash};
ghost use Rattle.tl_store.specs.Reader.{readable_count, AreReadable, GivesFault};
ghost use Rattle.tl_tile.specs.Source.{AreAnswers};
ghost use Rattle.tl_tile.specs.Fetching.{IsNeededFor};
ghost use Rattle.tl_tile.specs.Verified.{AddsTiles, AreVerified, AreInOrder, HavePassed};
ghost use Rattle.tl_tile.specs.SourceFaults.{MayGive};
ghost use Rattle.tl_tile.specs.TileReader.{StandsAgainst, AreAuthentic, AreAuthenticOver, GivesFaultAfter, GivesNumbersFault};

mod checker;
mod edge_root;
mod fetched;
mod fold_tile;
mod hashes;
mod subtree;
mod trees;

use crate::source::TileSource;
use checker::Checker;
pub use fetched::FetchedTiles;
use std::alloc::Allocator;
use std::marker::Model;
use tl_hash::{Hash, TreeHash};
use tl_store::{HashReader, ReadFault, stored_count};

/// Reads stored hashes from a source of tiles that may lie, and checks each tile against a size and a root (C2SP
/// tlog-tiles, "Merkle Tree"). Contracts see the source, the size and the root.
#[derive(Drop)]
pub struct TileHashReader<T: TreeHash, S: TileSource, A: Allocator> {
    alloc: A,
    checker: Checker<T, S>,
}

impl<T: TreeHash, S: TileSource, A: Allocator> Model for TileHashReader<T, S, A> {
    ghost use Rattle.tl_tile.specs.TileReader.{Against};

    ghost Value = { Against S };

    ghost view = { λ r.
        record { source = r.checker.source; size = r.checker.size; root = r.checker.root } };
}

impl<T: TreeHash, S: TileSource, A: Allocator> TileHashReader<T, S, A> {
    /// Returns a reader of the stored hashes of a log of this size and root, over this source. A `read` allocates the
    /// tiles that it fetches from `alloc`, and frees them at its end.
    pub fn new(alloc: A, h: T, size: u64, root: Hash, source: S) -> TileHashReader<T, S, A>
        ensures { result ≡ record { source = source; size = size; root = root } }
    {
        TileHashReader {
            alloc,
            checker: Checker {
                h,
                size,
                root,
                source,
            },
        }
    }
}

// Returns the number of stored hashes that a reader of this size has.
fn count_of(size: u64) -> u64
    ensures { result ≡ readable_count size }
{
    if size <= 1 << 62 {
        stored_count(size)
    } else {
        0
    }
}

// Reports whether each number is below the count.
fn are_below(indexes: &[u64], count: u64) -> bool
    ensures { MatchBool result
        (All (λ index. index < count) indexes.now)
        (Any (λ index. count ≤ index) indexes.now) }
{
    indexes.iter().all(|index| *index < count)
}

impl<T: TreeHash, S: TileSource, A: Allocator + Copy> TileHashReader<T, S, A> {
    /// Returns the stored hashes with these numbers, in order. `fetched` then holds the tiles fetched for them and no
    /// others, also after a fault (C2SP tlog-tiles, "Merkle Tree"). The numbers are checked first, and for none
    /// nothing is fetched. The partial tiles come first, from the highest level down, and must give the root; then
    /// the full tiles over each number, from the top down, each with the hash in the tile above. `BadTile` names the
    /// highest partial tile if these give another root, and otherwise the last tile.
    pub fn read_checked<B: Allocator>(
        &self,
        alloc: B,
        indexes: &[u64],
        fetched: &mut FetchedTiles<A>,
    ) -> Result<Vec<Hash, B>, ReadFault>
        ensures authentic { IfOk result
            (λ hashes. AreAuthentic T.digest_of
            (record { size = self.now.size; root = self.now.root; indexes = indexes.now; fetched = fetched.new })
            hashes.items) }
        ensures verified { OnOk result (0 < length indexes.now
            → AreVerified T.digest_of self.now.size self.now.root fetched.new) }
        ensures count { IfOk result (λ hashes. length hashes.items ≡ length indexes.now) }
        ensures in_range { OnOk result (AreReadable self.now.size indexes.now) }
        ensures answers { AreAnswers (S.may_answer self.now.source) self.now.size fetched.new }
        ensures needed { All (λ f. IsNeededFor self.now.size indexes.now f.0) fetched.new }
        ensures order { AreInOrder T.digest_of self.now.size self.now.root fetched.new }
        ensures faults { IfErr result
            (GivesNumbersFault T.digest_of (S.may_lack self.now.source)
            (record { size = self.now.size; root = self.now.root; indexes = indexes.now; fetched = fetched.new })) }
    {
        fetched.clear();
        match self.read_after(alloc, indexes, fetched) {
            Ok(hashes) => Ok(hashes),
            Err(fault) => Err(fault),
        }
    }

    /// Reads as `read_checked` does, after tiles that have passed all checks against this size and root, if any.
    /// These aren't fetched again, and are hashed only as far as the numbers need. The tiles that are fetched are
    /// added after them, also after a fault. If a number is out of range, none is added.
    pub fn read_after<B: Allocator>(
        &self,
        alloc: B,
        indexes: &[u64],
        fetched: &mut FetchedTiles<A>,
    ) -> Result<Vec<Hash, B>, ReadFault>
        requires { HavePassed T.digest_of self.now.size self.now.root fetched.old }
        ensures authentic { IfOk result
            (λ hashes. AreAuthentic T.digest_of
            (record { size = self.now.size; root = self.now.root; indexes = indexes.now; fetched = fetched.new })
            hashes.items) }
        ensures verified { OnOk result (0 < length indexes.now
            → AreVerified T.digest_of self.now.size self.now.root fetched.new) }
        ensures passed { OnOk result
            (HavePassed T.digest_of self.now.size self.now.root fetched.new) }
        ensures count { IfOk result (λ hashes. length hashes.items ≡ length indexes.now) }
        ensures in_range { OnOk result (AreReadable self.now.size indexes.now) }
        ensures adds { AddsTiles
            (S.may_answer self.now.source) T.digest_of self.now.size self.now.root
            (IsNeededFor self.now.size indexes.now) fetched.old fetched.new }
        ensures faults { IfErr result
            (GivesFaultAfter T.digest_of (S.may_lack self.now.source) fetched.old
            (record { size = self.now.size; root = self.now.root; indexes = indexes.now; fetched = fetched.new })) }
    {
        if !are_below(indexes, count_of(self.checker.size)) {
            return Err(ReadFault::OutOfRange);
        }
        if indexes.is_empty() {
            return Ok(Vec::new(alloc));
        }
        self.checker.read_numbers(alloc, indexes, fetched)
    }
}

impl<T: TreeHash, S: TileSource, A: Allocator + Copy> HashReader for TileHashReader<T, S, A> {
    ghost size = { λ r. r.size };

    ghost stands_for = { λ r H entries.
        StandsAgainst T.digest_of (S.may_answer r.source) r.size r.root H entries };

    ghost may_fail = { λ r fault.
        MayGive T.digest_of (S.may_answer r.source) (S.may_lack r.source) r.size r.root fault };

    /// Reads as `read_checked` does, and drops the tiles.
    fn read<B: Allocator>(&self, alloc: B, indexes: &[u64]) -> Result<Vec<Hash, B>, ReadFault>
        ensures hashes { (H : Digest) (entries : List Bytes) → StandsAgainst T.digest_of
            (S.may_answer self.now.source) self.now.size self.now.root H entries
            → IfOk result (λ hashes. hashes.items ≡ map (stored_hash H entries) indexes.now) }
        ensures count { IfOk result (λ hashes. length hashes.items ≡ length indexes.now) }
        ensures in_range { OnOk result (AreReadable self.now.size indexes.now) }
        ensures faults { IfErr result
            (GivesFault self.now.size (λ fault. MayGive T.digest_of (S.may_answer self.now.source)
            (S.may_lack self.now.source) self.now.size self.now.root fault) indexes.now) }
        ensures authentic { IfOk result (λ hashes. AreAuthenticOver (S.may_answer self.now.source)
            T.digest_of self.now.size self.now.root indexes.now hashes.items) }
    {
        let mut fetched = FetchedTiles::new(self.alloc);
        self.read_checked(alloc, indexes, &mut fetched)
    }

    ghost stands_size = { λ reader H entries stands. (stands.0, stands.1) };
}
