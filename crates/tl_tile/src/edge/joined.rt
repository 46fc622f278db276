//! Appending the right edge of another log.

ghost use Rattle.std.specs.Prelude.{◌≡◌, ◌≤◌, ◌<◌, ◌+◌, ◌%◌, ◌^◌, ◌++◌, List, length, OnOk, OnErr};
ghost use Rattle.tl_hash.specs.Bytes.{Bytes};
ghost use Rattle.tl_hash.specs.Tree.{tree_hash};
ghost use Rattle.tl_tile.specs.RightEdge.{IsEdgeOf};

use crate::edge::Edge;
use crate::fold::fill;
use std::alloc::{AllocError, Allocator};
use tl_hash::{Hash, TreeHash};

impl<T: TreeHash, A: Allocator + Copy> Edge<T, A> {
    /// Appends the entries of another log, whose right edge is `next`, as calls of `push` do one by one, and makes no
    /// tiles. It hashes no entry again: it costs 255 node hashes for each tile above level 0 that it completes. Both
    /// sizes are multiples of 256, that of `next` is below 65,536, and their sum is below 2^32. If allocation fails,
    /// the edge doesn't change; it allocates only if there is no room for all hashes of `next`.
    pub fn append_edge<B: Allocator>(&mut self, next: &Edge<T, B>) -> Result<(), AllocError>
        requires whole { self.old.size % 256 ≡ 0 }
        requires next_whole { next.now.size % 256 ≡ 0 }
        requires next_small { next.now.size < 65536 }
        requires small { self.old.size + next.now.size < 2 ^ 32 }
        ensures entries { (entries added : List Bytes)
            → IsEdgeOf self.old T.digest_of entries
            → IsEdgeOf next.now T.digest_of added
            → OnOk result (IsEdgeOf self.new T.digest_of (entries ++ added)) }
        ensures size { OnOk result (self.new.size ≡ self.old.size + next.now.size) }
        ensures unchanged { OnErr result (self.new ≡ self.old) }
        ensures full { OnErr result (self.old.room < length self.old.kept + length next.now.kept) }
    {
        self.kept.reserve(next.kept.len())?;
        for root in &next.kept {
            self.push_root(*root);
        }
        Ok(())
    }

    // Appends 256 entries by the root of their tile. The edge must have room for one more hash.
    pub(super) fn push_root(&mut self, root: Hash)
        requires whole { self.old.size % 256 ≡ 0 }
        requires small { self.old.size + 256 < 2 ^ 32 }
        requires room { length self.old.kept < self.old.room }
        ensures entries { (entries added : List Bytes)
            → length added ≡ 256
            → root ≡ tree_hash T.digest_of added
            → IsEdgeOf self.old T.digest_of entries
            → IsEdgeOf self.new T.digest_of (entries ++ added) }
        ensures size { self.new.size ≡ self.old.size + 256 }
        ensures kept { length self.new.kept ≤ length self.old.kept + 1 }
        ensures room { self.new.room ≡ self.old.room }
    {
        let alloc = *self.kept.allocator();
        let Ok(filled) = fill(alloc, self.digest, false, &self.kept, self.size, 1, root) else {
            unreachable!();
        };
        self.keep(filled.left, filled.hash, 256);
    }
}
