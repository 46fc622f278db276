//! The full tiles that a read has checked, each with all hashes of its fold.

ghost use Rattle.std.specs.Prelude.{◌≡◌, ℕ, MatchOption, OnOk, Some, None};
ghost use Rattle.tl_tile.specs.Inner.TreeKeys.{trees_in};

use std::alloc::{AllocError, Allocator};
use std::collections::BTreeMap;
use tl_hash::Hash;

// The hashes of the folds of checked tiles, by level and index, each in the order of `fold_tile`.
#[derive(Drop)]
pub(crate) struct TileTrees<A: Allocator> {
    pub(crate) map: BTreeMap<(u32, u64), Vec<Hash, A>, A>,
}

impl<A: Allocator> TileTrees<A> {
    // Returns an empty map.
    pub(crate) fn new(alloc: A) -> TileTrees<A>
        ensures { (level index : ℕ) → trees_in result.map level index ≡ None }
    {
        TileTrees {
            map: BTreeMap::new(alloc),
        }
    }

    // Returns the fold of the full tile of a level with this index, or `None` if it wasn't kept.
    pub(crate) fn tree_of(&self, level: u32, index: u64) -> Option<&[Hash]>
        ensures { MatchOption result
            (trees_in self.now.map level index ≡ None)
            (λ hashes. trees_in self.now.map level index ≡ Some hashes.now) }
    {
        match self.map.get(&(level, index)) {
            Some(hashes) => Some(hashes.as_slice()),
            None => None,
        }
    }
}

impl<A: Allocator + Copy> TileTrees<A> {
    // Keeps the fold of a full tile.
    pub(crate) fn keep(
        &mut self,
        level: u32,
        index: u64,
        hashes: Vec<Hash, A>,
    ) -> Result<(), AllocError>
        ensures here { OnOk result (trees_in self.new.map level index ≡ Some hashes.items) }
        ensures others { OnOk result ((l i : ℕ)
            → (l ≡ level → i ≡ index → ⊥) → trees_in self.new.map l i ≡ trees_in self.old.map l i) }
    {
        self.map.insert((level, index), hashes)?;
        Ok(())
    }
}
