//! Finding the position of an origin in a list, in time that grows with the logarithm of the list's length.

ghost use Rattle.std.specs.Prelude.{◌≡◌, None, OnErr, OnOk};
ghost use Rattle.tl_hash.specs.Bytes.{Bytes};
ghost use Rattle.tl_logs.specs.Inner.ByOrigin.{PutsOrigin, index_of};

use std::alloc::{AllocError, Allocator};
use std::collections::BTreeMap;

/// Maps each origin to its position. A contract sees it by `index_of`, the function from an origin to its position.
#[derive(Drop)]
pub(crate) struct ByOrigin<A: Allocator> {
    places: BTreeMap<String<A>, usize, A>,
}

impl<A: Allocator + Copy> ByOrigin<A> {
    /// Returns an empty map. It allocates nothing.
    pub(crate) fn new(alloc: A) -> Self
        ensures { (origin : Bytes) → index_of result origin ≡ None }
    {
        ByOrigin {
            places: BTreeMap::new(alloc),
        }
    }

    /// Returns the position of an origin, or `None` if it has none.
    pub(crate) fn find(&self, origin: &str) -> Option<usize>
        ensures { result ≡ index_of self.now origin.now }
    {
        self.places.get(origin).copied()
    }

    /// Gives an origin this position, in place of an earlier one. It fails only if allocation fails, and then changes
    /// nothing.
    pub(crate) fn add(&mut self, alloc: A, origin: &str, place: usize) -> Result<(), AllocError>
        ensures added { OnOk result
            (PutsOrigin origin.now place (index_of self.old) (index_of self.new)) }
        ensures kept { OnErr result
            ((other : Bytes) → index_of self.new other ≡ index_of self.old other) }
    {
        self.places.insert(String::from_str(alloc, origin)?, place)?;
        Ok(())
    }
}
