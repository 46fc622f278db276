//! Stored hashes in memory.

ghost use Rattle.std.specs.Prelude.{◌≡◌, ◌≤◌, ◌<◌, ◌+◌, ◌-◌, ◌^◌, [], ◌∷◌, ◌++◌, List, length, map, vec_items, All, Any, MatchBool, IfOk, OnOk, OnErr};
ghost use Rattle.tl_hash.specs.Bytes.{Bytes};
ghost use Rattle.tl_store.specs.Stored.{stored_count};
ghost use Rattle.tl_store.specs.Store.{StandsFor};

use crate::index::stored_count;
use crate::pushes::{push_entries, push_entry, reserve_up_to};
use crate::reader::{HashReader, ReadFault};
use std::alloc::{AllocError, Allocator};
use std::marker::Model;
use tl_hash::{Hash, TreeHash};

/// The hashes stored for a list of entries, in one `Vec`. Contracts see the number of entries and the hashes.
#[derive(Drop)]
pub struct HashStore<T: TreeHash, A: Allocator> {
    digest: T,
    hashes: Vec<Hash, A>,
    size: u64,
}

impl<T: TreeHash, A: Allocator> Model for HashStore<T, A> {
    ghost use Rattle.std.specs.Prelude.{◌≡◌, ◌≤◌, ◌^◌, length, vec_capacity};
    ghost use Rattle.tl_store.specs.Stored.{stored_count};
    ghost use Rattle.tl_store.specs.Store.{Contents};

    ghost Value = { Contents };

    ghost view = { λ s.
        record { size = s.size; hashes = s.hashes.items; room = vec_capacity s.hashes } };

    ghost invariant = { λ s. (length s.hashes.items ≡ stored_count s.size) × (s.size ≤ 2 ^ 62) };
}

impl<T: TreeHash, A: Allocator> HashStore<T, A> {
    /// Returns a store of no entries, which hashes with `h`. It allocates nothing.
    pub fn new(alloc: A, h: T) -> HashStore<T, A>
        ensures { StandsFor result T.digest_of [] }
    {
        HashStore {
            digest: h,
            hashes: Vec::new(alloc),
            size: 0,
        }
    }

    /// Appends an entry, and returns its index, counted from 0. The store takes up to 2^32 - 1 entries. If allocation
    /// fails, the store doesn't change; it allocates only if it has no room for the new hashes. An entry costs one
    /// leaf hash, and one node hash for each subtree that it completes.
    pub fn append(&mut self, entry: &[u8]) -> Result<u64, AllocError>
        requires { self.old.size < 2 ^ 32 - 1 }
        ensures entry { (entries : List Bytes)
            → StandsFor self.old T.digest_of entries
            → OnOk result (StandsFor self.new T.digest_of (entries ++ entry.now ∷ [])) }
        ensures index { IfOk result (λ index. index ≡ self.old.size) }
        ensures size { OnOk result (self.new.size ≡ self.old.size + 1) }
        ensures unchanged { OnErr result (self.new ≡ self.old) }
        ensures full { OnErr result (self.old.room < stored_count (self.old.size + 1)) }
    {
        let index = self.size;
        reserve_up_to(&mut self.hashes, stored_count(index + 1) as usize)?;
        push_entry(self.digest, &mut self.hashes, index, entry);
        self.size = index + 1;
        Ok(index)
    }

    /// Appends entries, as calls of `append` do one by one. It hashes the leaves and the two lowest levels of nodes
    /// of each sixteen four at a time. The store takes up to 2^32 - 1 entries in all. If allocation fails, the store
    /// doesn't change; it allocates only if it has no room for the new hashes.
    pub fn append_all<B: Allocator>(&mut self, entries: &[Vec<u8, B>]) -> Result<(), AllocError>
        requires { self.old.size + length entries.now < 2 ^ 32 }
        ensures entries { (before : List Bytes)
            → StandsFor self.old T.digest_of before
            → OnOk result (StandsFor self.new T.digest_of (before ++ map vec_items entries.now)) }
        ensures size { OnOk result (self.new.size ≡ self.old.size + length entries.now) }
        ensures unchanged { OnErr result (self.new ≡ self.old) }
        ensures full { OnErr result
            (self.old.room < stored_count (self.old.size + length entries.now)) }
    {
        let count = self.size + entries.len() as u64;
        reserve_up_to(&mut self.hashes, stored_count(count) as usize)?;
        push_entries(self.digest, &mut self.hashes, self.size, entries);
        self.size = count;
        Ok(())
    }

    /// Returns the number of entries.
    pub fn size(&self) -> u64
        ensures { result ≡ self.now.size }
    {
        self.size
    }
}

// Reports whether each number is below the count.
fn are_below(indexes: &[u64], count: usize) -> bool
    ensures { MatchBool result
        (All (λ index. index < count) indexes.now)
        (Any (λ index. count ≤ index) indexes.now) }
{
    indexes.iter().all(|index| *index < count as u64)
}

impl<T: TreeHash, A: Allocator> HashReader for HashStore<T, A> {
    ghost size = { λ s. s.size };

    ghost stands_for = { StandsFor };

    ghost may_fail = { λ s fault. ⊥ };

    fn read<B: Allocator>(&self, alloc: B, indexes: &[u64]) -> Result<Vec<Hash, B>, ReadFault> {
        if !are_below(indexes, self.hashes.len()) {
            return Err(ReadFault::OutOfRange);
        }
        let mut answer = Vec::new(alloc);
        for index in indexes {
            answer.push(self.hashes[*index as usize])?;
        }
        Ok(answer)
    }

    ghost stands_size = { λ reader H entries stands. (stands.0, stands.1) };
}
