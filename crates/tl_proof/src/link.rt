//! Links: a size and a root, with the consistency proof that leads to them.

ghost use Rattle.std.specs.Prelude.{◌≡◌, IfOk};

use std::alloc::{AllocError, Allocator};
use std::marker::Model;
use tl_hash::Hash;

/// A list of hashes, such as a consistency proof. A contract sees the list.
#[derive(Drop)]
pub struct HashList<A: Allocator> {
    hashes: Vec<Hash, A>,
}

impl<A: Allocator> Model for HashList<A> {
    ghost use Rattle.std.specs.Prelude.{List, ℕ};

    ghost Value = { List (List ℕ) };

    ghost view = { λ l. l.hashes.items };
}

impl<A: Allocator> HashList<A> {
    /// Returns a list of these hashes. It allocates nothing.
    pub fn from_vec(hashes: Vec<Hash, A>) -> Self
        ensures { result ≡ hashes.items }
    {
        HashList { hashes }
    }

    /// Returns its hashes.
    pub fn as_slice(&self) -> &[Hash]
        ensures { result.now ≡ self.now }
    {
        self.hashes.as_slice()
    }

    /// Returns its hashes as a vector.
    pub fn into_vec(self) -> Vec<Hash, A>
        ensures { result.items ≡ self }
    {
        let Self { hashes } = self;
        hashes
    }
}

/// A size and a root, with the consistency proof that leads to them from the size and root before (RFC 6962, section
/// 2.1.2).
#[derive(Drop)]
pub struct Link<A: Allocator> {
    /// The number of entries.
    pub size: u64,
    /// The tree hash of these entries.
    pub root: Hash,
    /// The proof from the size and root before.
    pub proof: HashList<A>,
}

impl<A: Allocator> Link<A> {
    ghost use Rattle.tl_proof.specs.Acceptance.{step_of};

    /// Returns a copy of a link. It fails only if allocation fails.
    pub fn copy_of<B: Allocator>(alloc: A, link: &Link<B>) -> Result<Self, AllocError>
        ensures { IfOk result (λ copy. step_of copy ≡ step_of link.now) }
    {
        let hashes = Vec::from_slice(alloc, link.proof.as_slice())?;
        Ok(Link {
            size: link.size,
            root: link.root,
            proof: HashList::from_vec(hashes),
        })
    }
}
