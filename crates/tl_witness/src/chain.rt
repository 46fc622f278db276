//! The links of one origin.

ghost use Rattle.std.specs.Prelude.{◌≡◌, ◌↔◌, [], ◌∷◌, ◌++◌, All, IfErr, IfOk, IsTrue, OnOk, OnErr, IsErrOf, MatchOption, map};
ghost use Rattle.tl_proof.specs.Acceptance.{step_of};
ghost use Rattle.tl_proof.specs.Laws.{HasHashLength, MadeOfHashes};
ghost use Rattle.tl_witness.specs.Chain.{first_head, last_head, Follows, IsChain};
ghost use Rattle.tl_witness.specs.ChainLine.{IsChainLine};
ghost use Rattle.tl_witness.specs.Open.{IsFirstBreak};
ghost use Rattle.tl_witness.specs.Saver.{Keeps, Fails};

use crate::saver::Saver;
use std::alloc::Allocator;
use std::marker::Model;
use tl_hash::{Hash, TreeHash, empty_hash};
use tl_proof::{Link, check_tree};

/// The links of one origin. Each is accepted from the one before, and the first from size 0 and the hash of no bytes.
/// A contract sees the steps that they state.
#[derive(Drop)]
pub(crate) struct Chain<T: TreeHash, A: Allocator> {
    tree: T,
    links: Vec<Link<A>, A>,
}

impl<T: TreeHash, A: Allocator> Model for Chain<T, A> {
    ghost use Rattle.std.specs.Prelude.{List, map};
    ghost use Rattle.tl_proof.specs.Acceptance.{Step, step_of};
    ghost use Rattle.tl_witness.specs.Chain.{IsChain};

    ghost Value = { List Step };

    ghost view = { λ c. map step_of c.links.items };

    ghost invariant = { λ c. IsChain T.digest_of (map step_of c.links.items) };
}

/// Why a link was not kept.
#[derive(Clone, Copy)]
pub(crate) enum KeepFault {
    SaveFailed,
    OutOfMemory,
}

impl<T: TreeHash, A: Allocator + Copy> Chain<T, A> {
    /// Returns a chain of no links.
    pub(crate) fn new(alloc: A, tree: T) -> Self
        ensures { result ≡ [] }
    {
        Chain {
            tree,
            links: Vec::new(alloc),
        }
    }

    /// Returns the links, in order.
    pub(crate) fn links(&self) -> &[Link<A>]
        ensures { map step_of result.now ≡ self.now }
    {
        self.links.as_slice()
    }

    /// Shows to the prover that the links are a chain. It does nothing.
    pub(crate) fn is_chain(&self)
        ensures { IsChain T.digest_of self.now }
    {
        let _ = &self.links;
    }

    /// Returns the size and root that the chain has reached.
    pub(crate) fn head(&self) -> (u64, Hash)
        ensures size { result.0 ≡ (last_head (first_head T.digest_of) self.now).size }
        ensures root { result.1 ≡ (last_head (first_head T.digest_of) self.now).root }
    {
        match self.links.last() {
            Some(link) => (link.size, link.root),
            None => (0, empty_hash(self.tree)),
        }
    }

    /// Reports whether the link is accepted from the size and root that the chain has reached.
    pub(crate) fn accepts(&self, link: &Link<A>) -> bool
        ensures { IsTrue result
            ↔ Follows T.digest_of (last_head (first_head T.digest_of) self.now) (step_of link.now) }
    {
        let (size, root) = self.head();
        check_tree(
            self.tree,
            link.proof.as_slice(),
            link.size,
            link.root,
            size,
            root,
        )
    }

    /// Saves the link and then keeps it. Memory is reserved first, so nothing fails after the save.
    pub(crate) fn keep<S: Saver>(
        &mut self,
        origin: &str,
        link: Link<A>,
        saver: &mut S,
    ) -> Result<(), KeepFault>
        requires line { IsChainLine (record { origin = origin.now; step = step_of link }) }
        requires follows { Follows T.digest_of
            (last_head (first_head T.digest_of) self.old) (step_of link) }
        ensures kept { OnOk result (Keeps (S.saved saver.old) (S.saved saver.new) origin.now
            (step_of link) × (self.new ≡ self.old ++ step_of link ∷ [])) }
        ensures err { OnErr result (self.new ≡ self.old) }
        ensures failed { IsErrOf result KeepFault.SaveFailed
            → Fails (S.saved saver.old) (S.saved saver.new) }
        ensures no_memory { IsErrOf result KeepFault.OutOfMemory
            → S.saved saver.new ≡ S.saved saver.old }
    {
        if self.links.reserve(1).is_err() {
            return Err(KeepFault::OutOfMemory);
        }
        if saver.save(origin, &link).is_err() {
            return Err(KeepFault::SaveFailed);
        }
        self.links.push_reserved(link);
        Ok(())
    }
}

// Shows to the prover that each of these is a hash. It changes nothing.
fn are_hashes(hashes: &[Hash])
    ensures { All HasHashLength hashes.now }
{
    for hash in hashes {
        let _ = hash.as_bytes();
    }
}

// Shows to the prover that a link is made of hashes. It changes nothing.
fn is_of_hashes<A: Allocator>(link: &Link<A>)
    ensures { MadeOfHashes (step_of link.now) }
{
    let _ = link.root.as_bytes();
    are_hashes(link.proof.as_slice());
}

// Returns the position of the first link that isn't accepted from the one before.
fn first_break<T: TreeHash, A: Allocator>(tree: T, links: &[Link<A>]) -> Option<usize>
    ensures { MatchOption result (IsChain T.digest_of (map step_of links.now))
        (IsFirstBreak T.digest_of (map step_of links.now)) }
{
    let mut size = 0;
    let mut root = empty_hash(tree);
    for i in 0..links.len() {
        let link = &links[i];
        is_of_hashes(link);
        if !check_tree(
            tree,
            link.proof.as_slice(),
            link.size,
            link.root,
            size,
            root,
        ) {
            return Some(i);
        }
        size = link.size;
        root = link.root;
    }
    None
}

impl<T: TreeHash, A: Allocator> Chain<T, A> {
    /// Returns the chain of these links, or the position of the first link that isn't accepted from the one before.
    pub(crate) fn from_links(tree: T, links: Vec<Link<A>, A>) -> Result<Self, usize>
        ensures ok { IfOk result (λ chain.
            (chain ≡ map step_of links.items) × IsChain T.digest_of (map step_of links.items)) }
        ensures err { IfErr result (IsFirstBreak T.digest_of (map step_of links.items)) }
    {
        if let Some(place) = first_break(tree, links.as_slice()) {
            return Err(place);
        }
        Ok(Chain { tree, links })
    }
}
