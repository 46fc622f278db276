//! One origin of a witness that threads share.

ghost use Rattle.std.specs.Prelude.{◌≡◌, ℕ, IfOk, List, OnErr, drop, map, string_bytes, take};
ghost use Rattle.tl_proof.specs.Acceptance.{Step, step_of};
ghost use Rattle.tl_witness.specs.Chain.{first_head, last_head};
ghost use Rattle.tl_witness.specs.ChainLine.{IsChainLine};
ghost use Rattle.tl_witness.specs.Decide.{Decides};
ghost use Rattle.tl_witness.specs.Inner.Offer.{asked_by};
ghost use Rattle.tl_witness.specs.Inner.Outcome.{outcome_of};
ghost use Rattle.tl_witness.specs.Runs.{IsLater, IsLaterChain};
ghost use Rattle.tl_witness.specs.Shared.{DecidesLater, answer_of};

use crate::by_origin::OfOrigin;
use crate::chain::Chain;
use crate::cosign::Tools;
use crate::finding::Offer;
use crate::lock::{Change, Grows, Lock};
use crate::origin_state::{Origin, OriginState, ShownOrigin, ShownState};
use crate::reply::Reply;
use crate::saver::Saver;
use counted_slot::Fits;
use std::alloc::{AllocError, Allocator};
use std::snapshot::Snapshot;
use std::sync::Wait;
use tl_hash::{Hash, TreeHash};
use tl_note::{Signer, Verifier};
use tl_proof::Link;

impl<T: TreeHash, A: Allocator> Fits for Chain<T, A> {
    ghost use mathlib.Core.List.{IsPrefix};

    type Tag = Snapshot<Chain<T, A>>;

    ghost fits = { λ tag chain. IsPrefix tag.value chain };
}

impl<T: TreeHash, A: Allocator> Grows for Chain<T, A> {
    ghost use mathlib.Core.List.{IsPrefix};

    ghost grows = { λ before after. IsPrefix before after };
}

/// One origin, with the links that the witness accepted for it behind a lock. They begin with those that the lock was
/// made with.
#[derive(Drop)]
pub(crate) struct Guarded<T: TreeHash, A: Allocator> {
    pub(crate) origin: Origin<A>,
    pub(crate) chain: Lock<Chain<T, A>>,
}

/// What contracts see of a guarded origin: the origin and the links with which it was made.
pub(crate) trait ShownGuarded {
    ghost use Rattle.tl_witness.specs.Witnessed.{Witnessed};

    ghost shown_guarded: { Self → Witnessed };
}

impl<T: TreeHash, A: Allocator> ShownGuarded for Guarded<T, A> {
    ghost use Rattle.std.specs.Prelude.{map};
    ghost use Rattle.tl_witness.specs.Shown.{witnessed};

    ghost shown_guarded = { λ s. witnessed s.origin
        (map (λ v. (Verifier-box v).key v.value) s.origin.verifiers.items)
        ((Signer-box s.origin.cosigner).signing_key s.origin.cosigner.value) s.chain.slot.value };
}

impl<T: TreeHash, A: Allocator> OfOrigin for Guarded<T, A> {
    ghost use Rattle.std.specs.Prelude.{string_bytes};

    ghost origin_of = { λ e. string_bytes e.origin.name };

    fn origin(&self) -> &str {
        self.origin.name.as_str()
    }
}

// Returns the links from position `from` on, at most `most` of them.
fn part_of<A: Allocator>(links: &[Link<A>], from: u64, most: u64) -> &[Link<A>]
    ensures { map step_of result.now ≡ take most (drop from (map step_of links.now)) }
{
    let count = links.len() as u64;
    if from >= count {
        return &links[..0];
    }
    let rest = &links[from as usize..];
    if most >= count - from {
        return rest;
    }
    &rest[..most as usize]
}

// Returns copies of the links, in order. It fails only if allocation fails.
fn copy_links<A: Allocator + Copy, B: Allocator>(
    alloc: A,
    links: &[Link<B>],
) -> Result<Vec<Link<A>, A>, AllocError>
    ensures { IfOk result (λ copies. map step_of copies.items ≡ map step_of links.now) }
{
    let mut copies = Vec::new(alloc);
    for link in links {
        copies.push(Link::copy_of(alloc, link)?)?;
    }
    Ok(copies)
}

impl<T: TreeHash, A: Allocator> Guarded<T, A> {
    /// Puts the links of an origin behind a lock.
    pub(crate) fn new(state: OriginState<T, A>) -> Self
        ensures { ⟦<Guarded<T, A> as ShownGuarded>⟧.shown_guarded result
            ≡ ⟦<OriginState<T, A> as ShownState>⟧.shown_state state }
    {
        let OriginState { origin, chain } = state;
        let start = Snapshot::of(&chain);
        Guarded {
            origin,
            chain: Lock::new(chain, &start),
        }
    }
}

impl<T: TreeHash, A: Allocator + Copy> Guarded<T, A> {
    // Decides a request for this origin in one turn of the lock. Also returns what the turn did: the chain that it
    // put back is the one that the decision leaves.
    fn decide<R: Wait, S: Saver>(
        &self,
        rt: &R,
        tools: Tools<T, A>,
        offer: Offer<'_, A>,
        time: u64,
        saver: &mut S,
    ) -> (Result<Reply<A>, AllocError>, Change<Chain<T, A>>)
        requires { IsChainLine
            (record { origin = string_bytes self.now.origin.name; step = step_of offer.link }) }
        ensures later { IsLaterChain T.digest_of self.now.chain.slot.value result.1.before.value }
        ensures ok { IfOk result.0 (λ reply. Decides T.digest_of (asked_by offer.entry time)
            (outcome_of reply (S.saved saver.old) (S.saved saver.new)
            (⟦<Origin<A> as ShownOrigin>⟧.shown_with self.now.origin result.1.before.value)
            (⟦<Origin<A> as ShownOrigin>⟧.shown_with self.now.origin result.1.after.value))) }
        ensures err { OnErr result.0 ((S.saved saver.new ≡ S.saved saver.old)
            × (result.1.after.value ≡ result.1.before.value)) }
    {
        let (turn, mut chain) = self.chain.enter(rt);
        chain.is_chain();
        let reply = self.origin.answer(tools, &mut chain, offer, time, saver);
        let change = turn.leave(rt, chain);
        (reply, change)
    }

    /// Decides a request for this origin once its turn at the lock has come. It fails only if allocation fails, and
    /// then nothing has changed.
    pub(crate) fn answer<R: Wait, S: Saver>(
        &self,
        rt: &R,
        tools: Tools<T, A>,
        offer: Offer<'_, A>,
        time: u64,
        saver: &mut S,
    ) -> Result<Reply<A>, AllocError>
        requires { IsChainLine
            (record { origin = string_bytes self.now.origin.name; step = step_of offer.link }) }
        ensures ok { IfOk result (λ reply.
            DecidesLater T.digest_of (⟦<Guarded<T, A> as ShownGuarded>⟧.shown_guarded self.now)
            (asked_by offer.entry time) (answer_of reply (S.saved saver.old) (S.saved saver.new))) }
        ensures err { OnErr result (S.saved saver.new ≡ S.saved saver.old) }
    {
        let (reply, _) = self.decide(rt, tools, offer, time, saver);
        reply
    }

    /// Returns the origin once nobody shares it any more.
    pub(crate) fn into_state<R: Wait>(self, rt: &R) -> OriginState<T, A>
        ensures { IsLater T.digest_of (⟦<Guarded<T, A> as ShownGuarded>⟧.shown_guarded self)
            (⟦<OriginState<T, A> as ShownState>⟧.shown_state result) }
    {
        let Guarded { origin, chain } = self;
        let chain = chain.into_inner(rt);
        chain.is_chain();
        OriginState { origin, chain }
    }

    /// Returns the size and root that the chain has when the lock is taken.
    pub(crate) fn head<R: Wait>(&self, rt: &R) -> (u64, Hash)
        ensures { (later : List Step) × IsLaterChain T.digest_of self.now.chain.slot.value later
            × (result.0 ≡ (last_head (first_head T.digest_of) later).size)
            × (result.1 ≡ (last_head (first_head T.digest_of) later).root) }
    {
        let (turn, chain) = self.chain.enter(rt);
        chain.is_chain();
        let head = chain.head();
        turn.leave(rt, chain);
        head
    }

    /// Returns a copy of the links from position `from` on, at most `most` of them, as they are when the lock is
    /// taken. It fails only if allocation fails.
    pub(crate) fn links<R: Wait>(
        &self,
        rt: &R,
        alloc: A,
        from: u64,
        most: u64,
    ) -> Result<Vec<Link<A>, A>, AllocError>
        ensures { IfOk result
            (λ links. (later : List Step) × IsLaterChain T.digest_of self.now.chain.slot.value later
            × (map step_of links.items ≡ take most (drop from later))) }
    {
        let (turn, chain) = self.chain.enter(rt);
        chain.is_chain();
        let links = copy_links(alloc, part_of(chain.links(), from, most));
        turn.leave(rt, chain);
        links
    }

    /// Returns a copy of all links, as they are when the lock is taken. It fails only if allocation fails.
    pub(crate) fn all_links<R: Wait>(&self, rt: &R, alloc: A) -> Result<Vec<Link<A>, A>, AllocError>
        ensures { IfOk result (λ links.
            IsLaterChain T.digest_of self.now.chain.slot.value (map step_of links.items)) }
    {
        let (turn, chain) = self.chain.enter(rt);
        chain.is_chain();
        let links = copy_links(alloc, chain.links());
        turn.leave(rt, chain);
        links
    }
}
