//! The book of a witness: what it keeps of every origin.

ghost use Rattle.std.specs.Prelude.{◌≡◌, IfOk, MatchOption, OnErr, map};
ghost use Rattle.tl_proof.specs.Acceptance.{step_of};
ghost use Rattle.tl_witness.specs.Answers.{Answers, AsksForMemory};
ghost use Rattle.tl_witness.specs.Book.{DecidesBody, IsPlacedIn, Placed, book_outcome};

use crate::by_origin::{ByOrigin, place_by};
use crate::cosign::Tools;
use crate::finding::{Unfound, find_origin};
use crate::origin_state::OriginState;
use crate::reply::{Reply, refusal};
use crate::saver::Saver;
use std::alloc::{AllocError, Allocator};
use tl_hash::TreeHash;
use tl_note::{Signer, Verifier};
use tl_proof::Link;

/// Everything that a witness keeps: for each origin the log's verifiers, the cosigner, and the links that it has
/// accepted.
#[derive(Drop)]
pub struct Book<T: TreeHash, A: Allocator + Copy> {
    pub(crate) tools: Tools<T, A>,
    pub(crate) states: Vec<OriginState<T, A>, A>,
    pub(crate) places: ByOrigin<A>,
}

/// What contracts see of a book: what is kept of each origin.
pub trait Shown {
    ghost use Rattle.std.specs.Prelude.{List};
    ghost use Rattle.tl_witness.specs.Witnessed.{Witnessed};

    ghost shown: { Self → List Witnessed };
}

impl<T: TreeHash, A: Allocator + Copy> Shown for Book<T, A> {
    ghost use Rattle.std.specs.Prelude.{map};
    ghost use Rattle.tl_witness.specs.Shown.{witnessed};

    ghost shown = { λ b. map (λ s. witnessed s.origin
        (map (λ v. (Verifier-box v).key v.value) s.origin.verifiers.items)
        ((Signer-box s.origin.cosigner).signing_key s.origin.cosigner.value)
        s.chain) b.states.items };
}

impl<T: TreeHash, A: Allocator + Copy> Book<T, A> {
    /// Decides an add-checkpoint request at `time`, in Unix seconds (C2SP tlog-witness, "add-checkpoint"). The first
    /// case that applies is the status: 400 for no request or no checkpoint; 404 for an unknown origin; 403 if the
    /// note doesn't open with its verifiers; 400 if the old size exceeds the new; 409 with the last size if the old
    /// size, or the root at an equal size, differs; 422 if the proof isn't accepted; 500 without signature or save;
    /// else 200 with a cosignature line. It fails if memory runs out.
    pub fn try_add<S: Saver>(
        &mut self,
        body: &[u8],
        time: u64,
        saver: &mut S,
    ) -> Result<Reply<A>, AllocError>
        ensures decided { IfOk result (λ reply. DecidesBody T.digest_of body.now time
            (book_outcome reply (S.saved saver.old) (S.saved saver.new)
            (⟦<Book<T, A> as Shown>⟧.shown self.old) (⟦<Book<T, A> as Shown>⟧.shown self.new))) }
        ensures unchanged { OnErr result ((S.saved saver.new ≡ S.saved saver.old)
            × (⟦<Book<T, A> as Shown>⟧.shown self.new ≡ ⟦<Book<T, A> as Shown>⟧.shown self.old)
            × AsksForMemory body.now) }
    {
        let tools = self.tools;
        let found = match find_origin(tools.alloc, &self.places, self.states.as_slice(), body) {
            Ok(found) => found,
            Err(Unfound::Malformed) => return Ok(refusal(tools.alloc, 400)),
            Err(Unfound::Unknown) => return Ok(refusal(tools.alloc, 404)),
            Err(Unfound::OutOfMemory) => return Err(AllocError),
        };
        let state = &mut self.states[found.place];
        state
            .origin
            .answer(tools, &mut state.chain, found.offer, time, saver)
    }

    /// Answers an add-checkpoint request as `try_add` decides it, or with 500 if allocation fails. For a larger size
    /// the link is saved once, before it is kept. Any reply but 200 leaves the book unchanged.
    pub fn add<S: Saver>(&mut self, body: &[u8], time: u64, saver: &mut S) -> Reply<A>
        ensures { Answers T.digest_of body.now time
            (book_outcome result (S.saved saver.old) (S.saved saver.new)
            (⟦<Book<T, A> as Shown>⟧.shown self.old) (⟦<Book<T, A> as Shown>⟧.shown self.new)) }
    {
        match self.try_add(body, time, saver) {
            Ok(reply) => reply,
            Err(_) => refusal(self.tools.alloc, 500),
        }
    }

    /// Returns the links of an origin, in order, or `None` if the origin is unknown.
    pub fn chain(&self, origin: &str) -> Option<&[Link<A>]>
        ensures { MatchOption result ((placed : Placed)
            → ¬ (IsPlacedIn (⟦<Book<T, A> as Shown>⟧.shown self.now) origin.now placed))
            (λ links. (placed : Placed) × IsPlacedIn (⟦<Book<T, A> as Shown>⟧.shown self.now)
            origin.now placed × (map step_of links.now ≡ placed.one.chain)) }
    {
        let place = match place_by(&self.places, self.states.as_slice(), origin) {
            Some(place) => place,
            None => return None,
        };
        Some(self.states[place].chain.links())
    }
}
