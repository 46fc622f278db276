//! A witness that threads share, with one lock for each origin.

ghost use Rattle.std.specs.Prelude.{◌≡◌, ◌≤◌, [], ℕ, IfErr, IfOk, MatchOption, OnErr, drop, length, map, take, vec_capacity};
ghost use Rattle.tl_proof.specs.Acceptance.{step_of};
ghost use Rattle.tl_witness.specs.Answers.{AsksForMemory};
ghost use Rattle.tl_witness.specs.Book.{IsPlacedIn, Placed};
ghost use Rattle.tl_witness.specs.Chain.{first_head, last_head};
ghost use Rattle.tl_witness.specs.Runs.{IsLaterBook};
ghost use Rattle.tl_witness.specs.Shared.{AnswersShared, DecidesShared, IsOfLaterChain, answer_of};

use crate::book::{Book, Shown};
use crate::by_origin::{ByOrigin, place_by};
use crate::cosign::Tools;
use crate::finding::{Unfound, find_origin};
use crate::guarded::Guarded;
use crate::origin_state::OriginState;
use crate::reply::{Reply, refusal};
use crate::saver::Saver;
use std::alloc::{AllocError, Allocator};
use std::sync::Wait;
use tl_hash::{Hash, TreeHash};
use tl_note::{Signer, Verifier};
use tl_proof::Link;

/// A book that threads share. What never changes is outside the locks. So a request waits only for requests to the
/// same origin, and one that is malformed or has an unknown origin waits for none.
#[derive(Drop)]
pub struct SharedWitness<T: TreeHash, A: Allocator + Copy> {
    tools: Tools<T, A>,
    states: Vec<Guarded<T, A>, A>,
    places: ByOrigin<A>,
}

impl<T: TreeHash, A: Allocator + Copy> Shown for SharedWitness<T, A> {
    ghost use Rattle.std.specs.Prelude.{map};
    ghost use Rattle.tl_witness.specs.Shown.{witnessed};

    ghost shown = { λ w. map (λ s. witnessed s.origin
        (map (λ v. (Verifier-box v).key v.value) s.origin.verifiers.items)
        ((Signer-box s.origin.cosigner).signing_key s.origin.cosigner.value)
        s.chain.slot.value) w.states.items };
}

// Returns an empty list with room for what a book keeps.
fn room_for<T: TreeHash, A: Allocator + Copy>(
    book: &Book<T, A>,
) -> Result<Vec<Guarded<T, A>, A>, AllocError>
    ensures { IfOk result
        (λ list. (list.items ≡ []) × (length book.now.states.items ≤ vec_capacity list)) }
{
    let mut list = Vec::new(book.tools.alloc);
    list.reserve(book.states.len())?;
    Ok(list)
}

/// The error of `SharedWitness::new`: allocation failed.
#[derive(Drop)]
pub struct BookBack<T: TreeHash, A: Allocator + Copy> {
    /// The book, unchanged.
    pub book: Book<T, A>,
}

// Returns an empty list with room for what a shared witness keeps.
fn room_back<T: TreeHash, A: Allocator + Copy>(
    witness: &SharedWitness<T, A>,
) -> Result<Vec<OriginState<T, A>, A>, AllocError>
    ensures { IfOk result
        (λ list. (list.items ≡ []) × (length witness.now.states.items ≤ vec_capacity list)) }
{
    let mut list = Vec::new(witness.tools.alloc);
    list.reserve(witness.states.len())?;
    Ok(list)
}

/// The error of `into_book`: allocation failed.
#[derive(Drop)]
pub struct WitnessBack<T: TreeHash, A: Allocator + Copy> {
    /// The witness, unchanged.
    pub witness: SharedWitness<T, A>,
}

impl<T: TreeHash, A: Allocator + Copy> SharedWitness<T, A> {
    /// Shares a book. Each origin keeps its verifiers, cosigner and links, and every later chain begins with these
    /// links. If allocation fails the book comes back.
    pub fn new(book: Book<T, A>) -> Result<Self, BookBack<T, A>>
        ensures ok { IfOk result
            (λ w. ⟦<SharedWitness<T, A> as Shown>⟧.shown w ≡ ⟦<Book<T, A> as Shown>⟧.shown book) }
        ensures err { IfErr result (λ back. back.book ≡ book) }
    {
        let Ok(mut states) = room_for(&book) else {
            return Err(BookBack { book });
        };
        let Book {
            tools,
            states: before,
            places,
        } = book;
        for state in before {
            states.push_reserved(Guarded::new(state));
        }
        Ok(SharedWitness {
            tools,
            states,
            places,
        })
    }

    /// Decides an add-checkpoint request as `Book::try_add` does, from what its origin has when its turn comes. It
    /// fails only if allocation fails, and then nothing has changed.
    pub fn try_add<R: Wait, S: Saver>(
        &self,
        rt: &R,
        body: &[u8],
        time: u64,
        saver: &mut S,
    ) -> Result<Reply<A>, AllocError>
        ensures decided { IfOk result
            (λ reply. DecidesShared T.digest_of (⟦<SharedWitness<T, A> as Shown>⟧.shown self.now)
            body.now time (answer_of reply (S.saved saver.old) (S.saved saver.new))) }
        ensures unchanged { OnErr result
            ((S.saved saver.new ≡ S.saved saver.old) × AsksForMemory body.now) }
    {
        let tools = self.tools;
        let found = match find_origin(tools.alloc, &self.places, self.states.as_slice(), body) {
            Ok(found) => found,
            Err(Unfound::Malformed) => return Ok(refusal(tools.alloc, 400)),
            Err(Unfound::Unknown) => return Ok(refusal(tools.alloc, 404)),
            Err(Unfound::OutOfMemory) => return Err(AllocError),
        };
        self.states[found.place].answer(rt, tools, found.offer, time, saver)
    }

    /// Answers an add-checkpoint request as `try_add` decides it, or with 500 if allocation fails.
    pub fn add<R: Wait, S: Saver>(&self, rt: &R, body: &[u8], time: u64, saver: &mut S) -> Reply<A>
        ensures { AnswersShared T.digest_of (⟦<SharedWitness<T, A> as Shown>⟧.shown self.now)
            body.now time (answer_of result (S.saved saver.old) (S.saved saver.new)) }
    {
        match self.try_add(rt, body, time, saver) {
            Ok(reply) => reply,
            Err(_) => refusal(self.tools.alloc, 500),
        }
    }

    /// Returns a copy of an origin's links, as they are when its lock is taken, or `None` if the origin is unknown.
    /// They begin with the links of the book that was shared. It fails only if allocation fails.
    pub fn chain<R: Wait>(
        &self,
        rt: &R,
        origin: &str,
    ) -> Result<Option<Vec<Link<A>, A>>, AllocError>
        ensures { IfOk result (λ found. MatchOption found ((placed : Placed)
            → ¬ (IsPlacedIn (⟦<SharedWitness<T, A> as Shown>⟧.shown self.now) origin.now placed))
            (λ links. IsOfLaterChain T.digest_of (⟦<SharedWitness<T, A> as Shown>⟧.shown self.now)
            origin.now (λ later. map step_of links.items ≡ later))) }
    {
        let Some(place) = place_by(&self.places, self.states.as_slice(), origin) else {
            return Ok(None);
        };
        let links = self.states[place].all_links(rt, self.tools.alloc)?;
        Ok(Some(links))
    }

    /// Returns a copy of an origin's links from position `from`, counted from 0, at most `most` of them, as they are
    /// when its lock is taken. It is `None` if the origin is unknown. It fails only if allocation fails.
    pub fn links<R: Wait>(
        &self,
        rt: &R,
        origin: &str,
        from: u64,
        most: u64,
    ) -> Result<Option<Vec<Link<A>, A>>, AllocError>
        ensures { IfOk result (λ found. MatchOption found ((placed : Placed)
            → ¬ (IsPlacedIn (⟦<SharedWitness<T, A> as Shown>⟧.shown self.now) origin.now placed))
            (λ links. IsOfLaterChain T.digest_of (⟦<SharedWitness<T, A> as Shown>⟧.shown self.now)
            origin.now (λ later. map step_of links.items ≡ take most (drop from later)))) }
    {
        let Some(place) = place_by(&self.places, self.states.as_slice(), origin) else {
            return Ok(None);
        };
        let links = self.states[place].links(rt, self.tools.alloc, from, most)?;
        Ok(Some(links))
    }

    /// Returns the size and root that an origin has when its lock is taken, or `None` if the origin is unknown.
    pub fn head<R: Wait>(&self, rt: &R, origin: &str) -> Option<(u64, Hash)>
        ensures { MatchOption result ((placed : Placed)
            → ¬ (IsPlacedIn (⟦<SharedWitness<T, A> as Shown>⟧.shown self.now) origin.now placed))
            (λ head. IsOfLaterChain T.digest_of (⟦<SharedWitness<T, A> as Shown>⟧.shown self.now)
            origin.now (λ later. (head.0 ≡ (last_head (first_head T.digest_of) later).size)
            × (head.1 ≡ (last_head (first_head T.digest_of) later).root))) }
    {
        let Some(place) = place_by(&self.places, self.states.as_slice(), origin) else {
            return None;
        };
        Some(self.states[place].head(rt))
    }

    /// Returns the book once nobody shares it: the same origins, with chains that begin with those of the book that
    /// was shared. If allocation fails the witness comes back.
    pub fn into_book<R: Wait>(self, rt: &R) -> Result<Book<T, A>, WitnessBack<T, A>>
        ensures ok { IfOk result (λ book. IsLaterBook T.digest_of
            (⟦<SharedWitness<T, A> as Shown>⟧.shown self) (⟦<Book<T, A> as Shown>⟧.shown book)) }
        ensures err { IfErr result (λ back. back.witness ≡ self) }
    {
        let Ok(mut states) = room_back(&self) else {
            return Err(WitnessBack { witness: self });
        };
        let SharedWitness {
            tools,
            states: before,
            places,
        } = self;
        for guarded in before {
            states.push_reserved(guarded.into_state(rt));
        }
        Ok(Book {
            tools,
            states,
            places,
        })
    }
}
