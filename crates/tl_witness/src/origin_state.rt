//! What is kept of one origin, and how it answers a request. Only its links ever change.

ghost use Rattle.std.specs.Prelude.{◌≡◌, ◌↔◌, ◌≤◌, [], IfOk, IsTrue, OnErr, map, string_bytes};
ghost use Rattle.tl_note.specs.Open.{Opened};
ghost use Rattle.tl_proof.specs.Acceptance.{step_of};
ghost use Rattle.tl_witness.specs.Chain.{Follows, first_head, last_head};
ghost use Rattle.tl_witness.specs.ChainLine.{IsChainLine};
ghost use Rattle.tl_witness.specs.Decide.{Decides, DecidesFrom, Settles};
ghost use Rattle.tl_witness.specs.Inner.Offer.{asked_by, asked_without_lines};
ghost use Rattle.tl_witness.specs.Inner.Outcome.{outcome_of};

use crate::by_origin::OfOrigin;
use crate::chain::{Chain, KeepFault};
use crate::cosign::{KeyName, Tools, cosign};
use crate::finding::Offer;
use crate::reply::{Reply, conflict, refusal};
use crate::saver::Saver;
use std::alloc::{AllocError, Allocator};
use tl_hash::TreeHash;
use tl_note::{NoteFault, NoteView, Signer, Verifier, verify_note};
use tl_proof::Link;

/// An origin's name, the verifiers of its log, and its cosigner. None of it ever changes.
#[derive(Drop)]
pub(crate) struct Origin<A: Allocator> {
    pub(crate) name: String<A>,
    pub(crate) verifiers: Vec<Box<dyn Verifier>, A>,
    pub(crate) cosigner: Box<dyn Signer>,
    pub(crate) cosigner_name: KeyName<A>,
}

/// What contracts see of an origin with this chain.
pub(crate) trait ShownOrigin {
    ghost use Rattle.std.specs.Prelude.{List};
    ghost use Rattle.tl_proof.specs.Acceptance.{Step};
    ghost use Rattle.tl_witness.specs.Witnessed.{Witnessed};

    ghost shown_with: { Self → List Step → Witnessed };
}

impl<A: Allocator> ShownOrigin for Origin<A> {
    ghost use Rattle.std.specs.Prelude.{map};
    ghost use Rattle.tl_witness.specs.Shown.{witnessed};

    ghost shown_with = { λ o chain. witnessed o
        (map (λ v. (Verifier-box v).key v.value) o.verifiers.items)
        ((Signer-box o.cosigner).signing_key o.cosigner.value) chain };
}

/// One origin, and the links that the witness accepted for it.
#[derive(Drop)]
pub(crate) struct OriginState<T: TreeHash, A: Allocator> {
    pub(crate) origin: Origin<A>,
    pub(crate) chain: Chain<T, A>,
}

/// What contracts see of an origin and its links.
pub(crate) trait ShownState {
    ghost use Rattle.tl_witness.specs.Witnessed.{Witnessed};

    ghost shown_state: { Self → Witnessed };
}

impl<T: TreeHash, A: Allocator> ShownState for OriginState<T, A> {
    ghost use Rattle.std.specs.Prelude.{map};
    ghost use Rattle.tl_witness.specs.Shown.{witnessed};

    ghost shown_state = { λ s. witnessed s.origin
        (map (λ v. (Verifier-box v).key v.value) s.origin.verifiers.items)
        ((Signer-box s.origin.cosigner).signing_key s.origin.cosigner.value) s.chain };
}

impl<T: TreeHash, A: Allocator> OfOrigin for OriginState<T, A> {
    ghost use Rattle.std.specs.Prelude.{string_bytes};

    ghost origin_of = { λ s. string_bytes s.origin.name };

    fn origin(&self) -> &str {
        self.origin.name.as_str()
    }
}

// Reports whether the fault is that memory ran out.
fn is_out_of_memory(fault: NoteFault) -> bool
    ensures { IsTrue result ↔ (fault ≡ NoteFault.OutOfMemory) }
{
    matches!(fault, NoteFault::OutOfMemory)
}

// Reports whether the note opens with the verifiers. It fails only if allocation fails.
fn is_open<A: Allocator + Copy>(
    alloc: A,
    note: NoteView<'_, A>,
    verifiers: &[Box<dyn Verifier>],
) -> Result<bool, AllocError>
    ensures { IfOk result (λ opens. IsTrue opens ↔ Opened (map
        (λ verifier. key verifier) verifiers.now) note.entry.text.now note.entry.signatures.items) }
{
    match verify_note(alloc, note, verifiers) {
        Ok(_) => Ok(true),
        Err(fault) if is_out_of_memory(fault) => Err(AllocError),
        Err(_) => Ok(false),
    }
}

impl<A: Allocator + Copy> Origin<A> {
    // Cosigns the checkpoint of a link that follows the chain, and keeps the link if its size is larger.
    fn attest<T: TreeHash, S: Saver>(
        &self,
        tools: Tools<T, A>,
        chain: &mut Chain<T, A>,
        link: Link<A>,
        text: &str,
        time: u64,
        saver: &mut S,
    ) -> Result<Reply<A>, AllocError>
        requires line { IsChainLine
            (record { origin = string_bytes self.now.name; step = step_of link }) }
        requires follows { Follows T.digest_of
            (last_head (first_head T.digest_of) chain.old) (step_of link) }
        requires least { (last_head (first_head T.digest_of) chain.old).size ≤ link.size }
        ensures ok { IfOk result (λ reply. Settles (outcome_of reply (S.saved saver.old)
            (S.saved saver.new) (⟦<Origin<A> as ShownOrigin>⟧.shown_with self.now chain.old)
            (⟦<Origin<A> as ShownOrigin>⟧.shown_with self.now chain.new))
            (last_head (first_head T.digest_of) chain.old).size (asked_without_lines
            (last_head (first_head T.digest_of) chain.old).size (step_of link) text.now time)) }
        ensures err { OnErr result
            ((S.saved saver.new ≡ S.saved saver.old) × (chain.new ≡ chain.old)) }
    {
        let cosigned = cosign(tools, &self.cosigner, &self.cosigner_name, time, text);
        let body = match cosigned {
            Ok(Some(line)) => line.into_bytes(),
            Ok(None) => return Ok(refusal(tools.alloc, 500)),
            Err(fault) => return Err(fault),
        };
        if link.size <= chain.head().0 {
            return Ok(Reply { status: 200, body });
        }
        match chain.keep(self.name.as_str(), link, saver) {
            Ok(()) => Ok(Reply { status: 200, body }),
            Err(KeepFault::SaveFailed) => Ok(refusal(tools.alloc, 500)),
            Err(KeepFault::OutOfMemory) => Err(AllocError),
        }
    }

    // Decides a request whose note opens.
    fn settle<T: TreeHash, S: Saver>(
        &self,
        tools: Tools<T, A>,
        chain: &mut Chain<T, A>,
        old: u64,
        link: Link<A>,
        text: &str,
        time: u64,
        saver: &mut S,
    ) -> Result<Reply<A>, AllocError>
        requires { IsChainLine
            (record { origin = string_bytes self.now.name; step = step_of link }) }
        ensures ok { IfOk result
            (λ reply. DecidesFrom T.digest_of (last_head (first_head T.digest_of) chain.old)
            (record { old = old; step = step_of link; text = text.now; lines = []; time = time })
            (outcome_of reply (S.saved saver.old)
            (S.saved saver.new) (⟦<Origin<A> as ShownOrigin>⟧.shown_with self.now chain.old)
            (⟦<Origin<A> as ShownOrigin>⟧.shown_with self.now chain.new))) }
        ensures err { OnErr result
            ((S.saved saver.new ≡ S.saved saver.old) × (chain.new ≡ chain.old)) }
    {
        let (size, root) = chain.head();
        if link.size < old {
            return Ok(refusal(tools.alloc, 400));
        }
        if old != size || (link.size == size && link.root != root) {
            return conflict(tools.alloc, size);
        }
        if !chain.accepts(&link) {
            return Ok(refusal(tools.alloc, 422));
        }
        self.attest(tools, chain, link, text, time, saver)
    }

    /// Decides a request for this origin, which has this chain. It fails only if allocation fails, and then nothing
    /// has changed.
    pub(crate) fn answer<T: TreeHash, S: Saver>(
        &self,
        tools: Tools<T, A>,
        chain: &mut Chain<T, A>,
        offer: Offer<'_, A>,
        time: u64,
        saver: &mut S,
    ) -> Result<Reply<A>, AllocError>
        requires { IsChainLine
            (record { origin = string_bytes self.now.name; step = step_of offer.link }) }
        ensures ok { IfOk result (λ reply.
            Decides T.digest_of (asked_by offer.entry time) (outcome_of reply (S.saved saver.old)
            (S.saved saver.new) (⟦<Origin<A> as ShownOrigin>⟧.shown_with self.now chain.old)
            (⟦<Origin<A> as ShownOrigin>⟧.shown_with self.now chain.new))) }
        ensures err { OnErr result
            ((S.saved saver.new ≡ S.saved saver.old) × (chain.new ≡ chain.old)) }
    {
        let Offer { old, link, note } = offer;
        let text = note.text;
        match is_open(tools.alloc, note, self.verifiers.as_slice()) {
            Ok(true) => {}
            Ok(false) => return Ok(refusal(tools.alloc, 403)),
            Err(fault) => return Err(fault),
        }
        self.settle(tools, chain, old, link, text, time, saver)
    }
}
