//! Requiring witnesses, and proposing checkpoints to them.

ghost use Rattle.std.specs.Prelude.{◌≡◌, ◌↔◌, IfErr, IfOk, IsTrue, MatchOption, map, string_bytes};
ghost use Rattle.tl_publisher.specs.Inner.Requiring.{MayRequire};
ghost use Rattle.tl_publisher.specs.Operating.{IsOfSame, IsOperating};
ghost use Rattle.tl_publisher.specs.Proposing.{IsProposed, IsRequired, MayNeed};
ghost use Rattle.tl_publisher.specs.Proposing.{ProposeRefuses, RequireRefuses};
ghost use Rattle.tl_publisher.specs.Publishing.{IsSame};

use crate::fault::{PublishFault, RequireFault};
use crate::noting::note_of;
use crate::operator::{Operator, RunningLog};
use std::sync::Wait;
use tl_checkpoint::have_distinct_names;
use tl_note::{MOST_LINES, Verifier};

/// A checkpoint for the witnesses: the number of its entries, and its note signed by the signers (C2SP signed-note).
/// An add-checkpoint request sends the note (C2SP tlog-witness).
#[derive(Debug, Drop)]
pub struct Proposal {
    pub size: u64,
    pub note: String,
}

/// The error of `require`: the witnesses, unchanged, and why they weren't required.
#[derive(Drop)]
pub struct RequireBack {
    pub witnesses: Vec<Box<dyn Verifier>>,
    /// The first reason that applies.
    pub why: RequireFault,
}

impl<R: Wait + Drop> Operator<R> {
    // Reports whether `need` of these witnesses can be required.
    fn may_need(&self, witnesses: &[Box<dyn Verifier>], need: u32) -> bool
        ensures { IsTrue result ↔ MayNeed (⟦<Operator<R> as RunningLog>⟧.state self.now)
            (record { witnesses = map (λ w. key w) witnesses.now; need = need }) }
    {
        if need < 1 || need as usize > witnesses.len() {
            return false;
        }
        witnesses.len() <= MOST_LINES && self.signers.len() <= MOST_LINES - witnesses.len()
    }

    // Returns why these witnesses can't be required.
    fn refusal(&self, witnesses: &[Box<dyn Verifier>], need: u32) -> Option<RequireFault>
        ensures { MatchOption result
            (MayRequire (⟦<Operator<R> as RunningLog>⟧.state self.now)
            (record { witnesses = map (λ w. key w) witnesses.now; need = need }))
            (RequireRefuses (⟦<Operator<R> as RunningLog>⟧.state self.now)
            (record { witnesses = map (λ w. key w) witnesses.now; need = need })) }
    {
        if self.need > 0 || !self.run.is_unpublished() {
            return Some(RequireFault::Late);
        }
        if !self.may_need(witnesses, need) {
            return Some(RequireFault::Need);
        }
        if !have_distinct_names(witnesses) {
            return Some(RequireFault::Twice);
        }
        None
    }

    /// Requires that `need` of these witnesses cosign each checkpoint before it is published (C2SP tlog-cosignature).
    /// From then on `propose` and `attach` replace `publish`. If several faults apply, the first is returned. An
    /// error changes nothing and returns the witnesses. It allocates nothing and doesn't wait.
    pub fn require(
        &mut self,
        witnesses: Vec<Box<dyn Verifier>>,
        need: u32,
    ) -> Result<(), RequireBack>
        requires { IsOperating (⟦<Operator<R> as RunningLog>⟧.state self.old) }
        ensures operating { IsOperating (⟦<Operator<R> as RunningLog>⟧.state self.new) }
        ensures required { IfOk result
            (λ _. IsRequired (⟦<Operator<R> as RunningLog>⟧.state self.old)
            (⟦<Operator<R> as RunningLog>⟧.state self.new)
            (record { witnesses = map (λ w. key w) witnesses.items; need = need })) }
        ensures same { IfErr result (λ _. ⟦<Operator<R> as RunningLog>⟧.state self.new
            ≡ ⟦<Operator<R> as RunningLog>⟧.state self.old) }
        ensures back { IfErr result (λ back. back.witnesses ≡ witnesses) }
        ensures why { IfErr result
            (λ back. RequireRefuses (⟦<Operator<R> as RunningLog>⟧.state self.old)
            (record { witnesses = map (λ w. key w) witnesses.items; need = need }) back.why) }
    {
        if let Some(why) = self.refusal(witnesses.as_slice(), need) {
            return Err(RequireBack { witnesses, why });
        }
        self.witnesses = witnesses;
        self.need = need;
        Ok(())
    }

    /// Signs the checkpoint of the whole log for the witnesses and keeps it as the proposal, in place of an earlier
    /// one. Nothing is published yet. `Quorum` means that no witness is required, `NothingNew` that the last
    /// publication already has the whole log, `Sign` that a signer gave no signature. An error changes nothing and
    /// keeps the earlier proposal. It doesn't wait.
    pub fn propose(&mut self) -> Result<Proposal, PublishFault>
        requires { IsOperating (⟦<Operator<R> as RunningLog>⟧.state self.old) }
        ensures operating { IsOperating (⟦<Operator<R> as RunningLog>⟧.state self.new) }
        ensures keys { IsOfSame (⟦<Operator<R> as RunningLog>⟧.state self.old)
            (⟦<Operator<R> as RunningLog>⟧.state self.new) }
        ensures proposed { IfOk result
            (λ p. IsProposed (⟦<Operator<R> as RunningLog>⟧.state self.old)
            (⟦<Operator<R> as RunningLog>⟧.state self.new) p.size (string_bytes p.note)) }
        ensures same { IfErr result (λ _. IsSame (⟦<Operator<R> as RunningLog>⟧.state self.old)
            (⟦<Operator<R> as RunningLog>⟧.state self.new)) }
        ensures why { IfErr result
            (λ fault. ProposeRefuses (⟦<Operator<R> as RunningLog>⟧.state self.old) fault) }
    {
        if self.need == 0 {
            return Err(PublishFault::Quorum);
        }
        if self.run.is_published() {
            return Err(PublishFault::NothingNew);
        }
        let next = self.run.next()?;
        let note = note_of(
            self.alloc,
            self.origin.as_str(),
            self.signers.as_slice(),
            next.head(),
        )?;
        let copy = String::from_str(self.alloc, note.as_str())?;
        let size = next.size();
        self.run.adopt(next)?;
        self.proposal = Some(note);
        Ok(Proposal { size, note: copy })
    }
}
