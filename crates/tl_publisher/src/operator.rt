//! The operator of a log.

ghost use Rattle.std.specs.Prelude.{◌≡◌, ◌≤◌, IfErr, IfOk};
ghost use Rattle.tl_publisher.specs.Operating.{IsOfSame, IsOperating, LeavesAllElse};
ghost use Rattle.tl_publisher.specs.Publishing.{Publishes};
ghost use Rattle.tl_sequencer.specs.Faults.{EndRefuses, MayTake, RestFits, TakeRefuses};
ghost use Rattle.tl_sequencer.specs.Log.{IsEndOf};
ghost use Rattle.tl_sequencer.specs.Steps.{Closes, Takes};

use crate::fault::PublishFault;
use crate::noting::note_of;
use crate::published::Published;
use crate::reader::BoardReader;
use crate::run::Run;
use std::alloc::Global;
use std::sync::Wait;
use tl_note::{Signer, Verifier};
use tl_sequencer::{EndRefused, Ended, Submitter, TakeFault};

/// Runs a log: takes submitted entries into it, signs its checkpoints and publishes them. It keeps the runtime `R`
/// because dropping it waits for the readers.
#[derive(Drop)]
pub struct Operator<R: Wait + Drop> {
    pub(crate) alloc: Global,
    pub(crate) origin: String,
    pub(crate) signers: Vec<Box<dyn Signer>>,
    // `need` of these witnesses must cosign. `need` is 0 if no cosignature is required.
    pub(crate) witnesses: Vec<Box<dyn Verifier>>,
    pub(crate) need: u32,
    // The note of the checkpoint that is proposed to the witnesses, which is that of the entries in `run.growth`.
    pub(crate) proposal: Option<String>,
    pub(crate) run: Run<R>,
}

/// A log that was opened: its operator, the submitter of each lane in order, and the readers of its board.
pub type OpenedLog<R> = (
    Operator<R>,
    Vec<Submitter<Global, Global>>,
    Vec<BoardReader<Global>>,
);

/// What contracts see of a running log: its origin, its signers' keys, who must cosign, its entries, the proposal and
/// the history of its publications.
pub trait RunningLog {
    ghost use Rattle.std.specs.Global.{Global as GlobalValue};
    ghost use Rattle.tl_publisher.specs.Operating.{Operated};

    ghost state: { Self → Operated GlobalValue };
}

impl<R: Wait + Drop> RunningLog for Operator<R> {
    ghost use Rattle.std.specs.Prelude.{map, option_map, string_bytes, take};
    ghost use Rattle.tl_sequencer.specs.Log.{entries_of};

    ghost state = { λ o. record {
      origin = string_bytes o.origin;
      signers = map (λ s. (Signer-box s).signing_key s.value) o.signers.items;
      quorum = record {
        witnesses = map (λ w. (Verifier-box w).key w.value) o.witnesses.items;
        need = o.need;
      };
      log = o.run.log;
      proposal = option_map (λ note. record {
        entries = take o.run.grown (entries_of o.run.log);
        note = string_bytes note;
      }) o.proposal;
      past = o.run.past;
    } };
}

impl<R: Wait + Drop> Operator<R> {
    /// Appends up to `max` entries of a lane to the log, in the order in which they were submitted, and returns how
    /// many. It doesn't wait. `NoLane` means that there is no such lane, `LogFull` that the log has as many entries
    /// as it may have. An error changes nothing.
    pub fn take(&mut self, lane: u32, max: u64) -> Result<u64, TakeFault>
        ensures operating { IsOperating (⟦<Operator<R> as RunningLog>⟧.state self.old)
            → IsOperating (⟦<Operator<R> as RunningLog>⟧.state self.new) }
        ensures rest { LeavesAllElse (⟦<Operator<R> as RunningLog>⟧.state self.old)
            (⟦<Operator<R> as RunningLog>⟧.state self.new) }
        ensures most { IfOk result (λ n. n ≤ max) }
        ensures may { IfOk result
            (λ _. MayTake (⟦<Operator<R> as RunningLog>⟧.state self.old).log lane max) }
        ensures taken { IfOk result
            (λ n. Takes lane n (⟦<Operator<R> as RunningLog>⟧.state self.old).log
            (⟦<Operator<R> as RunningLog>⟧.state self.new).log) }
        ensures same { IfErr result (λ _. ⟦<Operator<R> as RunningLog>⟧.state self.new
            ≡ ⟦<Operator<R> as RunningLog>⟧.state self.old) }
        ensures why { IfErr result
            (λ why. TakeRefuses (⟦<Operator<R> as RunningLog>⟧.state self.old).log lane max why) }
    {
        self.run.take(lane, max)
    }

    /// Appends all entries left in the lane of an end, and returns how many. The end must be that of a submitter of
    /// this operator. It doesn't wait. `LogFull` means that they don't all fit into the log. An error changes nothing
    /// and returns the end.
    pub fn end(&mut self, ended: Ended<Global, Global>) -> Result<u64, EndRefused<Global, Global>>
        requires { IsEndOf ended (⟦<Operator<R> as RunningLog>⟧.state self.old).log }
        ensures operating { IsOperating (⟦<Operator<R> as RunningLog>⟧.state self.old)
            → IsOperating (⟦<Operator<R> as RunningLog>⟧.state self.new) }
        ensures rest { LeavesAllElse (⟦<Operator<R> as RunningLog>⟧.state self.old)
            (⟦<Operator<R> as RunningLog>⟧.state self.new) }
        ensures may { IfOk result
            (λ _. RestFits (⟦<Operator<R> as RunningLog>⟧.state self.old).log ended) }
        ensures taken { IfOk result
            (λ n. Closes ended n (⟦<Operator<R> as RunningLog>⟧.state self.old).log
            (⟦<Operator<R> as RunningLog>⟧.state self.new).log) }
        ensures same { IfErr result (λ _. ⟦<Operator<R> as RunningLog>⟧.state self.new
            ≡ ⟦<Operator<R> as RunningLog>⟧.state self.old) }
        ensures back { IfErr result (λ refused. refused.ended ≡ ended) }
        ensures why { IfErr result (λ refused.
            EndRefuses (⟦<Operator<R> as RunningLog>⟧.state self.old).log ended refused.why) }
    {
        self.run.end(ended)
    }

    // Publishes the log, unless it is published already or witnesses must cosign.
    fn publish_log(&mut self) -> Result<Published, PublishFault>
        requires { IsOperating (⟦<Operator<R> as RunningLog>⟧.state self.old) }
        ensures keys { IsOfSame (⟦<Operator<R> as RunningLog>⟧.state self.old)
            (⟦<Operator<R> as RunningLog>⟧.state self.new) }
        ensures published { Publishes (⟦<Operator<R> as RunningLog>⟧.state self.old)
            (⟦<Operator<R> as RunningLog>⟧.state self.new) result }
    {
        if self.need > 0 {
            return Err(PublishFault::Quorum);
        }
        if self.run.is_published() {
            return Err(PublishFault::NothingNew);
        }
        let head = self.run.grow()?;
        let note = note_of(
            self.alloc,
            self.origin.as_str(),
            self.signers.as_slice(),
            head,
        )?;
        let published = self.run.show(note.into_bytes())?;
        Ok(published)
    }

    /// Publishes the whole log in one step: its tiles and bundles (C2SP tlog-tiles), and a checkpoint signed by each
    /// signer in order (C2SP tlog-checkpoint, signed-note). `Quorum` means that witnesses must cosign: use `propose`
    /// and `attach`. `NothingNew` means that the last publication already has the whole log, `Sign` that a signer
    /// gave no signature. Waits until no reader uses the version that is replaced. An error changes neither the log
    /// nor what is published.
    pub fn publish(&mut self) -> Result<Published, PublishFault>
        requires { IsOperating (⟦<Operator<R> as RunningLog>⟧.state self.old) }
        ensures operating { IsOperating (⟦<Operator<R> as RunningLog>⟧.state self.new) }
        ensures keys { IsOfSame (⟦<Operator<R> as RunningLog>⟧.state self.old)
            (⟦<Operator<R> as RunningLog>⟧.state self.new) }
        ensures published { Publishes (⟦<Operator<R> as RunningLog>⟧.state self.old)
            (⟦<Operator<R> as RunningLog>⟧.state self.new) result }
    {
        self.publish_log()
    }
}
