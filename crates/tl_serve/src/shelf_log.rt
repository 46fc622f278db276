//! A running log on a shelf.

ghost use Rattle.std.specs.Prelude.{◌≡◌, ◌≢◌, [], Some, false, IfOk};
ghost use Rattle.tl_note.specs.Key.{IsKeyName};
ghost use Rattle.tl_append.specs.Keys.{log_key_of};
ghost use Rattle.tl_serve.specs.Inner.Running.{StaysRunning};
ghost use Rattle.tl_serve.specs.Inner.Shelved.{IsClosed};

use crate::live_log::{LiveLog, refusal};
use std::alloc::Global;
use std::snapshot::Snapshot;
use tl_append::{LogShelf, LogSigningKey};
use tl_hash::Head;
use tl_ledger::Ledger;
use tl_run::RunFault;
use tl_sequencer::{Ended, Intake};

/// A log on a shelf: its lanes, and the ledger of what is on the shelf. What waits to be put there
/// is in memory. What it began with is there for contracts alone.
#[derive(Drop)]
pub(crate) struct ShelfLog<S> {
    alloc: Global,
    key: LogSigningKey,
    shelf: S,
    ledger: Ledger<Global>,
    pub(crate) intake: Intake<Global, Global>,
    // Whether something waits, or was put and isn't published, or the log was never published.
    pub(crate) is_due: bool,
    began: Snapshot<S>,
    was: Snapshot<Ledger<Global>>,
}

// Reports whether a publication is due: it was due before, or something waits.
fn is_due_now(was_due: bool, intake: &Intake<Global, Global>) -> bool
    ensures { result ≡ false → (was_due ≡ false) × (intake.now.waiting ≡ []) }
{
    was_due || !intake.waiting().is_empty()
}

// Drains what waits, if the log grew by it.
fn drain_if_grown(intake: &mut Intake<Global, Global>, before: u64, after: u64)
    ensures log { intake.new.log ≡ intake.old.log }
    ensures gone { before ≢ after → (intake.new.drained ≡ intake.old.log.taken)
        × (intake.new.waiting ≡ []) }
    ensures left { before ≡ after → intake.new ≡ intake.old }
{
    if before != after {
        intake.drain();
    }
}

impl<S: LogShelf + Drop> ShelfLog<S> {
    /// Returns a log on this shelf, with its ledger, whose lanes gave nothing yet. `is_due`: it was
    /// never published, or has entries that aren't.
    pub(crate) fn new(
        alloc: Global,
        key: LogSigningKey,
        shelf: S,
        ledger: Ledger<Global>,
        intake: Intake<Global, Global>,
        is_due: bool,
    ) -> ShelfLog<S>
        requires name { IsKeyName (log_key_of key).name }
        requires drained { intake.drained ≡ [] }
        requires waiting { intake.waiting ≡ [] }
        ensures holds { ⟦<ShelfLog<S> as LiveLog>⟧.holds result }
        ensures begun { ⟦<ShelfLog<S> as LiveLog>⟧.begun result ≡ Some (record {
          key = log_key_of key;
          kept = S.kept shelf;
          saw = S.trace shelf;
          was = ledger;
          place = S.place shelf;
          quorum = S.quorum shelf;
        }) }
        ensures log { ⟦<ShelfLog<S> as LiveLog>⟧.log result ≡ intake.log }
    {
        let (began, was) = (Snapshot::of(&shelf), Snapshot::of(&ledger));
        ShelfLog {
            alloc,
            key,
            shelf,
            ledger,
            intake,
            is_due,
            began,
            was,
        }
    }

    /// Returns how many entries the log has, if it is complete: the end of each lane was taken in,
    /// and all is published.
    pub(crate) fn finish(&self) -> Result<u64, RunFault>
        ensures closed { IfOk result (λ _. IsClosed self.now.intake self.now.is_due) }
        ensures size { IfOk result (λ n. n ≡ self.now.ledger.edge.size) }
    {
        match self.intake.completed() {
            Ok(_taken) if !self.is_due => Ok(self.ledger.size()),
            _ => Err(RunFault::Operator),
        }
    }

    /// Shows what is due, unless that is to be done while the log is served.
    pub(crate) fn show_first(&mut self, is_later: bool) -> Result<(), RunFault>
        requires { ⟦<ShelfLog<S> as LiveLog>⟧.holds self.old }
        ensures { StaysRunning ⟦<ShelfLog<S> as LiveLog>⟧.holds ⟦<ShelfLog<S> as LiveLog>⟧.log
            ⟦<ShelfLog<S> as LiveLog>⟧.begun self.old self.new }
    {
        if is_later {
            return Ok(());
        }
        match self.show() {
            Ok(_) => Ok(()),
            Err(fault) => Err(fault),
        }
    }

    /// Returns the shelf.
    pub(crate) fn into_shelf(self) -> S
        ensures { result ≡ self.shelf }
    {
        let ShelfLog { shelf, .. } = self;
        shelf
    }
}

impl<S: LogShelf + Drop> LiveLog for ShelfLog<S> {
    ghost use Rattle.std.specs.Prelude.{◌≡◌, Some};
    ghost use Rattle.tl_append.specs.Appending.{course};
    ghost use Rattle.tl_append.specs.Keys.{log_key_of};
    ghost use Rattle.tl_serve.specs.Inner.Shelved.{IsHeadOf, IsServing, Seals};

    ghost log = { λ l. l.intake.log };

    ghost holds = { λ l. IsServing (log_key_of l.key) (S.quorum l.shelf)
        (course S.kept S.trace l.began.value l.shelf l.was.value l.ledger) l.intake l.is_due };

    ghost begun = { λ l. Some (record {
      key = log_key_of l.key;
      kept = S.kept l.began.value;
      saw = S.trace l.began.value;
      was = l.was.value;
      place = S.place l.shelf;
      quorum = S.quorum l.shelf;
    }) };

    ghost rests = { λ a b. (b.shelf ≡ a.shelf) × (b.ledger ≡ a.ledger)
        × (b.intake.drained ≡ a.intake.drained) };

    ghost shows = { λ a b. Seals (log_key_of a.key) (S.quorum a.shelf)
        (course S.kept S.trace a.shelf b.shelf a.ledger b.ledger) a.intake b.intake };

    ghost heads = { λ a b head. (b ≡ a) × IsHeadOf a.ledger head };

    fn take_in(&mut self, lane: u32, most: u64) -> Result<u64, RunFault> {
        match self.intake.take(lane, most) {
            Ok(taken) => {
                self.is_due = is_due_now(self.is_due, &self.intake);
                Ok(taken)
            }
            Err(fault) => Err(refusal(fault)),
        }
    }

    fn end_lane(&mut self, ended: Ended<Global, Global>) -> Result<u64, RunFault> {
        match self.intake.end(ended) {
            Ok(taken) => {
                self.is_due = is_due_now(self.is_due, &self.intake);
                Ok(taken)
            }
            Err(refused) => Err(refusal(refused.why)),
        }
    }

    fn show(&mut self) -> Result<bool, RunFault> {
        if !self.is_due {
            return Ok(false);
        }
        let size = self.ledger.size();
        let waiting = self.intake.waiting();
        let outcome = self
            .shelf
            .append(self.alloc, &self.key, waiting, &mut self.ledger);
        drain_if_grown(&mut self.intake, size, self.ledger.size());
        match outcome {
            Ok(()) => {
                self.is_due = false;
                Ok(true)
            }
            Err(fault) => Err(fault),
        }
    }

    fn head(&mut self) -> Option<Head> {
        Some(Head {
            size: self.ledger.size(),
            root: self.ledger.root(),
        })
    }
}
