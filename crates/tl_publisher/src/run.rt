//! A running log and what was published of it.

ghost use Rattle.std.specs.Prelude.{◌≡◌, ℕ, ◌+◌, ◌<◌, ◌≤◌, ◌^◌, ◌↔◌, [], ◌∷◌, ◌++◌, List, length, take, vec_items, IsTrue, IfOk, IfErr, OnOk, OnErr};
ghost use Rattle.sha2.specs.Sha256.{sha256};
ghost use Rattle.tl_hash.specs.Tree.{tree_hash};
ghost use Rattle.tl_sequencer.specs.Log.{entries_of, rings_of, IsEndOf};
ghost use Rattle.tl_sequencer.specs.Merge.{IsMerge};
ghost use Rattle.tl_sequencer.specs.Steps.{Takes, Closes, IsComplete, IsFirstOpen, sent_of};
ghost use Rattle.tl_log.specs.Histories.{last_of};
ghost use Rattle.tl_publisher.specs.Inner.Publications.{published_as};
ghost use Rattle.tl_sequencer.specs.Faults.{MayTake, TakeRefuses, RestFits, EndRefuses};
ghost use Rattle.tl_publisher.specs.Grown.{IsGrown};
ghost use Rattle.tl_publisher.specs.Stages as stages;
ghost use Rattle.tl_publisher.specs.Publishing.{EndsWith};

use crate::board_writer::BoardWriter;
use crate::growth::Growth;
use crate::published::Published;
use crate::reader::BoardReader;
use std::alloc::{AllocError, Global};
use std::marker::Model;
use std::sync::Wait;
use tl_hash::Head;
use tl_sequencer::{Complete, EndRefused, Ended, Incomplete, Sequencer, TakeFault};

/// A log, the growth of its tiles, and the board that shows it. Contracts see the log, how many of its entries the
/// growth has, and the history of publications.
#[derive(Drop)]
pub(crate) struct Run<R: Wait + Drop> {
    log: Sequencer<Global, Global>,
    growth: Growth<Global>,
    board: BoardWriter<R>,
}

impl<R: Wait + Drop> Model for Run<R> {
    ghost use Rattle.std.specs.Global.{Global as GlobalValue};
    ghost use Rattle.tl_publisher.specs.Running as running;

    ghost Value = { running.Running GlobalValue };

    ghost view = { λ r. record { log = r.log; grown = r.growth.edge.size; past = r.board.past } };

    ghost invariant = { λ r. running.IsRunning r.log r.growth r.board };
}

// Adds the next four entries of the log to the growth, or only one if there are fewer or they would fill a bundle.
fn take_some(growth: &mut Growth<Global>, log: &Sequencer<Global, Global>) -> Result<(), AllocError>
    requires few { log.now.limit < 2 ^ 32 }
    requires within { growth.old.edge.size < length (entries_of log.now) }
    ensures grown { (start : ℕ)
        → IsGrown sha256 start (take growth.old.edge.size (entries_of log.now)) growth.old
        → IsGrown sha256 start (take growth.new.edge.size (entries_of log.now)) growth.new }
    ensures within { growth.new.edge.size ≤ length (entries_of log.now) }
    ensures more { OnOk result (growth.old.edge.size < growth.new.edge.size) }
{
    let place = growth.size();
    let len = log.len();
    let Some(first) = log.entry(place) else {
        unreachable!()
    };
    if place % 256 < 252 && len - place >= 4 {
        let (Some(second), Some(third), Some(fourth)) = (
            log.entry(place + 1),
            log.entry(place + 2),
            log.entry(place + 3),
        ) else {
            unreachable!()
        };
        growth.append_four(first, second, third, fourth)?;
        return Ok(());
    }
    growth.append(first)?;
    Ok(())
}

// Adds the entries of the log that the growth doesn't have yet. If allocation fails it has some of them.
fn take_in(growth: &mut Growth<Global>, log: &Sequencer<Global, Global>) -> Result<(), AllocError>
    requires few { log.now.limit < 2 ^ 32 }
    requires within { growth.old.edge.size ≤ length (entries_of log.now) }
    ensures grown { (start : ℕ)
        → IsGrown sha256 start (take growth.old.edge.size (entries_of log.now)) growth.old
        → IsGrown sha256 start (take growth.new.edge.size (entries_of log.now)) growth.new }
    ensures within { growth.new.edge.size ≤ length (entries_of log.now) }
    ensures all { OnOk result (growth.new.edge.size ≡ length (entries_of log.now)) }
{
    while growth.size() < log.len() {
        take_some(growth, log)?;
    }
    Ok(())
}

impl<R: Wait + Drop> Run<R> {
    /// Takes up to `max` entries of a lane, as `Sequencer::take` does.
    pub(crate) fn take(&mut self, lane: u32, max: u64) -> Result<u64, TakeFault>
        ensures past { self.new.past ≡ self.old.past }
        ensures grown { take self.new.grown (entries_of self.new.log)
            ≡ take self.old.grown (entries_of self.old.log) }
        ensures rings { rings_of self.new.log ≡ rings_of self.old.log }
        ensures most { IfOk result (λ n. n ≤ max) }
        ensures may { IfOk result (λ _. MayTake self.old.log lane max) }
        ensures taken { IfOk result (λ n. Takes lane n self.old.log self.new.log) }
        ensures same { IfErr result (λ _. self.new ≡ self.old) }
        ensures why { IfErr result (λ why. TakeRefuses self.old.log lane max why) }
    {
        self.log.take(lane, max)
    }

    /// Takes all entries left in the lane of an end, as `Sequencer::end` does.
    pub(crate) fn end(
        &mut self,
        ended: Ended<Global, Global>,
    ) -> Result<u64, EndRefused<Global, Global>>
        requires { IsEndOf ended self.old.log }
        ensures past { self.new.past ≡ self.old.past }
        ensures grown { take self.new.grown (entries_of self.new.log)
            ≡ take self.old.grown (entries_of self.old.log) }
        ensures rings { rings_of self.new.log ≡ rings_of self.old.log }
        ensures may { IfOk result (λ _. RestFits self.old.log ended) }
        ensures taken { IfOk result (λ n. Closes ended n self.old.log self.new.log) }
        ensures same { IfErr result (λ _. self.new ≡ self.old) }
        ensures back { IfErr result (λ refused. refused.ended ≡ ended) }
        ensures why { IfErr result (λ refused. EndRefuses self.old.log ended refused.why) }
    {
        self.log.end(ended)
    }

    /// Reports whether the last publication has the whole log.
    pub(crate) fn is_published(&self) -> bool
        ensures { IsTrue result ↔ EndsWith self.now.past.log (entries_of self.now.log) }
    {
        match self.board.head() {
            Some(head) => head.size == self.log.len(),
            None => false,
        }
    }

    /// Adds the whole log to the growth, and returns the log's size and root.
    pub(crate) fn grow(&mut self) -> Result<Head, AllocError>
        ensures same { (self.new.log ≡ self.old.log) × (self.new.past ≡ self.old.past) }
        ensures grown { IfOk result (λ _. self.new.grown ≡ length (entries_of self.old.log)) }
        ensures small { IfOk result (λ h. h.size < 2 ^ 32) }
        ensures head { IfOk result (λ h. (h.size ≡ length (entries_of self.old.log))
            × (h.root ≡ tree_hash sha256 (entries_of self.old.log))) }
    {
        take_in(&mut self.growth, &self.log)?;
        Ok(self.growth.head())
    }

    /// Reports whether nothing was published.
    pub(crate) fn is_unpublished(&self) -> bool
        ensures { IsTrue result ↔ (self.now.past.log ≡ []) }
    {
        match self.board.head() {
            Some(_head) => false,
            None => true,
        }
    }

    /// Returns the size and root of the entries that the growth has.
    pub(crate) fn grown(&self) -> Head
        ensures size { result.size ≡ length (take self.now.grown (entries_of self.now.log)) }
        ensures small { result.size < 2 ^ 32 }
        ensures root { result.root
            ≡ tree_hash sha256 (take self.now.grown (entries_of self.now.log)) }
    {
        self.growth.head()
    }

    /// Returns a growth of the whole log that continues the run's own, which stays as it is.
    pub(crate) fn next(&self) -> Result<Growth<Global>, AllocError>
        ensures { IfOk result (IsGrown sha256 self.now.grown (entries_of self.now.log)) }
    {
        let mut next = self.growth.fork()?;
        take_in(&mut next, &self.log)?;
        Ok(next)
    }

    /// Replaces the run's growth by one of the whole log, which `next` returned. If allocation fails nothing changes.
    pub(crate) fn adopt(&mut self, next: Growth<Global>) -> Result<(), AllocError>
        requires { IsGrown sha256 self.old.grown (entries_of self.old.log) next }
        ensures same { (self.new.log ≡ self.old.log) × (self.new.past ≡ self.old.past) }
        ensures grown { OnOk result (self.new.grown ≡ length (entries_of self.old.log)) }
        ensures refused { OnErr result (self.new ≡ self.old) }
    {
        self.growth.join(next)
    }

    /// Publishes the entries that the growth has, under this note.
    pub(crate) fn show(&mut self, note: Vec<u8>) -> Result<Published, AllocError>
        requires { stages.IsNextOf (last_of self.old.past.log)
            (published_as (take self.old.grown (entries_of self.old.log)) note.items) }
        ensures log { (self.new.log ≡ self.old.log) × (self.new.grown ≡ self.old.grown) }
        ensures book { self.new.past.book ≡ self.old.past.book }
        ensures published { IfOk result (λ p. (self.new.past.log ≡ self.old.past.log
            ++ published_as (take self.old.grown (entries_of self.old.log)) note.items ∷ [])
            × (p ≡ self.new.past)) }
        ensures refused { OnErr result (self.new ≡ self.old) }
    {
        let _shown = self.board.head();
        let _len = self.log.len();
        let size = self.growth.size();
        let change = self.growth.change(note)?;
        let past = self.board.show(change, &self.log, size)?;
        self.growth.settle();
        Ok(Published::new(past, size))
    }

    /// Returns a run of this log, which isn't published yet, with the growth of its entries and room for `readers`
    /// readers.
    pub(crate) fn open(
        rt: R,
        alloc: Global,
        log: Sequencer<Global, Global>,
        growth: Growth<Global>,
        readers: usize,
    ) -> Result<Run<R>, AllocError>
        requires grown { IsGrown sha256 0 (entries_of log) growth }
        requires few { log.limit < 2 ^ 32 }
        requires readers { (0 < readers) × (readers < 2 ^ 32) }
        ensures { IfOk result (λ r. (r.log ≡ log) × (r.past.log ≡ [])) }
    {
        let board = BoardWriter::open(rt, alloc, readers)?;
        Ok(Run { log, growth, board })
    }

    /// Returns a reader of the board that has seen all publications so far.
    pub(crate) fn reader(&mut self) -> Result<BoardReader<Global>, AllocError>
        ensures same { self.new ≡ self.old }
        ensures reader { IfOk result (λ w. w ≡ self.old.past) }
    {
        self.board.reader()
    }

    /// Closes the log, as `Sequencer::close` does.
    pub(crate) fn close(self) -> Result<(Complete<Global, Global>, BoardWriter<R>), (Run<R>, u32)>
        ensures complete { IfOk result (λ r. (r.0 ≡ self.log) × IsComplete r.0) }
        ensures merge { IfOk result (λ r. IsMerge (entries_of r.0) r.0.base (sent_of r.0)) }
        ensures board { IfOk result (λ r. r.1.past ≡ self.past) }
        ensures back { IfErr result (λ r. r.0 ≡ self) }
        ensures lane { IfErr result (λ r. IsFirstOpen self.log r.1) }
    {
        let Run { log, growth, board } = self;
        match log.close() {
            Ok(complete) => Ok((complete, board)),
            Err(incomplete) => {
                let Incomplete { sequencer, lane } = incomplete;
                let run = Run {
                    log: sequencer,
                    growth,
                    board,
                };
                Err((run, lane))
            }
        }
    }
}
