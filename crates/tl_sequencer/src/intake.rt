//! A log that grows from its lanes and is stored elsewhere.
ghost use Rattle.std.specs.Prelude.{◌≡◌, ◌≤◌, ◌-◌, ◌++◌, [], vec_len, length, map, vec_items, None, IfOk, IfErr};
ghost use Rattle.std.specs.List.{All};
ghost use Rattle.tl_sequencer.specs.Log.{IsShort, IsEndOf, entries_of, rings_of};
ghost use Rattle.tl_sequencer.specs.Merge.{IsMerge};
ghost use Rattle.tl_sequencer.specs.Steps.{IsLog, Takes, Closes, IsComplete, IsFirstOpen, sent_of};
ghost use Rattle.tl_sequencer.specs.Opened.{IsOpened};
ghost use Rattle.tl_sequencer.specs.Faults.{MayOpen, OpenRefuses, MayTake, TakeRefuses, RestFits, EndRefuses};

use crate::ended::Ended;
use crate::fault::{OpenFault, TakeFault};
use crate::lane::{Lane, first_open};
use crate::opening::{fault_of, new_lanes};
use crate::sequencer::EndRefused;
use crate::submitter::Submitter;
use http_server::Log;
use std::alloc::Allocator;
use std::marker::Model;

/// A log that grows from its lanes and is stored elsewhere. Memory has the entries that were taken and aren't drained
/// yet.
#[derive(Drop)]
pub struct Intake<E: Allocator, A: Allocator> {
    waiting: Vec<Vec<u8, E>, A>,
    // The number of entries that were taken in all.
    len: u64,
    limit: u64,
    lanes: Vec<Lane<E, A>, A>,
    // Each entry that was taken, with its lane. It takes no memory: only contracts see it.
    history: Log<Vec<u8, E>, u32>,
}

impl<E: Allocator, A: Allocator> Model for Intake<E, A> {
    ghost use Rattle.tl_sequencer.specs.Intake as seen;
    ghost use Rattle.tl_sequencer.specs.Inner.Held.{intake_of, IsHeld};

    ghost Value = { seen.Intake A };

    ghost view = { λ i. intake_of i.history.items i.waiting.items i.limit i.lanes.items };

    ghost invariant = { λ i. IsHeld i.history.items i.waiting.items i.len i.limit i.lanes.items };
}

impl<E: Allocator, A: Allocator> Intake<E, A> {
    /// Opens an intake for a log that is stored elsewhere, has `before` entries already and may have `limit` in all.
    /// The bounds are those of `open`: 1 to 64 lanes, rings of 1 to 65,536 entries, a limit of 1 to 4,294,967,295. It
    /// returns one submitter for each lane, in the order of the lanes.
    pub fn open(
        alloc: A,
        before: u64,
        lanes: u32,
        capacity: usize,
        limit: u64,
    ) -> Result<(Intake<E, A>, Vec<Submitter<E, A>, A>), OpenFault>
    where
        A: Copy,
        requires fits { before ≤ limit }
        ensures opened { IfOk result
            (λ r. IsOpened [] lanes capacity (limit - before) r.0.log r.1.items) }
        ensures drained { IfOk result (λ r. r.0.drained ≡ []) }
        ensures waits { IfOk result (λ r. r.0.waiting ≡ []) }
        ensures bounds { IfOk result (λ _. MayOpen lanes capacity limit) }
        ensures refused { IfErr result (λ why. OpenRefuses lanes capacity limit why) }
    {
        if let Some(why) = fault_of(lanes, capacity, limit) {
            return Err(why);
        }
        let left = limit - before;
        let Ok((lanes, submitters)) = new_lanes(alloc, lanes, capacity, left) else {
            return Err(OpenFault::OutOfMemory);
        };
        Ok((Intake::new(alloc, left, lanes), submitters))
    }

    fn new(alloc: A, limit: u64, lanes: Vec<Lane<E, A>, A>) -> Intake<E, A>
    where
        A: Copy,
        requires few { vec_len lanes ≤ 64 }
        requires lanes { All (λ l. (l.given ≡ []) × (l.sent ≡ None)) lanes.items }
        ensures { result ≡ record {
          log = record { base = []; taken = []; who = []; limit = limit; lanes = lanes.items };
          drained = [];
          waiting = [];
        } }
    {
        Intake {
            waiting: Vec::new(alloc),
            len: 0,
            limit,
            lanes,
            history: Log::new(),
        }
    }

    /// Returns the number of entries that were taken in all.
    pub fn len(&self) -> u64
        ensures len { result ≡ length (entries_of self.now.log) }
        ensures kept { IsLog self.now.log }
        ensures base { self.now.log.base ≡ [] }
        ensures parts { self.now.log.taken ≡ self.now.drained ++ self.now.waiting }
    {
        self.len
    }

    /// Takes up to `max` entries of a lane, in order, behind those that wait. Returns how many, which is 0 if the
    /// lane has ended. If it fails, nothing is taken. It doesn't wait.
    pub fn take(&mut self, lane: u32, max: u64) -> Result<u64, TakeFault>
        ensures rings { rings_of self.new.log ≡ rings_of self.old.log }
        ensures most { IfOk result (λ n. n ≤ max) }
        ensures may { IfOk result (λ _. MayTake self.old.log lane max) }
        ensures taken { IfOk result (λ n. Takes lane n self.old.log self.new.log) }
        ensures drained { self.new.drained ≡ self.old.drained }
        ensures same { IfErr result (λ _. self.new ≡ self.old) }
        ensures why { IfErr result (λ why. TakeRefuses self.old.log lane max why) }
    {
        if lane as usize >= self.lanes.len() {
            return Err(TakeFault::NoLane);
        }
        let room = self.limit - self.len;
        if room == 0 && max > 0 {
            return Err(TakeFault::LogFull);
        }
        let from = &mut self.lanes[lane as usize];
        let most = max.min(room);
        let Ok(n) = from.take_noted(lane, most, &mut self.waiting, &mut self.history) else {
            return Err(TakeFault::OutOfMemory);
        };
        self.len += n;
        Ok(n)
    }

    /// Takes all that is left of the lane of an end, which must be of a submitter of this log, and returns how many
    /// entries that is. The lane has then ended. If it fails, nothing is taken, and the fault returns the end as it
    /// was: with `LogFull` if the rest doesn't fit, or with `OutOfMemory`. It doesn't wait.
    pub fn end(&mut self, mut ended: Ended<E, A>) -> Result<u64, EndRefused<E, A>>
        requires { IsEndOf ended self.old.log }
        ensures rings { rings_of self.new.log ≡ rings_of self.old.log }
        ensures may { IfOk result (λ _. RestFits self.old.log ended) }
        ensures taken { IfOk result (λ n. Closes ended n self.old.log self.new.log) }
        ensures drained { self.new.drained ≡ self.old.drained }
        ensures same { IfErr result (λ _. self.new ≡ self.old) }
        ensures back { IfErr result (λ refused. refused.ended ≡ ended) }
        ensures why { IfErr result (λ refused. EndRefuses self.old.log ended refused.why) }
    {
        let lane = ended.lane();
        let room = self.limit - self.len;
        let ending = &mut self.lanes[lane as usize];
        let waiting = &mut self.waiting;
        match ending.end_noted(&mut ended, lane, room, waiting, &mut self.history) {
            Ok(n) => {
                self.len += n;
                Ok(n)
            }
            Err(why) => Err(EndRefused { ended, why }),
        }
    }

    /// Returns the entries that were taken and aren't stored elsewhere yet, in order. None has more than 65,535
    /// bytes.
    pub fn waiting(&self) -> &[Vec<u8, E>]
        ensures waiting { map vec_items result.now ≡ self.now.waiting }
        ensures short { All IsShort self.now.waiting }
        ensures parts { self.now.log.taken ≡ self.now.drained ++ self.now.waiting }
    {
        &self.waiting
    }

    /// Drops the entries that wait, which the caller has stored elsewhere.
    pub fn drain(&mut self)
        ensures log { self.new.log ≡ self.old.log }
        ensures drained { self.new.drained ≡ self.old.log.taken }
        ensures waiting { self.new.waiting ≡ [] }
    {
        self.waiting.clear();
    }

    /// Returns the number of entries that were taken in all, if the end of each lane was taken in: they are then a
    /// merge of what was sent. Otherwise fails with the lowest lane that hasn't ended.
    pub fn completed(&self) -> Result<u64, u32>
        ensures complete { IfOk result
            (λ n. IsComplete self.now.log × (n ≡ length (entries_of self.now.log))) }
        ensures merge { IfOk result
            (λ _. IsMerge (entries_of self.now.log) self.now.log.base (sent_of self.now.log)) }
        ensures lane { IfErr result (λ lane. IsFirstOpen self.now.log lane) }
        ensures base { self.now.log.base ≡ [] }
        ensures parts { self.now.log.taken ≡ self.now.drained ++ self.now.waiting }
    {
        match first_open(&self.lanes) {
            Some(lane) => Err(lane),
            None => Ok(self.len),
        }
    }
}
