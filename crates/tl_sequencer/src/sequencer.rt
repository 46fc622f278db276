//! A log that grows from its lanes.
ghost use Rattle.std.specs.Prelude.{◌≡◌, ◌≤◌, ◌<◌, ◌==◌, [], vec_len, map, vec_items, length, replicate, count_by, slice_get, option_map, None, IsSome, MatchOption, IfOk, IfErr, IfSome};
ghost use Rattle.std.specs.List.{All};
ghost use Rattle.tl_sequencer.specs.Log.{IsShort, IsEndOf, entries_of, rings_of};
ghost use Rattle.tl_sequencer.specs.Merge.{IsMerge, of_lane};
ghost use Rattle.tl_sequencer.specs.Steps.{IsLog, Takes, Closes, IsComplete, IsFirstOpen, sent_of};
ghost use Rattle.tl_sequencer.specs.Reads.{IsPlaceOf, who_at};
ghost use Rattle.tl_sequencer.specs.Faults.{MayTake, TakeRefuses, RestFits, EndRefuses};

use crate::complete::{Complete, Incomplete};
use crate::ended::Ended;
use crate::fault::TakeFault;
use crate::lane::{Lane, first_open};
use std::alloc::Allocator;
use std::marker::Model;

/// A log, and the lanes from which it grows. Its entries have indexes from 0.
#[derive(Drop)]
pub struct Sequencer<E: Allocator, A: Allocator> {
    base: Vec<Vec<u8, E>, A>,
    taken: Vec<Vec<u8, E>, A>,
    who: Vec<u32, A>,
    // For each lane, the places of its entries in `taken`.
    places: Vec<Vec<u64, A>, A>,
    limit: u64,
    lanes: Vec<Lane<E, A>, A>,
}

impl<E: Allocator, A: Allocator> Model for Sequencer<E, A> {
    ghost use Rattle.tl_sequencer.specs.Log.{Log};
    ghost use Rattle.tl_sequencer.specs.Rings.{log_of};
    ghost use Rattle.tl_sequencer.specs.Places.{IsKept};

    ghost Value = { Log A };

    ghost view = { λ s. log_of s.base.items s.taken.items s.who.items s.limit s.lanes.items };

    ghost invariant = { λ s.
        IsKept s.base.items s.taken.items s.who.items s.places.items s.limit s.lanes.items };
}

/// An end that wasn't taken in, and why.
#[derive(Drop)]
pub struct EndRefused<E: Allocator, A: Allocator> {
    /// The end, as it was passed.
    pub ended: Ended<E, A>,
    /// The first reason that applies.
    pub why: TakeFault,
}

impl<E: Allocator, A: Allocator> Sequencer<E, A> {
    pub(crate) fn new(
        alloc: A,
        base: Vec<Vec<u8, E>, A>,
        limit: u64,
        lanes: Vec<Lane<E, A>, A>,
        places: Vec<Vec<u64, A>, A>,
    ) -> Sequencer<E, A>
    where
        A: Copy,
        requires few { vec_len lanes ≤ 64 }
        requires fits { vec_len base ≤ limit }
        requires short { All IsShort (map vec_items base.items) }
        requires lanes { All (λ l. (l.given ≡ []) × (l.sent ≡ None)) lanes.items }
        requires places { map vec_items places.items ≡ replicate (vec_len lanes) [] }
        ensures { result ≡ record {
          base = map vec_items base.items;
          taken = [];
          who = [];
          limit = limit;
          lanes = lanes.items;
        } }
    {
        Sequencer {
            base,
            taken: Vec::new(alloc),
            who: Vec::new(alloc),
            places,
            limit,
            lanes,
        }
    }

    /// Returns the number of entries.
    pub fn len(&self) -> u64
        ensures len { result ≡ length (entries_of self.now) }
        ensures kept { IsLog self.now }
    {
        self.base.len() as u64 + self.taken.len() as u64
    }

    /// Takes up to `max` entries of a lane, in order, and appends them to the log. Returns how many, which is 0 if
    /// the lane has ended. If it fails, nothing is taken. It doesn't wait.
    pub fn take(&mut self, lane: u32, max: u64) -> Result<u64, TakeFault>
        ensures rings { rings_of self.new ≡ rings_of self.old }
        ensures most { IfOk result (λ n. n ≤ max) }
        ensures may { IfOk result (λ _. MayTake self.old lane max) }
        ensures taken { IfOk result (λ n. Takes lane n self.old self.new) }
        ensures same { IfErr result (λ _. self.new ≡ self.old) }
        ensures why { IfErr result (λ why. TakeRefuses self.old lane max why) }
    {
        let count = self.lanes.len();
        if lane as usize >= count {
            return Err(TakeFault::NoLane);
        }
        let room = self.limit - (self.base.len() as u64 + self.taken.len() as u64);
        if room == 0 && max > 0 {
            return Err(TakeFault::LogFull);
        }
        let from = &mut self.lanes[lane as usize];
        let places = &mut self.places[lane as usize];
        match from.take(lane, max.min(room), &mut self.taken, &mut self.who, places) {
            Ok(n) => Ok(n),
            Err(_) => Err(TakeFault::OutOfMemory),
        }
    }

    /// Takes all that is left of the lane of an end, which must be of a submitter of this log, and returns how many
    /// entries that is. The lane has then ended. If it fails, nothing is taken, and the fault returns the end as it
    /// was: with `LogFull` if the rest doesn't fit, or with `OutOfMemory`. It doesn't wait.
    pub fn end(&mut self, mut ended: Ended<E, A>) -> Result<u64, EndRefused<E, A>>
        requires { IsEndOf ended self.old }
        ensures rings { rings_of self.new ≡ rings_of self.old }
        ensures may { IfOk result (λ _. RestFits self.old ended) }
        ensures taken { IfOk result (λ n. Closes ended n self.old self.new) }
        ensures same { IfErr result (λ _. self.new ≡ self.old) }
        ensures back { IfErr result (λ refused. refused.ended ≡ ended) }
        ensures why { IfErr result (λ refused. EndRefuses self.old ended refused.why) }
    {
        let lane = ended.lane();
        let room = self.limit - (self.base.len() as u64 + self.taken.len() as u64);
        let ending = &mut self.lanes[lane as usize];
        let places = &mut self.places[lane as usize];
        match ending.end(
            &mut ended,
            lane,
            room,
            &mut self.taken,
            &mut self.who,
            places,
        ) {
            Ok(n) => Ok(n),
            Err(why) => Err(EndRefused { ended, why }),
        }
    }

    /// Returns the entry at this index.
    pub fn entry(&self, place: u64) -> Option<&[u8]>
        ensures { option_map (λ e. e.now) result ≡ slice_get (entries_of self.now) place }
    {
        let place = place as usize;
        let base = self.base.len();
        let entry = if place < base {
            self.base.get(place)?
        } else {
            self.taken.get(place - base)?
        };
        Some(entry.as_slice())
    }

    /// Returns the lane of the entry at this index, or `None` for an entry that the log began with, and past the end.
    pub fn who(&self, place: u64) -> Option<u32>
        ensures { result ≡ who_at self.now place }
    {
        let place = place as usize;
        let base = self.base.len();
        if place < base {
            return None;
        }
        self.who.get(place - base).copied()
    }

    /// Returns the index of a lane's entry with this number, as its submitter counts, from 0. Returns `None` if that
    /// entry isn't taken yet.
    pub fn place_of(&self, lane: u32, number: u64) -> Option<u64>
        ensures place { MatchOption result
            (count_by (λ w. w == lane) self.now.who ≤ number) (IsPlaceOf self.now lane number) }
        ensures entry { IfSome result (λ place. slice_get (entries_of self.now) place
            ≡ slice_get (of_lane lane self.now.who self.now.taken) number) }
    {
        let Some(places) = self.places.get(lane as usize) else {
            return None;
        };
        let Some(place) = places.get(number as usize) else {
            return None;
        };
        Some(self.base.len() as u64 + *place)
    }

    // Returns the lowest lane that hasn't ended.
    fn open_lane(&self) -> Option<u32>
        ensures first { MatchOption result
            (All (λ l. IsSome l.sent) self.now.lanes) (IsFirstOpen self.now) }
        ensures kept { IsLog self.now }
    {
        first_open(&self.lanes)
    }

    /// Closes the log. If the end of each lane was taken in, the log is complete: it has the entries that it began
    /// with, and after them a merge of what was sent. Otherwise the fault returns the log, with the lowest lane that
    /// hasn't ended.
    pub fn close(self) -> Result<Complete<E, A>, Incomplete<E, A>>
        ensures complete { IfOk result (λ c. (c ≡ self) × IsComplete c) }
        ensures merge { IfOk result (λ c. IsMerge (entries_of c) c.base (sent_of c)) }
        ensures back { IfErr result (λ r. r.sequencer ≡ self) }
        ensures lane { IfErr result (λ r. IsFirstOpen self r.lane) }
    {
        match self.open_lane() {
            Some(lane) => Err(Incomplete {
                sequencer: self,
                lane,
            }),
            None => Ok(Complete::new(self)),
        }
    }
}
