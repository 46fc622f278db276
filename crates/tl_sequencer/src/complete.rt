//! A log that was closed, or not.
ghost use Rattle.std.specs.Prelude.{◌≡◌, ◌≤◌, ◌==◌, length, count_by, slice_get, option_map, IfSome, MatchOption};
ghost use Rattle.tl_sequencer.specs.Log.{entries_of};
ghost use Rattle.tl_sequencer.specs.Merge.{of_lane};
ghost use Rattle.tl_sequencer.specs.Steps.{IsComplete};
ghost use Rattle.tl_sequencer.specs.Reads.{IsPlaceOf, who_at};

use crate::sequencer::Sequencer;
use std::alloc::Allocator;
use std::marker::Model;

/// A closed log: each submitter's entries once, in the order in which they were sent.
#[derive(Drop)]
pub struct Complete<E: Allocator, A: Allocator> {
    log: Sequencer<E, A>,
}

impl<E: Allocator, A: Allocator> Model for Complete<E, A> {
    ghost use Rattle.tl_sequencer.specs.Log.{Log};
    ghost use Rattle.tl_sequencer.specs.Merge.{of_lane};
    ghost use Rattle.tl_sequencer.specs.Steps.{IsComplete};

    ghost Value = { Log A };

    ghost view = { λ c. c.log };

    ghost invariant = { λ c. IsComplete c.log };
}

/// A log that couldn't be closed.
#[derive(Drop)]
pub struct Incomplete<E: Allocator, A: Allocator> {
    /// The log, as it was.
    pub sequencer: Sequencer<E, A>,
    /// The lowest lane that hasn't ended.
    pub lane: u32,
}

impl<E: Allocator, A: Allocator> Complete<E, A> {
    pub(crate) fn new(log: Sequencer<E, A>) -> Complete<E, A>
        requires { IsComplete log }
        ensures { result ≡ log }
    {
        Complete { log }
    }

    /// Returns the number of entries.
    pub fn len(&self) -> u64
        ensures { result ≡ length (entries_of self.now) }
    {
        self.log.len()
    }

    /// Returns the entry at this index.
    pub fn entry(&self, place: u64) -> Option<&[u8]>
        ensures { option_map (λ e. e.now) result ≡ slice_get (entries_of self.now) place }
    {
        self.log.entry(place)
    }

    /// Returns the lane of the entry at this index, or `None` for an entry that the log began with, and past the end.
    pub fn who(&self, place: u64) -> Option<u32>
        ensures { result ≡ who_at self.now place }
    {
        self.log.who(place)
    }

    /// Returns the index of a lane's entry with this number, as its submitter counts, from 0. Returns `None` if no
    /// such entry was sent.
    pub fn place_of(&self, lane: u32, number: u64) -> Option<u64>
        ensures place { MatchOption result
            (count_by (λ w. w == lane) self.now.who ≤ number) (IsPlaceOf self.now lane number) }
        ensures entry { IfSome result (λ place. slice_get (entries_of self.now) place
            ≡ slice_get (of_lane lane self.now.who self.now.taken) number) }
    {
        self.log.place_of(lane, number)
    }
}
