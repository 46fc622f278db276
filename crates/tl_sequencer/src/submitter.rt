//! The submitter's end of a lane.
ghost use Rattle.std.specs.Prelude.{◌≡◌, ◌+◌, ◌≤◌, ◌<◌, ◌++◌, [], ◌∷◌, vec_len, length, IfOk, IfErr, IfSome};
ghost use Rattle.rtrb.specs.Ring.{sent, known_free};
ghost use Rattle.tl_sequencer.specs.Rings.{ring_of};
ghost use Rattle.tl_sequencer.specs.Faults.{SubmitRefuses};

use crate::ended::Ended;
use crate::fault::Why;
use crate::lane::{LONGEST, ShortEntries};
use rtrb::{Producer, PushError};
use std::alloc::Allocator;
use std::marker::Model;

/// Submits entries to one lane of a log. It can be moved to a thread of its own.
#[derive(Drop)]
pub struct Submitter<E: Allocator, A: Allocator> {
    entries: Producer<Vec<u8, E>, A, ShortEntries>,
    lane: u32,
    given: u64,
    limit: u64,
}

impl<E: Allocator, A: Allocator> Model for Submitter<E, A> {
    ghost use Rattle.std.specs.Prelude.{◌≡◌, ◌≤◌, length, map, vec_items};
    ghost use Rattle.rtrb.specs.Ring.{sent, known_free};
    ghost use Rattle.tl_sequencer.specs.Log.{Sender};
    ghost use Rattle.tl_sequencer.specs.Rings.{ring_of};

    ghost Value = { Sender A };

    ghost view = { λ s. record {
      ring = ring_of s.entries.end;
      lane = s.lane;
      sent = map vec_items (sent s.entries);
      limit = s.limit;
      room = known_free s.entries;
    } };

    ghost invariant = { λ s. s.given ≡ length (sent s.entries) };
}

/// An entry that wasn't sent, and why.
#[derive(Drop)]
pub struct Refused<E: Allocator> {
    /// The entry, as it was passed.
    pub entry: Vec<u8, E>,
    /// The first reason that applies.
    pub why: Why,
}

impl<E: Allocator, A: Allocator> Submitter<E, A> {
    pub(crate) fn new(
        entries: Producer<Vec<u8, E>, A, ShortEntries>,
        lane: u32,
        limit: u64,
    ) -> Submitter<E, A>
        requires { sent entries ≡ [] }
        ensures { result ≡ record {
          ring = ring_of entries.end;
          lane = lane;
          sent = [];
          limit = limit;
          room = known_free entries;
        } }
    {
        Submitter {
            entries,
            lane,
            given: 0,
            limit,
        }
    }

    /// Sends an entry of at most 65,535 bytes, and returns its number in this submitter, from 0. If it fails, nothing
    /// is sent, and the fault returns the entry as it was. It allocates nothing and doesn't wait.
    pub fn submit(&mut self, entry: Vec<u8, E>) -> Result<u64, Refused<E>>
        ensures lane { (self.new.ring ≡ self.old.ring)
            × (self.new.lane ≡ self.old.lane) × (self.new.limit ≡ self.old.limit) }
        ensures number { IfOk result (λ n. (n ≡ length self.old.sent) × (n < self.old.limit)) }
        ensures short { IfOk result (λ _. length entry.items ≤ 65535) }
        ensures sent { IfOk result (λ _. self.new.sent ≡ self.old.sent ++ entry.items ∷ []) }
        ensures room { IfOk result (λ _. self.old.room ≤ self.new.room + 1) }
        ensures same { IfErr result (λ _. self.new ≡ self.old) }
        ensures back { IfErr result (λ refused. refused.entry ≡ entry) }
        ensures why { IfErr result (λ refused. SubmitRefuses self.old entry.items refused.why) }
    {
        if entry.len() > LONGEST {
            let why = Why::TooLong;
            return Err(Refused { entry, why });
        }
        if self.given >= self.limit {
            let why = Why::NumbersUsed;
            return Err(Refused { entry, why });
        }
        if let Err(PushError::Full(entry)) = self.entries.push(entry) {
            let why = Why::Full;
            return Err(Refused { entry, why });
        }
        let number = self.given;
        self.given += 1;
        Ok(number)
    }

    /// Ends the lane: nothing more can be sent. Returns `None` if the sequencer was dropped; the lane can't be ended
    /// then. It allocates nothing and doesn't wait.
    pub fn close(self) -> Option<Ended<E, A>>
        ensures lane { IfSome result (λ end. (end.ring ≡ self.ring) × (end.lane ≡ self.lane)) }
        ensures sent { IfSome result (λ end. end.sent ≡ self.sent) }
    {
        let Submitter { entries, lane, .. } = self;
        let Some(entries) = entries.finish() else {
            return None;
        };
        Some(Ended::new(entries, lane))
    }

    /// Returns the lane's number.
    pub fn lane(&self) -> u32
        ensures { result ≡ self.now.lane }
    {
        self.lane
    }
}
