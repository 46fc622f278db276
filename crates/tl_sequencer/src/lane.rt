//! The sequencer's end of a lane.
ghost use Rattle.std.specs.Prelude.{◌≡◌, ◌+◌, ◌≤◌, ◌<◌, ◌++◌, ◌↔◌, [], length, vec_len, vec_capacity, None, IsTrue, IsSome, MatchOption, IfOk, IfErr, OnErr};
ghost use Rattle.std.specs.List.{All, range_with_len};
ghost use Rattle.rtrb.specs.Ring.{known_items, received};
ghost use Rattle.tl_sequencer.specs.Rings.{ring_of, Pours};
ghost use Rattle.tl_sequencer.specs.Inner.Lanes.{Gives, Ends, LaneRefuses, IsFirstOpenOf};
ghost use Rattle.tl_sequencer.specs.Inner.Held.{taken_of, who_of, SameDrained};

use crate::ended::Ended;
use crate::fault::TakeFault;
use http_server::Log;
use rtrb::{Consumer, Protocol};
use std::alloc::{AllocError, Allocator};
use std::marker::Model;

// The longest entry, in bytes.
pub(crate) const LONGEST: usize = 65_535;

// The rule of each ring: no entry is too long.
#[derive(Clone, Copy)]
pub(crate) struct ShortEntries;

impl<E: Allocator> Protocol<Vec<u8, E>> for ShortEntries {
    ghost allows = { λ before x. length x.items ≤ 65535 };
}

#[derive(Drop)]
pub(crate) struct Lane<E: Allocator, A: Allocator> {
    entries: Consumer<Vec<u8, E>, A, ShortEntries>,
    ended: bool,
}

impl<E: Allocator, A: Allocator> Model for Lane<E, A> {
    ghost use Rattle.std.specs.Prelude.{Some, None, map, vec_items, if◌then◌else◌};
    ghost use Rattle.rtrb.specs.Ring.{received};
    ghost use Rattle.tl_sequencer.specs.Log as log;
    ghost use Rattle.tl_sequencer.specs.Rings.{ring_of};

    ghost Value = { log.Lane A };

    ghost view = { λ l.
        record {
          ring = ring_of l.entries.end;
          given = map vec_items (received l.entries);
          sent = if l.ended then Some (map vec_items (received l.entries)) else None;
        } };
}

// Pops this many entries, appends them to a log, and keeps their places.
fn pour<E: Allocator, A: Allocator>(
    ring: &mut Consumer<Vec<u8, E>, A, ShortEntries>,
    count: usize,
    lane: u32,
    entries: &mut Vec<Vec<u8, E>, A>,
    who: &mut Vec<u32, A>,
    places: &mut Vec<u64, A>,
)
    requires known { count ≤ length (known_items ring.old) }
    requires entries { vec_len entries.old + count ≤ vec_capacity entries.old }
    requires who { vec_len who.old + count ≤ vec_capacity who.old }
    requires places { vec_len places.old + count ≤ vec_capacity places.old }
    ensures poured { Pours count
        lane ring.old ring.new entries.old.items entries.new.items who.old.items who.new.items }
    ensures placed { places.new.items
        ≡ places.old.items ++ range_with_len (length entries.old.items) count }
{
    for _ in 0..count {
        places.push_reserved(entries.len() as u64);
        entries.push_reserved(ring.pop_known());
        who.push_reserved(lane);
    }
}

// Pops this many entries, appends them to those that wait, and adds each to a history.
fn pour_noted<E: Allocator, A: Allocator>(
    ring: &mut Consumer<Vec<u8, E>, A, ShortEntries>,
    count: usize,
    lane: u32,
    waiting: &mut Vec<Vec<u8, E>, A>,
    history: &mut Log<Vec<u8, E>, u32>,
)
    requires known { count ≤ length (known_items ring.old) }
    requires room { vec_len waiting.old + count ≤ vec_capacity waiting.old }
    ensures poured { Pours count lane ring.old ring.new
        (taken_of history.old.items) (taken_of history.new.items)
        (who_of history.old.items) (who_of history.new.items) }
    ensures drained { SameDrained (taken_of history.old.items) (taken_of history.new.items)
        waiting.old.items waiting.new.items }
{
    for _ in 0..count {
        let entry = ring.pop_known();
        *history = history.and(&entry, &lane);
        waiting.push_reserved(entry);
    }
}

// Returns the lowest lane that hasn't ended.
pub(crate) fn first_open<E: Allocator, A: Allocator>(lanes: &[Lane<E, A>]) -> Option<u32>
    requires { length lanes.now ≤ 64 }
    ensures { MatchOption result
        (All (λ l. IsSome l.sent) lanes.now) (IsFirstOpenOf lanes.now) }
{
    for lane in 0..lanes.len() {
        if !lanes[lane].has_ended() {
            return Some(lane as u32);
        }
    }
    None
}

impl<E: Allocator, A: Allocator> Lane<E, A> {
    pub(crate) fn new(entries: Consumer<Vec<u8, E>, A, ShortEntries>) -> Lane<E, A>
        requires { received entries ≡ [] }
        ensures { result ≡ record { ring = ring_of entries.end; given = []; sent = None } }
    {
        Lane {
            entries,
            ended: false,
        }
    }

    pub(crate) fn has_ended(&self) -> bool
        ensures { IsTrue result ↔ IsSome self.now.sent }
    {
        self.ended
    }

    // Appends up to `most` entries to a log, or none if the lane has ended.
    pub(crate) fn take(
        &mut self,
        lane: u32,
        most: u64,
        entries: &mut Vec<Vec<u8, E>, A>,
        who: &mut Vec<u32, A>,
        places: &mut Vec<u64, A>,
    ) -> Result<u64, AllocError>
        ensures ring { self.new.ring ≡ self.old.ring }
        ensures most { IfOk result (λ n. n ≤ most) }
        ensures taken { IfOk result (λ n. Gives n lane
            self.old self.new entries.old.items entries.new.items who.old.items who.new.items) }
        ensures placed { IfOk result (λ n.
            places.new.items ≡ places.old.items ++ range_with_len (length entries.old.items) n) }
        ensures some { OnErr result ((0 < most) × (self.old.sent ≡ None)) }
        ensures err { OnErr result ((self.new ≡ self.old)
            × (entries.new.items ≡ entries.old.items) × (who.new.items ≡ who.old.items)) }
        ensures kept { OnErr result (places.new.items ≡ places.old.items) }
    {
        if self.ended {
            return Ok(0);
        }
        let waiting = self.entries.slots() as u64;
        let count = waiting.min(most);
        entries.reserve(count as usize)?;
        who.reserve(count as usize)?;
        places.reserve(count as usize)?;
        pour(
            &mut self.entries,
            count as usize,
            lane,
            entries,
            who,
            places,
        );
        Ok(count)
    }

    // Appends all that is left of what was sent, if there is room for it.
    pub(crate) fn end(
        &mut self,
        ended: &mut Ended<E, A>,
        lane: u32,
        room: u64,
        entries: &mut Vec<Vec<u8, E>, A>,
        who: &mut Vec<u32, A>,
        places: &mut Vec<u64, A>,
    ) -> Result<u64, TakeFault>
        requires { self.old.ring ≡ ended.old.ring }
        ensures ring { self.new.ring ≡ self.old.ring }
        ensures same { ended.new ≡ ended.old }
        ensures room { IfOk result (λ n. n ≤ room) }
        ensures taken { IfOk result (λ n. Ends ended.old n lane
            self.old self.new entries.old.items entries.new.items who.old.items who.new.items) }
        ensures placed { IfOk result (λ n.
            places.new.items ≡ places.old.items ++ range_with_len (length entries.old.items) n) }
        ensures err { IfErr result (λ _. (self.new ≡ self.old)
            × (entries.new.items ≡ entries.old.items) × (who.new.items ≡ who.old.items)) }
        ensures kept { IfErr result (λ _. places.new.items ≡ places.old.items) }
        ensures why { IfErr result (λ why. LaneRefuses room self.old.given ended.old.sent why) }
    {
        let count = self.entries.slots_after(&mut ended.entries);
        if count as u64 > room {
            return Err(TakeFault::LogFull);
        }
        if entries.reserve(count).is_err()
            || who.reserve(count).is_err()
            || places.reserve(count).is_err()
        {
            return Err(TakeFault::OutOfMemory);
        }
        pour(&mut self.entries, count, lane, entries, who, places);
        self.ended = true;
        Ok(count as u64)
    }

    // Takes as `take` does, appends to what waits, and adds each entry to a history.
    pub(crate) fn take_noted(
        &mut self,
        lane: u32,
        most: u64,
        waiting: &mut Vec<Vec<u8, E>, A>,
        history: &mut Log<Vec<u8, E>, u32>,
    ) -> Result<u64, AllocError>
        ensures ring { self.new.ring ≡ self.old.ring }
        ensures most { IfOk result (λ n. n ≤ most) }
        ensures taken { IfOk result (λ n. Gives n lane self.old self.new
            (taken_of history.old.items) (taken_of history.new.items)
            (who_of history.old.items) (who_of history.new.items)) }
        ensures drained { SameDrained (taken_of history.old.items) (taken_of history.new.items)
            waiting.old.items waiting.new.items }
        ensures some { OnErr result ((0 < most) × (self.old.sent ≡ None)) }
        ensures err { OnErr result ((self.new ≡ self.old)
            × (history.new.items ≡ history.old.items) × (waiting.new.items ≡ waiting.old.items)) }
    {
        if self.ended {
            return Ok(0);
        }
        let ready = self.entries.slots() as u64;
        let count = ready.min(most) as usize;
        waiting.reserve(count)?;
        pour_noted(&mut self.entries, count, lane, waiting, history);
        Ok(count as u64)
    }

    // Ends as `end` does, appends to what waits, and adds each entry to a history.
    pub(crate) fn end_noted(
        &mut self,
        ended: &mut Ended<E, A>,
        lane: u32,
        room: u64,
        waiting: &mut Vec<Vec<u8, E>, A>,
        history: &mut Log<Vec<u8, E>, u32>,
    ) -> Result<u64, TakeFault>
        requires { self.old.ring ≡ ended.old.ring }
        ensures ring { self.new.ring ≡ self.old.ring }
        ensures same { ended.new ≡ ended.old }
        ensures room { IfOk result (λ n. n ≤ room) }
        ensures taken { IfOk result (λ n. Ends ended.old n lane self.old self.new
            (taken_of history.old.items) (taken_of history.new.items)
            (who_of history.old.items) (who_of history.new.items)) }
        ensures drained { SameDrained (taken_of history.old.items) (taken_of history.new.items)
            waiting.old.items waiting.new.items }
        ensures err { IfErr result (λ _. (self.new ≡ self.old)
            × (history.new.items ≡ history.old.items) × (waiting.new.items ≡ waiting.old.items)) }
        ensures why { IfErr result (λ why. LaneRefuses room self.old.given ended.old.sent why) }
    {
        let count = self.entries.slots_after(&mut ended.entries);
        if count as u64 > room {
            return Err(TakeFault::LogFull);
        }
        if waiting.reserve(count).is_err() {
            return Err(TakeFault::OutOfMemory);
        }
        pour_noted(&mut self.entries, count, lane, waiting, history);
        self.ended = true;
        Ok(count as u64)
    }
}
