//! The state of a ballot, without its lock.

ghost use Rattle.std.specs.Prelude.{◌≡◌, ◌++◌, ◌∷◌, ◌<◌, ◌≤◌, ◌↔◌, [], false, None, Some, true, All, IfOk, IfSome, IsTrue, MatchOption, OnErr, length, option_map, slice_get, string_bytes};
ghost use Rattle.std.specs.Arc.{arc_value};
ghost use Rattle.tl_feed.specs.Inner.Tallying.{IsFor, IsOpen, Puts, Tells, given, joined, number_after};

use crate::unasked::Unasked;
use arrayvec::ArrayVec;
use std::alloc::{AllocError, Global};
use std::sync::Arc;

// The most faults that are kept until they are reported.
const MOST_UNASKED: usize = 64;

/// A round of a ballot: a note that is proposed, and its number.
#[derive(Drop)]
pub(crate) struct Round {
    /// Its number: one more than that of the round before.
    pub(crate) number: u64,
    /// The signed note.
    pub(crate) note: Arc<String>,
}

/// An event of a ballot, for the thread that proposes.
#[derive(Drop)]
pub enum BallotEvent {
    /// As many witnesses as needed gave a line in the open round: all lines so far, one after another.
    Enough(String),
    /// The witness at this place gave no line, for this reason.
    Unasked(usize, Unasked),
    /// The ballot has ended.
    Ended,
}

/// A witness that gave no line, and why.
#[derive(Clone, Copy)]
pub(crate) struct NoLine {
    pub(crate) place: usize,
    pub(crate) why: Unasked,
}

impl Default for NoLine {
    // Returns a value for unused places.
    fn default() -> NoLine {
        NoLine {
            place: 0,
            why: Unasked::Restless,
        }
    }
}

/// The lines that witnesses gave in the open round, and why others gave none.
#[derive(Drop)]
pub(crate) struct Tally {
    // The open round. It stays open until its lines are reported.
    round: Option<Round>,
    // The number of the round that was opened last, 0 before the first.
    opened: u64,
    // The line of each witness, if it gave one in the open round.
    lines: Vec<Option<String>>,
    // The faults that aren't reported yet, in order.
    unasked: ArrayVec<NoLine, MOST_UNASKED>,
    has_ended: bool,
}

impl Tally {
    /// Creates the state for this many witnesses, before the first round. It fails only when allocation fails.
    pub(crate) fn new(alloc: Global, witnesses: usize) -> Result<Tally, AllocError>
        ensures count { IfOk result (λ tally. length tally.lines.items ≡ witnesses) }
        ensures none { IfOk result (λ tally. All (λ line. line ≡ None) tally.lines.items) }
        ensures round { IfOk result (λ tally. tally.round ≡ None) }
        ensures opened { IfOk result (λ tally. tally.opened ≡ 0) }
        ensures unasked { IfOk result (λ tally. tally.unasked.items ≡ []) }
        ensures ended { IfOk result (λ tally. tally.has_ended ≡ false) }
    {
        let mut lines = Vec::new(alloc);
        for _ in 0..witnesses {
            lines.push(None)?;
        }
        Ok(Tally {
            round: None,
            opened: 0,
            lines,
            unasked: ArrayVec::new(),
            has_ended: false,
        })
    }

    // Returns the number of the next round.
    fn next_number(&self) -> u64
        ensures { result ≡ number_after self.now.opened }
    {
        self.opened.wrapping_add(1)
    }

    // Forgets the lines of all witnesses.
    fn forget_lines(&mut self)
        ensures none { All (λ line. line ≡ None) self.new.lines.items }
        ensures count { length self.new.lines.items ≡ length self.old.lines.items }
        ensures round { self.new.round ≡ self.old.round }
        ensures opened { self.new.opened ≡ self.old.opened }
        ensures unasked { self.new.unasked ≡ self.old.unasked }
        ensures ended { self.new.has_ended ≡ self.old.has_ended }
    {
        for line in self.lines.iter_mut() {
            *line = None;
        }
    }

    /// Opens the next round, without any lines, and returns its number.
    pub(crate) fn open(&mut self, note: Arc<String>) -> u64
        ensures open { self.new.round ≡ Some (record { number = result; note = note }) }
        ensures number { result ≡ number_after self.old.opened }
        ensures opened { self.new.opened ≡ result }
        ensures none { All (λ line. line ≡ None) self.new.lines.items }
        ensures count { length self.new.lines.items ≡ length self.old.lines.items }
        ensures unasked { self.new.unasked ≡ self.old.unasked }
        ensures ended { self.new.has_ended ≡ self.old.has_ended }
    {
        let number = self.next_number();
        self.forget_lines();
        self.round = Some(Round { number, note });
        self.opened = number;
        number
    }

    // Reports whether the round with this number is open.
    fn is_open(&self, number: u64) -> bool
        ensures { IsTrue result ↔ IsOpen self.now number }
    {
        match &self.round {
            Some(round) => round.number == number,
            None => false,
        }
    }

    // Reports whether there is a witness at this place that gave no line.
    fn gave_none(&self, place: usize) -> bool
        ensures { IsTrue result ↔ (slice_get self.now.lines.items place ≡ Some None) }
    {
        match self.lines.get(place) {
            Some(line) => line.is_none(),
            None => false,
        }
    }

    /// Records the line of the witness at this place, if the round with this number is open and the witness gave none
    /// before.
    pub(crate) fn put_line(&mut self, place: usize, number: u64, line: String)
        ensures { Puts place number line self.old self.new }
    {
        if self.is_open(number) && self.gave_none(place) {
            self.lines[place] = Some(line);
        }
    }

    /// Records why a witness gave no line, unless 64 of these are kept already.
    pub(crate) fn put_unasked(&mut self, place: usize, why: Unasked)
        ensures put { length self.old.unasked.items < 64 → self.new.unasked.items
            ≡ self.old.unasked.items ++ record { place = place; why = why } ∷ [] }
        ensures full { 64 ≤ length self.old.unasked.items → self.new.unasked ≡ self.old.unasked }
        ensures lines { self.new.lines ≡ self.old.lines }
        ensures round { self.new.round ≡ self.old.round }
        ensures opened { self.new.opened ≡ self.old.opened }
        ensures ended { self.new.has_ended ≡ self.old.has_ended }
    {
        if self.unasked.len() < MOST_UNASKED {
            self.unasked.push(NoLine { place, why });
        }
    }

    /// Ends the ballot: no witness is asked any more.
    pub(crate) fn end(&mut self)
        ensures ended { self.new.has_ended ≡ true }
        ensures lines { self.new.lines ≡ self.old.lines }
        ensures round { self.new.round ≡ self.old.round }
        ensures opened { self.new.opened ≡ self.old.opened }
        ensures unasked { self.new.unasked ≡ self.old.unasked }
    {
        self.has_ended = true;
    }

    /// Reports whether the ballot has ended.
    pub(crate) fn has_ended(&self) -> bool
        ensures { result ≡ self.now.has_ended }
    {
        self.has_ended
    }

    // Reports whether the witness at this place is to be asked about the open round.
    fn is_for(&self, place: usize, after: u64) -> bool
        ensures { IsTrue result ↔ ((round : Round) × IsFor self.now place after round) }
    {
        match &self.round {
            Some(round) => after <= round.number && self.gave_none(place),
            None => false,
        }
    }

    /// Reports whether the round with this number is open, and the ballot goes on.
    pub(crate) fn stays(&self, number: u64) -> bool
        ensures { IsTrue result ↔ ((self.now.has_ended ≡ false) × IsOpen self.now number) }
    {
        !self.has_ended && self.is_open(number)
    }

    /// Reports whether there is no round for the witness at this place, and the ballot goes on.
    pub(crate) fn is_idle(&self, place: usize, after: u64) -> bool
        ensures { IsTrue result ↔ ((self.now.has_ended ≡ false)
            × ((round : Round) → ¬ (IsFor self.now place after round))) }
    {
        !self.has_ended && !self.is_for(place, after)
    }

    /// Returns the round that the witness at this place is to be asked about, if its number isn't below `after`.
    /// `None` if there is no such round or the ballot has ended.
    pub(crate) fn round_for(&self, place: usize, after: u64) -> Option<Round>
        ensures open { IfSome result (λ round. IsOpen self.now round.number) }
        ensures note { IfSome result (λ round.
            option_map (λ own. arc_value own.note) self.now.round ≡ Some (arc_value round.note)) }
        ensures fresh { IfSome result (λ round. after ≤ round.number) }
        ensures none { IfSome result (λ _. slice_get self.now.lines.items place ≡ Some None) }
        ensures ended { self.now.has_ended ≡ true → result ≡ None }
    {
        if self.has_ended || !self.is_for(place, after) {
            return None;
        }
        let Some(round) = &self.round else {
            return None;
        };
        let Ok(note) = Arc::try_clone(&round.note) else {
            return None;
        };
        Some(Round {
            number: round.number,
            note,
        })
    }

    // Returns how many witnesses gave a line.
    fn count(&self) -> usize
        ensures { result ≡ length (given self.now.lines.items) }
    {
        let mut count = 0;
        for line in self.lines.iter() {
            if line.is_some() {
                count += 1;
            }
        }
        count
    }

    // Returns all lines, one after another.
    fn text(&self, alloc: Global) -> Result<String, AllocError>
        ensures { IfOk result (λ text. string_bytes text ≡ joined self.now.lines.items) }
    {
        let mut text = String::new(alloc);
        for line in self.lines.iter() {
            if let Some(line) = line {
                text.push_str(line.as_str())?;
            }
        }
        Ok(text)
    }

    /// Reports whether there is no event for a thread that needs this many lines.
    pub(crate) fn is_quiet(&self, need: usize) -> bool
        ensures { IsTrue result ↔ ((self.now.has_ended ≡ false) × (self.now.unasked.items ≡ [])
            × (length (given self.now.lines.items) < need)) }
    {
        !self.has_ended && self.unasked.is_empty() && self.count() < need
    }

    // Takes the first fault that isn't reported yet.
    fn take_unasked(&mut self) -> Option<NoLine>
        ensures first { MatchOption result (self.old.unasked.items ≡ [])
            (λ first. self.old.unasked.items ≡ first ∷ self.new.unasked.items) }
        ensures kept { result ≡ None → self.new ≡ self.old }
        ensures lines { self.new.lines ≡ self.old.lines }
        ensures round { self.new.round ≡ self.old.round }
        ensures opened { self.new.opened ≡ self.old.opened }
        ensures ended { self.new.has_ended ≡ self.old.has_ended }
    {
        if self.unasked.is_empty() {
            return None;
        }
        Some(self.unasked.remove(0))
    }

    /// Returns the next event for a thread that needs this many lines. If it is `Enough`, the round is closed. It
    /// fails only when an allocation for the lines fails.
    pub(crate) fn tell(&mut self, alloc: Global, need: usize) -> Result<BallotEvent, AllocError>
        ensures told { IfOk result (Tells need self.old self.new) }
        ensures refused { OnErr result (self.new ≡ self.old) }
    {
        if let Some(first) = self.take_unasked() {
            return Ok(BallotEvent::Unasked(first.place, first.why));
        }
        if self.count() < need {
            return Ok(BallotEvent::Ended);
        }
        let text = self.text(alloc)?;
        self.round = None;
        self.forget_lines();
        Ok(BallotEvent::Enough(text))
    }
}
