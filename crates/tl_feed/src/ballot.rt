//! The state shared by the thread that proposes checkpoints and the threads that ask witnesses, one each.

use crate::tally::{BallotEvent, Round, Tally};
use crate::unasked::Unasked;
use std::alloc::{AllocError, Global};
use std::sync::atomic::{AtomicU64, Ordering};
use std::sync::{Arc, Condvar, Mutex, Wait};
use std::time::{Clock, Duration};

/// Rounds in which witnesses are asked to cosign a note, one round at a time. One thread proposes, and a thread for
/// each witness asks (`ask_in_rounds`).
#[derive(Drop)]
pub struct Ballot {
    alloc: Global,
    tally: Mutex<Tally>,
    changed: Condvar,
    // How often the askers were urged.
    urged: AtomicU64,
}

// For how many seconds an asker that pauses doesn't check whether it was urged.
const PAUSE: u64 = 1;

impl Ballot {
    /// Creates a ballot for this many witnesses, before its first round. It fails only when allocation fails.
    pub fn new(alloc: Global, witnesses: usize) -> Result<Ballot, AllocError> {
        let tally = Mutex::new(Tally::new(alloc, witnesses)?);
        Ok(Ballot {
            alloc,
            tally,
            changed: Condvar::new(),
            urged: AtomicU64::new(0),
        })
    }

    /// Makes askers that pause ask again within a second, because something waits for the open round.
    pub fn urge(&self) {
        self.urged.fetch_add(1, Ordering::SeqCst);
    }

    /// Returns how often the askers were urged.
    pub(crate) fn urged(&self) -> u64 {
        self.urged.load(Ordering::SeqCst)
    }

    /// Opens a new round for this note, and returns its number. The lines of the last round are forgotten, and the
    /// askers begin with the new one. It fails only when an allocation for the note fails. It may wait for other
    /// threads.
    pub fn propose<R: Wait>(&self, rt: &R, note: &str) -> Result<u64, AllocError> {
        let note = Arc::new(self.alloc, String::from_str(self.alloc, note)?)?;
        let number = {
            let mut tally = self.tally.lock(rt);
            tally.open(note)
        };
        self.changed.notify_all();
        Ok(number)
    }

    /// Waits for an event, and returns it: first, in order, which witness gave no line and why, each once; then that
    /// `need` witnesses gave a line in the open round, which is closed with that, so no witness is asked about it any
    /// more. It fails only when an allocation for the lines fails. It may wait for other threads.
    pub fn wait<R: Wait>(&self, rt: &R, need: usize) -> Result<BallotEvent, AllocError> {
        let event = {
            let tally = self.tally.lock(rt);
            let mut tally = self
                .changed
                .wait_while(rt, tally, |tally| tally.is_quiet(need));
            tally.tell(self.alloc, need)
        };
        self.changed.notify_all();
        event
    }

    /// Ends the ballot: the askers end, even those that pause, and `wait` returns `Ended`. It may wait for other
    /// threads.
    pub fn end<R: Wait>(&self, rt: &R) {
        {
            let mut tally = self.tally.lock(rt);
            tally.end();
        }
        self.changed.notify_all();
    }

    /// Waits for a round with this number or a later one in which the witness at this place gave no line. Returns
    /// `None` once the ballot has ended. It may wait for other threads.
    pub(crate) fn next<R: Wait>(&self, rt: &R, place: usize, after: u64) -> Option<Round> {
        let tally = self.tally.lock(rt);
        let tally = self
            .changed
            .wait_while(rt, tally, |tally| tally.is_idle(place, after));
        tally.round_for(place, after)
    }

    /// Records the line of the witness at this place. It counts only if the round with this number is still open and
    /// the witness gave no line before. It may wait for other threads.
    pub(crate) fn put_line<R: Wait>(&self, rt: &R, place: usize, number: u64, line: String) {
        {
            let mut tally = self.tally.lock(rt);
            tally.put_line(place, number, line);
        }
        self.changed.notify_all();
    }

    /// Records why the witness at this place gave no line. At most 64 of these are kept. It may wait for other
    /// threads.
    pub(crate) fn put_unasked<R: Wait>(&self, rt: &R, place: usize, why: Unasked) {
        {
            let mut tally = self.tally.lock(rt);
            tally.put_unasked(place, why);
        }
        self.changed.notify_all();
    }

    // Waits a second, or until the round with this number is closed or the ballot has ended. Reports whether neither
    // is so.
    fn pause_once<R: Wait + Clock>(&self, rt: &R, number: u64) -> bool {
        let (tally, time) = (self.tally.lock(rt), Duration::from_secs(PAUSE));
        let (tally, _) = self
            .changed
            .wait_timeout_while(rt, tally, time, |tally| tally.stays(number));
        tally.stays(number)
    }

    /// Waits this many seconds, or until the round with this number is closed, until the ballot has ended, or,
    /// checked each second, until the askers were urged again since the count `urged`. Reports whether the ballot
    /// goes on.
    pub(crate) fn pause<R: Wait + Clock>(
        &self,
        rt: &R,
        number: u64,
        seconds: u64,
        urged: u64,
    ) -> bool {
        for _ in 0..seconds {
            if !self.pause_once(rt, number) || self.urged() != urged {
                break;
            }
        }
        let tally = self.tally.lock(rt);
        !tally.has_ended()
    }
}
