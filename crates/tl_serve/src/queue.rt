//! A queue of lines to be written: one write takes all that came while another was in progress.

ghost use Rattle.std.specs.Prelude.{◌≡◌, ◌==◌, ◌++◌, ◌∷◌, [], None, OnSome, IsErr, IsTrue, false, position, true};
ghost use Rattle.tl_serve.specs.Inner.Queueing.{Steps};

use crate::written::{LinkLine, WrittenLink, write_lines};
use std::alloc::{AllocError, Global};
use std::io::Write;
use std::mem;
use std::sync::{Condvar, Mutex, Wait};
use tl_device::Counted;
use tl_witness::SaveFault;

// The most threads that save at once. Each waits for its line.
const MOST_THREADS: usize = 64;

// A link that was written, for the holder of this ticket.
#[derive(Drop)]
struct Kept {
    ticket: u64,
    link: WrittenLink,
}

// Lines that wait together. The first has this ticket, and each later one the next.
#[derive(Drop)]
struct Batch {
    first: u64,
    lines: Vec<LinkLine>,
}

// What waits, and what was written and not fetched yet.
#[derive(Drop)]
struct Waiting {
    batch: Batch,
    kept: Vec<Kept>,
    is_writing: bool,
    has_failed: bool,
}

// What the thread that waits for a line has to do.
#[derive(Drop)]
enum Step {
    // Nothing: its line was written.
    Fetch(WrittenLink),
    // Nothing: a write failed, and how much was written is unknown.
    Fail,
    // Write these lines, its own among them.
    Write(Batch),
}

impl Waiting {
    // Appends a line and returns its ticket, or none if the line can't be taken.
    fn put(&mut self, line: LinkLine) -> Option<u64>
        ensures put { OnSome result
            (self.new.batch.lines.items ≡ self.old.batch.lines.items ++ line ∷ []) }
        ensures kept { self.new.kept ≡ self.old.kept }
        ensures failed { self.new.has_failed ≡ self.old.has_failed }
        ensures none { self.old.has_failed ≡ true → result ≡ None }
    {
        if self.has_failed || self.batch.lines.push(line).is_err() {
            return None;
        }
        let others = self.batch.lines.len() - 1;
        Some(self.batch.first.wrapping_add(others as u64))
    }

    // Returns the place of the written link with this ticket.
    fn place_of(&self, ticket: u64) -> Option<usize>
        ensures { result ≡ position (λ kept. kept.ticket == ticket) self.now.kept.items }
    {
        self.kept.iter().position(|kept| kept.ticket == ticket)
    }

    // Reports whether the holder of this ticket must wait for the thread that writes.
    fn is_early(&self, ticket: u64) -> bool
        ensures { IsTrue result → (self.now.is_writing ≡ true) × (self.now.has_failed ≡ false) }
    {
        self.is_writing && !self.has_failed && self.place_of(ticket).is_none()
    }

    // Returns what the holder of this ticket has to do, once it need not wait.
    fn step(&mut self, alloc: Global, ticket: u64) -> Step
        ensures { Steps ticket self.old self.new result }
    {
        if let Some(place) = self.place_of(ticket) {
            return Step::Fetch(self.kept.swap_remove(place).link);
        }
        if self.has_failed {
            return Step::Fail;
        }
        self.is_writing = true;
        let first = self.batch.first.wrapping_add(self.batch.lines.len() as u64);
        let next = Batch {
            first,
            lines: Vec::new(alloc),
        };
        Step::Write(mem::replace(&mut self.batch, next))
    }

    // Records what came of a write of lines, the first of which has this ticket.
    fn finish(&mut self, first: u64, outcome: Result<Vec<WrittenLink>, SaveFault>)
        ensures ends { self.new.is_writing ≡ false }
        ensures failed { IsErr outcome → self.new.has_failed ≡ true }
        ensures lines { self.new.batch ≡ self.old.batch }
    {
        self.is_writing = false;
        let Ok(links) = outcome else {
            self.has_failed = true;
            return;
        };
        let mut ticket = first;
        for link in links {
            if self.kept.push(Kept { ticket, link }).is_err() {
                self.has_failed = true;
            }
            ticket = ticket.wrapping_add(1);
        }
    }
}

/// A queue of lines for a writer that several threads share.
#[derive(Drop)]
pub struct LineQueue<'w, O> {
    alloc: Global,
    waiting: Mutex<Waiting>,
    changed: Condvar,
    out: Mutex<&'w mut Counted<O>>,
}

impl<'w, O: Write> LineQueue<'w, O> {
    /// Returns an empty queue. Fails only if allocation fails.
    pub fn new(alloc: Global, out: &'w mut Counted<O>) -> Result<LineQueue<'w, O>, AllocError> {
        let mut kept = Vec::new(alloc);
        kept.reserve(MOST_THREADS)?;
        let waiting = Waiting {
            batch: Batch {
                first: 0,
                lines: Vec::new(alloc),
            },
            kept,
            is_writing: false,
            has_failed: false,
        };
        Ok(LineQueue {
            alloc,
            waiting: Mutex::new(waiting),
            changed: Condvar::new(),
            out: Mutex::new(out),
        })
    }

    // Appends a line and returns its ticket, or none if the line can't be taken.
    fn put<R: Wait>(&self, rt: &R, line: LinkLine) -> Option<u64> {
        let mut waiting = self.waiting.lock(rt);
        waiting.put(line)
    }

    // Returns what the holder of this ticket has to do, once the thread that writes is done.
    fn step<R: Wait>(&self, rt: &R, ticket: u64) -> Step {
        let waiting = self.waiting.lock(rt);
        let mut waiting = self
            .changed
            .wait_while(rt, waiting, |waiting| waiting.is_early(ticket));
        waiting.step(self.alloc, ticket)
    }

    // Writes lines, and passes on what came of it to the others.
    fn write<R: Wait>(&self, rt: &R, batch: Batch) {
        let Batch { first, lines } = batch;
        let outcome = {
            let mut out = self.out.lock(rt);
            write_lines(self.alloc, &mut *out, lines)
        };
        {
            let mut waiting = self.waiting.lock(rt);
            waiting.finish(first, outcome);
        }
        self.changed.notify_all();
    }

    /// Writes a line, by this thread or another, and returns its link. After a write failed, every call fails, and so
    /// do those that wait. It may wait.
    pub(crate) fn save<R: Wait>(&self, rt: &R, line: LinkLine) -> Result<WrittenLink, SaveFault> {
        let Some(ticket) = self.put(rt, line) else {
            return Err(SaveFault);
        };
        for _ in 0..u64::MAX {
            match self.step(rt, ticket) {
                Step::Fetch(link) => return Ok(link),
                Step::Fail => return Err(SaveFault),
                Step::Write(batch) => self.write(rt, batch),
            }
        }
        Err(SaveFault)
    }
}
