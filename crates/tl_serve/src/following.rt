//! How the lines of an input enter a log as they come.

ghost use Rattle.std.specs.Prelude.{◌≡◌, IfOk, IfSome};

use crate::awaited::Awaited;
use crate::lanes::{EndOf, LaneThread, Sending, Sent, send_one};
use crate::signals::Signals;
use std::alloc::Global;
use std::io::Read;
use std::snapshot::Snapshot;
use std::sync::Wait;
use std::thread::Scope;
use tl_append::line_fault;
use tl_device::Counted;
use tl_lines::{Lines, NextLine};
use tl_run::RunFault;
use tl_sequencer::Submitter;

/// What reading on gave.
#[derive(Clone, Copy)]
pub(crate) enum ReadOn {
    /// Something came.
    More,
    /// The input has ended, until another writer comes.
    Ended,
    /// The input has ended for good.
    Over,
}

/// A source of lines, one after another.
pub(crate) trait Source: Send + Drop {
    /// Returns the next line of what was read, or none if all of it was cut.
    fn cut(&mut self) -> Result<Option<NextLine<Global>>, RunFault>;

    /// Waits until there is something to read, and reports whether there is: the thread may have
    /// been woken.
    fn wait(&mut self) -> Result<bool, RunFault>;

    /// Reads on.
    fn read_on(&mut self) -> Result<ReadOn, RunFault>;

    /// Reports whether the last read came to the end of the input.
    fn has_ended(&self) -> bool;

    /// Returns the last line, once the input has ended, if no newline ended it.
    fn last(&mut self) -> Option<NextLine<Global>>;

    /// Returns how many lines came so far.
    fn count(&self) -> u64;
}

/// The lines of a reader, as they come.
#[derive(Drop)]
pub(crate) struct Followed<'r, R> {
    pub(crate) lines: Lines<Global>,
    pub(crate) reader: &'r mut Counted<R>,
    pub(crate) input: Awaited,
    // How many lines came before those that are followed.
    pub(crate) before: u64,
}

impl<R: Read + Send> Source for Followed<'_, R> {
    fn cut(&mut self) -> Result<Option<NextLine<Global>>, RunFault> {
        Ok(self.lines.next_in_block()?)
    }

    fn wait(&mut self) -> Result<bool, RunFault> {
        self.input.wait()
    }

    fn read_on(&mut self) -> Result<ReadOn, RunFault> {
        let goes_on = match self.lines.fill(self.reader) {
            Ok(goes_on) => goes_on,
            Err(fault) => return Err(line_fault(fault)),
        };
        let may_go_on = self.input.note(!goes_on);
        Ok(if goes_on {
            ReadOn::More
        } else if may_go_on {
            ReadOn::Ended
        } else {
            ReadOn::Over
        })
    }

    fn has_ended(&self) -> bool {
        self.input.has_ended()
    }

    fn last(&mut self) -> Option<NextLine<Global>> {
        self.lines.last()
    }

    fn count(&self) -> u64 {
        self.lines.count().saturating_sub(self.before)
    }
}

// Sends a line, or reports that it is too long. Returns whether to go on.
fn send_line<H: Wait>(
    rt: &H,
    submitter: &mut Submitter<Global, Global>,
    line: NextLine<Global>,
    signals: &Signals,
) -> Result<bool, RunFault>
    ensures { (submitter.new.ring ≡ submitter.old.ring)
        × (submitter.new.lane ≡ submitter.old.lane) }
{
    match line {
        NextLine::Entry(entry) => Ok(send_one(submitter, entry, signals)),
        NextLine::TooLong(number) => {
            signals.notify_too_long(rt, number)?;
            Ok(true)
        }
    }
}

// Sends the lines that were read. Returns whether to go on.
fn send_read<H: Wait, S: Source>(
    rt: &H,
    source: &mut S,
    submitter: &mut Submitter<Global, Global>,
    signals: &Signals,
) -> Result<bool, RunFault>
    ensures { (submitter.new.ring ≡ submitter.old.ring)
        × (submitter.new.lane ≡ submitter.old.lane) }
{
    for _ in 0..u64::MAX {
        match source.cut() {
            Ok(Some(line)) => {
                if !send_line(rt, submitter, line, signals)? {
                    return Ok(false);
                }
            }
            Ok(None) => return Ok(true),
            Err(fault) => return Err(fault),
        }
    }
    Ok(false)
}

// Sends the last line after the input has ended, and reports the end. Returns whether to go on.
fn send_last<H: Wait, S: Source>(
    rt: &H,
    source: &mut S,
    submitter: &mut Submitter<Global, Global>,
    signals: &Signals,
    may_go_on: bool,
) -> Result<bool, RunFault>
    ensures { (submitter.new.ring ≡ submitter.old.ring)
        × (submitter.new.lane ≡ submitter.old.lane) }
{
    if let Some(line) = source.last() {
        if !send_line(rt, submitter, line, signals)? {
            return Ok(false);
        }
    }
    signals.notify_end();
    Ok(may_go_on)
}

// Waits for input and reads it. Returns what that gave, or none if nothing more is taken, or if all
// connections are answered and the input has ended.
fn read_next<S: Source>(source: &mut S, signals: &Signals) -> Result<Option<ReadOn>, RunFault> {
    for _ in 0..u64::MAX {
        if signals.is_stopped() || (signals.is_over() && source.has_ended()) {
            break;
        }
        if source.wait()? && !signals.is_stopped() {
            return Ok(Some(source.read_on()?));
        }
    }
    Ok(None)
}

// Sends each line as it comes, until no more can come or no more are taken.
fn send_lines<H: Wait, S: Source>(
    rt: &H,
    source: &mut S,
    submitter: &mut Submitter<Global, Global>,
    signals: &Signals,
) -> Result<(), RunFault>
    ensures { (submitter.new.ring ≡ submitter.old.ring)
        × (submitter.new.lane ≡ submitter.old.lane) }
{
    let mut goes_on = true;
    for _ in 0..u64::MAX {
        if !goes_on || !send_read(rt, source, submitter, signals)? {
            break;
        }
        goes_on = match read_next(source, signals)? {
            Some(ReadOn::More) => true,
            Some(ReadOn::Ended) => send_last(rt, source, submitter, signals, true)?,
            Some(ReadOn::Over) => send_last(rt, source, submitter, signals, false)?,
            None => false,
        };
    }
    Ok(())
}

// Sends each line as it comes, and closes the submitter at the end. Reports a fault.
fn follow<H: Wait, S: Source>(rt: &H, source: S, lane: Sending, signals: &Signals) -> Sent
    ensures { IfSome result.ended
        (λ e. (e.ring ≡ lane.submitter.ring) × (e.lane ≡ lane.submitter.lane)) }
{
    let Sending { submitter, .. } = lane;
    let mut submitter = submitter;
    let mut source = source;
    if let Err(fault) = send_lines(rt, &mut source, &mut submitter, signals) {
        signals.report_fault(rt, fault);
    }
    let sent = Sent {
        count: source.count(),
        ended: submitter.close(),
    };
    signals.end_sending();
    sent
}

/// Starts the thread that sends the lines. It promises that its end is of the lane's submitter.
pub(crate) fn start_following<'s, E, H: Wait + Sync, S: Source + 's>(
    scope: &'s Scope<'s, E>,
    rt: &'s H,
    source: S,
    lane: Sending,
    signals: &'s Signals,
) -> Result<LaneThread, RunFault>
    ensures { IfOk result (λ h. h.promise.0.value ≡ lane.submitter) }
{
    let promise = EndOf(Snapshot::of(&lane.submitter));
    let job = move || -> Sent
        ensures { IfSome result.ended
            (λ e. (e.ring ≡ lane.submitter.ring) × (e.lane ≡ lane.submitter.lane)) }
    { follow(rt, source, lane, signals) };
    signals.begin_sending();
    match scope.spawn_with(promise, job) {
        Ok(handle) => Ok(handle),
        Err(_) => {
            signals.end_sending();
            Err(RunFault::OutOfMemory)
        }
    }
}
