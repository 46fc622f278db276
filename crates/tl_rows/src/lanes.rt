//! The steps of a sequencer alone, without an operator.

ghost use Rattle.std.specs.Prelude.{◌≡◌, IfOk};
ghost use Rattle.tl_sequencer.specs.Log.{rings_of};
ghost use Rattle.tl_rows.specs.Inner.Kept.{AreSenders};

use crate::sending::{Sender, send, taken_out};
use crate::words::{NO_MEMORY, Row, Step, Told, bytes_of, number_of, small_of, words_of};
use std::alloc::{AllocError, Global};
use tl_sequencer::{OpenFault, Sequencer, TakeFault, open, open_from};

type Log = Sequencer<Global, Global>;

// Ends a lane, and writes how many entries that took, or why not and the lane that comes back. If an allocation
// fails, the end that comes back is put once more.
fn end(log: &mut Log, submitters: &mut Vec<Sender>, lane: u32, step: &mut Step<'_>) -> Told
    requires { AreSenders log.old submitters.old.items }
    ensures rings { rings_of log.new ≡ rings_of log.old }
    ensures own { AreSenders log.old submitters.new.items }
{
    let Some(submitter) = taken_out(submitters, lane) else {
        return step.say("no submitter");
    };
    let Some(ended) = submitter.close() else {
        return step.say("no end");
    };
    let back = match log.end(ended) {
        Ok(count) => return step.tell(count),
        Err(back) => back,
    };
    if back.why != TakeFault::OutOfMemory {
        return step.tell((back.why, back.ended.lane()));
    }
    step.say_refused()?;
    match log.end(back.ended) {
        Ok(count) => step.tell(count),
        Err(back) => step.tell((back.why, back.ended.lane())),
    }
}

// Takes up to `most` entries of a lane, and writes how many it took.
fn take(log: &mut Log, lane: u32, most: u64, step: &mut Step<'_>) -> Told
    ensures rings { rings_of log.new ≡ rings_of log.old }
{
    match log.take(lane, most) {
        Ok(count) => step.tell(count),
        Err(TakeFault::OutOfMemory) => Err(AllocError),
        Err(fault) => step.tell(fault),
    }
}

// Writes what is asked of a log.
fn ask(log: &Log, words: &[&str], step: &mut Step<'_>) -> Told {
    match words {
        ["len"] => step.tell(log.len()),
        ["who", place] => step.tell(log.who(number_of(place))),
        ["place", lane, number] => { step.tell(log.place_of(small_of(lane), number_of(number))) }
        ["entry", place] => step.tell_hex(log.entry(number_of(place))),
        _ => step.say("no such step"),
    }
}

// Does a step.
fn do_step(alloc: Global, log: &mut Log, submitters: &mut Vec<Sender>, step: &mut Step<'_>) -> Told
    requires { AreSenders log.old submitters.old.items }
    ensures rings { rings_of log.new ≡ rings_of log.old }
    ensures own { AreSenders log.old submitters.new.items }
{
    let words = words_of(alloc, step.line)?;
    match words.as_slice() {
        ["send", lane, word, count] => {
            let entry = (*word, number_of(count));
            send(alloc, submitters, small_of(lane), entry, step)
        }
        ["take", lane, most] => take(log, small_of(lane), number_of(most), step),
        ["end", lane] => end(log, submitters, small_of(lane), step),
        words => ask(log, words, step),
    }
}

// Does the steps of a log, each once more if an allocation fails.
fn run_steps(
    alloc: Global,
    log: Log,
    submitters: Vec<Sender>,
    steps: &[&str],
    out: &mut String,
) -> Told
    requires { AreSenders log submitters.items }
{
    let (mut log, mut submitters) = (log, submitters);
    for line in steps {
        let mut step = Step {
            line,
            out: &mut *out,
        };
        if do_step(alloc, &mut log, &mut submitters, &mut step).is_err() {
            step.say_refused()?;
            do_step(alloc, &mut log, &mut submitters, &mut step)?;
        }
    }
    Ok(())
}

// Opens a log that begins with this entry. If an allocation fails, it is opened once more with the list that comes
// back.
fn opened_from(
    alloc: Global,
    entry: Vec<u8>,
    lanes: u32,
    capacity: usize,
    limit: u64,
    out: &mut String,
) -> Result<(Log, Vec<Sender>), OpenFault>
    ensures { IfOk result (λ r. AreSenders r.0 r.1.items) }
{
    if limit < 1 || entry.len() > 65_535 {
        return Err(OpenFault::Limit);
    }
    let mut base = Vec::new(alloc);
    if base.push(entry).is_err() {
        return Err(OpenFault::OutOfMemory);
    }
    let back = match open_from(alloc, base, lanes, capacity, limit) {
        Ok(opened) => return Ok(opened),
        Err(back) => back,
    };
    if back.why != OpenFault::OutOfMemory || out.push_str(NO_MEMORY).is_err() {
        return Err(back.why);
    }
    match open_from(alloc, back.base, lanes, capacity, limit) {
        Ok(opened) => Ok(opened),
        Err(back) => Err(back.why),
    }
}

// Does the steps of a row with the log that was opened, or writes why it wasn't.
fn begin(
    alloc: Global,
    opened: Result<(Log, Vec<Sender>), OpenFault>,
    row: &Row<'_>,
    out: &mut String,
) -> Told
    requires { IfOk opened (λ r. AreSenders r.0 r.1.items) }
{
    match opened {
        Ok((log, submitters)) => {
            out.push_str("opened\n")?;
            run_steps(alloc, log, submitters, row.steps.as_slice(), out)
        }
        Err(fault) => write!(out, "{fault:?}\n"),
    }
}

/// Opens a log that begins with the entry that a word gives, or with none, and does the steps of the row.
pub(crate) fn open_lanes(
    alloc: Global,
    row: &Row<'_>,
    words: [&str; 3],
    entry: Option<&str>,
    out: &mut String,
) -> Told {
    let [lanes, capacity, limit] = words;
    let (lanes, limit) = (small_of(lanes), number_of(limit));
    let capacity = number_of(capacity) as usize;
    let opened = match entry {
        Some(word) => {
            let entry = bytes_of(alloc, word)?;
            opened_from(alloc, entry, lanes, capacity, limit, out)
        }
        None => open(alloc, lanes, capacity, limit),
    };
    begin(alloc, opened, row, out)
}
