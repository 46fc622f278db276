//! The steps of a log that runs.

ghost use Rattle.tl_publisher.specs.Operating.{IsOperating};
ghost use Rattle.tl_rows.specs.Inner.Kept.{AreSenders, IsKept};

use crate::calls::{Witnesses, attach, end, propose, publish, require};
use crate::closed::{closed_steps, gone_steps};
use crate::looks::see;
use crate::sending::{Sender, send};
use crate::words::{Step, Told, number_of, small_of, words_of};
use std::alloc::{AllocError, Global};
use std::sync::Wait;
use tl_publisher::{BoardReader, Operator, RunningLog};
use tl_sequencer::TakeFault;

// Does a step that makes a note.
fn note_step<R: Wait + Drop>(
    alloc: Global,
    operator: &mut Operator<R>,
    words: &[&str],
    step: &mut Step<'_>,
) -> Told
    requires { IsOperating (⟦<Operator<R> as RunningLog>⟧.state operator.old) }
    ensures { IsKept (⟦<Operator<R> as RunningLog>⟧.state operator.old)
        (⟦<Operator<R> as RunningLog>⟧.state operator.new) }
{
    match words {
        ["publish"] => publish(operator, step),
        ["propose"] => propose(operator, step),
        ["attach"] => attach(alloc, operator, "", step),
        ["attach", word] => attach(alloc, operator, word, step),
        _ => step.say("no such step"),
    }
}

// Takes up to `most` entries of a lane, and writes how many it took.
fn take<R: Wait + Drop>(
    operator: &mut Operator<R>,
    lane: u32,
    most: u64,
    step: &mut Step<'_>,
) -> Told
    requires { IsOperating (⟦<Operator<R> as RunningLog>⟧.state operator.old) }
    ensures { IsKept (⟦<Operator<R> as RunningLog>⟧.state operator.old)
        (⟦<Operator<R> as RunningLog>⟧.state operator.new) }
{
    match operator.take(lane, most) {
        Ok(count) => step.tell(count),
        Err(TakeFault::OutOfMemory) => Err(AllocError),
        Err(fault) => step.tell(fault),
    }
}

// Does a step.
fn do_step<R: Wait + Drop>(
    alloc: Global,
    operator: &mut Operator<R>,
    lanes: &mut Vec<Sender>,
    reader: &mut BoardReader<Global>,
    witnesses: &mut Witnesses,
    step: &mut Step<'_>,
) -> Told
    requires operating { IsOperating (⟦<Operator<R> as RunningLog>⟧.state operator.old) }
    requires own { AreSenders (⟦<Operator<R> as RunningLog>⟧.state operator.old).log lanes.old.items }
    ensures kept { IsKept (⟦<Operator<R> as RunningLog>⟧.state operator.old)
        (⟦<Operator<R> as RunningLog>⟧.state operator.new) }
    ensures own { AreSenders (⟦<Operator<R> as RunningLog>⟧.state operator.new).log lanes.new.items }
{
    let words = words_of(alloc, step.line)?;
    match words.as_slice() {
        ["send", lane, word, count] => {
            let entry = (*word, number_of(count));
            send(alloc, lanes, small_of(lane), entry, step)
        }
        ["take", lane, most] => take(operator, small_of(lane), number_of(most), step),
        ["end", lane] => end(operator, lanes, small_of(lane), step),
        ["see", words @ ..] => see(alloc, reader, words, step),
        ["require", need, _] => require(operator, witnesses, small_of(need), step),
        words => note_step(alloc, operator, words, step),
    }
}

// Does a step, once more if an allocation fails.
fn do_at_last<R: Wait + Drop>(
    alloc: Global,
    operator: &mut Operator<R>,
    lanes: &mut Vec<Sender>,
    reader: &mut BoardReader<Global>,
    witnesses: &mut Witnesses,
    step: &mut Step<'_>,
) -> Told
    requires operating { IsOperating (⟦<Operator<R> as RunningLog>⟧.state operator.old) }
    requires own { AreSenders (⟦<Operator<R> as RunningLog>⟧.state operator.old).log lanes.old.items }
    ensures kept { IsKept (⟦<Operator<R> as RunningLog>⟧.state operator.old)
        (⟦<Operator<R> as RunningLog>⟧.state operator.new) }
    ensures own { AreSenders (⟦<Operator<R> as RunningLog>⟧.state operator.new).log lanes.new.items }
{
    if do_step(alloc, operator, lanes, reader, witnesses, step).is_ok() {
        return Ok(());
    }
    step.say_refused()?;
    do_step(alloc, operator, lanes, reader, witnesses, step)
}

/// Does the steps of a log, each once more if an allocation fails.
pub(crate) fn run_steps<R: Wait + Drop>(
    alloc: Global,
    opened: (Operator<R>, Vec<Sender>, BoardReader<Global>),
    witnesses: Witnesses,
    steps: &[&str],
    out: &mut String,
) -> Told
    requires operating { IsOperating (⟦<Operator<R> as RunningLog>⟧.state opened.0) }
    requires own { AreSenders (⟦<Operator<R> as RunningLog>⟧.state opened.0).log opened.1.items }
{
    let (mut log, mut lanes, mut reader) = opened;
    let mut keys = witnesses;
    for place in 0..steps.len() {
        let (line, rest) = (steps[place], &steps[place..]);
        if line == "drop" {
            drop(log);
            return gone_steps(alloc, lanes, &mut reader, rest, out);
        }
        if line == "close" {
            match log.close() {
                Ok((complete, board)) => {
                    return closed_steps(alloc, &complete, board, &mut reader, rest, out);
                }
                Err(back) => {
                    log = back.operator;
                    Step {
                        line,
                        out: &mut *out,
                    }
                    .tell(back.lane)?;
                }
            }
            continue;
        }
        let mut step = Step {
            line,
            out: &mut *out,
        };
        do_at_last(
            alloc,
            &mut log,
            &mut lanes,
            &mut reader,
            &mut keys,
            &mut step,
        )?;
    }
    Ok(())
}
