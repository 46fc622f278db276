//! The steps after a log was closed or dropped.

use crate::looks::{ask, kept, see};
use crate::sending::{Sender, taken_out};
use crate::words::{Step, Told, small_of, words_of};
use std::alloc::{AllocError, Global};
use std::sync::Wait;
use tl_publisher::{Board, BoardReader};
use tl_sequencer::Complete;

// Does the close, or a step after it.
fn closed_step<R: Wait + Drop>(
    alloc: Global,
    complete: &Complete<Global, Global>,
    board: &mut Board<R>,
    reader: &mut BoardReader<Global>,
    step: &mut Step<'_>,
) -> Told {
    match words_of(alloc, step.line)?.as_slice() {
        ["see", words @ ..] => see(alloc, reader, words, step),
        ["kept", words @ ..] => kept(alloc, board, words, step),
        ["close"] => step.say("closed"),
        words => ask(complete, words, step),
    }
}

/// Does the steps from the close on.
pub(crate) fn closed_steps<R: Wait + Drop>(
    alloc: Global,
    complete: &Complete<Global, Global>,
    board: Board<R>,
    reader: &mut BoardReader<Global>,
    steps: &[&str],
    out: &mut String,
) -> Told {
    let mut board = board;
    for line in steps {
        let mut step = Step {
            line,
            out: &mut *out,
        };
        if closed_step(alloc, complete, &mut board, reader, &mut step).is_err() {
            step.say_refused()?;
            closed_step(alloc, complete, &mut board, reader, &mut step)?;
        }
    }
    Ok(())
}

// Does the drop, or a step after it.
fn gone_step(
    alloc: Global,
    submitters: &mut Vec<Sender>,
    reader: &mut BoardReader<Global>,
    step: &mut Step<'_>,
) -> Told {
    match words_of(alloc, step.line)?.as_slice() {
        ["see", words @ ..] => see(alloc, reader, words, step),
        ["end", lane] => match taken_out(submitters, small_of(lane)) {
            Some(submitter) => step.tell(submitter.close().map(|end| end.lane())),
            None => step.say("no submitter"),
        },
        ["drop"] => step.say("dropped"),
        _ => step.say("no such step"),
    }
}

/// Does the steps from the drop on.
pub(crate) fn gone_steps(
    alloc: Global,
    submitters: Vec<Sender>,
    reader: &mut BoardReader<Global>,
    steps: &[&str],
    out: &mut String,
) -> Told {
    let mut submitters = submitters;
    for line in steps {
        let mut step = Step {
            line,
            out: &mut *out,
        };
        if gone_step(alloc, &mut submitters, reader, &mut step).is_err() {
            step.say_refused()?;
            gone_step(alloc, &mut submitters, reader, &mut step)?;
        }
    }
    Ok(())
}
