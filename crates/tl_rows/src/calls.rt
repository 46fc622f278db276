//! The calls of an operator, one for each kind of step.

ghost use Rattle.tl_publisher.specs.Operating.{IsOperating};
ghost use Rattle.tl_rows.specs.Inner.Kept.{AreSenders, IsKept};

use crate::sending::{Sender, taken_out};
use crate::words::{Step, Told, text_of};
use std::alloc::{AllocError, Global};
use std::sync::Wait;
use tl_note::Verifier;
use tl_publisher::{AttachFault, Operator, PublishFault, RequireBack, RunningLog};
use tl_sequencer::TakeFault;

/// The witnesses that steps require, the next ones last.
pub(crate) type Witnesses = Vec<Vec<Box<dyn Verifier>>>;

/// Publishes the log, and writes its size.
pub(crate) fn publish<R: Wait + Drop>(operator: &mut Operator<R>, step: &mut Step<'_>) -> Told
    requires { IsOperating (⟦<Operator<R> as RunningLog>⟧.state operator.old) }
    ensures { IsKept (⟦<Operator<R> as RunningLog>⟧.state operator.old)
        (⟦<Operator<R> as RunningLog>⟧.state operator.new) }
{
    match operator.publish() {
        Ok(published) => step.tell(published.size()),
        Err(PublishFault::OutOfMemory) => Err(AllocError),
        Err(fault) => step.tell(fault),
    }
}

/// Proposes the log, and writes its size and its note.
pub(crate) fn propose<R: Wait + Drop>(operator: &mut Operator<R>, step: &mut Step<'_>) -> Told
    requires { IsOperating (⟦<Operator<R> as RunningLog>⟧.state operator.old) }
    ensures { IsKept (⟦<Operator<R> as RunningLog>⟧.state operator.old)
        (⟦<Operator<R> as RunningLog>⟧.state operator.new) }
{
    match operator.propose() {
        Ok(proposal) => step.tell((proposal.size, proposal.note)),
        Err(PublishFault::OutOfMemory) => Err(AllocError),
        Err(fault) => step.tell(fault),
    }
}

/// Attaches the lines of witnesses that a word gives, and writes the published size.
pub(crate) fn attach<R: Wait + Drop>(
    alloc: Global,
    operator: &mut Operator<R>,
    word: &str,
    step: &mut Step<'_>,
) -> Told
    requires { IsOperating (⟦<Operator<R> as RunningLog>⟧.state operator.old) }
    ensures { IsKept (⟦<Operator<R> as RunningLog>⟧.state operator.old)
        (⟦<Operator<R> as RunningLog>⟧.state operator.new) }
{
    let lines = text_of(alloc, word)?;
    match operator.attach(lines.as_str()) {
        Ok(published) => step.tell(published.size()),
        Err(AttachFault::OutOfMemory) => Err(AllocError),
        Err(fault) => step.tell(fault),
    }
}

/// Requires this many of the next witnesses, or writes why not and how many came back.
pub(crate) fn require<R: Wait + Drop>(
    operator: &mut Operator<R>,
    witnesses: &mut Witnesses,
    need: u32,
    step: &mut Step<'_>,
) -> Told
    requires { IsOperating (⟦<Operator<R> as RunningLog>⟧.state operator.old) }
    ensures { IsKept (⟦<Operator<R> as RunningLog>⟧.state operator.old)
        (⟦<Operator<R> as RunningLog>⟧.state operator.new) }
{
    let Some(next) = witnesses.pop() else {
        return step.say("no witnesses");
    };
    match operator.require(next, need) {
        Ok(()) => step.say("required"),
        Err(RequireBack { witnesses, why }) => step.tell((why, witnesses.len())),
    }
}

/// Ends a lane, and writes how many entries were left of it, or why not and the lane that comes back. If an
/// allocation fails, the end that comes back is put once more.
pub(crate) fn end<R: Wait + Drop>(
    operator: &mut Operator<R>,
    lanes: &mut Vec<Sender>,
    lane: u32,
    step: &mut Step<'_>,
) -> Told
    requires operating { IsOperating (⟦<Operator<R> as RunningLog>⟧.state operator.old) }
    requires own { AreSenders (⟦<Operator<R> as RunningLog>⟧.state operator.old).log lanes.old.items }
    ensures kept { IsKept (⟦<Operator<R> as RunningLog>⟧.state operator.old)
        (⟦<Operator<R> as RunningLog>⟧.state operator.new) }
    ensures own { AreSenders (⟦<Operator<R> as RunningLog>⟧.state operator.new).log lanes.new.items }
{
    let Some(submitter) = taken_out(lanes, lane) else {
        return step.say("no submitter");
    };
    let Some(ended) = submitter.close() else {
        return step.say("no end");
    };
    let back = match operator.end(ended) {
        Ok(count) => return step.tell(count),
        Err(back) => back,
    };
    if back.why != TakeFault::OutOfMemory {
        return step.tell((back.why, back.ended.lane()));
    }
    step.say_refused()?;
    match operator.end(back.ended) {
        Ok(count) => step.tell(count),
        Err(back) => step.tell((back.why, back.ended.lane())),
    }
}
