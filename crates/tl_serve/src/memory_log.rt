//! A running log in memory.

ghost use Rattle.std.specs.Prelude.{◌≡◌, IfOk, IfSome};
ghost use Rattle.tl_publisher.specs.Operating.{IsOperating, LeavesAllElse};
ghost use Rattle.tl_sequencer.specs.Log.{IsEndOf, rings_of};
ghost use Rattle.tl_serve.specs.Inner.Live.{Finishes, Shows, TakesIn, TakesRest};

use crate::host::Host;
use crate::live_log::{LiveLog, refusal};
use std::alloc::Global;
use tl_hash::Head;
use tl_publisher::{BoardReader, Operator, PublishFault, Published, RunningLog};
use tl_run::RunFault;
use tl_sequencer::Ended;

/// A log that is published on a board.
pub(crate) trait BoardLog: RunningLog + Drop {
    /// Takes in at most this many entries of a lane, and returns how many it took.
    fn take_lane(&mut self, lane: u32, most: u64) -> Result<u64, RunFault>
        requires { IsOperating (Self.state self.old) }
        ensures operating { IsOperating (Self.state self.new) }
        ensures rests { LeavesAllElse (Self.state self.old) (Self.state self.new) }
        ensures taken { TakesIn lane most (Self.state self.old).log (Self.state self.new).log
            result };

    /// Takes in all that is left of the lane of an end, and returns how many entries.
    fn take_rest(&mut self, ended: Ended<Global, Global>) -> Result<u64, RunFault>
        requires operating { IsOperating (Self.state self.old) }
        requires end { IsEndOf ended (Self.state self.old).log }
        ensures operating { IsOperating (Self.state self.new) }
        ensures rests { LeavesAllElse (Self.state self.old) (Self.state self.new) }
        ensures taken { TakesRest ended (Self.state self.old).log (Self.state self.new).log
            result };

    /// Publishes what was taken in. Returns none if it is published already.
    fn publish_new(&mut self) -> Result<Option<Published>, RunFault>
        requires { IsOperating (Self.state self.old) }
        ensures operating { IsOperating (Self.state self.new) }
        ensures same { (Self.state self.new).log ≡ (Self.state self.old).log }
        ensures shown { Shows (Self.state self.old) (Self.state self.new) result }
        ensures book { IfOk result
            (λ shown. IfSome shown (λ p. p.book ≡ (Self.state self.old).past.book)) };

    /// Closes the log, and returns how many entries it has.
    fn finish(self) -> Result<u64, RunFault>
        requires { IsOperating (Self.state self) }
        ensures { Finishes (Self.state self).log result };
}

impl<H: Host> BoardLog for Operator<H> {
    fn take_lane(&mut self, lane: u32, most: u64) -> Result<u64, RunFault> {
        match self.take(lane, most) {
            Ok(taken) => Ok(taken),
            Err(fault) => Err(refusal(fault)),
        }
    }

    fn take_rest(&mut self, ended: Ended<Global, Global>) -> Result<u64, RunFault> {
        match self.end(ended) {
            Ok(taken) => Ok(taken),
            Err(refused) => Err(refusal(refused.why)),
        }
    }

    fn publish_new(&mut self) -> Result<Option<Published>, RunFault> {
        match self.publish() {
            Ok(published) => Ok(Some(published)),
            Err(PublishFault::NothingNew) => Ok(None),
            Err(PublishFault::OutOfMemory) => Err(RunFault::OutOfMemory),
            Err(PublishFault::Sign(_)) => Err(RunFault::Sign),
            Err(PublishFault::Quorum) => Err(RunFault::Operator),
        }
    }

    fn finish(self) -> Result<u64, RunFault> {
        match self.close() {
            Ok((complete, _board)) => Ok(complete.len()),
            Err(_back) => Err(RunFault::Operator),
        }
    }
}

/// A log on a board, and the reader of the board that says what is published.
#[derive(Drop)]
pub(crate) struct MemoryLog<O> {
    pub(crate) operator: O,
    pub(crate) board: BoardReader<Global>,
}

impl<O: BoardLog> LiveLog for MemoryLog<O> {
    ghost use Rattle.std.specs.Prelude.{◌≡◌, None};
    ghost use Rattle.tl_publisher.specs.Operating.{IsOperating, LeavesAllElse};
    ghost use Rattle.tl_serve.specs.Inner.Live.{ShowsNew};

    ghost log = { λ l. (O.state l.operator).log };

    ghost holds = { λ l. IsOperating (O.state l.operator) };

    ghost begun = { λ _. None };

    ghost rests = { λ a b. LeavesAllElse (O.state a.operator) (O.state b.operator) };

    ghost shows = { λ a b. ShowsNew (O.state a.operator) (O.state b.operator) };

    ghost heads = { λ a b _. b.operator ≡ a.operator };

    fn take_in(&mut self, lane: u32, most: u64) -> Result<u64, RunFault> {
        self.operator.take_lane(lane, most)
    }

    fn end_lane(&mut self, ended: Ended<Global, Global>) -> Result<u64, RunFault> {
        self.operator.take_rest(ended)
    }

    fn show(&mut self) -> Result<bool, RunFault> {
        match self.operator.publish_new() {
            Ok(Some(_published)) => Ok(true),
            Ok(None) => Ok(false),
            Err(fault) => Err(fault),
        }
    }

    fn head(&mut self) -> Option<Head> {
        match self.board.head() {
            Ok(head) => head,
            Err(_) => None,
        }
    }
}
