//! A running log, as the thread that carries out its steps sees it.

ghost use Rattle.std.specs.Prelude.{◌≡◌};
ghost use Rattle.tl_sequencer.specs.Log.{IsEndOf};
ghost use Rattle.tl_serve.specs.Inner.Live.{TakesIn, TakesRest, after_take};
ghost use Rattle.tl_serve.specs.Inner.Running.{StaysRunning};

use std::alloc::Global;
use tl_hash::Head;
use tl_run::RunFault;
use tl_sequencer::{Ended, TakeFault};

/// The most entries of a log.
pub(crate) const MOST_ENTRIES: u64 = 0xFFFF_FFFF;

/// A running log: entries are taken in from its lanes, and published, until it is closed.
pub(crate) trait LiveLog: Drop {
    ghost use Rattle.std.specs.Global.{Global as GlobalValue};
    ghost use Rattle.std.specs.Prelude.{Bool, Option, Result};
    ghost use Rattle.tl_sequencer.specs.Log.{Log};
    ghost use Rattle.tl_run.specs.declared.fault.RunFault.{RunFault};
    ghost use Rattle.tl_hash.specs.declared.head.Head.{Head};
    ghost use Rattle.tl_serve.specs.Inner.Running.{Begun};

    /// What its lanes gave.
    ghost log: { Self → Log GlobalValue };

    /// What holds of it from its opening on, whatever calls changed it.
    ghost holds: { Self → Type 0 };

    /// What it began with, if it is on a shelf.
    ghost begun: { Self → Option Begun };

    /// Everything is unchanged but what its lanes gave.
    ghost rests: { Self → Self → Type 0 };

    /// How publishing changes it, by the result.
    ghost shows: { Self → Self → Result Bool RunFault → Type 0 };

    /// How asking for its head changes it, by the result.
    ghost heads: { Self → Self → Option Head → Type 0 };

    /// Takes in at most this many entries of a lane, and returns how many it took.
    fn take_in(&mut self, lane: u32, most: u64) -> Result<u64, RunFault>
        requires { holds self.old }
        ensures kept { StaysRunning holds log begun self.old self.new }
        ensures taken { TakesIn lane most (log self.old) (log self.new) result }
        ensures rests { rests self.old self.new };

    /// Takes in all that is left of the lane of an end, and returns how many entries.
    fn end_lane(&mut self, ended: Ended<Global, Global>) -> Result<u64, RunFault>
        requires holds { holds self.old }
        requires end { IsEndOf ended (log self.old) }
        ensures kept { StaysRunning holds log begun self.old self.new }
        ensures taken { TakesRest ended (log self.old) (log self.new) result }
        ensures rests { rests self.old self.new };

    /// Publishes what was taken in, so that it survives a crash if the log is to. Reports whether
    /// something was new.
    fn show(&mut self) -> Result<bool, RunFault>
        requires { holds self.old }
        ensures kept { StaysRunning holds log begun self.old self.new }
        ensures same { log self.new ≡ log self.old }
        ensures shown { shows self.old self.new result };

    /// Returns size and root of the last publication, if they are known.
    fn head(&mut self) -> Option<Head>
        requires { holds self.old }
        ensures kept { StaysRunning holds log begun self.old self.new }
        ensures answer { heads self.old self.new result };
}

/// Returns why nothing was taken.
pub(crate) fn refusal(fault: TakeFault) -> RunFault
    ensures { result ≡ after_take fault }
{
    match fault {
        TakeFault::OutOfMemory => RunFault::OutOfMemory,
        _ => RunFault::Operator,
    }
}
