//! Why a witness ends without success.

ghost use Rattle.std.specs.Prelude.{◌≡◌};
ghost use Rattle.tl_serve.specs.Knowing.{by_state, by_witness};

use std::alloc::{AllocError, AllocFailed};
use tl_device::DeviceFault;
use tl_logs::{LogsFault, StateFault};
use tl_run::RunFault;

/// Why a witness ends without success.
#[derive(Clone, Copy, Debug, PartialEq, Eq)]
pub enum WitnessFault {
    /// A fault that other commands have, too.
    Run(RunFault),
    /// The file of the logs can't be read.
    LogsFile(DeviceFault),
    /// A line of it isn't accepted.
    Logs(LogsFault),
}

impl From<AllocError> for WitnessFault {
    ghost use Rattle.tl_run.specs.declared.fault.RunFault.TheVariants.{OutOfMemory};
    ghost use Rattle.tl_serve.specs.declared.witness_fault.WitnessFault.TheVariants.{Run};

    ghost from_gives = { λ _ fault. fault ≡ Run OutOfMemory };

    fn from(_fault: AllocError) -> WitnessFault {
        WitnessFault::Run(RunFault::OutOfMemory)
    }
}

impl<X: Drop> From<AllocFailed<X>> for WitnessFault {
    ghost use Rattle.tl_run.specs.declared.fault.RunFault.TheVariants.{OutOfMemory};
    ghost use Rattle.tl_serve.specs.declared.witness_fault.WitnessFault.TheVariants.{Run};

    ghost from_gives = { λ _ fault. fault ≡ Run OutOfMemory };

    fn from(_fault: AllocFailed<X>) -> WitnessFault {
        WitnessFault::Run(RunFault::OutOfMemory)
    }
}

impl From<RunFault> for WitnessFault {
    ghost use Rattle.tl_serve.specs.declared.witness_fault.WitnessFault.TheVariants.{Run};

    ghost from_gives = { λ run fault. fault ≡ Run run };

    fn from(fault: RunFault) -> WitnessFault {
        WitnessFault::Run(fault)
    }
}

/// Returns why a state can't be read, as other commands report it.
pub(crate) fn state_refusal(fault: StateFault) -> RunFault
    ensures { result ≡ by_state fault }
{
    match fault {
        StateFault::Read => RunFault::Read,
        StateFault::Malformed(line) | StateFault::Broken(line) => RunFault::Chain(line),
        StateFault::TooLarge => RunFault::TooLarge,
        StateFault::OutOfMemory => RunFault::OutOfMemory,
    }
}

impl From<StateFault> for WitnessFault {
    ghost use Rattle.tl_serve.specs.Knowing.{by_state};
    ghost use Rattle.tl_serve.specs.declared.witness_fault.WitnessFault.TheVariants.{Run};

    ghost from_gives = { λ why fault. fault ≡ Run (by_state why) };

    fn from(fault: StateFault) -> WitnessFault {
        WitnessFault::Run(state_refusal(fault))
    }
}

// Returns how a witness ended that ends as other commands do.
pub(crate) fn after_run(outcome: Result<(), RunFault>) -> Result<(), WitnessFault>
    ensures { result ≡ by_witness outcome }
{
    match outcome {
        Ok(()) => Ok(()),
        Err(fault) => Err(WitnessFault::Run(fault)),
    }
}
