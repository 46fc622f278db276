//! The faults of all commands.

ghost use Rattle.std.specs.Prelude.{◌≡◌};
ghost use Rattle.tl_cli.specs.declared.fault.CommandFault.TheVariants.{Run};
ghost use Rattle.tl_run.specs.declared.fault.RunFault.TheVariants.{OutOfMemory};
ghost use Rattle.tl_cli.specs.Ending.{by_fetch, by_prove, by_run, by_witness, command_status, witness_status};

use std::alloc::{AllocError, AllocFailed};
use tl_bucket::BucketFault;
use tl_device::DeviceFault;
use tl_fetch::{FetchFault, fetch_exit_of};
use tl_prove::{ProveFault, prove_exit_of};
use tl_run::{Place, RunFault, exit_of};
use tl_serve::WitnessFault;

/// Why a command ends without success.
#[derive(Clone, Copy, Debug)]
pub enum CommandFault {
    /// A fault of another command than `fetch` and `witness`.
    Run(RunFault),
    /// A fault of `fetch`.
    Fetch(FetchFault),
    /// A fault of `verify`, `prove` or `submit`.
    Prove(ProveFault),
    /// A fault of `witness`.
    Witness(WitnessFault),
    /// A fault of a bucket.
    Bucket(BucketFault),
    /// The key that signs requests to a bucket is lacking; if its file can't be read, this is why.
    Credentials(Option<DeviceFault>),
    /// The file of a new key can't be made or written.
    KeyFile(KeyFile, DeviceFault),
}

/// One of the two files of a new key.
#[derive(Clone, Copy, Debug, PartialEq, Eq)]
pub enum KeyFile {
    /// The file of the private key.
    Private,
    /// The file of the verifier key.
    Public,
}

// Returns the exit status of a fault of `witness`.
fn witness_exit_of(fault: &WitnessFault) -> u8
    ensures { result ≡ witness_status fault.now }
{
    match fault {
        WitnessFault::Run(fault) => exit_of(fault),
        WitnessFault::LogsFile(fault) => exit_of(&RunFault::Device(Place::File, *fault)),
        WitnessFault::Logs(_) => 1,
    }
}

// Returns the exit status of a fault.
pub(crate) fn command_exit_of(fault: &CommandFault) -> u8
    ensures { result ≡ command_status fault.now }
{
    match fault {
        CommandFault::Run(fault) => exit_of(fault),
        CommandFault::Fetch(fault) => fetch_exit_of(fault),
        CommandFault::Prove(fault) => prove_exit_of(fault),
        CommandFault::Witness(fault) => witness_exit_of(fault),
        CommandFault::Bucket(BucketFault::Device(why))
        | CommandFault::Credentials(Some(why))
        | CommandFault::KeyFile(_, why) => { exit_of(&RunFault::Device(Place::File, *why)) }
        CommandFault::Bucket(_) | CommandFault::Credentials(None) => 1,
    }
}

impl From<AllocError> for CommandFault {
    ghost from_gives = { λ _ fault. fault ≡ Run OutOfMemory };

    fn from(_error: AllocError) -> CommandFault {
        CommandFault::Run(RunFault::OutOfMemory)
    }
}

impl<X: Drop> From<AllocFailed<X>> for CommandFault {
    ghost from_gives = { λ _ fault. fault ≡ Run OutOfMemory };

    fn from(_error: AllocFailed<X>) -> CommandFault {
        CommandFault::Run(RunFault::OutOfMemory)
    }
}

// Returns the outcome of a command that is neither `fetch` nor `witness`.
pub(crate) fn after_run(outcome: Result<(), RunFault>) -> Result<(), CommandFault>
    ensures { result ≡ by_run outcome }
{
    match outcome {
        Ok(()) => Ok(()),
        Err(fault) => Err(CommandFault::Run(fault)),
    }
}

// Returns the outcome of `fetch`.
pub(crate) fn after_fetch(outcome: Result<(), FetchFault>) -> Result<(), CommandFault>
    ensures { result ≡ by_fetch outcome }
{
    match outcome {
        Ok(()) => Ok(()),
        Err(fault) => Err(CommandFault::Fetch(fault)),
    }
}

// Returns the outcome of `verify`, `prove` or `submit`.
pub(crate) fn after_prove(outcome: Result<(), ProveFault>) -> Result<(), CommandFault>
    ensures { result ≡ by_prove outcome }
{
    match outcome {
        Ok(()) => Ok(()),
        Err(fault) => Err(CommandFault::Prove(fault)),
    }
}

// Returns the outcome of `witness`.
pub(crate) fn after_witness(outcome: Result<(), WitnessFault>) -> Result<(), CommandFault>
    ensures { result ≡ by_witness outcome }
{
    match outcome {
        Ok(()) => Ok(()),
        Err(fault) => Err(CommandFault::Witness(fault)),
    }
}
