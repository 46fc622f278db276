//! Faults of `verify`, `prove` and `submit`.

ghost use Rattle.std.specs.Prelude.{◌≡◌};
ghost use Rattle.tl_prove.specs.Faults.{after_file};
ghost use Rattle.tl_prove.specs.FaultWords.{prove_status};

use std::alloc::{AllocError, AllocFailed};
use std::error::Error;
use std::fmt::{self, Display, Formatter};
use tl_device::DeviceFault;
use tl_fetch::{FetchFault, fetch_exit_of};
use tl_offline::{EntryFault, ProofFault};
use tl_policy::{PolicyFault, TrustFault};
use tl_run::{Place, RunFault, exit_of};

/// A file that the options name.
#[derive(Clone, Copy, Debug)]
pub enum NamedFile {
    /// That of the policy.
    Policy,
    /// That of the entry.
    Entry,
    /// That of the extra data.
    Extra,
}

/// Why a proof isn't accepted, in the order in which it is found.
#[derive(Clone, Copy, Debug)]
pub enum Refusal {
    /// It isn't UTF-8.
    NotText,
    /// It has a line that is wrong.
    Proof(ProofFault),
    /// The policy doesn't trust its checkpoint.
    Trust(TrustFault),
    /// The entry isn't at its index.
    Entry(EntryFault),
    /// Memory ran out.
    OutOfMemory,
}

/// Why there is no proof, or why it isn't accepted.
#[derive(Clone, Copy, Debug)]
pub enum ProveFault {
    /// A fault that `fetch` has, too.
    Fetch(FetchFault),
    /// A file failed.
    File(NamedFile, DeviceFault),
    /// The policy's file isn't UTF-8.
    PolicyNotText,
    /// The text of the policy is none.
    Policy(PolicyFault),
    /// The proof isn't accepted.
    Refused(Refusal),
    /// The policy doesn't trust the log's checkpoint.
    Untrusted(TrustFault),
    /// The log doesn't have the entry.
    NoEntry,
    /// The proof has no extra data.
    NoExtra,
    /// The log didn't take the entry.
    NotPosted(DeviceFault),
    /// The log's answer to the entry isn't an index.
    NoIndex,
    /// No checkpoint that the policy trusts has the entry in time.
    TooLate,
}

impl ProveFault {
    /// Returns the fault of a file: that memory ran out, or else which file failed, and why.
    pub(crate) fn of_file(which: NamedFile, why: DeviceFault) -> ProveFault
        ensures { result ≡ after_file which why }
    {
        match why {
            DeviceFault::OutOfMemory => ProveFault::from(AllocError),
            _ => ProveFault::File(which, why),
        }
    }
}

impl Display for Refusal {
    ghost use Rattle.std.specs.Prelude.{Some};
    ghost use Rattle.tl_prove.specs.FaultWords.{refusal_words};

    ghost output = { λ fault. Some (refusal_words fault) };

    fn fmt<W: fmt::Write>(&self, f: &mut Formatter<W>) -> fmt::Result {
        match self {
            Refusal::NotText => f.write_str("the proof isn't UTF-8"),
            Refusal::Proof(fault) => fault.fmt(f),
            Refusal::Trust(fault) => fault.fmt(f),
            Refusal::Entry(fault) => fault.fmt(f),
            Refusal::OutOfMemory => f.write_str("out of memory"),
        }
    }
}

impl Error for Refusal {}

impl Display for ProveFault {
    ghost use Rattle.std.specs.Prelude.{Some};
    ghost use Rattle.tl_prove.specs.FaultWords.{prove_words};

    ghost output = { λ fault. Some (prove_words fault) };

    fn fmt<W: fmt::Write>(&self, f: &mut Formatter<W>) -> fmt::Result {
        match self {
            ProveFault::Fetch(fault) => fault.fmt(f),
            ProveFault::File(_, why) => why.fmt(f),
            ProveFault::PolicyNotText => f.write_str("not UTF-8"),
            ProveFault::Policy(fault) => fault.fmt(f),
            ProveFault::Refused(why) => why.fmt(f),
            ProveFault::Untrusted(fault) => fault.fmt(f),
            ProveFault::NoEntry => f.write_str("no such entry"),
            ProveFault::NoExtra => f.write_str("the proof has no extra data"),
            ProveFault::NotPosted(why) => why.fmt(f),
            ProveFault::NoIndex => f.write_str("the log's answer isn't an index"),
            ProveFault::TooLate => f.write_str("no checkpoint has the entry in time"),
        }
    }
}

impl Error for ProveFault {}

impl From<FetchFault> for ProveFault {
    ghost use Rattle.tl_prove.specs.declared.fault.ProveFault.TheVariants.{Fetch};

    ghost from_gives = { λ fetch fault. fault ≡ Fetch fetch };

    fn from(fault: FetchFault) -> ProveFault {
        ProveFault::Fetch(fault)
    }
}

impl From<RunFault> for ProveFault {
    ghost use Rattle.tl_fetch.specs.declared.fault.FetchFault.TheVariants as fetch;
    ghost use Rattle.tl_prove.specs.declared.fault.ProveFault.TheVariants.{Fetch};

    ghost from_gives = { λ run fault. fault ≡ Fetch (fetch.Run run) };

    fn from(fault: RunFault) -> ProveFault {
        ProveFault::Fetch(FetchFault::Run(fault))
    }
}

impl From<AllocError> for ProveFault {
    ghost use Rattle.tl_prove.specs.Faults.{out_of_memory};

    ghost from_gives = { λ _ fault. fault ≡ out_of_memory };

    fn from(_fault: AllocError) -> ProveFault {
        ProveFault::Fetch(FetchFault::Run(RunFault::OutOfMemory))
    }
}

impl<X: Drop> From<AllocFailed<X>> for ProveFault {
    ghost use Rattle.tl_prove.specs.Faults.{out_of_memory};

    ghost from_gives = { λ _ fault. fault ≡ out_of_memory };

    fn from(_fault: AllocFailed<X>) -> ProveFault {
        ProveFault::Fetch(FetchFault::Run(RunFault::OutOfMemory))
    }
}

/// Returns the exit status of a fault: that of `fetch` for its faults; 3 if a file failed, or the log didn't answer
/// or not in time; else 1. It allocates nothing.
pub fn prove_exit_of(fault: &ProveFault) -> u8
    ensures { result ≡ prove_status fault.now }
{
    match fault {
        ProveFault::Fetch(fault) => fetch_exit_of(fault),
        ProveFault::File(_, why) => exit_of(&RunFault::Device(Place::File, *why)),
        ProveFault::NotPosted(_) | ProveFault::TooLate => 3,
        _ => 1,
    }
}
