//! The faults of the commands, their lines on standard error, and their exit statuses.

ghost use Rattle.std.specs.Prelude.{◌≡◌, IfOk, Some, option_map, string_bytes};
ghost use Rattle.tl_run.specs.Faults.{after_device, device_status, exit_status, fault_text};

use crate::place::Place;
use std::alloc::{AllocError, AllocFailed, Allocator};
use std::error::Error;
use std::fmt::{self, Display, Formatter};
use tl_device::DeviceFault;

/// Why a command ends without success. The order is that of the numbers which documents and scripts may use.
#[derive(Clone, Copy, Debug, PartialEq, Eq)]
pub enum RunFault {
    /// The answer is no; it was printed on standard output.
    Refused,
    /// A read failed.
    Read,
    /// A write failed, or took no byte.
    Write,
    /// The input has more bytes than a command reads.
    TooLarge,
    /// The entry at this index has more than 65,535 bytes.
    EntryTooLong(u64),
    /// The origin can't be the name of a log.
    BadOrigin,
    /// There is no entry at the index.
    BadIndex,
    /// The old size is above the number of entries.
    BadOld,
    /// No resource has the path.
    BadPath,
    /// The log doesn't have the resource.
    NotThere,
    /// The input isn't a text that the command reads.
    Malformed,
    /// The line, chain or link with this index isn't accepted.
    Chain(u64),
    /// The signer gave no signature.
    Sign,
    /// The operator refused in another way.
    Operator,
    /// The address can't be listened at.
    Listen,
    /// A connection couldn't be accepted.
    Accept,
    /// Memory ran out.
    OutOfMemory,
    /// The name can't be that of a key.
    BadName,
    /// The text of an option isn't that of a key.
    BadKey,
    /// The bytes at this place are no signed checkpoint.
    BadCheckpoint(Place),
    /// The signature line with this index, counted from 0, is wrong.
    WrongSignature(u64),
    /// The note is signed by other keys only: no signature line is of a given key.
    Unverified,
    /// A file, a folder or a host that the options name failed.
    Device(Place, DeviceFault),
    /// The key file has no key of the type asked for.
    BadKeyFile,
    /// There is nothing at this place to go on from.
    NothingThere(Place),
}

impl RunFault {
    /// Returns the fault of a device at this place: `OutOfMemory` if memory ran out, else `Device`.
    pub fn of_device(place: Place, fault: DeviceFault) -> RunFault
        ensures { result ≡ after_device place fault }
    {
        match fault {
            DeviceFault::OutOfMemory => RunFault::OutOfMemory,
            _ => RunFault::Device(place, fault),
        }
    }
}

impl Display for RunFault {
    ghost use Rattle.tl_run.specs.Faults.{fault_words};

    ghost output = { λ fault. Some (fault_words fault) };

    fn fmt<W: fmt::Write>(&self, f: &mut Formatter<W>) -> fmt::Result {
        let words = match self {
            RunFault::Refused => "refused",
            RunFault::Read => "read failed",
            RunFault::Write => "write failed",
            RunFault::TooLarge => "input too large",
            RunFault::EntryTooLong(i) => return write!(f, "entry {i} too long"),
            RunFault::BadOrigin => "bad origin",
            RunFault::BadIndex => "bad index",
            RunFault::BadOld => "bad old size",
            RunFault::BadPath => "bad path",
            RunFault::NotThere => "not there",
            RunFault::Malformed => "malformed input",
            RunFault::Chain(k) => return write!(f, "chain {k} refused"),
            RunFault::Sign => "signing failed",
            RunFault::Operator => "operator refused",
            RunFault::Listen => "listen failed",
            RunFault::Accept => "accept failed",
            RunFault::OutOfMemory => "out of memory",
            RunFault::BadName => "bad name",
            RunFault::BadKey => "bad key",
            RunFault::BadCheckpoint(place) => return write!(f, "{place}: bad checkpoint"),
            RunFault::WrongSignature(k) => return write!(f, "signature {k} wrong"),
            RunFault::Unverified => "signed by another key",
            RunFault::Device(place, fault) => return write!(f, "{place}: {fault}"),
            RunFault::BadKeyFile => "file: bad key",
            RunFault::NothingThere(place) => {
                return write!(f, "{place}: no {place} there (use --new to begin one)");
            }
        };
        f.write_str(words)
    }
}

impl Error for RunFault {}

impl From<AllocError> for RunFault {
    ghost use Rattle.tl_run.specs.declared.fault.RunFault.TheVariants.{OutOfMemory};

    ghost from_gives = { λ _ fault. fault ≡ OutOfMemory };

    fn from(_fault: AllocError) -> RunFault {
        RunFault::OutOfMemory
    }
}

impl<X: Drop> From<AllocFailed<X>> for RunFault {
    ghost use Rattle.tl_run.specs.declared.fault.RunFault.TheVariants.{OutOfMemory};

    ghost from_gives = { λ _ fault. fault ≡ OutOfMemory };

    fn from(_fault: AllocFailed<X>) -> RunFault {
        RunFault::OutOfMemory
    }
}

/// Returns the line of a fault on standard error, without its newline, or None for `Refused`, whose answer is on
/// standard output. It fails only if allocation fails.
pub fn fault_line<A: Allocator>(alloc: A, fault: &RunFault) -> Result<Option<String<A>>, AllocError>
    ensures { IfOk result (λ line. option_map string_bytes line ≡ fault_text fault.now) }
{
    match fault {
        RunFault::Refused => Ok(None),
        _ => Ok(Some(format!(in alloc; "tlog: {fault}")?)),
    }
}

// Returns the exit status of a fault of a device: 1 if the device is in use, holds what isn't accepted, or memory ran
// out, else 3.
fn exit_of_device(fault: &DeviceFault) -> u8
    ensures { result ≡ device_status fault.now }
{
    match fault {
        DeviceFault::Taken
        | DeviceFault::Busy
        | DeviceFault::TooLarge
        | DeviceFault::Damaged
        | DeviceFault::Older
        | DeviceFault::OutOfMemory => 1,
        _ => 3,
    }
}

/// Returns the exit status of a fault: 3 if a device failed or a source gave nothing, else 1. It allocates nothing.
pub fn exit_of(fault: &RunFault) -> u8
    ensures { result ≡ exit_status fault.now }
{
    match fault {
        RunFault::Read | RunFault::Write | RunFault::Listen | RunFault::Accept => 3,
        RunFault::Device(Place::Source(_), _) => 3,
        RunFault::Device(_, fault) => exit_of_device(fault),
        _ => 1,
    }
}
