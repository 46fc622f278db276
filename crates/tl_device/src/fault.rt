//! Why a file, a folder or a host failed.

ghost use Rattle.std.specs.Prelude.{◌≡◌};
ghost use Rattle.std.specs.IoError.{error_kind};
ghost use Rattle.tl_device.specs.Faults.{after_input, after_kind};
ghost use Rattle.tl_device.specs.declared.fault.DeviceFault.TheVariants.{OutOfMemory};

use crate::counted::InputFault;
use std::alloc::{AllocError, AllocFailed};
use std::error::Error;
use std::fmt::{self, Display, Formatter};
use std::io::{self, ErrorKind};

/// Why a file, a folder or a host failed.
#[derive(Clone, Copy, Debug, PartialEq, Eq)]
pub enum DeviceFault {
    /// There is nothing at the path.
    NotThere,
    /// There is something already.
    Taken,
    /// The system doesn't permit it.
    Denied,
    /// The file system is read only.
    ReadOnly,
    /// There is no space left.
    Full,
    /// Something other than a plain file is there: a link, a folder, a pipe or a device.
    NotPlain,
    /// Something other than a folder is there.
    NotFolder,
    /// The file or folder that was opened is no longer at its path.
    Moved,
    /// Another process holds the lock.
    Busy,
    /// It has more bytes than the limit.
    TooLarge,
    /// Its bytes aren't what they must be.
    Damaged,
    /// A newer one was there before.
    Older,
    /// The name of the host can't be looked up.
    NoHost,
    /// Nobody listens at the address.
    NoConnection,
    /// The host can't be reached.
    Unreachable,
    /// It took too long.
    TimedOut,
    /// The connection broke.
    Broken,
    /// The host answered with this status, which isn't 200.
    Status(u16),
    /// The host's answer isn't a response of HTTP/1.0 or HTTP/1.1.
    NotHttp,
    /// The body of the response is encoded.
    Encoded,
    /// The response doesn't say how long its body is.
    BadLength,
    /// A chunk of the body isn't well formed.
    BadChunk,
    /// The connection ended before the body of the response did.
    CutShort,
    /// Allocation failed.
    OutOfMemory,
    /// The system failed in another way.
    System,
}

impl From<io::Error> for DeviceFault {
    ghost from_gives = { λ error fault. fault ≡ after_kind (error_kind error) };

    fn from(error: io::Error) -> DeviceFault {
        match error.kind() {
            ErrorKind::NotFound => DeviceFault::NotThere,
            ErrorKind::AlreadyExists => DeviceFault::Taken,
            ErrorKind::PermissionDenied => DeviceFault::Denied,
            ErrorKind::ReadOnlyFilesystem => DeviceFault::ReadOnly,
            ErrorKind::StorageFull | ErrorKind::QuotaExceeded | ErrorKind::FileTooLarge => {
                DeviceFault::Full
            }
            ErrorKind::IsADirectory => DeviceFault::NotPlain,
            ErrorKind::NotADirectory => DeviceFault::NotFolder,
            ErrorKind::ConnectionRefused => DeviceFault::NoConnection,
            ErrorKind::HostUnreachable | ErrorKind::NetworkUnreachable | ErrorKind::NetworkDown =>
                DeviceFault::Unreachable,
            ErrorKind::TimedOut => DeviceFault::TimedOut,
            ErrorKind::ConnectionReset | ErrorKind::ConnectionAborted | ErrorKind::BrokenPipe => {
                DeviceFault::Broken
            }
            ErrorKind::OutOfMemory => DeviceFault::OutOfMemory,
            _ => DeviceFault::System,
        }
    }
}

impl From<AllocError> for DeviceFault {
    ghost from_gives = { λ _ fault. fault ≡ OutOfMemory };

    fn from(_error: AllocError) -> DeviceFault {
        DeviceFault::OutOfMemory
    }
}

impl<X: Drop> From<AllocFailed<X>> for DeviceFault {
    ghost from_gives = { λ _ fault. fault ≡ OutOfMemory };

    fn from(_error: AllocFailed<X>) -> DeviceFault {
        DeviceFault::OutOfMemory
    }
}

impl From<InputFault> for DeviceFault {
    ghost from_gives = { λ fault wider. wider ≡ after_input fault };

    fn from(fault: InputFault) -> DeviceFault {
        match fault {
            InputFault::Read => DeviceFault::System,
            InputFault::TooLarge => DeviceFault::TooLarge,
            InputFault::OutOfMemory => DeviceFault::OutOfMemory,
        }
    }
}

impl Display for DeviceFault {
    ghost use Rattle.std.specs.Prelude.{Some};
    ghost use Rattle.tl_device.specs.Faults.{device_words};

    ghost output = { λ fault. Some (device_words fault) };

    fn fmt<W: fmt::Write>(&self, f: &mut Formatter<W>) -> fmt::Result {
        let words = match self {
            DeviceFault::NotThere => "not there",
            DeviceFault::Taken => "already there",
            DeviceFault::Denied => "permission denied",
            DeviceFault::ReadOnly => "read-only file system",
            DeviceFault::Full => "no space left",
            DeviceFault::NotPlain => "not a plain file",
            DeviceFault::NotFolder => "not a folder",
            DeviceFault::Moved => "no longer at its path",
            DeviceFault::Busy => "in use",
            DeviceFault::TooLarge => "too large",
            DeviceFault::Damaged => "damaged",
            DeviceFault::Older => "older than one that was there",
            DeviceFault::NoHost => "no such host",
            DeviceFault::NoConnection => "connection refused",
            DeviceFault::Unreachable => "unreachable",
            DeviceFault::TimedOut => "timed out",
            DeviceFault::Broken => "connection broken",
            DeviceFault::Status(status) => return write!(f, "{status}"),
            DeviceFault::NotHttp => "no response over HTTP",
            DeviceFault::Encoded => "encoded body",
            DeviceFault::BadLength => "body of no clear length",
            DeviceFault::BadChunk => "malformed chunk",
            DeviceFault::CutShort => "body cut short",
            DeviceFault::OutOfMemory => "out of memory",
            DeviceFault::System => "input/output error",
        };
        f.write_str(words)
    }
}

impl Error for DeviceFault {}
