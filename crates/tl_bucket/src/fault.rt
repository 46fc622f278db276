//! Why a bucket failed.

ghost use Rattle.std.specs.Prelude.{◌≡◌};
ghost use Rattle.tl_bucket.specs.declared.fault.BucketFault.TheVariants as faults;
ghost use Rattle.tl_device.specs.declared.fault.DeviceFault.TheVariants.{OutOfMemory};

use std::alloc::{AllocError, AllocFailed};
use std::error::Error;
use std::fmt::{self, Display, Formatter};
use tl_device::DeviceFault;
use tl_http::HttpFault;
use tl_s3::ObjectFault;

/// Why a bucket failed.
#[derive(Clone, Copy, Debug, PartialEq, Eq)]
pub enum BucketFault {
    /// The store can't be reached, refused, or gave an answer that isn't one about an object.
    Device(DeviceFault),
    /// The store rejects the time of a request: the clock is off.
    ClockIsOff,
    /// The store doesn't keep conditions: it does a put whose condition doesn't hold, or takes no conditional puts.
    NoConditions,
    /// Another operator has put what was to be put.
    Outrun,
    /// The commit with this number has bytes that aren't a commit's, or doesn't continue the log.
    BadCommit(u64),
    /// There is no log to go on from.
    NothingThere,
}

impl BucketFault {
    /// Returns why a request failed, given whether its time was over.
    pub(crate) fn of_request(fault: ObjectFault, is_late: bool) -> BucketFault {
        BucketFault::Device(match fault {
            ObjectFault::OutOfMemory | ObjectFault::Get(HttpFault::OutOfMemory) =>
                DeviceFault::OutOfMemory,
            ObjectFault::BadField | ObjectFault::Get(HttpFault::BadTarget) => DeviceFault::System,
            ObjectFault::Get(HttpFault::Read | HttpFault::Write) if is_late =>
                DeviceFault::TimedOut,
            ObjectFault::Get(HttpFault::Read | HttpFault::Write) => DeviceFault::Broken,
            ObjectFault::Get(HttpFault::NoHead | HttpFault::Version) => DeviceFault::NotHttp,
            ObjectFault::Get(HttpFault::Status(507)) => DeviceFault::Full,
            ObjectFault::Get(HttpFault::Status(status)) => DeviceFault::Status(status),
            ObjectFault::Get(HttpFault::Encoded) => DeviceFault::Encoded,
            ObjectFault::Get(HttpFault::BadLength) => DeviceFault::BadLength,
            ObjectFault::Get(HttpFault::BadChunk) => DeviceFault::BadChunk,
            ObjectFault::Get(HttpFault::TooLarge) => DeviceFault::TooLarge,
            ObjectFault::Get(HttpFault::Short) => DeviceFault::CutShort,
        })
    }

    /// Reports whether the same request may succeed later.
    pub(crate) fn is_passing(&self) -> bool {
        match self {
            BucketFault::Device(DeviceFault::Status(status)) => {
                *status >= 500 || *status == 408 || *status == 409 || *status == 429
            }
            BucketFault::Device(fault) => match fault {
                DeviceFault::NoConnection
                | DeviceFault::Unreachable
                | DeviceFault::TimedOut
                | DeviceFault::Broken
                | DeviceFault::NotHttp
                | DeviceFault::CutShort => true,
                _ => false,
            },
            _ => false,
        }
    }

    /// Returns the fault as that of a shelf.
    pub fn of_shelf(self) -> DeviceFault {
        match self {
            BucketFault::Device(fault) => fault,
            BucketFault::ClockIsOff => DeviceFault::Denied,
            BucketFault::NoConditions => DeviceFault::System,
            BucketFault::Outrun => DeviceFault::Busy,
            BucketFault::BadCommit(_) => DeviceFault::Damaged,
            BucketFault::NothingThere => DeviceFault::NotThere,
        }
    }
}

impl From<DeviceFault> for BucketFault {
    ghost from_gives = { λ fault told. told ≡ faults.Device fault };

    fn from(fault: DeviceFault) -> BucketFault {
        BucketFault::Device(fault)
    }
}

impl From<AllocError> for BucketFault {
    ghost from_gives = { λ _ fault. fault ≡ faults.Device OutOfMemory };

    fn from(_error: AllocError) -> BucketFault {
        BucketFault::Device(DeviceFault::OutOfMemory)
    }
}

impl<X: Drop> From<AllocFailed<X>> for BucketFault {
    ghost from_gives = { λ _ fault. fault ≡ faults.Device OutOfMemory };

    fn from(_error: AllocFailed<X>) -> BucketFault {
        BucketFault::Device(DeviceFault::OutOfMemory)
    }
}

impl Display for BucketFault {
    ghost use Rattle.std.specs.Prelude.{Some};
    ghost use Rattle.tl_bucket.specs.FaultWords.{bucket_words};

    ghost output = { λ fault. Some (bucket_words fault) };

    fn fmt<W: fmt::Write>(&self, f: &mut Formatter<W>) -> fmt::Result {
        let words = match self {
            BucketFault::Device(fault) => return write!(f, "{fault}"),
            BucketFault::ClockIsOff => "the clock is more than 15 minutes off",
            BucketFault::NoConditions => "the store takes no conditional puts",
            BucketFault::Outrun => "another operator has appended",
            BucketFault::BadCommit(number) => return write!(f, "commit {number} is damaged"),
            BucketFault::NothingThere => "no log there (use --new to begin one)",
        };
        f.write_str(words)
    }
}

impl Error for BucketFault {}
