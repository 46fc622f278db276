//! Faults of the commands `fetch` and `feed`.

ghost use Rattle.std.specs.Prelude.{◌≡◌, IfOk, Some, option_map, string_bytes};
ghost use Rattle.tl_fetch.specs.FaultWords.{fetch_status, fetch_text, uncompared_words};

use std::alloc::{AllocError, AllocFailed, Allocator};
use std::error::Error;
use std::fmt::{self, Display, Formatter};
use tl_policy::TrustFault;
use tl_run::{RunFault, exit_of, fault_line};

/// An address that the options name.
#[derive(Clone, Copy, Debug, PartialEq, Eq)]
pub enum Address {
    /// The address that the log is read from.
    From,
    /// The address of the witness with this index, counted from 0.
    To(u64),
}

/// Why nothing, or not everything, was fetched from a log that isn't trusted.
#[derive(Clone, Copy, Debug)]
pub enum FetchFault {
    /// A fault that other commands have, too.
    Run(RunFault),
    /// This address isn't one over HTTP.
    BadAddress(Address),
    /// The second key of the log has another name than the first, or is the same public key.
    OtherKey,
    /// The text with this index, counted from 0, is no witness's key.
    BadWitness(u64),
    /// The witness's key with this index, counted from 0, is the public key of the log or of a key before it.
    SharedKey(u64),
    /// The source doesn't have a resource; no more is known.
    Unavailable,
    /// The checkpoint is signed, and names another log.
    OtherLog,
    /// Only this many witnesses cosigned the checkpoint.
    TooFew(u64),
    /// The text of a policy doesn't trust the checkpoint.
    Untrusted(TrustFault),
    /// None of the witnesses cosigned the checkpoint at this time, in seconds since 1970, or later.
    Stale(u64),
    /// This tile isn't the one that the root was made with.
    BadTile {
        /// Its level.
        level: u32,
        /// Its index.
        index: u64,
        /// How many hashes it has.
        width: u32,
    },
    /// The entry bundle with this index is malformed or of another width.
    BadBundle(u64),
    /// The entry with this index isn't the one that the root was made with.
    BadEntry(u64),
    /// The checkpoint is smaller than the one that was trusted last.
    Older {
        /// Its number of entries.
        size: u64,
        /// The number of entries of the checkpoint that was trusted last.
        of: u64,
        /// Whether its tree was shown to be the beginning of the other's. If not, the two weren't compared.
        compared: bool,
    },
    /// Neither of two trees, the checkpoint's and that of the one trusted last, begins with the other.
    Forked,
}

// Returns the words that say whether an older checkpoint was compared.
fn words_of(compared: bool) -> &'static str
    ensures { result.now ≡ uncompared_words compared }
{
    if compared { "" } else { " (not compared)" }
}

impl Display for FetchFault {
    ghost use Rattle.tl_fetch.specs.FaultWords.{fetch_words};

    ghost output = { λ fault. Some (fetch_words fault) };

    fn fmt<W: fmt::Write>(&self, f: &mut Formatter<W>) -> fmt::Result {
        let words = match self {
            FetchFault::Run(fault) => return fault.fmt(f),
            FetchFault::BadAddress(_) => "bad address",
            FetchFault::OtherKey => "second key isn't another key of the log",
            FetchFault::BadWitness(k) => return write!(f, "bad key of witness {k}"),
            FetchFault::SharedKey(k) => return write!(f, "witness {k} has the key of another"),
            FetchFault::Unavailable => "not available",
            FetchFault::OtherLog => "checkpoint of another log",
            FetchFault::TooFew(n) => return write!(f, "cosigned by {n} witnesses"),
            FetchFault::Untrusted(why) => return why.fmt(f),
            FetchFault::Stale(time) => return write!(f, "checkpoint not cosigned since {time}"),
            FetchFault::BadTile {
                level,
                index,
                width,
            } => return write!(f, "tile {level} {index} {width} wrong"),
            FetchFault::BadBundle(i) => return write!(f, "entry bundle {i} malformed"),
            FetchFault::BadEntry(i) => return write!(f, "entry {i} wrong"),
            FetchFault::Older { size, of, compared } => {
                let more = words_of(*compared);
                return write!(f, "older checkpoint: {size} of {of}{more}");
            }
            FetchFault::Forked => "log forked",
        };
        f.write_str(words)
    }
}

impl Error for FetchFault {}

impl From<RunFault> for FetchFault {
    ghost use Rattle.tl_fetch.specs.declared.fault.FetchFault.TheVariants.{Run};

    ghost from_gives = { λ run fault. fault ≡ Run run };

    fn from(fault: RunFault) -> FetchFault {
        FetchFault::Run(fault)
    }
}

impl From<AllocError> for FetchFault {
    ghost use Rattle.tl_run.specs.declared.fault.RunFault.TheVariants.{OutOfMemory};
    ghost use Rattle.tl_fetch.specs.declared.fault.FetchFault.TheVariants.{Run};

    ghost from_gives = { λ _ fault. fault ≡ Run OutOfMemory };

    fn from(_fault: AllocError) -> FetchFault {
        FetchFault::Run(RunFault::OutOfMemory)
    }
}

impl<X: Drop> From<AllocFailed<X>> for FetchFault {
    ghost use Rattle.tl_run.specs.declared.fault.RunFault.TheVariants.{OutOfMemory};
    ghost use Rattle.tl_fetch.specs.declared.fault.FetchFault.TheVariants.{Run};

    ghost from_gives = { λ _ fault. fault ≡ Run OutOfMemory };

    fn from(_fault: AllocFailed<X>) -> FetchFault {
        FetchFault::Run(RunFault::OutOfMemory)
    }
}

/// Returns the exit status of a fault: 4 if the log forked; 3 if a device failed, or a source didn't answer, or its
/// checkpoint is older or not fresh; else 1. It allocates nothing.
pub fn fetch_exit_of(fault: &FetchFault) -> u8
    ensures { result ≡ fetch_status fault.now }
{
    match fault {
        FetchFault::Run(fault) => exit_of(fault),
        FetchFault::Unavailable | FetchFault::Older { .. } | FetchFault::Stale(_) => 3,
        FetchFault::Forked => 4,
        _ => 1,
    }
}

/// Returns the line of a fault on standard error, without its newline, if it has one. It fails only if allocation
/// fails.
pub fn fetch_fault_line<A: Allocator>(
    alloc: A,
    fault: &FetchFault,
) -> Result<Option<String<A>>, AllocError>
    ensures { IfOk result (λ line. option_map string_bytes line ≡ fetch_text fault.now) }
{
    match fault {
        FetchFault::Run(fault) => fault_line(alloc, fault),
        _ => Ok(Some(format!(in alloc; "tlog: {fault}")?)),
    }
}
