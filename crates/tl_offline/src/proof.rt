//! A proof, and why a text is none.

ghost use Rattle.std.specs.Prelude.{◌≡◌};
ghost use Rattle.tl_offline.specs.FaultWords.{line_words, wrong_line};

use std::alloc::{AllocError, Allocator};
use std::error::Error;
use std::fmt::{self, Display, Formatter};
use tl_hash::Hash;

/// No inclusion proof among fewer than 2^63 entries has more hashes.
pub const MOST_HASHES: usize = 63;

/// A proof that an entry is in a log (C2SP tlog-proof).
#[derive(Drop)]
pub struct OfflineProof<'t, A: Allocator> {
    /// Bytes to which the format gives no meaning, if there is a line of them. No bytes are not the same as no line.
    pub extra: Option<Vec<u8, A>>,
    /// The entry's index in the log, counted from 0, below 2^63.
    pub index: u64,
    /// The inclusion proof (RFC 6962, section 2.1.1), the hash nearest to the leaf first: at most 63 hashes.
    pub hashes: Vec<Hash, A>,
    /// The signed checkpoint, as it stands after the empty line. Nothing but its UTF-8 is checked here: whoever opens
    /// it under keys reports what is wrong with it.
    pub note: &'t str,
}

/// Why a text is no proof: the first line that is wrong, counted from 1.
#[derive(Clone, Copy, Debug, PartialEq, Eq)]
pub enum ProofFault {
    /// Line 1 isn't `c2sp.org/tlog-proof@v1`.
    NoHeader,
    /// Line 2 begins with `extra `, and what follows isn't base64.
    BadExtra,
    /// This line, the second or the one after the extra data, isn't `index ` and a decimal number below 2^63.
    NoIndex(usize),
    /// This line follows at most 63 hashes, and is neither a hash nor empty.
    NoHash(usize),
    /// This line is the 64th hash.
    TooMany(usize),
    /// The text ends before or within this line, which would be a hash or the empty line.
    NoCheckpoint(usize),
    /// Memory ran out. The text is a proof with hashes or extra data.
    OutOfMemory,
}

// Returns the number of the line that is wrong; 0 if memory ran out.
fn wrong_line(fault: &ProofFault) -> usize
    ensures { result ≡ wrong_line fault.now }
{
    match fault {
        ProofFault::NoHeader => 1,
        ProofFault::BadExtra => 2,
        ProofFault::NoIndex(line)
        | ProofFault::NoHash(line)
        | ProofFault::TooMany(line)
        | ProofFault::NoCheckpoint(line) => *line,
        ProofFault::OutOfMemory => 0,
    }
}

// Returns what is wrong with that line.
fn line_words(fault: &ProofFault) -> &'static str
    ensures { result.now ≡ line_words fault.now }
{
    match fault {
        ProofFault::NoHeader => "isn't c2sp.org/tlog-proof@v1",
        ProofFault::BadExtra => "has extra data that aren't base64",
        ProofFault::NoIndex(_) => "isn't an index",
        ProofFault::NoHash(_) => "isn't a hash",
        ProofFault::TooMany(_) => "is one hash too many",
        ProofFault::NoCheckpoint(_) => "is missing: no checkpoint follows",
        ProofFault::OutOfMemory => "",
    }
}

impl Display for ProofFault {
    ghost use Rattle.std.specs.Prelude.{Some};
    ghost use Rattle.tl_offline.specs.FaultWords.{proof_words};

    ghost output = { λ fault. Some (proof_words fault) };

    fn fmt<W: fmt::Write>(&self, f: &mut Formatter<W>) -> fmt::Result {
        match self {
            ProofFault::OutOfMemory => f.write_str("out of memory"),
            _ => write!(f, "line {} {}", wrong_line(self), line_words(self)),
        }
    }
}

impl Error for ProofFault {}

/// Why a proof has no text, in the order in which it is found.
#[derive(Clone, Copy, Debug)]
pub enum WriteFault {
    /// The index is 2^63 or above.
    Index,
    /// There are more than 63 hashes.
    TooMany,
    /// Memory ran out.
    OutOfMemory,
}

impl Display for WriteFault {
    fn fmt<W: fmt::Write>(&self, f: &mut Formatter<W>) -> fmt::Result {
        f.write_str(match self {
            WriteFault::Index => "the index is 2^63 or above",
            WriteFault::TooMany => "more than 63 hashes",
            WriteFault::OutOfMemory => "out of memory",
        })
    }
}

impl Error for WriteFault {}

impl From<AllocError> for WriteFault {
    ghost use Rattle.tl_offline.specs.declared.proof.WriteFault.TheVariants.{OutOfMemory};

    ghost from_gives = { λ _ fault. fault ≡ OutOfMemory };

    fn from(_error: AllocError) -> WriteFault {
        WriteFault::OutOfMemory
    }
}

impl From<AllocError> for ProofFault {
    ghost use Rattle.tl_offline.specs.declared.proof.ProofFault.TheVariants.{OutOfMemory};

    ghost from_gives = { λ _ fault. fault ≡ OutOfMemory };

    fn from(_error: AllocError) -> ProofFault {
        ProofFault::OutOfMemory
    }
}
