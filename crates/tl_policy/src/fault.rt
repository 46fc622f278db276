//! Why a text is no policy's.

ghost use Rattle.std.specs.Prelude.{◌≡◌};
ghost use Rattle.tl_policy.specs.FaultWords.{policy_words};
ghost use Rattle.tl_policy.specs.Inner.Told.{told};
ghost use Rattle.tl_policy.specs.declared.fault.PolicyFault.TheVariants.{OutOfMemory};

use std::alloc::{AllocError, AllocFailed};
use std::error::Error;
use std::fmt::{self, Display, Formatter};

/// Why a text is no policy's. Lines are counted from 1. The first line that is wrong decides, and in it what stands
/// first here; members are looked at one by one, and the name of a second quorum isn't.
#[derive(Copy, Debug)]
pub enum PolicyFault {
    /// The line begins with another word, or has too few words or too many.
    Malformed(u64),
    /// The line gives a name that is given already, or `none`.
    TwiceNamed(u64),
    /// The key isn't the text of a key of its kind.
    BadKey(u64),
    /// The public key is that of an earlier line.
    TwiceKeyed(u64),
    /// There are 1024 groups before this line's.
    TooManyGroups(u64),
    /// No earlier line has this name.
    UnknownMember(u64),
    /// A member stands in a group already.
    TwiceMember(u64),
    /// The threshold isn't `any`, `all` or a number from 1 to that of the members.
    BadThreshold(u64),
    /// The line is a second quorum.
    SecondQuorum(u64),
    /// No line is a log.
    NoLog,
    /// No line is a quorum.
    NoQuorum,
    /// Memory ran out.
    OutOfMemory,
}

impl Clone for PolicyFault {
    fn clone(&self) -> Result<PolicyFault, AllocError> {
        Ok(*self)
    }
}

// The line of a fault, if it is of one, and what is wrong.
fn parts(fault: &PolicyFault) -> (Option<u64>, &'static str)
    ensures { told result.0 result.1.now ≡ policy_words fault.now }
{
    match fault {
        PolicyFault::Malformed(line) => (Some(*line), "malformed"),
        PolicyFault::TwiceNamed(line) => (Some(*line), "name given twice"),
        PolicyFault::BadKey(line) => (Some(*line), "bad key"),
        PolicyFault::TwiceKeyed(line) => (Some(*line), "key given twice"),
        PolicyFault::TooManyGroups(line) => (Some(*line), "more than 1024 groups"),
        PolicyFault::UnknownMember(line) => (Some(*line), "unknown member"),
        PolicyFault::TwiceMember(line) => (Some(*line), "member of two groups"),
        PolicyFault::BadThreshold(line) => (Some(*line), "bad threshold"),
        PolicyFault::SecondQuorum(line) => (Some(*line), "second quorum"),
        PolicyFault::NoLog => (None, "no log"),
        PolicyFault::NoQuorum => (None, "no quorum"),
        PolicyFault::OutOfMemory => (None, "out of memory"),
    }
}

impl Display for PolicyFault {
    ghost use Rattle.std.specs.Prelude.{Some};

    ghost output = { λ fault. Some (policy_words fault) };

    fn fmt<W: fmt::Write>(&self, f: &mut Formatter<W>) -> fmt::Result {
        match parts(self) {
            (Some(line), words) => write!(f, "line {line}: {words}"),
            (None, words) => f.write_str(words),
        }
    }
}

impl Error for PolicyFault {}

impl From<AllocError> for PolicyFault {
    ghost from_gives = { λ _ fault. fault ≡ OutOfMemory };

    fn from(_fault: AllocError) -> PolicyFault {
        PolicyFault::OutOfMemory
    }
}

impl<X: Drop> From<AllocFailed<X>> for PolicyFault {
    ghost from_gives = { λ _ fault. fault ≡ OutOfMemory };

    fn from(_fault: AllocFailed<X>) -> PolicyFault {
        PolicyFault::OutOfMemory
    }
}
