//! Why the file of logs isn't read.

use std::error::Error;
use std::fmt::{self, Display, Formatter};

/// Why the file of logs isn't read. Lines are counted from 1.
#[derive(Clone, Copy, Debug, PartialEq, Eq)]
pub enum LogsFault {
    /// This line, the first bad one, has no form that a line of the file may have. In a list, the log that begins with
    /// this line, the first bad one, has no right key or name.
    Malformed(u64),
    /// This line, the first bad one, gives a log a key that the log already has, or begins such a log of a list.
    Twice(u64),
    /// Allocation failed.
    OutOfMemory,
}

impl Display for LogsFault {
    ghost use Rattle.std.specs.Prelude.{Some};
    ghost use Rattle.tl_logs.specs.FaultWords.{logs_words};

    ghost output = { λ fault. Some (logs_words fault) };

    fn fmt<W: fmt::Write>(&self, f: &mut Formatter<W>) -> fmt::Result {
        match self {
            LogsFault::Malformed(line) => write!(f, "line {line} malformed"),
            LogsFault::Twice(line) => write!(f, "line {line} has a key again"),
            LogsFault::OutOfMemory => f.write_str("out of memory"),
        }
    }
}

impl Error for LogsFault {}
