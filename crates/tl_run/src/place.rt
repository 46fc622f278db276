//! The file, folder or host at which a device failed.

use std::fmt::{self, Display, Formatter};
use tl_tile::Resource;

/// What the options of a command name on a device: a file, a folder or a host.
#[derive(Clone, Copy, Debug, PartialEq, Eq)]
pub enum Place {
    /// The file of a key or of a checkpoint.
    File,
    /// The file of a witness's lines, or of the checkpoint that a reader trusted last.
    State,
    /// The folder of a log, or a resource in it.
    Log(Option<Resource>),
    /// A resource of the log that is read.
    Source(Resource),
}

impl Display for Place {
    ghost use Rattle.std.specs.Prelude.{Some};
    ghost use Rattle.tl_run.specs.Faults.{place_words};

    ghost output = { λ place. Some (place_words place) };

    fn fmt<W: fmt::Write>(&self, f: &mut Formatter<W>) -> fmt::Result {
        let words = match self {
            Place::File => "file",
            Place::State => "state",
            Place::Log(_) => "log",
            Place::Source(_) => "source",
        };
        f.write_str(words)
    }
}
