//! The calls of a bucket so far, for clauses alone.

ghost use Rattle.std.specs.Prelude.{◌≡◌, [], ◌∷◌, ◌++◌, map};
ghost use Rattle.tl_folder.specs.Events.{noted};

use http_server::Log;
use std::marker::Model;
use tl_folder::CallOutcome;

/// The outcome of each call so far. It allocates nothing.
#[derive(Drop)]
pub(crate) struct Record {
    log: Log<CallOutcome, Log<(), u8>>,
}

impl Model for Record {
    ghost use Rattle.std.specs.Prelude.{List, map};
    ghost use Rattle.tl_folder.specs.Events as seen;

    ghost Value = { List seen.Event };

    ghost view = { λ r. map seen.event_of r.log.items };
}

// Appends bytes to a record, for clauses alone.
fn note_bytes(note: &mut Log<(), u8>, bytes: &[u8])
    ensures { noted note.new ≡ noted note.old ++ bytes.now }
{
    for byte in bytes {
        *note = note.and(&(), byte);
    }
}

/// Records bytes, for clauses alone.
pub(crate) fn note_of(bytes: &[u8]) -> Log<(), u8>
    ensures { noted result ≡ bytes.now }
{
    let mut note = Log::new();
    note_bytes(&mut note, bytes);
    note
}

impl Record {
    /// Creates a record of no calls.
    pub(crate) fn new() -> Record
        ensures { result ≡ [] }
    {
        Record { log: Log::new() }
    }

    /// Records the outcome of a call, and the bytes that it staged.
    pub(crate) fn note(&mut self, call: CallOutcome, bytes: &[u8])
        ensures { self.new ≡ self.old ++ (call, bytes.now) ∷ [] }
    {
        self.log = self.log.and(&call, &note_of(bytes));
    }
}
