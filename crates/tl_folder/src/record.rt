//! The calls of a folder so far. Only contracts see them.

ghost use Rattle.std.specs.Prelude.{◌≡◌, [], ◌∷◌, ◌++◌, map};
ghost use Rattle.tl_folder.specs.Events.{noted};

use crate::call_outcome::CallOutcome;
use http_server::Log;
use std::marker::Model;

/// The outcome of each call so far. It takes no memory at run time.
#[derive(Drop)]
pub(crate) struct Record {
    log: Log<CallOutcome, Log<(), u8>>,
}

impl Model for Record {
    ghost use Rattle.std.specs.Prelude.{List, map};
    ghost use Rattle.tl_folder.specs.Events as seen;

    ghost Value = { List seen.Event };

    ghost view = { λ r. map seen.event_of r.log.items };
}

/// Adds bytes to a note that only contracts see.
pub(crate) fn note_bytes(note: &mut Log<(), u8>, bytes: &[u8])
    ensures { noted note.new ≡ noted note.old ++ bytes.now }
{
    for byte in bytes {
        *note = note.and(&(), byte);
    }
}

/// Returns a note of bytes.
pub(crate) fn note_of(bytes: &[u8]) -> Log<(), u8>
    ensures { noted result ≡ bytes.now }
{
    let mut note = Log::new();
    note_bytes(&mut note, bytes);
    note
}

impl Record {
    /// Returns an empty record.
    pub(crate) fn new() -> Record
        ensures { result ≡ [] }
    {
        Record { log: Log::new() }
    }

    /// Adds the outcome of a call, with the bytes that it staged.
    pub(crate) fn note(&mut self, step: CallOutcome, bytes: &[u8])
        ensures { self.new ≡ self.old ++ (step, bytes.now) ∷ [] }
    {
        let mut note = Log::new();
        note_bytes(&mut note, bytes);
        self.log = self.log.and(&step, &note);
    }
}
