//! The system calls made so far. Only contracts see them.

ghost use Rattle.std.specs.Prelude.{◌≡◌, [], ◌∷◌, ◌++◌};

use crate::record::note_bytes;
use http_server::Log;
use std::marker::Model;

/// What the system was asked to do.
#[derive(Clone, Copy)]
pub(crate) enum Asked {
    Write,
    Create,
    Append,
    Cut(u64),
    Sync,
    Remove,
    Rename,
    SyncFolder,
    MakeFolder,
    MoveAway,
    RemoveFolder,
}

/// A call as contracts see it: its path, and the bytes or the second path.
#[derive(Drop)]
pub(crate) struct Noted {
    path: Log<(), u8>,
    more: Log<(), u8>,
    is_ok: bool,
}

/// The calls so far. It takes no memory at run time.
#[derive(Drop)]
pub(crate) struct CallLog {
    log: Log<Asked, Noted>,
}

impl Model for CallLog {
    ghost use Rattle.std.specs.Prelude.{List, map};
    ghost use Rattle.tl_folder.specs.FileCalls.{Call};
    ghost use Rattle.tl_folder.specs.Inner.CallLog.{call_of};

    ghost Value = { List Call };

    ghost view = { λ r. map call_of r.log.items };
}

impl CallLog {
    ghost use Rattle.tl_folder.specs.Inner.CallLog.{step_of};

    /// Returns an empty list of calls.
    pub(crate) fn new() -> CallLog
        ensures { result ≡ [] }
    {
        CallLog { log: Log::new() }
    }

    /// Adds a call, with its path and the bytes or the second path.
    pub(crate) fn note(&mut self, asked: Asked, path: &str, more: &[u8], is_ok: bool)
        ensures { self.new ≡ self.old ++ (step_of asked path.now more.now, is_ok) ∷ [] }
    {
        let mut note = Noted {
            path: Log::new(),
            more: Log::new(),
            is_ok,
        };
        note_bytes(&mut note.path, path.as_bytes());
        note_bytes(&mut note.more, more);
        self.log = self.log.and(&asked, &note);
    }
}
