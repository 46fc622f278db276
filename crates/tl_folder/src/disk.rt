//! What no call reports about a folder's disk.

use crate::system::sync_at;
use crate::together::{SyncKind, SyncOutcome, SyncsTogether};
use std::fs::Files;

/// What no call reports: what a folder had before its first call, which resources a settling that failed had put
/// there, and which partial tiles and bundles a removal that failed had removed. The contracts of a folder hold
/// whatever these are.
pub trait CrashOutcome: SyncsTogether {
    ghost use Rattle.tl_archive.specs.Shelves.{Held};
    ghost use Rattle.tl_folder.specs.Folders.{Reached};

    /// What the folder had at first.
    ghost held: { Held };

    /// The resources whose bytes the n-th call replaced or removed, if it failed.
    ghost reached: { Reached };
}

/// A disk that syncs one file after another and stops at the first failure. What its ghost members say doesn't
/// matter: the code is the same for every disk.
#[derive(Clone, Copy, Debug)]
pub struct AnyOutcome;

impl CrashOutcome for AnyOutcome {
    ghost use Rattle.std.specs.Prelude.{None, false};

    ghost held = { λ _. None };

    ghost reached = { λ _ _. false };
}

impl SyncsTogether for AnyOutcome {
    fn sync_each<H: Files>(
        &self,
        files: &H,
        kind: SyncKind,
        paths: &[String],
        outcomes: &mut [SyncOutcome],
    ) {
        for i in 0..outcomes.len() {
            outcomes[i] = sync_at(files, kind, paths, i);
            if outcomes[i].is_err() {
                return;
            }
        }
    }
}

/// How syncs are spread over threads. The program passes it in, since only the program can start threads.
pub type Spread = fn(&HostRuntime, SyncKind, &[String], &mut [SyncOutcome]);

/// A disk that syncs many files side by side. `spread` must call `sync_at` once for each outcome.
#[derive(Clone, Copy)]
pub struct SideBySide {
    files: HostRuntime,
    spread: Spread,
    ghost callable: { IsAlwaysCallable spread },
}

impl SideBySide {
    /// Returns the system's disk, whose syncs are spread in this way.
    pub fn new(files: HostRuntime, spread: Spread) -> SideBySide
        requires { IsAlwaysCallable spread }
    {
        SideBySide { files, spread }
    }
}

impl SyncsTogether for SideBySide {
    fn sync_each<H: Files>(
        &self,
        _files: &H,
        kind: SyncKind,
        paths: &[String],
        outcomes: &mut [SyncOutcome],
    ) {
        (self.spread)(&self.files, kind, paths, outcomes);
    }
}

impl CrashOutcome for SideBySide {
    ghost use Rattle.std.specs.Prelude.{None, false};

    ghost held = { λ _. None };

    ghost reached = { λ _ _. false };
}
