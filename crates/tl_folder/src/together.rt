//! Syncing many files or folders at once.

use std::fs::Files;
use tl_device::DeviceFault;

/// What a path that is to be synced is.
#[derive(Clone, Copy, Debug, PartialEq, Eq)]
pub enum SyncKind {
    /// A file with its bytes.
    File,
    /// A folder with the names in it.
    Folder,
}

/// The outcome of a sync.
pub type SyncOutcome = Result<(), DeviceFault>;

/// A disk that syncs many files or folders, one after another or side by side.
pub trait SyncsTogether {
    /// Syncs what is at each path and sets the outcome with the same number. An outcome that isn't set stays a
    /// failure.
    fn sync_each<H: Files>(
        &self,
        files: &H,
        kind: SyncKind,
        paths: &[String],
        outcomes: &mut [SyncOutcome],
    );
}
