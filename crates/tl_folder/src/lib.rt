//! Files and folders that outlast a crash: a log in a folder, files of lines, and files that are replaced as a whole.
//!
//! A `FolderShelf` is a shelf (`tl_archive`) whose resources are files in the layout of C2SP tlog-tiles, so that any
//! web server of files can serve it. `lock_folder` keeps other processes out. A `TileCache` is a client's folder of
//! tiles that have passed all checks.
//!
//! ```rust
//! let lock = lock_folder(&rt, "log")?; // held as long as the shelf is used
//! let mut shelf = FolderShelf::open(AnyOutcome, rt, alloc, "log")?;
//! assert!(lock.is_at(&rt, "log")); // the folder that is locked is the one that was opened
//! shelf.stage(&Resource::Checkpoint, note)?;
//! shelf.settle()?; // the file `log/checkpoint` outlasts a crash
//! ```
//!
//! `stream_lines` opens a file to which a program appends: a write returns once its bytes outlast a crash. An
//! `AtomicFile` has its old bytes or its new ones at every moment:
//!
//! ```rust
//! let LineStream { lines, mut end, .. } = stream_lines(&rt, "witness.state")?; // read `lines` before you append
//! end.write_all(b"one line\n")?;
//! let mut file = AtomicFile::open(&rt, alloc, "seen")?;
//! let before = file.read(alloc, 65_536)?; // `None` if there is no file
//! file.replace(b"the new bytes\n")?;
//! ```
//!
//! Contracts see the system calls that each function makes. The laws in `law` and `shelf_law` say what a crash after
//! these calls leaves, after POSIX.1-2017 (`specs/Posix.antt`).
#![tactic(auto)]

mod adding;
mod cache;
mod call_log;
mod call_outcome;
mod disk;
mod file_id;
mod files;
mod folders;
pub mod law;
mod limit;
mod line_stream;
mod lines;
mod lock;
mod look;
mod making;
mod mark;
mod over;
mod place;
mod record;
mod removing;
mod resource;
mod shelf;
pub mod shelf_law;
mod staged;
mod system;
mod there;
mod together;
mod whole;

pub use cache::TileCache;
pub use call_outcome::CallOutcome;
pub use disk::{AnyOutcome, CrashOutcome, SideBySide, Spread};
pub use limit::most_bytes;
pub use line_stream::{LineStream, stream_lines};
pub use lines::DurableAppend;
pub use lock::{FolderLock, lock_folder};
pub use place::{has_path, path_under};
pub use resource::read_resource;
pub use shelf::FolderShelf;
pub use system::sync_at;
pub use there::has_log;
pub use together::{SyncKind, SyncOutcome, SyncsTogether};
pub use whole::AtomicFile;
