//! The text commands of the program `tlog`, over any reader and writer: those that need no network and keep no log.
//!
//! A log's entries are the lines of an input. `run_head` prints the checkpoint of that log: its origin, its size and
//! the root of its Merkle tree (C2SP tlog-checkpoint; RFC 6962, section 2.1). `run_build` prints what a static mirror
//! of the log serves (C2SP tlog-tiles). `run_inclusion` and `run_consistency` print a proof, and `run_check` says
//! whether such a text is accepted. `run_keygen` makes a key, and `run_open` prints what a key signed of a note (C2SP
//! signed-note).
//!
//! A command reads its whole input before it writes. Its reader and its writer stand in a `Counted`, which remembers
//! whether the device failed. `rt` lends the threads that hash, `threads` of them at most. A command that fails
//! returns a `RunFault`, of which `fault_line` and `exit_of` make the line on standard error and the exit status.
//!
//! ```rust
//! // the checkpoint of a log of two entries
//! let mut reader = Counted::new(b"a cat\na dog\n".as_slice());
//! let mut writer = Counted::new(Vec::new(alloc));
//! run_head(&rt, alloc, alloc, 4, "example.com/log", &mut reader, &mut writer)?;
//! assert!(writer.into_inner().starts_with(b"example.com/log\n2\n"));
//!
//! // its entry bundle
//! let key = HmacLogSigner::new("example.com/log", b"a secret");
//! let get = Some("tile/entries/000.p/2");
//! let mut reader = Counted::new(b"a cat\na dog\n".as_slice());
//! let mut writer = Counted::new(Vec::new(alloc));
//! run_build(&rt, alloc, alloc, 4, Global, &key, get, &mut reader, &mut writer)?;
//! assert_eq!(writer.into_inner().as_slice(), b"\0\x05a cat\0\x05a dog");
//!
//! // the text of a note that opens under a key
//! let mut reader = Counted::new(note.as_bytes());
//! let mut writer = Counted::new(Vec::new(Global));
//! run_open(Global, "example.com/log+530ac4f8+AQ8e..", &mut reader, &mut writer)?;
//! ```
#![tactic(auto)]

mod audit_text;
mod commands;
mod entries;
mod growing;
mod line_marks;
mod lines;
mod log_lines;
mod marked_text;
mod proof_text;
mod text;
mod whole_lines;

pub use commands::audit::run_audit;
pub use commands::build::signed::{SignedOptions, run_build_signed};
pub use commands::build::{BuildOptions, run_build};
pub use commands::check::{run_check, run_check_about};
pub use commands::checking::{CheckOptions, GivenEntry, run_check_opened};
pub use commands::head::{HeadOptions, run_head};
pub use commands::keygen::{KeygenOptions, run_keygen};
pub use commands::opening::{note_refusal, run_open};
pub use commands::proving::{run_consistency, run_inclusion};
pub use entries::read_entries;
pub use lines::lines_of;
pub use proof_text::{
    ConsistencyProof, InclusionProof, consistency_bytes, inclusion_bytes, read_consistency,
};
