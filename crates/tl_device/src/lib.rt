//! Readers and writers that remember whether they failed, and the reasons for which files, folders and hosts fail.
//!
//! A `Counted` is a reader or a writer with a flag that is set when a call of it fails, and never cleared. So a
//! contract can say of a run of calls what was read or written, and whether the device failed, without a list of the
//! calls. `read_whole` reads a whole input up to a limit, and `write_whole` and `write_pieces` write a whole text:
//!
//! ```rust
//! let mut reader = Counted::new(b"two\nlines\n".as_slice());
//! assert_eq!(rt; read_whole(alloc, &mut reader, 100)?.len(), 10);
//! let mut reader = Counted::new(b"two\nlines\n".as_slice());
//! assert_eq!(rt; read_whole(alloc, &mut reader, 9), Err(InputFault::TooLarge));
//! assert!(rt; !reader.failed());
//! ```
//!
//! `read_plain` reads a plain file whole. A `Timed` is a connection that may take a limited time in all. A
//! `DeviceFault` is the reason why a file, a folder or a host failed: it is made from an error of the system by
//! `From`, and printed by `Display`.
#![tactic(auto)]

mod counted;
mod fault;
mod pieces;
mod plain;
mod timed;

pub use counted::{Counted, InputFault, WriteFault, read_whole, write_whole};
pub use fault::DeviceFault;
pub use pieces::write_pieces;
pub use plain::read_plain;
pub use timed::Timed;
