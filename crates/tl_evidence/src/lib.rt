//! Checks evidence that a log forked, with the log's key alone (C2SP tlog-checkpoint; RFC 6962, section 2.1.2).
//!
//! A log that shows different lists to different readers has signed two checkpoints of which neither tree is a prefix
//! of the other. Evidence is both notes, one after the other, and, if their sizes differ, the text of a consistency
//! proof that leads to the larger tree from a tree of the smaller one's size, but with another root. `tl_fork`
//! defines it and states that it accuses no honest log.
//!
//! `run_check_fork` is the command `check --fork`. It reads the whole input and prints one line: `fork of NAME` if
//! the input is evidence against the log with this verifier key, and else `refused`.
//!
//! ```rust
//! let mut reader = Counted::new(evidence.as_bytes());
//! run_check_fork(alloc, "example.com/log+530ac4f8+AQ8e..", &mut reader, &mut writer)?; // `Refused`: no evidence
//! assert_eq!(writer.into_inner().as_slice(), b"fork of example.com/log\n");
//! ```
#![tactic(auto)]

mod checking;
mod cutting;
mod evidence;

pub use checking::run_check_fork;
