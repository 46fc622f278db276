//! Evidence that a log forked (C2SP tlog-checkpoint; RFC 6962, section 2.1.2).
//!
//! A log that shows different lists to different readers has signed two checkpoints of which neither tree is a prefix
//! of the other. Two checkpoints of different sizes don't show that by themselves, since one may simply be older.
//! Evidence is both signed notes, one after the other, in either order, and nothing more if their sizes are equal and
//! their roots differ. If the sizes differ, a consistency proof follows, which leads to the larger tree from a tree
//! of the smaller one's size, but with another root:
//!
//! ```text
//! example.com/log
//! 2
//! <root of two entries>
//!
//! — example.com/log <signature>
//! example.com/log
//! 3
//! <root of three entries>
//!
//! — example.com/log <signature>
//! <a consistency proof from size 2, with another root, to size 3 and this root>
//! ```
//!
//! Anybody can check this with the log's key alone (`tl_evidence::run_check_fork`); `tlog fetch` prints it if a
//! source shows a fork. This crate has no code that runs. It defines evidence, in `specs/Evidence.antt`, and states
//! by `fork_law` that it accuses no honest log.
#![tactic(auto)]

mod law;

pub use law::fork_law;
