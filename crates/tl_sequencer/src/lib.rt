//! One log from the entries of many submitters.
//!
//! A log gives each entry an index, and entries come from many threads at once. Here each submitter has a lane, which
//! is a ring without locks, and one thread takes entries from the lanes. No call waits: a full ring is reported, and
//! so is an empty one. However they are taken, each submitter's entries are in the log once, and in the order in
//! which it sent them.
//!
//! A `Sequencer` keeps the whole log in memory. A lane ends when its `Submitter` is closed and the `Ended` that this
//! returns is taken in. Once all lanes have ended, the log can be closed, and has all that was sent:
//!
//! ```rust
//! let (mut log, mut submitters) = open(alloc, 1, 16, 1000)?; // one lane, a ring of 16, at most 1,000 entries
//! let mut submitter = submitters.pop().unwrap();
//! assert!(rt; submitter.submit(cat).is_ok()); // number 0 of this submitter
//! assert!(rt; submitter.submit(dog).is_ok()); // number 1
//! assert_eq!(rt; log.take(0, 1), Ok(1)); // one entry of lane 0 is in the log
//! assert!(rt; log.end(submitter.close().unwrap()).is_ok()); // and now the rest
//! if let Ok(complete) = log.close() {
//!     assert_eq!(rt; complete.len(), 2);
//! }
//! ```
//!
//! An `Intake` is for a log that is stored elsewhere, such as on a disk. It keeps only the entries that aren't stored
//! yet:
//!
//! ```rust
//! let (mut intake, mut submitters) = Intake::open(alloc, 700, 1, 16, 1000)?; // 700 entries are on the disk
//! let mut submitter = submitters.pop().unwrap();
//! assert!(rt; submitter.submit(cat).is_ok());
//! assert_eq!(rt; intake.take(0, 16), Ok(1)); // it waits
//! put_on_disk(intake.waiting())?;
//! intake.drain(); // and is dropped here
//! assert!(rt; intake.end(submitter.close().unwrap()).is_ok());
//! assert_eq!(rt; intake.completed(), Ok(1)); // one entry was taken in all
//! ```
#![tactic(auto)]

mod complete;
mod ended;
mod fault;
mod intake;
mod lane;
mod opening;
mod sequencer;
mod submitter;

pub use complete::{Complete, Incomplete};
pub use ended::Ended;
pub use fault::{OpenFault, TakeFault, Why};
pub use intake::Intake;
pub use opening::{BaseBack, open, open_from};
pub use sequencer::{EndRefused, Sequencer};
pub use submitter::{Refused, Submitter};
