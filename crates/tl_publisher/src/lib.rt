//! The operator of a transparency log, and the board from which readers read what it publishes.
//!
//! An `Operator` takes entries from its submitters' lanes into the log (`take`, `end`), signs the log's checkpoint
//! and publishes it with all tiles and bundles in one step (`publish`), after C2SP tlog-tiles, tlog-checkpoint and
//! signed-note. The board holds in memory what is published. A `BoardReader` reads it while the operator goes on, and
//! never waits.
//!
//! ```rust
//! let (mut operator, mut submitters, mut readers) =
//!     Operator::open(rt, alloc, "example.com/log", signers, 1, 1024, 1_000_000, 4)?;
//! let mut submitter = submitters.pop().unwrap();
//! submitter.submit(entry)?;
//! operator.take(0, 256)?; // at most 256 entries of lane 0
//! let published = operator.publish()?;
//! assert_eq!(published.size(), 1);
//! let mut reader = readers.pop().unwrap();
//! reader.learn(&published); // from now on it shows at least this publication
//! let note = reader.get(alloc, &Resource::Checkpoint)?.unwrap();
//! ```
//!
//! If witnesses must cosign each checkpoint (C2SP tlog-cosignature), `require` names them. `propose` then signs a
//! checkpoint for them, and `attach` publishes it once enough of them have cosigned:
//!
//! ```rust
//! operator.require(witnesses, 2)?;
//! let proposal = operator.propose()?;
//! let lines = ask(&proposal.note)?; // the witnesses' signature lines (C2SP tlog-witness)
//! operator.attach(lines.as_str())?;
//! ```
//!
//! `Operator::resume` continues a log from a signed checkpoint and its entry bundles. `close` returns the log once
//! every lane has ended, with a `Board` that still shows the last publication. Nothing here outlasts the process; for
//! a log on disk see `tl_archive` and `tl_ledger`.
#![tactic(auto)]

mod attaching;
mod board_copy;
mod board_writer;
mod closing;
mod face;
mod fault;
mod growth;
mod law;
mod lookup;
mod noting;
mod opening;
mod operator;
mod past;
mod proposing;
mod published;
mod reader;
mod resuming;
mod rule;
mod run;
mod text;

pub use closing::{Board, OperatorBack};
pub use fault::{AttachFault, GetFault, OperatorFault, PublishFault, RequireFault, ResumeFault};
pub use law::{change_makes_next, stored_is_lawful};
pub use operator::{OpenedLog, Operator, RunningLog};
pub use proposing::{Proposal, RequireBack};
pub use published::Published;
pub use reader::BoardReader;
pub use tl_hash::Head;
