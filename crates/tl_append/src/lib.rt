//! Logs that grow on a shelf, and the command `append`.
//!
//! A log's entries can be on a shelf alone, a folder or a bucket: memory holds a ledger, which is the log's right
//! edge and its partial bundle. A batch of entries is *put* behind the log, as tiles and bundles, and then *shown*:
//! the checkpoint of the longer log, as a signed note, takes the place of the last one. Whatever a crash leaves in
//! between is complete for one of the publications.
//!
//! A `LogShelf` is such a shelf with its log. `SealedShelf` makes one of a shelf, a store of proposals and a sealer,
//! which makes the note that is shown: `AsSigned` leaves the log's own, and `Cosigners` asks witnesses first, and
//! adds the lines by which as many as are needed cosigned it (C2SP tlog-cosignature). Before they are asked, the note
//! is kept as a proposal, so that after a crash the log goes on from what a witness may have seen.
//!
//! `run_append` is the command: it opens the log and appends the lines of an input in batches.
//!
//! ```rust
//! let OperatorKeys { signer, verifier } = keys_of(&rt, alloc, "example.com/log", &key)?;
//! let sealer = Cosigners::new(asker, quorum); // or `AsSigned`, if no witness has to cosign
//! let mut shelf = SealedShelf::new(shelf, store, sealer, false);
//! let mut found = Found::new(alloc); // what was read to open the log
//! let mut log = shelf.open(alloc, verifier, false, &mut found)?;
//! shelf.append(alloc, &signer, &[entry], &mut log.ledger)?; // a batch is shown, and enough witnesses cosigned it
//!
//! let mut found = Found::new(alloc);
//! run_append(
//!     &rt, alloc, &options, None, Joining::AtHand, &mut folder, &NoProposals, &mut found, &mut reader, &mut writer,
//! )?; // prints a line such as `2 n5+..` for each publication
//! ```
#![tactic(auto)]

mod appending;
mod batch;
mod cosigners;
mod due;
mod faults;
mod keys;
mod log_shelf;
mod opening;
mod options;
mod printing;
mod proposal;
mod running;
mod sealed_shelf;
mod sealing;
mod shedding;

pub use appending::append_lines;
pub use batch::append_batch;
pub use cosigners::{AsksCosigners, ChecksCosigned, LogQuorum};
pub use faults::line_fault;
pub use keys::{LogOpeningKey, LogSigningKey, OperatorKeys, keys_of};
pub use log_shelf::{LogShelf, OpenedLog};
pub use opening::{check_asked, check_start, open_ledger};
pub use options::{AppendOptions, Batching, Joining};
pub use proposal::{NoProposals, ProposalStore};
pub use running::run_append;
pub use sealed_shelf::SealedShelf;
pub use sealing::{AsSigned, Cosigners, SealsNotes};
