//! Checkpoints of transparency logs and their texts (C2SP tlog-checkpoint), and cosignatures of witnesses (C2SP
//! tlog-cosignature).
//!
//! A checkpoint states what a log is: its origin, which is its name, its number of entries, and the root of their
//! tree. It is signed as a note (`tl_note`). The text has a line for each of the three, and then any extension lines:
//!
//! ```text
//! example.com/log
//! 0
//! 47DEQpj8HBSa+/TImW+5JCeuQeRkm5NMpJWZG3hSuFU=
//! ```
//!
//! `write` makes the text, and `parse` reads exactly such texts. `open_checkpoint` opens a signed note and reads its
//! text. It doesn't compare the origin with the log that is expected; the caller does:
//!
//! ```rust
//! let text = "example.com/log\n0\n47DEQpj8HBSa+/TImW+5JCeuQeRkm5NMpJWZG3hSuFU=\n";
//! let checkpoint = parse(alloc, text)?;
//! assert!(rt; checkpoint.root == empty_hash(Sha256Tree));
//! assert_eq!(rt; write(alloc, &checkpoint)?.as_str(), text);
//!
//! let signed = sign_note(alloc, alloc, text, &[signer])?; // of tl_note
//! let opened = open_checkpoint(alloc, signed.as_str(), &[verifier])?; // of the same key
//! assert_eq!(rt; opened.size, 0);
//! ```
//!
//! A witness cosigns a checkpoint by one more line of the note, which has the time (`cosign_line`).
//! `check_cosignature` checks such a line, and `cosignatures_by` finds the first cosignature by each of several
//! witnesses.
#![tactic(auto)]

mod checkpoint;
mod cosignature;
mod law;
mod opening;
mod parsing;
mod quorum;
mod writing;

pub use checkpoint::{Checkpoint, CheckpointFault};
pub use cosignature::{
    check_cosignature, cosign_line, cosign_message, cosignature_bytes, cosignature_line_named,
};
pub use law::{checkpoint_can_be_signed, text_is_one_checkpoint};
pub use opening::{OpenCheckpointFault, open_checkpoint};
pub use parsing::parse;
pub use quorum::{Cosigned, cosignatures_by, have_distinct_names};
pub use writing::write;
