//! Signed notes (C2SP signed-note), with the interface of Go's `sumdb/note`.
//!
//! A note is a text that one or more keys signed. It is read by people and by programs: the text comes first, each
//! line of it ended by a newline, then an empty line, and then a line for each signature. Transparency logs sign
//! their checkpoints as notes, and witnesses add their lines to them.
//!
//! ```text
//! Two cats were seen.
//!
//! — example.com/log <base64 of the key's identifier and the signature>
//! ```
//!
//! `sign_note` signs a text with the keys of signers. `open_note` reads a note and verifies it with the keys of
//! verifiers. It opens if some known key signed it, and the first line of each known key is valid. Lines of other
//! keys are reported as `unverified`, and don't matter. Keys are objects with the traits `Signer` and `Verifier`.
//! `tl_key` has Ed25519 keys:
//!
//! ```rust
//! let key: NoteSigner<Global> = SignerKey::new(alloc, "example.com/log", &seed)?; // of tl_key, and 32 random bytes
//! let verifier: Box<dyn Verifier> = Box::new(alloc, key.verifier(alloc)?)?;
//! let signer: Box<dyn Signer> = Box::new(alloc, key)?;
//! let note = sign_note(alloc, alloc, "Two cats were seen.\n", &[signer])?;
//! let opened = open_note(alloc, note.as_str(), &[verifier])?;
//! assert_eq!(rt; opened.note.text, "Two cats were seen.\n");
//! assert_eq!(rt; opened.verified.len(), 1); // the index of the log's line
//! ```
//!
//! Use nothing of a note before it is opened: `parse_note` reads a note without verifying it, and anybody can write
//! that. A text is signed as it is, without a type, so whoever signs must know that the text can't be taken for
//! something else.
#![tactic(auto)]

mod fault;
mod keys;
mod law;
mod line;
mod open;
mod parse;
mod sign;
mod verify;

pub use fault::NoteFault;
pub use keys::{SignFault, Signer, Verifier, is_key_name};
pub use law::bytes_are_one_note;
pub use line::{SigView, write_signature_line};
pub use open::{OpenedNote, open_note, verify_note};
pub use parse::{MOST_LINES, NoteView, parse_note, parse_signatures};
pub use sign::{first_bad_name, sign_note, signature_of};
