//! Proofs that travel (C2SP tlog-proof): a text that shows, without asking the log, that an entry is in it.
//!
//! The text has the entry's index, the hashes of its inclusion proof (RFC 6962, section 2.1.1) and the log's signed
//! checkpoint, which may carry the cosignatures of witnesses. A maintainer publishes it beside a release; whoever has
//! the release and the log's key checks it offline. Extra data, bytes to which the format gives no meaning, may stand
//! in front. A proof of the only entry of a log, `a cat`, which has no hashes:
//!
//! ```text
//! c2sp.org/tlog-proof@v1
//! index 0
//!
//! example.com/log
//! 1
//! ey1zIHofedE24p/S84gFHWKZSKXZbiB3nXb3pTGSwKI=
//!
//! — example.com/log w2zfHtOySTmqPdV9VbD/09DFXO/Y4O93vFajg+BIGt4f26w7vOg5g7+l8ApiVhtDagSc5AIjZXqum5Qloq57HW4O/gI=
//! ```
//!
//! A check has three steps. `parse_proof` reads the text. Its note opens under the keys that the reader trusts
//! (`tl_checkpoint`), which says what the log and its witnesses signed. `check_entry` then says whether the entry's
//! leaf hash is at the proof's index under the size and root of that checkpoint:
//!
//! ```rust
//! let proof = parse_proof(alloc, text)?;
//! let checkpoint = open_checkpoint(alloc, proof.note, &verifiers)?;
//! let leaf = leaf_hash(Sha256Tree, entry);
//! match check_entry(Sha256Tree, &proof, checkpoint.size, checkpoint.root, leaf) {
//!     Ok(()) => println!(rt; "entry {} of {}", proof.index, checkpoint.size)?,
//!     Err(fault) => println!(rt; "refused: {fault}")?,
//! }
//! ```
//!
//! To make one, fill an `OfflineProof` with what `prove_record` (`tl_proof`) gave, and write it:
//!
//! ```rust
//! let hashes = prove_record(alloc, Sha256Tree, size, index, &store)?;
//! let text = write_proof(alloc, &OfflineProof { extra: None, index, hashes, note })?;
//! ```
#![tactic(auto)]

mod checking;
mod law;
mod parsing;
mod proof;
mod writing;

pub use checking::{EntryFault, check_entry};
pub use law::{
    accepted_entries_are_listed, accepted_proofs_are_short, no_proof_is_refused,
    text_has_one_fault, text_is_one_proof,
};
pub use parsing::parse_proof;
pub use proof::{MOST_HASHES, OfflineProof, ProofFault, WriteFault};
pub use writing::write_proof;
