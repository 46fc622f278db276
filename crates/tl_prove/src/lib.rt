//! Proofs that travel: the commands `prove`, `verify` and `submit`.
//!
//! A proof is one file (C2SP tlog-proof). It shows, without asking the log, that an entry is in it. A policy says
//! which logs and which witnesses one trusts (C2SP tlog-policy). `prove` makes a proof of an entry, from a folder or
//! a host, which needn't be trusted; `verify` checks one, and needs no network:
//!
//! ```rust
//! let policy = parse_policy(Global, Global, text)?;
//! let proof = prove(Global, &source, &policy, Wanted::Index(7), None)?;
//! let leaf = leaf_hash(Sha256Tree, entry);
//! let verified = verify(Global, &policy, leaf, proof.as_bytes())?;
//! assert!(rt; verified.index == 7);
//! ```
//!
//! The commands take their options as structs:
//!
//! ```rust
//! let options = VerifyOptions { policy, entry: EntryOptions::File(path), extra: None };
//! if let Err(fault) = run_verify(&rt, Global, &options, &mut reader, &mut writer) {
//!     let status = prove_exit_of(&fault); // 1: the proof isn't accepted
//! }
//! ```
//!
//! An entry may stand for a file (`digest_entry`): `sha256 `, the file's SHA-256, and a name if one is given. So files
//! of any size can be logged.
//!
//! `run_fetch_by` and `run_feed_by` are the commands `fetch` and `feed` under a policy.
#![tactic(auto)]

mod accepted;
mod entry;
mod fault;
mod fetch_command;
mod files;
mod options;
mod posting;
mod prove_command;
mod proving;
mod submit_command;
mod verify_command;
mod verifying;

pub use accepted::accepted_lines;
pub use entry::{MOST_DIGESTED, digest_entry, digest_of};
pub use fault::{NamedFile, ProveFault, Refusal, prove_exit_of};
pub use fetch_command::{run_feed_by, run_fetch_by};
pub use files::{policy_of, policy_text};
pub use options::{
    EntryOptions, PolicyFetchOptions, ProveOptions, ProveRequest, SubmitOptions, VerifyOptions,
};
pub use prove_command::run_prove;
pub use proving::{Wanted, prove};
pub use submit_command::run_submit;
pub use verify_command::run_verify;
pub use verifying::{Verified, verify};
