//! The keys of logs and of witnesses: Ed25519 keys with the texts of C2SP signed-note, for `tl_note`.
//!
//! A key has a name, such as that of its log, and an identifier, which is the first four bytes of a digest of its
//! name, type and public key. It has one text. A verifier's key is public, and its text is
//! `<name>+<identifier>+<base64 of the type and the public key>`. A signer's key is secret, and its text is
//! `PRIVATE+KEY+<name>+<identifier>+<base64 of the type and the seed>`.
//!
//! The type of a key is a type parameter, so a key of one type can't be used for the other: keys of the type `Note`
//! sign notes, and those of the type `Cosignature` cosign checkpoints (C2SP tlog-cosignature). `NoteSigner`,
//! `NoteVerifier`, `CosignerSigner` and `CosignerVerifier` are short for these.
//!
//! ```rust
//! let key: NoteSigner<Global> = SignerKey::new(alloc, "example.com/log", &seed)?; // 32 random bytes
//! let text = write_verifier_key(alloc, &key.verifier(alloc)?)?;
//! let verifier: NoteVerifier<Global> = read_verifier_key(alloc, text.as_str())?;
//! let signature = key.sign(alloc, b"a message")?;
//! assert!(rt; verifier.verify(b"a message", signature.as_slice()));
//! ```
//!
//! A reader takes only the text of a key that is fit for use, with its own identifier. `demo_key` makes a key of a
//! secret and HMAC with SHA-256 (RFC 2104), for examples and tests alone: whoever can verify with it can sign.
#![tactic(auto)]

mod demonstration;
mod fault;
mod identifier;
mod keyed_hash;
mod kind;
pub mod law;
mod parts;
mod signer;
mod verifier;

pub use demonstration::{DemoKey, demo_key};
pub use fault::KeyFault;
pub use keyed_hash::hmac;
pub use kind::{Cosignature, KeyKind, Note};
pub use signer::{CosignerSigner, NoteSigner, SignerKey, read_signer_key, write_signer_key};
pub use verifier::{
    CosignerVerifier, NoteVerifier, VerifierKey, read_verifier_key, write_verifier_key,
};
