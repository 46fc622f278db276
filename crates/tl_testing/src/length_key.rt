//! A signer and verifier for tests.

use std::alloc::{AllocError, Global};
use tl_note::{SignFault, Signer, Verifier};

/// A key whose one signature of a message is the message's length in bytes, as 8 bytes, big-endian.
#[derive(Drop)]
pub struct LengthKey {
    name: String,
    id: u32,
}

impl LengthKey {
    /// Creates the key of this name and identifier.
    pub fn new(alloc: Global, name: &str, id: u32) -> Result<LengthKey, AllocError> {
        let name = String::from_str(alloc, name)?;
        Ok(LengthKey { name, id })
    }
}

impl Signer for LengthKey {
    ghost use Rattle.std.specs.Prelude.{true, string_bytes};

    ghost signing_key = { λ k. record { name = string_bytes k.name; id = k.id; may_give = λ _ _. true; may_refuse = λ _. true } };

    fn name(&self) -> &str {
        self.name.as_str()
    }

    fn key_id(&self) -> u32 {
        self.id
    }

    fn sign(&self, alloc: Global, message: &[u8]) -> Result<Vec<u8>, SignFault> {
        let length = message.len() as u64;
        Vec::from_slice(alloc, &length.to_be_bytes()).map_err(|_| SignFault::OutOfMemory)
    }
}

impl Verifier for LengthKey {
    ghost use Rattle.std.specs.Prelude.{bytes_eq, length, string_bytes};
    ghost use Rattle.std.specs.Int.{w64, to_be_bytes};

    ghost key = { λ k. record { name = string_bytes k.name; id = k.id; accepts = λ message signature. bytes_eq signature (to_be_bytes w64 (length message)) } };

    fn name(&self) -> &str {
        self.name.as_str()
    }

    fn key_id(&self) -> u32 {
        self.id
    }

    fn verify(&self, message: &[u8], signature: &[u8]) -> bool {
        let length = message.len() as u64;
        signature == length.to_be_bytes().as_slice()
    }
}
