//! A key for tests whose signatures show how often it was asked, and for what.

use std::alloc::{AllocError, Global};
use std::sync::atomic::{AtomicU64, Ordering};
use tl_hash::{Sha256Tree, leaf_hash};
use tl_note::{SignFault, Signer};

/// A key whose signature of a message is how often it has been asked by then, this time included, as 8 bytes,
/// big-endian, followed by the message's leaf hash.
#[derive(Drop)]
pub struct CountingKey {
    name: String,
    id: u32,
    asked: AtomicU64,
}

impl CountingKey {
    /// Creates the key of this name and identifier, which hasn't been asked yet.
    pub fn new(alloc: Global, name: &str, id: u32) -> Result<CountingKey, AllocError> {
        let name = String::from_str(alloc, name)?;
        let asked = AtomicU64::new(0);
        Ok(CountingKey { name, id, asked })
    }
}

// Returns bytes followed by the hash of a message.
fn with_hash(alloc: Global, bytes: &[u8], message: &[u8]) -> Result<Vec<u8>, AllocError> {
    let mut all = Vec::from_slice(alloc, bytes)?;
    all.extend_from_slice(leaf_hash(Sha256Tree, message).as_bytes())?;
    Ok(all)
}

impl Signer for CountingKey {
    ghost use Rattle.std.specs.Prelude.{true, string_bytes};

    ghost signing_key = { λ k. record { name = string_bytes k.name; id = k.id; may_give = λ _ _. true; may_refuse = λ _. true } };

    fn name(&self) -> &str {
        self.name.as_str()
    }

    fn key_id(&self) -> u32 {
        self.id
    }

    fn sign(&self, alloc: Global, message: &[u8]) -> Result<Vec<u8>, SignFault> {
        let count = self.asked.fetch_add(1, Ordering::SeqCst).wrapping_add(1);
        with_hash(alloc, &count.to_be_bytes(), message).map_err(|_| SignFault::OutOfMemory)
    }
}
