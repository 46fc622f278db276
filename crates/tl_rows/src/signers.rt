//! The keys of logs: those that a word names, and one that gives no signature at first.

use crate::words::{number_of, text_of};
use std::alloc::{AllocError, Global};
use std::sync::atomic::{AtomicU64, Ordering};
use tl_note::{SignFault, Signer};
use tl_testing::LengthKey;

/// A key that fails once, or gives no byte, and then signs with one byte.
#[derive(Drop)]
pub(crate) struct Reluctant {
    asked: AtomicU64,
    refuses: bool,
}

impl Reluctant {
    /// Returns the key before its first signature.
    pub(crate) fn new(refuses: bool) -> Reluctant {
        Reluctant {
            asked: AtomicU64::new(0),
            refuses,
        }
    }
}

impl Signer for Reluctant {
    ghost use Rattle.std.specs.Prelude.{true, codes};

    ghost signing_key = { λ k. record {
      name = codes "reluctant";
      id = 9;
      may_give = λ _ _. true;
      may_refuse = λ _. true;
    } };

    fn name(&self) -> &str {
        "reluctant"
    }

    fn key_id(&self) -> u32 {
        9
    }

    fn sign(&self, alloc: Global, _message: &[u8]) -> Result<Vec<u8>, SignFault> {
        if self.asked.fetch_add(1, Ordering::SeqCst) == 0 {
            return if self.refuses {
                Err(SignFault::Refused)
            } else {
                Ok(Vec::new(alloc))
            };
        }
        Vec::from_slice(alloc, &[9]).map_err(|_| SignFault::OutOfMemory)
    }
}

// Adds the keys that a part of a word names.
fn add_keys(alloc: Global, keys: &mut Vec<LengthKey>, part: &str) -> Result<(), AllocError> {
    if let Some((name, id)) = part.split_once(':') {
        let id = u32::from_str_radix(id, 16).unwrap_or(0);
        let name = text_of(alloc, name)?;
        return Ok(keys.push(LengthKey::new(alloc, name.as_str(), id)?)?);
    }
    let (name, count) = part.split_once('*').unwrap_or((part, "0"));
    let name = text_of(alloc, name)?;
    for id in 0..(number_of(count) % 1000) as u32 {
        keys.push(LengthKey::new(alloc, name.as_str(), id)?)?;
    }
    Ok(())
}

/// Returns the length keys that a word names, with commas between: `NAME:ID` with the identifier in hexadecimal, or
/// `NAME*COUNT`, that many of this name with the identifiers from 0 up. Any other part names none.
pub(crate) fn keys_of(alloc: Global, word: &str) -> Result<Vec<LengthKey>, AllocError> {
    let mut keys = Vec::new(alloc);
    for part in word.split(',') {
        add_keys(alloc, &mut keys, part)?;
    }
    Ok(keys)
}
