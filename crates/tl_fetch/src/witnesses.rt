//! The witnesses' keys that the options name.

ghost use Rattle.std.specs.Prelude.{◌≡◌, ◌<◌, ◌↔◌, List, Contains, IfErr, IfOk, IsTrue, MatchBool, MatchOption, length, vec_items};
ghost use Rattle.tl_fetch.specs.Command.{HaveLogKeys, HaveOwnKeys, IsKeyFault, log_texts, public_keys, witness_text, witness_texts};
ghost use Rattle.tl_key.specs.KeyText.{IsVerifierText};
ghost use Rattle.tl_hash.specs.Bytes.{Bytes};
ghost use Rattle.tl_key.specs.NoteKey.{PublicKey, cosignature_kind};
ghost use Rattle.tl_key.specs.Reading.{IsNoVerifierText};

use crate::fault::FetchFault;
use crate::options::FetchOptions;
use std::alloc::{AllocError, Global};
use tl_key::{Cosignature, CosignerVerifier, KeyFault, KeyKind, VerifierKey, read_verifier_key};

/// Returns the verifier key of this type whose text this is, or None if it is no such text.
pub(crate) fn read_text<K: KeyKind>(
    alloc: Global,
    text: &str,
) -> Result<Option<VerifierKey<K, Global>>, AllocError>
    ensures { IfOk result (λ found. MatchOption found
        (IsNoVerifierText K.KIND text.now)
        (λ k. IsVerifierText K.KIND text.now k)) }
{
    match read_verifier_key(alloc, text) {
        Ok(key) => Ok(Some(key)),
        Err(KeyFault::OutOfMemory) => Err(AllocError),
        Err(_) => Ok(None),
    }
}

// Returns the witness's verifier key whose text has this index.
fn witness_key(
    alloc: Global,
    options: &FetchOptions,
    place: usize,
) -> Result<CosignerVerifier<Global>, FetchFault>
    requires { place < length (vec_items options.now.witnesses) }
    ensures read { IfOk result
        (λ k. IsVerifierText cosignature_kind (witness_text options.now place) k) }
    ensures refused { IfErr result (IsKeyFault options.now) }
{
    match read_text::<Cosignature>(alloc, options.witnesses[place].as_str())? {
        Some(key) => Ok(key),
        None => Err(FetchFault::BadWitness(place as u64)),
    }
}

/// Reports whether two public keys are the same.
pub(crate) fn is_same(one: &[u8; 32], other: &[u8; 32]) -> bool
    ensures { IsTrue result ↔ (one.now ≡ other.now) }
{
    one == other
}

// Reports whether a public key is one of these.
fn is_among(known: &[[u8; 32]], key: &[u8; 32]) -> bool
    ensures { MatchBool result (Contains known.now key.now) (¬ (Contains known.now key.now)) }
{
    for one in known {
        if is_same(one, key) {
            return true;
        }
    }
    false
}

/// Returns the verifier keys of the witnesses, in order (C2SP signed-note, "Verifier keys"), if each has a public key
/// of its own, so that nobody counts twice under two names, and none has one of the log's. It fails with `SharedKey`
/// of the first that hasn't, and with `BadWitness` of the first text that is no key's.
pub(crate) fn witness_keys(
    alloc: Global,
    options: &FetchOptions,
    log: &[[u8; 32]],
) -> Result<Vec<CosignerVerifier<Global>>, FetchFault>
    requires { (name : Bytes) × (keys : List PublicKey)
        × HaveLogKeys name (log_texts options.now) keys × (log.now ≡ public_keys keys) }
    ensures own { IfOk result
        (λ keys. HaveOwnKeys log.now (witness_texts options.now) keys.items) }
    ensures refused { IfErr result (IsKeyFault options.now) }
{
    let mut known = Vec::new(alloc);
    known.extend_from_slice(log)?;
    let mut keys = Vec::new(alloc);
    for place in 0..options.witnesses.len() {
        let key = witness_key(alloc, options, place)?;
        if is_among(known.as_slice(), key.public_key()) {
            return Err(FetchFault::SharedKey(place as u64));
        }
        known.push(*key.public_key())?;
        keys.push(key)?;
    }
    Ok(keys)
}
