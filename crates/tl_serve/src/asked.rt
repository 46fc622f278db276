//! The keys and the addresses of the witnesses that a log asks.

ghost use Rattle.std.specs.Prelude.{◌≡◌, ◌↔◌, All, AllPairs, IfOk, IsTrue, MatchBool, map, string_bytes};
ghost use Rattle.tl_key.specs.KeyText.{IsVerifierText};
ghost use Rattle.tl_key.specs.NoteKey.{cosignature_kind};
ghost use Rattle.tl_serve.specs.Asking.{AreApart, AreKeysOf};

use crate::options::AskedWitness;
use std::alloc::{AllocError, Global};
use tl_key::{CosignerVerifier, KeyFault, read_verifier_key};
use tl_note::Verifier;
use tl_run::RunFault;
use tl_source::Url;

// Returns the verifier key of a witness that this text spells. Fails with `BadKey` if it spells none.
fn key_of(alloc: Global, text: &str) -> Result<CosignerVerifier<Global>, RunFault>
    ensures { IfOk result (IsVerifierText cosignature_kind text.now) }
{
    match read_verifier_key(alloc, text) {
        Ok(key) => Ok(key),
        Err(KeyFault::OutOfMemory) => Err(RunFault::OutOfMemory),
        Err(_) => Err(RunFault::BadKey),
    }
}

// Reports whether two keys have one name.
fn have_one_name(one: &CosignerVerifier<Global>, other: &CosignerVerifier<Global>) -> bool
    ensures { IsTrue result ↔ (one.now.name ≡ other.now.name) }
{
    one.name() == other.name()
}

// Reports whether two public keys are the same.
fn is_same(one: &[u8; 32], other: &[u8; 32]) -> bool
    ensures { IsTrue result ↔ (one.now ≡ other.now) }
{
    one == other
}

// Reports whether two keys have one name or one public key.
fn are_alike(one: &CosignerVerifier<Global>, other: &CosignerVerifier<Global>) -> bool
    ensures { MatchBool result (Unit {0}) (AreApart one.now other.now) }
{
    have_one_name(one, other) || is_same(one.public_key(), other.public_key())
}

// Reports whether one of these keys has the name or the public key of another.
fn has_alike(keys: &[CosignerVerifier<Global>], other: &CosignerVerifier<Global>) -> bool
    ensures { MatchBool result (Unit {0}) (All (λ key. AreApart key other.now) keys.now) }
{
    for key in keys {
        if are_alike(key, other) {
            return true;
        }
    }
    false
}

/// Returns the verifier keys of these witnesses, in order. Fails with `BadKey` if a text spells none, or has the name
/// or the public key of one before it.
pub(crate) fn keys_of_asked(
    alloc: Global,
    asked: &[AskedWitness],
) -> Result<Vec<CosignerVerifier<Global>>, RunFault>
    ensures spelled { IfOk result
        (λ keys. AreKeysOf (map (λ w. string_bytes w.key) asked.now) keys.items) }
    ensures apart { IfOk result (λ keys. AllPairs AreApart keys.items) }
{
    let mut keys = Vec::new(alloc);
    for witness in asked {
        let key = key_of(alloc, witness.key.as_str())?;
        if has_alike(keys.as_slice(), &key) {
            return Err(RunFault::BadKey);
        }
        keys.push(key)?;
    }
    Ok(keys)
}

/// Returns the addresses of these witnesses, in order. Fails with `Malformed` if a text is no address over HTTP.
pub(crate) fn urls_of_asked(
    alloc: Global,
    asked: &[AskedWitness],
) -> Result<Vec<Url<'_>>, RunFault> {
    let mut urls = Vec::new(alloc);
    for witness in asked {
        let Some(url) = Url::parse(witness.url.as_str()) else {
            return Err(RunFault::Malformed);
        };
        urls.push(url)?;
    }
    Ok(urls)
}
