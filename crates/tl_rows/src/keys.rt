//! Rows of the keys of notes and of witnesses: their texts, and what they sign and verify.

use crate::words::{Told, Words, bytes_of, key_of, put_hash, put_hex};
use std::alloc::{AllocError, Global};
use std::str;
use tl_key::{
    Cosignature, KeyFault, KeyKind, Note, SignerKey, VerifierKey, hmac, read_signer_key,
    read_verifier_key, write_signer_key, write_verifier_key,
};
use tl_note::{Signer, Verifier};

// Writes a verifier key: its name, its identifier, its public key and its text.
fn put_verifier<K: KeyKind>(alloc: Global, key: &VerifierKey<K, Global>, out: &mut String) -> Told {
    let text = write_verifier_key(alloc, key)?;
    let (name, id) = (Verifier::name(key), Verifier::key_id(key));
    write!(out, "{name:?} {id:08x} ")?;
    put_hex(out, key.public_key().as_slice())?;
    write!(out, " {text}")
}

// Writes the verifier key of an answer, or its fault.
fn put_verifier_or<K: KeyKind>(
    alloc: Global,
    answer: Result<VerifierKey<K, Global>, KeyFault>,
    out: &mut String,
) -> Told {
    match answer {
        Ok(key) => put_verifier(alloc, &key, out),
        Err(fault) => write!(out, "{fault:?}"),
    }
}

// Writes a signer key: its name, its identifier, its text and the verifier's.
fn put_signer<K: KeyKind>(alloc: Global, key: &SignerKey<K, Global>, out: &mut String) -> Told {
    let text = write_signer_key(alloc, key)?;
    let (name, id) = (Signer::name(key), Signer::key_id(key));
    write!(out, "{name:?} {id:08x} {text} ")?;
    let verifier = key.verifier(alloc)?;
    let text = write_verifier_key(alloc, &verifier)?;
    out.push_str(text.as_str())
}

// Writes the signer key of an answer, or its fault.
fn put_signer_or<K: KeyKind>(
    alloc: Global,
    answer: Result<SignerKey<K, Global>, KeyFault>,
    out: &mut String,
) -> Told {
    match answer {
        Ok(key) => put_signer(alloc, &key, out),
        Err(fault) => write!(out, "{fault:?}"),
    }
}

// Writes what a signer key signs.
fn signed<K: KeyKind>(alloc: Global, text: &str, message: &[u8], out: &mut String) -> Told {
    let key: Result<SignerKey<K, Global>, KeyFault> = read_signer_key(alloc, text);
    match key {
        Ok(key) => match Signer::sign(&key, alloc, message) {
            Ok(signature) => put_hex(out, signature.as_slice()),
            Err(fault) => write!(out, "{fault:?}"),
        },
        Err(fault) => write!(out, "{fault:?}"),
    }
}

// Writes whether a signature is valid under a verifier key.
fn verified<K: KeyKind>(
    alloc: Global,
    text: &str,
    message: &[u8],
    words: &mut Words<'_>,
    out: &mut String,
) -> Told {
    let signature = bytes_of(alloc, words.next())?;
    let key: Result<VerifierKey<K, Global>, KeyFault> = read_verifier_key(alloc, text);
    match key {
        Ok(key) => write!(out, "{}", key.verify(message, signature.as_slice())),
        Err(fault) => write!(out, "{fault:?}"),
    }
}

// Reports whether these bytes are no text of a key of notes.
fn is_malformed(alloc: Global, bytes: &[u8]) -> Result<bool, AllocError> {
    let text = str::from_utf8(bytes).unwrap_or("");
    let verifier: Result<VerifierKey<Note, Global>, KeyFault> = read_verifier_key(alloc, text);
    let signer: Result<SignerKey<Note, Global>, KeyFault> = read_signer_key(alloc, text);
    match (verifier.err(), signer.err()) {
        (Some(KeyFault::OutOfMemory), _) | (_, Some(KeyFault::OutOfMemory)) => Err(AllocError),
        faults => Ok(faults == (Some(KeyFault::Malformed), Some(KeyFault::Malformed))),
    }
}

// Returns how many changed texts are no key's: with another character at this place, with none there, or with one
// more before it.
fn malformed_at(alloc: Global, text: &str, place: usize) -> Result<u64, AllocError> {
    let mut count = 0u64;
    for other in 0..130u8 {
        let mut changed = Vec::from_slice(alloc, text.as_bytes())?;
        if place < changed.len() {
            match other {
                128 => _ = changed.remove(place),
                129 => changed.insert(place, b'A')?,
                _ => changed[place] = other,
            }
        }
        if is_malformed(alloc, changed.as_slice())? {
            count = count.saturating_add(1);
        }
    }
    Ok(count)
}

// Writes how many changed texts are no key's, over all places.
fn malformed(alloc: Global, text: &str, out: &mut String) -> Told {
    let mut count = 0u64;
    for place in 0..text.len() {
        count = count.saturating_add(malformed_at(alloc, text, place)?);
    }
    let places = text.len();
    write!(out, "{count} malformed of 130 at each of {places} places")
}

// Writes the answer of a call with keys of one kind.
fn answer_of<K: KeyKind>(
    alloc: Global,
    words: &mut Words<'_>,
    text: &str,
    out: &mut String,
) -> Told {
    let call = words.next();
    let word = words.next();
    match call {
        "verifier" => put_verifier_or::<K>(alloc, read_verifier_key(alloc, text), out),
        "signer" => put_signer_or::<K>(alloc, read_signer_key(alloc, text), out),
        "new-verifier" => {
            put_verifier_or::<K>(alloc, VerifierKey::new(alloc, text, &key_of(word)), out)
        }
        "new-signer" => put_signer_or::<K>(alloc, SignerKey::new(alloc, text, &key_of(word)), out),
        "sign" => signed::<K>(alloc, text, bytes_of(alloc, word)?.as_slice(), out),
        _ => verified::<K>(alloc, text, bytes_of(alloc, word)?.as_slice(), words, out),
    }
}

/// Writes the answer of a call.
pub(crate) fn answer(alloc: Global, words: &mut Words<'_>, text: &str, out: &mut String) -> Told {
    match words.next() {
        "note" => answer_of::<Note>(alloc, words, text, out),
        "cosigner" => answer_of::<Cosignature>(alloc, words, text, out),
        "hmac" => {
            let secret = bytes_of(alloc, words.next())?;
            let message = bytes_of(alloc, words.next())?;
            put_hash(out, hmac(secret.as_slice(), message.as_slice()))
        }
        _ => malformed(alloc, text, out),
    }
}
