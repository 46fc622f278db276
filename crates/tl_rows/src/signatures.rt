//! Rows of Ed25519 signatures. All bytes are in hexadecimal, and `-` stands for no bytes.

use crate::words::{Told, Words, bytes_of, key_of, put_hex, unknown};
use hex::FromHex;
use std::alloc::Global;
use tl_ed25519::{SecretKey, is_valid_public_key, public_key, sign, verify};

// Writes whether something is so.
fn tell(is_so: bool, out: &mut String) -> Told {
    out.push_str(if is_so { "yes" } else { "no" })
}

// Writes the signature of a message by a seed, if a key object makes the same.
fn signed(seed: &[u8; 32], message: &[u8], out: &mut String) -> Told {
    let signature = sign(seed, message);
    if SecretKey::new(seed).sign(message) != signature {
        return out.push_str("two signatures");
    }
    put_hex(out, signature.as_slice())
}

// Writes the public key of a seed, if a key object has the same.
fn public(seed: &[u8; 32], out: &mut String) -> Told {
    let key = public_key(seed);
    if *SecretKey::new(seed).public_key() != key {
        return out.push_str("two public keys");
    }
    put_hex(out, key.as_slice())
}

// Returns the 64 bytes that a word gives, or zeros for any other word.
fn signature_of(word: &str) -> [u8; 64] {
    <[u8; 64] as FromHex>::from_hex(word).unwrap_or([0; 64])
}

// Returns how many bits of the key and of the signature can be changed one by one with the signature still valid.
fn stand_changed(key: &[u8; 32], message: &[u8], signature: &[u8; 64]) -> u64 {
    let mut count = 0u64;
    for bit in 0..256usize {
        let mut other = *key;
        other[bit / 8] ^= 1u8 << (bit % 8);
        if verify(&other, message, signature) {
            count = count.saturating_add(1);
        }
    }
    for bit in 0..512usize {
        let mut other = *signature;
        other[bit / 8] ^= 1u8 << (bit % 8);
        if verify(key, message, &other) {
            count = count.saturating_add(1);
        }
    }
    count
}

// Returns in how many bytes of the message one bit can be changed with the signature still valid. At the end the
// message is as it was.
fn stand_of_others(key: &[u8; 32], message: &mut [u8], signature: &[u8; 64]) -> u64 {
    let mut count = 0u64;
    for place in 0..message.len() {
        message[place] ^= 1 << 4;
        if verify(key, message, signature) {
            count = count.saturating_add(1);
        }
        message[place] ^= 1 << 4;
    }
    count
}

// Writes how many changes of one bit leave the signature valid: each bit of the key and the signature, and one of
// each byte of the message.
fn changed(key: &[u8; 32], message: &mut [u8], signature: &[u8; 64], out: &mut String) -> Told {
    let count = stand_changed(key, message, signature);
    let count = count.saturating_add(stand_of_others(key, message, signature));
    let stands = verify(key, message, signature);
    write!(out, "{count} of those changed, and {stands} as it is")
}

/// Writes the answer of a call.
pub(crate) fn answer(alloc: Global, words: &mut Words<'_>, out: &mut String) -> Told {
    let call = words.next();
    let key = key_of(words.next());
    let mut message = bytes_of(alloc, words.next())?;
    let signature = signature_of(words.next());
    match call {
        "public" => public(&key, out),
        "sign" => signed(&key, message.as_slice(), out),
        "verify" => tell(verify(&key, message.as_slice(), &signature), out),
        "sound" => tell(is_valid_public_key(&key), out),
        "changed" => changed(&key, message.as_mut_slice(), &signature, out),
        _ => unknown(out),
    }
}
