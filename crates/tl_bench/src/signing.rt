//! Measures Ed25519 signatures and their checks.

use std::io;
use std::time::{Clock, Duration, Instant};
use tl_ed25519::{SecretKey, sign, verify};

// How many signatures of each kind are made and checked.
const COUNT: u64 = 4_000;

// Returns how many microseconds one of them took.
fn each(took: Duration) -> u128 {
    took.as_micros() / COUNT as u128
}

// Signs messages with a key object, and checks each signature. Returns how long both took, and how many were
// accepted.
fn measured<R: Clock>(rt: &R, key: &SecretKey) -> io::Result<(Duration, Duration, u64)> {
    let mut making = Duration::ZERO;
    let mut checking = Duration::ZERO;
    let mut accepted = 0u64;
    for number in 0..COUNT {
        let message = number.to_be_bytes();
        let start = Instant::now(rt)?;
        let signature = key.sign(&message);
        making = making.saturating_add(start.elapsed(rt)?);
        let start = Instant::now(rt)?;
        let is_valid = verify(key.public_key(), &message, &signature);
        checking = checking.saturating_add(start.elapsed(rt)?);
        accepted = accepted.saturating_add(is_valid as u64);
    }
    Ok((making, checking, accepted))
}

/// Prints how long a signature and its check take, with a key object and from a seed.
pub(crate) fn keys<R: Clock + Print>(rt: &R) -> io::Result<bool> {
    let seed = [7u8; 32];
    let (making, checking, accepted) = measured(rt, &SecretKey::new(&seed))?;
    println!(rt;
        "sign with a key object: {} us; verify: {} us; {accepted} of {COUNT} accepted",
        each(making),
        each(checking)
    )?;
    let mut last = 0u8;
    let start = Instant::now(rt)?;
    for number in 0..COUNT {
        last ^= sign(&seed, &number.to_be_bytes())[0];
    }
    let took = start.elapsed(rt)?;
    println!(rt; "sign from a seed: {} us ({last})", each(took))?;
    Ok(true)
}
