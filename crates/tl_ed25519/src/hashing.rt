//! SHA-512 digests, also as numbers mod L (RFC 8032, section 5.1.6).

ghost use Rattle.std.specs.Prelude.{◌≡◌, ◌++◌};
ghost use Rattle.sha2.specs.Sha512.{sha512};
ghost use Rattle.tl_ed25519.specs.Eddsa.{hash_number};

use crate::scalar;
use crate::words::Words;
use sha2::{Digest, Sha512};

// Returns the digest of a message.
pub(crate) fn digest_of(message: &[u8]) -> [u8; 64]
    ensures { result ≡ sha512 message.now }
{
    Sha512::digest(message)
}

// Returns the digest of two pieces, one after the other.
fn digest_of_two(first: &[u8], second: &[u8]) -> [u8; 64]
    ensures { result ≡ sha512 (first.now ++ second.now) }
{
    let mut hasher = Sha512::new();
    hasher.update(first);
    hasher.update(second);
    hasher.finalize()
}

// Returns the digest of three pieces, one after the other.
fn digest_of_three(first: &[u8], second: &[u8], third: &[u8]) -> [u8; 64]
    ensures { result ≡ sha512 (first.now ++ second.now ++ third.now) }
{
    let mut hasher = Sha512::new();
    hasher.update(first);
    hasher.update(second);
    hasher.update(third);
    hasher.finalize()
}

// Returns the digest of two pieces as a number mod L.
pub(crate) fn number_of_two(first: &[u8], second: &[u8]) -> Words
    ensures { result ≡ hash_number (first.now ++ second.now) }
{
    scalar::reduce(&digest_of_two(first, second))
}

// Returns the digest of three pieces as a number mod L.
pub(crate) fn number_of_three(first: &[u8], second: &[u8], third: &[u8]) -> Words
    ensures { result ≡ hash_number (first.now ++ second.now ++ third.now) }
{
    scalar::reduce(&digest_of_three(first, second, third))
}
