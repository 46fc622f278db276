//! Secret keys: the public key of a seed, and signatures under it (RFC 8032, sections 5.1.5 and 5.1.6).

ghost use Rattle.std.specs.Prelude.{◌≡◌, ℕ, ◌^◌, ◌<◌, take, drop};
ghost use Rattle.sha2.specs.Sha512.{sha512};
ghost use Rattle.tl_ed25519.specs.Curve as curve;
ghost use Rattle.tl_ed25519.specs.Curve.{little_endian};
ghost use Rattle.tl_ed25519.specs.Eddsa.{clamp, public_key, secret, sign};

use crate::halves::{copy_of, first_half, join, second_half};
use crate::hashing::{digest_of, number_of_three, number_of_two};
use crate::point::Point;
use crate::scalar;
use crate::words::Words;
use std::marker::Model;

/// The secret key of a seed, which signs. A contract sees it as the seed's bytes.
///
/// It keeps what every signature needs: the secret number, the prefix and the public key (RFC 8032, section 5.1.5).
/// Its memory isn't erased when it is dropped.
#[derive(Drop)]
pub struct SecretKey {
    seed: [u8; 32],
    number: Words,
    prefix: [u8; 32],
    public: [u8; 32],
}

impl Model for SecretKey {
    ghost use Rattle.std.specs.Prelude.{◌≡◌, List, ℕ, drop};
    ghost use Rattle.sha2.specs.Sha512.{sha512};
    ghost use Rattle.tl_ed25519.specs.Eddsa.{public_key, secret};

    ghost Value = { List ℕ };

    ghost view = { λ k. k.seed };

    ghost invariant = { λ k. (k.number ≡ secret k.seed)
        × (k.prefix ≡ drop 32 (sha512 k.seed)) × (k.public ≡ public_key k.seed) };
}

// Returns the secret number of a seed's digest.
fn secret_of(digest: &[u8; 64]) -> Words
    ensures { result ≡ clamp (little_endian (take 32 digest.now)) }
{
    let number = Words::from_bytes(first_half(digest));
    number.clamp()
}

// Returns the encoding of a multiple of the base point.
fn multiple_of_base(scalar: Words) -> [u8; 32]
    ensures { result ≡ curve.encode (curve.multiply scalar curve.base_point) }
{
    let multiple = Point::multiply_base(scalar);
    multiple.encode()
}

impl SecretKey {
    /// Returns the secret key of a seed of 32 bytes, which must be random and known to no one else. It never fails.
    pub fn new(seed: &[u8; 32]) -> SecretKey
        ensures { result ≡ seed.now }
    {
        let digest = digest_of(seed);
        let number = secret_of(&digest);
        let prefix = copy_of(second_half(&digest));
        let public = multiple_of_base(number.again());
        SecretKey {
            seed: *seed,
            number,
            prefix,
            public,
        }
    }

    /// Returns the seed of the key.
    pub fn seed(&self) -> &[u8; 32]
        ensures { result.now ≡ self.now }
    {
        &self.seed
    }

    /// Returns the public key: 32 bytes, the encoding of a point (RFC 8032, section 5.1.5).
    pub fn public_key(&self) -> &[u8; 32]
        ensures { result.now ≡ public_key self.now }
    {
        &self.public
    }

    /// Returns the signature of a message of any length: the 32 bytes of R, then the 32 bytes of S, lowest byte first
    /// (RFC 8032, section 5.1.6). The same message always gets the same signature. It never fails.
    pub fn sign(&self, message: &[u8]) -> [u8; 64]
        ensures { result ≡ sign self.now message.now }
    {
        let r = number_of_two(&self.prefix, message);
        let point = multiple_of_base(r.again());
        let k = number_of_three(&point, &self.public, message);
        let s = scalar::multiply_add(r, k, self.number.again());
        let tail = s.to_bytes();
        join(&point, &tail)
    }
}

/// Returns the public key of a seed: 32 bytes, the encoding of a point (RFC 8032, section 5.1.5). It never fails.
pub fn public_key(seed: &[u8; 32]) -> [u8; 32]
    ensures { result ≡ public_key seed.now }
{
    let key = SecretKey::new(seed);
    *key.public_key()
}

/// Returns the signature of a message of any length under a seed (RFC 8032, section 5.1.6). It never fails.
///
/// It makes a `SecretKey` of the seed each time, which doubles the cost. To sign more than once, keep a `SecretKey`.
pub fn sign(seed: &[u8; 32], message: &[u8]) -> [u8; 64]
    ensures { result ≡ sign seed.now message.now }
{
    let key = SecretKey::new(seed);
    key.sign(message)
}
