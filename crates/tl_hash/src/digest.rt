//! Digest functions for the hashes of a tree.

ghost use Rattle.std.specs.Prelude.{◌≡◌, ℕ, ◌+◌, ◌*◌, ◌/◌, ◌<◌, [], ◌∷◌, ◌++◌, length, slice_index_or};
ghost use Rattle.sha2.specs.Sha256.{sha256};
ghost use Rattle.tl_hash.specs.Bytes.{Bytes};
ghost use Rattle.tl_hash.specs.Sha256Length.{length-sha256};

use crate::hash::Hash;
use sha2::{Digest, Sha256};
use tl_lanes::{digest_pairs4, digest4};

/// A digest function H, from byte strings to hashes. H belongs to the type: two values of one type have the same H.
pub trait TreeHash: Copy {
    /// H: the digest of a byte string.
    ghost digest_of: { Bytes → Bytes };

    /// Returns the digest of three pieces, taken as one message.
    fn digest(&self, a: &[u8], b: &[u8], c: &[u8]) -> Hash
        ensures { result ≡ digest_of (a.now ++ b.now ++ c.now) };

    /// Returns the digests of four messages, in order: the byte `tag`, and then `a`, `b`, `c` or `d`. By default it
    /// hashes one after another. A type can hash them side by side.
    fn digest_four(&self, tag: u8, a: &[u8], b: &[u8], c: &[u8], d: &[u8]) -> [Hash; 4]
        ensures a { slice_index_or result 0 [] ≡ digest_of (tag ∷ a.now) }
        ensures b { slice_index_or result 1 [] ≡ digest_of (tag ∷ b.now) }
        ensures c { slice_index_or result 2 [] ≡ digest_of (tag ∷ c.now) }
        ensures d { slice_index_or result 3 [] ≡ digest_of (tag ∷ d.now) }
    {
        [
            self.digest(&[tag], a, &[]),
            self.digest(&[tag], b, &[]),
            self.digest(&[tag], c, &[]),
            self.digest(&[tag], d, &[]),
        ]
    }

    /// Returns the digests of four messages of 65 bytes. Digest `j`, counted from 0, is of the byte `tag`, hash `2 *
    /// j` and hash `2 * j + 1`. A type can hash them side by side, as in `digest_four`.
    fn digest_pairs(&self, tag: u8, hashes: &[Hash; 8]) -> [Hash; 4]
        ensures pairs { (j : ℕ) → j < 4 → slice_index_or result j [] ≡ digest_of (tag
            ∷ (slice_index_or hashes.now (2 * j) [] ++ slice_index_or hashes.now (2 * j + 1) [])) }
    {
        [
            self.digest(&[tag], hashes[0].as_bytes(), hashes[1].as_bytes()),
            self.digest(&[tag], hashes[2].as_bytes(), hashes[3].as_bytes()),
            self.digest(&[tag], hashes[4].as_bytes(), hashes[5].as_bytes()),
            self.digest(&[tag], hashes[6].as_bytes(), hashes[7].as_bytes()),
        ]
    }

    /// Every digest has 32 bytes.
    ghost digest_length: { (message : Bytes) → length (digest_of message) ≡ 32 };
}

/// SHA-256 (FIPS 180-4).
#[derive(Clone, Copy, Debug)]
pub struct Sha256Tree;

// Returns the number of blocks that SHA-256 pads a message to, which is a byte and then `rest`.
pub(crate) fn block_count(rest: &[u8]) -> usize
    ensures { result ≡ (length rest.now + 9) / 64 + 1 }
{
    (rest.len() + 9) / 64 + 1
}

// Reports whether it is faster to hash four such messages side by side than one after another: together they have at
// least twice as many blocks as the longest. (Four blocks side by side take less than twice as long as one.)
fn fill_lanes(a: &[u8], b: &[u8], c: &[u8], d: &[u8]) -> bool {
    let (a, b) = (block_count(a), block_count(b));
    let (c, d) = (block_count(c), block_count(d));
    let longest = a.max(b).max(c.max(d));
    a.saturating_add(b).saturating_add(c).saturating_add(d) / 2 >= longest
}

impl TreeHash for Sha256Tree {
    ghost digest_of = { sha256 };

    fn digest(&self, a: &[u8], b: &[u8], c: &[u8]) -> Hash {
        let mut hasher = Sha256::new();
        hasher.update(a);
        hasher.update(b);
        hasher.update(c);
        Hash::from_bytes(hasher.finalize())
    }

    fn digest_four(&self, tag: u8, a: &[u8], b: &[u8], c: &[u8], d: &[u8]) -> [Hash; 4] {
        if fill_lanes(a, b, c, d) {
            let digests = digest4(tag, a, b, c, d);
            return [
                Hash::from_bytes(digests[0]),
                Hash::from_bytes(digests[1]),
                Hash::from_bytes(digests[2]),
                Hash::from_bytes(digests[3]),
            ];
        }
        [
            self.digest(&[tag], a, &[]),
            self.digest(&[tag], b, &[]),
            self.digest(&[tag], c, &[]),
            self.digest(&[tag], d, &[]),
        ]
    }

    fn digest_pairs(&self, tag: u8, hashes: &[Hash; 8]) -> [Hash; 4] {
        let bytes = [
            *hashes[0].as_bytes(),
            *hashes[1].as_bytes(),
            *hashes[2].as_bytes(),
            *hashes[3].as_bytes(),
            *hashes[4].as_bytes(),
            *hashes[5].as_bytes(),
            *hashes[6].as_bytes(),
            *hashes[7].as_bytes(),
        ];
        let pairs = digest_pairs4(tag, &bytes);
        [
            Hash::from_bytes(pairs[0]),
            Hash::from_bytes(pairs[1]),
            Hash::from_bytes(pairs[2]),
            Hash::from_bytes(pairs[3]),
        ]
    }

    ghost digest_length = { length-sha256 };
}
