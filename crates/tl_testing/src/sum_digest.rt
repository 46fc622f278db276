//! A weak digest, for which collisions are easily found.

ghost use Rattle.std.specs.Prelude.{◌≡◌, ◌+◌, ◌%◌, sum};
ghost use Rattle.tl_testing.specs.SumDigest.{sum_digest, length-sum_digest};

use tl_hash::{Hash, TreeHash};

/// The digest whose first byte is the sum of all bytes modulo 256; 31 zero bytes follow.
#[derive(Clone, Copy, Debug)]
pub struct SumDigest;

// Returns the sum modulo 256 with these bytes added.
fn add_bytes(start: u8, bytes: &[u8]) -> u8
    ensures { result ≡ (start + sum bytes.now) % 256 }
{
    let mut total = start;
    for byte in bytes {
        total = total.wrapping_add(*byte);
    }
    total
}

impl TreeHash for SumDigest {
    ghost digest_of = { sum_digest };

    fn digest(&self, a: &[u8], b: &[u8], c: &[u8]) -> Hash {
        let mut bytes = [0u8; 32];
        bytes[0] = add_bytes(add_bytes(add_bytes(0, a), b), c);
        Hash::from_bytes(bytes)
    }

    ghost digest_length = { length-sum_digest };
}
