//! HMAC with SHA-256.

ghost use Rattle.std.specs.Prelude.{◌≡◌, ◌≤◌, ◌-◌, ◌++◌, length, replicate};
ghost use Rattle.tl_key.specs.Hmac as spec;

use tl_hash::{Hash, Sha256Tree, TreeHash};

// Returns these bytes, filled up with zeros to a block.
fn filled(bytes: &[u8]) -> [u8; 64]
    requires { length bytes.now ≤ 64 }
    ensures { result ≡ bytes.now ++ replicate (64 - length bytes.now) 0 }
{
    let mut block = [0u8; 64];
    block[..bytes.len()].copy_from_slice(bytes);
    block
}

// Returns the secret, or its digest if it is longer than a block, filled up with zeros to a block.
fn block_of(secret: &[u8]) -> [u8; 64]
    ensures block { result ≡ spec.secret_block secret.now }
    ensures length { length result ≡ 64 }
{
    if secret.len() > 64 {
        filled(Sha256Tree.digest(secret, &[], &[]).as_bytes())
    } else {
        filled(secret)
    }
}

// Returns the block of the secret, with each byte combined with the pad by exclusive or.
fn padded(secret: &[u8], pad: u8) -> [u8; 64]
    ensures { result ≡ spec.padded_secret secret.now pad }
{
    let mut block = block_of(secret);
    for byte in block.iter_mut() {
        *byte ^= pad;
    }
    block
}

/// Returns the HMAC with SHA-256 of a message under a secret (RFC 2104, with a block of 64 bytes). It allocates
/// nothing.
pub fn hmac(secret: &[u8], message: &[u8]) -> Hash
    ensures { result ≡ spec.hmac secret.now message.now }
{
    let inner = Sha256Tree.digest(&padded(secret, 0x36), message, &[]);
    Sha256Tree.digest(&padded(secret, 0x5c), inner.as_bytes(), &[])
}
