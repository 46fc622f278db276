//! Identifiers of keys: the first four bytes of a digest.

ghost use Rattle.std.specs.Prelude.{◌≡◌, ◌++◌, ◌∷◌, take, bytes_eq};
ghost use Rattle.std.specs.Int.{w32, from_be_bytes};
ghost use Rattle.sha2.specs.Sha256.{sha256};
ghost use Rattle.tl_key.specs.KeyText.{hex8};
ghost use Rattle.tl_key.specs.NoteKey.{key_id};

use tl_hash::{Hash, Sha256Tree, TreeHash};

// Returns the first four bytes of a hash, big-endian.
pub(crate) fn first_four(hash: Hash) -> u32
    ensures { result ≡ from_be_bytes w32 (take 4 hash) }
{
    let [a, b, c, d, ..] = hash.as_bytes();
    u32::from_be_bytes([*a, *b, *c, *d])
}

// Returns the digest of a key's name, a newline, its type and its public key.
fn key_digest(name: &str, kind: u8, key: &[u8; 32]) -> Hash
    ensures { result ≡ sha256 (name.now ++ (0x0A ∷ kind ∷ key.now)) }
{
    Sha256Tree.digest(name.as_bytes(), &[b'\n', kind], key)
}

// Returns the identifier of the key with this name, type and public key.
pub(crate) fn id_of(name: &str, kind: u8, key: &[u8; 32]) -> u32
    ensures { result ≡ key_id name.now kind key.now }
{
    first_four(key_digest(name, kind, key))
}

// Reports whether these are the eight digits of an identifier.
pub(crate) fn are_digits_of(digits: &[u8], id: u32) -> bool
    ensures { result ≡ bytes_eq digits.now (hex8 id) }
{
    let mut text = [0; 8];
    match hex::encode_to_slice(id.to_be_bytes(), &mut text) {
        Ok(()) => digits == text.as_slice(),
        Err(_) => unreachable!(),
    }
}
