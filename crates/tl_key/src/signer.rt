//! Signer's keys of Ed25519, and their texts.

ghost use Rattle.std.specs.Prelude.{◌≡◌, IfOk, MatchOption, string_bytes};
ghost use Rattle.tl_ed25519.specs.Eddsa.{public_key};
ghost use Rattle.tl_key.specs.KeyText.{IsSignerText, private_text};
ghost use Rattle.tl_key.specs.NoteKey.{IsKept, key_id, public_of};
ghost use Rattle.tl_key.specs.Reading.{IsNoSignerText, MakesSigner, ReadsSigner};

use crate::fault::KeyFault;
use crate::identifier::{are_digits_of, id_of};
use crate::kind::{Cosignature, KeyKind, Note};
use crate::parts::{after_kind, push_tail, read_parts};
use crate::verifier::VerifierKey;
use std::alloc::{AllocError, Allocator, Global};
use std::marker::{Model, PhantomData};
use tl_ed25519::SecretKey;
use tl_note::{SignFault, Signer, is_key_name};

/// A signer's key of a type: a name and an Ed25519 seed. A contract sees it as a `SeedKey`. Its memory isn't erased
/// when it is dropped.
#[derive(Drop)]
pub struct SignerKey<K: KeyKind, A: Allocator> {
    name: String<A>,
    secret: SecretKey,
    id: u32,
    kind: PhantomData<K>,
}

/// A key that signs notes.
pub type NoteSigner<A> = SignerKey<Note, A>;

/// A key that cosigns checkpoints.
pub type CosignerSigner<A> = SignerKey<Cosignature, A>;

impl<K: KeyKind, A: Allocator> Model for SignerKey<K, A> {
    ghost use Rattle.std.specs.Prelude.{string_bytes};
    ghost use Rattle.tl_ed25519.specs.Eddsa.{public_key};
    ghost use Rattle.tl_key.specs.NoteKey.{IsKept, SeedKey};

    ghost Value = { SeedKey };

    ghost view = { λ k. record { name = string_bytes k.name; kind = K.KIND; seed = k.secret } };

    ghost invariant = { λ k. IsKept (string_bytes k.name) K.KIND (public_key k.secret) k.id };
}

impl<K: KeyKind, A: Allocator> SignerKey<K, A> {
    /// Returns the key with this name and seed, 32 bytes that must be random and known to no one else. It fails with
    /// `BadName` if the name is no key's name.
    pub fn new(alloc: A, name: &str, seed: &[u8; 32]) -> Result<SignerKey<K, A>, KeyFault>
        ensures { MakesSigner (record { name = name.now; kind = K.KIND; seed = seed.now }) result }
    {
        if !is_key_name(name) {
            return Err(KeyFault::BadName);
        }
        let secret = SecretKey::new(seed);
        let id = id_of(name, K::KIND, secret.public_key());
        Ok(SignerKey::made(alloc, name, secret, id)?)
    }

    /// Returns the verifier's key for this signer's key. It fails only if allocation fails.
    pub fn verifier<B: Allocator>(&self, alloc: B) -> Result<VerifierKey<K, B>, AllocError>
        ensures { IfOk result (λ k. k ≡ public_of self.now) }
    {
        let key = *self.secret.public_key();
        VerifierKey::made(alloc, self.name.as_str(), key, self.id)
    }

    // Returns the key with this identifier, which is its own.
    fn made(alloc: A, name: &str, secret: SecretKey, id: u32) -> Result<SignerKey<K, A>, AllocError>
        requires { IsKept name.now K.KIND (public_key secret) id }
        ensures { IfOk result (λ k. k ≡ record { name = name.now; kind = K.KIND; seed = secret }) }
    {
        Ok(SignerKey {
            name: String::from_str(alloc, name)?,
            secret,
            id,
            kind: PhantomData,
        })
    }
}

impl<K: KeyKind, A: Allocator + Send + Sync> Signer for SignerKey<K, A> {
    ghost use Rattle.tl_key.specs.NoteKey.{signer_key};

    ghost signing_key = { λ k. signer_key k };

    fn name(&self) -> &str {
        self.name.as_str()
    }

    fn key_id(&self) -> u32 {
        self.id
    }

    fn sign(&self, alloc: Global, message: &[u8]) -> Result<Vec<u8>, SignFault> {
        let signature = self.secret.sign(message);
        match Vec::from_slice(alloc, signature.as_slice()) {
            Ok(bytes) => Ok(bytes),
            Err(_) => Err(SignFault::OutOfMemory),
        }
    }
}

// The parts of the text of a signer's key.
#[derive(Drop)]
struct Found<'t> {
    name: &'t str,
    secret: SecretKey,
    id: u32,
}

// Reads the text of a signer's key of this type. It allocates nothing.
fn find(kind: u8, text: &str) -> Option<Found<'_>>
    ensures { MatchOption result (IsNoSignerText kind text.now) (λ found. IsSignerText kind text.now
        (record { name = found.name.now; kind = kind; seed = found.secret })
        × (found.id ≡ key_id found.name.now kind (public_key found.secret))) }
{
    let Some(public) = text.strip_prefix("PRIVATE+KEY+") else {
        return None;
    };
    let Some(parts) = read_parts(public) else {
        return None;
    };
    if parts.bytes[0] != kind {
        return None;
    }
    let secret = SecretKey::new(&after_kind(&parts.bytes));
    let id = id_of(parts.name, kind, secret.public_key());
    if !are_digits_of(parts.digits, id) {
        return None;
    }
    Some(Found {
        name: parts.name,
        secret,
        id,
    })
}

/// Reads the text of a signer's key, as `write_signer_key` writes it, without a newline. It takes only a key of the
/// type asked for, and otherwise fails with `Malformed`. It allocates only if the text is right.
pub fn read_signer_key<K: KeyKind, A: Allocator>(
    alloc: A,
    text: &str,
) -> Result<SignerKey<K, A>, KeyFault>
    ensures { ReadsSigner K.KIND text.now result }
{
    let Some(found) = find(K::KIND, text) else {
        return Err(KeyFault::Malformed);
    };
    Ok(SignerKey::made(alloc, found.name, found.secret, found.id)?)
}

/// Returns the text of a signer's key: `PRIVATE+KEY+<name>+<identifier>+<base64 of the type and the seed>`. It is
/// read back by `read_signer_key`, and whoever has it can sign. It fails only if allocation fails.
pub fn write_signer_key<K: KeyKind, B: Allocator, A: Allocator + Copy>(
    alloc: A,
    key: &SignerKey<K, B>,
) -> Result<String<A>, AllocError>
    ensures text { IfOk result (λ text. string_bytes text ≡ private_text key.now) }
    ensures lawful { IfOk result (λ text. IsSignerText K.KIND (string_bytes text) key.now) }
{
    let mut text = String::from_str(alloc, "PRIVATE+KEY+")?;
    text.push_str(key.name.as_str())?;
    push_tail(alloc, &mut text, key.id, K::KIND, key.secret.seed())?;
    Ok(text)
}
