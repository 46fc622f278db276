//! Verifier's keys of Ed25519, and their texts.

ghost use Rattle.std.specs.Prelude.{◌≡◌, IfOk, IsTrue, MatchOption, string_bytes};
ghost use Rattle.tl_ed25519.specs.Eddsa.{is_valid_public_key};
ghost use Rattle.tl_key.specs.KeyText.{IsVerifierText, verifier_text};
ghost use Rattle.tl_key.specs.NoteKey.{IsKept, is_valid, key_id};
ghost use Rattle.tl_key.specs.Reading.{IsNoVerifierText, MakesVerifier, ReadsVerifier};

use crate::fault::KeyFault;
use crate::identifier::{are_digits_of, id_of};
use crate::kind::{Cosignature, KeyKind, Note};
use crate::parts::{after_kind, push_tail, read_parts};
use std::alloc::{AllocError, Allocator};
use std::marker::{Model, PhantomData};
use tl_ed25519::{is_valid_public_key, verify};
use tl_note::{Verifier, is_key_name};

/// A verifier's key of a type: a name and an Ed25519 public key. A contract sees it as a `PublicKey`.
#[derive(Drop)]
pub struct VerifierKey<K: KeyKind, A: Allocator> {
    name: String<A>,
    key: [u8; 32],
    id: u32,
    kind: PhantomData<K>,
}

/// A key that verifies notes.
pub type NoteVerifier<A> = VerifierKey<Note, A>;

/// A key that verifies cosignatures.
pub type CosignerVerifier<A> = VerifierKey<Cosignature, A>;

impl<K: KeyKind, A: Allocator> Model for VerifierKey<K, A> {
    ghost use Rattle.std.specs.Prelude.{string_bytes};
    ghost use Rattle.tl_key.specs.NoteKey.{IsKept, PublicKey};

    ghost Value = { PublicKey };

    ghost view = { λ k. record { name = string_bytes k.name; kind = K.KIND; key = k.key } };

    ghost invariant = { λ k. IsKept (string_bytes k.name) K.KIND k.key k.id };
}

impl<K: KeyKind, A: Allocator> VerifierKey<K, A> {
    /// Returns the key with this name and public key, of 32 bytes. It fails with `BadName` if the name is no key's
    /// name, and else with `Unsound` if the public key isn't fit for use (`tl_ed25519::is_valid_public_key`).
    pub fn new(alloc: A, name: &str, key: &[u8; 32]) -> Result<VerifierKey<K, A>, KeyFault>
        ensures { MakesVerifier (record { name = name.now; kind = K.KIND; key = key.now }) result }
    {
        if !is_key_name(name) {
            return Err(KeyFault::BadName);
        }
        if !is_valid_public_key(key) {
            return Err(KeyFault::Unsound);
        }
        let id = id_of(name, K::KIND, key);
        Ok(VerifierKey::made(alloc, name, *key, id)?)
    }

    /// Returns the 32 bytes of the public key.
    pub fn public_key(&self) -> &[u8; 32]
        ensures { result.now ≡ self.now.key }
    {
        &self.key
    }

    // Returns the key with this identifier, which is its own.
    pub(crate) fn made(
        alloc: A,
        name: &str,
        key: [u8; 32],
        id: u32,
    ) -> Result<VerifierKey<K, A>, AllocError>
        requires { IsKept name.now K.KIND key id }
        ensures { IfOk result (λ k. k ≡ record { name = name.now; kind = K.KIND; key = key }) }
    {
        Ok(VerifierKey {
            name: String::from_str(alloc, name)?,
            key,
            id,
            kind: PhantomData,
        })
    }
}

// Reports whether these are 64 bytes, and a valid signature of the message.
fn is_valid(key: &[u8; 32], message: &[u8], signature: &[u8]) -> bool
    ensures { result ≡ is_valid key.now message.now signature.now }
{
    if signature.len() != 64 {
        return false;
    }
    let mut whole = [0; 64];
    whole.copy_from_slice(signature);
    verify(key, message, &whole)
}

impl<K: KeyKind, A: Allocator + Send + Sync> Verifier for VerifierKey<K, A> {
    ghost use Rattle.tl_key.specs.NoteKey.{verifier_key};

    ghost key = { λ k. verifier_key k };

    fn name(&self) -> &str {
        self.name.as_str()
    }

    fn key_id(&self) -> u32 {
        self.id
    }

    fn verify(&self, message: &[u8], signature: &[u8]) -> bool {
        is_valid(&self.key, message, signature)
    }
}

// The parts of the text of a verifier's key.
#[derive(Drop)]
struct Found<'t> {
    name: &'t str,
    key: [u8; 32],
    id: u32,
}

// Reads the text of a verifier's key of this type. It allocates nothing.
fn find(kind: u8, text: &str) -> Option<Found<'_>>
    ensures { MatchOption result (IsNoVerifierText kind text.now) (λ found. IsVerifierText
        kind text.now (record { name = found.name.now; kind = kind; key = found.key })
        × (found.id ≡ key_id found.name.now kind found.key)) }
{
    let Some(parts) = read_parts(text) else {
        return None;
    };
    if parts.bytes[0] != kind {
        return None;
    }
    let key = after_kind(&parts.bytes);
    let id = id_of(parts.name, kind, &key);
    if !are_digits_of(parts.digits, id) {
        return None;
    }
    if !is_valid_public_key(&key) {
        return None;
    }
    Some(Found {
        name: parts.name,
        key,
        id,
    })
}

/// Reads the text of a verifier's key, as `write_verifier_key` writes it, without a newline (C2SP signed-note,
/// "Verifier keys"). It takes only a key of the type asked for that is fit for use, and otherwise fails with
/// `Malformed`. It allocates only if the text is right.
pub fn read_verifier_key<K: KeyKind, A: Allocator>(
    alloc: A,
    text: &str,
) -> Result<VerifierKey<K, A>, KeyFault>
    ensures { ReadsVerifier K.KIND text.now result }
{
    let Some(found) = find(K::KIND, text) else {
        return Err(KeyFault::Malformed);
    };
    Ok(VerifierKey::made(alloc, found.name, found.key, found.id)?)
}

/// Returns the text of a verifier's key: `<name>+<identifier>+<base64 of the type and the public key>`. It is read
/// back by `read_verifier_key` if the key is fit for use. It fails only if allocation fails.
pub fn write_verifier_key<K: KeyKind, B: Allocator, A: Allocator + Copy>(
    alloc: A,
    key: &VerifierKey<K, B>,
) -> Result<String<A>, AllocError>
    ensures text { IfOk result (λ text. string_bytes text ≡ verifier_text key.now) }
    ensures lawful { IfOk result (λ text. IsTrue (is_valid_public_key key.now.key)
        → IsVerifierText K.KIND (string_bytes text) key.now) }
{
    let mut text = String::from_str(alloc, key.name.as_str())?;
    push_tail(alloc, &mut text, key.id, K::KIND, &key.key)?;
    Ok(text)
}
