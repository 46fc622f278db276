//! A key for demonstrations: HMAC with SHA-256, as signer and verifier. The verifier has the secret.

ghost use Rattle.std.specs.Prelude.{◌≡◌, ◌⊎◌, ◌++◌, ◌∷◌, IfOk, IfErr, codes};
ghost use Rattle.sha2.specs.Sha256.{sha256};
ghost use Rattle.tl_note.specs.Key.{IsKeyName};
ghost use Rattle.tl_key.specs.DemoKey as spec;

use crate::identifier::first_four;
use crate::keyed_hash::hmac;
use std::alloc::{Allocator, Global};
use std::marker::Model;
use tl_hash::{Hash, Sha256Tree, TreeHash};
use tl_note::{NoteFault, SignFault, Signer, Verifier, is_key_name};

// Returns the digest of a key's name, its kind and its secret's digest.
fn key_digest(name: &str, secret_digest: Hash) -> Hash
    ensures { result
        ≡ sha256 (name.now ++ (0x0A ∷ 0xFF ∷ codes "tlog-demo-hmac-sha256") ++ secret_digest) }
{
    Sha256Tree.digest(
        name.as_bytes(),
        b"\n\xfftlog-demo-hmac-sha256",
        secret_digest.as_bytes(),
    )
}

// Returns the identifier of the key with this name and secret.
fn id_of(name: &str, secret: &[u8]) -> u32
    ensures { result ≡ spec.demo_id name.now secret.now }
{
    let secret_digest = Sha256Tree.digest(secret, &[], &[]);
    first_four(key_digest(name, secret_digest))
}

/// A key that signs and verifies with one secret, for demonstrations only.
#[derive(Drop)]
pub struct DemoKey<A: Allocator> {
    name: String<A>,
    secret: Vec<u8, A>,
    id: u32,
}

impl<A: Allocator> Model for DemoKey<A> {
    ghost use Rattle.std.specs.Prelude.{◌≡◌, string_bytes, vec_items};
    ghost use Rattle.tl_key.specs.DemoKey.{Demo, demo_id};

    ghost Value = { Demo };

    ghost view = { λ k. record { name = string_bytes k.name; secret = vec_items k.secret } };

    ghost invariant = { λ k. k.id ≡ demo_id (string_bytes k.name) (vec_items k.secret) };
}

/// Returns the demonstration key with this name and secret. It fails with `BadName(0)` if the name is no key's name.
pub fn demo_key<A: Allocator + Copy>(
    alloc: A,
    name: &str,
    secret: &[u8],
) -> Result<DemoKey<A>, NoteFault>
    ensures key { IfOk result
        (λ k. (k ≡ record { name = name.now; secret = secret.now }) × IsKeyName name.now) }
    ensures fault { IfErr result (λ fault. ((fault ≡ NoteFault.BadName 0) × ¬ (IsKeyName name.now))
        ⊎ (fault ≡ NoteFault.OutOfMemory)) }
{
    if !is_key_name(name) {
        return Err(NoteFault::BadName(0));
    }
    let id = id_of(name, secret);
    Ok(DemoKey {
        name: String::from_str(alloc, name)?,
        secret: Vec::from_slice(alloc, secret)?,
        id,
    })
}

impl<A: Allocator + Send + Sync> Signer for DemoKey<A> {
    ghost use Rattle.tl_key.specs.DemoKey.{demo_signing_key};

    ghost signing_key = { λ k. demo_signing_key k };

    fn name(&self) -> &str {
        self.name.as_str()
    }

    fn key_id(&self) -> u32 {
        self.id
    }

    fn sign(&self, alloc: Global, message: &[u8]) -> Result<Vec<u8>, SignFault> {
        let signature = hmac(self.secret.as_slice(), message);
        match Vec::from_slice(alloc, signature.as_bytes()) {
            Ok(bytes) => Ok(bytes),
            Err(_) => Err(SignFault::OutOfMemory),
        }
    }
}

impl<A: Allocator + Send + Sync> Verifier for DemoKey<A> {
    ghost use Rattle.tl_key.specs.DemoKey.{demo_verifier_key};

    ghost key = { λ k. demo_verifier_key k };

    fn name(&self) -> &str {
        self.name.as_str()
    }

    fn key_id(&self) -> u32 {
        self.id
    }

    fn verify(&self, message: &[u8], signature: &[u8]) -> bool {
        signature == hmac(self.secret.as_slice(), message).as_bytes().as_slice()
    }
}
