//! The logs that a witness trusts.

ghost use Rattle.std.specs.Prelude.{◌≡◌, ◌↔◌, All, IsTrue, MatchOption, map, string_bytes};
ghost use Rattle.tl_hash.specs.Bytes.{Bytes};
ghost use Rattle.tl_note.specs.Key.{IsKeyName};
ghost use Rattle.tl_witness.specs.Open.{HasEachKeyOnce, HasTwice, IsAmong, IsFirstNot, key_name};

use crate::by_origin::OfOrigin;
use std::alloc::Allocator;
use tl_note::{Signer, Verifier, is_key_name};

/// A log whose checkpoints the witness cosigns.
#[derive(Drop)]
pub struct Trust<A: Allocator> {
    /// The origin of the log's checkpoints.
    pub origin: String<A>,
    /// The verifiers of the log's signatures. A checkpoint is cosigned only if one of them has a valid signature on
    /// it, and none an invalid one.
    pub verifiers: Vec<Box<dyn Verifier>, A>,
    /// The signer that cosigns for this origin.
    pub cosigner: Box<dyn Signer>,
}

/// What contracts see of a trust.
pub trait ShownTrust {
    ghost use Rattle.tl_witness.specs.Open.{Trusted};

    ghost trusted: { Self → Trusted };
}

impl<A: Allocator> ShownTrust for Trust<A> {
    ghost trusted = { λ t. record {
      origin = string_bytes t.origin;
      verifiers = map (λ v. (Verifier-box v).key v.value) t.verifiers.items;
      cosigner = (Signer-box t.cosigner).signing_key t.cosigner.value;
    } };
}

impl<A: Allocator> OfOrigin for Trust<A> {
    ghost origin_of = { λ t. string_bytes t.origin };

    fn origin(&self) -> &str {
        self.origin.as_str()
    }
}

// Reports whether the verifier has this name and identifier.
fn is_key(verifier: &Box<dyn Verifier>, name: &str, id: u32) -> bool
    ensures { IsTrue result ↔ (key_name (key verifier.now) ≡ (name.now, id)) }
{
    verifier.name() == name && verifier.key_id() == id
}

// Reports whether one of the verifiers has this name and identifier.
fn has_key(verifiers: &[Box<dyn Verifier>], name: &str, id: u32) -> bool
    ensures { IsTrue result
        ↔ IsAmong (name.now, id) (map key_name (map (λ v. key v) verifiers.now)) }
{
    match verifiers {
        [] => false,
        [first, rest @ ..] => is_key(first, name, id) || has_key(rest, name, id),
    }
}

// Reports whether another verifier has this one's name and identifier.
fn is_again(verifier: &Box<dyn Verifier>, others: &[Box<dyn Verifier>]) -> bool
    ensures { IsTrue result
        ↔ IsAmong (key_name (key verifier.now)) (map key_name (map (λ v. key v) others.now)) }
{
    has_key(others, verifier.name(), verifier.key_id())
}

// Reports whether two verifiers have the same name and identifier.
fn is_key_twice(verifiers: &[Box<dyn Verifier>]) -> bool
    ensures { IsTrue result ↔ HasTwice (map key_name (map (λ v. key v) verifiers.now)) }
{
    match verifiers {
        [] => false,
        [first, rest @ ..] => {
            if is_again(first, rest) {
                return true;
            }
            is_key_twice(rest)
        }
    }
}

// Reports whether the cosigner has a valid key name.
fn is_named(cosigner: &Box<dyn Signer>) -> bool
    ensures { IsTrue result ↔ IsKeyName (signing_key cosigner.now).name }
{
    is_key_name(cosigner.name())
}

/// Something that has verifiers and a cosigner.
pub(crate) trait HasKeys {
    ghost use Rattle.std.specs.Prelude.{List, ℕ};
    ghost use Rattle.tl_note.specs.Key.{Key};

    ghost keys: { Self → List Key };

    ghost cosigner_name: { Self → Bytes };

    /// Reports whether no two verifiers have the same name and identifier.
    fn has_each_key_once(&self) -> bool
        ensures { IsTrue result ↔ HasEachKeyOnce (keys self.now) };

    /// Reports whether the cosigner has a valid key name.
    fn has_named_cosigner(&self) -> bool
        ensures { IsTrue result ↔ IsKeyName (cosigner_name self.now) };
}

impl<A: Allocator> HasKeys for Trust<A> {
    ghost keys = { λ t. map (λ v. (Verifier-box v).key v.value) t.verifiers.items };

    ghost cosigner_name = { λ t. ((Signer-box t.cosigner).signing_key t.cosigner.value).name };

    fn has_each_key_once(&self) -> bool {
        if is_key_twice(self.verifiers.as_slice()) {
            return false;
        }
        true
    }

    fn has_named_cosigner(&self) -> bool {
        is_named(&self.cosigner)
    }
}

/// Reports whether no trust has two verifiers of the same name and identifier.
pub(crate) fn are_keys_once<N: HasKeys>(trusts: &[N]) -> bool
    ensures { IsTrue result ↔ All HasEachKeyOnce (map N.keys trusts.now) }
{
    for i in 0..trusts.len() {
        if !trusts[i].has_each_key_once() {
            return false;
        }
    }
    true
}

/// Returns the position of the first trust whose cosigner has no valid key name.
pub(crate) fn first_bad_name<N: HasKeys>(trusts: &[N]) -> Option<usize>
    ensures { MatchOption result (All IsKeyName (map N.cosigner_name trusts.now))
        (IsFirstNot IsKeyName (map N.cosigner_name trusts.now)) }
{
    for i in 0..trusts.len() {
        if !trusts[i].has_named_cosigner() {
            return Some(i);
        }
    }
    None
}
