//! The key that a witness cosigns with, which many signers may share.

ghost use Rattle.std.specs.Arc.{arc_value};
ghost use Rattle.std.specs.Prelude.{◌≡◌, IfOk};

use std::alloc::{AllocError, Global};
use std::sync::Arc;
use tl_key::{Cosignature, DemoKey, SignerKey};
use tl_note::{SignFault, Signer};

/// The key that the witness cosigns with.
#[derive(Drop)]
pub(crate) enum Own {
    /// A demonstration key.
    Demonstration(DemoKey<Global>),
    /// A private key.
    Private(SignerKey<Cosignature, Global>),
}

/// A signer by a shared key.
#[derive(Drop)]
pub(crate) struct SharedSigner {
    key: Arc<Own>,
}

impl SharedSigner {
    /// Returns a signer by this key.
    pub(crate) fn new(key: &Arc<Own>) -> Result<SharedSigner, AllocError>
        ensures { IfOk result (λ signer. arc_value signer.key ≡ arc_value key.now) }
    {
        Ok(SharedSigner {
            key: Arc::try_clone(key)?,
        })
    }
}

impl Signer for SharedSigner {
    ghost use Rattle.std.specs.Arc.{arc_value};
    ghost use Rattle.tl_serve.specs.Inner.Cosigning.{own_signing_key};

    ghost signing_key = { λ s. own_signing_key (arc_value s.key) };

    fn name(&self) -> &str {
        match &*self.key {
            Own::Demonstration(key) => key.name(),
            Own::Private(key) => key.name(),
        }
    }

    fn key_id(&self) -> u32 {
        match &*self.key {
            Own::Demonstration(key) => key.key_id(),
            Own::Private(key) => key.key_id(),
        }
    }

    fn sign(&self, alloc: Global, message: &[u8]) -> Result<Vec<u8>, SignFault> {
        match &*self.key {
            Own::Demonstration(key) => key.sign(alloc, message),
            Own::Private(key) => key.sign(alloc, message),
        }
    }
}
