//! The keys of a log.

ghost use Rattle.std.specs.Prelude.{◌≡◌, IfOk};
ghost use Rattle.tl_append.specs.Keys.{log_key_of, opening_key_of};
ghost use Rattle.tl_append.specs.Running.{AreLogKeys, IsLogKey};

use std::alloc::{AllocError, Allocator, Global};
use std::fs::Files;
use tl_key::{DemoKey, Note, SignerKey, VerifierKey, demo_key};
use tl_note::{NoteFault, SignFault, Signer, Verifier};
use tl_run::{LogKey, LogSigner, RunFault, read_file, read_private_key};

/// The key with which a log signs.
#[derive(Drop)]
pub enum LogSigningKey {
    /// The demonstration key of the log's name and a secret.
    Demonstration(DemoKey<Global>),
    /// An Ed25519 key of the log's name.
    Private(SignerKey<Note, Global>),
}

impl Signer for LogSigningKey {
    ghost use Rattle.tl_append.specs.Keys.{signing_key_of};

    ghost signing_key = { λ k. signing_key_of k };

    fn name(&self) -> &str {
        match self {
            LogSigningKey::Demonstration(key) => Signer::name(key),
            LogSigningKey::Private(key) => Signer::name(key),
        }
    }

    fn key_id(&self) -> u32 {
        match self {
            LogSigningKey::Demonstration(key) => Signer::key_id(key),
            LogSigningKey::Private(key) => Signer::key_id(key),
        }
    }

    fn sign(&self, alloc: Global, message: &[u8]) -> Result<Vec<u8>, SignFault> {
        match self {
            LogSigningKey::Demonstration(key) => key.sign(alloc, message),
            LogSigningKey::Private(key) => key.sign(alloc, message),
        }
    }
}

impl LogSigner for LogSigningKey {
    ghost use Rattle.tl_append.specs.Keys.{log_key_of};

    ghost log_key = { λ k. log_key_of k };

    fn origin(&self) -> &str {
        match self {
            LogSigningKey::Demonstration(key) => Signer::name(key),
            LogSigningKey::Private(key) => Signer::name(key),
        }
    }

    fn line<A: Allocator + Copy>(
        &self,
        alloc: A,
        global: Global,
        text: &str,
    ) -> Result<String<A>, AllocError> {
        match self {
            LogSigningKey::Demonstration(key) => key.line(alloc, global, text),
            LogSigningKey::Private(key) => key.line(alloc, global, text),
        }
    }
}

/// The key that opens what a log signed.
#[derive(Drop)]
pub enum LogOpeningKey {
    /// The demonstration key of the log's name and a secret.
    Demonstration(DemoKey<Global>),
    /// An Ed25519 key of the log's name.
    Public(VerifierKey<Note, Global>),
}

impl Verifier for LogOpeningKey {
    ghost use Rattle.tl_append.specs.Keys.{opening_key_of};

    ghost key = { λ k. opening_key_of k };

    fn name(&self) -> &str {
        match self {
            LogOpeningKey::Demonstration(key) => Verifier::name(key),
            LogOpeningKey::Public(key) => Verifier::name(key),
        }
    }

    fn key_id(&self) -> u32 {
        match self {
            LogOpeningKey::Demonstration(key) => Verifier::key_id(key),
            LogOpeningKey::Public(key) => Verifier::key_id(key),
        }
    }

    fn verify(&self, message: &[u8], signature: &[u8]) -> bool {
        match self {
            LogOpeningKey::Demonstration(key) => key.verify(message, signature),
            LogOpeningKey::Public(key) => key.verify(message, signature),
        }
    }
}

/// The keys of a log: one that signs, and one that opens what that signed.
#[derive(Drop)]
pub struct OperatorKeys {
    /// Signs.
    pub signer: LogSigningKey,
    /// Opens what `signer` signed.
    pub verifier: LogOpeningKey,
}

// Returns the demonstration key of the log.
fn demonstration(alloc: Global, origin: &str, secret: &str) -> Result<DemoKey<Global>, RunFault>
    ensures { IfOk result (λ key. key ≡ record { name = origin.now; secret = secret.now }) }
{
    match demo_key(alloc, origin, secret.as_bytes()) {
        Ok(key) => Ok(key),
        Err(NoteFault::OutOfMemory) => Err(RunFault::OutOfMemory),
        Err(_) => Err(RunFault::BadOrigin),
    }
}

/// Returns the keys of a log of this name, for the key that its options name: one signs, and the other opens what
/// that signed. `BadOrigin`: the key has another name.
pub fn keys_of<H: Files>(
    rt: &H,
    alloc: Global,
    origin: &str,
    key: &LogKey,
) -> Result<OperatorKeys, RunFault>
    ensures signer { IfOk result (λ keys. IsLogKey key.now origin.now (log_key_of keys.signer)) }
    ensures both { IfOk result (λ keys. AreLogKeys key.now origin.now
        (log_key_of keys.signer) (opening_key_of keys.verifier)) }
{
    match key {
        LogKey::Secret(secret) => Ok(OperatorKeys {
            signer: LogSigningKey::Demonstration(demonstration(alloc, origin, secret)?),
            verifier: LogOpeningKey::Demonstration(demonstration(alloc, origin, secret)?),
        }),
        LogKey::File(path) => {
            let bytes = read_file(rt, alloc, path)?;
            let key = read_private_key::<Note>(alloc, bytes.as_slice())?;
            if key.name() != origin {
                return Err(RunFault::BadOrigin);
            }
            let verifier = LogOpeningKey::Public(key.verifier(alloc)?);
            let signer = LogSigningKey::Private(key);
            Ok(OperatorKeys { signer, verifier })
        }
    }
}
