//! Keys as objects: signers, verifiers, and the names of keys.

ghost use Rattle.std.specs.Prelude.{◌≡◌, IsTrue, IfOk, IsErrOf, ◌↔◌};
ghost use Rattle.tl_note.specs.Key.{Key, SigningKey, IsKeyName, IsNameChar};

use std::alloc::{AllocError, Global};
use thiserror::Error;

/// The reasons why a signer gives no signature.
#[derive(Clone, Copy, Debug, PartialEq, Eq, Error)]
pub enum SignFault {
    /// The signer may refuse this message, and does.
    #[error("refused")]
    Refused,
    /// Allocation failed.
    #[error("out of memory")]
    OutOfMemory,
}

impl From<AllocError> for SignFault {
    ghost use Rattle.std.specs.Prelude.{◌≡◌};
    ghost use Rattle.tl_note.specs.declared.keys.SignFault.TheVariants.{OutOfMemory};

    ghost from_gives = { λ _ fault. fault ≡ OutOfMemory };

    fn from(_error: AllocError) -> SignFault {
        SignFault::OutOfMemory
    }
}

/// Signs messages. Contracts see it as a `SigningKey`: a name, an identifier, which signatures it may give for a
/// message, and which messages it may refuse. Threads may share it.
pub trait Signer: Send + Sync + Drop {
    ghost signing_key: { Self → SigningKey };

    /// Returns the key's name.
    fn name(&self) -> &str
        ensures { result.now ≡ (signing_key self.now).name };

    /// Returns the key's identifier.
    fn key_id(&self) -> u32
        ensures { result ≡ (signing_key self.now).id };

    /// Returns a signature of the message. It fails with `Refused` only if the key may refuse the message, and with
    /// `OutOfMemory` if allocation fails.
    fn sign(&self, alloc: Global, message: &[u8]) -> Result<Vec<u8>, SignFault>
        ensures given { IfOk result
            (λ signature. IsTrue ((signing_key self.now).may_give message.now signature.items)) }
        ensures refused { IsErrOf result SignFault.Refused
            → IsTrue ((signing_key self.now).may_refuse message.now) };
}

/// Verifies signatures of messages. Contracts see it as a `Key`: a name, an identifier, and which signatures of a
/// message it accepts. Threads may share it.
pub trait Verifier: Send + Sync + Drop {
    ghost key: { Self → Key };

    /// Returns the key's name.
    fn name(&self) -> &str
        ensures { result.now ≡ (key self.now).name };

    /// Returns the key's identifier.
    fn key_id(&self) -> u32
        ensures { result ≡ (key self.now).id };

    /// Reports whether the signature of the message is valid.
    fn verify(&self, message: &[u8], signature: &[u8]) -> bool
        ensures { result ≡ (key self.now).accepts message.now signature.now };
}

// Reports whether a key's name may contain this character.
fn is_name_char(c: char) -> bool
    ensures { IsTrue result ↔ IsNameChar c }
{
    !c.is_whitespace() && c >= ' ' && c != '+'
}

/// Reports whether a text may be the name of a key: it isn't empty, and no character is white space, below 0x20 or a
/// plus sign (C2SP signed-note, "Signatures").
pub fn is_key_name(name: &str) -> bool
    ensures { IsTrue result ↔ IsKeyName name.now }
{
    !name.is_empty() && name.chars().all(|c| is_name_char(c))
}
