//! Why a key can't be made or read.

use std::alloc::AllocError;
use thiserror::Error;

/// The reasons why a key can't be made, or isn't read from a text.
#[derive(Clone, Copy, Debug, PartialEq, Eq, Error)]
pub enum KeyFault {
    /// The text is no key's text: this includes a key of another type, one with another key's identifier, and one
    /// that isn't fit for use.
    #[error("not the text of such a key")]
    Malformed,
    /// The name is no key's name.
    #[error("not a key's name")]
    BadName,
    /// The public key isn't fit for use: it isn't the canonical encoding of a point, or is of small order.
    #[error("not a sound public key")]
    Unsound,
    /// Allocation failed.
    #[error("out of memory")]
    OutOfMemory,
}

impl From<AllocError> for KeyFault {
    ghost use Rattle.std.specs.Prelude.{◌≡◌};
    ghost use Rattle.tl_key.specs.declared.fault.KeyFault.TheVariants.{OutOfMemory};

    ghost from_gives = { λ _ fault. fault ≡ OutOfMemory };

    fn from(_error: AllocError) -> KeyFault {
        KeyFault::OutOfMemory
    }
}
