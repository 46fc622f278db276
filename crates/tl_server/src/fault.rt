//! Why a request isn't answered completely.

ghost use Rattle.std.specs.Prelude.{◌≡◌};
ghost use Rattle.tl_server.specs.declared.fault.ServeFault.TheVariants as serve;

use thiserror::Error;
use tl_device::WriteFault;

/// Why a request isn't answered completely. An entry submitted or a link saved before the fault stays so.
#[derive(Clone, Copy, Debug, PartialEq, Eq, Error)]
pub enum ServeFault {
    /// A read failed. Nothing was written.
    #[error("read failed")]
    Read,
    /// A write failed, or took no byte. A part of the answer was written.
    #[error("write failed")]
    Write,
}

impl From<WriteFault> for ServeFault {
    ghost from_gives = { λ _ fault. fault ≡ serve.Write };

    fn from(_fault: WriteFault) -> ServeFault {
        ServeFault::Write
    }
}
