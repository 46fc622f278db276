//! Why a witness gave no cosignature.

use crate::fault::AskFault;
use std::alloc::AllocError;
use std::fmt::{self, Display, Formatter};
use tl_client::ClientFault;
use tl_device::DeviceFault;

/// Why a witness gave no cosignature.
#[derive(Clone, Copy, Debug, PartialEq, Eq)]
pub enum Unasked {
    /// The witness can't be reached, or gave no answer in time.
    Device(DeviceFault),
    /// The witness refused, or its answer can't be read.
    Ask(AskFault),
    /// The proof from the size that the witness has can't be made.
    Growth(ClientFault),
    /// The witness answered with another size each time.
    Restless,
    /// The witness answered with signature lines, and none of them is of this checkpoint by one of its keys.
    Other,
}

impl Display for Unasked {
    fn fmt<W: fmt::Write>(&self, f: &mut Formatter<W>) -> fmt::Result {
        match self {
            Unasked::Device(fault) => fault.fmt(f),
            Unasked::Ask(fault) => fault.fmt(f),
            Unasked::Growth(fault) => write!(f, "no proof from the size that it has: {fault}"),
            Unasked::Restless => f.write_str("it tells of another size each time"),
            Unasked::Other => f.write_str("its cosignature isn't of this checkpoint"),
        }
    }
}

impl From<DeviceFault> for Unasked {
    ghost use Rattle.std.specs.Prelude.{◌≡◌};
    ghost use Rattle.tl_feed.specs.declared.unasked.Unasked.TheVariants as unasked;

    ghost from_gives = { λ fault why. why ≡ unasked.Device fault };

    fn from(fault: DeviceFault) -> Unasked {
        Unasked::Device(fault)
    }
}

impl From<AllocError> for Unasked {
    ghost use Rattle.std.specs.Prelude.{◌≡◌};
    ghost use Rattle.tl_feed.specs.declared.fault.AskFault.TheVariants as ask;
    ghost use Rattle.tl_feed.specs.declared.unasked.Unasked.TheVariants as unasked;

    ghost from_gives = { λ _ why. why ≡ unasked.Ask ask.OutOfMemory };

    fn from(_fault: AllocError) -> Unasked {
        Unasked::Ask(AskFault::OutOfMemory)
    }
}
