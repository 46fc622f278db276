//! The error of a shelf.

use thiserror::Error;
use tl_device::DeviceFault;
use tl_tile::Resource;

/// The error of a shelf's call.
#[derive(Clone, Copy, Debug, PartialEq, Eq, Error)]
#[error("the shelf failed: {why}")]
pub struct ShelfFault {
    /// The resource that the call was for, if it was for one.
    pub resource: Option<Resource>,
    /// What the device reported.
    pub why: DeviceFault,
}
