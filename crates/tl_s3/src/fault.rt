//! Why there is no answer to a put or a get.

ghost use Rattle.std.specs.Prelude.{◌≡◌};
ghost use Rattle.tl_s3.specs.declared.fault.ObjectFault.TheVariants as faults;

use std::alloc::{AllocError, AllocFailed};
use thiserror::Error;
use tl_http::HttpFault;

/// Why there is no answer to a put or a get, in the order in which the checks are made.
#[derive(Clone, Copy, Debug, PartialEq, Eq, Error)]
pub enum ObjectFault {
    /// An allocation for the request failed. Nothing was written or read.
    #[error("out of memory")]
    OutOfMemory,
    /// A value of a field begins or ends with a blank, or has two blanks together. Nothing was written or read.
    #[error("the request can't be signed")]
    BadField,
    /// The request failed, or its response isn't accepted. Except after `BadTarget`, the object may have been put.
    #[error("{0}")]
    Get(HttpFault),
}

impl From<AllocError> for ObjectFault {
    ghost from_gives = { λ _ fault. fault ≡ faults.OutOfMemory };

    fn from(_fault: AllocError) -> ObjectFault {
        ObjectFault::OutOfMemory
    }
}

impl<X: Drop> From<AllocFailed<X>> for ObjectFault {
    ghost from_gives = { λ _ fault. fault ≡ faults.OutOfMemory };

    fn from(_fault: AllocFailed<X>) -> ObjectFault {
        ObjectFault::OutOfMemory
    }
}

impl From<HttpFault> for ObjectFault {
    ghost from_gives = { λ fault told. told ≡ faults.Get fault };

    fn from(fault: HttpFault) -> ObjectFault {
        ObjectFault::Get(fault)
    }
}
