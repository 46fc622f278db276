//! Why a witness neither cosigned nor gave a size.

ghost use Rattle.std.specs.Prelude.{◌≡◌};
ghost use Rattle.tl_feed.specs.declared.fault.AskFault.TheVariants as faults;

use std::alloc::AllocError;
use thiserror::Error;
use tl_http::HttpFault;

/// Why a witness neither cosigned nor gave the size that it has (C2SP tlog-witness, "add-checkpoint").
#[derive(Clone, Copy, Debug, PartialEq, Eq, Error)]
pub enum AskFault {
    /// The witness calls the request malformed (400).
    #[error("the witness takes the request for malformed")]
    Malformed,
    /// The checkpoint isn't signed by a key that the witness trusts for the log (403).
    #[error("the witness trusts no key that signed the checkpoint")]
    Untrusted,
    /// The witness doesn't know the log (404).
    #[error("the witness doesn't know the log")]
    Unknown,
    /// The witness doesn't accept the proof (422).
    #[error("the witness doesn't accept the proof")]
    Unproved,
    /// The request failed, or its response isn't accepted, for another reason. A body of more than 16,384 bytes is
    /// one.
    #[error("{0}")]
    Get(HttpFault),
    /// The body of a response with status 200 isn't 1 to 100 signature lines.
    #[error("the answer of the witness isn't lines of signatures")]
    BadLines,
    /// A response with status 409 doesn't have one field Content-Type with the value text/x.tlog.size, or its body
    /// isn't a decimal number below 2^63 and a newline.
    #[error("the witness told no size")]
    BadSize,
    /// Memory ran out for the request, the response or the parsed lines.
    #[error("out of memory")]
    OutOfMemory,
}

impl From<AllocError> for AskFault {
    ghost from_gives = { λ _ fault. fault ≡ faults.OutOfMemory };

    fn from(_fault: AllocError) -> AskFault {
        AskFault::OutOfMemory
    }
}

impl From<HttpFault> for AskFault {
    ghost use Rattle.tl_feed.specs.Refusal.{refusal_of};

    ghost from_gives = { λ fault told. told ≡ refusal_of fault };

    fn from(fault: HttpFault) -> AskFault {
        match fault {
            HttpFault::Status(400) => AskFault::Malformed,
            HttpFault::Status(403) => AskFault::Untrusted,
            HttpFault::Status(404) => AskFault::Unknown,
            HttpFault::Status(422) => AskFault::Unproved,
            HttpFault::OutOfMemory => AskFault::OutOfMemory,
            _ => AskFault::Get(fault),
        }
    }
}
