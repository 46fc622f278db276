//! Why a request has no response.

ghost use Rattle.std.specs.Prelude.{◌≡◌};
ghost use Rattle.tl_http.specs.declared.fault.HttpFault.TheVariants as faults;

use std::alloc::AllocError;
use thiserror::Error;
use tl_device::WriteFault;

/// Why a request has no response, in the order in which the checks are made. The faults of a body come as it is read:
/// the first one found is returned.
#[derive(Clone, Copy, Debug, PartialEq, Eq, Error)]
pub enum HttpFault {
    /// Host and target can't be sent, or a part of the caller's own request can't. Nothing was written or read.
    #[error("the request can't be sent")]
    BadTarget,
    /// A write failed, or took no byte. Some of the request's first bytes were written, and nothing was read.
    #[error("write failed")]
    Write,
    /// A read failed.
    #[error("read failed")]
    Read,
    /// The input doesn't begin with the head of a response, after interim heads or none: at most 8,192 bytes
    /// together, and 64 fields each.
    #[error("the answer is no response over HTTP/1.0 or HTTP/1.1")]
    NoHead,
    /// The response is of a later version than HTTP/1.1.
    #[error("the response is of a later version than HTTP/1.1")]
    Version,
    /// The response has this status, which isn't wanted. `get` wants 200 alone.
    #[error("the response has status {0}")]
    Status(u16),
    /// The response has a field Transfer-Encoding that isn't `chunked` once over HTTP/1.1, or a Content-Encoding that
    /// isn't `identity` once.
    #[error("the body is encoded")]
    Encoded,
    /// The fields Content-Length aren't one decimal number below 2^63, or one comes beside Transfer-Encoding.
    #[error("the length of the body isn't clear")]
    BadLength,
    /// The body has more bytes than the limit. A chunked body has this fault at the line of the chunk that would pass
    /// it.
    #[error("the body is too large")]
    TooLarge,
    /// The input ended before Content-Length bytes of the body, or before the line of the last chunk.
    #[error("the body is cut short")]
    Short,
    /// A chunk's line isn't 1 to 16 hexadecimal digits, an extension or none, and CR LF, in 256 bytes; or no CR LF
    /// follows a chunk's data.
    #[error("a chunk of the body isn't well formed")]
    BadChunk,
    /// An allocation failed: for the body, for the value of the wanted field, or, before anything was written, for
    /// the head of the caller's own request.
    #[error("out of memory")]
    OutOfMemory,
}

impl From<AllocError> for HttpFault {
    ghost from_gives = { λ _ fault. fault ≡ faults.OutOfMemory };

    fn from(_fault: AllocError) -> HttpFault {
        HttpFault::OutOfMemory
    }
}

impl From<WriteFault> for HttpFault {
    ghost from_gives = { λ _ fault. fault ≡ faults.Write };

    fn from(_fault: WriteFault) -> HttpFault {
        HttpFault::Write
    }
}
