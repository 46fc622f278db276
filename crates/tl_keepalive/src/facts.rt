//! What the head of a request says of its connection and of its body.

ghost use Rattle.std.specs.Prelude.{◌≡◌, ◌≤◌, ◌==◌, ◌&&◌, ◌||◌, ℕ, MatchOption, not, length};
ghost use Rattle.http1.specs.Framing.{request_framing};
ghost use Rattle.tl_keepalive.specs.KeepAlive.{HasLength};
ghost use Rattle.tl_keepalive.specs.Inner.Facts.{AreFacts, HasNoHead, Spans};

use http1::fields::KnownFields;
use http1::framing::{Framing, MethodKind, request_framing};
use httparse::Status;
use httparse::spans::{EMPTY_HEADER_SPAN, HeaderSpan, RequestSpans, parse_request};

/// The most bytes of a head.
pub(crate) const MOST_HEAD: usize = 8192;

// The most fields of a head.
const MOST_FIELDS: usize = 64;

/// What the head of a request says of its connection and of its body.
#[derive(Clone, Copy)]
pub(crate) struct Facts {
    /// How many bytes the head has.
    pub(crate) len: usize,
    /// The minor version of HTTP/1.
    pub(crate) minor: u8,
    method: MethodKind,
    pub(crate) fields: KnownFields,
}

// Returns where the parts of the head are that these bytes begin with.
fn spans_of(bytes: &[u8], headers: &mut [HeaderSpan]) -> Option<RequestSpans>
    requires { length headers.old ≡ 64 }
    ensures { Spans bytes.now headers.new result }
{
    match parse_request(bytes, headers) {
        Ok(Status::Complete(spans)) => Some(spans),
        Ok(Status::Partial) => None,
        Err(_) => None,
    }
}

impl Facts {
    /// Returns the facts of the head, of at most 8,192 bytes and 64 fields, that these bytes begin with.
    pub(crate) fn of(bytes: &[u8]) -> Option<Facts>
        ensures { MatchOption result (HasNoHead bytes.now) (λ f. AreFacts bytes.now f) }
    {
        let mut headers = [EMPTY_HEADER_SPAN; MOST_FIELDS];
        let front = &bytes[..bytes.len().min(MOST_HEAD)];
        let Some(spans) = spans_of(front, &mut headers) else {
            return None;
        };
        Some(Facts {
            len: spans.len,
            minor: spans.version,
            method: MethodKind::of(spans.method.of(front)),
            fields: KnownFields::from_spans(front, &headers[..spans.headers]),
        })
    }

    /// Reports whether the client would send another request.
    pub(crate) fn asks_to_stay(&self) -> bool
        ensures { result ≡ not self.now.fields.close
            && ((self.now.minor == 1) || self.now.fields.keep_alive) }
    {
        !self.fields.close && (self.minor == 1 || self.fields.keep_alive)
    }

    /// Returns how many bytes the body has, if the head says so.
    pub(crate) fn body_len(&self) -> Option<u64>
        ensures { MatchOption result
            ((n : ℕ) → ¬ (HasLength (request_framing self.now.method self.now.minor self.now.fields) n))
            (λ n. HasLength (request_framing self.now.method self.now.minor self.now.fields) n) }
    {
        match request_framing(self.method, self.minor, &self.fields) {
            Ok(Framing::NoBody) => Some(0),
            Ok(Framing::Length(len)) => Some(len),
            _ => None,
        }
    }
}
