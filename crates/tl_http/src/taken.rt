//! Reading the head of a response whose body is wanted.

ghost use Rattle.std.specs.Prelude.{◌≡◌, Contains, length};
ghost use Rattle.tl_device.specs.Device.{passage};
ghost use Rattle.tl_http.specs.Inner.Heads.{ReadsTaken};

use crate::announced::announced;
use crate::fault::HttpFault;
use crate::framing::Framing;
use crate::head::{HeadRead, read_head};
use httparse::spans::{HeaderSpan, ResponseSpans};
use std::io::Read;
use tl_device::Counted;

/// The head of a response whose body is wanted.
#[derive(Clone, Copy)]
pub(crate) struct Taken {
    /// The place in the buffer where it begins.
    pub(crate) start: usize,
    /// How many bytes were read in all.
    pub(crate) len: usize,
    /// Where its parts are, counted from its beginning.
    pub(crate) spans: ResponseSpans,
    /// How its body is framed.
    pub(crate) framing: Framing,
}

/// Reads a head with one of these statuses. `GetFault` says why its body isn't read.
pub(crate) fn read_taken<I: Read>(
    reader: &mut Counted<I>,
    buf: &mut [u8],
    headers: &mut [HeaderSpan],
    statuses: &[u16],
) -> Result<Taken, HttpFault>
    requires bytes { length buf.old ≡ 8192 }
    requires fields { length headers.old ≡ 64 }
    ensures { ReadsTaken (λ status. Contains statuses.now status)
        (passage I.remaining reader.old reader.new) buf.new headers.new result }
{
    match read_head(reader, buf, headers) {
        HeadRead::Failed => Err(HttpFault::Read),
        HeadRead::Missing => Err(HttpFault::NoHead),
        HeadRead::Head(start, len, spans) => {
            match announced(&buf[start..len], headers, spans, statuses) {
                Err(fault) => Err(fault),
                Ok(framing) => Ok(Taken {
                    start,
                    len,
                    spans,
                    framing,
                }),
            }
        }
    }
}
