//! A reader of what came of an input that may go on.

ghost use Rattle.std.specs.Prelude.{◌≡◌};

use std::io;
use std::io::{ErrorKind, Read};

/// A reader of what came so far of an input that may go on. A read beyond it fails, so that an answer which needs no
/// such read holds whatever follows.
#[derive(Drop)]
pub(crate) struct Partial<'b> {
    bytes: &'b [u8],
    // How many bytes the failed read asked for.
    asked: usize,
}

impl<'b> Partial<'b> {
    /// Returns a reader of these bytes.
    pub(crate) fn new(bytes: &'b [u8]) -> Partial<'b>
        ensures { result.bytes.now ≡ bytes.now }
    {
        Partial { bytes, asked: 0 }
    }

    /// Returns how many bytes the failed read asked for.
    pub(crate) fn asked(&self) -> usize {
        self.asked
    }
}

impl Read for Partial<'_> {
    ghost use Rattle.std.specs.Prelude.{Some, ◌++◌};
    ghost use Rattle.tl_keepalive.specs.Inner.Coming.{beyond};

    ghost remaining = { λ p. Some (p.bytes.now ++ beyond) };

    fn read(&mut self, buf: &mut [u8]) -> io::Result<usize> {
        if self.bytes.is_empty() {
            self.asked = buf.len();
            return Err(io::Error::from(ErrorKind::WouldBlock));
        }
        self.bytes.read(buf)
    }
}
