//! Readers that remember whether they gave a byte.

use std::io::{self, Read};

/// A reader, and whether a read of it ever gave a byte.
#[derive(Drop)]
pub(crate) struct Heard<D> {
    device: D,
    has_given: bool,
}

impl<D> Heard<D> {
    /// Wraps a reader of which nothing was read.
    pub(crate) fn new(device: D) -> Heard<D> {
        Heard {
            device,
            has_given: false,
        }
    }

    /// Reports whether a read gave a byte.
    pub(crate) fn has_given(&self) -> bool {
        self.has_given
    }
}

impl<D: Read> Read for Heard<D> {
    ghost remaining = { λ h. D.remaining h.device };

    fn read(&mut self, buf: &mut [u8]) -> io::Result<usize> {
        match self.device.read(buf) {
            Ok(n) => {
                self.has_given = self.has_given || n > 0;
                Ok(n)
            }
            Err(error) => Err(error),
        }
    }
}
