//! A writer that several parts of a run share.

use std::io::{self, ErrorKind, Write};
use std::sync::{Mutex, Wait};
use tl_device::Counted;

/// A writer that several parts of a run write to. Each text is written whole if one call takes it.
/// It may wait.
#[derive(Drop)]
pub(crate) struct SharedWriter<'s, 'w, H, L> {
    pub(crate) rt: &'s H,
    pub(crate) out: &'s Mutex<&'w mut Counted<L>>,
}

impl<H: Wait, L: Write> Write for SharedWriter<'_, '_, H, L> {
    fn write(&mut self, buf: &[u8]) -> io::Result<usize> {
        if buf.is_empty() {
            return Ok(0);
        }
        let mut out = self.out.lock(self.rt);
        match out.write_some(buf) {
            Some(count) => Ok(count),
            None => Err(io::Error::from(ErrorKind::Other)),
        }
    }

    fn flush(&mut self) -> io::Result<()> {
        Ok(())
    }
}
