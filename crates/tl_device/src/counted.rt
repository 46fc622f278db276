//! Readers and writers that remember whether they failed: single calls, a whole input, a whole text.

ghost use Rattle.std.specs.Prelude.{◌≡◌, ◌<◌, ◌≤◌, false, true, length, take, IfSome, IfNone, OnSome, OnOk, OnErr};
ghost use Rattle.std.specs.Io.KnownBytes.{Appends, Keeps, Consumes, IsAtEnd};
ghost use Rattle.tl_device.specs.Device.{passage, WroteWhole, WrotePart};
ghost use Rattle.tl_device.specs.ReadWhole.{ReadsWhole};

use std::alloc::Allocator;
use std::io::{Read, Write};
use std::marker::Model;
use thiserror::Error;

/// A reader or a writer, and whether a call of it ever failed. An interrupted call counts as failed, and so does a
/// write that takes no byte.
#[derive(Drop)]
pub struct Counted<D> {
    device: D,
    has_failed: bool,
}

impl<D> Model for Counted<D> {
    ghost use Rattle.tl_device.specs.Device as seen;

    ghost Value = { seen.Counted D };

    ghost view = { λ c. record { device = c.device; failed = c.has_failed } };
}

impl<D> Counted<D> {
    /// Wraps a device of which no call has failed.
    pub fn new(device: D) -> Counted<D>
        ensures { result ≡ record { device = device; failed = false } }
    {
        Counted {
            device,
            has_failed: false,
        }
    }

    /// Returns the device.
    pub fn into_inner(self) -> D
        ensures { result ≡ self.device }
    {
        let Counted {
            device,
            has_failed: _,
        } = self;
        device
    }

    /// Reports whether a call of the device has failed.
    pub fn failed(&self) -> bool
        ensures { result ≡ self.now.failed }
    {
        self.has_failed
    }
}

/// Why an input wasn't read whole.
#[derive(Clone, Copy, Debug, PartialEq, Eq, Error)]
pub enum InputFault {
    /// A read failed.
    #[error("read failed")]
    Read,
    /// The input is longer than the limit.
    #[error("input too large")]
    TooLarge,
    /// Allocation failed.
    #[error("out of memory")]
    OutOfMemory,
}

impl<R: Read> Counted<R> {
    /// Reads once from the device. Returns the number of bytes read, which is 0 only at its end or for an empty
    /// buffer, or `None` if the read failed. Any error of the device is a failure.
    pub fn read_some(&mut self, buf: &mut [u8]) -> Option<usize>
        ensures bound { IfSome result (λ n. n ≤ length buf.new) }
        ensures consumed { IfSome result (λ n.
            Consumes (R.remaining self.old.device) (R.remaining self.new.device) (take n buf.new)) }
        ensures ended { IfSome result
            (λ n. n ≡ 0 → 0 < length buf.new → IsAtEnd (R.remaining self.new.device)) }
        ensures steady { OnSome result (self.new.failed ≡ self.old.failed) }
        ensures failed { IfNone result (self.new.failed ≡ true) }
    {
        match self.device.read(buf) {
            Ok(n) => Some(n),
            Err(_) => {
                self.has_failed = true;
                None
            }
        }
    }
}

/// Returns all bytes that the reader gives. It fails with `Read` if a read fails, and with `TooLarge` if there are
/// more than `most` bytes. It allocates as bytes come, and nothing if there are none.
pub fn read_whole<A: Allocator, R: Read>(
    alloc: A,
    reader: &mut Counted<R>,
    most: u64,
) -> Result<Vec<u8, A>, InputFault>
    ensures { ReadsWhole most (passage R.remaining reader.old reader.new) result }
{
    let mut input = Vec::new(alloc);
    let mut buf = [0u8; 65536];
    while input.len() as u64 <= most {
        match reader.read_some(&mut buf) {
            None => return Err(InputFault::Read),
            Some(0) => return Ok(input),
            Some(n) => {
                if input.extend_from_slice(&buf[..n]).is_err() {
                    return Err(InputFault::OutOfMemory);
                }
            }
        }
    }
    Err(InputFault::TooLarge)
}

/// A write failed, or took no byte.
#[derive(Clone, Copy, Debug, PartialEq, Eq, Error)]
#[error("write failed")]
pub struct WriteFault;

impl<W: Write> Counted<W> {
    /// Writes some bytes to the device in one call. Returns the number of bytes taken, or `None` if the write failed:
    /// the device reported an error, or took nothing.
    pub fn write_some(&mut self, bytes: &[u8]) -> Option<usize>
        requires { 0 < length bytes.now }
        ensures bound { IfSome result (λ n. (0 < n) × (n ≤ length bytes.now)) }
        ensures appended { IfSome result (λ n.
            Appends (W.contents self.old.device) (W.contents self.new.device) (take n bytes.now)) }
        ensures steady { OnSome result (self.new.failed ≡ self.old.failed) }
        ensures failed { IfNone result (self.new.failed ≡ true) }
        ensures kept { IfNone result
            (Keeps (W.contents self.old.device) (W.contents self.new.device)) }
    {
        match self.device.write(bytes) {
            Ok(n) if n > 0 => Some(n),
            _ => {
                self.has_failed = true;
                None
            }
        }
    }
}

/// Writes the whole text. If it fails, a prefix of the text is written.
pub fn write_whole<W: Write>(writer: &mut Counted<W>, text: &[u8]) -> Result<(), WriteFault>
    ensures whole { OnOk result (WroteWhole (passage W.contents writer.old writer.new) text.now) }
    ensures part { OnErr result (WrotePart (passage W.contents writer.old writer.new) text.now) }
{
    let mut at = 0;
    while at < text.len() {
        match writer.write_some(&text[at..]) {
            Some(n) => at += n,
            None => return Err(WriteFault),
        }
    }
    Ok(())
}
