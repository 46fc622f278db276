//! Bytes that were read and not yet taken.

ghost use Rattle.std.specs.Prelude.{◌≡◌, ◌<◌, ◌≤◌, length, drop};
ghost use Rattle.tl_device.specs.Device.{passage};
ghost use Rattle.tl_http.specs.Inner.Taking.{Fills, Refills};

use std::io::Read;
use std::marker::Model;
use tl_device::Counted;

/// The most bytes of one read.
pub(crate) const BLOCK: usize = 16_384;

/// A block of bytes that were read and not yet taken. A contract sees it as the list of them.
#[derive(Drop)]
pub(crate) struct Window {
    block: [u8; BLOCK],
    start: usize,
    end: usize,
}

impl Model for Window {
    ghost use Rattle.std.specs.Prelude.{List, ℕ, ◌≤◌, drop, take};

    ghost Value = { List ℕ };

    ghost view = { λ w. drop w.start (take w.end w.block) };

    ghost invariant = { λ w. (w.start ≤ w.end) × (w.end ≤ 16384) };
}

/// The result of a read.
#[derive(Clone, Copy)]
pub(crate) enum Filled {
    /// The read failed.
    Failed,
    /// The input has ended.
    Ended,
    /// Some bytes are kept.
    More,
}

impl Window {
    /// Creates a window of the bytes that came with a head.
    pub(crate) fn new(begun: &[u8]) -> Window
        requires { length begun.now ≤ 16384 }
        ensures { result ≡ begun.now }
    {
        let end = begun.len();
        let mut block = [0u8; BLOCK];
        block[..end].copy_from_slice(begun);
        Window {
            block,
            start: 0,
            end,
        }
    }

    /// Returns the bytes that are kept.
    pub(crate) fn bytes(&self) -> &[u8]
        ensures { result.now ≡ self.now }
    {
        &self.block[self.start..self.end]
    }

    /// Drops the first `count` bytes.
    pub(crate) fn skip(&mut self, count: usize)
        requires { count ≤ length self.old }
        ensures { self.new ≡ drop count self.old }
    {
        self.start += count;
    }

    /// Reads once, and keeps what comes behind the bytes that are kept.
    pub(crate) fn fill<I: Read>(&mut self, reader: &mut Counted<I>) -> Filled
        requires { length self.old < 16384 }
        ensures { Fills (passage I.remaining reader.old reader.new) self.old self.new result }
    {
        let (start, len) = (self.start, self.end - self.start);
        self.block.copy_within(start..start + len, 0);
        self.start = 0;
        self.end = len;
        match reader.read_some(&mut self.block[len..]) {
            None => Filled::Failed,
            Some(n) => {
                if n == 0 {
                    return Filled::Ended;
                }
                self.end = len + n;
                Filled::More
            }
        }
    }

    /// Reads once if no bytes are kept.
    pub(crate) fn refill<I: Read>(&mut self, reader: &mut Counted<I>) -> Filled
        ensures { Refills (passage I.remaining reader.old reader.new) self.old self.new result }
    {
        if !self.bytes().is_empty() {
            return Filled::More;
        }
        self.fill(reader)
    }
}
