//! Measures the entry bundles of an input's lines while the input is read.

ghost use Rattle.std.specs.Prelude.{◌≡◌, ◌+◌, ◌<◌, ◌≤◌, ◌^◌, ◌∷◌, ◌++◌, [], length, take, IfOk, OnOk};
ghost use Rattle.tl_hash.specs.Bytes.{Bytes};
ghost use Rattle.tl_command.specs.Inner.BundleLengths.{AreBundleLengths};
ghost use Rattle.tl_command.specs.Inner.Measuring.{IsMeasuring};
ghost use Rattle.tl_command.specs.Lines.{entries_of};

use memchr::memchr;
use std::alloc::{AllocError, Allocator};

// How many lines a bundle has.
const BUNDLE: u64 = 256;

// The state after the input so far: the lengths of its full bundles, the number of lines behind them, how many bytes
// these have with their newlines, and how many the begun line has.
#[derive(Drop)]
pub(crate) struct Measuring<A: Allocator> {
    lengths: Vec<u64, A>,
    count: u64,
    bytes: u64,
    begun: u64,
}

impl<A: Allocator + Copy> Measuring<A> {
    /// Returns the state before any input.
    pub(crate) fn new(alloc: A) -> Measuring<A>
        ensures size { result.bytes + result.begun ≡ 0 }
        ensures few { result.count < 256 }
        ensures measures { IsMeasuring result [] }
    {
        Measuring {
            lengths: Vec::new(alloc),
            count: 0,
            bytes: 0,
            begun: 0,
        }
    }

    // Takes the newline that ends the last line. A bundle has two bytes more for each entry than the entry's, and no
    // newlines.
    fn end_line(&mut self) -> Result<(), AllocError>
        requires room { self.old.bytes + self.old.begun < 2 ^ 32 }
        requires few { self.old.count < 256 }
        ensures few { OnOk result (self.new.count < 256) }
        ensures size { OnOk result
            (self.new.bytes + self.new.begun ≤ self.old.bytes + self.old.begun + 1) }
        ensures ended { OnOk result (self.new.begun ≡ 0) }
        ensures measures { (input : Bytes) → IsMeasuring self.old input
            → OnOk result (IsMeasuring self.new (input ++ 10 ∷ [])) }
    {
        self.bytes += self.begun + 1;
        self.begun = 0;
        self.count += 1;
        if self.count < BUNDLE {
            return Ok(());
        }
        self.lengths.push(self.bytes + BUNDLE)?;
        self.count = 0;
        self.bytes = 0;
        Ok(())
    }

    // Takes the beginning of a piece of the input, its first line, or all of it if it has no newline, and returns how
    // many bytes it took.
    fn take_some(&mut self, piece: &[u8]) -> Result<usize, AllocError>
        requires room { self.old.bytes + self.old.begun + length piece.now < 2 ^ 32 }
        requires few { self.old.count < 256 }
        ensures few { OnOk result (self.new.count < 256) }
        ensures some { 0 < length piece.now → IfOk result (λ taken. 0 < taken) }
        ensures within { IfOk result (λ taken. taken ≤ length piece.now) }
        ensures size { IfOk result (λ taken.
            self.new.bytes + self.new.begun ≤ self.old.bytes + self.old.begun + taken) }
        ensures measures { (input : Bytes) → IsMeasuring self.old input
            → IfOk result (λ taken. IsMeasuring self.new (input ++ take taken piece.now)) }
    {
        let Some(end) = memchr(b'\n', piece) else {
            self.begun += piece.len() as u64;
            return Ok(piece.len());
        };
        self.begun += end as u64;
        self.end_line()?;
        Ok(end + 1)
    }

    /// Takes one more piece of the input.
    pub(crate) fn take(&mut self, piece: &[u8]) -> Result<(), AllocError>
        requires room { self.old.bytes + self.old.begun + length piece.now < 2 ^ 32 }
        requires few { self.old.count < 256 }
        ensures few { OnOk result (self.new.count < 256) }
        ensures size { OnOk result
            (self.new.bytes + self.new.begun ≤ self.old.bytes + self.old.begun + length piece.now) }
        ensures measures { (input : Bytes) → IsMeasuring self.old input
            → OnOk result (IsMeasuring self.new (input ++ piece.now)) }
    {
        let mut at = 0;
        while at < piece.len() {
            at += self.take_some(&piece[at..])?;
        }
        Ok(())
    }

    /// Ends the input, whose last line counts if it isn't empty, and returns the lengths of the bundles of all lines.
    pub(crate) fn finish(mut self) -> Result<Vec<u64, A>, AllocError>
        requires room { self.bytes + self.begun < 2 ^ 32 }
        requires few { self.count < 256 }
        ensures { (input : Bytes) → IsMeasuring self input
            → IfOk result (λ lengths. AreBundleLengths lengths.items (entries_of input)) }
    {
        if self.begun == 0 {
            return self.rest();
        }
        self.end_line()?;
        self.rest()
    }

    // Returns the lengths of the bundles of all lines, when no line is begun.
    fn rest(self) -> Result<Vec<u64, A>, AllocError>
        requires room { self.bytes < 2 ^ 33 }
        requires few { self.count < 256 }
        requires ended { self.begun ≡ 0 }
        ensures { (input : Bytes) → IsMeasuring self input
            → IfOk result (λ lengths. AreBundleLengths lengths.items (entries_of input)) }
    {
        let Measuring {
            mut lengths,
            count,
            bytes,
            begun: _,
        } = self;
        if count == 0 {
            return Ok(lengths);
        }
        lengths.push(bytes + count)?;
        Ok(lengths)
    }
}
