//! Cutting an input into lines.

ghost use Rattle.std.specs.Prelude.{◌≡◌, ◌≤◌, ◌<◌, [], true, false, length, take, drop, option_map, IfOk};
ghost use Rattle.std.specs.Option.{option_to_list};
ghost use Rattle.tl_device.specs.Device.{passage};
ghost use Rattle.tl_lines.specs.Lines.{Closes, Entry, HasNoNewline, Tells, TooLong, entries_seen, one_more, unread};
ghost use Rattle.tl_lines.specs.Reading.{CutsLine, FillsBlock, ReadsLine, ReadsLines, ReadsMost, told};
ghost use Rattle.tl_lines.specs.Inner.Cutting.{Extends, IsKept};

use crate::fault::LineFault;
use crate::newline::{count_newlines, find_newline};
use crate::next_line::NextLine;
use std::alloc::{AllocError, Allocator};
use std::io::Read;
use std::marker::Model;
use std::mem;
use tl_device::Counted;

// The number of bytes that are read at once.
const BLOCK: usize = 65_536;

// The longest line, in bytes.
const LONGEST_LINE: usize = 65_535;

/// What was read of an input and isn't cut into lines yet. The input is cut at each newline, and what follows the
/// last one is a line if it isn't empty. A line of more than 65,535 bytes is reported by its number and left out.
/// Contracts see the number of the line that is read, the number of earlier lines that were not too long, and the
/// bytes that are not cut yet.
#[derive(Drop)]
pub struct Lines<A: Allocator> {
    alloc: A,
    block: Vec<u8, A>,
    start: usize,
    end: usize,
    line: Vec<u8, A>,
    // The number of lines before the one that is read, and how many of them were not too long.
    number: u64,
    entries: u64,
    // Whether the rest of that line is left out.
    skips: bool,
}

impl<A: Allocator> Model for Lines<A> {
    ghost use Rattle.std.specs.Prelude.{◌-◌, take, drop};
    ghost use Rattle.tl_lines.specs.Lines.{IsCutting, Uncut};

    ghost Value = { Uncut };

    ghost view = { λ l. record {
      number = l.number;
      entries = l.entries;
      begun = l.line.items;
      waiting = take (l.end - l.start) (drop l.start l.block.items);
      in_tail = l.skips;
    } };

    ghost invariant = { λ l. IsCutting l.start l.end l.block.items l.line.items l.skips };
}

impl<A: Allocator + Copy> Lines<A> {
    /// Returns a reader of lines that has read nothing. It fails if allocation fails.
    pub fn new(alloc: A) -> Result<Lines<A>, AllocError>
        ensures { IfOk result (λ lines. lines ≡ unread) }
    {
        Ok(Lines {
            alloc,
            block: Vec::from_elem(alloc, 0u8, BLOCK)?,
            start: 0,
            end: 0,
            line: Vec::new(alloc),
            number: 0,
            entries: 0,
            skips: false,
        })
    }

    /// Reads a block, if nothing is left of the last one. Reports whether the input goes on. If the read fails,
    /// `self` doesn't change.
    pub fn fill<R: Read>(&mut self, reader: &mut Counted<R>) -> Result<bool, LineFault>
        ensures uncut { 0 < length self.old.waiting
            → (result ≡ Ok true) × (self.new ≡ self.old) × (reader.new ≡ reader.old) }
        ensures cut { self.old.waiting ≡ [] → FillsBlock self.old self.new
            (passage R.remaining reader.old reader.new) result }
    {
        if self.start < self.end {
            return Ok(true);
        }
        let Some(count) = reader.read_some(self.block.as_mut_slice()) else {
            return Err(LineFault::Read);
        };
        self.start = 0;
        self.end = count;
        Ok(count > 0)
    }

    // Returns what is left of the block.
    fn waiting(&self) -> &[u8]
        ensures value { result.now ≡ self.now.waiting }
        ensures kept { IsKept self.now }
    {
        &self.block[self.start..self.end]
    }

    // Skips this many bytes of the block.
    fn pass(&mut self, count: usize)
        requires { count ≤ length self.old.waiting }
        ensures { self.new ≡ record self.old { waiting = drop count self.old.waiting } }
    {
        self.start += count;
    }

    // Adds this many bytes of the block to the line. Reports whether they fit.
    fn extend(&mut self, count: usize) -> Result<bool, AllocError>
        requires tail { self.old.in_tail ≡ false }
        requires within { count ≤ length self.old.waiting }
        requires plain { HasNoNewline (take count self.old.waiting) }
        ensures { Extends count self.old self.new result }
    {
        if self.line.len() + count > LONGEST_LINE {
            return Ok(false);
        }
        let part = &self.block[self.start..self.start + count];
        self.line.extend_from_slice(part)?;
        self.start += count;
        Ok(true)
    }

    // Returns the line, which is whole now.
    fn finish(&mut self) -> NextLine<A>
        ensures line { told result ≡ Entry self.old.begun }
        ensures after { self.new ≡ record {
          number = one_more self.old.number;
          entries = one_more self.old.entries;
          begun = [];
          waiting = self.old.waiting;
          in_tail = self.old.in_tail;
        } }
    {
        self.number = self.number.saturating_add(1);
        self.entries = self.entries.saturating_add(1);
        NextLine::Entry(mem::replace(&mut self.line, Vec::new(self.alloc)))
    }

    // Reports that the line is too long, and begins to leave out the rest of it.
    fn refuse(&mut self) -> NextLine<A>
        ensures line { told result ≡ TooLong self.old.number }
        ensures after { self.new ≡ record self.old { begun = []; in_tail = true } }
    {
        self.line = Vec::new(self.alloc);
        self.skips = true;
        NextLine::TooLong(self.number)
    }

    // Ends the line that is too long.
    fn end_tail(&mut self)
        ensures { self.new ≡ record self.old {
          number = one_more self.old.number;
          in_tail = false;
        } }
    {
        self.number = self.number.saturating_add(1);
        self.skips = false;
    }

    // Skips what the block has of a line that is too long.
    fn skip(&mut self)
        ensures tells { Tells self.old self.new [] [] }
        ensures tail { self.new.in_tail ≡ true → self.new.waiting ≡ [] }
        ensures shorter { length self.new.waiting ≤ length self.old.waiting }
    {
        if !self.skips {
            return;
        }
        match find_newline(self.waiting()) {
            Some(end) => {
                self.pass(end + 1);
                self.end_tail();
            }
            None => {
                let count = self.waiting().len();
                self.pass(count);
            }
        }
    }

    // Returns the next line of the block. If the block ends before the line does, it keeps what there is of the line.
    fn cut(&mut self) -> Result<Option<NextLine<A>>, AllocError>
        requires { self.old.in_tail ≡ false }
        ensures { CutsLine self.old self.new result }
    {
        let newline = find_newline(self.waiting());
        let count = newline.unwrap_or(self.waiting().len());
        if !self.extend(count)? {
            return Ok(Some(self.refuse()));
        }
        if newline.is_none() {
            return Ok(None);
        }
        self.pass(1);
        Ok(Some(self.finish()))
    }

    /// Returns the next line of the block, or `None` once all of the block is cut; then the beginning of a line may
    /// be kept. It fails only if allocation fails, and the same lines are still to come.
    pub fn next_in_block(&mut self) -> Result<Option<NextLine<A>>, AllocError>
        ensures { CutsLine self.old self.new result }
    {
        self.skip();
        if self.skips || self.start == self.end {
            return Ok(None);
        }
        self.cut()
    }

    /// Returns the last line, once the input has ended and all of the block is cut: what follows the last newline, if
    /// there is anything. If the input goes on later, a new line begins there.
    pub fn last(&mut self) -> Option<NextLine<A>>
        ensures uncut { 0 < length self.old.waiting
            → (option_map told result ≡ None) × (self.new ≡ self.old) }
        ensures cut { self.old.waiting ≡ []
            → Closes self.old self.new (option_to_list (option_map told result)) }
    {
        if self.start < self.end {
            return None;
        }
        if self.skips {
            self.end_tail();
            return None;
        }
        if self.line.is_empty() {
            return None;
        }
        Some(self.finish())
    }

    /// Returns the next line, or `None` at the end of the input. After a fault the lines that were read are still to
    /// come.
    pub fn next<R: Read>(
        &mut self,
        reader: &mut Counted<R>,
    ) -> Result<Option<NextLine<A>>, LineFault>
        ensures { ReadsLine self.old self.new (passage R.remaining reader.old reader.new) result }
    {
        for _reads in 0..u64::MAX {
            match self.next_in_block() {
                Ok(Some(line)) => return Ok(Some(line)),
                Ok(None) => {}
                Err(_) => return Err(LineFault::OutOfMemory),
            }
            match self.fill(reader) {
                Ok(true) => {}
                Ok(false) => return Ok(self.last()),
                Err(fault) => return Err(fault),
            }
        }
        Err(LineFault::Endless)
    }

    /// Returns the next lines: `count` of them, or fewer if the input ends. It fails with `TooLong` if one of them is
    /// too long. After a fault the lines before it are lost.
    pub fn take_most<R: Read>(
        &mut self,
        reader: &mut Counted<R>,
        count: u64,
    ) -> Result<Vec<Vec<u8, A>, A>, LineFault>
        ensures { ReadsMost count self.old self.new
            (passage R.remaining reader.old reader.new) result }
    {
        let mut lines = Vec::new(self.alloc);
        for _line in 0..count {
            match self.next(reader) {
                Ok(Some(NextLine::Entry(line))) => lines.push(line)?,
                Ok(Some(NextLine::TooLong(number))) => return Err(LineFault::TooLong(number)),
                Ok(None) => return Ok(lines),
                Err(fault) => return Err(fault),
            }
        }
        Ok(lines)
    }

    /// Returns the next `count` lines. It fails with `TooFew` if the input has fewer, and with `TooLong` if one is
    /// too long. After a fault the lines before it are lost.
    pub fn take<R: Read>(
        &mut self,
        reader: &mut Counted<R>,
        count: u64,
    ) -> Result<Vec<Vec<u8, A>, A>, LineFault>
        ensures { ReadsLines count self.old self.new
            (passage R.remaining reader.old reader.new) result }
    {
        match self.take_most(reader, count) {
            Ok(lines) if (lines.len() as u64) < count => Err(LineFault::TooFew),
            Ok(lines) => Ok(lines),
            Err(fault) => Err(fault),
        }
    }

    /// Returns the number of lines that were cut so far and were not too long.
    pub fn entries(&self) -> u64
        ensures { result ≡ self.now.entries }
    {
        self.entries
    }

    /// Returns what `entries` returns, plus one for each newline that isn't cut yet, except the one that ends a line
    /// already reported as too long.
    pub fn count(&self) -> u64
        ensures { result ≡ entries_seen self.now }
    {
        let newlines = count_newlines(self.waiting());
        let told = if self.skips { 1 } else { 0 };
        self.entries.saturating_add(newlines.saturating_sub(told))
    }
}
