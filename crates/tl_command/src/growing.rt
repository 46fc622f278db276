//! Builds the right edge of the log of an input's lines while the input is read.

ghost use Rattle.std.specs.Prelude.{◌≡◌, ◌<◌, ◌≤◌, ◌+◌, ◌-◌, ◌^◌, ◌∷◌, [], ◌++◌, List, length, take, vec_items, None, IfOk, IsTrue, OnOk};
ghost use Rattle.tl_hash.specs.Bytes.{Bytes};
ghost use Rattle.tl_command.specs.Inner.Growing.{FillsTiles, IsGrowing, IsOutcome, IsTold};
ghost use Rattle.tl_command.specs.Lines.{entries_of, HasNoNewline};

use crate::whole_lines::{cut_four, cut_tile};
use memchr::memchr;
use std::alloc::{AllocError, Allocator};
use tl_hash::Sha256Tree;
use tl_run::RunFault;
use tl_tile::Edge;

mod cuts;
pub(crate) mod measuring;
pub(crate) mod reading;
mod shares;

// The state after the input so far: the right edge of the log of its whole lines, the beginning of the unended last
// line, and the index of the first line that is too long, after which the edge doesn't change.
#[derive(Drop)]
struct Growing<A: Allocator> {
    edge: Edge<Sha256Tree, A>,
    line: Vec<u8, A>,
    too_long: Option<u64>,
}

// One byte more than an entry may have, enough to see that a line is too long.
const MOST_KEPT: usize = 65_536;

impl<A: Allocator + Copy> Growing<A> {
    // Returns the state before any input.
    fn new(alloc: A) -> Growing<A>
        ensures size { result.edge.size ≡ 0 }
        ensures grows { IsGrowing result [] }
    {
        Growing {
            edge: Edge::new(alloc, Sha256Tree),
            line: Vec::new(alloc),
            too_long: None,
        }
    }

    // Takes more of the last line.
    fn extend(&mut self, part: &[u8]) -> Result<(), AllocError>
        requires { HasNoNewline part.now }
        ensures size { OnOk result (self.new.edge.size ≡ self.old.edge.size) }
        ensures grows { (input : Bytes)
            → IsGrowing self.old input → OnOk result (IsGrowing self.new (input ++ part.now)) }
    {
        let room = MOST_KEPT.saturating_sub(self.line.len());
        self.line.extend_from_slice(&part[..room.min(part.len())])?;
        Ok(())
    }

    // Adds the last line to the log, or notes that it is too long.
    fn log_line(&mut self) -> Result<(), AllocError>
        requires size { self.old.edge.size < 2 ^ 32 - 1 }
        requires none { self.old.too_long ≡ None }
        ensures size { OnOk result (self.new.edge.size ≤ self.old.edge.size + 1) }
        ensures line { OnOk result (self.new.line ≡ self.old.line) }
        ensures told { (lines : List Bytes) (last : Bytes) → IsTold self.old lines → vec_items
            self.old.line ≡ take 65536 last → OnOk result (IsTold self.new (lines ++ last ∷ [])) }
    {
        if self.line.len() == MOST_KEPT {
            self.too_long = Some(self.edge.size());
            return Ok(());
        }
        self.edge.push(self.line.as_slice())?;
        Ok(())
    }

    // Takes the newline that ends the last line.
    fn end_line(&mut self) -> Result<(), AllocError>
        requires { self.old.edge.size < 2 ^ 32 - 1 }
        ensures size { OnOk result (self.new.edge.size ≤ self.old.edge.size + 1) }
        ensures ended { OnOk result (vec_items self.new.line ≡ []) }
        ensures grows { (input : Bytes)
            → IsGrowing self.old input → OnOk result (IsGrowing self.new (input ++ 10 ∷ [])) }
    {
        if self.too_long.is_some() {
            self.line.clear();
            return Ok(());
        }
        self.log_line()?;
        self.line.clear();
        Ok(())
    }

    // Takes the first four lines of a piece, hashed side by side, and returns how many bytes it took. It takes none
    // if a line is begun, a line was too long, four lines would go past the beginning of a tile, or the piece doesn't
    // begin with four whole lines that are short enough.
    fn take_four(&mut self, piece: &[u8]) -> Result<usize, AllocError>
        requires { self.old.edge.size + length piece.now < 2 ^ 32 }
        ensures within { IfOk result (λ taken. taken ≤ length piece.now) }
        ensures size { IfOk result (λ taken. self.new.edge.size ≤ self.old.edge.size + taken) }
        ensures grows { (input : Bytes) → IsGrowing self.old input
            → IfOk result (λ taken. IsGrowing self.new (input ++ take taken piece.now)) }
    {
        if !self.line.is_empty() || self.too_long.is_some() || self.edge.size() % 4 != 0 {
            return Ok(0);
        }
        let Some(four) = cut_four(piece) else {
            return Ok(0);
        };
        self.edge
            .push_four(four.first, four.second, four.third, four.fourth)?;
        Ok(piece.len() - four.rest.len())
    }

    // Takes the first 256 lines of a piece as one tile, hashed side by side, and returns how many bytes it took. It
    // takes none if the lines before aren't whole tiles, or the piece doesn't begin with 256 whole lines that are
    // short enough.
    fn take_tile(&mut self, piece: &[u8]) -> Result<usize, AllocError>
        requires { self.old.edge.size + length piece.now < 2 ^ 32 }
        ensures within { IfOk result (λ taken. taken ≤ length piece.now) }
        ensures size { IfOk result (λ taken. self.new.edge.size ≤ self.old.edge.size + taken) }
        ensures grows { (input : Bytes) → IsGrowing self.old input
            → IfOk result (λ taken. IsGrowing self.new (input ++ take taken piece.now)) }
    {
        if !self.fills_tiles() {
            return Ok(0);
        }
        let Some(tile) = cut_tile(piece) else {
            return Ok(0);
        };
        self.edge.push_tile(&tile.lines)?;
        Ok(piece.len() - tile.rest.len())
    }

    // Takes the first whole lines of a piece that can be hashed side by side, a tile of them or else four. It returns
    // how many bytes it took, 0 if it can take neither.
    fn take_whole(&mut self, piece: &[u8]) -> Result<usize, AllocError>
        requires { self.old.edge.size + length piece.now < 2 ^ 32 }
        ensures within { IfOk result (λ taken. taken ≤ length piece.now) }
        ensures size { IfOk result (λ taken. self.new.edge.size ≤ self.old.edge.size + taken) }
        ensures grows { (input : Bytes) → IsGrowing self.old input
            → IfOk result (λ taken. IsGrowing self.new (input ++ take taken piece.now)) }
    {
        let taken = self.take_tile(piece)?;
        if taken > 0 {
            return Ok(taken);
        }
        self.take_four(piece)
    }

    // Takes the beginning of a piece and returns how many bytes it took: whole lines that are hashed side by side, or
    // else one line, or all of the piece if it has no newline.
    fn take_some(&mut self, piece: &[u8]) -> Result<usize, AllocError>
        requires { self.old.edge.size + length piece.now < 2 ^ 32 }
        ensures some { 0 < length piece.now → IfOk result (λ taken. 0 < taken) }
        ensures within { IfOk result (λ taken. taken ≤ length piece.now) }
        ensures size { IfOk result (λ taken. self.new.edge.size ≤ self.old.edge.size + taken) }
        ensures grows { (input : Bytes) → IsGrowing self.old input
            → IfOk result (λ taken. IsGrowing self.new (input ++ take taken piece.now)) }
    {
        let taken = self.take_whole(piece)?;
        if taken > 0 {
            return Ok(taken);
        }
        let Some(end) = memchr(b'\n', piece) else {
            self.extend(piece)?;
            return Ok(piece.len());
        };
        self.extend(&piece[..end])?;
        self.end_line()?;
        Ok(end + 1)
    }

    // Takes one more piece of the input. The edge takes up to 2^32 - 1 lines.
    fn take(&mut self, piece: &[u8]) -> Result<(), AllocError>
        requires { self.old.edge.size + length piece.now < 2 ^ 32 }
        ensures size { OnOk result (self.new.edge.size ≤ self.old.edge.size + length piece.now) }
        ensures grows { (input : Bytes)
            → IsGrowing self.old input → OnOk result (IsGrowing self.new (input ++ piece.now)) }
    {
        let mut at = 0;
        while at < piece.len() {
            at += self.take_some(&piece[at..])?;
        }
        Ok(())
    }

    // Reports whether the state is whole tiles of lines: no line is begun, and none was too long.
    fn fills_tiles(&self) -> bool
        ensures { IsTrue result → FillsTiles self.now }
    {
        self.edge.size() % 256 == 0 && self.line.is_empty() && self.too_long.is_none()
    }

    // Returns the edge, or `EntryTooLong` of the first line that is too long.
    fn outcome(self) -> Result<Edge<Sha256Tree, A>, RunFault>
        ensures { (lines : List Bytes) → IsTold self lines → IsOutcome lines result }
    {
        let Growing {
            edge,
            line: _,
            too_long,
        } = self;
        match too_long {
            Some(place) => Err(RunFault::EntryTooLong(place)),
            None => Ok(edge),
        }
    }

    // Ends the input, whose last line counts if it isn't empty. It returns the right edge of the log of the lines, or
    // `EntryTooLong` of the first line that is too long.
    fn finish(mut self) -> Result<Edge<Sha256Tree, A>, RunFault>
        requires { self.edge.size < 2 ^ 32 - 1 }
        ensures { (input : Bytes) → IsGrowing self input → IsOutcome (entries_of input) result }
    {
        if self.line.is_empty() {
            return self.outcome();
        }
        self.end_line()?;
        self.outcome()
    }
}
