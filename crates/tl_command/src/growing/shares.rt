//! Builds the right edge of the log of an input's lines by several threads.

ghost use Rattle.std.specs.Prelude.{◌≡◌, ◌<◌, ◌≤◌, ◌+◌, ◌^◌, ◌++◌, length, take, IfOk, OnOk};
ghost use Rattle.std.specs.Thread.{IsSync};
ghost use denote.Param.Send.{IsSend, Frees};
ghost use Rattle.tl_hash.specs.Bytes.{Bytes};
ghost use Rattle.tl_command.specs.Inner.Growing.{IsGrowing};

use crate::growing::Growing;
use crate::growing::cuts::{Tiles, first_tiles};
use crate::text::lines_end;
use std::alloc::{AllocError, Allocator};
use std::thread::{Threads, join};

// The most tiles of a share. An edge takes no more than 65,535 lines of another at once.
const MOST_TILES: usize = 255;

// A piece of fewer bytes is hashed by one thread.
const LEAST_SHARED: usize = 16_384;

impl<A: Allocator + Copy> Growing<A> {
    // Adds the state of the next piece of the input. If either state isn't whole tiles of lines, it takes the piece
    // itself.
    fn absorb<B: Allocator + Copy>(
        &mut self,
        next: &Growing<B>,
        piece: &[u8],
    ) -> Result<(), AllocError>
        requires room { self.old.edge.size + length piece.now < 2 ^ 32 }
        requires within { next.now.edge.size ≤ length piece.now }
        ensures size { OnOk result (self.new.edge.size ≤ self.old.edge.size + length piece.now) }
        ensures grows { (input : Bytes) → IsGrowing self.old input → IsGrowing next.now piece.now
            → OnOk result (IsGrowing self.new (input ++ piece.now)) }
    {
        if !self.fills_tiles() || !next.fills_tiles() || next.edge.size() >= 65_536 {
            return self.take(piece);
        }
        self.edge.append_edge(&next.edge)?;
        Ok(())
    }

    // Returns how many bytes of a block stand before its first line that begins a tile.
    fn before_tile(&self, block: &[u8]) -> usize
        ensures { result ≤ length block.now }
    {
        if self.too_long.is_some() {
            return block.len();
        }
        let begun = (self.edge.size() % 256) as usize;
        if begun == 0 && self.line.is_empty() {
            return 0;
        }
        match lines_end(block, 256 - begun) {
            Some(end) => end,
            None => block.len(),
        }
    }

    // Takes the beginning of a block and returns how many bytes it took: what stands before its first tile, or else a
    // share of tiles, hashed by this many threads, or all of the block if no tile stands there.
    fn take_share<H: Threads + Sync, B: Allocator + Copy + Send>(
        &mut self,
        rt: &H,
        workers: B,
        threads: usize,
        block: &[u8],
    ) -> Result<usize, AllocError>
        requires { self.old.edge.size + length block.now < 2 ^ 32 }
        ensures some { 0 < length block.now → IfOk result (λ taken. 0 < taken) }
        ensures within { IfOk result (λ taken. taken ≤ length block.now) }
        ensures size { IfOk result (λ taken. self.new.edge.size ≤ self.old.edge.size + taken) }
        ensures grows { (input : Bytes) → IsGrowing self.old input
            → IfOk result (λ taken. IsGrowing self.new (input ++ take taken block.now)) }
    {
        let start = self.before_tile(block);
        if start > 0 {
            self.take(&block[..start])?;
            return Ok(start);
        }
        let Tiles { end, count } = first_tiles(block, MOST_TILES);
        if end == 0 {
            self.take(block)?;
            return Ok(block.len());
        }
        let share = &block[..end];
        let grown = grow(rt, workers, share, count, threads)?;
        self.absorb(&grown, share)?;
        Ok(end)
    }

    // Takes one more piece of the input as `take` does, hashed by this many threads.
    pub(super) fn take_block<H: Threads + Sync, B: Allocator + Copy + Send>(
        &mut self,
        rt: &H,
        workers: B,
        threads: usize,
        block: &[u8],
    ) -> Result<(), AllocError>
        requires { self.old.edge.size + length block.now < 2 ^ 32 }
        ensures size { OnOk result (self.new.edge.size ≤ self.old.edge.size + length block.now) }
        ensures grows { (input : Bytes)
            → IsGrowing self.old input → OnOk result (IsGrowing self.new (input ++ block.now)) }
    {
        if threads <= 1 {
            return self.take(block);
        }
        let mut at = 0;
        while at < block.len() {
            at += self.take_share(rt, workers, threads, &block[at..])?;
        }
        Ok(())
    }
}

// Returns the state of a piece alone, hashed by one thread.
fn alone<B: Allocator + Copy>(workers: B, piece: &[u8]) -> Result<Growing<B>, AllocError>
    requires { length piece.now < 2 ^ 32 }
    ensures size { IfOk result (λ grown. grown.edge.size ≤ length piece.now) }
    ensures grows { IfOk result (λ grown. IsGrowing grown piece.now) }
{
    let mut growing = Growing::new(workers);
    growing.take(piece)?;
    Ok(growing)
}

// Returns the state of a piece alone that begins with this many tiles of lines, hashed by this many threads, each of
// which has a part of the tiles. One thread starts the others, one after another: if two threads started one each at
// a time, both could land on one processor.
fn grow<H: Threads + Sync, B: Allocator + Copy + Send>(
    rt: &H,
    workers: B,
    piece: &[u8],
    tiles: usize,
    threads: usize,
) -> Result<Growing<B>, AllocError>
    requires { length piece.now < 2 ^ 32 }
    ensures size { IfOk result (λ grown. grown.edge.size ≤ length piece.now) }
    ensures grows { IfOk result (λ grown. IsGrowing grown piece.now) }
{
    if threads <= 1 || tiles <= 1 || piece.len() < LEAST_SHARED {
        return alone(workers, piece);
    }
    let part = first_tiles(piece, (tiles / threads).max(1));
    let (front, back) = piece.split_at(part.end);
    let left = tiles.saturating_sub(part.count);
    let others = threads - 1;
    let (first, second) = join(
        rt,
        move || -> Result<Growing<B>, AllocError>
            requires { IsSend B.row
                × Frees B.Allocator B.dealloc_token × (length front.now < 2 ^ 32) }
            ensures { IfOk result (λ grown.
                (grown.edge.size ≤ length front.entry.now) × IsGrowing grown front.entry.now) }
        { alone(workers, front) },
        move || -> Result<Growing<B>, AllocError>
            requires { IsSync H.row
                × IsSend B.row × Frees B.Allocator B.dealloc_token × (length back.now < 2 ^ 32) }
            ensures { IfOk result (λ grown.
                (grown.edge.size ≤ length back.entry.now) × IsGrowing grown back.entry.now) }
        { grow(rt, workers, back, left, others) },
    );
    let mut grown = first?;
    grown.absorb(&second?, back)?;
    Ok(grown)
}
