//! The bytes of the tiles and entry bundles of a log.

ghost use Rattle.std.specs.Prelude.{◌≡◌, ◌+◌, ◌*◌, ◌<◌, ◌≤◌, ◌^◌, length, take, drop, IfOk, IfErr};
ghost use Rattle.sha2.specs.Sha256.{sha256};
ghost use Rattle.tl_tile.specs.Bundle.{bundle_text};
ghost use Rattle.tl_tile.specs.Path.{IsTile};
ghost use Rattle.tl_tile.specs.ReadTile.{end_of};
ghost use Rattle.tl_tile.specs.TileText.{tile_text};

use crate::log_lines::LogLines;
use std::alloc::{AllocError, Allocator};
use std::thread::Threads;
use tl_run::RunFault;
use tl_tile::{BundleFault, Tile, write_bundle};

/// Returns the bytes of a tile that lies within the lines: its hashes, each the root of the lines under it. No other
/// line is hashed. Up to `threads` threads hash, with memory from `workers`.
pub(crate) fn tile_of<H: Threads + Sync, A: Allocator, B: Allocator + Copy + Send>(
    rt: &H,
    alloc: A,
    workers: B,
    threads: usize,
    tile: Tile,
    lines: &LogLines<'_>,
) -> Result<Vec<u8, A>, AllocError>
    requires lawful { IsTile tile }
    requires within { end_of tile ≤ length lines.now }
    requires few { length lines.now < 2 ^ 32 }
    ensures { IfOk result (λ bytes. bytes.items ≡ tile_text sha256 tile lines.now) }
{
    let count = 256u64.pow(tile.level);
    let (_before, mut rest) = lines.split(tile.index * 256 * count);
    let mut bytes = Vec::new(alloc);
    for _place in 0..tile.width {
        let (first, others) = rest.split(count);
        let hash = first.root(rt, workers, threads)?;
        bytes.extend_from_slice(hash.as_bytes())?;
        rest = others;
    }
    Ok(bytes)
}

// Returns the lines of the bundle with this index and width.
fn bundled<'a>(index: u64, width: u32, lines: &LogLines<'a>) -> LogLines<'a>
    requires few { index * 256 < 2 ^ 64 }
    ensures { result ≡ take width (drop (index * 256) lines.now) }
{
    let (_before, rest) = lines.split(index * 256);
    let (bundle, _after) = rest.split(width as u64);
    bundle
}

// Returns the only fault that writing a bundle of entries which aren't too long can have: allocation failed.
fn only_memory(fault: BundleFault) -> RunFault
    requires { fault ≡ BundleFault.OutOfMemory }
    ensures { result ≡ RunFault.OutOfMemory }
{
    match fault {
        BundleFault::OutOfMemory => RunFault::OutOfMemory,
        _ => unreachable!(),
    }
}

/// Returns the entry bundle with this index and width, which lies within the lines, and copies no other lines. It
/// fails only if allocation fails.
pub(crate) fn bundle_of<A: Allocator + Copy>(
    alloc: A,
    index: u64,
    width: u32,
    lines: &LogLines<'_>,
) -> Result<Vec<u8, A>, RunFault>
    requires some { 0 < width }
    requires narrow { width ≤ 256 }
    requires within { index * 256 + width ≤ length lines.now }
    requires few { length lines.now < 2 ^ 32 }
    ensures text { IfOk result (λ bytes.
        bytes.items ≡ bundle_text (take width (drop (index * 256) lines.now))) }
    ensures fault { IfErr result (λ fault. fault ≡ RunFault.OutOfMemory) }
{
    let entries = bundled(index, width, lines).copied(alloc)?;
    match write_bundle(alloc, entries.as_slice()) {
        Ok(bytes) => Ok(bytes),
        Err(fault) => Err(only_memory(fault)),
    }
}
