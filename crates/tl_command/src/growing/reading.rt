//! Reads an input and returns the right edge of the log of its lines.

ghost use Rattle.std.specs.Prelude.{◌≡◌, ◌-◌, ◌<◌, ◌≤◌, ◌^◌, true, length, take, vec_len, IfNone, IfOk, IfSome, OnSome};
ghost use Rattle.std.specs.Io.KnownBytes.{Consumes, IsAtEnd};
ghost use Rattle.tl_command.specs.Inner.Growing.{IsOutcome, ReadsEdge};
ghost use Rattle.tl_command.specs.Inner.Measuring.{ReadsMeasured};
ghost use Rattle.tl_command.specs.Lines.{entries_of};
ghost use Rattle.tl_device.specs.Device.{passage};

use crate::growing::Growing;
use crate::growing::measuring::Measuring;
use std::alloc::{AllocError, Allocator};
use std::io::Read;
use std::thread::Threads;
use tl_device::Counted;
use tl_hash::Sha256Tree;
use tl_run::{MOST_INPUT, RunFault};
use tl_tile::Edge;

// How many bytes of the input are kept at once, 1 MiB.
const BLOCK: usize = 1_048_576;

// Reads until the buffer is full or the input ends, and returns how many bytes it read: fewer than the buffer has
// only if the input ended. It returns None if a read failed.
fn fill<R: Read>(reader: &mut Counted<R>, buf: &mut [u8]) -> Option<usize>
    ensures length { length buf.new ≡ length buf.old }
    ensures bound { IfSome result (λ n. n ≤ length buf.new) }
    ensures consumed { IfSome result (λ n.
        Consumes (R.remaining reader.old.device) (R.remaining reader.new.device) (take n buf.new)) }
    ensures ended { IfSome result
        (λ n. n < length buf.new → IsAtEnd (R.remaining reader.new.device)) }
    ensures steady { OnSome result (reader.new.failed ≡ reader.old.failed) }
    ensures failed { IfNone result (reader.new.failed ≡ true) }
{
    let mut at = 0;
    while at < buf.len() {
        match reader.read_some(&mut buf[at..]) {
            None => return None,
            Some(0) => return Some(at),
            Some(n) => at += n,
        }
    }
    Some(at)
}

// Returns a block for the input, with none of its bytes yet.
fn empty_block<A: Allocator>(alloc: A) -> Result<Vec<u8, A>, AllocError>
    ensures { IfOk result (λ block. vec_len block ≡ 1048576) }
{
    vec![in alloc; 0u8; BLOCK]
}

/// Returns the right edge of the log of the lines of an input. It fails with `EntryTooLong` of the first line that
/// has more than 65,535 bytes. Up to `threads` threads hash, with memory from `workers`.
pub(crate) fn edge_of<H: Threads + Sync, A: Allocator + Copy, B: Allocator + Copy + Send>(
    rt: &H,
    alloc: A,
    workers: B,
    threads: usize,
    input: &[u8],
) -> Result<Edge<Sha256Tree, A>, RunFault>
    requires { length input.now < 2 ^ 32 - 1 }
    ensures { IsOutcome (entries_of input.now) result }
{
    let mut growing = Growing::new(alloc);
    growing.take_block(rt, workers, threads, input)?;
    growing.finish()
}

/// Reads all that the reader gives and returns the right edge of the log of its lines. It fails with `TooLarge` if
/// the input has more than 64 MiB, and else with `EntryTooLong` of the first line that has more than 65,535 bytes. It
/// keeps 1 MiB of the input at once. Up to `threads` threads hash, with memory from `workers`.
pub(crate) fn read_edge<
    H: Threads + Sync,
    A: Allocator + Copy,
    B: Allocator + Copy + Send,
    R: Read,
>(
    rt: &H,
    alloc: A,
    workers: B,
    threads: usize,
    reader: &mut Counted<R>,
) -> Result<Edge<Sha256Tree, A>, RunFault>
    ensures { ReadsEdge (passage R.remaining reader.old reader.new) result }
{
    let mut growing = Growing::new(alloc);
    let mut block = empty_block(alloc)?;
    let mut total = 0u64;
    while total <= MOST_INPUT {
        let Some(n) = fill(reader, &mut block) else {
            return Err(RunFault::Read);
        };
        growing.take_block(rt, workers, threads, &block[..n])?;
        total += n as u64;
        if n < block.len() && total <= MOST_INPUT {
            return growing.finish();
        }
    }
    Err(RunFault::TooLarge)
}

/// Reads as `read_edge` does, and returns the right edge of the log and the lengths of its entry bundles. It keeps
/// eight bytes more for each bundle.
pub(crate) fn read_measured<
    H: Threads + Sync,
    A: Allocator + Copy,
    B: Allocator + Copy + Send,
    R: Read,
>(
    rt: &H,
    alloc: A,
    workers: B,
    threads: usize,
    reader: &mut Counted<R>,
) -> Result<(Edge<Sha256Tree, A>, Vec<u64, A>), RunFault>
    ensures { ReadsMeasured (passage R.remaining reader.old reader.new) result }
{
    let mut growing = Growing::new(alloc);
    let mut measuring = Measuring::new(alloc);
    let mut block = empty_block(alloc)?;
    let mut total = 0u64;
    while total <= MOST_INPUT {
        let Some(n) = fill(reader, &mut block) else {
            return Err(RunFault::Read);
        };
        let piece = &block[..n];
        growing.take_block(rt, workers, threads, piece)?;
        measuring.take(piece)?;
        total += n as u64;
        if n < block.len() && total <= MOST_INPUT {
            let lengths = measuring.finish()?;
            match growing.finish() {
                Ok(edge) => return Ok((edge, lengths)),
                Err(fault) => return Err(fault),
            }
        }
    }
    Err(RunFault::TooLarge)
}
