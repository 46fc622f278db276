//! The commands `inclusion` and `consistency` print a proof about the lines of the input.

ghost use Rattle.std.specs.Prelude.{◌≡◌, ◌<◌, ◌≤◌, length, IfErr, IfOk};
ghost use Rattle.tl_device.specs.Device.{passage};
ghost use Rattle.tl_command.specs.ProofText.{inclusion_text, consistency_text};
ghost use Rattle.tl_command.specs.ProofCommands.{inclusion_of, InclusionComes, consistency_of, ConsistencyComes};
ghost use Rattle.tl_run.specs.Run.{Runs};

pub(crate) mod consistency;
pub(crate) mod inclusion;

use crate::line_marks::LineMarks;
use crate::log_lines::LogLines;
use crate::proof_text::{consistency_bytes, inclusion_bytes};
use consistency::consistency_over;
use inclusion::inclusion_over;
use std::alloc::Allocator;
use std::io::{Read, Write};
use std::thread::Threads;
use tl_device::Counted;
use tl_run::{MOST_INPUT, RunFault, print_text, read_input};

/// Reads the whole input and writes the text of the inclusion proof (RFC 6962, section 2.1.1) of the line at `index`,
/// counted from 0, in the tree of all its lines under SHA-256. It fails with `BadIndex` if the index isn't below the
/// number of lines. Nothing is written before the whole input is read. Up to `threads` threads hash at once, with
/// memory from `workers`.
pub fn run_inclusion<
    H: Threads + Sync,
    A: Allocator + Copy,
    B: Allocator + Copy + Send,
    R: Read,
    W: Write,
>(
    rt: &H,
    alloc: A,
    workers: B,
    threads: usize,
    index: u64,
    reader: &mut Counted<R>,
    writer: &mut Counted<W>,
) -> Result<(), RunFault>
    ensures { Runs (InclusionComes index) (passage R.remaining reader.old reader.new)
        (passage W.contents writer.old writer.new) result }
{
    let input = read_input(alloc, reader, MOST_INPUT)?;
    let marks = match LineMarks::of(alloc, input.as_slice()) {
        Ok(marks) => marks,
        Err(fault) => return Err(fault),
    };
    let lines = marks.lines();
    if index >= lines.count() {
        return Err(RunFault::BadIndex);
    }
    let text = inclusion_text_over(rt, alloc, workers, threads, index, &lines)?;
    print_text(writer, text.as_slice())?;
    Ok(())
}

/// Reads the whole input and writes the text of the consistency proof (RFC 6962, section 2.1.2) from the tree of its
/// first `old` lines to that of all its lines under SHA-256. It fails with `BadOld` if `old` is above the number of
/// lines. Nothing is written before the whole input is read. Up to `threads` threads hash at once, with memory from
/// `workers`.
pub fn run_consistency<
    H: Threads + Sync,
    A: Allocator + Copy,
    B: Allocator + Copy + Send,
    R: Read,
    W: Write,
>(
    rt: &H,
    alloc: A,
    workers: B,
    threads: usize,
    old: u64,
    reader: &mut Counted<R>,
    writer: &mut Counted<W>,
) -> Result<(), RunFault>
    ensures { Runs (ConsistencyComes old) (passage R.remaining reader.old reader.new)
        (passage W.contents writer.old writer.new) result }
{
    let input = read_input(alloc, reader, MOST_INPUT)?;
    let marks = match LineMarks::of(alloc, input.as_slice()) {
        Ok(marks) => marks,
        Err(fault) => return Err(fault),
    };
    let lines = marks.lines();
    if old > lines.count() {
        return Err(RunFault::BadOld);
    }
    let text = consistency_text_over(rt, alloc, workers, threads, old, &lines)?;
    print_text(writer, text.as_slice())?;
    Ok(())
}

// Returns the text of the inclusion proof of the line at this index.
fn inclusion_text_over<H: Threads + Sync, A: Allocator + Copy, B: Allocator + Copy + Send>(
    rt: &H,
    alloc: A,
    workers: B,
    threads: usize,
    index: u64,
    lines: &LogLines<'_>,
) -> Result<Vec<u8, A>, RunFault>
    requires { index < length lines.now }
    ensures text { IfOk result
        (λ text. text.items ≡ inclusion_text (inclusion_of index lines.now)) }
    ensures fault { IfErr result (λ fault. fault ≡ RunFault.OutOfMemory) }
{
    let proof = inclusion_over(rt, alloc, workers, threads, index, lines)?;
    Ok(inclusion_bytes(alloc, &proof)?)
}

// Returns the text of the consistency proof for the first `old` lines.
fn consistency_text_over<H: Threads + Sync, A: Allocator + Copy, B: Allocator + Copy + Send>(
    rt: &H,
    alloc: A,
    workers: B,
    threads: usize,
    old: u64,
    lines: &LogLines<'_>,
) -> Result<Vec<u8, A>, RunFault>
    requires { old ≤ length lines.now }
    ensures text { IfOk result
        (λ text. text.items ≡ consistency_text (consistency_of old lines.now)) }
    ensures fault { IfErr result (λ fault. fault ≡ RunFault.OutOfMemory) }
{
    let proof = consistency_over(rt, alloc, workers, threads, old, lines)?;
    Ok(consistency_bytes(alloc, &proof)?)
}
