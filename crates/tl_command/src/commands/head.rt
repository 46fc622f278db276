//! The command `head` prints the checkpoint of the log whose entries are the lines of the input.

ghost use Rattle.tl_device.specs.Device.{passage};
ghost use Rattle.tl_command.specs.Head.{RunsHead};

use crate::growing::reading::read_edge;
use std::alloc::Allocator;
use std::io::{Read, Write};
use std::thread::Threads;
use tl_device::Counted;
use tl_run::{RunFault, checkpoint_of, print_text};
use tl_text::is_one_line;

/// The options of `head`.
#[derive(Drop)]
pub struct HeadOptions {
    /// The name of the log.
    pub origin: String,
    /// How many threads hash at once, at least 1; without it, as many as the machine has.
    pub threads: Option<u16>,
}

/// Reads the whole input and writes the text of the checkpoint (C2SP tlog-checkpoint) of the log of its lines: the
/// origin, their number and their Merkle tree hash under SHA-256. It fails with `BadOrigin`, before it reads, if the
/// origin isn't one line. Nothing is written before the whole input is read. Up to `threads` threads hash at once,
/// with memory from `workers`; 0 counts as 1. It keeps 1 MiB of the input, right edges, one line and the threads'
/// stacks, whatever the input.
pub fn run_head<
    H: Threads + Sync,
    A: Allocator + Copy,
    B: Allocator + Copy + Send,
    R: Read,
    W: Write,
>(
    rt: &H,
    alloc: A,
    workers: B,
    threads: usize,
    origin: &str,
    reader: &mut Counted<R>,
    writer: &mut Counted<W>,
) -> Result<(), RunFault>
    ensures { RunsHead origin.now (passage R.remaining reader.old reader.new)
        (passage W.contents writer.old writer.new) result }
{
    if !is_one_line(origin) {
        return Err(RunFault::BadOrigin);
    }
    let edge = read_edge(rt, alloc, workers, threads, reader)?;
    let text = checkpoint_of(alloc, origin, edge.size(), edge.root())?;
    print_text(writer, text.as_bytes())?;
    Ok(())
}
