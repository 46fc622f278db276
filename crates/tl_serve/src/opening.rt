//! What the log of `serve` is opened with, and what its lanes are to send.

ghost use Rattle.std.specs.Prelude.{◌≡◌, IfOk, length, map, vec_items};
ghost use Rattle.tl_lines.specs.Dealt.{Deals};

use crate::lanes::Sending;
use crate::options::ServeOptions;
use std::alloc::{AllocError, Global};
use std::io::Read;
use tl_append::line_fault;
use tl_checkpoint::open_checkpoint;
use tl_command::read_entries;
use tl_device::Counted;
use tl_lines::{Lines, deal};
use tl_note::Verifier;
use tl_run::{MOST_INPUT, RunFault};
use tl_sequencer::Submitter;
use tl_tile::{BundleFault, write_bundle};

/// Returns the bundles of these entries, none of which is too long.
pub(crate) fn bundles_of(alloc: Global, entries: &[Vec<u8>]) -> Result<Vec<Vec<u8>>, RunFault> {
    let mut bundles = Vec::new(alloc);
    for bundle in entries.chunks(256) {
        match write_bundle(alloc, bundle) {
            Ok(bytes) => bundles.push(bytes)?,
            Err(BundleFault::OutOfMemory) => return Err(RunFault::OutOfMemory),
            Err(_) => return Err(RunFault::Operator),
        }
    }
    Ok(bundles)
}

/// Returns a note with its last newline, which a shell strips.
pub(crate) fn with_newline(alloc: Global, note: &str) -> Result<String, AllocError> {
    let mut whole = String::from_str(alloc, note)?;
    if !note.ends_with('\n') {
        whole.push_str("\n")?;
    }
    Ok(whole)
}

/// Returns how many entries the checkpoint of a note has.
pub(crate) fn size_of(
    alloc: Global,
    note: &str,
    verifiers: &[Box<dyn Verifier>],
) -> Result<u64, RunFault> {
    match open_checkpoint(alloc, note, verifiers) {
        Ok(checkpoint) => Ok(checkpoint.size),
        Err(_) => Err(RunFault::Operator),
    }
}

/// What a log is opened with: the entries that it goes on from, the entries to send it, the lines that come later,
/// the number of lanes, and the room of each. If posted entries are taken, the last lane is for them.
#[derive(Drop)]
pub(crate) struct Plan {
    pub(crate) base: Vec<Vec<u8>>,
    pub(crate) entries: Vec<Vec<u8>>,
    pub(crate) lines: Lines<Global>,
    pub(crate) lanes: u32,
    pub(crate) room: usize,
}

// Returns the entries that a log of this size goes on from, and those to send it; if lines are followed, the latter
// come later. Fails with `Malformed` if there are fewer.
fn read_log<R: Read>(
    alloc: Global,
    options: &ServeOptions,
    size: u64,
    lines: &mut Lines<Global>,
    reader: &mut Counted<R>,
) -> Result<(Vec<Vec<u8>>, Vec<Vec<u8>>), RunFault> {
    if options.follow {
        return match lines.take(reader, size) {
            Ok(base) => Ok((base, Vec::new(alloc))),
            Err(fault) => Err(line_fault(fault)),
        };
    }
    let mut base = read_entries(alloc, reader, MOST_INPUT)?;
    let Ok(size) = usize::try_from(size) else {
        return Err(RunFault::Malformed);
    };
    if size > base.len() {
        return Err(RunFault::Malformed);
    }
    let entries = base.split_off(size)?;
    Ok((base, entries))
}

/// Reads what a log of this size is opened with. If lines are followed, they have one lane.
pub(crate) fn read_plan<R: Read>(
    alloc: Global,
    options: &ServeOptions,
    size: u64,
    reader: &mut Counted<R>,
) -> Result<Plan, RunFault> {
    let mut lines = Lines::new(alloc)?;
    let (base, entries) = match read_log(alloc, options, size, &mut lines, reader) {
        Ok(read) => read,
        Err(fault) => return Err(fault),
    };
    let Ok(lanes) = u32::try_from(options.lanes) else {
        return Err(RunFault::Operator);
    };
    let Ok(room) = usize::try_from(options.capacity) else {
        return Err(RunFault::Operator);
    };
    if options.follow && lanes != 1 {
        return Err(RunFault::Operator);
    }
    let lanes = if options.takes_posts {
        lanes.saturating_add(1)
    } else {
        lanes
    };
    Ok(Plan {
        base,
        entries,
        lines,
        lanes,
        room,
    })
}

// Returns what each submitter has to send: the entries are dealt out in turn.
fn lanes_of(
    alloc: Global,
    submitters: Vec<Submitter<Global, Global>>,
    entries: Vec<Vec<u8>>,
) -> Result<Vec<Sending>, AllocError>
    ensures submitters { IfOk result
        (λ lanes. map (λ l. l.submitter) lanes.items ≡ submitters.items) }
    ensures entries { IfOk result (λ lanes. Deals (length submitters.items) entries.items
        (map (λ l. vec_items l.entries) lanes.items)) }
{
    let mut lists = deal(alloc, entries, submitters.len())?.into_iter();
    let mut lanes = Vec::new(alloc);
    for submitter in submitters {
        let entries = lists.next().unwrap_or(Vec::new(alloc));
        lanes.push(Sending { submitter, entries })?;
    }
    Ok(lanes)
}

/// Returns what each submitter has to send: the entries are dealt out in turn. If posted entries are taken, the last
/// submitter is for them, and is dealt none.
pub(crate) fn lanes_with_posts(
    alloc: Global,
    submitters: Vec<Submitter<Global, Global>>,
    entries: Vec<Vec<u8>>,
    takes_posts: bool,
) -> Result<Vec<Sending>, AllocError>
    ensures { IfOk result (λ lanes. map (λ l. l.submitter) lanes.items ≡ submitters.items) }
{
    if !takes_posts {
        return lanes_of(alloc, submitters, entries);
    }
    let mut submitters = submitters;
    let Some(submitter) = submitters.pop() else {
        return Ok(Vec::new(alloc));
    };
    let mut lanes = lanes_of(alloc, submitters, entries)?;
    let entries = Vec::new(alloc);
    lanes.push(Sending { submitter, entries })?;
    Ok(lanes)
}
