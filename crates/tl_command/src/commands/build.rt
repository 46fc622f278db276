//! The command `build` prints what a static mirror of the log of the input's lines serves.

ghost use Rattle.std.specs.Prelude.{◌≡◌, ◌<◌, ◌^◌, ◌↔◌, ◌⊎◌, IsTrue, IfErr, IfOk, MatchBool, Contains, None, Some, length, option_map};
ghost use Rattle.tl_note.specs.Key.{IsKeyName};
ghost use Rattle.tl_device.specs.Device.{passage};
ghost use Rattle.tl_run.specs.Run.{Runs};
ghost use Rattle.tl_run.specs.Signing.{checkpoint_note};
ghost use Rattle.tl_command.specs.Mirror.{mirrored, resource_text};
ghost use Rattle.tl_command.specs.Build.{RunsBuild};
ghost use Rattle.tl_command.specs.Inner.Steps.{ReadsPath, AnswersWanted, WantedComes};

pub(crate) mod checkpoint_note;
pub(crate) mod listing;
pub(crate) mod resource_bytes;
pub(crate) mod signed;

use crate::growing::reading::read_measured;
use crate::line_marks::LineMarks;
use crate::log_lines::LogLines;
use checkpoint_note::checkpoint_note_of;
use listing::{listing_of, mirrored_of};
use resource_bytes::{bundle_of, tile_of};
use std::alloc::{Allocator, Global};
use std::io::{Read, Write};
use std::thread::Threads;
use tl_device::Counted;
use tl_note::is_key_name;
use tl_run::{LogSigner, MOST_INPUT, RunFault, print_text, read_input};
use tl_tile::{Resource, parse_path};

/// The options of `build` with a demonstration key.
#[derive(Drop)]
pub struct BuildOptions {
    /// The name of the log, a key's name.
    pub origin: String,
    /// The secret of the log's demonstration key.
    pub secret: String,
    /// The path of the one resource to print; without it, the listing of all of them.
    pub get: Option<String>,
    /// How many threads hash at once, at least 1; without it, as many as the machine has.
    pub threads: Option<u16>,
}

// Returns the resource with the path that is asked for, if one is. It fails with `BadPath` if no resource has the
// path.
fn wanted_of(get: Option<&str>) -> Result<Option<Resource>, RunFault>
    ensures { ReadsPath (option_map (λ path. path.now) get.entry) result }
{
    let Some(path) = get else {
        return Ok(None);
    };
    match parse_path(path) {
        Some(resource) => Ok(Some(resource)),
        None => Err(RunFault::BadPath),
    }
}

// Reports whether a log of this many entries has none although a tile or an entry bundle of it is asked for.
fn is_of_no_entry(count: u64, wanted: Resource) -> bool
    ensures { MatchBool result
        ((count ≡ 0) × ¬ (Contains (mirrored 0) wanted))
        ((0 < count) ⊎ Contains (mirrored 0) wanted) }
{
    if count > 0 {
        return false;
    }
    match wanted {
        Resource::Tile(_) => true,
        Resource::Entries { .. } => true,
        Resource::Checkpoint => false,
    }
}

// Returns the bytes of a resource that the log of these lines has. It makes no more than the resource needs: a tile
// hashes only the lines under it, a bundle copies only its own lines and hashes nothing, and neither is signed.
fn wanted_bytes<H: Threads + Sync, K: LogSigner, A: Allocator + Copy, B: Allocator + Copy + Send>(
    rt: &H,
    alloc: A,
    workers: B,
    threads: usize,
    global: Global,
    key: &K,
    resource: Resource,
    lines: &LogLines<'_>,
) -> Result<Vec<u8, A>, RunFault>
    requires origin { IsKeyName (K.log_key key.now).name }
    requires served { Contains (mirrored (length lines.now)) resource }
    requires few { length lines.now < 2 ^ 32 }
    ensures text { IfOk result (λ bytes. bytes.items
        ≡ resource_text (checkpoint_note (K.log_key key.now) lines.now) lines.now resource) }
    ensures fault { IfErr result (λ fault. fault ≡ RunFault.OutOfMemory) }
{
    match resource {
        Resource::Tile(tile) => Ok(tile_of(rt, alloc, workers, threads, tile, lines)?),
        Resource::Entries { index, width } => bundle_of(alloc, index, width, lines),
        Resource::Checkpoint => {
            let note = checkpoint_note_of(rt, alloc, workers, threads, global, key, lines)?;
            Ok(note.into_bytes())
        }
    }
}

// Reports whether these resources contain the one that is asked for.
fn has_resource(resources: &[Resource], wanted: Resource) -> bool
    ensures { IsTrue result ↔ Contains resources.now wanted }
{
    resources.contains(&wanted)
}

// Returns the bytes of the resource that is asked for, or fails with `NotThere` if the log of these lines doesn't
// have it.
fn answer_of<H: Threads + Sync, K: LogSigner, A: Allocator + Copy, B: Allocator + Copy + Send>(
    rt: &H,
    alloc: A,
    workers: B,
    threads: usize,
    global: Global,
    key: &K,
    wanted: Resource,
    lines: &LogLines<'_>,
) -> Result<Vec<u8, A>, RunFault>
    requires { IsKeyName (K.log_key key.now).name }
    ensures { AnswersWanted
        (checkpoint_note (K.log_key key.now) lines.now) lines.now (Some wanted) result }
{
    let resources = mirrored_of(alloc, lines.count())?;
    if !has_resource(resources.as_slice(), wanted) {
        return Err(RunFault::NotThere);
    }
    wanted_bytes(rt, alloc, workers, threads, global, key, wanted, lines)
}

// Reads the whole input and writes the resource that is asked for of the log of its lines.
fn build<
    H: Threads + Sync,
    K: LogSigner,
    A: Allocator + Copy,
    B: Allocator + Copy + Send,
    R: Read,
    W: Write,
>(
    rt: &H,
    alloc: A,
    workers: B,
    threads: usize,
    global: Global,
    key: &K,
    wanted: Resource,
    reader: &mut Counted<R>,
    writer: &mut Counted<W>,
) -> Result<(), RunFault>
    requires { IsKeyName (K.log_key key.now).name }
    ensures { Runs (WantedComes (K.log_key key.now) (Some wanted)) (passage
        R.remaining reader.old reader.new) (passage W.contents writer.old writer.new) result }
{
    let input = read_input(alloc, reader, MOST_INPUT)?;
    let marks = match LineMarks::of(alloc, input.as_slice()) {
        Ok(marks) => marks,
        Err(fault) => return Err(fault),
    };
    let lines = marks.lines();
    if is_of_no_entry(lines.count(), wanted) {
        return Err(RunFault::NotThere);
    }
    let answer = match answer_of(rt, alloc, workers, threads, global, key, wanted, &lines) {
        Ok(answer) => answer,
        Err(fault) => return Err(fault),
    };
    print_text(writer, answer.as_slice())?;
    Ok(())
}

// Reads the whole input and writes the listing of the log of its lines. It keeps only a right edge and the lengths of
// the bundles.
fn list<
    H: Threads + Sync,
    K: LogSigner,
    A: Allocator + Copy,
    B: Allocator + Copy + Send,
    R: Read,
    W: Write,
>(
    rt: &H,
    alloc: A,
    workers: B,
    threads: usize,
    global: Global,
    key: &K,
    reader: &mut Counted<R>,
    writer: &mut Counted<W>,
) -> Result<(), RunFault>
    requires { IsKeyName (K.log_key key.now).name }
    ensures { Runs (WantedComes (K.log_key key.now) None) (passage R.remaining reader.old reader.new)
        (passage W.contents writer.old writer.new) result }
{
    let (edge, lengths) = match read_measured(rt, alloc, workers, threads, reader) {
        Ok(log) => log,
        Err(fault) => return Err(fault),
    };
    let (size, root) = (edge.size(), edge.root());
    let listing = match listing_of(alloc, global, key, size, root, lengths.as_slice()) {
        Ok(listing) => listing,
        Err(fault) => return Err(fault),
    };
    print_text(writer, listing.as_bytes())?;
    Ok(())
}

/// Reads the whole input and writes what a static mirror of the log of its lines serves (C2SP tlog-tiles): without a
/// path a line `path length` for each resource, the checkpoint last; with a path that resource. The log's key signs
/// the checkpoint, with memory from `global`. It fails with `BadOrigin` if the key's name can't be a key's and with
/// `BadPath` if no resource has the path, both before it reads, and with `NotThere` if the log lacks the resource. Up
/// to `threads` threads hash, with memory from `workers`.
pub fn run_build<
    H: Threads + Sync,
    K: LogSigner,
    A: Allocator + Copy,
    B: Allocator + Copy + Send,
    R: Read,
    W: Write,
>(
    rt: &H,
    alloc: A,
    workers: B,
    threads: usize,
    global: Global,
    key: &K,
    get: Option<&str>,
    reader: &mut Counted<R>,
    writer: &mut Counted<W>,
) -> Result<(), RunFault>
    ensures { RunsBuild (K.log_key key.now) (option_map (λ path. path.now) get.entry) (passage
        R.remaining reader.old reader.new) (passage W.contents writer.old writer.new) result }
{
    if !is_key_name(key.origin()) {
        return Err(RunFault::BadOrigin);
    }
    match wanted_of(get)? {
        Some(wanted) => build(
            rt, alloc, workers, threads, global, key, wanted, reader, writer,
        ),
        None => list(rt, alloc, workers, threads, global, key, reader, writer),
    }
}
