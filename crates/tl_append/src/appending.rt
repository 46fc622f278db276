//! Appending the lines of an input to a log in batches.

ghost use Rattle.std.specs.Prelude.{◌≡◌, ◌<◌, ◌^◌, ◌⊎◌, None, OnErr, OnOk, Some};
ghost use Rattle.tl_device.specs.Device.{passage};
ghost use Rattle.tl_note.specs.Key.{IsKeyName};
ghost use Rattle.tl_append.specs.Appending.{AppendsLines, AppendsSome, course};
ghost use Rattle.tl_append.specs.Inner.Owing.{LeavesLast, LeavesSome};

use crate::due::{Due, publish_due, put_due};
use crate::faults::line_fault;
use crate::options::{Batching, Joining};
use std::alloc::Global;
use std::io::{Read, Write};
use tl_archive::Shelf;
use tl_device::Counted;
use tl_ledger::Ledger;
use tl_lines::Lines;
use tl_run::{LogSigner, RunFault};

// Reports whether the publication that is due waits for the next batch.
fn waits_for_next(batching: Batching, lines: &Lines<Global>) -> bool {
    match batching.joining {
        Joining::Never => false,
        Joining::AtHand => lines.count().saturating_sub(lines.entries()) >= batching.size,
        Joining::Always => true,
    }
}

// Puts the lines of the input behind the log in batches. Each is published with what the next one adds, or alone if
// it doesn't wait for that. The publication of the last one is left due, if any.
fn put_lines<K: LogSigner, S: Shelf, R: Read, W: Write>(
    alloc: Global,
    key: &K,
    batching: Batching,
    shelf: &mut S,
    ledger: &mut Ledger<Global>,
    due: &mut Option<Due>,
    reader: &mut Counted<R>,
    writer: &mut Counted<W>,
) -> Result<(), RunFault>
    requires origin { IsKeyName (K.log_key key.now).name }
    requires size { 0 < batching.size }
    requires none { due.old ≡ None }
    ensures all { OnOk result (LeavesLast
        (K.log_key key.now) batching.size batching.keeps_partials due.new (S.published shelf.new)
        (course S.kept S.trace shelf.old shelf.new ledger.old ledger.new)
        (passage R.remaining reader.old reader.new) (passage W.contents writer.old writer.new)) }
    ensures some { OnErr result (LeavesSome (K.log_key key.now) due.new
        (course S.kept S.trace shelf.old shelf.new ledger.old ledger.new)
        (passage R.remaining reader.old reader.new)) }
    ensures small { (due.new ≡ None) ⊎ (ledger.new.edge.size < 2 ^ 32) }
    ensures place { S.place shelf.new ≡ S.place shelf.old }
{
    let mut lines = match Lines::new(alloc) {
        Ok(lines) => lines,
        Err(_) => return Err(RunFault::OutOfMemory),
    };
    let (size, keeps_partials) = (batching.size, batching.keeps_partials);
    let mut is_first = true;
    for _turn in 0..u64::MAX {
        let entries = match lines.take_most(reader, size) {
            Ok(entries) => entries,
            Err(fault) => return Err(line_fault(fault)),
        };
        if entries.is_empty() && !is_first {
            return Ok(());
        }
        let batch = entries.as_slice();
        match put_due(
            alloc,
            key,
            batch,
            keeps_partials,
            shelf,
            ledger,
            due,
            writer,
        ) {
            Ok(()) => is_first = false,
            Err(fault) => return Err(fault),
        }
        if (entries.len() as u64) < size {
            return Ok(());
        }
        if waits_for_next(batching, &lines) {
            continue;
        }
        match publish_due(alloc, keeps_partials, shelf, ledger, due, writer) {
            Ok(()) => {}
            Err(fault) => return Err(fault),
        }
    }
    Err(RunFault::Operator)
}

/// Appends the lines of the input to the log of this ledger on the shelf, and publishes it after each batch and at
/// the end, at least once, under a note of its checkpoint by the key, whose name is the log's. A publication is put
/// alone or with what the next batch adds. Its size is then marked, spent partial tiles are removed unless kept, and
/// size and root are printed. Memory holds one batch and the ledger. `Operator`: the log would have more than 2^32 -
/// 1 entries.
pub fn append_lines<K: LogSigner, S: Shelf, R: Read, W: Write>(
    alloc: Global,
    key: &K,
    batching: Batching,
    shelf: &mut S,
    ledger: &mut Ledger<Global>,
    reader: &mut Counted<R>,
    writer: &mut Counted<W>,
) -> Result<(), RunFault>
    requires origin { IsKeyName (K.log_key key.now).name }
    requires size { 0 < batching.size }
    ensures all { OnOk result (AppendsLines (K.log_key key.now) batching.size batching.keeps_partials
        (course S.kept S.trace shelf.old shelf.new ledger.old ledger.new)
        (passage R.remaining reader.old reader.new) (passage W.contents writer.old writer.new)) }
    ensures marked { OnOk result (S.published shelf.new ≡ Some ledger.new.edge.size) }
    ensures some { OnErr result (AppendsSome (K.log_key key.now)
        (course S.kept S.trace shelf.old shelf.new ledger.old ledger.new)
        (passage R.remaining reader.old reader.new)) }
    ensures place { S.place shelf.new ≡ S.place shelf.old }
{
    let mut due = None;
    let put = put_lines(
        alloc, key, batching, shelf, ledger, &mut due, reader, writer,
    );
    let keeps = batching.keeps_partials;
    let shown = publish_due(alloc, keeps, shelf, ledger, &mut due, writer);
    match put {
        Ok(()) => {}
        Err(fault) => return Err(fault),
    }
    match shown {
        Ok(()) => Ok(()),
        Err(fault) => Err(fault),
    }
}
