//! Publishing each batch together with what the next one adds: the disk is waited for once for both.

ghost use Rattle.std.specs.Prelude.{◌≡◌, ◌+◌, ◌<◌, ◌^◌, ◌⊎◌, [], List, false, length, map, vec_items, IfOk, OnErr, OnOk, None, Some};
ghost use Rattle.tl_hash.specs.Bytes.{Bytes};
ghost use Rattle.tl_device.specs.Device.{WroteWhole, passage};
ghost use Rattle.tl_note.specs.Key.{IsKeyName};
ghost use Rattle.tl_tile.specs.Bundle.{AreShortEntries};
ghost use Rattle.tl_ledger.specs.Spent.{LacksSpent};
ghost use Rattle.tl_run.specs.Signing.{LogKey};
ghost use Rattle.tl_append.specs.Appending.{course, head_line};
ghost use Rattle.tl_append.specs.Inner.Due.{IsSigned, PrintsDue, PublishesDue, ShowsDue};
ghost use Rattle.tl_append.specs.Inner.Shedding.{ShedsSpent};

use crate::batch::MOST_ENTRIES;
use crate::faults::{unkept, unput};
use crate::printing::print_head;
use crate::shedding::shed_spent;
use std::alloc::Global;
use std::io::Write;
use tl_archive::Shelf;
use tl_device::Counted;
use tl_hash::Hash;
use tl_ledger::Ledger;
use tl_run::{LogSigner, RunFault, sign_checkpoint};

/// A publication that is due: its entries were put, and its note is signed but not on the shelf yet.
#[derive(Drop)]
pub(crate) struct Due {
    /// The signed note of the log's checkpoint.
    pub(crate) note: String,
    /// How many entries the publication before it has.
    pub(crate) from: u64,
}

// Signs the publication of the log as it is; the publication before it had `from` entries.
fn sign_due<K: LogSigner>(
    alloc: Global,
    key: &K,
    from: u64,
    ledger: &Ledger<Global>,
) -> Result<Due, RunFault>
    requires origin { IsKeyName (K.log_key key.now).name }
    requires small { ledger.now.edge.size < 2 ^ 32 }
    ensures signed { IfOk result (λ due. IsSigned (K.log_key key.now) ledger.now (Some due)) }
    ensures from { IfOk result (λ due. due.from ≡ from) }
{
    let (size, root) = (ledger.size(), ledger.root());
    match sign_checkpoint(alloc, alloc, key, size, root) {
        Ok(note) => Ok(Due { note, from }),
        Err(fault) => Err(fault),
    }
}

// Ends a publication whose checkpoint is there, with this size and root: removes spent partial tiles and bundles,
// unless they are kept, and prints the size and the root.
fn end_publication<S: Shelf, W: Write>(
    alloc: Global,
    from: u64,
    size: u64,
    root: Hash,
    keeps_partials: bool,
    shelf: &mut S,
    writer: &mut Counted<W>,
) -> Result<(), RunFault>
    requires small { size < 2 ^ 32 }
    ensures sheds { ShedsSpent size (S.kept shelf.old) (S.kept shelf.new)
        (S.trace shelf.old) (S.trace shelf.new) }
    ensures gone { keeps_partials ≡ false
        → OnOk result (LacksSpent from size (S.kept shelf.new).held) }
    ensures printed { OnOk result
        (WroteWhole (passage W.contents writer.old writer.new) (head_line size root)) }
    ensures mark { S.published shelf.new ≡ S.published shelf.old }
    ensures place { S.place shelf.new ≡ S.place shelf.old }
{
    match shed_spent(from, size, keeps_partials, shelf) {
        Ok(()) => {}
        Err(fault) => return Err(fault),
    }
    match print_head(alloc, writer, size, root) {
        Ok(()) => Ok(()),
        Err(fault) => Err(fault),
    }
}

/// Publishes what is due, if anything is, and prints its size and root. Nothing is due then.
pub(crate) fn publish_due<S: Shelf, W: Write>(
    alloc: Global,
    keeps_partials: bool,
    shelf: &mut S,
    ledger: &Ledger<Global>,
    due: &mut Option<Due>,
    writer: &mut Counted<W>,
) -> Result<(), RunFault>
    requires small { (due.old ≡ None) ⊎ (ledger.now.edge.size < 2 ^ 32) }
    ensures publishes { (key : LogKey) → IsSigned key ledger.now due.old
        → PublishesDue key due.old []
        (course S.kept S.trace shelf.old shelf.new ledger.now ledger.now) }
    ensures printed { (key : LogKey) → IsSigned key ledger.now due.old
        → OnOk result (PrintsDue key due.old
        (course S.kept S.trace shelf.old shelf.new ledger.now ledger.now)
        (passage W.contents writer.old writer.new)) }
    ensures shows { (key : LogKey) → IsSigned key ledger.now due.old → OnOk result
        (ShowsDue key keeps_partials due.old (S.published shelf.new)
        (course S.kept S.trace shelf.old shelf.new ledger.now ledger.now)) }
    ensures same { due.old ≡ None → shelf.new ≡ shelf.old }
    ensures none { due.new ≡ None }
    ensures place { S.place shelf.new ≡ S.place shelf.old }
{
    let last = match due.take() {
        Some(last) => last,
        None => return Ok(()),
    };
    match ledger.seal(shelf, last.note.as_bytes()) {
        Ok(()) => {}
        Err(fault) => return Err(unkept(fault)),
    }
    let (size, root) = (ledger.size(), ledger.root());
    match end_publication(alloc, last.from, size, root, keeps_partials, shelf, writer) {
        Ok(()) => Ok(()),
        Err(fault) => Err(fault),
    }
}

// Puts a batch behind a log, together with the checkpoint of what is due, if anything is, and prints size and root of
// that.
fn put_with<S: Shelf, W: Write>(
    alloc: Global,
    batch: &[Vec<u8>],
    keeps_partials: bool,
    shelf: &mut S,
    ledger: &mut Ledger<Global>,
    due: Option<Due>,
    writer: &mut Counted<W>,
) -> Result<(), RunFault>
    requires room { ledger.old.edge.size + length batch.now < 2 ^ 32 }
    requires short { AreShortEntries (map vec_items batch.now) }
    ensures publishes { (key : LogKey) → IsSigned key ledger.old due
        → OnOk result (PublishesDue key due (map vec_items batch.now)
        (course S.kept S.trace shelf.old shelf.new ledger.old ledger.new)) }
    ensures printed { (key : LogKey) → IsSigned key ledger.old due
        → OnOk result (PrintsDue key due
        (course S.kept S.trace shelf.old shelf.new ledger.old ledger.new)
        (passage W.contents writer.old writer.new)) }
    ensures shows { (key : LogKey) → IsSigned key ledger.old due → OnOk result
        (ShowsDue key keeps_partials due (S.published shelf.new)
        (course S.kept S.trace shelf.old shelf.new ledger.old ledger.new)) }
    ensures part { (key : LogKey) → IsSigned key ledger.old due → OnErr result ((put : List Bytes)
        × ((put ≡ []) ⊎ (put ≡ map vec_items batch.now)) × PublishesDue key due put
        (course S.kept S.trace shelf.old shelf.new ledger.old ledger.new)) }
    ensures sized { OnOk result
        (ledger.new.edge.size ≡ ledger.old.edge.size + length batch.now) }
    ensures place { S.place shelf.new ≡ S.place shelf.old }
{
    let last = match due {
        Some(last) => last,
        None => {
            return match ledger.put(shelf, batch) {
                Ok(()) => Ok(()),
                Err(fault) => Err(unput(fault)),
            };
        }
    };
    let (size, root) = (ledger.size(), ledger.root());
    match ledger.seal_and_put(shelf, last.note.as_bytes(), batch) {
        Ok(()) => {}
        Err(fault) => return Err(unput(fault)),
    }
    match end_publication(alloc, last.from, size, root, keeps_partials, shelf, writer) {
        Ok(()) => Ok(()),
        Err(fault) => Err(fault),
    }
}

/// Puts a batch behind a log, and signs its note, which is then due: it has yet to be published. What was due before
/// is published with what the batch adds, and its size and root printed. `Operator`: the log has no room for the
/// batch; what was due is published even then, and nothing is put.
pub(crate) fn put_due<K: LogSigner, S: Shelf, W: Write>(
    alloc: Global,
    key: &K,
    batch: &[Vec<u8>],
    keeps_partials: bool,
    shelf: &mut S,
    ledger: &mut Ledger<Global>,
    due: &mut Option<Due>,
    writer: &mut Counted<W>,
) -> Result<(), RunFault>
    requires origin { IsKeyName (K.log_key key.now).name }
    requires short { AreShortEntries (map vec_items batch.now) }
    requires small { (due.old ≡ None) ⊎ (ledger.old.edge.size < 2 ^ 32) }
    ensures publishes { IsSigned (K.log_key key.now) ledger.old due.old → OnOk result
        (PublishesDue (K.log_key key.now) due.old (map vec_items batch.now)
        (course S.kept S.trace shelf.old shelf.new ledger.old ledger.new)) }
    ensures printed { IsSigned (K.log_key key.now) ledger.old due.old → OnOk result
        (PrintsDue (K.log_key key.now) due.old
        (course S.kept S.trace shelf.old shelf.new ledger.old ledger.new)
        (passage W.contents writer.old writer.new)) }
    ensures shows { IsSigned (K.log_key key.now) ledger.old due.old → OnOk result
        (ShowsDue (K.log_key key.now) keeps_partials due.old (S.published shelf.new)
        (course S.kept S.trace shelf.old shelf.new ledger.old ledger.new)) }
    ensures part { IsSigned (K.log_key key.now) ledger.old due.old
        → OnErr result ((put : List Bytes)
        × ((put ≡ []) ⊎ (put ≡ map vec_items batch.now))
        × PublishesDue (K.log_key key.now) due.old put
        (course S.kept S.trace shelf.old shelf.new ledger.old ledger.new)) }
    ensures signed { OnOk result (IsSigned (K.log_key key.now) ledger.new due.new) }
    ensures due { OnOk result ((last : Due) × (due.new ≡ Some last)
        × (last.from ≡ ledger.old.edge.size)) }
    ensures none { OnErr result (due.new ≡ None) }
    ensures sized { OnOk result
        (ledger.new.edge.size ≡ ledger.old.edge.size + length batch.now) }
    ensures small { OnOk result (ledger.new.edge.size < 2 ^ 32) }
    ensures place { S.place shelf.new ≡ S.place shelf.old }
{
    if ledger.size().saturating_add(batch.len() as u64) > MOST_ENTRIES {
        return match publish_due(alloc, keeps_partials, shelf, ledger, due, writer) {
            Ok(()) => Err(RunFault::Operator),
            Err(fault) => Err(fault),
        };
    }
    let from = ledger.size();
    match put_with(
        alloc,
        batch,
        keeps_partials,
        shelf,
        ledger,
        due.take(),
        writer,
    ) {
        Ok(()) => {}
        Err(fault) => return Err(fault),
    }
    match sign_due(alloc, key, from, ledger) {
        Ok(last) => {
            *due = Some(last);
            Ok(())
        }
        Err(fault) => Err(fault),
    }
}
