//! Appending one batch of entries to a log, and publishing it.

ghost use Rattle.std.specs.Prelude.{◌≡◌, ◌+◌, ◌<◌, ◌^◌, ◌∷◌, ◌++◌, [], List, false, length, map, vec_items, OnErr, OnOk, Some};
ghost use Rattle.sha2.specs.Sha256.{sha256};
ghost use Rattle.tl_hash.specs.Bytes.{Bytes};
ghost use Rattle.tl_note.specs.Key.{IsKeyName};
ghost use Rattle.tl_tile.specs.Bundle.{AreShortEntries};
ghost use Rattle.tl_log.specs.Histories.{Prefix};
ghost use Rattle.tl_archive.specs.Complete.{KeptSafe};
ghost use Rattle.tl_ledger.specs.Keeping.{IsKeeping};
ghost use Rattle.tl_ledger.specs.Spent.{LacksSpent};
ghost use Rattle.tl_append.specs.Appending.{Appends, AppendsAtMost, HasCheckpoint, course};
ghost use Rattle.tl_append.specs.Inner.Turns.{HasShown};

use crate::faults::{unkept, unput};
use crate::shedding::shed_spent;
use std::alloc::Global;
use tl_archive::Shelf;
use tl_ledger::Ledger;
use tl_run::{LogSigner, RunFault, sign_checkpoint};

/// The most entries of a log.
pub(crate) const MOST_ENTRIES: u64 = 4_294_967_295;

/// Puts a batch behind a log. `Operator`: the log has no room for it, and nothing was put.
pub(crate) fn put_batch<S: Shelf>(
    shelf: &mut S,
    ledger: &mut Ledger<Global>,
    batch: &[Vec<u8>],
) -> Result<(), RunFault>
    requires { AreShortEntries (map vec_items batch.now) }
    ensures kept { (history : List Prefix) (log : List Bytes)
        → IsKeeping sha256 history log (S.kept shelf.old) ledger.old
        → OnOk result (IsKeeping sha256 history (log ++ map vec_items batch.now)
        (S.kept shelf.new) ledger.new) }
    ensures stayed { (history : List Prefix) (log : List Bytes)
        → IsKeeping sha256 history log (S.kept shelf.old) ledger.old
        → OnErr result (IsKeeping sha256 history log (S.kept shelf.new) ledger.new) }
    ensures safe { (history : List Prefix) (log : List Bytes)
        → IsKeeping sha256 history log (S.kept shelf.old) ledger.old
        → KeptSafe sha256 history (S.trace shelf.old) (S.trace shelf.new) }
    ensures sized { OnOk result
        (ledger.new.edge.size ≡ ledger.old.edge.size + length batch.now) }
    ensures same { OnErr result (ledger.new ≡ ledger.old) }
    ensures small { OnOk result (ledger.new.edge.size < 2 ^ 32) }
    ensures place { S.place shelf.new ≡ S.place shelf.old }
{
    if ledger.size().saturating_add(batch.len() as u64) > MOST_ENTRIES {
        return Err(RunFault::Operator);
    }
    match ledger.put(shelf, batch) {
        Ok(()) => Ok(()),
        Err(fault) => Err(unput(fault)),
    }
}

// Puts a batch behind a log, and publishes it under a note by the key.
fn publish_batch<K: LogSigner, S: Shelf>(
    alloc: Global,
    key: &K,
    batch: &[Vec<u8>],
    shelf: &mut S,
    ledger: &mut Ledger<Global>,
) -> Result<(), RunFault>
    requires origin { IsKeyName (K.log_key key.now).name }
    requires short { AreShortEntries (map vec_items batch.now) }
    ensures all { OnOk result (Appends (K.log_key key.now) (map vec_items batch.now ∷ [])
        (course S.kept S.trace shelf.old shelf.new ledger.old ledger.new)) }
    ensures shown { OnOk result (HasShown (K.log_key key.now) (map vec_items batch.now)
        (course S.kept S.trace shelf.old shelf.new ledger.old ledger.new)) }
    ensures there { OnOk result (HasCheckpoint (K.log_key key.now) (map vec_items batch.now)
        (course S.kept S.trace shelf.old shelf.new ledger.old ledger.new)) }
    ensures sized { OnOk result
        (ledger.new.edge.size ≡ ledger.old.edge.size + length batch.now) }
    ensures small { OnOk result (ledger.new.edge.size < 2 ^ 32) }
    ensures part { OnErr result (AppendsAtMost (K.log_key key.now) (map vec_items batch.now)
        (course S.kept S.trace shelf.old shelf.new ledger.old ledger.new)) }
    ensures marked { OnOk result (S.published shelf.new ≡ Some ledger.new.edge.size) }
    ensures place { S.place shelf.new ≡ S.place shelf.old }
{
    match put_batch(shelf, ledger, batch) {
        Ok(()) => {}
        Err(fault) => return Err(fault),
    }
    let (size, root) = (ledger.size(), ledger.root());
    let note = match sign_checkpoint(alloc, alloc, key, size, root) {
        Ok(note) => note,
        Err(fault) => return Err(fault),
    };
    match ledger.seal(shelf, note.as_bytes()) {
        Ok(()) => Ok(()),
        Err(fault) => Err(unkept(fault)),
    }
}

/// Puts a batch of entries behind the log of this ledger on the shelf, and publishes it once its tiles and bundles
/// outlast a crash, under a note of its checkpoint by the key, whose name is the log's (C2SP tlog-checkpoint,
/// tlog-tiles). The new size is then marked, and partial tiles and bundles that are spent since are removed unless
/// they are kept. At a fault the ledger's size shows whether the batch was put. `Operator`: the log would have more
/// than 2^32 - 1 entries.
pub fn append_batch<K: LogSigner, S: Shelf>(
    alloc: Global,
    key: &K,
    batch: &[Vec<u8>],
    keeps_partials: bool,
    shelf: &mut S,
    ledger: &mut Ledger<Global>,
) -> Result<(), RunFault>
    requires origin { IsKeyName (K.log_key key.now).name }
    requires short { AreShortEntries (map vec_items batch.now) }
    ensures all { OnOk result (Appends (K.log_key key.now) (map vec_items batch.now ∷ [])
        (course S.kept S.trace shelf.old shelf.new ledger.old ledger.new)) }
    ensures there { OnOk result (HasCheckpoint (K.log_key key.now) (map vec_items batch.now)
        (course S.kept S.trace shelf.old shelf.new ledger.old ledger.new)) }
    ensures sized { OnOk result
        (ledger.new.edge.size ≡ ledger.old.edge.size + length batch.now) }
    ensures small { OnOk result (ledger.new.edge.size < 2 ^ 32) }
    ensures part { OnErr result (AppendsAtMost (K.log_key key.now) (map vec_items batch.now)
        (course S.kept S.trace shelf.old shelf.new ledger.old ledger.new)) }
    ensures marked { OnOk result (S.published shelf.new ≡ Some ledger.new.edge.size) }
    ensures spent { keeps_partials ≡ false → OnOk result (LacksSpent
        ledger.old.edge.size ledger.new.edge.size (S.kept shelf.new).held) }
    ensures place { S.place shelf.new ≡ S.place shelf.old }
{
    let from = ledger.size();
    match publish_batch(alloc, key, batch, shelf, ledger) {
        Ok(()) => {}
        Err(fault) => return Err(fault),
    }
    match shed_spent(from, ledger.size(), keeps_partials, shelf) {
        Ok(()) => Ok(()),
        Err(fault) => Err(fault),
    }
}
