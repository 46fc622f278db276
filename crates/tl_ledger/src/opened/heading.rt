//! Reading the checkpoint of a log that is on a shelf.

ghost use Rattle.std.specs.Prelude.{◌≡◌, ◌<◌, ◌^◌, map, true, IfOk, IfErr};
ghost use Rattle.tl_ledger.specs.Opening.{IsOfHeld, IsOfNote, IsOfSigned, found_size};
ghost use Rattle.tl_ledger.specs.Inner.Restoring.{FindsNone, StatesNone};

use crate::opened::fault::OpenFault;
use crate::opened::naming::is_named;
use std::alloc::{Allocator, Global};
use std::str;
use tl_archive::Shelf;
use tl_checkpoint::{OpenCheckpointFault, open_checkpoint};
use tl_hash::Head;
use tl_note::Verifier;
use tl_tile::Resource;

const MOST_ENTRIES: u64 = 0xFFFF_FFFF;

/// Returns the size and root that a note's checkpoint states, if its origin is the name of one of the keys.
pub(crate) fn stated<A: Allocator + Copy>(
    alloc: A,
    note: &str,
    verifiers: &[Box<dyn Verifier>],
) -> Result<Head, OpenFault>
    ensures states { IfOk result (IsOfNote note.now (map (λ v. key v) verifiers.now)) }
    ensures limit { IfOk result (λ head. head.size < 2 ^ 32) }
    ensures refused { IfErr result (StatesNone A note.now (map (λ v. key v) verifiers.now)) }
{
    let checkpoint = match open_checkpoint(alloc, note, verifiers) {
        Ok(checkpoint) => checkpoint,
        Err(OpenCheckpointFault::OutOfMemory) => return Err(OpenFault::OutOfMemory),
        Err(_) => return Err(OpenFault::Checkpoint),
    };
    if !is_named(verifiers, checkpoint.origin.as_str()) {
        return Err(OpenFault::OtherLog);
    }
    if checkpoint.size > MOST_ENTRIES {
        return Err(OpenFault::TooLarge);
    }
    Ok(Head {
        size: checkpoint.size,
        root: checkpoint.root,
    })
}

/// Returns the size and root that the checkpoint on the shelf states, or `None` if there is no checkpoint.
pub(crate) fn find_head<S: Shelf, A: Allocator + Copy>(
    alloc: A,
    shelf: &S,
    verifiers: &[Box<dyn Verifier>],
) -> Result<Option<Head>, OpenFault>
    ensures signed { IfOk result (IsOfSigned (map (λ v. key v) verifiers.now)) }
    ensures held { S.is_honest ≡ true → IfOk result
        (IsOfHeld (S.kept shelf.now).held (map (λ v. key v) verifiers.now)) }
    ensures limit { IfOk result (λ head. found_size head < 2 ^ 32) }
    ensures refused { IfErr result (FindsNone S.is_honest (S.kept shelf.now).held
        (S.may_fail shelf.now) (map (λ v. key v) verifiers.now)) }
{
    let bytes = match shelf.read(alloc, &Resource::Checkpoint) {
        Ok(Some(bytes)) => bytes,
        Ok(None) => return Ok(None),
        Err(fault) => return Err(OpenFault::Shelf(fault)),
    };
    let Ok(note) = str::from_utf8(bytes.as_slice()) else {
        return Err(OpenFault::Checkpoint);
    };
    match stated(alloc, note, verifiers) {
        Ok(head) => Ok(Some(head)),
        Err(fault) => Err(fault),
    }
}
