//! Opening a log that is on a shelf.

ghost use Rattle.std.specs.Prelude.{◌≡◌, ◌<◌, ◌^◌, map, true, Some, Contains, IfOk, IfErr, OnOk};
ghost use Rattle.sha2.specs.Sha256.{sha256};
ghost use Rattle.tl_ledger.specs.Opening.{IsOfHeld, IsStated, Opens, StandsWhereWhole};
ghost use Rattle.tl_ledger.specs.OpenFaults.{OpenFails, OpenNoteFails};
ghost use Rattle.tl_ledger.specs.Inner.Reads.{HasPartials};
ghost use Rattle.tl_ledger.specs.Inner.Restoring.{HeadFails, PartFails, Restores, StandsWhereRead};

mod fault;
mod found;
mod heading;
mod naming;
mod reading;
mod restoring;
mod shelf_source;

use crate::ledger::Ledger;
pub use fault::OpenFault;
pub use found::Found;
use heading::{find_head, stated};
pub use naming::is_named;
use reading::read_partials;
use restoring::{restore_bundle, restore_edge};
use shelf_source::ShelfSource;
use std::alloc::Allocator;
use tl_archive::Shelf;
use tl_hash::Head;
use tl_note::Verifier;
use tl_tile::FetchedTiles;

// Restores the ledger of a log of this size and root from what was read.
fn restore<A: Allocator + Copy>(
    alloc: A,
    source: &ShelfSource<A>,
    head: &Head,
    found: &mut Found<A>,
) -> Result<Ledger<A>, OpenFault>
    requires small { head.now.size < 2 ^ 32 }
    requires all { HasPartials head.now.size source.now }
    ensures head { found.new.head ≡ Some head.now }
    ensures restores { IfOk result (Restores head.now found.new) }
    ensures honest { IfOk result (StandsWhereRead source.now head.now.size) }
    ensures refused { IfErr result (PartFails (λ r text. Contains source.now (r, text)) head.now
        found.new.edge_tiles found.new.entry_tiles) }
{
    found.head = Some(*head);
    let mut edge_tiles = FetchedTiles::new(alloc);
    let edge = restore_edge(alloc, source, head, &mut edge_tiles);
    found.edge_tiles = edge_tiles;
    let edge = match edge {
        Ok(edge) => edge,
        Err(fault) => return Err(fault),
    };
    let mut entries = Vec::new(alloc);
    let mut entry_tiles = FetchedTiles::new(alloc);
    let bundle = restore_bundle(alloc, source, head, &mut entries, &mut entry_tiles);
    found.entries = entries;
    found.entry_tiles = entry_tiles;
    let bundle = match bundle {
        Ok(bundle) => bundle,
        Err(fault) => return Err(fault),
    };
    Ok(Ledger::of(edge, bundle))
}

// Opens the log of this size and root. `found` then holds what was read, even on error.
fn open_head<S: Shelf, A: Allocator + Copy>(
    alloc: A,
    shelf: &S,
    head: &Head,
    found: &mut Found<A>,
) -> Result<Ledger<A>, OpenFault>
    requires { head.now.size < 2 ^ 32 }
    ensures head { found.new.head ≡ Some head.now }
    ensures restores { IfOk result (Restores head.now found.new) }
    ensures honest { S.is_honest ≡ true → IfOk result
        (StandsWhereWhole sha256 (S.kept shelf.now).held found.new) }
    ensures refused { IfErr result (HeadFails S.is_honest (S.kept shelf.now).held
        (S.may_fail shelf.now) head.now found.new) }
{
    *found = Found::new(alloc);
    found.head = Some(*head);
    let source = match read_partials(alloc, shelf, head.size) {
        Ok(source) => source,
        Err(fault) => return Err(fault),
    };
    match restore(alloc, &source, head, found) {
        Ok(ledger) => Ok(ledger),
        Err(fault) => Err(fault),
    }
}

impl<A: Allocator + Copy> Ledger<A> {
    /// Opens the log on this shelf as its checkpoint states it, which the verifiers must open (C2SP tlog-checkpoint).
    /// Without a checkpoint the log is empty. Reads the checkpoint, the partial tiles and the partial bundle, each
    /// once, and checks them against the root. `found` then holds what was read, even on error. `OtherLog` means that
    /// the checkpoint's origin is the name of none of the verifiers.
    pub fn open<S: Shelf>(
        alloc: A,
        shelf: &S,
        verifiers: &[Box<dyn Verifier>],
        found: &mut Found<A>,
    ) -> Result<Ledger<A>, OpenFault>
        ensures opens { IfOk result
            (Opens sha256 (map (λ v. key v) verifiers.now) found.new) }
        ensures honest { S.is_honest ≡ true → IfOk result
            (StandsWhereWhole sha256 (S.kept shelf.now).held found.new) }
        ensures read { S.is_honest ≡ true → OnOk result (IsOfHeld (S.kept shelf.now).held
            (map (λ v. key v) verifiers.now) found.new.head) }
        ensures refused { IfErr result (OpenFails S.is_honest (S.kept shelf.now).held
            (S.may_fail shelf.now) (map (λ v. key v) verifiers.now) found.new) }
    {
        *found = Found::new(alloc);
        let head = match find_head(alloc, shelf, verifiers) {
            Ok(Some(head)) => head,
            Ok(None) => return Ok(Ledger::new(alloc)),
            Err(fault) => return Err(fault),
        };
        match open_head(alloc, shelf, &head, found) {
            Ok(ledger) => Ok(ledger),
            Err(fault) => Err(fault),
        }
    }

    /// Opens the log on this shelf as this note states it, which the verifiers must open. The checkpoint on the shelf
    /// isn't read, so the note may be one that isn't published yet. All else is as in `open`; `OtherLog` means that
    /// the note's origin is the name of none of the verifiers.
    pub fn open_note<S: Shelf>(
        alloc: A,
        shelf: &S,
        note: &str,
        verifiers: &[Box<dyn Verifier>],
        found: &mut Found<A>,
    ) -> Result<Ledger<A>, OpenFault>
        ensures opens { IfOk result
            (Opens sha256 (map (λ v. key v) verifiers.now) found.new) }
        ensures honest { S.is_honest ≡ true → IfOk result
            (StandsWhereWhole sha256 (S.kept shelf.now).held found.new) }
        ensures stated { OnOk result
            (IsStated note.now (map (λ v. key v) verifiers.now) found.new.head) }
        ensures refused { IfErr result (OpenNoteFails S.is_honest (S.kept shelf.now).held
            (S.may_fail shelf.now) note.now (map (λ v. key v) verifiers.now) found.new) }
    {
        *found = Found::new(alloc);
        let head = match stated(alloc, note, verifiers) {
            Ok(head) => head,
            Err(fault) => return Err(fault),
        };
        match open_head(alloc, shelf, &head, found) {
            Ok(ledger) => Ok(ledger),
            Err(fault) => Err(fault),
        }
    }
}
