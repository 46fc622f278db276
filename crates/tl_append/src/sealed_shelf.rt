//! A shelf whose log is shown under sealed notes.

ghost use Rattle.std.specs.Prelude.{◌≡◌, ◌+◌, ◌<◌, ◌^◌, length, map, string_bytes, vec_items, IfOk, OnErr, OnOk, Option, Some};
ghost use Rattle.tl_hash.specs.Bytes.{Bytes};
ghost use Rattle.tl_note.specs.Key.{IsKeyName};
ghost use Rattle.tl_tile.specs.Bundle.{AreShortEntries};
ghost use Rattle.tl_append.specs.Appending.{course};
ghost use Rattle.tl_append.specs.Cosigning.{HasQuorum, ShowsAtMost};
ghost use Rattle.tl_append.specs.Inner.Turns.{IsNoteOf, SealsBatch};

use crate::batch::put_batch;
use crate::faults::unkept;
use crate::keys::LogOpeningKey;
use crate::log_shelf::{LogShelf, OpenedLog};
use crate::opening::open_ledger;
use crate::proposal::ProposalStore;
use crate::sealing::SealsNotes;
use crate::shedding::shed_spent;
use std::alloc::Global;
use tl_archive::Shelf;
use tl_ledger::{Found, Ledger};
use tl_run::{LogSigner, RunFault, sign_checkpoint};

// Signs the note of the log's checkpoint by the key, and returns it as it is shown.
fn sealed_note<K: LogSigner, P: ProposalStore, Z: SealsNotes>(
    alloc: Global,
    key: &K,
    ledger: &Ledger<Global>,
    store: &mut P,
    sealer: &mut Z,
) -> Result<String, RunFault>
    requires origin { IsKeyName (K.log_key key.now).name }
    requires small { ledger.now.edge.size < 2 ^ 32 }
    ensures note { IfOk result
        (λ text. IsNoteOf (K.log_key key.now) ledger.now (string_bytes text)) }
    ensures quorum { IfOk result
        (λ text. HasQuorum (Z.quorum sealer.old) (string_bytes text)) }
    ensures same { Z.quorum sealer.new ≡ Z.quorum sealer.old }
{
    let (size, root) = (ledger.size(), ledger.root());
    let note = match sign_checkpoint(alloc, alloc, key, size, root) {
        Ok(note) => note,
        Err(fault) => return Err(fault),
    };
    match sealer.seal(alloc, store, note) {
        Ok(text) => Ok(text),
        Err(fault) => Err(fault),
    }
}

/// A shelf with a log. Each batch is shown under the note that a sealer makes of the log's own.
#[derive(Drop)]
pub struct SealedShelf<S, P, Z> {
    shelf: S,
    store: P,
    sealer: Z,
    keeps_partials: bool,
}

impl<S: Shelf + Drop, P: ProposalStore + Drop, Z: SealsNotes + Drop> SealedShelf<S, P, Z> {
    /// Makes a log's shelf of a shelf, a store of proposals and a sealer of notes. `keeps_partials`: partial tiles
    /// and bundles are kept once full ones replace them.
    pub fn new(shelf: S, store: P, sealer: Z, keeps_partials: bool) -> SealedShelf<S, P, Z>
        ensures kept { ⟦<SealedShelf<S, P, Z> as LogShelf>⟧.kept result ≡ S.kept shelf }
        ensures trace { ⟦<SealedShelf<S, P, Z> as LogShelf>⟧.trace result ≡ S.trace shelf }
        ensures place { ⟦<SealedShelf<S, P, Z> as LogShelf>⟧.place result ≡ S.place shelf }
        ensures mark { ⟦<SealedShelf<S, P, Z> as LogShelf>⟧.published result
            ≡ S.published shelf }
        ensures quorum { ⟦<SealedShelf<S, P, Z> as LogShelf>⟧.quorum result
            ≡ Z.quorum sealer }
        ensures keeps { ⟦<SealedShelf<S, P, Z> as LogShelf>⟧.keeps_partials result
            ≡ keeps_partials }
        ensures may_have { (note : Option Bytes)
            → ⟦<SealedShelf<S, P, Z> as LogShelf>⟧.may_have result note
            → P.may_have store note }
    {
        SealedShelf {
            shelf,
            store,
            sealer,
            keeps_partials,
        }
    }

    // Puts a batch behind the log, and shows it once its note is sealed.
    fn show<K: LogSigner>(
        &mut self,
        alloc: Global,
        key: &K,
        batch: &[Vec<u8>],
        ledger: &mut Ledger<Global>,
    ) -> Result<(), RunFault>
        requires origin { IsKeyName (K.log_key key.now).name }
        requires short { AreShortEntries (map vec_items batch.now) }
        ensures all { OnOk result (SealsBatch (K.log_key key.now) (Z.quorum self.old.sealer)
            (map vec_items batch.now)
            (course S.kept S.trace self.old.shelf self.new.shelf ledger.old ledger.new)) }
        ensures part { OnErr result (ShowsAtMost (K.log_key key.now) (Z.quorum self.old.sealer)
            (map vec_items batch.now)
            (course S.kept S.trace self.old.shelf self.new.shelf ledger.old ledger.new)) }
        ensures sized { OnOk result
            (ledger.new.edge.size ≡ ledger.old.edge.size + length batch.now) }
        ensures marked { OnOk result
            (S.published self.new.shelf ≡ Some ledger.new.edge.size) }
        ensures small { OnOk result (ledger.new.edge.size < 2 ^ 32) }
        ensures place { S.place self.new.shelf ≡ S.place self.old.shelf }
        ensures same { Z.quorum self.new.sealer ≡ Z.quorum self.old.sealer }
        ensures keeps { self.new.keeps_partials ≡ self.old.keeps_partials }
    {
        match put_batch(&mut self.shelf, ledger, batch) {
            Ok(()) => {}
            Err(fault) => return Err(fault),
        }
        let (store, sealer) = (&mut self.store, &mut self.sealer);
        let text = match sealed_note(alloc, key, ledger, store, sealer) {
            Ok(text) => text,
            Err(fault) => return Err(fault),
        };
        match ledger.seal(&mut self.shelf, text.as_bytes()) {
            Ok(()) => Ok(()),
            Err(fault) => Err(unkept(fault)),
        }
    }

    /// Returns the shelf itself.
    pub fn into_shelf(self) -> S
        ensures kept { S.kept result ≡ ⟦<SealedShelf<S, P, Z> as LogShelf>⟧.kept self }
        ensures trace { S.trace result ≡ ⟦<SealedShelf<S, P, Z> as LogShelf>⟧.trace self }
        ensures place { S.place result ≡ ⟦<SealedShelf<S, P, Z> as LogShelf>⟧.place self }
        ensures mark { S.published result
            ≡ ⟦<SealedShelf<S, P, Z> as LogShelf>⟧.published self }
    {
        let SealedShelf { shelf, .. } = self;
        shelf
    }
}

impl<S: Shelf + Drop, P: ProposalStore + Drop, Z: SealsNotes + Drop> LogShelf
    for SealedShelf<S, P, Z> {
    ghost kept = { λ l. S.kept l.shelf };

    ghost trace = { λ l. S.trace l.shelf };

    ghost place = { λ l. S.place l.shelf };

    ghost published = { λ l. S.published l.shelf };

    ghost is_honest = { S.is_honest };

    ghost quorum = { λ l. Z.quorum l.sealer };

    ghost keeps_partials = { λ l. l.keeps_partials };

    ghost may_have = { λ l note. P.may_have l.store note };

    type Shelf = S;

    fn shelf(&self) -> &S {
        &self.shelf
    }

    fn open(
        &mut self,
        alloc: Global,
        verifier: LogOpeningKey,
        allows_older: bool,
        found: &mut Found<Global>,
    ) -> Result<OpenedLog, RunFault> {
        match open_ledger(
            alloc,
            verifier,
            allows_older,
            &self.shelf,
            &self.store,
            found,
        ) {
            Ok(opened) => Ok(opened),
            Err(fault) => Err(fault),
        }
    }

    fn append<K: LogSigner>(
        &mut self,
        alloc: Global,
        key: &K,
        batch: &[Vec<u8>],
        ledger: &mut Ledger<Global>,
    ) -> Result<(), RunFault> {
        let from = ledger.size();
        match self.show(alloc, key, batch, ledger) {
            Ok(()) => {}
            Err(fault) => return Err(fault),
        }
        match shed_spent(from, ledger.size(), self.keeps_partials, &mut self.shelf) {
            Ok(()) => Ok(()),
            Err(fault) => Err(fault),
        }
    }
}
