//! Opening the log on a shelf under the key of its operator.

ghost use Rattle.std.specs.Prelude.{◌≡◌, ◌⊎◌, ◌∷◌, [], true, false, map, option_map, string_bytes, is_some, IfOk, OnOk, None, Some};
ghost use Rattle.sha2.specs.Sha256.{sha256};
ghost use Rattle.tl_hash.specs.declared.head.Head.{Head as HeadValue};
ghost use Rattle.tl_tile.specs.declared.resource.Resource.TheVariants as resource;
ghost use Rattle.tl_ledger.specs.Marks.{IsWithin};
ghost use Rattle.tl_ledger.specs.Opening.{IsOfNote, Opens, found_size};
ghost use Rattle.tl_append.specs.Keys.{opening_key_of};
ghost use Rattle.tl_append.specs.Inner.Proposals.{IsNewer};
ghost use Rattle.tl_append.specs.Proposing.{HasProposal, IsNoOlder, IsProposed, IsThere};
ghost use Rattle.tl_append.specs.Faults.{begin_outcome};
ghost use Rattle.tl_append.specs.Running.{BeginsAsAsked, IsStart};

use crate::faults::{outrun, unopened, unproposed};
use crate::keys::LogOpeningKey;
use crate::log_shelf::OpenedLog;
use crate::proposal::ProposalStore;
use std::alloc::Global;
use std::snapshot::Snapshot;
use tl_archive::Shelf;
use tl_checkpoint::open_checkpoint;
use tl_device::DeviceFault;
use tl_ledger::{Found, Ledger, MarkFault, is_named};
use tl_note::Verifier;
use tl_run::{Place, RunFault};
use tl_tile::Resource;

// Returns the size that a proposal states. Its checkpoint has to be the log's.
fn proposed_size(
    alloc: Global,
    note: &str,
    verifiers: &[Box<dyn Verifier>],
) -> Result<u64, RunFault>
    ensures { IfOk result (λ size. (head : HeadValue)
        × IsOfNote note.now (map (λ v. key v) verifiers.now) head × (head.size ≡ size)) }
{
    let checkpoint = match open_checkpoint(alloc, note, verifiers) {
        Ok(checkpoint) => checkpoint,
        Err(fault) => return Err(unproposed(fault)),
    };
    if !is_named(verifiers, checkpoint.origin.as_str()) {
        return Err(RunFault::BadCheckpoint(Place::Log(None)));
    }
    Ok(checkpoint.size)
}

// Opens the log on this shelf at its checkpoint.
fn open_shown<S: Shelf>(
    alloc: Global,
    verifiers: &[Box<dyn Verifier>],
    shelf: &S,
    found: &mut Found<Global>,
) -> Result<OpenedLog, RunFault>
    ensures opens { IfOk result
        (λ o. Opens sha256 (map (λ v. key v) verifiers.now) found.new o.ledger) }
    ensures due { IfOk result (λ o. o.is_due ≡ true → found.new.head ≡ None) }
    ensures shown { S.is_honest ≡ true → OnOk result
        (IsNoOlder ((S.kept shelf.now).held resource.Checkpoint) (map (λ v. key v) verifiers.now)
        (found_size found.new.head)) }
    ensures first { IfOk result (λ o. found.new.head ≡ None → o.is_due ≡ true) }
    ensures there { S.is_honest ≡ true → IfOk result (λ o. o.is_due ≡ false
        → IsThere (S.kept shelf.now).held (map (λ v. key v) verifiers.now) found.new.head) }
{
    let ledger = match Ledger::open(alloc, shelf, verifiers, found) {
        Ok(ledger) => ledger,
        Err(fault) => return Err(unopened(fault)),
    };
    let is_due = found.head.is_none();
    Ok(OpenedLog { ledger, is_due })
}

// Returns the proposal that is kept if it has more than `size` entries.
fn newer_proposal<P: ProposalStore>(
    alloc: Global,
    verifiers: &[Box<dyn Verifier>],
    store: &P,
    size: u64,
) -> Result<Option<String>, RunFault>
    ensures { IfOk result (λ note. IsNewer (P.may_have store.now)
        (map (λ v. key v) verifiers.now) size (option_map string_bytes note)) }
{
    let note = match store.last(alloc) {
        Ok(Some(note)) => note,
        Ok(None) => return Ok(None),
        Err(fault) => return Err(fault),
    };
    match proposed_size(alloc, note.as_str(), verifiers) {
        Ok(proposed) if proposed > size => Ok(Some(note)),
        Ok(_) => Ok(None),
        Err(fault) => Err(fault),
    }
}

// Opens the log on this shelf at its checkpoint or at the proposal that is kept, whichever has more entries. Nothing
// of an older proposal is read: its partial tiles may be gone.
fn open_newest<S: Shelf, P: ProposalStore>(
    alloc: Global,
    verifiers: &[Box<dyn Verifier>],
    shelf: &S,
    store: &P,
    found: &mut Found<Global>,
) -> Result<OpenedLog, RunFault>
    ensures opens { IfOk result
        (λ o. Opens sha256 (map (λ v. key v) verifiers.now) found.new o.ledger) }
    ensures newest { OnOk result (HasProposal (P.may_have store.now)
        (map (λ v. key v) verifiers.now) (found_size found.new.head)) }
    ensures due { IfOk result (λ o. o.is_due ≡ true → (found.new.head ≡ None)
        ⊎ IsProposed (P.may_have store.now) (map (λ v. key v) verifiers.now) found.new.head) }
    ensures shown { S.is_honest ≡ true → OnOk result
        (IsNoOlder ((S.kept shelf.now).held resource.Checkpoint) (map (λ v. key v) verifiers.now)
        (found_size found.new.head)) }
    ensures first { IfOk result (λ o. found.new.head ≡ None → o.is_due ≡ true) }
    ensures there { S.is_honest ≡ true → IfOk result (λ o. o.is_due ≡ false
        → IsThere (S.kept shelf.now).held (map (λ v. key v) verifiers.now) found.new.head) }
{
    let shown = match open_shown(alloc, verifiers, shelf, found) {
        Ok(shown) => shown,
        Err(fault) => return Err(fault),
    };
    let note = match newer_proposal(alloc, verifiers, store, shown.ledger.size()) {
        Ok(Some(note)) => note,
        Ok(None) => return Ok(shown),
        Err(fault) => return Err(fault),
    };
    match Ledger::open_note(alloc, shelf, note.as_str(), verifiers, found) {
        Ok(ledger) => Ok(OpenedLog {
            ledger,
            is_due: true,
        }),
        Err(fault) => Err(unopened(fault)),
    }
}

// Opens the log as `open_ledger` does; `own` is the only one of these verifiers.
fn open_by<S: Shelf, P: ProposalStore>(
    alloc: Global,
    own: &Snapshot<LogOpeningKey>,
    verifiers: &[Box<dyn Verifier>],
    shelf: &S,
    store: &P,
    found: &mut Found<Global>,
) -> Result<OpenedLog, RunFault>
    requires { map (λ v. key v) verifiers.now ≡ opening_key_of own.now.value ∷ [] }
    ensures opens { IfOk result
        (λ o. Opens sha256 (opening_key_of own.now.value ∷ []) found.new o.ledger) }
    ensures newest { OnOk result (HasProposal (P.may_have store.now)
        (opening_key_of own.now.value ∷ []) (found_size found.new.head)) }
    ensures due { IfOk result (λ o. o.is_due ≡ true → (found.new.head ≡ None)
        ⊎ IsProposed (P.may_have store.now) (opening_key_of own.now.value ∷ []) found.new.head) }
    ensures shown { S.is_honest ≡ true → OnOk result
        (IsNoOlder ((S.kept shelf.now).held resource.Checkpoint) (opening_key_of own.now.value ∷ [])
        (found_size found.new.head)) }
    ensures first { IfOk result (λ o. found.new.head ≡ None → o.is_due ≡ true) }
    ensures there { S.is_honest ≡ true → IfOk result (λ o. o.is_due ≡ false
        → IsThere (S.kept shelf.now).held (opening_key_of own.now.value ∷ []) found.new.head) }
{
    match open_newest(alloc, verifiers, shelf, store, found) {
        Ok(opened) => Ok(opened),
        Err(fault) => Err(fault),
    }
}

/// Checks that a log has exactly `start` entries, if a number is given. `Older`: it has another number.
pub fn check_start(ledger: &Ledger<Global>, start: Option<u64>) -> Result<(), RunFault>
    ensures { OnOk result (IsStart start ledger.now.edge.size) }
{
    match start {
        Some(start) if start != ledger.size() => Err(outrun(MarkFault::Older(start))),
        _ => Ok(()),
    }
}

/// Checks that a log was found if and only if it isn't to begin. `Taken`: there was a log, and a new one was to
/// begin. `NothingThere`: there was no log to go on from.
pub fn check_asked(found: &Found<Global>, is_new: bool) -> Result<(), RunFault>
    ensures asked { OnOk result (BeginsAsAsked is_new found.now.head) }
    ensures outcome { result ≡ begin_outcome is_new (is_some found.now.head) }
{
    match found.head {
        Some(_) if is_new => {
            let place = Place::Log(Some(Resource::Checkpoint));
            Err(RunFault::Device(place, DeviceFault::Taken))
        }
        None if !is_new => Err(RunFault::NothingThere(Place::Log(None))),
        _ => Ok(()),
    }
}

/// Opens the log on this shelf, whose checkpoint opens under the verifier (C2SP tlog-checkpoint), at that or at the
/// proposal that the store keeps, whichever has more entries. If there is neither, the log is empty. `found` holds
/// what was read. `Older`: more entries were published, and that isn't allowed. `BadCheckpoint`: the checkpoint or,
/// if the fault names no resource, the proposal doesn't open, or belongs to another log: its origin isn't the
/// verifier's name.
pub fn open_ledger<S: Shelf, P: ProposalStore>(
    alloc: Global,
    verifier: LogOpeningKey,
    allows_older: bool,
    shelf: &S,
    store: &P,
    found: &mut Found<Global>,
) -> Result<OpenedLog, RunFault>
    ensures opens { IfOk result
        (λ o. Opens sha256 (opening_key_of verifier ∷ []) found.new o.ledger) }
    ensures within { allows_older ≡ false → S.is_honest ≡ true
        → OnOk result (IsWithin (found_size found.new.head) (S.published shelf.now)) }
    ensures newest { OnOk result (HasProposal (P.may_have store.now)
        (opening_key_of verifier ∷ []) (found_size found.new.head)) }
    ensures due { IfOk result (λ o. o.is_due ≡ true → (found.new.head ≡ None)
        ⊎ IsProposed (P.may_have store.now) (opening_key_of verifier ∷ []) found.new.head) }
    ensures shown { S.is_honest ≡ true → OnOk result
        (IsNoOlder ((S.kept shelf.now).held resource.Checkpoint) (opening_key_of verifier ∷ [])
        (found_size found.new.head)) }
    ensures first { IfOk result (λ o. found.new.head ≡ None → o.is_due ≡ true) }
    ensures there { S.is_honest ≡ true → IfOk result (λ o. o.is_due ≡ false
        → IsThere (S.kept shelf.now).held (opening_key_of verifier ∷ []) found.new.head) }
{
    let own = Snapshot::of(&verifier);
    let verifier: Box<dyn Verifier> = match Box::new(alloc, verifier) {
        Ok(verifier) => verifier,
        Err(_) => return Err(RunFault::OutOfMemory),
    };
    let opened = match open_by(alloc, &own, &[verifier], shelf, store, found) {
        Ok(opened) => opened,
        Err(fault) => return Err(fault),
    };
    if allows_older {
        return Ok(opened);
    }
    match opened.ledger.check_mark(shelf) {
        Ok(()) => Ok(opened),
        Err(fault) => Err(outrun(fault)),
    }
}
