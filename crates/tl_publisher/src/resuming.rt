//! Resuming a log from a checkpoint that was published.

ghost use Rattle.std.specs.Prelude.{◌≡◌, ◌<◌, ◌≤◌, ◌^◌, ◌↔◌, ℕ, List, [], IfErr, IfOk, IsTrue, MatchBool, length, map, slice_index_or, vec_items};
ghost use Rattle.sha2.specs.Sha256.{sha256};
ghost use Rattle.tl_checkpoint.specs.Checkpoint.{head_of};
ghost use Rattle.tl_note.specs.Note.{IsNote};
ghost use Rattle.tl_publisher.specs.Grown.{IsGrown};
ghost use Rattle.tl_publisher.specs.Inner.Resuming.{MissesBundle, Refuses, after_bundle, after_operator, after_sequencer};
ghost use Rattle.tl_publisher.specs.Operating.{HaveSeen, IsNew, IsOperating};
ghost use Rattle.tl_publisher.specs.Resuming.{resumption, AreBundlesOf, IsBase, IsBundleAt, IsFirstBad, IsOfOrigin, IsSized, ResumeRefuses, bundle_count};
ghost use Rattle.tl_tile.specs.Needed.{bundle_width};
ghost use Rattle.tl_tile.specs.Bundle.{AreEntries, bundle_text};

use crate::fault::{OperatorFault, ResumeFault};
use crate::growth::Growth;
use crate::opening::{begin, first_wrong};
use crate::operator::{OpenedLog, Operator, RunningLog};
use std::alloc::Global;
use std::sync::Wait;
use tl_checkpoint::{Checkpoint, OpenCheckpointFault, open_checkpoint};
use tl_note::{Signer, Verifier};
use tl_sequencer::{OpenFault, open_from};
use tl_tile::{BundleFault, bundle_width, read_bundle};

const MOST_ENTRIES: u64 = 0xFFFF_FFFF;

// Opens the note and returns its checkpoint if it is of this origin.
fn checkpoint_of(
    alloc: Global,
    note: &str,
    verifiers: &[Box<dyn Verifier>],
    origin: &str,
) -> Result<Checkpoint<Global>, ResumeFault>
    ensures checkpoint { (bundles : List (List ℕ)) (limit : ℕ) → IfOk result (λ c.
        IsOfOrigin (resumption note.now (map (λ v. key v) verifiers.now) bundles origin.now limit)
        (head_of c)) }
    ensures refused { (bundles : List (List ℕ)) (limit : ℕ) → IfErr result
        (Refuses (resumption note.now (map (λ v. key v) verifiers.now) bundles origin.now limit)) }
{
    let checkpoint = match open_checkpoint(alloc, note, verifiers) {
        Ok(checkpoint) => checkpoint,
        Err(OpenCheckpointFault::OutOfMemory) => return Err(ResumeFault::OutOfMemory),
        Err(_) => return Err(ResumeFault::Note),
    };
    if checkpoint.origin.as_str() != origin {
        return Err(ResumeFault::Origin);
    }
    Ok(checkpoint)
}

// Reports whether the log may have this many entries, and this is the number of bundles that they need.
fn is_sized(size: u64, bundles: usize, limit: u64) -> bool
    ensures { IsTrue result ↔ ((size ≤ limit) × (size < 2 ^ 32) × (bundles ≡ bundle_count size)) }
{
    if size > limit || size > MOST_ENTRIES {
        return false;
    }
    bundles as u64 == (size + 255) / 256
}

// Converts the fault of the bundle at this position.
fn bundle_refusal(fault: BundleFault, place: usize) -> ResumeFault
    ensures { result ≡ after_bundle place fault }
{
    match fault {
        BundleFault::OutOfMemory => ResumeFault::OutOfMemory,
        _ => ResumeFault::Bundle(place),
    }
}

// Returns the entries of the bundle at this position.
fn read_at(
    alloc: Global,
    bundles: &[Vec<u8>],
    place: usize,
    size: u64,
) -> Result<Vec<Vec<u8>>, ResumeFault>
    requires within { place < length bundles.now }
    requires counted { length bundles.now ≡ bundle_count size }
    ensures entries { IfOk result
        (λ entries. AreEntries (bundle_width size place) (map vec_items entries.items)) }
    ensures text { IfOk result (λ entries. slice_index_or (map vec_items bundles.now) place []
        ≡ bundle_text (map vec_items entries.items)) }
    ensures refused { ((i : ℕ) → i < place → IsBundleAt (map vec_items bundles.now) size i)
        → IfErr result (MissesBundle (map vec_items bundles.now) size) }
{
    let width = bundle_width(size, place as u64);
    match read_bundle(alloc, &bundles[place], width) {
        Ok(entries) => Ok(entries),
        Err(fault) => Err(bundle_refusal(fault, place)),
    }
}

// Returns the entries of all bundles of a log of this size.
fn read_all(alloc: Global, bundles: &[Vec<u8>], size: u64) -> Result<Vec<Vec<u8>>, ResumeFault>
    requires { length bundles.now ≡ bundle_count size }
    ensures length { IfOk result (λ base. length base.items ≡ size) }
    ensures entries { IfOk result
        (λ base. AreBundlesOf (map vec_items base.items) (map vec_items bundles.now)) }
    ensures refused { IfErr result (MissesBundle (map vec_items bundles.now) size) }
{
    let mut base = Vec::new(alloc);
    for place in 0..bundles.len() {
        let mut entries = read_at(alloc, bundles, place, size)?;
        base.append(&mut entries)?;
    }
    Ok(base)
}

// Returns the entries that the log begins with, and their growth.
fn base_of(
    alloc: Global,
    note: &str,
    verifiers: &[Box<dyn Verifier>],
    bundles: &[Vec<u8>],
    origin: &str,
    limit: u64,
) -> Result<(Vec<Vec<u8>>, Growth<Global>), ResumeFault>
    ensures base { IfOk result (λ r. IsBase (resumption note.now (map (λ v. key v) verifiers.now)
        (map vec_items bundles.now) origin.now limit) (map vec_items r.0.items)) }
    ensures grown { IfOk result (λ r. IsGrown sha256 0 (map vec_items r.0.items) r.1) }
    ensures refused { IfErr result (Refuses (resumption note.now
        (map (λ v. key v) verifiers.now) (map vec_items bundles.now) origin.now limit)) }
{
    let checkpoint = checkpoint_of(alloc, note, verifiers, origin)?;
    if !is_sized(checkpoint.size, bundles.len(), limit) {
        return Err(ResumeFault::Size);
    }
    let base = read_all(alloc, bundles, checkpoint.size)?;
    let growth = Growth::of(alloc, &base)?;
    if growth.head().root != checkpoint.root {
        return Err(ResumeFault::Root);
    }
    Ok((base, growth))
}

// Converts the fault of opening the sequencer.
fn log_refusal(why: OpenFault) -> ResumeFault
    ensures { result ≡ after_sequencer why }
{
    match why {
        OpenFault::OutOfMemory => ResumeFault::OutOfMemory,
        _ => ResumeFault::Open(OperatorFault::Lanes(why)),
    }
}

// Converts the fault of opening the operator.
fn operator_refusal(fault: OperatorFault) -> ResumeFault
    ensures { result ≡ after_operator fault }
{
    match fault {
        OperatorFault::OutOfMemory => ResumeFault::OutOfMemory,
        _ => ResumeFault::Open(fault),
    }
}

impl<R: Wait + Drop> Operator<R> {
    /// Opens a log, as `open` does, that begins with the entries of these bundles (C2SP tlog-tiles). Their number and
    /// root must be those of the checkpoint in `note`, which the verifiers open (C2SP tlog-checkpoint, signed-note);
    /// its extension lines are ignored. Nothing is published yet, and the first publication may have these entries
    /// alone.
    ///
    /// If several faults apply, the first is returned. `OutOfMemory` comes only if `note` is a note, and then may
    /// come in place of any fault but `Note`.
    pub fn resume(
        rt: R,
        alloc: Global,
        origin: &str,
        signers: Vec<Box<dyn Signer>>,
        verifiers: &[Box<dyn Verifier>],
        lanes: u32,
        capacity: usize,
        limit: u64,
        readers: u32,
        note: &str,
        bundles: &[Vec<u8>],
    ) -> Result<OpenedLog<R>, ResumeFault>
        ensures resumed { IfOk result (λ r. (base : List (List ℕ)) × IsBase (resumption note.now
            (map (λ v. key v) verifiers.now) (map vec_items bundles.now) origin.now limit) base
            × IsNew origin.now (map (λ s. signing_key s) signers.items) base lanes capacity limit
            (⟦<Operator<R> as RunningLog>⟧.state r.0) r.1.items) }
        ensures operating { IfOk result
            (λ r. IsOperating (⟦<Operator<R> as RunningLog>⟧.state r.0)) }
        ensures readers { IfOk result
            (λ r. HaveSeen (⟦<Operator<R> as RunningLog>⟧.state r.0).past readers r.2.items) }
        ensures refused { IfErr result (λ fault. ResumeRefuses (resumption note.now
            (map (λ v. key v) verifiers.now) (map vec_items bundles.now) origin.now limit)
            (map (λ s. signing_key s) signers.items) lanes capacity readers fault) }
    {
        let (base, growth) = base_of(alloc, note, verifiers, bundles, origin, limit)?;
        if let Some(fault) = first_wrong(origin, signers.as_slice(), readers) {
            return Err(ResumeFault::Open(fault));
        }
        let (log, submitters) = match open_from(alloc, base, lanes, capacity, limit) {
            Ok(opened) => opened,
            Err(back) => return Err(log_refusal(back.why)),
        };
        match begin(rt, alloc, origin, signers, log, growth, readers) {
            Ok((operator, all)) => Ok((operator, submitters, all)),
            Err(fault) => Err(operator_refusal(fault)),
        }
    }
}
