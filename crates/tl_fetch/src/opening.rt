//! Opens the checkpoints that are trusted: the state's, and the source's.

ghost use Rattle.std.specs.Prelude.{◌≡◌, IfErr, IfOk, option_map, string_bytes};
ghost use Rattle.tl_tile.specs.declared.resource.Resource.TheVariants.{Checkpoint};
ghost use Rattle.tl_fetch.specs.Faults.{IsNoAccusation};
ghost use Rattle.tl_fetch.specs.Fetching.{LacksLast, LacksTrust, unseen_of};
ghost use Rattle.tl_fetch.specs.Inner.Trusted.{RefusesText};
ghost use Rattle.tl_fetch.specs.Opening.{RefusesCheckpoint, RefusesNote, RefusesState, after_state};
ghost use Rattle.tl_fetch.specs.Trusting.{IsKnown, IsNoteOf, policy_in};

use crate::cosigned::check_under;
use crate::fault::FetchFault;
use crate::faults::{BAD_CHECKPOINT, head_refusal};
use crate::freshness::check_fresh;
use crate::policy::Policy;
use crate::state::TrustStore;
use std::alloc::Global;
use tl_client::{Head, ResourceSource, open_cosigned};
use tl_hash::{Sha256Tree, empty_hash};
use tl_run::{Place, RunFault};
use tl_tile::{Resource, SourceFault};

// Returns the text that a source has for the checkpoint. It fails with `BadCheckpoint` if the bytes are no text.
fn read_note<S: ResourceSource>(alloc: Global, source: &S) -> Result<String, FetchFault>
    ensures text { IfOk result
        (λ note. S.may_answer source.now Checkpoint (string_bytes note)) }
    ensures refused { IfErr result
        (RefusesText (S.may_answer source.now) (S.may_lack source.now)) }
    ensures fair { IfErr result IsNoAccusation }
{
    let bytes = match source.get(alloc, &Resource::Checkpoint) {
        Ok(bytes) => bytes,
        Err(SourceFault::Unavailable) => return Err(FetchFault::Unavailable),
        Err(SourceFault::OutOfMemory) => return Err(FetchFault::Run(RunFault::OutOfMemory)),
    };
    match String::from_utf8(bytes) {
        Ok(note) => Ok(note),
        Err(_) => Err(FetchFault::Run(BAD_CHECKPOINT)),
    }
}

/// Returns the size and the root of a log by a trusted note: it opens under the log's keys, its text is a checkpoint
/// (C2SP tlog-checkpoint) of the log, enough of the witnesses cosigned it (C2SP tlog-cosignature), lately enough if
/// the policy asks for that, and its text trusts it, if it has one (C2SP tlog-policy). It fails with `OtherLog` if the
/// checkpoint names another log, with `Stale` if each cosignature by a witness is of an earlier time, and with
/// `Untrusted` if the text doesn't trust it.
pub fn open_trusted(alloc: Global, policy: &Policy<'_>, note: &str) -> Result<Head, FetchFault>
    ensures trusted { IfOk result (λ head. IsNoteOf (policy_in (λ v. key v) policy.now) note.now
        head) }
    ensures fair { IfErr result IsNoAccusation }
    ensures refused { IfErr result (RefusesNote (policy_in (λ v. key v) policy.now) note.now) }
{
    let opened = open_cosigned(alloc, note, policy.log, policy.witnesses, policy.need);
    let checkpoint = match opened {
        Ok(checkpoint) => checkpoint,
        Err(fault) => return Err(head_refusal(fault)),
    };
    if checkpoint.origin.as_str() != policy.origin {
        return Err(FetchFault::OtherLog);
    }
    if let Err(fault) = check_fresh(alloc, policy, note) {
        return Err(fault);
    }
    if let Err(fault) = check_under(alloc, &policy.under, note) {
        return Err(fault);
    }
    Ok(Head {
        size: checkpoint.size,
        root: checkpoint.root,
    })
}

// Returns the fault of the command if the note of a state gives no size and root.
fn state_refusal(fault: FetchFault) -> FetchFault
    ensures value { result ≡ after_state fault }
    ensures fair { IsNoAccusation result }
{
    match fault {
        FetchFault::Run(RunFault::OutOfMemory) => FetchFault::Run(RunFault::OutOfMemory),
        _ => FetchFault::Run(RunFault::BadCheckpoint(Place::State)),
    }
}

/// Returns the size and the root by the note that was trusted last, or without a note those of a log of no entries.
/// It fails with `BadCheckpoint` of the state if the note isn't the log's.
pub fn trusted_head(
    alloc: Global,
    policy: &Policy<'_>,
    last: Option<&str>,
) -> Result<Head, FetchFault>
    ensures known { IfOk result (λ head. IsKnown (policy_in (λ v. key v) policy.now)
        (option_map (λ s. s.now) last.entry) head) }
    ensures fair { IfErr result IsNoAccusation }
    ensures refused { IfErr result (RefusesState (policy_in (λ v. key v) policy.now)
        (option_map (λ s. s.now) last.entry)) }
{
    let Some(note) = last else {
        return Ok(Head {
            size: 0,
            root: empty_hash(Sha256Tree),
        });
    };
    let alone = Policy {
        origin: policy.origin,
        log: policy.log,
        witnesses: &[],
        need: 0,
        since: None,
        under: None,
    };
    match open_trusted(alloc, &alone, note) {
        Ok(head) => Ok(head),
        Err(fault) => Err(state_refusal(fault)),
    }
}

/// A note, and the size and the root of its log.
#[derive(Drop)]
pub(crate) struct Trusted<N> {
    pub(crate) note: N,
    pub(crate) head: Head,
}

/// Returns the state's note, and what is known by it.
pub(crate) fn trusted_last<K: TrustStore>(
    alloc: Global,
    policy: &Policy<'_>,
    state: &K,
) -> Result<Trusted<Option<String>>, FetchFault>
    ensures had { IfOk result (λ t. K.may_have state.now (option_map string_bytes t.note)) }
    ensures known { IfOk result (λ t. IsKnown (policy_in (λ v. key v) policy.now)
        (option_map string_bytes t.note) t.head) }
    ensures fair { IfErr result IsNoAccusation }
    ensures refused { IfErr result (LacksLast (K.may_fail state.now) (K.may_have state.now)
        (policy_in (λ v. key v) policy.now)) }
{
    let note = match state.last(alloc) {
        Ok(note) => note,
        Err(fault) => return Err(fault),
    };
    match trusted_head(alloc, policy, note.as_deref()) {
        Ok(head) => Ok(Trusted { note, head }),
        Err(fault) => Err(fault),
    }
}

// Returns the source's checkpoint, if it is trusted.
fn trusted_now<S: ResourceSource>(
    alloc: Global,
    source: &S,
    policy: &Policy<'_>,
) -> Result<Trusted<String>, FetchFault>
    ensures answered { IfOk result
        (λ t. S.may_answer source.now Checkpoint (string_bytes t.note)) }
    ensures trusted { IfOk result (λ t. IsNoteOf (policy_in (λ v. key v) policy.now)
        (string_bytes t.note) t.head) }
    ensures fair { IfErr result IsNoAccusation }
    ensures refused { IfErr result (RefusesCheckpoint (S.may_answer source.now)
        (S.may_lack source.now) (policy_in (λ v. key v) policy.now)) }
{
    let note = match read_note(alloc, source) {
        Ok(note) => note,
        Err(fault) => return Err(fault),
    };
    match open_trusted(alloc, policy, note.as_str()) {
        Ok(head) => Ok(Trusted { note, head }),
        Err(fault) => Err(fault),
    }
}

/// Returns the state's note and the source's checkpoint, if both are trusted.
pub(crate) fn trusted_two<S: ResourceSource, K: TrustStore>(
    alloc: Global,
    source: &S,
    policy: &Policy<'_>,
    state: &K,
) -> Result<(Trusted<Option<String>>, Trusted<String>), FetchFault>
    ensures had { IfOk result (λ t. K.may_have state.now (option_map string_bytes t.0.note)) }
    ensures known { IfOk result (λ t. IsKnown (policy_in (λ v. key v) policy.now)
        (option_map string_bytes t.0.note) t.0.head) }
    ensures answered { IfOk result
        (λ t. S.may_answer source.now Checkpoint (string_bytes t.1.note)) }
    ensures trusted { IfOk result (λ t. IsNoteOf (policy_in (λ v. key v) policy.now)
        (string_bytes t.1.note) t.1.head) }
    ensures fair { IfErr result IsNoAccusation }
    ensures refused { IfErr result (LacksTrust (unseen_of (S.may_answer source.now)
        (S.may_lack source.now) (K.may_have state.now) (K.may_fail state.now))
        (policy_in (λ v. key v) policy.now)) }
{
    let last = match trusted_last(alloc, policy, state) {
        Ok(last) => last,
        Err(fault) => return Err(fault),
    };
    match trusted_now(alloc, source, policy) {
        Ok(now) => Ok((last, now)),
        Err(fault) => Err(fault),
    }
}
