//! Brings a log's checkpoint from any source before witnesses.

ghost use Rattle.std.specs.Prelude.{◌++◌, ◌≡◌, ◌⊎◌, ◌↔◌, ◌<◌, ◌≤◌, length, IfErr, IfOk, IsTrue, OnOk, map, option_map, string_bytes};
ghost use Rattle.tl_hash.specs.Bytes.{Bytes};
ghost use Rattle.tl_device.specs.Device.{passage};
ghost use Rattle.tl_fetch.specs.Faults.{IsNoAccusation};
ghost use Rattle.tl_fetch.specs.Feeding.{HasFed, IsFedNote, IsUnfed, RefusesFed, RefusesFeed};
ghost use Rattle.tl_fetch.specs.Fetching.{grounds_of};
ghost use Rattle.tl_fetch.specs.Inner.Judging.{two_of};
ghost use Rattle.tl_fetch.specs.Inner.Witnesses.{AreOfOne, IsOfAnother};
ghost use Rattle.tl_fetch.specs.Printed.{PrintedWhole};
ghost use Rattle.tl_tile.specs.declared.resource.Resource.TheVariants.{Checkpoint};
ghost use Rattle.tl_fetch.specs.Trusting.{AreTwo, IsGrown, IsKnown, IsNoteOf, Two, alone, policy_in};

use crate::fault::FetchFault;
use crate::faults::BAD_CHECKPOINT;
use crate::feed::asking::{AsksWitnesses, line_by};
use crate::judging::{Update, is_same, judge};
use crate::observer::Observer;
use crate::opening::{open_trusted, trusted_two};
use crate::policy::Policy;
use crate::state::TrustStore;
use std::alloc::{AllocError, Global};
use std::io::Write;
use tl_client::{Head, ResourceSource};
use tl_device::Counted;
use tl_key::CosignerVerifier;
use tl_note::Verifier;
use tl_run::{RunFault, print_text};

// Reports whether two keys are one witness's: they have one name.
fn are_one(one: &CosignerVerifier<Global>, other: &CosignerVerifier<Global>) -> bool
    ensures { IsTrue result ↔ (one.now.name ≡ other.now.name) }
{
    one.name() == other.name()
}

// Returns where the keys of the witness end whose first key is at `start`.
fn end_of(witnesses: &[CosignerVerifier<Global>], start: usize) -> usize
    requires { start < length witnesses.now }
    ensures more { start < result }
    ensures within { result ≤ length witnesses.now }
    ensures one { AreOfOne witnesses.now start result }
    ensures other { IsOfAnother witnesses.now start result }
{
    for end in start + 1..witnesses.len() {
        if !are_one(&witnesses[start], &witnesses[end]) {
            return end;
        }
    }
    witnesses.len()
}

// Returns the note, and behind it the lines of all witnesses that cosign it.
fn with_lines<S: ResourceSource, Q: AsksWitnesses>(
    alloc: Global,
    source: &S,
    policy: &Policy<'_>,
    note: &str,
    head: &Head,
    known: u64,
    asker: &mut Q,
) -> Result<String, AllocError>
    requires { IsNoteOf (alone (policy_in (λ v. key v) policy.now)) note.now head.now }
    ensures { IfOk result (λ text. (lines : Bytes) × (string_bytes text ≡ note.now ++ lines)) }
{
    let mut lines = String::new(alloc);
    let (mut start, mut place) = (0, 0);
    while start < policy.witnesses.len() {
        let end = end_of(policy.witnesses, start);
        let keys = &policy.witnesses[start..end];
        if let Some(line) = line_by(alloc, source, policy, note, head, known, keys, asker, place) {
            lines.push_str(line.as_str())?;
        }
        (start, place) = (end, place + 1);
    }
    let mut text = String::from_str(alloc, note)?;
    text.push_str(lines.as_str())?;
    Ok(text)
}

// Returns the note with the lines of the witnesses, if enough of them cosigned it.
fn cosigned<S: ResourceSource, Q: AsksWitnesses>(
    alloc: Global,
    source: &S,
    policy: &Policy<'_>,
    note: &str,
    head: &Head,
    known: u64,
    asker: &mut Q,
) -> Result<String, FetchFault>
    requires { IsNoteOf (alone (policy_in (λ v. key v) policy.now)) note.now head.now }
    ensures fed { IfOk result (λ text. IsFedNote (policy_in (λ v. key v) policy.now) note.now
        head.now (string_bytes text)) }
    ensures unfed { IfErr result (IsUnfed (policy_in (λ v. key v) policy.now) note.now) }
    ensures fair { IfErr result IsNoAccusation }
{
    let text = with_lines(alloc, source, policy, note, head, known, asker)?;
    let found = match open_trusted(alloc, policy, text.as_str()) {
        Ok(found) => found,
        Err(fault) => return Err(fault),
    };
    if !is_same(&found, head) {
        return Err(FetchFault::Run(BAD_CHECKPOINT));
    }
    Ok(text)
}

// Keeps the new note, and prints it with the lines of the witnesses, if enough of them cosign it.
fn keep_and_feed<S: ResourceSource, K: TrustStore, Q: AsksWitnesses, W: Write>(
    alloc: Global,
    source: &S,
    policy: &Policy<'_>,
    log: &Policy<'_>,
    step: &Update<'_, '_>,
    state: &mut K,
    asker: &mut Q,
    writer: &mut Counted<W>,
) -> Result<(), FetchFault>
    requires log { policy_in (λ v. key v) log.now ≡ alone (policy_in (λ v. key v) policy.now) }
    requires had { K.may_have state.old (option_map (λ s. s.now) step.now.last) }
    requires known { IsKnown (policy_in (λ v. key v) log.now)
        (option_map (λ s. s.now) step.now.last) step.now.old.now }
    requires trusted { IsNoteOf (policy_in (λ v. key v) log.now) step.now.note.now
        step.now.new.now }
    requires grown { IsGrown step.now.old.now step.now.new.now }
    ensures kept { OnOk result (K.has_kept state.new step.now.note.now) }
    ensures printed { OnOk result (PrintedWhole (IsFedNote (policy_in (λ v. key v) policy.now)
        step.now.note.now step.now.new.now) (passage W.contents writer.old writer.new)) }
    ensures refused { IfErr result (λ fault. RefusesFed (grounds_of (S.may_answer source.now)
        (S.may_lack source.now) (K.may_have state.old) (K.may_fail state.old)
        (state.new ≡ state.old) (K.has_kept state.new)) (policy_in (λ v. key v) policy.now) (two_of
        (option_map (λ s. s.now) step.now.last) step.now.old.now step.now.note.now step.now.new.now)
        fault (passage W.contents writer.old writer.new)) }
{
    if let Err(fault) = state.keep(log, step.last, step.note) {
        return Err(fault);
    }
    let (note, head, known) = (step.note, step.new, step.old.size);
    let text = match cosigned(alloc, source, policy, note, head, known, asker) {
        Ok(text) => text,
        Err(fault) => return Err(fault),
    };
    match print_text(writer, text.as_bytes()) {
        Ok(()) => Ok(()),
        Err(fault) => Err(FetchFault::Run(fault)),
    }
}

/// Brings the checkpoint of the log of this policy before its witnesses (C2SP tlog-witness). The log has to have
/// signed it, and it has to extend the state's by an accepted consistency proof. It is kept, and each witness is
/// asked with a proof from the size that it has. The note is printed with the lines of all that cosigned it, if they
/// are as many as the policy needs; else it fails with `TooFew`. If the log forked, it prints evidence: both notes,
/// and what shows the fork.
pub fn feed_under<S: ResourceSource, K: TrustStore, O: Observer, Q: AsksWitnesses, W: Write>(
    alloc: Global,
    source: &S,
    policy: &Policy<'_>,
    state: &mut K,
    asker: &mut Q,
    observer: &mut O,
    writer: &mut Counted<W>,
) -> Result<(), FetchFault>
    ensures fed { OnOk result ((two : Two) × AreTwo (K.may_have state.old)
        (S.may_answer source.now Checkpoint) (alone (policy_in (λ v. key v) policy.now)) two ×
        HasFed (K.has_kept state.new) (policy_in (λ v. key v) policy.now) two
        (passage W.contents writer.old writer.new)) }
    ensures refused { IfErr result (λ fault. RefusesFeed (grounds_of (S.may_answer source.now)
        (S.may_lack source.now) (K.may_have state.old) (K.may_fail state.old)
        (state.new ≡ state.old) (K.has_kept state.new)) (policy_in (λ v. key v) policy.now) fault
        (passage W.contents writer.old writer.new)) }
{
    let log = Policy {
        origin: policy.origin,
        log: policy.log,
        witnesses: &[],
        need: 0,
        since: None,
        under: None,
    };
    let (last, now) = match trusted_two(alloc, source, &log, state) {
        Ok(both) => both,
        Err(fault) => return Err(fault),
    };
    let step = Update {
        last: last.note.as_deref(),
        old: &last.head,
        note: now.note.as_str(),
        new: &now.head,
    };
    if let Err(fault) = judge(alloc, source, &step, observer, writer) {
        return Err(fault);
    }
    match keep_and_feed(alloc, source, policy, &log, &step, state, asker, writer) {
        Ok(()) => Ok(()),
        Err(fault) => Err(fault),
    }
}
