//! The checkpoint of a note that a policy trusts.

ghost use Rattle.std.specs.Prelude.{◌≡◌, IfOk, position};
ghost use Rattle.std.specs.List.{list_any};
ghost use Rattle.tl_key.specs.NoteKey.{verifier_key};
ghost use Rattle.tl_note.specs.Open as note;
ghost use Rattle.tl_policy.specs.Terms.{log_term, terms_of};
ghost use Rattle.tl_policy.specs.Trust.{OpensUnder, has_line, is_signed};
ghost use Rattle.tl_policy.specs.Inner.Trusting.{ChecksQuorum, ReadsSigned};

use crate::policy::{Policy, PolicyLog};
use crate::quorum::set_of;
use crate::trust_fault::TrustFault;
use std::alloc::{AllocError, Allocator, Global};
use tl_checkpoint::{Checkpoint, CheckpointFault, parse};
use tl_key::NoteVerifier;
use tl_note::{NoteFault, SigView, Verifier, parse_note};

/// A checkpoint that a policy trusts: a log of the policy signed it, and the witnesses that cosigned it satisfy the
/// quorum.
#[derive(Drop)]
#[non_exhaustive]
pub struct Trusted<A: Allocator> {
    pub checkpoint: Checkpoint<A>,
    /// The place of the log.
    pub log: usize,
    /// The time of each witness's first cosignature, or none if it has none.
    pub times: Vec<Option<u64>, A>,
}

// Whether a line is of the key.
fn is_of(line: &SigView<'_>, key: &NoteVerifier<Global>) -> bool
    ensures { result ≡ note.is_of line.now (verifier_key key.now) }
{
    line.name() == key.name() && line.key_id() == key.key_id()
}

// Whether a line is of the log's key.
fn has_line(lines: &[SigView<'_>], log: &PolicyLog<'_>) -> bool
    ensures { result ≡ has_line lines.now (log_term log.now) }
{
    lines.iter().any(|line| is_of(line, &log.key))
}

// The place of the first log of whose key there is a line.
fn signer_of(logs: &[PolicyLog<'_>], lines: &[SigView<'_>]) -> Option<usize>
    ensures { result ≡ position (λ log. has_line lines.now (log_term log)) logs.now }
{
    logs.iter().position(|log| has_line(lines, log))
}

// Whether the first line of the key is a valid signature of the text.
fn is_signed<A: Allocator>(
    alloc: A,
    text: &str,
    lines: &[SigView<'_>],
    key: &NoteVerifier<Global>,
) -> Result<bool, AllocError>
    ensures { IfOk result (λ b. b ≡ is_signed text.now lines.now (verifier_key key.now)) }
{
    let [line, rest @ ..] = lines else {
        return Ok(false);
    };
    if !is_of(line, key) {
        return is_signed(alloc, text, rest, key);
    }
    let bytes = line.decode(alloc)?;
    Ok(key.verify(text.as_bytes(), bytes.as_slice()))
}

// The checkpoint of a text that this key signed, if it is of that origin.
fn checkpoint_of<A: Allocator + Copy>(
    alloc: A,
    text: &str,
    lines: &[SigView<'_>],
    key: &NoteVerifier<Global>,
) -> Result<Checkpoint<A>, TrustFault>
    ensures { ReadsSigned text.now lines.now key.now result }
{
    match is_signed(alloc, text, lines, key) {
        Ok(true) => {}
        Ok(false) => return Err(TrustFault::InvalidSignature),
        Err(_) => return Err(TrustFault::OutOfMemory),
    }
    let checkpoint = match parse(alloc, text) {
        Ok(checkpoint) => checkpoint,
        Err(CheckpointFault::OutOfMemory) => return Err(TrustFault::OutOfMemory),
        Err(fault) => return Err(TrustFault::NoCheckpoint(fault)),
    };
    if checkpoint.origin.as_str() != key.name() {
        return Err(TrustFault::OtherOrigin);
    }
    Ok(checkpoint)
}

// Refuses times of witnesses that don't satisfy the quorum.
fn check_quorum<A: Allocator + Copy>(
    alloc: A,
    policy: &Policy<'_, A>,
    times: &[Option<u64>],
) -> Result<(), TrustFault>
    ensures { ChecksQuorum (terms_of policy.now) times.now result }
{
    let set = match set_of(alloc, times) {
        Ok(set) => set,
        Err(_) => return Err(TrustFault::OutOfMemory),
    };
    match policy.shortfall(set.as_slice()) {
        None => Ok(()),
        Some(short) => Err(TrustFault::NotSatisfied(short)),
    }
}

/// The checkpoint of a note that a policy trusts: the first log of whose key the note has a line signed it, its origin
/// is that key's name, and the witnesses that cosigned it satisfy the quorum (C2SP signed-note, "Verification";
/// tlog-policy). `OutOfMemory` is of a note alone.
pub fn open_under<A: Allocator + Copy>(
    alloc: A,
    policy: &Policy<'_, A>,
    note: &str,
) -> Result<Trusted<A>, TrustFault>
    ensures { OpensUnder (terms_of policy.now) note.now result }
{
    let view = match parse_note(alloc, note) {
        Ok(view) => view,
        Err(NoteFault::OutOfMemory) => return Err(TrustFault::OutOfMemory),
        Err(_) => return Err(TrustFault::NoNote),
    };
    let logs = policy.logs.as_slice();
    let lines = view.signatures.as_slice();
    let Some(log) = signer_of(logs, lines) else {
        return Err(TrustFault::Unsigned);
    };
    let checkpoint = match checkpoint_of(alloc, view.text, lines, &logs[log].key) {
        Ok(checkpoint) => checkpoint,
        Err(fault) => return Err(fault),
    };
    let times = match policy.cosigned_by(alloc, view.text, lines) {
        Ok(times) => times,
        Err(_) => return Err(TrustFault::OutOfMemory),
    };
    match check_quorum(alloc, policy, times.as_slice()) {
        Ok(()) => Ok(Trusted {
            checkpoint,
            log,
            times,
        }),
        Err(fault) => Err(fault),
    }
}
