//! Whether lines are evidence that a log forked.

ghost use Rattle.std.specs.Prelude.{◌≡◌, ◌≢◌, ◌↔◌, ◌⊎◌, All, IfOk, IsTrue, MatchOption, None, drop, map, take, vec_items};
ghost use Rattle.tl_checkpoint.specs.Checkpoint.{Head, head_of};
ghost use Rattle.tl_command.specs.Lines.{HasNoNewline, lines_text};
ghost use Rattle.tl_note.specs.Key.{IsKeyName};
ghost use Rattle.tl_command.specs.ProofShown.{consistency_shown};
ghost use Rattle.tl_fork.specs.Evidence.{Disagree, HaveTwoRoots, IsEvidence, IsOfLog, LeadsElsewhere};
ghost use Rattle.tl_evidence.specs.Inner.Cutting.{note_length};
ghost use Rattle.tl_evidence.specs.Inner.Opening.{OpensOrNot};

use crate::cutting::note_length;
use std::alloc::{AllocError, Allocator, Global};
use std::str;
use tl_checkpoint::{Checkpoint, OpenCheckpointFault, open_checkpoint};
use tl_command::{ConsistencyProof, read_consistency};
use tl_hash::Sha256Tree;
use tl_note::Verifier;
use tl_proof::check_tree;

// Returns the bytes of lines, each with its newline.
fn join<A: Allocator + Copy>(alloc: A, lines: &[Vec<u8, A>]) -> Result<Vec<u8, A>, AllocError>
    ensures { IfOk result (λ bytes. bytes.items ≡ lines_text (map vec_items lines.now)) }
{
    let mut bytes = Vec::new(alloc);
    for line in lines {
        bytes.extend_from_slice(line.as_slice())?;
        bytes.push(b'\n')?;
    }
    Ok(bytes)
}

// Returns `None` for bytes that don't open, unless allocation failed.
fn none_unless_memory(fault: OpenCheckpointFault) -> Result<Option<Checkpoint<Global>>, AllocError>
    ensures { IfOk result (λ o. (o ≡ None) × (fault ≢ OpenCheckpointFault.OutOfMemory)) }
{
    match fault {
        OpenCheckpointFault::OutOfMemory => Err(AllocError),
        _ => Ok(None),
    }
}

// Returns the checkpoint that bytes are, if it opens under these keys.
fn open(
    alloc: Global,
    bytes: &[u8],
    verifiers: &[Box<dyn Verifier>],
) -> Result<Option<Checkpoint<Global>>, AllocError>
    ensures { OpensOrNot bytes.now (map (λ v. key v) verifiers.now) result }
{
    let Ok(note) = str::from_utf8(bytes) else {
        return Ok(None);
    };
    match open_checkpoint(alloc, note, verifiers) {
        Ok(checkpoint) => Ok(Some(checkpoint)),
        Err(fault) => none_unless_memory(fault),
    }
}

// Returns a checkpoint if it is of the log of this name.
fn named(checkpoint: Checkpoint<Global>, name: &str) -> Option<Checkpoint<Global>>
    ensures { MatchOption result ((head_of checkpoint).origin ≢ name.now)
        (λ c. (c ≡ checkpoint) × ((head_of checkpoint).origin ≡ name.now)) }
{
    if checkpoint.origin.as_str() == name {
        Some(checkpoint)
    } else {
        None
    }
}

// Returns the checkpoint of the log of this name that lines are, if they are one.
fn checkpoint_of(
    alloc: Global,
    lines: &[Vec<u8>],
    verifiers: &[Box<dyn Verifier>],
    name: &str,
) -> Result<Option<Checkpoint<Global>>, AllocError>
    ensures { IfOk result (λ found. MatchOption found ((c : Head) → IsOfLog
        (map (λ v. key v) verifiers.now) name.now (lines_text (map vec_items lines.now)) c → ⊥)
        (λ c. IsOfLog (map (λ v. key v) verifiers.now) name.now
        (lines_text (map vec_items lines.now)) (head_of c))) }
{
    let bytes = join(alloc, lines)?;
    match open(alloc, bytes.as_slice(), verifiers) {
        Ok(Some(checkpoint)) => Ok(named(checkpoint, name)),
        Ok(None) => Ok(None),
        Err(fault) => Err(fault),
    }
}

// Reports whether a proof is accepted and leads to the second checkpoint's tree from a tree of the first one's size
// with another root.
fn leads_elsewhere(
    a: &Checkpoint<Global>,
    b: &Checkpoint<Global>,
    proof: &ConsistencyProof<Global>,
) -> bool
    ensures { IsTrue result
        ↔ LeadsElsewhere (head_of a.now) (head_of b.now) (consistency_shown proof.now) }
{
    if proof.old != a.size || proof.size != b.size {
        return false;
    }
    if proof.old_root == a.root || proof.root != b.root {
        return false;
    }
    check_tree(
        Sha256Tree,
        proof.proof.as_slice(),
        proof.size,
        proof.root,
        proof.old,
        proof.old_root,
    )
}

// Reports whether two checkpoints of one size have different roots.
fn have_two_roots(a: &Checkpoint<Global>, b: &Checkpoint<Global>) -> bool
    ensures { IsTrue result ↔ HaveTwoRoots (head_of a.now) (head_of b.now) }
{
    a.size == b.size && a.root != b.root
}

// Reports whether a proof leads to the tree of one checkpoint from a tree of the other's size with another root.
fn leads_between(
    a: &Checkpoint<Global>,
    b: &Checkpoint<Global>,
    proof: &ConsistencyProof<Global>,
) -> bool
    ensures { IsTrue result
        ↔ (LeadsElsewhere (head_of a.now) (head_of b.now) (consistency_shown proof.now)
        ⊎ LeadsElsewhere (head_of b.now) (head_of a.now) (consistency_shown proof.now)) }
{
    leads_elsewhere(a, b, proof) || leads_elsewhere(b, a, proof)
}

// Reports whether the lines behind two checkpoints show that they disagree.
fn disagree(
    alloc: Global,
    a: &Checkpoint<Global>,
    b: &Checkpoint<Global>,
    lines: &[Vec<u8>],
) -> Result<bool, AllocError>
    requires { All HasNoNewline (map vec_items lines.now) }
    ensures { IfOk result (λ shown. IsTrue shown
        ↔ Disagree (head_of a.now) (head_of b.now) (lines_text (map vec_items lines.now))) }
{
    if lines.is_empty() {
        return Ok(have_two_roots(a, b));
    }
    match read_consistency(alloc, lines) {
        Ok(Some(proof)) => Ok(leads_between(a, b, &proof)),
        Ok(None) => Ok(false),
        Err(fault) => Err(fault),
    }
}

// Cuts lines after the note at their front.
fn split_note(lines: &[Vec<u8>]) -> (&[Vec<u8>], &[Vec<u8>])
    ensures note { map vec_items result.0.now
        ≡ take (note_length (map vec_items lines.now)) (map vec_items lines.now) }
    ensures rest { map vec_items result.1.now
        ≡ drop (note_length (map vec_items lines.now)) (map vec_items lines.now) }
{
    lines.split_at(note_length(lines))
}

/// Reports whether lines are evidence that the log of this name, which signs by these keys, forked. It fails only if
/// allocation fails.
pub(crate) fn is_evidence(
    alloc: Global,
    lines: &[Vec<u8>],
    verifiers: &[Box<dyn Verifier>],
    name: &str,
) -> Result<bool, AllocError>
    requires plain { All HasNoNewline (map vec_items lines.now) }
    requires named { IsKeyName name.now }
    ensures { IfOk result (λ shown. IsTrue shown ↔ IsEvidence
        (map (λ v. key v) verifiers.now) name.now (lines_text (map vec_items lines.now))) }
{
    let (first, rest) = split_note(lines);
    let (second, proof) = split_note(rest);
    let a = match checkpoint_of(alloc, first, verifiers, name) {
        Ok(Some(a)) => a,
        Ok(None) => return Ok(false),
        Err(fault) => return Err(fault),
    };
    let b = match checkpoint_of(alloc, second, verifiers, name) {
        Ok(Some(b)) => b,
        Ok(None) => return Ok(false),
        Err(fault) => return Err(fault),
    };
    disagree(alloc, &a, &b, proof)
}
