//! The command `check` says whether the proof in a text is accepted.

ghost use Rattle.std.specs.Prelude.{◌≡◌, ◌≢◌, ◌<◌, ◌↔◌, length, map, option_map, vec_items, IsTrue, IfOk, OnErr, MatchOption};
ghost use Rattle.tl_device.specs.Device.{passage};
ghost use Rattle.tl_command.specs.ProofText.{Proof, Included, Consistent, IsProof, proof_lines};
ghost use Rattle.tl_command.specs.ProofShown.{consistency_shown, inclusion_shown};
ghost use Rattle.tl_command.specs.ProofCommands.{CheckAboutComes, CheckComes};
ghost use Rattle.tl_command.specs.Inner.Checks.{FindsInText, HasFinding, IsFinding, IsFindingAbout, PrintsAnswer};
ghost use Rattle.tl_run.specs.Run.{Runs};

use crate::lines::lines_of;
use crate::proof_text::{ConsistencyProof, InclusionProof, read_consistency, read_inclusion};
use std::alloc::{AllocError, Allocator};
use std::io::{Read, Write};
use tl_device::Counted;
use tl_hash::{Hash, Sha256Tree, leaf_hash};
use tl_proof::{check_record, check_tree};
use tl_run::{MOST_INPUT, RunFault, print_text, read_input};

// What the text of a proof is about, and whether the proof is accepted.
#[derive(Clone, Copy)]
struct Finding {
    accepted: bool,
    size: u64,
    root: Hash,
    // The hash of the entry that is shown, of which a consistency proof has none.
    leaf: Option<Hash>,
}

// Checks an inclusion proof.
fn inclusion_finding<A: Allocator>(p: &InclusionProof<A>) -> Finding
    ensures { IsFinding (Included (inclusion_shown p.now)) result }
{
    let accepted = check_record(
        Sha256Tree,
        p.proof.as_slice(),
        p.size,
        p.root,
        p.index,
        p.leaf,
    );
    Finding {
        accepted,
        size: p.size,
        root: p.root,
        leaf: Some(p.leaf),
    }
}

// Checks a consistency proof.
fn consistency_finding<A: Allocator>(p: &ConsistencyProof<A>) -> Finding
    ensures { IsFinding (Consistent (consistency_shown p.now)) result }
{
    let accepted = check_tree(
        Sha256Tree,
        p.proof.as_slice(),
        p.size,
        p.root,
        p.old,
        p.old_root,
    );
    Finding {
        accepted,
        size: p.size,
        root: p.root,
        leaf: None,
    }
}

// Checks the proof whose text has these lines, and returns None if they are no proof's.
fn finding_in_lines<A: Allocator + Copy, B: Allocator>(
    alloc: A,
    lines: &[Vec<u8, B>],
) -> Result<Option<Finding>, AllocError>
    ensures answer { IfOk result (λ found. MatchOption found
        ((p : Proof) → IsProof p → map vec_items lines.now ≢ proof_lines p)
        (HasFinding (map vec_items lines.now))) }
    ensures memory { OnErr result (0 < length lines.now) }
{
    if let Some(p) = read_inclusion(alloc, lines)? {
        return Ok(Some(inclusion_finding(&p)));
    }
    match read_consistency(alloc, lines)? {
        Some(p) => Ok(Some(consistency_finding(&p))),
        None => Ok(None),
    }
}

// Checks the proof whose text this is, and fails with `Malformed` if it is no proof's.
fn finding_in<A: Allocator + Copy>(alloc: A, text: &[u8]) -> Result<Finding, RunFault>
    ensures { FindsInText text.now result }
{
    let Some(lines) = lines_of(alloc, text)? else {
        return Err(RunFault::Malformed);
    };
    match finding_in_lines(alloc, lines.as_slice())? {
        Some(finding) => Ok(finding),
        None => Err(RunFault::Malformed),
    }
}

// Reports whether a proof is accepted, leads to the tree of this size and root, and shows the entry, if one is asked
// for.
fn is_about(finding: &Finding, size: u64, root: Hash, entry: Option<&[u8]>) -> bool
    ensures { IsTrue result ↔ IsFindingAbout (record
        { size = size; root = root; entry = option_map (λ e. e.now) entry.entry }) finding.now }
{
    if !finding.accepted || finding.size != size || finding.root != root {
        return false;
    }
    match (entry, finding.leaf) {
        (None, _) => true,
        (Some(entry), Some(leaf)) => leaf == leaf_hash(Sha256Tree, entry),
        (Some(_), None) => false,
    }
}

// Prints whether a proof is good.
fn print_answer<W: Write>(writer: &mut Counted<W>, is_good: bool) -> Result<(), RunFault>
    ensures { PrintsAnswer is_good (passage W.contents writer.old writer.new) result }
{
    if is_good {
        return print_text(writer, b"accepted\n");
    }
    match print_text(writer, b"refused\n") {
        Ok(()) => Err(RunFault::Refused),
        Err(fault) => Err(fault),
    }
}

/// Reads the whole input, the text of an inclusion or consistency proof, and writes `accepted` if the proof is
/// accepted under SHA-256 (RFC 6962, sections 2.1.1 and 2.1.2). Otherwise it writes `refused` and fails with
/// `Refused`. It fails with `Malformed` if the input is no such text.
pub fn run_check<A: Allocator + Copy, R: Read, W: Write>(
    alloc: A,
    reader: &mut Counted<R>,
    writer: &mut Counted<W>,
) -> Result<(), RunFault>
    ensures { Runs CheckComes (passage R.remaining reader.old reader.new)
        (passage W.contents writer.old writer.new) result }
{
    let input = read_input(alloc, reader, MOST_INPUT)?;
    let finding = finding_in(alloc, input.as_slice())?;
    print_answer(writer, finding.accepted)
}

/// Checks a proof as `run_check` does, and accepts it only if it is about the tree of this size and root, which a
/// trusted checkpoint has; of a consistency proof the new tree counts. With an entry it accepts only an inclusion
/// proof of that entry.
pub fn run_check_about<A: Allocator + Copy, R: Read, W: Write>(
    alloc: A,
    size: u64,
    root: Hash,
    entry: Option<&[u8]>,
    reader: &mut Counted<R>,
    writer: &mut Counted<W>,
) -> Result<(), RunFault>
    ensures { Runs (CheckAboutComes
        (record { size = size; root = root; entry = option_map (λ e. e.now) entry.entry }))
        (passage R.remaining reader.old reader.new)
        (passage W.contents writer.old writer.new) result }
{
    let input = read_input(alloc, reader, MOST_INPUT)?;
    let finding = finding_in(alloc, input.as_slice())?;
    print_answer(writer, is_about(&finding, size, root, entry))
}
