//! The parts of the entries that the hashes of a proof are over.

ghost use Rattle.std.specs.Prelude.{◌<◌, ◌≤◌, ◌-◌, ◌^◌, Bool, true, All, IfOk, OnOk, OnErr};
ghost use Rattle.tl_proof.specs.ProveFaults.{IsIndex};
ghost use Rattle.tl_proof.specs.Inner.Segments.{GrowsBy, IsPathPlan, IsProofPlan};
ghost use Rattle.tl_proof.specs.Inner.ManyPaths.{IsPathsPlan};

use std::alloc::{AllocError, Allocator};
use tl_hash::split_point;

/// The entries from `start` up to `end`, which isn't included.
#[derive(Clone, Copy)]
pub(crate) struct Segment {
    pub(crate) start: u64,
    pub(crate) end: u64,
}

// Adds the segments of the path from the entry at this index up to the root of the tree over the entries from `start`
// up to `end`. Each call at least halves their number or leaves the left part out, so the recursion is at most 62
// calls deep.
fn push_path<A: Allocator>(
    segments: &mut Vec<Segment, A>,
    index: u64,
    start: u64,
    end: u64,
) -> Result<(), AllocError>
    requires first { start ≤ index }
    requires last { index < end }
    ensures added { OnOk result
        (GrowsBy (IsPathPlan index start end) segments.old.items segments.new.items) }
    ensures some { OnErr result (1 < end - start) }
{
    if end - start == 1 {
        return Ok(());
    }
    let middle = start + split_point(end - start);
    if index < middle {
        push_path(segments, index, start, middle)?;
        segments.push(Segment { start: middle, end })?;
    } else {
        push_path(segments, index, middle, end)?;
        segments.push(Segment { start, end: middle })?;
    }
    Ok(())
}

/// Returns the segments of the inclusion proof of the entry at this index among the first `size`.
pub(crate) fn path_segments<A: Allocator>(
    alloc: A,
    size: u64,
    index: u64,
) -> Result<Vec<Segment, A>, AllocError>
    requires { index < size }
    ensures plan { IfOk result (λ segments. IsPathPlan index 0 size segments.items) }
    ensures some { OnErr result (1 < size) }
{
    let mut segments = Vec::new(alloc);
    push_path(&mut segments, index, 0, size)?;
    Ok(segments)
}

/// The segments of several proofs, one proof after another, and the number of segments of each.
#[derive(Drop)]
pub(crate) struct PathsPlan<A: Allocator> {
    pub(crate) segments: Vec<Segment, A>,
    pub(crate) counts: Vec<usize, A>,
}

/// Returns the segments of the inclusion proofs of the entries at these indexes among the first `size`.
pub(crate) fn paths_segments<A: Allocator + Copy>(
    alloc: A,
    size: u64,
    indexes: &[u64],
) -> Result<PathsPlan<A>, AllocError>
    requires { All (IsIndex size) indexes.now }
    ensures { IfOk result
        (λ plan. IsPathsPlan size indexes.now plan.segments.items plan.counts.items) }
{
    let mut segments = Vec::new(alloc);
    let mut counts = Vec::new(alloc);
    for index in indexes {
        let before = segments.len();
        push_path(&mut segments, *index, 0, size)?;
        counts.push(segments.len() - before)?;
    }
    Ok(PathsPlan { segments, counts })
}

// Adds the segments of the consistency proof for the entries before `old` in the tree over the entries from `start`
// up to `end`. `known` says whether the verifier has the hash of this tree if all its entries are old. The recursion
// is as deep as for a path.
fn push_proof<A: Allocator>(
    segments: &mut Vec<Segment, A>,
    old: u64,
    start: u64,
    end: u64,
    known: bool,
) -> Result<(), AllocError>
    requires first { start < old }
    requires last { old ≤ end }
    ensures { OnOk result
        (GrowsBy (IsProofPlan old start end known) segments.old.items segments.new.items) }
{
    if old == end {
        if !known {
            segments.push(Segment { start, end })?;
        }
        return Ok(());
    }
    let middle = start + split_point(end - start);
    if old <= middle {
        push_proof(segments, old, start, middle, known)?;
        segments.push(Segment { start: middle, end })?;
    } else {
        push_proof(segments, old, middle, end, false)?;
        segments.push(Segment { start, end: middle })?;
    }
    Ok(())
}

/// Returns the segments of the consistency proof from the first `old` entries to the first `size`.
pub(crate) fn proof_segments<A: Allocator>(
    alloc: A,
    size: u64,
    old: u64,
) -> Result<Vec<Segment, A>, AllocError>
    requires some { 0 < old }
    requires most { old ≤ size }
    ensures { IfOk result (λ segments. IsProofPlan old 0 size true segments.items) }
{
    let mut segments = Vec::new(alloc);
    push_proof(&mut segments, old, 0, size, true)?;
    Ok(segments)
}
