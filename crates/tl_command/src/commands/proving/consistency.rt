//! The consistency proof from the first lines to all, by the recursion of RFC 6962, section 2.1.2.

ghost use Rattle.std.specs.Prelude.{◌≡◌, ◌<◌, ◌≤◌, [], ◌∷◌, ◌++◌, length, vec_items, if◌then◌else◌, IfOk};
ghost use Rattle.tl_command.specs.ProofShown.{consistency_shown};
ghost use Rattle.tl_command.specs.Inner.Subproofs.{subproof_of};
ghost use Rattle.tl_command.specs.ProofCommands.{consistency_of};

use crate::log_lines::LogLines;
use crate::proof_text::ConsistencyProof;
use std::alloc::{AllocError, Allocator};
use std::thread::Threads;
use tl_hash::{Hash, Sha256Tree, empty_hash, node_hash, split_point};

// Returns the subproof of a tree whose lines are all old: its hash, unless the verifier has that.
fn whole_tree<A: Allocator>(
    alloc: A,
    size: u64,
    is_known: bool,
    root: Hash,
) -> Result<ConsistencyProof<A>, AllocError>
    ensures { IfOk result (λ p. consistency_shown p ≡ record {
      old = size;
      old_root = root;
      size = size;
      root = root;
      proof = if is_known then [] else root ∷ [];
    }) }
{
    let mut proof = Vec::new(alloc);
    if !is_known {
        proof.push(root)?;
    }
    Ok(ConsistencyProof {
        old: size,
        old_root: root,
        size,
        root,
        proof,
    })
}

// The roots of two trees: of the old lines, and of all lines.
#[derive(Clone, Copy)]
struct Roots {
    old: Hash,
    all: Hash,
}

// Returns the subproof for the first `old` of `size` lines, from that in one part of the tree: it appends the root of
// the other part.
fn led_past<A: Allocator>(
    part: ConsistencyProof<A>,
    other: Hash,
    old: u64,
    size: u64,
    roots: Roots,
) -> Result<ConsistencyProof<A>, AllocError>
    ensures { IfOk result (λ p. consistency_shown p ≡ record {
      old = old;
      old_root = roots.old;
      size = size;
      root = roots.all;
      proof = vec_items part.proof ++ other ∷ [];
    }) }
{
    let mut proof = part.proof;
    proof.push(other)?;
    Ok(ConsistencyProof {
        old,
        old_root: roots.old,
        size,
        root: roots.all,
        proof,
    })
}

// Returns SUBPROOF for the first `old` lines, with the roots that it leads to. `is_known` says whether the verifier
// has the hash of the tree if all its lines are old. Each line is hashed once. The recursion is as deep as that of a
// path.
fn subproof_over<H: Threads + Sync, A: Allocator + Copy, B: Allocator + Copy + Send>(
    rt: &H,
    alloc: A,
    workers: B,
    threads: usize,
    old: u64,
    is_known: bool,
    lines: &LogLines<'_>,
) -> Result<ConsistencyProof<A>, AllocError>
    requires some { 0 < old }
    requires within { old ≤ length lines.now }
    ensures { IfOk result (λ p. consistency_shown p ≡ subproof_of old is_known lines.now) }
{
    let size = lines.count();
    if old == size {
        let root = lines.root(rt, workers, threads)?;
        return whole_tree(alloc, size, is_known, root);
    }
    let k = split_point(size);
    let (front, back) = lines.split(k);
    if old <= k {
        let part = subproof_over(rt, alloc, workers, threads, old, is_known, &front)?;
        let other = back.root(rt, workers, threads)?;
        let roots = Roots {
            old: part.old_root,
            all: node_hash(Sha256Tree, part.root, other),
        };
        return led_past(part, other, old, size, roots);
    }
    let part = subproof_over(rt, alloc, workers, threads, old - k, false, &back)?;
    let other = front.root(rt, workers, threads)?;
    let roots = Roots {
        old: node_hash(Sha256Tree, other, part.old_root),
        all: node_hash(Sha256Tree, other, part.root),
    };
    led_past(part, other, old, size, roots)
}

/// Returns the consistency proof for the first `old` lines: SUBPROOF if there are any, and no hash if there are none.
pub(crate) fn consistency_over<H: Threads + Sync, A: Allocator + Copy, B: Allocator + Copy + Send>(
    rt: &H,
    alloc: A,
    workers: B,
    threads: usize,
    old: u64,
    lines: &LogLines<'_>,
) -> Result<ConsistencyProof<A>, AllocError>
    requires { old ≤ length lines.now }
    ensures { IfOk result (λ p. consistency_shown p ≡ consistency_of old lines.now) }
{
    if old > 0 {
        return subproof_over(rt, alloc, workers, threads, old, true, lines);
    }
    Ok(ConsistencyProof {
        old,
        old_root: empty_hash(Sha256Tree),
        size: lines.count(),
        root: lines.root(rt, workers, threads)?,
        proof: Vec::new(alloc),
    })
}
