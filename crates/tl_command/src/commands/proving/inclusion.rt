//! The inclusion proof of a line, by the recursion of RFC 6962, section 2.1.1.

ghost use Rattle.std.specs.Prelude.{◌≡◌, ◌<◌, [], ◌∷◌, ◌++◌, length, vec_items, IfOk};
ghost use Rattle.tl_command.specs.ProofCommands.{inclusion_of};
ghost use Rattle.tl_command.specs.ProofShown.{inclusion_shown};

use crate::log_lines::LogLines;
use crate::proof_text::InclusionProof;
use std::alloc::{AllocError, Allocator};
use std::thread::Threads;
use tl_hash::{Hash, Sha256Tree, node_hash, split_point};

// Returns the proof of a line that is the only one: its leaf hash is the root.
fn only_line<A: Allocator>(alloc: A, leaf: Hash) -> InclusionProof<A>
    ensures { inclusion_shown result
        ≡ record { index = 0; size = 1; leaf = leaf; root = leaf; proof = [] } }
{
    InclusionProof {
        index: 0,
        size: 1,
        leaf,
        root: leaf,
        proof: Vec::new(alloc),
    }
}

// Returns the proof of the line at `index` among `size`, from its proof in one part of the tree: it appends the root
// of the other part.
fn led_past<A: Allocator>(
    part: InclusionProof<A>,
    other: Hash,
    index: u64,
    size: u64,
    root: Hash,
) -> Result<InclusionProof<A>, AllocError>
    ensures { IfOk result (λ p. inclusion_shown p ≡ record {
      index = index;
      size = size;
      leaf = part.leaf;
      root = root;
      proof = vec_items part.proof ++ other ∷ [];
    }) }
{
    let leaf = part.leaf;
    let mut proof = part.proof;
    proof.push(other)?;
    Ok(InclusionProof {
        index,
        size,
        leaf,
        root,
        proof,
    })
}

/// Returns the inclusion proof of the line at this index: PATH in the part of the tree that has it, and the root of
/// the other part. Each line is hashed once. A tree of 2^26 leaves, the most that 64 MiB hold, has paths of 26 nodes,
/// so at most 27 calls are nested.
pub(crate) fn inclusion_over<H: Threads + Sync, A: Allocator + Copy, B: Allocator + Copy + Send>(
    rt: &H,
    alloc: A,
    workers: B,
    threads: usize,
    index: u64,
    lines: &LogLines<'_>,
) -> Result<InclusionProof<A>, AllocError>
    requires { index < length lines.now }
    ensures { IfOk result (λ p. inclusion_shown p ≡ inclusion_of index lines.now) }
{
    let size = lines.count();
    if size == 1 {
        let leaf = lines.root(rt, workers, threads)?;
        return Ok(only_line(alloc, leaf));
    }
    let k = split_point(size);
    let (front, back) = lines.split(k);
    if index < k {
        let part = inclusion_over(rt, alloc, workers, threads, index, &front)?;
        let other = back.root(rt, workers, threads)?;
        let root = node_hash(Sha256Tree, part.root, other);
        return led_past(part, other, index, size, root);
    }
    let part = inclusion_over(rt, alloc, workers, threads, index - k, &back)?;
    let other = front.root(rt, workers, threads)?;
    let root = node_hash(Sha256Tree, other, part.root);
    led_past(part, other, index, size, root)
}
