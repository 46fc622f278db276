//! Two nodes side by side: whether they are a fork, and the byte strings that an audit shows.

ghost use Rattle.std.specs.Prelude.{◌≡◌, ◌↔◌, IsTrue, IfOk};
ghost use Rattle.tl_hash.specs.Tree.{leaf_input, node_input};
ghost use Rattle.tl_proof.specs.Inner.Forks.{input_of, fork_of, first_string, second_string, IsForkOver};

use crate::audit::fork::{Children, Fork, Walk};
use crate::check::same;
use std::alloc::{AllocError, Allocator};
use tl_hash::{Hash, TreeHash, node_hash};

// Reports whether two nodes are over the same hashes. That is so exactly if their byte strings are the same, since
// each left hash has 32 bytes. The prover knows that length only once the bytes are read, so they are.
fn same_children(a: Children, b: Children) -> bool
    ensures hashes { IsTrue result ↔ ((a.left ≡ b.left) × (a.right ≡ b.right)) }
    ensures strings { (input_of a ≡ input_of b) → ((a.left ≡ b.left) × (a.right ≡ b.right)) }
{
    let _ = a.left.as_bytes();
    let _ = b.left.as_bytes();
    same(a.left, b.left) && same(a.right, b.right)
}

// Returns the two nodes as a fork if they are over different hashes, and otherwise what was found below them.
fn fork_over(fork: Fork, below: Option<Fork>) -> Option<Fork>
    ensures { IsForkOver fork below result }
{
    if same_children(fork.first, fork.second) {
        below
    } else {
        Some(fork)
    }
}

/// Returns the walk that goes on from `below` to two nodes, each over a left and a right hash.
pub(crate) fn walk_to<T: TreeHash>(
    h: T,
    first: (Hash, Hash),
    second: (Hash, Hash),
    below: Option<Fork>,
) -> Walk
    ensures first { result.first ≡ T.digest_of (node_input first.0 first.1) }
    ensures second { result.second ≡ T.digest_of (node_input second.0 second.1) }
    ensures fork { IsForkOver (fork_of first.0 first.1 second.0 second.1) below result.fork }
{
    let (left, right) = first;
    let (other_left, other_right) = second;
    let first = Children { left, right };
    let second = Children {
        left: other_left,
        right: other_right,
    };
    Walk {
        first: node_hash(h, left, right),
        second: node_hash(h, other_left, other_right),
        fork: fork_over(Fork { first, second }, below),
    }
}

// Returns the byte string that is hashed for a leaf (RFC 6962, section 2.1).
fn leaf_string<A: Allocator + Copy>(alloc: A, entry: &[u8]) -> Result<Vec<u8, A>, AllocError>
    ensures { IfOk result (λ string. string.items ≡ leaf_input entry.now) }
{
    let mut string = Vec::new(alloc);
    string.push(0)?;
    string.extend_from_slice(entry)?;
    Ok(string)
}

// Returns the byte string that is hashed for a node (RFC 6962, section 2.1).
fn node_string<A: Allocator + Copy>(alloc: A, children: Children) -> Result<Vec<u8, A>, AllocError>
    ensures { IfOk result (λ string. string.items ≡ input_of children) }
{
    let mut string = Vec::new(alloc);
    string.push(1)?;
    string.extend_from_slice(children.left.as_bytes())?;
    string.extend_from_slice(children.right.as_bytes())?;
    Ok(string)
}

/// Returns the byte strings that are hashed for the two nodes of a fork, or for the leaves of two entries if there is
/// no fork.
pub(crate) fn strings_of<A: Allocator + Copy>(
    alloc: A,
    fork: Option<Fork>,
    old: &[u8],
    new: &[u8],
) -> Result<(Vec<u8, A>, Vec<u8, A>), AllocError>
    ensures { IfOk result (λ strings. (strings.0.items ≡ first_string fork old.now)
        × (strings.1.items ≡ second_string fork new.now)) }
{
    match fork {
        Some(fork) => Ok((
            node_string(alloc, fork.first)?,
            node_string(alloc, fork.second)?,
        )),
        None => Ok((leaf_string(alloc, old)?, leaf_string(alloc, new)?)),
    }
}
