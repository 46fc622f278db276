//! Audits: a new list extends an old one, or accepted proofs show two byte strings that collide.
//!
//! An audit checks the links first (`links`). If they don't lead from the old list's size and root to those of the
//! new list, it fails with `NotAccepted`. Then it compares the entries (`list_walk`). If the old list is a prefix,
//! the verdict is `Extends`. Otherwise two of the strings that were hashed collide, and the audit looks for them.
//!
//! It goes over the links from the last to the first (`links`), and for each follows the check of its proof beside
//! the tree of the new list's prefix of the link's size (`link_walk`). The last link whose old root isn't that of the
//! prefix has two nodes with one digest over different hashes, a `Fork` (`fork`). If there is no such link, the old
//! root is that of a prefix of the new list. Then the trees of the old list and of this prefix are followed to a
//! place where the lists differ (`list_walk`), which finds two such nodes, or the leaves of the two entries. The
//! strings are written out last (`exhibits`), and only that allocates.

ghost use Rattle.std.specs.Prelude.{◌≤◌, ◌∷◌, [], List, length, map, vec_items};
ghost use Rattle.tl_hash.specs.Tree.{tree_hash};
ghost use Rattle.tl_proof.specs.Acceptance.{Step, step_of, step_to};
ghost use Rattle.tl_proof.specs.Inner.Forks.{DifferAt, LinksFork, ForksAt, ShowsFork};
ghost use Rattle.tl_proof.specs.Audit.{AreAccepted, Audits};

mod exhibits;
mod fork;
mod link_walk;
mod links;
mod list_walk;

use crate::audit::exhibits::strings_of;
use crate::audit::fork::Fork;
use crate::audit::link_walk::fork_in_link;
use crate::audit::links::{fork_in_links, links_lead};
use crate::audit::list_walk::{first_difference, walk_lists};
use crate::check::check_tree;
use crate::link::Link;
use crate::verdict::{AuditFault, Verdict};
use std::alloc::Allocator;
use tl_hash::{Hash, TreeHash, entry_root};

// Returns the fork that was found in the links. If there is none, returns the one between the old list and the new
// list's prefix of its length, on the path to a place at which the lists differ.
fn fork_or_lists<T: TreeHash, B: Allocator>(
    h: T,
    in_links: Option<Fork>,
    place: usize,
    old: &[Vec<u8, B>],
    new: &[Vec<u8, B>],
) -> Option<Fork>
    requires most { length old.now ≤ length new.now }
    requires differ { DifferAt (map vec_items old.now) (map vec_items new.now) place }
    ensures { (steps : List Step)
        → LinksFork T.digest_of in_links (map vec_items old.now) (map vec_items new.now) steps
        → ForksAt T.digest_of result (map vec_items old.now) (map vec_items new.now) place steps }
{
    match in_links {
        Some(fork) => Some(fork),
        None => walk_lists(h, place, old, &new[..old.len()]).fork,
    }
}

// Returns the verdict with the strings of a fork, or those of the leaves of two entries if there is no fork.
fn collision_of<A: Allocator + Copy>(
    alloc: A,
    fork: Option<Fork>,
    old: &[u8],
    new: &[u8],
) -> Result<Verdict<A>, AuditFault>
    ensures { ShowsFork fork old.now new.now result }
{
    let (first, second) = strings_of(alloc, fork, old, new)?;
    Ok(Verdict::Collision(first, second))
}

// Returns the collision in the links, or if there is none, the one between the lists, which differ at this place.
fn show_collision<T: TreeHash, A: Allocator + Copy, B: Allocator>(
    alloc: A,
    h: T,
    in_links: Option<Fork>,
    place: usize,
    old: &[Vec<u8, B>],
    new: &[Vec<u8, B>],
) -> Result<Verdict<A>, AuditFault>
    requires most { length old.now ≤ length new.now }
    requires differ { DifferAt (map vec_items old.now) (map vec_items new.now) place }
    ensures { (steps : List Step)
        → AreAccepted T.digest_of (map vec_items old.now) (map vec_items new.now) steps
        → LinksFork T.digest_of in_links (map vec_items old.now) (map vec_items new.now) steps
        → Audits T.digest_of (map vec_items old.now) (map vec_items new.now) steps result }
{
    let fork = fork_or_lists(h, in_links, place, old, new);
    collision_of(alloc, fork, old[place].as_slice(), new[place].as_slice())
}

/// Audits one accepted consistency proof (RFC 6962, section 2.1.2). Returns `Extends` if the old list is a prefix of
/// the new one, and otherwise two different byte strings with one digest that were hashed for the audit. It fails
/// with `NotAccepted` if the proof isn't accepted between the sizes and roots of the lists, and with `OutOfMemory` if
/// allocation fails. It takes at most six digests for each entry and four for each hash of the proof; its recursion
/// is at most 64 calls deep.
pub fn audit_tree<T: TreeHash, A: Allocator + Copy, B: Allocator>(
    alloc: A,
    h: T,
    old: &[Vec<u8, B>],
    new: &[Vec<u8, B>],
    proof: &[Hash],
) -> Result<Verdict<A>, AuditFault>
    ensures { Audits T.digest_of (map vec_items old.now) (map vec_items new.now) (step_to
        (length new.now) (tree_hash T.digest_of (map vec_items new.now)) proof.now ∷ []) result }
{
    let root = entry_root(h, old);
    let new_root = entry_root(h, new);
    if !check_tree(h, proof, new.len() as u64, new_root, old.len() as u64, root) {
        return Err(AuditFault::NotAccepted);
    }
    match first_difference(old, new) {
        None => Ok(Verdict::Extends),
        Some(place) => {
            let in_link = fork_in_link(h, proof, old.len(), root, new);
            show_collision(alloc, h, in_link, place, old, new)
        }
    }
}

/// Audits a chain of accepted consistency proofs, as `audit_tree` audits one. The roots in between need not be those
/// of any list. It fails with `NotAccepted` if a link isn't accepted from the one before it, the first from the old
/// list's size and root, or if the last link hasn't the new list's size and root. Without links the lists must have
/// the same size and root. If the old list isn't a prefix, each link takes two digests for each entry up to its size.
pub fn audit_chain<T: TreeHash, A: Allocator + Copy, B: Allocator, C: Allocator>(
    alloc: A,
    h: T,
    old: &[Vec<u8, B>],
    new: &[Vec<u8, B>],
    links: &[Link<C>],
) -> Result<Verdict<A>, AuditFault>
    ensures { Audits T.digest_of
        (map vec_items old.now) (map vec_items new.now) (map step_of links.now) result }
{
    let size = old.len() as u64;
    let root = entry_root(h, old);
    let new_root = entry_root(h, new);
    if !links_lead(h, links, size, root, new.len() as u64, new_root) {
        return Err(AuditFault::NotAccepted);
    }
    match first_difference(old, new) {
        None => Ok(Verdict::Extends),
        Some(place) => {
            let in_links = fork_in_links(h, links, size, root, new);
            show_collision(alloc, h, in_links, place, old, new)
        }
    }
}
