//! A chain of links: whether it leads from one size and root to another, and the search for a fork in it.

ghost use Rattle.std.specs.Prelude.{◌≡◌, ◌+◌, ◌<◌, ◌≤◌, ◌↔◌, length, map, take, vec_items, IsTrue};
ghost use Rattle.tl_hash.specs.Tree.{tree_hash};
ghost use Rattle.tl_proof.specs.Collisions.{step_inputs};
ghost use Rattle.tl_proof.specs.Acceptance.{step_of, Linked, EndsWith};
ghost use Rattle.tl_proof.specs.Inner.Forks.{SameOrForks, end_size, end_root};

use crate::audit::fork::Fork;
use crate::audit::link_walk::fork_in_link;
use crate::check::{check_tree, same};
use crate::link::Link;
use std::alloc::Allocator;
use tl_hash::{Hash, TreeHash};

/// Reports whether each link is accepted from the one before it, the first from the old size and root, and the last
/// link has the new size and root. Without links, the sizes and the roots must be the same. It takes one or two
/// digests for each hash of the proofs.
pub(crate) fn links_lead<T: TreeHash, C: Allocator>(
    h: T,
    links: &[Link<C>],
    old: u64,
    old_root: Hash,
    size: u64,
    root: Hash,
) -> bool
    ensures { IsTrue result ↔ (Linked T.digest_of old old_root (map step_of links.now)
        × EndsWith old old_root (map step_of links.now) size root) }
{
    let mut at = old;
    let mut at_root = old_root;
    for link in links {
        if !check_tree(h, link.proof.as_slice(), link.size, link.root, at, at_root) {
            return false;
        }
        at = link.size;
        at_root = link.root;
    }
    at == size && same(at_root, root)
}

// Returns the size and the root of the last of the first `count` links, or the old ones for none.
fn end_after<C: Allocator>(links: &[Link<C>], count: usize, old: u64, old_root: Hash) -> (u64, Hash)
    requires { count ≤ length links.now }
    ensures size { result.0 ≡ end_size old (take count (map step_of links.now)) }
    ensures root { result.1 ≡ end_root old_root (take count (map step_of links.now)) }
{
    if count == 0 {
        (old, old_root)
    } else {
        (links[count - 1].size, links[count - 1].root)
    }
}

// Returns two nodes that collide at a link whose root is that of the list's prefix, if the root before it isn't.
// Returns `None` if it is.
fn fork_at<T: TreeHash, B: Allocator, C: Allocator>(
    h: T,
    links: &[Link<C>],
    index: usize,
    old: u64,
    old_root: Hash,
    new: &[Vec<u8, B>],
) -> Option<Fork>
    requires within { index < length links.now }
    requires linked { Linked T.digest_of old old_root (map step_of links.now) }
    requires ends { EndsWith old old_root
        (map step_of links.now) (length new.now) (tree_hash T.digest_of (map vec_items new.now)) }
    requires root { end_root old_root (take (index + 1) (map step_of links.now))
        ≡ tree_hash T.digest_of
        (take (end_size old (take (index + 1) (map step_of links.now))) (map vec_items new.now)) }
    ensures { SameOrForks T.digest_of result
        (end_root old_root (take index (map step_of links.now))) (tree_hash T.digest_of
        (take (end_size old (take index (map step_of links.now))) (map vec_items new.now)))
        (step_inputs T.digest_of (map vec_items new.now) old old_root (map step_of links.now))
        (step_inputs T.digest_of (map vec_items new.now) old old_root (map step_of links.now)) }
{
    let end = links[index].size as usize;
    let (size, root) = end_after(links, index, old, old_root);
    fork_in_link(
        h,
        links[index].proof.as_slice(),
        size as usize,
        root,
        &new[..end],
    )
}

/// Returns two nodes that collide at the last link before which the root isn't that of the list's prefix. Returns
/// `None` if the old root is that of the list's first `old` entries. Each link on the way takes one pass over the
/// prefix of its size.
pub(crate) fn fork_in_links<T: TreeHash, B: Allocator, C: Allocator>(
    h: T,
    links: &[Link<C>],
    old: u64,
    old_root: Hash,
    new: &[Vec<u8, B>],
) -> Option<Fork>
    requires linked { Linked T.digest_of old old_root (map step_of links.now) }
    requires ends { EndsWith old old_root
        (map step_of links.now) (length new.now) (tree_hash T.digest_of (map vec_items new.now)) }
    ensures { SameOrForks T.digest_of result old_root
        (tree_hash T.digest_of (take old (map vec_items new.now)))
        (step_inputs T.digest_of (map vec_items new.now) old old_root (map step_of links.now))
        (step_inputs T.digest_of (map vec_items new.now) old old_root (map step_of links.now)) }
{
    let mut count = links.len();
    while count > 0 {
        count -= 1;
        if let Some(fork) = fork_at(h, links, count, old, old_root, new) {
            return Some(fork);
        }
    }
    None
}
