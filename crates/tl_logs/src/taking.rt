//! Taking a link as the last one of its origin.

ghost use Rattle.std.specs.Prelude.{◌≡◌, ◌↔◌, IsTrue};
ghost use Rattle.tl_proof.specs.Acceptance.{step_of};
ghost use Rattle.tl_logs.specs.Inner.ByOrigin.{Indexes, index_of};
ghost use Rattle.tl_logs.specs.Inner.Heads.{MovesOne, TakesLink, head_origins};
ghost use Rattle.tl_logs.specs.ReadState.{head_shown, heads_shown};
ghost use Rattle.tl_witness.specs.Chain.{Follows, first_head};

use crate::by_origin::ByOrigin;
use crate::head::OriginHead;
use std::alloc::{AllocError, AllocFailed, Allocator};
use tl_hash::{TreeHash, empty_hash};
use tl_proof::{Link, check_tree};

/// Why a link isn't taken.
#[derive(Clone, Copy)]
pub(crate) enum LinkFault {
    /// The link isn't accepted from the head of its origin.
    Broken,
    /// Allocation failed.
    OutOfMemory,
}

impl From<AllocError> for LinkFault {
    ghost use Rattle.std.specs.Prelude.{◌≡◌};
    ghost use Rattle.tl_logs.specs.declared.taking.LinkFault.TheVariants.{OutOfMemory};

    ghost from_gives = { λ _ fault. fault ≡ OutOfMemory };

    fn from(_fault: AllocError) -> LinkFault {
        LinkFault::OutOfMemory
    }
}

impl<X: Drop> From<AllocFailed<X>> for LinkFault {
    ghost use Rattle.std.specs.Prelude.{◌≡◌};
    ghost use Rattle.tl_logs.specs.declared.taking.LinkFault.TheVariants.{OutOfMemory};

    ghost from_gives = { λ _ fault. fault ≡ OutOfMemory };

    fn from(_fault: AllocFailed<X>) -> LinkFault {
        LinkFault::OutOfMemory
    }
}

// If the link is accepted from the head, moves the head to the one that the link leads to and returns true.
fn move_head<T: TreeHash, A: Allocator>(tree: T, head: &mut OriginHead<A>, link: &Link<A>) -> bool
    ensures { MovesOne T.digest_of (step_of link.now)
        (head_shown head.old) (head_shown head.new) result }
{
    let proof = link.proof.as_slice();
    if !check_tree(tree, proof, link.size, link.root, head.size, head.root) {
        return false;
    }
    head.size = link.size;
    head.root = link.root;
    true
}

// Reports whether a link is accepted as the first one of its origin.
fn is_first<T: TreeHash, A: Allocator>(tree: T, link: &Link<A>) -> bool
    ensures { IsTrue result ↔ Follows T.digest_of (first_head T.digest_of) (step_of link.now) }
{
    let proof = link.proof.as_slice();
    check_tree(tree, proof, link.size, link.root, 0, empty_hash(tree))
}

/// Takes a link as the last one of its origin, whose position the map has. The link must be accepted from the head of
/// the origin or, if it has none, from size 0.
pub(crate) fn take_link<T: TreeHash, A: Allocator + Copy>(
    alloc: A,
    tree: T,
    heads: &mut Vec<OriginHead<A>, A>,
    index: &mut ByOrigin<A>,
    origin: &str,
    link: &Link<A>,
) -> Result<(), LinkFault>
    requires { Indexes (index_of index.old) (head_origins (heads_shown heads.old.items)) }
    ensures taken { TakesLink T.digest_of origin.now (step_of link.now)
        (heads_shown heads.old.items) (heads_shown heads.new.items) result }
    ensures indexed { Indexes (index_of index.new) (head_origins (heads_shown heads.new.items)) }
{
    match index.find(origin) {
        Some(place) => {
            if !move_head(tree, &mut heads[place], link) {
                return Err(LinkFault::Broken);
            }
        }
        None => {
            if !is_first(tree, link) {
                return Err(LinkFault::Broken);
            }
            heads.reserve(1)?;
            let head = OriginHead {
                origin: String::from_str(alloc, origin)?,
                size: link.size,
                root: link.root,
            };
            index.add(alloc, origin, heads.len())?;
            heads.push_reserved(head);
        }
    }
    Ok(())
}
