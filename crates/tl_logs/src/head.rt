//! The head of each origin in the state of a witness.

ghost use Rattle.std.specs.Prelude.{◌≡◌, ◌<◌, All, IfOk, OnErr, length, map, string_bytes};
ghost use Rattle.tl_witness.specs.ChainLine.{IsChainLine, chain_text};
ghost use Rattle.tl_witness.specs.ReadChain.{chains_shown};
ghost use Rattle.tl_logs.specs.State.{in_one_step, whole_line, whole_step};
ghost use Rattle.tl_logs.specs.ReadState.{head_shown, heads_shown};
ghost use Rattle.tl_proof.specs.Acceptance.{step_of};

use std::alloc::{AllocError, Allocator};
use tl_hash::Hash;
use tl_proof::{HashList, Link};
use tl_witness::write_chain_line;

/// The size and root that the saved links of an origin lead to.
#[derive(Drop)]
pub struct OriginHead<A: Allocator> {
    /// The log's name, which is the origin of its checkpoints.
    pub origin: String<A>,
    /// The number of entries.
    pub size: u64,
    /// The tree hash of these entries.
    pub root: Hash,
}

impl<A: Allocator + Copy> OriginHead<A> {
    // Returns the link from size 0 to this head, without a proof.
    fn link(&self, alloc: A) -> Link<A>
        ensures { step_of result ≡ whole_step (head_shown self.now).head }
    {
        Link {
            size: self.size,
            root: self.root,
            proof: HashList::from_vec(Vec::new(alloc)),
        }
    }
}

/// Returns for each origin a chain of one link, from size 0 to its head without a proof. It fails only if allocation
/// fails.
pub fn whole_chains<A: Allocator + Copy>(
    alloc: A,
    heads: Vec<OriginHead<A>, A>,
) -> Result<Vec<(String<A>, Vec<Link<A>, A>), A>, AllocError>
    ensures { IfOk result
        (λ chains. chains_shown chains.items ≡ map in_one_step (heads_shown heads.items)) }
{
    let mut chains = Vec::new(alloc);
    for head in heads {
        let mut links = Vec::new(alloc);
        links.push(head.link(alloc))?;
        chains.push((head.origin, links))?;
    }
    Ok(chains)
}

/// Returns the lines of these chains, one for each origin. It fails only if allocation fails.
pub(crate) fn whole_lines<A: Allocator + Copy>(
    alloc: A,
    heads: &[OriginHead<A>],
) -> Result<String<A>, AllocError>
    requires { All (λ o. IsChainLine (whole_line o)) (heads_shown heads.now) }
    ensures text { IfOk result
        (λ text. string_bytes text ≡ chain_text (map whole_line (heads_shown heads.now))) }
    ensures memory { OnErr result (0 < length heads.now) }
{
    let mut text = String::new(alloc);
    for head in heads {
        let line = write_chain_line(alloc, head.origin.as_str(), &head.link(alloc))?;
        text.push_str(line.as_str())?;
    }
    Ok(text)
}
