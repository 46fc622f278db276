//! Reading the links that a witness saved from their lines.

ghost use Rattle.std.specs.Prelude.{◌≡◌, ◌==◌, ◌++◌, ◌∷◌, IfOk, MatchOption, OnOk, position};
ghost use Rattle.tl_hash.specs.Bytes.{Bytes};
ghost use Rattle.tl_proof.specs.Acceptance.{step_of};
ghost use Rattle.tl_witness.specs.ByOrigin.{Indexes, index_of};
ghost use Rattle.tl_witness.specs.ChainFields.{HasNoLine, IsWithout, PutsStep};
ghost use Rattle.tl_witness.specs.Open.{chain_origins};
ghost use Rattle.tl_witness.specs.ReadChain.{IsLineOf, ReadsChain, ShowsFields, chains_shown};

use crate::by_origin::ByOrigin;
use crate::chain_fields::{Fields, cut_fields, read_hashes};
use std::alloc::{AllocError, Allocator};
use std::str;
use thiserror::Error;
use tl_proof::Link;

/// Why saved links aren't read.
#[derive(Clone, Copy, Debug, PartialEq, Eq, Error)]
pub enum ChainFault {
    /// This line, counted from 0, is the first that isn't the line of a link.
    #[error("line {0} is malformed")]
    Malformed(u64),
    /// Allocation failed.
    #[error("out of memory")]
    OutOfMemory,
}

impl From<AllocError> for ChainFault {
    ghost use Rattle.tl_witness.specs.declared.chain_reading.ChainFault.TheVariants.{OutOfMemory};

    ghost from_gives = { λ _ fault. fault ≡ OutOfMemory };

    fn from(_fault: AllocError) -> ChainFault {
        ChainFault::OutOfMemory
    }
}

// Returns the position of the first newline.
fn first_newline(bytes: &[u8]) -> Option<usize>
    ensures { result ≡ position (λ byte. byte == 10) bytes.now }
{
    bytes.iter().position(|byte| *byte == b'\n')
}

// Returns the first line, without its newline, and what follows it.
fn cut_line(bytes: &[u8]) -> Option<(&str, &[u8])>
    ensures { MatchOption result (HasNoLine bytes.now)
        (λ r. IsWithout 10 r.0.now × (bytes.now ≡ r.0.now ++ 10 ∷ r.1.now)) }
{
    let Some(end) = first_newline(bytes) else {
        return None;
    };
    let Ok(words) = str::from_utf8(&bytes[..end]) else {
        return None;
    };
    Some((words, &bytes[end + 1..]))
}

// Returns the link that a line's fields state.
fn link_of<A: Allocator>(alloc: A, fields: &Fields<'_>) -> Result<Link<A>, AllocError>
    requires { (words : Bytes) × ShowsFields words fields.now }
    ensures { IfOk result (λ link. (words : Bytes)
        → ShowsFields words fields.now → IsLineOf words fields.now.origin.now (step_of link)) }
{
    let proof = read_hashes(alloc, fields.count, fields.hashes)?;
    Ok(Link {
        size: fields.size,
        root: fields.root,
        proof,
    })
}

// Appends a link to those of its origin, whose position the map has, or begins a new chain.
fn put_link<A: Allocator + Copy>(
    alloc: A,
    chains: &mut Vec<(String<A>, Vec<Link<A>, A>), A>,
    index: &mut ByOrigin<A>,
    origin: &str,
    link: Link<A>,
) -> Result<(), AllocError>
    requires { Indexes (index_of index.old) (chain_origins (chains_shown chains.old.items)) }
    ensures put { OnOk result (PutsStep origin.now
        (step_of link) (chains_shown chains.old.items) (chains_shown chains.new.items)) }
    ensures indexed { OnOk result
        (Indexes (index_of index.new) (chain_origins (chains_shown chains.new.items))) }
{
    match index.find(origin) {
        Some(place) => {
            let chain = &mut chains[place];
            chain.1.push(link)?;
        }
        None => {
            let mut links = Vec::new(alloc);
            links.push(link)?;
            let place = chains.len();
            chains.push((String::from_str(alloc, origin)?, links))?;
            index.add(alloc, origin, place)?;
        }
    }
    Ok(())
}

/// Reads links, one on each line as `write_chain_line` writes it. Returns each origin with its links in order; the
/// origins are in the order of their first lines. `Malformed` has the number of the first line that isn't written so;
/// the last line must end with a newline, too. `OutOfMemory` comes only if the first line is one of a link. The time
/// grows with the number of bytes and the logarithm of the number of origins.
pub fn read_chain<A: Allocator + Copy>(
    alloc: A,
    bytes: &[u8],
) -> Result<Vec<(String<A>, Vec<Link<A>, A>), A>, ChainFault>
    ensures { ReadsChain bytes.now result }
{
    let mut chains = Vec::new(alloc);
    let mut index = ByOrigin::new(alloc);
    let mut left = bytes;
    let mut line = 0;
    while !left.is_empty() {
        let Some((words, rest)) = cut_line(left) else {
            return Err(ChainFault::Malformed(line));
        };
        let Some(fields) = cut_fields(words) else {
            return Err(ChainFault::Malformed(line));
        };
        let link = link_of(alloc, &fields)?;
        put_link(alloc, &mut chains, &mut index, fields.origin, link)?;
        left = rest;
        line += 1;
    }
    Ok(chains)
}
