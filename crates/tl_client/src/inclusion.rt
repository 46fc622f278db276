//! Inclusion proofs from a source that may lie.

ghost use Rattle.std.specs.Prelude.{◌↔◌, IsTrue, IfOk, IfErr};
ghost use Rattle.sha2.specs.Sha256.{sha256};
ghost use Rattle.tl_proof.specs.Acceptance.{AcceptsInclusion};
ghost use Rattle.tl_proof.specs.ProveFaults.{IsIndex};
ghost use Rattle.tl_client.specs.Refused.{RefusesEntry};

use crate::fault::ClientFault;
use crate::kept::FetchedSource;
use crate::leaves::read_leaves;
use crate::source::ResourceSource;
use std::alloc::Allocator;
use tl_hash::{Hash, Sha256Tree};
use tl_proof::{check_record, prove_record};
use tl_tile::{FetchedTiles, TileHashReader};

// Reports whether a log of this size has an entry with this index.
fn is_index(size: u64, index: u64) -> bool
    ensures { IsTrue result ↔ IsIndex size index }
{
    index < size && size <= 1 << 62
}

/// Returns an inclusion proof of the leaf hash at this index, counted from 0, in a log of this size and root, with
/// the hash nearest to the leaf first (RFC 6962, section 2.1.1). It is made from checked tiles over the entry, and
/// was accepted. `Range` means that the log has no such entry or more than 2^62; `Unavailable` that the source lacks
/// a tile over the entry, or the proof asks for another; `BadEntry` that the log's entry has another leaf hash.
pub fn prove_entry<S: ResourceSource, A: Allocator + Copy>(
    alloc: A,
    source: &S,
    size: u64,
    root: Hash,
    index: u64,
    leaf: Hash,
) -> Result<Vec<Hash, A>, ClientFault>
    ensures accepted { IfOk result
        (λ proof. AcceptsInclusion sha256 proof.items size root index leaf) }
    ensures refused { IfErr result (RefusesEntry (S.may_answer source.now) (S.may_lack source.now)
        (record { size = size; root = root; index = index; leaf = leaf })) }
{
    if !is_index(size, index) {
        return Err(ClientFault::Range);
    }
    let mut fetched = FetchedTiles::new(alloc);
    let _leaf = read_leaves(alloc, source, size, root, index, 1, &mut fetched)?;
    let reader = TileHashReader::new(alloc, Sha256Tree, size, root, FetchedSource(&fetched));
    let proof = prove_record(alloc, Sha256Tree, size, index, &reader)?;
    if !check_record(Sha256Tree, &proof, size, root, index, leaf) {
        return Err(ClientFault::BadEntry(index));
    }
    Ok(proof)
}
