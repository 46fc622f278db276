//! Checking that a log has only grown, from one size and root to another.

ghost use Rattle.std.specs.Prelude.{◌≡◌, ◌≤◌, ◌^◌, ◌⊎◌, [], IfOk, IfErr, OnOk};
ghost use Rattle.sha2.specs.Sha256.{sha256};
ghost use Rattle.tl_proof.specs.Acceptance.{AcceptsConsistency};
ghost use Rattle.tl_tile.specs.Verified.{AreVerified, HavePassed};
ghost use Rattle.tl_client.specs.Blame.{AreServed};
ghost use Rattle.tl_client.specs.Refused.{IsBetween, RefusesGrowth};
ghost use Rattle.tl_client.specs.Inner.Growing.{IsMadeProof, RefusesProof};

use crate::fault::ClientFault;
use crate::kept::FetchedSource;
use crate::leaves::read_leaves;
use crate::source::ResourceSource;
use std::alloc::Allocator;
use tl_hash::{Hash, Head, Sha256Tree};
use tl_proof::{check_tree, prove_tree};
use tl_tile::{FetchedTiles, TileHashReader};

// Returns a consistency proof between the sizes, made from checked tiles of a log with this root: those over the last
// old entry. It has no hash if the old log is empty or the sizes are equal.
fn proof_between<S: ResourceSource, A: Allocator + Copy>(
    alloc: A,
    source: &S,
    old: u64,
    size: u64,
    root: Hash,
    fetched: &mut FetchedTiles<A>,
) -> Result<Vec<Hash, A>, ClientFault>
    requires order { old ≤ size }
    requires limit { size ≤ 2 ^ 62 }
    requires none { fetched.old ≡ [] }
    ensures empty { IfOk result (λ proof. (old ≡ 0) ⊎ (old ≡ size) → proof.items ≡ []) }
    ensures made { IfOk result
        (λ proof. IsBetween old size → IsMadeProof sha256 old size root proof.items) }
    ensures verified { OnOk result (IsBetween old size → AreVerified sha256 size root fetched.new) }
    ensures passed { OnOk result (HavePassed sha256 size root fetched.new) }
    ensures served { AreServed (S.may_answer source.now) size fetched.new }
    ensures refused { IfErr result
        (RefusesProof (S.may_answer source.now) (S.may_lack source.now) old size root) }
{
    if old == 0 || old == size {
        return Ok(Vec::new(alloc));
    }
    let _leaf = read_leaves(alloc, source, size, root, old - 1, 1, fetched)?;
    let reader = TileHashReader::new(alloc, Sha256Tree, size, root, FetchedSource(&*fetched));
    let proof = prove_tree(alloc, Sha256Tree, size, old, &reader)?;
    Ok(proof)
}

/// Returns a consistency proof that the new log begins with the old one (RFC 6962, section 2.1.2), made from checked
/// tiles of the new log over the last old entry, and accepted. `fetched` then holds these tiles only, even on error;
/// there are none if the old log is empty or the sizes are equal. `Shrunk`: the new log is smaller. `Range`: it has
/// more than 2^62 entries. `Unavailable`: the source lacks such a tile, or the proof asks for another. `Forked`: the
/// new log's first entries have another root.
pub fn prove_growth<S: ResourceSource, A: Allocator + Copy>(
    alloc: A,
    source: &S,
    old: Head,
    new: Head,
    fetched: &mut FetchedTiles<A>,
) -> Result<Vec<Hash, A>, ClientFault>
    ensures accepted { IfOk result
        (λ proof. AcceptsConsistency sha256 proof.items new.size new.root old.size old.root) }
    ensures verified { OnOk result
        (IsBetween old.size new.size → AreVerified sha256 new.size new.root fetched.new) }
    ensures passed { OnOk result (HavePassed sha256 new.size new.root fetched.new) }
    ensures served { AreServed (S.may_answer source.now) new.size fetched.new }
    ensures refused { IfErr result
        (RefusesGrowth (S.may_answer source.now) (S.may_lack source.now) old new) }
{
    *fetched = FetchedTiles::new(alloc);
    let Head {
        size: old_size,
        root: old_root,
    } = old;
    let Head { size, root } = new;
    if size < old_size {
        return Err(ClientFault::Shrunk);
    }
    if size > 1 << 62 {
        return Err(ClientFault::Range);
    }
    let proof = proof_between(alloc, source, old_size, size, root, fetched)?;
    if !check_tree(Sha256Tree, &proof, size, root, old_size, old_root) {
        return Err(ClientFault::Forked);
    }
    Ok(proof)
}
