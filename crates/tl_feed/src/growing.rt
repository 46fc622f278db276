//! The proof that a log extends its first entries.

ghost use Rattle.std.specs.Prelude.{IfErr, IfOk};
ghost use Rattle.tl_feed.specs.Growing.{IsGrowthFrom, RefusesGrowthFrom};

use std::alloc::Allocator;
use tl_client::{ClientFault, Head, ResourceSource, Tiles};
use tl_hash::{Hash, Sha256Tree};
use tl_proof::prove_tree;
use tl_tile::TileHashReader;

/// Returns the consistency proof from the first `old` entries of a log to the log with this head (RFC 6962, section
/// 2.1.2). It is made from tiles that the source has, each checked against the head; the old root isn't needed.
/// `Range`: the log has fewer entries, or more than 2^62. `Unavailable`: the source lacks a tile that the proof
/// needs.
pub fn growth_from<S: ResourceSource, A: Allocator + Copy>(
    alloc: A,
    source: &S,
    head: &Head,
    old: u64,
) -> Result<Vec<Hash, A>, ClientFault>
    ensures growth { IfOk result
        (λ proof. IsGrowthFrom (S.may_answer source.now) head.now old proof.items) }
    ensures refused { IfErr result
        (RefusesGrowthFrom (S.may_answer source.now) (S.may_lack source.now) head.now old) }
{
    let reader = TileHashReader::new(alloc, Sha256Tree, head.size, head.root, Tiles(source));
    let proof = prove_tree(alloc, Sha256Tree, head.size, old, &reader)?;
    Ok(proof)
}
