//! All hashes of the fold of a full tile.

ghost use Rattle.std.specs.Prelude.{◌≡◌, ◌<◌, ◌+◌, ◌*◌, ℕ, List, [], length, IfOk, OnOk, slice_index_or};
ghost use Rattle.tl_hash.specs.Bytes.{Bytes};
ghost use Rattle.tl_tile.specs.Folds.{IsHashAt};
ghost use Rattle.tl_tile.specs.Inner.TileTree.{IsTileTree, IsTreeSoFar};

use crate::tile_reader::hashes::hash_in;
use std::alloc::{AllocError, Allocator};
use tl_hash::{Hash, TreeHash, hash_four_nodes, node_hash};

// Returns the hashes of a full tile.
fn own_hashes<A: Allocator>(alloc: A, text: &[u8]) -> Result<Vec<Hash, A>, AllocError>
    requires { length text.now ≡ 8192 }
    ensures many { IfOk result (λ hashes. length hashes.items ≡ 256) }
    ensures own { IfOk result (λ hashes. (number : ℕ)
        → number < 256 → IsHashAt text.now number (slice_index_or hashes.items number [])) }
{
    let mut hashes = Vec::with_capacity(alloc, 511)?;
    for number in 0..256 {
        hashes.push(hash_in(text, number))?;
    }
    Ok(hashes)
}

// Adds the nodes over the next four pairs of hashes of a tile's tree.
fn push_four<T: TreeHash, A: Allocator>(
    h: T,
    hashes: &mut Vec<Hash, A>,
    four: usize,
) -> Result<(), AllocError>
    requires low { four < 63 }
    requires many { length hashes.old.items ≡ 256 + 4 * four }
    ensures { (text : Bytes) → IsTreeSoFar T.digest_of text (256 + 4 * four) hashes.old.items
        → OnOk result (IsTreeSoFar T.digest_of text (256 + 4 * (four + 1)) hashes.new.items) }
{
    let nodes = hash_four_nodes(h, hashes, 8 * four);
    hashes.extend_from_slice(&nodes)?;
    Ok(())
}

// Returns the hashes of a full tile, then the nodes over each two of them, and so on up to the one hash of the tile.
pub(crate) fn fold_tile<T: TreeHash, A: Allocator>(
    alloc: A,
    h: T,
    text: &[u8],
) -> Result<Vec<Hash, A>, AllocError>
    requires { length text.now ≡ 8192 }
    ensures { IfOk result (λ hashes. IsTileTree T.digest_of text.now hashes.items) }
{
    let mut hashes = own_hashes(alloc, text)?;
    for four in 0..63 {
        push_four(h, &mut hashes, four)?;
    }
    for node in 252..255 {
        let left = hashes[2 * node];
        let right = hashes[2 * node + 1];
        hashes.push(node_hash(h, left, right))?;
    }
    Ok(hashes)
}
