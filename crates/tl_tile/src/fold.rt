//! Folding neighbouring hashes into one hash, and the full tiles that an entry completes.

ghost use Rattle.std.specs.Prelude.{◌≡◌, ◌<◌, ◌+◌, ◌*◌, ℕ, List, ◌≤◌, ◌-◌, ◌%◌, ◌^◌, [], ◌∷◌, ◌++◌, length, take, IsTrue, IfOk, OnOk, OnErr};
ghost use Rattle.tl_hash.specs.Bytes.{Bytes};
ghost use Rattle.tl_hash.specs.Tree.{tree_hash};
ghost use Rattle.tl_tile.specs.Inner.Run.{part, Run, IsRun};
ghost use Rattle.tl_tile.specs.Inner.Rest.{IsRest};
ghost use Rattle.tl_tile.specs.Inner.PartialHashes.{partial_hashes};
ghost use Rattle.tl_tile.specs.Inner.PlaceAfter.{IsPlaceAfter};
ghost use Rattle.std.specs.List.{flat_map};
ghost use Rattle.tl_tile.specs.Fetched.{texts_of, tiles_in};
ghost use Rattle.tl_tile.specs.RightEdge.{filled_tiles, shown_filled, hashes_below, count_below};

use crate::four_runs::fold_full;
use crate::resource::Tile;
use crate::tile::{full_tile, join};
use std::alloc::{AllocError, Allocator};
use tl_hash::{Hash, TreeHash, node_hash, split_point};

// Returns the hash over subtrees of one width, from left to right, and a last one after them that is no wider.
pub(crate) fn fold_run<T: TreeHash>(h: T, hashes: &[Hash], last: Hash) -> Hash
    ensures { (entries : List Bytes) (run : Run)
        → IsRun T.digest_of entries run hashes.now last
        → result ≡ tree_hash T.digest_of (part (run.place * run.width) run.end entries) }
{
    if hashes.is_empty() {
        return last;
    }
    let k = split_point(hashes.len() as u64 + 1) as usize;
    let left = fold_run(h, &hashes[..k - 1], hashes[k - 1]);
    let right = fold_run(h, &hashes[k..], last);
    node_hash(h, left, right)
}

// Returns the hash over the hashes of a level's partial tile and the hash of what is below them.
pub(crate) fn fold_level<T: TreeHash>(h: T, hashes: &[Hash], below: Option<Hash>) -> Option<Hash>
    ensures { (entries : List Bytes) (level : ℕ)
        → hashes.now ≡ partial_hashes T.digest_of entries level
        → IsRest T.digest_of entries level below
        → IsRest T.digest_of entries (level + 1) result }
{
    match below {
        Some(last) => Some(fold_run(h, hashes, last)),
        None => match hashes {
            [] => None,
            [first @ .., last] => Some(fold_run(h, first, *last)),
        },
    }
}

// What changes in the kept hashes when one more subtree is full: the tiles that this completes, with their bytes, and
// one hash that takes the place of all kept hashes after the first `left`.
#[derive(Drop)]
pub(crate) struct Filled<A: Allocator> {
    pub(crate) tiles: Vec<(Tile, Vec<u8, A>), A>,
    pub(crate) left: usize,
    pub(crate) hash: Hash,
}

// Returns the bytes of these hashes and a last one.
fn join_with<A: Allocator>(alloc: A, hashes: &[Hash], last: Hash) -> Result<Vec<u8, A>, AllocError>
    ensures { IfOk result
        (λ bytes. bytes.items ≡ flat_map (λ hash. hash) (hashes.now ++ last ∷ [])) }
{
    let mut bytes = join(alloc, hashes)?;
    bytes.extend_from_slice(last.as_bytes())?;
    Ok(bytes)
}

// Adds the tile of these hashes and a last one if `wanted`.
fn push_tile<A: Allocator + Copy>(
    tiles: &mut Vec<(Tile, Vec<u8, A>), A>,
    wanted: bool,
    tile: Tile,
    hashes: &[Hash],
    last: Hash,
) -> Result<(), AllocError>
    ensures added { IsTrue wanted → OnOk result (texts_of tiles.new.items ≡ texts_of tiles.old.items
        ++ (tile, flat_map (λ hash. hash) (hashes.now ++ last ∷ [])) ∷ []) }
    ensures memory { OnErr result (IsTrue wanted) }
{
    if !wanted {
        return Ok(());
    }
    let bytes = join_with(*tiles.allocator(), hashes, last)?;
    tiles.push((tile, bytes))?;
    Ok(())
}

// Returns what changes in the hashes kept for `size` entries when one more subtree of the level `lowest`, with the
// hash `root`, comes after them. At level 0 it is one entry. The tiles are made only if `wanted`.
pub(crate) fn fill<T: TreeHash, A: Allocator + Copy>(
    alloc: A,
    h: T,
    wanted: bool,
    kept: &[Hash],
    size: u64,
    lowest: u32,
    root: Hash,
) -> Result<Filled<A>, AllocError>
    requires low { lowest ≤ 3 }
    requires whole { size % 256 ^ lowest ≡ 0 }
    requires small { size + 256 ^ lowest < 2 ^ 32 }
    requires counted { length kept.now ≡ count_below size 8 }
    ensures counted { IfOk result (λ f. f.left + 1 ≡ count_below (size + 256 ^ lowest) 8) }
    ensures within { IfOk result (λ filled. filled.left ≤ length kept.now) }
    ensures kept { (entries added : List Bytes) → IsPlaceAfter T.digest_of size lowest kept.now
        root entries added → IfOk result (λ filled. take filled.left kept.now ++ filled.hash ∷ []
        ≡ hashes_below T.digest_of (entries ++ added) 8) }
    ensures tiles { IsTrue wanted → lowest ≡ 0 → (entries added : List Bytes)
        → IsPlaceAfter T.digest_of size lowest kept.now root entries added → IfOk result
        (λ filled. texts_of filled.tiles.items ≡ shown_filled T.digest_of (entries ++ added)) }
    ensures named { IsTrue wanted → lowest ≡ 0 → IfOk result
        (λ filled. tiles_in (texts_of filled.tiles.items) ≡ filled_tiles (size + 256 ^ lowest)) }
    ensures memory { OnErr result (IsTrue wanted × ((size + 256 ^ lowest) % 256 ≡ 0)) }
{
    let mut tiles = Vec::new(alloc);
    let mut left = kept.len();
    let mut hash = root;
    let mut count = (size >> (8 * lowest)) + 1;
    let mut level = lowest;
    while count % 256 == 0 {
        count /= 256;
        let tile = full_tile(level, count - 1);
        let below = &kept[left - 255..left];
        push_tile(&mut tiles, wanted, tile, below, hash)?;
        hash = fold_full(h, below, hash);
        left -= 255;
        level += 1;
    }
    Ok(Filled { tiles, left, hash })
}
