//! The root that the partial tiles fold to.

ghost use Rattle.std.specs.Prelude.{◌≡◌, ◌+◌, ◌*◌, ◌<◌, ◌≤◌, ◌^◌, List, length, IfOk, MatchOption};
ghost use Rattle.tl_hash.specs.Bytes.{Bytes};
ghost use Rattle.tl_tile.specs.TileText as spec;
ghost use Rattle.tl_tile.specs.Folds.{IsEdgeRoot};
ghost use Rattle.tl_tile.specs.FetchedEdge.{HasEdge};
ghost use Rattle.tl_tile.specs.Inner.EdgeRoot.{Joined, IsRestHash};
ghost use Rattle.tl_tile.specs.Fetched.{tiles_of};

use crate::resource::Tile;
use crate::tile_reader::fetched::FetchedTiles;
use crate::tile_reader::hashes::fold_part;
use std::alloc::{AllocError, Allocator};
use tl_hash::{Hash, TreeHash};

// Returns the partial tile of a level in a log of this size. If there is none, its width is 0.
pub(crate) fn partial_tile(size: u64, level: u32) -> Tile
    requires { level ≤ 7 }
    ensures { result ≡ spec.partial_tile size level }
{
    let count = size >> (8 * level);
    Tile {
        level,
        index: count / 256,
        width: (count % 256) as u32,
    }
}

// Returns the hash over a tile's hashes and a last hash after them, if there is one.
fn join_last<T: TreeHash, A: Allocator + Copy>(
    alloc: A,
    h: T,
    text: &[u8],
    width: usize,
    last: Option<Hash>,
) -> Result<Hash, AllocError>
    requires some { 0 < width }
    requires few { width ≤ 256 }
    requires long { length text.now ≡ 32 * width }
    ensures { IfOk result (λ hash. Joined T.digest_of text.now width last hash) }
{
    match last {
        None => Ok(fold_part(h, text, 0, width)),
        Some(last) => {
            let mut hashes = Vec::from_slice(alloc, text)?;
            hashes.extend_from_slice(last.as_bytes())?;
            Ok(fold_part(h, &hashes, 0, width + 1))
        }
    }
}

// Returns the hash that the partial tiles up to this level fold to, from the one for those below it.
fn add_level<T: TreeHash, A: Allocator + Copy>(
    h: T,
    fetched: &FetchedTiles<A>,
    size: u64,
    level: u32,
    below: Option<Hash>,
) -> Result<Option<Hash>, AllocError>
    requires level { level ≤ 7 }
    requires edge { HasEdge (tiles_of fetched.now) size }
    requires below { IsRestHash T.digest_of (tiles_of fetched.now) size level below }
    ensures { IfOk result
        (λ hash. IsRestHash T.digest_of (tiles_of fetched.now) size (level + 1) hash) }
{
    let tile = partial_tile(size, level);
    if tile.width == 0 {
        return Ok(below);
    }
    let Some(text) = fetched.text_of(tile) else {
        return Ok(None);
    };
    let hash = join_last(fetched.allocator(), h, text, tile.width as usize, below)?;
    Ok(Some(hash))
}

// Returns the root that the partial tiles of a log fold to, or `None` for no entries.
pub(crate) fn edge_root<T: TreeHash, A: Allocator + Copy>(
    h: T,
    fetched: &FetchedTiles<A>,
    size: u64,
) -> Result<Option<Hash>, AllocError>
    requires edge { HasEdge (tiles_of fetched.now) size }
    ensures { IfOk result (λ root. MatchOption root
        (size ≡ 0)
        (λ hash. (strings : List Bytes)
        × IsEdgeRoot T.digest_of (tiles_of fetched.now) size hash strings)) }
{
    let mut root = None;
    for level in 0..8 {
        root = add_level(h, fetched, size, level, root)?;
    }
    Ok(root)
}
