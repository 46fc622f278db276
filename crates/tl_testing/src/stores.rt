//! Stores of few entries, and the bytes of their tiles.

use std::alloc::{AllocError, Allocator, Global};
use tl_hash::TreeHash;
use tl_store::{HashReader, HashStore, ReadFault};
use tl_tile::{Tile, tile_bytes};

// More entries than any test has.
const MOST: usize = 100_000;

/// Returns the store of these entries if they are fewer than 100,000, else an empty one.
pub fn store_of<T: TreeHash>(
    alloc: Global,
    h: T,
    entries: &[Vec<u8>],
) -> Result<HashStore<T, Global>, AllocError> {
    let mut store = HashStore::new(alloc, h);
    if entries.len() < MOST {
        store.append_all(entries)?;
    }
    Ok(store)
}

/// Returns the bytes of a tile of the three lowest levels, from a reader of hashes, if the tile's index is below
/// 1,000 and its width from 1 to 256. `OutOfRange` for any other tile.
pub fn stored_bytes<R: HashReader, A: Allocator + Copy>(
    alloc: A,
    tile: Tile,
    reader: &R,
) -> Result<Vec<u8, A>, ReadFault> {
    let Tile {
        level,
        index,
        width,
    } = tile;
    if index >= 1000 || width == 0 || width > 256 {
        return Err(ReadFault::OutOfRange);
    }
    let lawful = match level {
        0 => Tile {
            level: 0,
            index,
            width,
        },
        1 => Tile {
            level: 1,
            index,
            width,
        },
        2 => Tile {
            level: 2,
            index,
            width,
        },
        _ => return Err(ReadFault::OutOfRange),
    };
    tile_bytes(alloc, lawful, reader)
}
