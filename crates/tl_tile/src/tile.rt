//! The bytes of a tile.

ghost use Rattle.std.specs.Prelude.{◌≡◌, ◌≤◌, ◌^◌, List, IfOk, IfErr, OnOk};
ghost use Rattle.std.specs.List.{flat_map};
ghost use Rattle.tl_hash.specs.Bytes.{Bytes, Digest};
ghost use Rattle.tl_tile.specs.TileText as spec;
ghost use Rattle.tl_tile.specs.TileText.{tile_text};
ghost use Rattle.tl_tile.specs.Path.{IsTile};
ghost use Rattle.tl_tile.specs.ReadTile.{end_of, HasTile, GivesTileFault};
ghost use Rattle.tl_tile.specs.Inner.TileNumbers.{tile_numbers};
ghost use Rattle.tl_store.specs.declared.reader.ReadFault.TheVariants.{OutOfMemory};

use crate::resource::Tile;
use std::alloc::{AllocError, Allocator};
use tl_hash::Hash;
use tl_store::{HashReader, ReadFault, stored_index};

// Returns the numbers, among the stored hashes, of the hashes of the tile.
fn numbers_of<A: Allocator>(alloc: A, tile: Tile) -> Result<Vec<u64, A>, ReadFault>
    requires lawful { IsTile tile }
    requires within { end_of tile ≤ 2 ^ 62 }
    ensures numbers { IfOk result (λ numbers. numbers.items ≡ tile_numbers tile) }
    ensures memory { IfErr result (λ fault. fault ≡ OutOfMemory) }
{
    let mut numbers = Vec::new(alloc);
    for i in 0..tile.width {
        numbers.push(stored_index(8 * tile.level, tile.index * 256 + i as u64))?;
    }
    Ok(numbers)
}

/// Returns the full tile of a level with this index.
pub(crate) fn full_tile(level: u32, index: u64) -> Tile
    ensures { result ≡ spec.full_tile level index }
{
    Tile {
        level,
        index,
        width: 256,
    }
}

// Returns the bytes of the hashes, one after another.
pub(crate) fn join<A: Allocator>(alloc: A, hashes: &[Hash]) -> Result<Vec<u8, A>, AllocError>
    ensures { IfOk result (λ bytes. bytes.items ≡ flat_map (λ hash. hash) hashes.now) }
{
    let mut bytes = Vec::new(alloc);
    for hash in hashes {
        bytes.extend_from_slice(hash.as_bytes())?;
    }
    Ok(bytes)
}

/// Returns the bytes of a tile over the entries that the reader stands for: its hashes of 32 bytes, one after another
/// (C2SP tlog-tiles, "Merkle Tree"). The tile has a level from 0 to 7, an index below 2^56 and a width from 1 to 256,
/// and lies within 2^62 entries. All hashes are read in one `read`. It fails with `OutOfRange` if the reader doesn't
/// have all of them, and with `OutOfMemory` if allocation fails; `Source` and `BadTile` are returned as they are.
pub fn tile_bytes<R: HashReader, A: Allocator + Copy>(
    alloc: A,
    tile: Tile,
    reader: &R,
) -> Result<Vec<u8, A>, ReadFault>
    requires lawful { IsTile tile }
    requires within { end_of tile ≤ 2 ^ 62 }
    ensures text { (H : Digest) (entries : List Bytes) → R.stands_for reader.now H entries
        → IfOk result (λ bytes. bytes.items ≡ tile_text H tile entries) }
    ensures in_range { OnOk result (HasTile (R.size reader.now) tile) }
    ensures faults { IfErr result
        (GivesTileFault (R.size reader.now) (R.may_fail reader.now) tile) }
{
    let numbers = numbers_of(alloc, tile)?;
    let hashes = match reader.read(alloc, &numbers) {
        Ok(hashes) => hashes,
        Err(fault) => return Err(fault),
    };
    let bytes = join(alloc, &hashes)?;
    Ok(bytes)
}
