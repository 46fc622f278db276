//! The right edge of a log that is stored elsewhere, from its partial tiles.

ghost use Rattle.std.specs.Prelude.{◌≡◌, ◌<◌, ◌≤◌, ◌^◌, ◌⊎◌, ◌++◌, List, length, All, IfOk, IfErr, OnOk};
ghost use Rattle.tl_hash.specs.Bytes.{Bytes};
ghost use Rattle.tl_hash.specs.Tree.{tree_hash};
ghost use Rattle.tl_tile.specs.EdgeNumbers.{edge_reading, level_numbers, numbers_below};
ghost use Rattle.tl_tile.specs.Fetched.{tiles_of};
ghost use Rattle.tl_tile.specs.Fetching.{IsNeededFor};
ghost use Rattle.tl_tile.specs.Folds.{TilesCollide};
ghost use Rattle.tl_tile.specs.RightEdge.{IsEdgeOf};
ghost use Rattle.tl_tile.specs.Source.{AreAnswers};
ghost use Rattle.tl_tile.specs.TileLaws.{AreHonest};
ghost use Rattle.tl_tile.specs.TileReader.{GivesNumbersFault};
ghost use Rattle.tl_tile.specs.Verified.{AreVerified, AreInOrder};

use crate::edge::Edge;
use crate::source::TileSource;
use crate::tile_reader::{FetchedTiles, TileHashReader};
use std::alloc::{AllocError, Allocator};
use tl_hash::{Hash, TreeHash};
use tl_store::{ReadFault, stored_index};

// Adds the numbers, among the stored hashes, of the hashes of a level's partial tile.
fn push_numbers<A: Allocator>(
    numbers: &mut Vec<u64, A>,
    size: u64,
    level: u32,
) -> Result<(), AllocError>
    requires level { level ≤ 7 }
    requires small { size < 2 ^ 32 }
    ensures { OnOk result (numbers.new.items ≡ numbers.old.items ++ level_numbers size level) }
{
    let count = size >> (8 * level);
    let first = count / 256 * 256;
    for place in first..count {
        numbers.push(stored_index(8 * level, place))?;
    }
    Ok(())
}

// Returns the numbers of the hashes of all partial tiles, those of the highest level first.
fn edge_numbers<A: Allocator>(alloc: A, size: u64) -> Result<Vec<u64, A>, AllocError>
    requires { size < 2 ^ 32 }
    ensures { IfOk result (λ numbers. numbers.items ≡ numbers_below size 8) }
{
    let mut numbers = Vec::new(alloc);
    for above in 0..8u32 {
        push_numbers(&mut numbers, size, 7 - above)?;
    }
    Ok(numbers)
}

impl<T: TreeHash, A: Allocator + Copy> Edge<T, A> {
    /// Returns the edge of a log of this size and root, from its partial tiles (C2SP tlog-tiles, "Partial Tiles").
    /// They are fetched from a source that may lie, from the highest level down, and must give the root. `fetched`
    /// then holds these tiles and no others, also after a fault. For size 0 nothing is fetched, and the root isn't
    /// used.
    pub fn restore<S: TileSource + Drop>(
        alloc: A,
        h: T,
        size: u64,
        root: Hash,
        source: S,
        fetched: &mut FetchedTiles<A>,
    ) -> Result<Edge<T, A>, ReadFault>
        requires { size < 2 ^ 32 }
        ensures edge { IfOk result (λ edge. (entries : List Bytes) → length entries ≡ size
            → tree_hash T.digest_of entries ≡ root → IsEdgeOf edge T.digest_of entries
            ⊎ TilesCollide T.digest_of (tiles_of fetched.new) size entries) }
        ensures honest { IfOk result (λ edge. (entries : List Bytes) → length entries ≡ size
            → AreHonest T.digest_of (tiles_of fetched.new) entries
            → IsEdgeOf edge T.digest_of entries) }
        ensures size { IfOk result (λ edge. edge.size ≡ size) }
        ensures verified { OnOk result
            (0 < size → AreVerified T.digest_of size root fetched.new) }
        ensures answers { AreAnswers (S.may_answer source) size fetched.new }
        ensures needed { All (λ f. IsNeededFor size (numbers_below size 8) f.0) fetched.new }
        ensures order { AreInOrder T.digest_of size root fetched.new }
        ensures faults { IfErr result (λ fault. (fault ≡ ReadFault.OutOfMemory)
            ⊎ GivesNumbersFault T.digest_of (S.may_lack source)
            (edge_reading size root fetched.new) fault) }
    {
        fetched.clear();
        let numbers = edge_numbers(alloc, size)?;
        let reader = TileHashReader::new(alloc, h, size, root, source);
        let kept = match reader.read_checked(alloc, &numbers, fetched) {
            Ok(kept) => kept,
            Err(fault) => return Err(fault),
        };
        Ok(Edge {
            digest: h,
            kept,
            size,
        })
    }
}
