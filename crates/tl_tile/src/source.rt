//! Sources of tiles.

ghost use Rattle.std.specs.Prelude.{◌≡◌, IfOk, IfErr};
ghost use Rattle.tl_hash.specs.Bytes.{Bytes};
ghost use Rattle.tl_store.specs.declared.reader.ReadFault.TheVariants.{BadTile};

use crate::resource::Tile;
use std::alloc::{AllocError, AllocFailed, Allocator};
use thiserror::Error;
use tl_store::ReadFault;

/// The reasons why a tile can't be fetched.
#[derive(Clone, Copy, Debug, PartialEq, Eq, Error)]
pub enum SourceFault {
    /// The source doesn't have the tile.
    #[error("the tile is unavailable")]
    Unavailable,
    /// Memory ran out.
    #[error("out of memory")]
    OutOfMemory,
}

impl From<AllocError> for SourceFault {
    ghost use Rattle.tl_tile.specs.declared.source.SourceFault.TheVariants.{OutOfMemory};

    ghost from_gives = { λ _ fault. fault ≡ OutOfMemory };

    fn from(_error: AllocError) -> SourceFault {
        SourceFault::OutOfMemory
    }
}

impl<X: Drop> From<AllocFailed<X>> for SourceFault {
    ghost use Rattle.tl_tile.specs.declared.source.SourceFault.TheVariants.{OutOfMemory};

    ghost from_gives = { λ _ fault. fault ≡ OutOfMemory };

    fn from(_error: AllocFailed<X>) -> SourceFault {
        SourceFault::OutOfMemory
    }
}

/// Fetches tiles of a log (C2SP tlog-tiles, "Merkle Tree"). A source may lie: contracts know of its bytes only what
/// `may_answer` says.
pub trait TileSource {
    ghost use Rattle.tl_tile.specs.declared.resource.Tile.{Tile};
    ghost use Rattle.tl_tile.specs.declared.source.SourceFault.TheVariants.{Unavailable};

    /// Whether it may return these bytes for a tile.
    ghost may_answer: { Self → Tile → Bytes → Type 0 };

    /// Whether it may lack a tile.
    ghost may_lack: { Self → Tile → Type 0 };

    /// Returns the bytes of a tile. It fails with `Unavailable` if the source doesn't have it.
    fn fetch<A: Allocator + Copy>(&self, alloc: A, tile: Tile) -> Result<Vec<u8, A>, SourceFault>
        ensures text { IfOk result (λ text. may_answer self.now tile text.items) }
        ensures lacks { IfErr result (λ fault. fault ≡ Unavailable → may_lack self.now tile) };
}

// Returns the fault for a tile that the root doesn't confirm.
pub(crate) fn bad_tile(tile: Tile) -> ReadFault
    ensures { result ≡ BadTile tile.level tile.index tile.width }
{
    ReadFault::BadTile {
        level: tile.level,
        index: tile.index,
        width: tile.width,
    }
}
