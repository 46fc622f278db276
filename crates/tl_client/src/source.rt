//! The trait of sources, which have the resources of a log.

ghost use Rattle.std.specs.Prelude.{◌≡◌, ◌↔◌, IsTrue, IfOk, IfErr};
ghost use Rattle.tl_hash.specs.Bytes.{Bytes};
ghost use Rattle.tl_tile.specs.Path.{IsTile};

use std::alloc::Allocator;
use tl_tile::{Resource, SourceFault, Tile, TileSource};

/// Serves the resources of a log (C2SP tlog-tiles). It may lie: of the bytes nothing is known but what `may_answer`
/// says.
pub trait ResourceSource {
    ghost use Rattle.tl_tile.specs.Path.{IsResource};
    ghost use Rattle.tl_tile.specs.declared.resource.Resource.{Resource};
    ghost use Rattle.tl_tile.specs.declared.source.SourceFault.TheVariants.{Unavailable};

    /// The bytes that it may answer for a resource.
    ghost may_answer: { Self → Resource → Bytes → Type 0 };

    /// The resources that it may lack.
    ghost may_lack: { Self → Resource → Type 0 };

    /// Returns the bytes of a resource. `Unavailable` means that the source lacks it.
    fn get<A: Allocator>(&self, alloc: A, resource: &Resource) -> Result<Vec<u8, A>, SourceFault>
        requires { IsResource resource.now }
        ensures text { IfOk result (λ text. may_answer self.now resource.now text.items) }
        ensures lacks { IfErr result
            (λ fault. fault ≡ Unavailable → may_lack self.now resource.now) };
}

/// The tiles of a source of resources.
#[derive(Clone, Copy, Drop)]
pub struct Tiles<'s, S: ResourceSource>(pub &'s S);

/// Reports whether the tile has a path, under which a log may serve it (C2SP tlog-tiles).
pub fn is_tile(tile: Tile) -> bool
    ensures { IsTrue result ↔ IsTile tile }
{
    tile.level <= 7 && tile.index < 1 << 56 && 0 < tile.width && tile.width <= 256
}

impl<S: ResourceSource> TileSource for Tiles<'_, S> {
    ghost use Rattle.tl_tile.specs.declared.resource.Resource.TheVariants as resource;

    ghost may_answer = { λ s t text. S.may_answer s.0.now (resource.Tile t) text };

    ghost may_lack = { λ s t. IsTile t → S.may_lack s.0.now (resource.Tile t) };

    /// Returns what the source has under the tile's path. `Unavailable` also comes for a tile that has no path.
    fn fetch<A: Allocator + Copy>(&self, alloc: A, tile: Tile) -> Result<Vec<u8, A>, SourceFault> {
        if !is_tile(tile) {
            return Err(SourceFault::Unavailable);
        }
        self.0.get(alloc, &Resource::Tile(tile))
    }
}
