//! Fetched tiles as a source of tiles.

ghost use Rattle.std.specs.Prelude.{◌≡◌, Some, None};
ghost use Rattle.tl_tile.specs.Fetched.{tiles_of};

use std::alloc::Allocator;
use tl_tile::{FetchedTiles, SourceFault, Tile, TileSource};

/// A source that has the fetched tiles and no others: any other is `Unavailable`. No contract says that a proof asks
/// only for tiles over its leaf; only tests show it.
#[derive(Clone, Copy, Drop)]
pub(crate) struct FetchedSource<'f, F: Allocator>(pub(crate) &'f FetchedTiles<F>);

impl<F: Allocator> TileSource for FetchedSource<'_, F> {
    ghost may_answer = { λ s t text. tiles_of s.0.now t ≡ Some text };

    ghost may_lack = { λ s t. tiles_of s.0.now t ≡ None };

    fn fetch<A: Allocator + Copy>(&self, alloc: A, tile: Tile) -> Result<Vec<u8, A>, SourceFault> {
        match self.0.text_of(tile) {
            Some(text) => Ok(Vec::from_slice(alloc, text)?),
            None => Err(SourceFault::Unavailable),
        }
    }
}
