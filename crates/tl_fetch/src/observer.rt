//! Observers of what passed its checks.

use std::alloc::Allocator;
use tl_client::Head;
use tl_tile::FetchedTiles;

/// An observer of tiles that passed their checks, and of the entries that were checked by them.
pub trait Observer {
    ghost use Rattle.sha2.specs.Sha256.{sha256};
    ghost use Rattle.tl_tile.specs.Verified.{AreVerified};

    /// Is called once these tiles passed all checks against a size and a root, and so did the entries asked for
    /// before the index `next`. An earlier call had the first `known` tiles.
    fn checked<A: Allocator>(
        &mut self,
        head: &Head,
        tiles: &FetchedTiles<A>,
        known: usize,
        next: u64,
    )
        requires { AreVerified sha256 head.now.size head.now.root tiles.now };

    /// Is called once these tiles passed all checks against a size and a root, and no entry was checked.
    fn passed<A: Allocator>(&mut self, head: &Head, tiles: &FetchedTiles<A>)
        requires { AreVerified sha256 head.now.size head.now.root tiles.now };
}

/// An observer that does nothing.
#[derive(Clone, Copy)]
pub struct Nobody;

impl Observer for Nobody {
    fn checked<A: Allocator>(
        &mut self,
        _head: &Head,
        _tiles: &FetchedTiles<A>,
        _known: usize,
        _next: u64,
    ) {}

    fn passed<A: Allocator>(&mut self, _head: &Head, _tiles: &FetchedTiles<A>) {}
}
