//! Keeps tiles that passed their checks in a cache.

use crate::observer::Observer;
use std::alloc::{Allocator, Global};
use std::fs::Files;
use tl_client::Head;
use tl_folder::TileCache;
use tl_tile::FetchedTiles;

/// A cache that keeps tiles which passed their checks, and the observer that is notified next.
#[derive(Drop)]
pub(crate) struct Caching<'c, H: Files, O> {
    pub(crate) alloc: Global,
    pub(crate) cache: TileCache<'c, H>,
    pub(crate) then: O,
}

impl<H: Files, O: Observer> Observer for Caching<'_, H, O> {
    fn checked<A: Allocator>(
        &mut self,
        head: &Head,
        tiles: &FetchedTiles<A>,
        known: usize,
        next: u64,
    ) {
        let _ = self.cache.keep(self.alloc, tiles);
        self.then.checked(head, tiles, known, next);
    }

    fn passed<A: Allocator>(&mut self, head: &Head, tiles: &FetchedTiles<A>) {
        let _ = self.cache.keep(self.alloc, tiles);
        self.then.passed(head, tiles);
    }
}
