//! Shows on a terminal how far the checks are.

use crate::observer::Observer;
use std::alloc::{Allocator, Global};
use std::io::Write;
use tl_client::Head;
use tl_device::Counted;
use tl_run::{RunFault, print_text};
use tl_tile::FetchedTiles;

/// Standard error, which shows how far the checks are if it is a terminal.
#[derive(Drop)]
pub(crate) struct Progress<'e, E> {
    alloc: Global,
    errors: &'e mut Counted<E>,
    is_terminal: bool,
    tiles: u64,
}

impl<'e, E: Write> Progress<'e, E> {
    /// Returns the progress before any tile.
    pub(crate) fn new(
        alloc: Global,
        errors: &'e mut Counted<E>,
        is_terminal: bool,
    ) -> Progress<'e, E> {
        Progress {
            alloc,
            errors,
            is_terminal,
            tiles: 0,
        }
    }

    // Prints how far the checks are, on one line that is overwritten each time.
    fn tell(&mut self, head: &Head, next: u64) -> Result<(), RunFault> {
        if !self.is_terminal {
            return Ok(());
        }
        let (tiles, size) = (self.tiles, head.size);
        let end = if next == size { "\n" } else { "" };
        let alloc = self.alloc;
        let line = format!(in alloc; "\r{tiles} tiles and {next} of {size} entries checked{end}")?;
        print_text(self.errors, line.as_bytes())
    }
}

impl<E: Write> Observer for Progress<'_, E> {
    fn checked<A: Allocator>(
        &mut self,
        head: &Head,
        tiles: &FetchedTiles<A>,
        known: usize,
        next: u64,
    ) {
        let new = tiles.as_slice().len().saturating_sub(known);
        self.tiles = self.tiles.saturating_add(new as u64);
        let _ = self.tell(head, next);
    }

    // Does nothing: the line only shows entries.
    fn passed<A: Allocator>(&mut self, _head: &Head, _tiles: &FetchedTiles<A>) {}
}
