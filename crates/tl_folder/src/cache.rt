//! A folder of a log's tiles that have passed all checks.

ghost use Rattle.std.specs.Prelude.{◌≡◌};
ghost use Rattle.tl_tile.specs.Path.{IsTile};
ghost use Rattle.tl_folder.specs.Caches.{HavePassed};

use crate::adding::add_file;
use crate::look::{is_folder_or_free, is_free};
use crate::place::{beside, has_path, path_under};
use crate::system::SystemCalls;
use std::alloc::{AllocError, Allocator};
use std::fs::Files;
use std::marker::Model;
use std::path::Path;
use tl_tile::{FetchedTiles, Resource, Tile};

/// A folder of tiles that have passed all checks, each in a file at its path (C2SP tlog-tiles). Contracts see the
/// folder's path.
#[derive(Drop)]
pub struct TileCache<'s, H: Files> {
    files: &'s H,
    folder: &'s str,
}

impl<'s, H: Files> Model for TileCache<'s, H> {
    ghost use Rattle.std.specs.Prelude.{ℕ, List};

    ghost Value = { List ℕ };

    ghost view = { λ c. c.folder.now };
}

// Reports whether no symbolic link is between the cache's folder and a place under it. (The folder itself may be a
// link.)
fn stays_under<H: Files>(calls: &SystemCalls<H>, folder: &str, place: &str) -> bool {
    let Some(first) = Path::new(place).parent() else {
        return true;
    };
    for above in first.ancestors() {
        if above.as_str().len() <= folder.len() {
            return true;
        }
        if !is_folder_or_free(calls.symlink_metadata(above.as_str())) {
            return false;
        }
    }
    true
}

// Reports whether a file can be put at this place: nothing is there, not even a broken link, and no link is on the
// way. Between this call and the write somebody else may change the folder.
fn has_room<H: Files>(calls: &SystemCalls<H>, folder: &str, place: &str) -> bool {
    is_free(calls.symlink_metadata(place)) && stays_under(calls, folder, place)
}

impl<'s, H: Files> TileCache<'s, H> {
    /// Returns the cache under this folder. It reads and writes nothing.
    pub fn new(files: &'s H, folder: &'s str) -> TileCache<'s, H>
        ensures { result ≡ folder.now }
    {
        TileCache { files, folder }
    }

    // Writes the file of a tile if there is room for it.
    fn keep_tile<B: Allocator + Copy>(
        &self,
        alloc: B,
        tile: Tile,
        bytes: &[u8],
    ) -> Result<(), AllocError>
        requires { IsTile tile }
    {
        let place = path_under(alloc, self.folder, &Resource::Tile(tile))?;
        let mut calls = SystemCalls::new(self.files);
        if !has_room(&calls, self.folder, place.as_str()) {
            return Ok(());
        }
        let aside = beside(alloc, place.as_str())?;
        let _ = add_file(&mut calls, aside.as_str(), place.as_str(), bytes);
        Ok(())
    }

    /// Writes each of the tiles, which must have passed all checks, to its file, unless the file is there. A tile is
    /// written under its name with `.new` added and then renamed, so that no part of a tile is ever under its path. A
    /// tile is skipped if that name is taken, for example by another process or since a crash, if a symbolic link is
    /// at its place or on the way, or if a write fails. It fails only if allocation fails.
    pub fn keep<A: Allocator, B: Allocator + Copy>(
        &self,
        alloc: B,
        tiles: &FetchedTiles<A>,
    ) -> Result<(), AllocError>
        requires { HavePassed tiles.now }
    {
        for fetched in tiles.as_slice() {
            if has_path(&Resource::Tile(fetched.0)) {
                self.keep_tile(alloc, fetched.0, fetched.1.as_slice())?;
            }
        }
        Ok(())
    }
}
