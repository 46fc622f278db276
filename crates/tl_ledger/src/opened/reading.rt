//! Reading the partial tiles and the partial bundle of a log from a shelf.

ghost use Rattle.std.specs.Prelude.{◌≡◌, ◌<◌, ◌/◌, ◌%◌, ◌^◌, Contains, IfOk, IfErr, OnOk};
ghost use Rattle.tl_tile.specs.Needed.{needed_resources};
ghost use Rattle.tl_tile.specs.Path.{IsResource};
ghost use Rattle.tl_tile.specs.TileText.{partial_tile};
ghost use Rattle.tl_tile.specs.declared.resource.Resource.TheVariants as resource;
ghost use Rattle.tl_ledger.specs.Inner.Reads.{AreHeld, HasBundle, HasItem, HasLevel, HasPartials, ReadFails, ReadsOn};

use crate::opened::fault::OpenFault;
use crate::opened::shelf_source::ShelfSource;
use std::alloc::Allocator;
use tl_archive::Shelf;
use tl_tile::{Resource, Tile};

// Reads a resource that a log of this size needs, and appends it with its bytes to `read`.
fn read_one<S: Shelf, A: Allocator + Copy>(
    alloc: A,
    shelf: &S,
    size: u64,
    resource: Resource,
    read: &mut ShelfSource<A>,
) -> Result<(), OpenFault>
    requires path { IsResource resource }
    requires needed { Contains (needed_resources size) resource }
    ensures more { OnOk result (ReadsOn S.is_honest (S.kept shelf.now).held read.old read.new) }
    ensures has { OnOk result (HasItem read.new resource) }
    ensures refused { IfErr result
        (ReadFails S.is_honest (S.kept shelf.now).held (S.may_fail shelf.now) size) }
{
    let bytes = match shelf.read(alloc, &resource) {
        Ok(Some(bytes)) => bytes,
        Ok(None) => return Err(OpenFault::Missing(resource)),
        Err(fault) => return Err(OpenFault::Shelf(fault)),
    };
    read.push(resource, bytes)?;
    Ok(())
}

// Returns the partial tile of a level of a log of this size. Its width may be 0.
fn partial_of(size: u64, level: u32) -> Tile
    requires { level < 8 }
    ensures { result ≡ partial_tile size level }
{
    let count = size >> (8 * level);
    Tile {
        level,
        index: count / 256,
        width: (count % 256) as u32,
    }
}

// Reads the partial tile of a level, if there is one.
fn read_level<S: Shelf, A: Allocator + Copy>(
    alloc: A,
    shelf: &S,
    size: u64,
    level: u32,
    read: &mut ShelfSource<A>,
) -> Result<(), OpenFault>
    requires level { level < 8 }
    requires small { size < 2 ^ 32 }
    ensures more { OnOk result (ReadsOn S.is_honest (S.kept shelf.now).held read.old read.new) }
    ensures has { OnOk result (HasLevel size level read.new) }
    ensures refused { IfErr result
        (ReadFails S.is_honest (S.kept shelf.now).held (S.may_fail shelf.now) size) }
{
    let tile = partial_of(size, level);
    if tile.width == 0 {
        return Ok(());
    }
    read_one(alloc, shelf, size, Resource::Tile(tile), read)?;
    Ok(())
}

/// Returns the partial bundle of a log of this size. Its width may be 0.
pub(crate) fn last_bundle(size: u64) -> Resource
    ensures { result ≡ resource.Entries (size / 256) (size % 256) }
{
    Resource::Entries {
        index: size / 256,
        width: (size % 256) as u32,
    }
}

// Reads the partial bundle, if there is one.
fn read_last<S: Shelf, A: Allocator + Copy>(
    alloc: A,
    shelf: &S,
    size: u64,
    read: &mut ShelfSource<A>,
) -> Result<(), OpenFault>
    requires { size < 2 ^ 32 }
    ensures more { OnOk result (ReadsOn S.is_honest (S.kept shelf.now).held read.old read.new) }
    ensures has { OnOk result (HasBundle size read.new) }
    ensures refused { IfErr result
        (ReadFails S.is_honest (S.kept shelf.now).held (S.may_fail shelf.now) size) }
{
    if size % 256 == 0 {
        return Ok(());
    }
    read_one(alloc, shelf, size, last_bundle(size), read)?;
    Ok(())
}

/// Reads the partial tiles and the partial bundle of a log of this size: at most five resources, each once.
pub(crate) fn read_partials<S: Shelf, A: Allocator + Copy>(
    alloc: A,
    shelf: &S,
    size: u64,
) -> Result<ShelfSource<A>, OpenFault>
    requires { size < 2 ^ 32 }
    ensures all { IfOk result (HasPartials size) }
    ensures held { IfOk result (AreHeld S.is_honest (S.kept shelf.now).held) }
    ensures refused { IfErr result
        (ReadFails S.is_honest (S.kept shelf.now).held (S.may_fail shelf.now) size) }
{
    let mut read = ShelfSource::new(alloc);
    for level in 0..8u32 {
        read_level(alloc, shelf, size, level, &mut read)?;
    }
    read_last(alloc, shelf, size, &mut read)?;
    Ok(read)
}
