//! The resources that a log of a size serves, and those that were added since another size.

ghost use Rattle.std.specs.Prelude.{◌≡◌, ◌<◌, ◌≤◌, ◌+◌, ◌-◌, ◌*◌, ◌^◌, ◌++◌, OnOk, OnErr, IfOk};
ghost use Rattle.tl_tile.specs.Needed.{bundle_width, tile_at, pieces_since, needed_resources, needed_resources_since};
ghost use Rattle.tl_tile.specs.declared.resource.Resource.TheVariants as resource;

use crate::resource::{Resource, Tile};
use std::alloc::{AllocError, Allocator};

// Adds the tiles that a level of `count` hashes has and a level of `from` hashes hasn't.
fn push_tiles<A: Allocator>(
    out: &mut Vec<Resource, A>,
    level: u32,
    from: u64,
    count: u64,
) -> Result<(), AllocError>
    requires { from ≤ count }
    ensures pieces { OnOk result
        (out.new.items ≡ out.old.items ++ pieces_since (tile_at level) from count) }
    ensures memory { OnErr result (from < count) }
{
    for index in from / 256..count / 256 {
        out.push(Resource::Tile(Tile {
            level,
            index,
            width: 256,
        }))?;
    }
    if count % 256 != 0 && count != from {
        out.push(Resource::Tile(Tile {
            level,
            index: count / 256,
            width: (count % 256) as u32,
        }))?;
    }
    Ok(())
}

// Adds the bundles that a log of `size` entries has and a log of `from` entries hasn't.
fn push_bundles<A: Allocator>(
    out: &mut Vec<Resource, A>,
    from: u64,
    size: u64,
) -> Result<(), AllocError>
    requires { from ≤ size }
    ensures pieces { OnOk result
        (out.new.items ≡ out.old.items ++ pieces_since resource.Entries from size) }
    ensures memory { OnErr result (from < size) }
{
    for index in from / 256..size / 256 {
        out.push(Resource::Entries { index, width: 256 })?;
    }
    if size % 256 != 0 && size != from {
        out.push(Resource::Entries {
            index: size / 256,
            width: (size % 256) as u32,
        })?;
    }
    Ok(())
}

/// Returns the resources that a log of `size` entries serves besides its checkpoint (C2SP tlog-tiles): its tiles by
/// level and then by index, and then its entry bundles by index. A partial one is the last of its row. `size` is at
/// most 2^32 - 1. It fails only if allocation fails; for size 0 nothing is allocated.
pub fn needed<A: Allocator>(alloc: A, size: u64) -> Result<Vec<Resource, A>, AllocError>
    requires { size ≤ 2 ^ 32 - 1 }
    ensures resources { IfOk result (λ resources. resources.items ≡ needed_resources size) }
    ensures memory { OnErr result (0 < size) }
{
    added_resources(alloc, 0, size)
}

/// Returns the resources that a log of `size` entries serves and didn't serve with `from` entries, which are at most
/// as many: what a publication adds, in the order of `needed`. The time it takes is that of writing them down. `size`
/// is at most 2^32 - 1. It fails only if allocation fails; if nothing was added, nothing is allocated.
pub fn added_resources<A: Allocator>(
    alloc: A,
    from: u64,
    size: u64,
) -> Result<Vec<Resource, A>, AllocError>
    requires order { from ≤ size }
    requires limit { size ≤ 2 ^ 32 - 1 }
    ensures resources { IfOk result
        (λ resources. resources.items ≡ needed_resources_since from size) }
    ensures memory { OnErr result (from < size) }
{
    let mut listed = Vec::new(alloc);
    let mut low = from;
    let mut high = size;
    for level in 0..8 {
        push_tiles(&mut listed, level, low, high)?;
        low /= 256;
        high /= 256;
    }
    push_bundles(&mut listed, from, size)?;
    Ok(listed)
}

/// Returns the number of entries of the bundle with this index in a log of `size` entries, which must have it: 256,
/// or the rest in the last one (C2SP tlog-tiles, "Log Entries").
pub fn bundle_width(size: u64, bundle: u64) -> u32
    requires { 256 * bundle < size }
    ensures value { result ≡ bundle_width size bundle }
    ensures some { 0 < result }
    ensures most { result ≤ 256 }
    ensures inside { 256 * bundle + result ≤ size }
{
    if bundle < size / 256 {
        256
    } else {
        (size % 256) as u32
    }
}
