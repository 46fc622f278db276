//! The paths of resources' files, and the paths where files are first written.

ghost use Rattle.std.specs.Prelude.{◌≡◌, ◌↔◌, string_bytes, IfOk, IsTrue};
ghost use Rattle.tl_tile.specs.Path.{IsResource};
ghost use Rattle.tl_folder.specs.Places.{place_of};
ghost use Rattle.tl_folder.specs.Settling.{new_path};

use std::alloc::{AllocError, Allocator};
use tl_client::is_tile;
use tl_tile::{Resource, path_of};

/// Returns `front`, a slash and the path of a resource.
pub fn path_under<A: Allocator + Copy>(
    alloc: A,
    front: &str,
    resource: &Resource,
) -> Result<String<A>, AllocError>
    requires { IsResource resource.now }
    ensures { IfOk result (λ path. string_bytes path ≡ place_of front.now resource.now) }
{
    let mut path = String::from_str(alloc, front)?;
    path.push_str("/")?;
    path.push_str(path_of(alloc, resource)?.as_str())?;
    Ok(path)
}

/// Reports whether a resource has a path, under which a log may serve it (C2SP tlog-tiles).
pub fn has_path(resource: &Resource) -> bool
    ensures { IsTrue result ↔ IsResource resource.now }
{
    match resource {
        Resource::Tile(tile) => is_tile(*tile),
        Resource::Entries { index, width } => *index < 1 << 56 && 0 < *width && *width <= 256,
        Resource::Checkpoint => true,
    }
}

/// Returns the path at which the file for this place is first written.
pub(crate) fn beside<A: Allocator>(alloc: A, place: &str) -> Result<String<A>, AllocError>
    ensures { IfOk result (λ path. string_bytes path ≡ new_path place.now) }
{
    let mut path = String::from_str(alloc, place)?;
    path.push_str(".new")?;
    Ok(path)
}
