//! The paths of a log's resources under an address or a folder.

ghost use Rattle.std.specs.Prelude.{string_bytes, IfOk, MatchOption};
ghost use Rattle.tl_tile.specs.Path.{IsResource};
ghost use Rattle.tl_source.specs.Asking.{IsFront, IsTarget};

use std::alloc::{AllocError, Allocator};
use tl_folder::{has_path, path_under};
use tl_tile::Resource;

/// Returns a prefix without the slash that it may end with.
pub fn front_of(prefix: &str) -> &str
    ensures { IsFront prefix.now result.now }
{
    match prefix.strip_suffix('/') {
        Some(front) => front,
        None => prefix,
    }
}

/// Returns the path of a resource under a folder or an address, which may end with a slash, or `None` if the resource
/// has no path (C2SP tlog-tiles). It fails only if allocation fails.
pub fn place_of<A: Allocator + Copy>(
    alloc: A,
    prefix: &str,
    resource: &Resource,
) -> Result<Option<String<A>>, AllocError>
    ensures { IfOk result (λ found. MatchOption found (IsResource resource.now → ⊥)
        (λ place. IsTarget prefix.now resource.now (string_bytes place))) }
{
    if !has_path(resource) {
        return Ok(None);
    }
    let place = path_under(alloc, front_of(prefix), resource)?;
    Ok(Some(place))
}
