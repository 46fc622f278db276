//! The resources of a log in the files under a folder.

ghost use Rattle.std.specs.Prelude.{◌≤◌, IfOk, IfSome, length};
ghost use Rattle.tl_tile.specs.Path.{IsResource};
ghost use Rattle.tl_folder.specs.Limits.{most_bytes};

use crate::limit::most_bytes;
use crate::place::path_under;
use crate::system::SystemCalls;
use std::alloc::{Allocator, Global};
use std::fs::Files;
use tl_device::DeviceFault;
use tl_tile::Resource;

/// Returns the bytes of the plain file at this place, at most `most_bytes`, or `None` if nothing is there. A symbolic
/// link is followed, or counts as no plain file.
pub(crate) fn read_at<H: Files, A: Allocator>(
    calls: &SystemCalls<H>,
    alloc: A,
    place: &str,
    resource: &Resource,
    follows_links: bool,
) -> Result<Option<Vec<u8, A>>, DeviceFault>
    ensures { IfOk result (λ found. IfSome found
        (λ bytes. length bytes.items ≤ most_bytes resource.now)) }
{
    let told = if follows_links {
        calls.metadata(place)
    } else {
        calls.symlink_metadata(place)
    };
    calls.read(alloc, place, told, most_bytes(resource))
}

/// Returns the bytes of a resource's file under a folder, at most `most_bytes`. A symbolic link is followed, or
/// counts as no plain file. `NotThere` means that nothing is there; `NotPlain` that something else than a plain file
/// is there, which isn't opened, since a FIFO would wait for a writer and a device may have no end; `TooLarge` that
/// the file has more bytes. The path is allocated in `own`.
pub fn read_resource<A: Allocator, H: Files>(
    alloc: A,
    own: Global,
    files: &H,
    root: &str,
    resource: &Resource,
    follows_links: bool,
) -> Result<Vec<u8, A>, DeviceFault>
    requires { IsResource resource.now }
    ensures { IfOk result (λ bytes. length bytes.items ≤ most_bytes resource.now) }
{
    let place = path_under(own, root, resource)?;
    let calls = SystemCalls::new(files);
    match read_at(&calls, alloc, place.as_str(), resource, follows_links) {
        Ok(Some(bytes)) => Ok(bytes),
        Ok(None) => Err(DeviceFault::NotThere),
        Err(fault) => Err(fault),
    }
}
