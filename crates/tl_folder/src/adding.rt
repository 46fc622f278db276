//! Writing a new file and putting it in its place as a whole.

ghost use Rattle.tl_folder.specs.FileCalls.{Does};
ghost use Rattle.tl_folder.specs.Adding.{filling, Fills, Adds};
ghost use Rattle.tl_folder.specs.Inner.Above.{MakesAbove};

use crate::making::make_folders;
use crate::system::SystemCalls;
use std::fs::Files;
use std::path::Path;
use tl_device::DeviceFault;

// Writes a new file and syncs it.
fn fill<H: Files>(calls: &mut SystemCalls<H>, path: &str, bytes: &[u8]) -> Result<(), DeviceFault>
    ensures { Does (filling path.now bytes.now) calls.old calls.new result }
{
    calls.write_new(path, bytes)?;
    calls.sync(path)
}

// Writes a new file and syncs it. If that fails, removes the file again if the system does; but if the name was
// taken, what is there stays.
fn fill_or_remove<H: Files>(
    calls: &mut SystemCalls<H>,
    path: &str,
    bytes: &[u8],
) -> Result<(), DeviceFault>
    ensures { Fills path.now bytes.now calls.old calls.new result }
{
    match fill(calls, path, bytes) {
        Ok(()) => Ok(()),
        Err(DeviceFault::Taken) => Err(DeviceFault::Taken),
        Err(fault) => {
            let _ = calls.remove(path);
            Err(fault)
        }
    }
}

// Makes the folder that a path is in, and those above it, if they aren't there.
fn make_above<H: Files>(calls: &mut SystemCalls<H>, path: &str) -> Result<(), DeviceFault>
    ensures { MakesAbove path.now calls.old calls.new result }
{
    match Path::new(path).parent() {
        Some(folder) => make_folders(calls, folder.as_str(), false),
        None => Ok(()),
    }
}

/// Writes and syncs a new file beside a place, then renames it to the place. Makes the folders above if they aren't
/// there. A crash may lose their names and the file's own. `Taken` means that something is beside the place. (If
/// something appears at the place meanwhile, even a symbolic link, the rename replaces it and doesn't follow it.)
pub(crate) fn add_file<H: Files>(
    calls: &mut SystemCalls<H>,
    aside: &str,
    place: &str,
    bytes: &[u8],
) -> Result<(), DeviceFault>
    ensures { Adds aside.now place.now bytes.now calls.old calls.new result }
{
    make_above(calls, place)?;
    fill_or_remove(calls, aside, bytes)?;
    calls.rename(aside, place)
}
