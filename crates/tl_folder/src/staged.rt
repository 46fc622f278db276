//! Writing files beside their places, and putting them in place together.

ghost use Rattle.std.specs.Prelude.{map, string_bytes, ◌++◌};
ghost use Rattle.tl_folder.specs.FileCalls.{Does};
ghost use Rattle.tl_folder.specs.Settling.{syncing, placing, naming, settling, WritesAside};
ghost use Rattle.tl_folder.specs.Inner.Staged.{move_of};

use crate::look::check_plain;
use crate::making::make_folders;
use crate::system::SystemCalls;
use crate::together::SyncsTogether;
use std::alloc::Global;
use std::fs::Files;
use std::path::Path;
use tl_device::DeviceFault;

/// A file that was written beside its place.
#[derive(Drop)]
pub(crate) struct Staged {
    pub(crate) beside: String,
    pub(crate) place: String,
}

/// Syncs the files, one after another.
pub(crate) fn sync_staged<H: Files>(
    calls: &mut SystemCalls<H>,
    staged: &[Staged],
) -> Result<(), DeviceFault>
    ensures { Does (map (λ file. syncing (move_of file)) staged.now)
        calls.old calls.new result }
{
    for file in staged {
        calls.sync(file.beside.as_str())?;
    }
    Ok(())
}

// Renames each of the files to its place.
fn place_staged<H: Files>(calls: &mut SystemCalls<H>, staged: &[Staged]) -> Result<(), DeviceFault>
    ensures { Does (map (λ file. placing (move_of file)) staged.now)
        calls.old calls.new result }
{
    for file in staged {
        calls.rename(file.beside.as_str(), file.place.as_str())?;
    }
    Ok(())
}

/// Syncs the names in the folders, one folder after another.
pub(crate) fn sync_folders<H: Files>(
    calls: &mut SystemCalls<H>,
    folders: &[String],
) -> Result<(), DeviceFault>
    ensures { Does (map (λ folder. naming (string_bytes folder)) folders.now)
        calls.old calls.new result }
{
    for folder in folders {
        calls.sync_folder(folder.as_str())?;
    }
    Ok(())
}

/// Syncs the files, renames them to their places, and syncs the names in the folders.
pub(crate) fn put_staged<H: Files, D: SyncsTogether>(
    calls: &mut SystemCalls<H>,
    disk: &D,
    alloc: Global,
    staged: &[Staged],
    folders: &[String],
) -> Result<(), DeviceFault>
    ensures { Does (settling (map move_of staged.now) (map string_bytes folders.now))
        calls.old calls.new result }
{
    calls.sync_files(disk, alloc, staged)?;
    place_staged(calls, staged)?;
    calls.sync_folders(disk, alloc, folders)
}

/// Writes a file that everybody may read, and makes the folders above it if they aren't there. A crash may lose their
/// names.
pub(crate) fn write_in_folder<H: Files>(
    calls: &mut SystemCalls<H>,
    path: &str,
    bytes: &[u8],
) -> Result<(), DeviceFault>
    ensures { WritesAside path.now bytes.now calls.old calls.new result }
{
    check_plain(calls.symlink_metadata(path))?;
    match calls.write_shown(path, bytes) {
        Ok(()) => return Ok(()),
        Err(DeviceFault::NotThere) => {}
        Err(fault) => return Err(fault),
    }
    let Some(folder) = Path::new(path).parent() else {
        return calls.write_shown(path, bytes);
    };
    make_folders(calls, folder.as_str(), false)?;
    calls.write_shown(path, bytes)
}
