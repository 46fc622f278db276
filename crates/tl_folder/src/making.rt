//! Making folders, with those above them if they aren't there.

ghost use Rattle.tl_folder.specs.FileCalls.{Does};
ghost use Rattle.tl_folder.specs.Settling.{naming_if};
ghost use Rattle.tl_folder.specs.Inner.Making.{AsksOne, MakesFolders};

use crate::files::sync_parent;
use crate::look::is_folder;
use crate::system::SystemCalls;
use std::fs::Files;
use std::path::Path;
use tl_device::DeviceFault;

/// If `are_named`, syncs the folder that this path is in, so that the path's name outlasts a crash.
pub(crate) fn name_if<H: Files>(
    calls: &mut SystemCalls<H>,
    path: &str,
    are_named: bool,
) -> Result<(), DeviceFault>
    ensures { Does (naming_if are_named path.now) calls.old calls.new result }
{
    if are_named {
        sync_parent(calls, path)
    } else {
        Ok(())
    }
}

// Makes the folder at this path if there is none. Returns false if the folder above it isn't there.
fn ask_for<H: Files>(
    calls: &mut SystemCalls<H>,
    path: &str,
    are_named: bool,
) -> Result<bool, DeviceFault>
    ensures { AsksOne are_named path.now calls.old calls.new result }
{
    match calls.make_folder(path) {
        Ok(()) => {
            name_if(calls, path, are_named)?;
            Ok(true)
        }
        Err(DeviceFault::NotThere) => Ok(false),
        Err(fault) => {
            if is_folder(calls.metadata(path)) {
                return Ok(true);
            }
            Err(fault)
        }
    }
}

/// Makes the folder at this path, and those above it, if they aren't there. If `are_named`, the name of each new
/// folder is synced in the one above it before anything else is asked.
#[tactic(auto, using(crate::proofs::Above::fewer_above))]
pub(crate) fn make_folders<H: Files>(
    calls: &mut SystemCalls<H>,
    path: &str,
    are_named: bool,
) -> Result<(), DeviceFault>
    ensures { MakesFolders are_named path.now calls.old calls.new result }
{
    if ask_for(calls, path, are_named)? {
        return Ok(());
    }
    let Some(parent) = Path::new(path).parent() else {
        return Err(DeviceFault::NotThere);
    };
    make_folders(calls, parent.as_str(), are_named)?;
    if ask_for(calls, path, are_named)? {
        return Ok(());
    }
    Err(DeviceFault::NotThere)
}
