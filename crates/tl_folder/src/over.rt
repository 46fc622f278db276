//! Writing a file beside its place and putting it there, over what is there.

ghost use Rattle.tl_folder.specs.FileCalls.{Does, Takes};
ghost use Rattle.tl_folder.specs.Inner.Over.{putting, syncing_if};

use crate::look::check_plain;
use crate::making::name_if;
use crate::system::SystemCalls;
use std::fs::Files;
use tl_device::DeviceFault;

// Syncs a file if `is_lasting`.
fn sync_if<H: Files>(
    calls: &mut SystemCalls<H>,
    path: &str,
    is_lasting: bool,
) -> Result<(), DeviceFault>
    ensures { Does (syncing_if is_lasting path.now) calls.old calls.new result }
{
    if is_lasting { calls.sync(path) } else { Ok(()) }
}

/// Writes bytes beside the place of a file and renames the file to its place. If `is_lasting`, the bytes are synced
/// before the rename and the name after it. `NotPlain` means that something else than a plain file, such as a
/// symbolic link, is beside the place; nothing was written then.
pub(crate) fn put_over<H: Files>(
    calls: &mut SystemCalls<H>,
    aside: &str,
    place: &str,
    bytes: &[u8],
    is_lasting: bool,
) -> Result<(), DeviceFault>
    ensures { Takes (putting is_lasting aside.now place.now bytes.now)
        calls.old calls.new result }
{
    check_plain(calls.symlink_metadata(aside))?;
    calls.write(aside, bytes)?;
    sync_if(calls, aside, is_lasting)?;
    calls.rename(aside, place)?;
    name_if(calls, place, is_lasting)
}
