//! The folder of a log that a command has to itself.

ghost use Rattle.std.specs.Prelude.{◌≡◌, [], IfOk};
ghost use Rattle.tl_cli.specs.Lasting.{IsAt};

use std::alloc::Global;
use std::fs::{File, Files};
use std::marker::Model;
use tl_device::DeviceFault;
use tl_folder::{CrashOutcome, FolderLock, FolderShelf, has_log, lock_folder};
use tl_ledger::Found;
use tl_run::{Place, RunFault};

/// The folder of a log, which no other process works on while this lasts, and what was read of the log that was found
/// there. Contracts see the path under which it was locked, and its calls so far.
#[derive(Drop)]
pub struct OwnFolder<D, H> {
    pub(crate) lock: FolderLock,
    pub(crate) shelf: FolderShelf<D, H>,
    pub(crate) found: Found<Global>,
}

impl<D, H> Model for OwnFolder<D, H> {
    ghost use Rattle.tl_cli.specs.Lasting.{Folder};

    ghost Value = { Folder };

    ghost view = { λ f. record { locked = f.lock.place; shelf = f.shelf; found = f.found } };
}

// Returns the fault of a log's folder.
fn folder_fault(fault: DeviceFault) -> RunFault {
    RunFault::of_device(Place::Log(None), fault)
}

/// Checks, before anything is made or locked, that a log is in the folder at this path, unless one begins there. It
/// fails with `NothingThere` if there is none.
pub(crate) fn check_log<H: Files>(
    rt: &H,
    alloc: Global,
    dir: &str,
    is_new: bool,
) -> Result<(), RunFault> {
    if is_new {
        return Ok(());
    }
    match has_log(rt, alloc, dir) {
        Ok(true) => Ok(()),
        Ok(false) => Err(RunFault::NothingThere(Place::Log(None))),
        Err(fault) => Err(folder_fault(fault)),
    }
}

/// Opens the folder of a log as a shelf, and makes it if it isn't there.
pub(crate) fn open_folder<D: CrashOutcome + Drop, H: Files + Drop>(
    disk: D,
    rt: H,
    alloc: Global,
    dir: &str,
) -> Result<FolderShelf<D, H>, RunFault>
    ensures place { IfOk result (λ shelf. shelf.place ≡ dir.now) }
    ensures events { IfOk result (λ shelf. shelf.events ≡ []) }
{
    match FolderShelf::open(disk, rt, alloc, dir) {
        Ok(shelf) => Ok(shelf),
        Err(fault) => Err(folder_fault(fault)),
    }
}

/// Opens the folder at this path, which no other process works on while the lock lasts, and makes it if it isn't
/// there. It fails with `Busy` if another process has it, and with `Moved` if another folder came to the path
/// meanwhile.
pub(crate) fn own_folder<D: CrashOutcome + Drop, H: Files<File = File> + Copy + Drop>(
    disk: D,
    rt: &H,
    alloc: Global,
    dir: &str,
) -> Result<OwnFolder<D, H>, RunFault>
    ensures at { IfOk result (λ folder. IsAt dir.now folder) }
    ensures events { IfOk result (λ folder. folder.shelf.events ≡ []) }
{
    let lock = match lock_folder(rt, dir) {
        Ok(lock) => lock,
        Err(fault) => return Err(folder_fault(fault)),
    };
    let shelf = open_folder(disk, *rt, alloc, dir)?;
    if !lock.is_at(rt, dir) {
        return Err(folder_fault(DeviceFault::Moved));
    }
    let found = Found::new(alloc);
    Ok(OwnFolder { lock, shelf, found })
}
