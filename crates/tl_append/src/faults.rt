//! The command's faults for those of lines, of a ledger and of its shelf.

ghost use Rattle.std.specs.Prelude.{◌≡◌, Some};
ghost use Rattle.tl_run.specs.Faults.{after_device};
ghost use Rattle.tl_run.specs.declared.place.Place.TheVariants.{Log};
ghost use Rattle.tl_append.specs.Faults.{after_lines};
ghost use Rattle.tl_append.specs.Inner.Faults.{after_ledger, after_mark, after_open, after_proposal, after_shelf};

use tl_archive::ShelfFault;
use tl_checkpoint::OpenCheckpointFault;
use tl_device::DeviceFault;
use tl_ledger::{LedgerFault, MarkFault, OpenFault};
use tl_lines::LineFault;
use tl_run::{Place, RunFault};
use tl_tile::Resource;

/// Returns the command's fault if lines couldn't be read.
pub fn line_fault(fault: LineFault) -> RunFault
    ensures { result ≡ after_lines fault }
{
    match fault {
        LineFault::Read => RunFault::Read,
        LineFault::TooFew => RunFault::Malformed,
        LineFault::TooLong(number) => RunFault::EntryTooLong(number),
        LineFault::Endless => RunFault::TooLarge,
        LineFault::OutOfMemory => RunFault::OutOfMemory,
    }
}

/// Returns the command's fault if a shelf failed.
pub(crate) fn unkept(fault: ShelfFault) -> RunFault
    ensures { result ≡ after_shelf fault }
{
    RunFault::of_device(Place::Log(fault.resource), fault.why)
}

/// Returns the command's fault if entries weren't put.
pub(crate) fn unput(fault: LedgerFault) -> RunFault
    ensures { result ≡ after_ledger fault }
{
    match fault {
        LedgerFault::Shelf(fault) => unkept(fault),
        LedgerFault::OutOfMemory => RunFault::OutOfMemory,
    }
}

// Returns the command's fault if a resource on the shelf isn't as it has to be.
fn unfit(resource: Resource, fault: DeviceFault) -> RunFault
    ensures { result ≡ after_device (Log (Some resource)) fault }
{
    RunFault::of_device(Place::Log(Some(resource)), fault)
}

/// Returns the command's fault if a log wasn't opened.
pub(crate) fn unopened(fault: OpenFault) -> RunFault
    ensures { result ≡ after_open fault }
{
    match fault {
        OpenFault::Checkpoint | OpenFault::OtherLog => {
            RunFault::BadCheckpoint(Place::Log(Some(Resource::Checkpoint)))
        }
        OpenFault::TooLarge => unfit(Resource::Checkpoint, DeviceFault::TooLarge),
        OpenFault::Missing(resource) => unfit(resource, DeviceFault::NotThere),
        OpenFault::Damaged(resource) => unfit(resource, DeviceFault::Damaged),
        OpenFault::Shelf(fault) => unkept(fault),
        OpenFault::OutOfMemory => RunFault::OutOfMemory,
    }
}

/// Returns the command's fault if a proposal doesn't open.
pub(crate) fn unproposed(fault: OpenCheckpointFault) -> RunFault
    ensures { result ≡ after_proposal fault }
{
    match fault {
        OpenCheckpointFault::OutOfMemory => RunFault::OutOfMemory,
        _ => RunFault::BadCheckpoint(Place::Log(None)),
    }
}

/// Returns the command's fault if a log may not go on, by its mark.
pub(crate) fn outrun(fault: MarkFault) -> RunFault
    ensures { result ≡ after_mark fault }
{
    match fault {
        MarkFault::Shelf(fault) => unkept(fault),
        MarkFault::Older(_) => unfit(Resource::Checkpoint, DeviceFault::Older),
    }
}
