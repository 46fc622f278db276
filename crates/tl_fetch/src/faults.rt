//! The faults of checks as faults of the command.

ghost use Rattle.std.specs.Prelude.{◌≡◌};
ghost use Rattle.tl_fetch.specs.Faults.{IsNoAccusation, after_client, after_head, after_trust, after_unopened};

use crate::fault::FetchFault;
use tl_client::{ClientFault, HeadFault};
use tl_command::note_refusal;
use tl_note::NoteFault;
use tl_policy::TrustFault;
use tl_run::{Place, RunFault};
use tl_tile::Resource;

/// The source's bytes for the checkpoint are no checkpoint.
pub(crate) const BAD_CHECKPOINT: RunFault = RunFault::BadCheckpoint(Place::Source(
    Resource::Checkpoint,
));

/// Returns the fault of the command for a check that failed. It never says that the log forked: only evidence does.
pub fn client_refusal(fault: ClientFault) -> FetchFault
    ensures value { result ≡ after_client fault }
    ensures fair { IsNoAccusation result }
{
    match fault {
        ClientFault::Range => FetchFault::Run(RunFault::BadIndex),
        ClientFault::Unavailable => FetchFault::Unavailable,
        ClientFault::BadTile {
            level,
            index,
            width,
        } => FetchFault::BadTile {
            level,
            index,
            width,
        },
        ClientFault::BadBundle(bundle) => FetchFault::BadBundle(bundle),
        ClientFault::BadEntry(index) => FetchFault::BadEntry(index),
        ClientFault::Shrunk | ClientFault::Forked => FetchFault::Unavailable,
        ClientFault::OutOfMemory => FetchFault::Run(RunFault::OutOfMemory),
    }
}

// Returns the fault of the command for a checkpoint that doesn't open as a note.
fn unopened_refusal(fault: NoteFault) -> RunFault
    ensures { result ≡ after_unopened fault }
{
    match fault {
        NoteFault::Malformed => BAD_CHECKPOINT,
        _ => note_refusal(fault),
    }
}

/// Returns the fault of the command for a checkpoint that isn't trusted.
pub(crate) fn head_refusal(fault: HeadFault) -> FetchFault
    ensures value { result ≡ after_head fault }
    ensures fair { IsNoAccusation result }
{
    match fault {
        HeadFault::Unopened(fault) => FetchFault::Run(unopened_refusal(fault)),
        HeadFault::NoCheckpoint(_) => FetchFault::Run(BAD_CHECKPOINT),
        HeadFault::TooFew(count) => FetchFault::TooFew(count),
        HeadFault::OutOfMemory => FetchFault::Run(RunFault::OutOfMemory),
    }
}

/// Returns the fault of the command for a checkpoint that the text of a policy doesn't trust.
pub(crate) fn trust_refusal(fault: TrustFault) -> FetchFault
    ensures value { result ≡ after_trust fault }
    ensures fair { IsNoAccusation result }
{
    match fault {
        TrustFault::OutOfMemory => FetchFault::Run(RunFault::OutOfMemory),
        _ => FetchFault::Untrusted(fault),
    }
}
