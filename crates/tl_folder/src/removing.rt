//! Removing the folder of partial tiles or bundles: it is moved to another path in one step, and removed there.

ghost use Rattle.std.specs.Prelude.{◌≡◌, ◌⊎◌, ◌↔◌, true, false, IfErr, IsOk, OnOk, OnErr};
ghost use Rattle.tl_folder.specs.Removing.{HasMoved, HasNotMoved};

use crate::system::SystemCalls;
use std::alloc::Global;
use std::fs::Files;
use tl_device::DeviceFault;

/// The folder of the partial tiles or bundles of a full one, and the path that it is moved to before it is removed.
#[derive(Drop)]
pub(crate) struct Going {
    pub(crate) partials: String,
    pub(crate) removed: String,
}

// Reports whether a folder was there, given the outcome of the call that moved it.
fn was_there(outcome: Result<(), DeviceFault>) -> Result<bool, DeviceFault>
    ensures there { (result ≡ Ok true) ↔ IsOk outcome }
    ensures none { (result ≡ Ok false) ↔ (outcome ≡ Err DeviceFault.NotThere) }
    ensures failed { IfErr result (λ fault. outcome ≡ Err fault) }
{
    match outcome {
        Ok(()) => Ok(true),
        Err(DeviceFault::NotThere) => Ok(false),
        Err(fault) => Err(fault),
    }
}

/// Moves a folder to the second path, if it is there, and removes it there. A crash or an error may leave it at the
/// second path, so what is there is removed first; if that fails, the move fails, too.
pub(crate) fn remove_moved<H: Files>(
    calls: &mut SystemCalls<H>,
    alloc: Global,
    from: &str,
    to: &str,
) -> Result<(), DeviceFault>
    ensures moved { OnOk result (HasMoved from.now to.now calls.old calls.new
        ⊎ HasNotMoved from.now to.now calls.old calls.new) }
    ensures failed { OnErr result
        (HasNotMoved from.now to.now calls.old calls.new) }
{
    let _ = calls.remove_folder(alloc, to);
    if was_there(calls.move_away(from, to))? {
        let _ = calls.remove_folder(alloc, to);
    }
    Ok(())
}
