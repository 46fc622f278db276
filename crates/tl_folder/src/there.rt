//! Finding out whether a folder has a log, before anything is made there.

ghost use Rattle.std.specs.Prelude.{◌≡◌, ◌≢◌, ◌↔◌, true, false, IfErr, IsErrAnd, IsOk};
ghost use Rattle.std.specs.IoError.{error_kind};
ghost use Rattle.tl_device.specs.Faults.{after_kind};

use std::alloc::Global;
use std::fs::{Files, Metadata};
use std::io;
use std::io::ErrorKind;
use tl_device::DeviceFault;

// Reports whether something is at a path, given the path's metadata.
fn is_taken(told: io::Result<Metadata>) -> Result<bool, DeviceFault>
    ensures taken { (result ≡ Ok true) ↔ IsOk told }
    ensures free { (result ≡ Ok false) ↔ IsErrAnd told (λ e. error_kind e ≡ ErrorKind.NotFound) }
    ensures failed { IfErr result (λ fault. IsErrAnd told
        (λ e. (error_kind e ≢ ErrorKind.NotFound) × (fault ≡ after_kind (error_kind e)))) }
{
    match told {
        Ok(_) => Ok(true),
        Err(error) if error.kind() == ErrorKind::NotFound => Ok(false),
        Err(error) => Err(DeviceFault::from(error)),
    }
}

/// Reports whether the folder at this path has a log, or had one: its checkpoint is there, or a proposal, or the
/// mark. A symbolic link counts, even a broken one. A folder that isn't there has no log. Nothing is made, locked or
/// opened. It fails if the system doesn't say whether one of these is there.
pub fn has_log<H: Files>(files: &H, alloc: Global, dir: &str) -> Result<bool, DeviceFault> {
    for name in ["checkpoint", "proposal", "published"] {
        let path = format!(in alloc; "{dir}/{name}")?;
        if is_taken(files.symlink_metadata(path.as_str()))? {
            return Ok(true);
        }
    }
    Ok(false)
}
