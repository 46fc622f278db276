//! A new key in two files.

use crate::fault::{CommandFault, KeyFile};
use std::alloc::Global;
use std::fs::{File, Files, OpenOptions, Permissions, remove_file};
use std::os::unix::fs::{OpenOptionsExt, PermissionsExt};
use std::random::RandomSource;
use tl_command::{KeygenOptions, run_keygen};
use tl_device::{Counted, DeviceFault};
use tl_key::{Cosignature, Note};
use tl_run::RunFault;

// The modes of the file of a private key, which only its owner may read, and of the file of a verifier key.
const PRIVATE: u32 = 0o600;

const PUBLIC: u32 = 0o644;

// Makes a file that isn't there yet, with this mode if the system has modes.
fn make<H: Files<File = File>>(rt: &H, path: &str, mode: u32) -> Result<File, DeviceFault> {
    let mut options = OpenOptions::new();
    options.write(true).create_new(true).mode(mode);
    match options.open(rt, path) {
        Ok(file) => {
            let _ = file.set_permissions(Permissions::from_mode(mode));
            Ok(file)
        }
        Err(error) => Err(DeviceFault::from(error)),
    }
}

// Writes a new key into its files, so that both outlast a crash.
fn write_key<H: RandomSource>(
    rt: &H,
    alloc: Global,
    key: &KeygenOptions,
    private: File,
    public: File,
) -> Result<(), RunFault> {
    let name = key.name.as_str();
    let (mut private, mut public) = (Counted::new(private), Counted::new(public));
    let made = if key.is_cosigner {
        run_keygen::<Cosignature, H, File, File>(rt, alloc, name, &mut private, &mut public)
    } else {
        run_keygen::<Note, H, File, File>(rt, alloc, name, &mut private, &mut public)
    };
    made?;
    let synced = private.into_inner().sync_all().is_ok();
    if public.into_inner().sync_all().is_ok() && synced {
        return Ok(());
    }
    Err(RunFault::Write)
}

/// Makes a key. It writes the private text to the file at `out`, which only its owner may read, and the verifier's
/// text to the file with `.pub` behind that name. It fails with `KeyFile` if one of the files can't be made, for
/// instance because it is already there. After a fault it leaves neither file, unless it was there before.
pub(crate) fn keygen_to<H: Files<File = File> + RandomSource>(
    rt: &H,
    alloc: Global,
    key: &KeygenOptions,
    out: &str,
) -> Result<(), CommandFault> {
    let public_path = format!(in alloc; "{out}.pub")?;
    let public_path = public_path.as_str();
    let private = match make(rt, out, PRIVATE) {
        Ok(file) => file,
        Err(why) => return Err(CommandFault::KeyFile(KeyFile::Private, why)),
    };
    let public = match make(rt, public_path, PUBLIC) {
        Ok(file) => file,
        Err(why) => {
            let _ = remove_file(rt, out);
            return Err(CommandFault::KeyFile(KeyFile::Public, why));
        }
    };
    match write_key(rt, alloc, key, private, public) {
        Ok(()) => Ok(()),
        Err(fault) => {
            let _ = remove_file(rt, out);
            let _ = remove_file(rt, public_path);
            Err(CommandFault::Run(fault))
        }
    }
}
