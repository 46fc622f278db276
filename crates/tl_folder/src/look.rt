//! Checking what is at a path before it is opened. Opening a pipe may block forever and opening a device may do
//! anything, so only what is expected is opened. The check and the open are two calls, since std has no open that
//! rejects a symbolic link and doesn't wait for a pipe. What takes the path in between is opened all the same.

ghost use Rattle.std.specs.Prelude.{◌≡◌, ◌≢◌, ◌↔◌, true, false, IfErr, IfOk, IsErrAnd, IsOkAnd, IsTrue, MatchResult, OnOk, OnSome};
ghost use Rattle.std.specs.Fs.{IsDir, IsFile, file_type};
ghost use Rattle.std.specs.IoError.{error_kind};
ghost use Rattle.tl_device.specs.Faults.{after_kind};

use std::fs::{File, Files, Metadata};
use std::io;
use std::io::ErrorKind;
use tl_device::DeviceFault;

// Reports whether a plain file is at a path, given the path's metadata. `NotPlain` means that something else is
// there.
fn is_plain(told: io::Result<Metadata>) -> Result<bool, DeviceFault>
    ensures plain { (result ≡ Ok true) ↔ IsOkAnd told (λ m. IsFile (file_type m)) }
    ensures none { (result ≡ Ok false) ↔ IsErrAnd told (λ e. error_kind e ≡ ErrorKind.NotFound) }
    ensures other { IfOk told (λ m. ¬ IsFile (file_type m) → result ≡ Err DeviceFault.NotPlain) }
    ensures failed { IfErr told (λ e. error_kind e ≢ ErrorKind.NotFound
        → result ≡ Err (after_kind (error_kind e))) }
{
    match told {
        Ok(metadata) if metadata.is_file() => Ok(true),
        Ok(_) => Err(DeviceFault::NotPlain),
        Err(error) if error.kind() == ErrorKind::NotFound => Ok(false),
        Err(error) => Err(DeviceFault::from(error)),
    }
}

/// Fails if something other than a plain file is at a path, given the path's metadata. A symbolic link is no plain
/// file.
pub(crate) fn check_plain(told: io::Result<Metadata>) -> Result<(), DeviceFault>
    ensures { OnOk result (MatchResult told
        (λ m. IsFile (file_type m)) (λ e. error_kind e ≡ ErrorKind.NotFound)) }
{
    is_plain(told)?;
    Ok(())
}

/// Reports whether nothing is at a path, given the path's metadata.
pub(crate) fn is_free(told: io::Result<Metadata>) -> bool
    ensures { IsTrue result ↔ IsErrAnd told (λ e. error_kind e ≡ ErrorKind.NotFound) }
{
    match told {
        Ok(_) => false,
        Err(error) => error.kind() == ErrorKind::NotFound,
    }
}

/// Reports whether a folder or nothing is at a path, given the path's metadata.
pub(crate) fn is_folder_or_free(told: io::Result<Metadata>) -> bool
    ensures { IsTrue result ↔ MatchResult told
        (λ m. IsDir (file_type m)) (λ e. error_kind e ≡ ErrorKind.NotFound) }
{
    match told {
        Ok(found) => found.is_dir(),
        Err(error) => error.kind() == ErrorKind::NotFound,
    }
}

/// Reports whether a folder is at a path, given the path's metadata.
pub(crate) fn is_folder(told: io::Result<Metadata>) -> bool
    ensures { IsTrue result ↔ IsOkAnd told (λ m. IsDir (file_type m)) }
{
    match told {
        Ok(metadata) => metadata.is_dir(),
        Err(_) => false,
    }
}

/// Opens the plain file at a path, given the path's metadata, or returns `None` if nothing is there. A symbolic link
/// is followed if the metadata is that of its target.
pub(crate) fn open_plain<H: Files>(
    files: &H,
    path: &str,
    told: io::Result<Metadata>,
) -> Result<Option<H::File>, DeviceFault>
    ensures { IfOk result
        (λ found. OnSome found (IsOkAnd told (λ m. IsFile (file_type m)))) }
{
    if !is_plain(told)? {
        return Ok(None);
    }
    match File::open(files, path) {
        Ok(file) => Ok(Some(file)),
        Err(error) if error.kind() == ErrorKind::NotFound => Ok(None),
        Err(error) => Err(DeviceFault::from(error)),
    }
}

/// Opens the folder at a path, following links. Anything else is not opened.
pub(crate) fn open_folder<H: Files>(files: &H, path: &str) -> Result<H::File, DeviceFault> {
    if !files.metadata(path)?.is_dir() {
        return Err(DeviceFault::NotFolder);
    }
    let folder = File::open(files, path)?;
    Ok(folder)
}
