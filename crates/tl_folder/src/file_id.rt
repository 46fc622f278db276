//! The identity of a file or folder.

ghost use Rattle.std.specs.Prelude.{◌≡◌, ◌≢◌, ◌↔◌, IfErr, IfOk, IsErrAnd, IsOk, OnOk, OnSome};
ghost use Rattle.std.specs.IoError.{error_kind};
ghost use Rattle.tl_device.specs.Faults.{after_kind};

use std::fs::Metadata;
use std::io;
use std::io::ErrorKind;
use std::os::unix::fs::MetadataExt;
use tl_device::DeviceFault;

/// The identity of a file or folder: its device and its number there. While it is open or has a path, no other has
/// the same.
#[derive(Clone, Copy, PartialEq, Eq)]
pub(crate) struct FileId {
    device: u64,
    number: u64,
}

impl FileId {
    /// Returns the identity in this metadata.
    pub(crate) fn of(metadata: &Metadata) -> FileId {
        FileId {
            device: metadata.dev(),
            number: metadata.ino(),
        }
    }

    // Returns the identity of what is at a path, given the path's metadata, or `None` if nothing is there.
    fn at(told: io::Result<Metadata>) -> Result<Option<FileId>, DeviceFault>
        ensures none { (result ≡ Ok None) ↔ IsErrAnd told (λ e. error_kind e ≡ ErrorKind.NotFound) }
        ensures failed { IfErr result (λ fault. IsErrAnd told
            (λ e. (error_kind e ≢ ErrorKind.NotFound) × (fault ≡ after_kind (error_kind e)))) }
        ensures there { IfOk result (λ found. OnSome found (IsOk told)) }
    {
        match told {
            Ok(metadata) => Ok(Some(FileId::of(&metadata))),
            Err(error) if error.kind() == ErrorKind::NotFound => Ok(None),
            Err(error) => Err(DeviceFault::from(error)),
        }
    }

    // Fails with `Moved` if something else was found at the path, or nothing.
    fn check_found(&self, found: Option<FileId>) -> Result<(), DeviceFault>
        ensures same { IsOk result ↔ (found ≡ Some self.now) }
        ensures moved { IfErr result (λ fault. fault ≡ DeviceFault.Moved) }
    {
        if found == Some(*self) {
            Ok(())
        } else {
            Err(DeviceFault::Moved)
        }
    }

    /// Fails with `Moved` if something else is at the path, or nothing, given the path's metadata.
    pub(crate) fn check(&self, told: io::Result<Metadata>) -> Result<(), DeviceFault>
        ensures { OnOk result (IsOk told) }
    {
        self.check_found(FileId::at(told)?)
    }
}
