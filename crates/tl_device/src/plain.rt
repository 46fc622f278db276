//! Plain files that are read whole.

ghost use Rattle.std.specs.Prelude.{◌≡◌, ◌≤◌, Err, IfErr, IfOk, length};
ghost use Rattle.std.specs.Fs.{IsFile, file_type};
ghost use Rattle.std.specs.IoError.{error_kind};
ghost use Rattle.tl_device.specs.Faults.{after_kind};

use crate::counted::{Counted, read_whole};
use crate::fault::DeviceFault;
use std::alloc::Allocator;
use std::fs::{File, Files, Metadata};
use std::io;

/// Reads the plain file at a path, of at most `most` bytes. `told` is the metadata of the path; if it was read
/// through a link, the link is followed. It fails with `NotPlain` if the metadata is of a link or of something else,
/// such as a FIFO, whose opening waits for a writer, and with `TooLarge` if the file is longer. The metadata and the
/// opening are two calls: whoever may write the folder can put another file there in between.
pub fn read_plain<A: Allocator, H: Files>(
    alloc: A,
    files: &H,
    path: &str,
    told: io::Result<Metadata>,
    most: u64,
) -> Result<Vec<u8, A>, DeviceFault>
    ensures short { IfOk result (λ bytes. length bytes.items ≤ most) }
    ensures other { IfOk told (λ m. ¬ IsFile (file_type m) → result ≡ Err DeviceFault.NotPlain) }
    ensures failed { IfErr told (λ e. result ≡ Err (after_kind (error_kind e))) }
{
    let found = match told {
        Ok(found) => found,
        Err(error) => return Err(DeviceFault::from(error)),
    };
    if !found.is_file() {
        return Err(DeviceFault::NotPlain);
    }
    let file = File::open(files, path)?;
    match read_whole(alloc, &mut Counted::new(file), most) {
        Ok(bytes) => Ok(bytes),
        Err(fault) => Err(DeviceFault::from(fault)),
    }
}
