//! A file of lines of any length, read as a stream.

ghost use Rattle.std.specs.Prelude.{◌≡◌, [], None, IfOk, true};
ghost use Rattle.tl_device.specs.Device.{passage};
ghost use Rattle.tl_folder.specs.FileCalls.{done};
ghost use Rattle.tl_folder.specs.Lines.{CutsLines, MeasuresLines, opening};

use crate::files::sync_parent;
use crate::lines::{DurableAppend, whole_front};
use crate::lock::LockedFile;
use crate::look::open_plain;
use crate::system::{OpenedFile, SystemCalls};
use std::fs::{File, Files, OpenFile, OpenOptions};
use std::io::Read;
use tl_device::{Counted, DeviceFault, InputFault};

// A file must be shorter than this: 2^62 bytes.
const MOST_BYTES: u64 = 4_611_686_018_427_387_904;

/// Reads to the end and returns the length of the whole lines that the reader gives. It fails if a read fails or
/// there are 2^62 bytes.
pub(crate) fn whole_length<R: Read>(reader: &mut Counted<R>) -> Result<u64, InputFault>
    ensures { MeasuresLines (passage R.remaining reader.old reader.new) result }
{
    let mut block = [0u8; 65536];
    let mut whole: u64 = 0;
    let mut count: u64 = 0;
    while count < MOST_BYTES {
        let Some(some) = reader.read_some(&mut block) else {
            return Err(InputFault::Read);
        };
        if some == 0 {
            return Ok(whole);
        }
        let front = whole_front(&block[..some]);
        if front > 0 {
            whole = count + front as u64;
        }
        count += some as u64;
    }
    Err(InputFault::TooLarge)
}

/// A file of lines: the lines to read, and the file to append to.
#[derive(Drop)]
pub struct LineStream<'f, H: Files> {
    /// The file's lines from the first on, each with its newline. Read them before more are appended.
    pub lines: File,
    /// The number of bytes of these lines.
    pub length: u64,
    /// The same file, positioned after them.
    pub end: DurableAppend<'f, H>,
}

// Cuts a last line without a newline off the locked file, whose bytes the reader gives, and syncs the rest and the
// name. Returns how many bytes are left.
fn cut_lines<H: Files<File = File>, R: Read>(
    calls: &mut SystemCalls<H>,
    path: &str,
    locked: &LockedFile,
    reader: &mut Counted<R>,
) -> Result<u64, DeviceFault>
    ensures { CutsLines path.now (passage R.remaining reader.old reader.new)
        calls.old calls.new result }
{
    let length = whole_length(reader)?;
    calls.cut(&locked.file, path, length)?;
    calls.sync_all(&locked.file, path)?;
    sync_parent(calls, path)?;
    Ok(length)
}

// Opens the locked file once more, from its first byte on.
fn open_again<H: Files<File = File>>(
    files: &H,
    path: &str,
    locked: &LockedFile,
) -> Result<File, DeviceFault> {
    let Some(file) = open_plain(files, path, files.symlink_metadata(path))? else {
        return Err(DeviceFault::Moved);
    };
    locked.check_at(file.metadata())?;
    Ok(file)
}

/// Opens and locks the file of lines at this path, which is made if it isn't there. A last line without a newline,
/// which a crash may leave, is cut off. `Busy` means that another process has the file; `NotPlain` that something
/// else than a plain file, such as a symbolic link, is there; `Moved` that another file took the path meanwhile;
/// `TooLarge` that it has 2^62 bytes.
pub fn stream_lines<'f, H: Files<File = File>>(
    files: &'f H,
    path: &'f str,
) -> Result<LineStream<'f, H>, DeviceFault>
    ensures end { IfOk result (λ stream. stream.end ≡ record {
      path = path.now;
      written = [];
      calls = done (opening path.now stream.length);
      fault = None;
    }) }
{
    let mut how = OpenOptions::new();
    how.append(true).create(true);
    let mut calls = SystemCalls::new(files);
    let locked = LockedFile::open(&mut calls, &how, path)?;
    let measured = open_again(files, path, &locked)?;
    let length = cut_lines(&mut calls, path, &locked, &mut Counted::new(measured))?;
    let lines = open_again(files, path, &locked)?;
    let end = DurableAppend::new(calls, path, locked);
    Ok(LineStream { lines, length, end })
}
