//! A file of lines that outlast a crash.

ghost use Rattle.std.specs.Prelude.{◌≡◌, ◌≤◌, [], ◌∷◌, IfOk, length};
ghost use Rattle.tl_folder.specs.FileCalls.{Takes};
ghost use Rattle.tl_folder.specs.Lines.{IsWholeFront, AppendsSome};
ghost use Rattle.tl_folder.specs.Settling.{new_path, replacing};

use crate::lock::LockedFile;
use crate::place::beside;
use crate::record::note_bytes;
use crate::system::{OpenedFile, SystemCalls};
use crate::whole::replace_by;
use http_server::Log;
use memchr::memrchr;
use std::alloc::Global;
use std::fs::{File, Files};
use std::io;
use std::io::{ErrorKind, Write};
use std::marker::Model;
use tl_device::DeviceFault;

/// A file that is appended to. A write returns once its bytes outlast a crash, as far as the system says. If the file
/// at the path is another one, or none, a write fails, and nothing is written. Contracts see the system calls.
#[derive(Drop)]
pub struct DurableAppend<'f, H: Files> {
    calls: SystemCalls<&'f H>,
    path: &'f str,
    locked: LockedFile,
    written: Log<(), u8>,
    fault: Option<DeviceFault>,
}

impl<'f, H: Files> Model for DurableAppend<'f, H> {
    ghost use Rattle.tl_folder.specs.Events.{noted};
    ghost use Rattle.tl_folder.specs.Opened as seen;

    ghost Value = { seen.Appended };

    ghost view = { λ s. record { path = s.path.now; written = noted s.written; calls = s.calls; fault = s.fault } };
}

impl<'f, H: Files> DurableAppend<'f, H> {
    /// Returns the file that was opened by this path and locked, by these calls.
    pub(crate) fn new(calls: SystemCalls<&'f H>, path: &'f str, locked: LockedFile) -> Self
        ensures { result ≡ record {
          path = path.now;
          written = [];
          calls = calls.entry;
          fault = None;
        } }
    {
        DurableAppend {
            calls,
            path,
            locked,
            written: Log::new(),
            fault: None,
        }
    }

    /// Returns why the last write failed, if it did.
    pub fn fault(&self) -> Option<DeviceFault>
        ensures { result ≡ self.now.fault }
    {
        self.fault
    }

    /// Writes a new file with these bytes beside this one and puts it in this one's place, so that bytes and name
    /// outlast a crash. From then on this file is at no path: a write to it fails with `Moved`. It stays locked while
    /// it is open, and the new one isn't locked. After an error the path has this file or the new one.
    pub fn replace(&mut self, alloc: Global, bytes: &[u8]) -> Result<(), DeviceFault>
        ensures path { self.new.path ≡ self.old.path }
        ensures written { self.new.written ≡ self.old.written }
        ensures calls { Takes (replacing (new_path self.old.path) self.old.path bytes.now)
            self.old.calls self.new.calls result }
    {
        let beside = beside(alloc, self.path)?;
        self.locked
            .check_at(self.calls.symlink_metadata(self.path))?;
        replace_by(&mut self.calls, beside.as_str(), self.path, bytes)
    }
}

// Appends some of the bytes to the file, if it is still at this path, and syncs them.
fn append_some<H: Files<File = File>>(
    calls: &mut SystemCalls<H>,
    path: &str,
    locked: &mut LockedFile,
    bytes: &[u8],
) -> Result<usize, DeviceFault>
    ensures count { IfOk result (λ n. n ≤ length bytes.now) }
    ensures calls { AppendsSome path.now bytes.now calls.old calls.new result }
{
    locked.check_at(calls.symlink_metadata(path))?;
    let count = calls.append(&mut locked.file, path, bytes)?;
    calls.sync_data(&locked.file, path)?;
    Ok(count)
}

impl<'f, H: Files<File = File>> Write for DurableAppend<'f, H> {
    ghost use Rattle.std.specs.Prelude.{Some};
    ghost use Rattle.std.specs.Prelude.{◌≡◌};
    ghost use Rattle.std.specs.Io.{WritesAtMost};
    ghost use Rattle.std.specs.Io.KnownBytes.{WriteAppends};
    ghost use Rattle.tl_folder.specs.Lines.{AppendsSome};

    ghost contents = { λ s. Some s.written };

    fn write(&mut self, buf: &[u8]) -> io::Result<usize>
        ensures bound { WritesAtMost result buf.now }
        ensures bytes { WriteAppends (Some self.old.written) (Some self.new.written) result buf.now }
        ensures calls { AppendsSome self.old.path buf.now self.old.calls self.new.calls result }
        ensures path { self.new.path ≡ self.old.path }
    {
        match append_some(&mut self.calls, self.path, &mut self.locked, buf) {
            Ok(count) => {
                note_bytes(&mut self.written, &buf[..count]);
                Ok(count)
            }
            Err(fault) => {
                self.fault = Some(fault);
                Err(io::Error::from(ErrorKind::Other))
            }
        }
    }

    fn flush(&mut self) -> io::Result<()> {
        Ok(())
    }
}

/// Returns the length of the whole lines at the beginning of the bytes.
pub(crate) fn whole_front(bytes: &[u8]) -> usize
    ensures { IsWholeFront bytes.now result }
{
    match memrchr(b'\n', bytes) {
        Some(at) => at + 1,
        None => 0,
    }
}
