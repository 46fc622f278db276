//! The command `check` against the checkpoint in a file.

ghost use Rattle.std.specs.Prelude.{Some, option_map, string_bytes};
ghost use Rattle.tl_device.specs.Device.{passage};
ghost use Rattle.tl_cli.specs.Job.{ChecksEntryIn, ChecksFile, ChecksGiven};

use std::alloc::Global;
use std::fs::Files;
use std::io::{Read, Write};
use tl_command::{CheckOptions, GivenEntry, run_check_opened};
use tl_device::Counted;
use tl_run::{RunFault, read_file};

// Checks the proof of the input against the checkpoint in a file, about this entry, if one is given.
fn check_in_file<H: Files, R: Read, W: Write>(
    rt: &H,
    alloc: Global,
    options: &CheckOptions,
    entry: Option<&[u8]>,
    reader: &mut Counted<R>,
    writer: &mut Counted<W>,
) -> Result<(), RunFault>
    ensures { ChecksFile (string_bytes options.now.key)
        (option_map (λ e. e.now) entry.entry) (passage R.remaining reader.old reader.new)
        (passage W.contents writer.old writer.new) result }
{
    let bytes = match read_file(rt, alloc, options.checkpoint.as_str()) {
        Ok(bytes) => bytes,
        Err(fault) => return Err(fault),
    };
    run_check_opened(
        alloc,
        options.key.as_str(),
        bytes.as_slice(),
        entry,
        reader,
        writer,
    )
}

// Checks the proof of the input, about the bytes of a file, against the checkpoint in another file.
fn check_file_entry<H: Files, R: Read, W: Write>(
    rt: &H,
    alloc: Global,
    options: &CheckOptions,
    path: &str,
    reader: &mut Counted<R>,
    writer: &mut Counted<W>,
) -> Result<(), RunFault>
    ensures { ChecksEntryIn (string_bytes options.now.key)
        (passage R.remaining reader.old reader.new)
        (passage W.contents writer.old writer.new) result }
{
    match read_file(rt, alloc, path) {
        Ok(entry) => check_in_file(rt, alloc, options, Some(entry.as_slice()), reader, writer),
        Err(fault) => Err(fault),
    }
}

// Checks the proof of the input, about the given entry, against the checkpoint in a file.
fn check_given<H: Files, R: Read, W: Write>(
    rt: &H,
    alloc: Global,
    options: &CheckOptions,
    given: &GivenEntry,
    reader: &mut Counted<R>,
    writer: &mut Counted<W>,
) -> Result<(), RunFault>
    ensures { ChecksGiven (string_bytes options.now.key) (Some given.now)
        (passage R.remaining reader.old reader.new)
        (passage W.contents writer.old writer.new) result }
{
    match given {
        GivenEntry::Text(entry) => {
            check_in_file(rt, alloc, options, Some(entry.as_bytes()), reader, writer)
        }
        GivenEntry::File(path) => {
            check_file_entry(rt, alloc, options, path.as_str(), reader, writer)
        }
    }
}

/// Checks the proof of the input against the checkpoint in a file, about the entry that the options give, if any.
pub(crate) fn check_under<H: Files, R: Read, W: Write>(
    rt: &H,
    alloc: Global,
    options: &CheckOptions,
    reader: &mut Counted<R>,
    writer: &mut Counted<W>,
) -> Result<(), RunFault>
    ensures { ChecksGiven (string_bytes options.now.key) options.now.entry
        (passage R.remaining reader.old reader.new)
        (passage W.contents writer.old writer.new) result }
{
    match &options.entry {
        None => check_in_file(rt, alloc, options, None, reader, writer),
        Some(given) => check_given(rt, alloc, options, given, reader, writer),
    }
}
