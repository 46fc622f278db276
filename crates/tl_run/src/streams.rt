//! Reads the whole input of a command, and prints a text.

ghost use Rattle.std.specs.Prelude.{◌≡◌, IfErr, OnErr, OnOk};
ghost use Rattle.tl_run.specs.Run.{ReadsInput};
ghost use Rattle.tl_device.specs.Device.{WrotePart, WroteWhole, passage};

use crate::fault::RunFault;
use std::alloc::Allocator;
use std::io::{Read, Write};
use tl_device::{Counted, InputFault, read_whole, write_whole};

/// The most bytes that a command reads, 64 MiB.
pub const MOST_INPUT: u64 = 67_108_864;

/// Returns all bytes that the reader gives, to its end. It fails with `TooLarge` if there are more than `most`, with
/// `Read` if a read fails, and with `OutOfMemory` if allocation fails.
pub fn read_input<A: Allocator, R: Read>(
    alloc: A,
    reader: &mut Counted<R>,
    most: u64,
) -> Result<Vec<u8, A>, RunFault>
    ensures { ReadsInput most (passage R.remaining reader.old reader.new) result }
{
    match read_whole(alloc, reader, most) {
        Ok(input) => Ok(input),
        Err(InputFault::Read) => Err(RunFault::Read),
        Err(InputFault::TooLarge) => Err(RunFault::TooLarge),
        Err(InputFault::OutOfMemory) => Err(RunFault::OutOfMemory),
    }
}

/// Prints the whole text. It fails with `Write` if a write fails or takes no byte; a prefix of the text was written
/// then.
pub fn print_text<W: Write>(writer: &mut Counted<W>, text: &[u8]) -> Result<(), RunFault>
    ensures whole { OnOk result (WroteWhole (passage W.contents writer.old writer.new) text.now) }
    ensures fault { IfErr result (λ fault. fault ≡ RunFault.Write) }
    ensures part { OnErr result (WrotePart (passage W.contents writer.old writer.new) text.now) }
{
    match write_whole(writer, text) {
        Ok(()) => Ok(()),
        Err(_) => Err(RunFault::Write),
    }
}
