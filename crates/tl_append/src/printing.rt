//! Printing a publication.

ghost use Rattle.std.specs.Prelude.{OnOk};
ghost use Rattle.tl_device.specs.Device.{WroteWhole, passage};
ghost use Rattle.tl_append.specs.Appending.{head_line};

use base64::engine::general_purpose::STANDARD;
use std::alloc::Global;
use std::io::Write;
use tl_device::Counted;
use tl_hash::Hash;
use tl_run::{RunFault, print_text};

/// Prints a line with a log's size and root, the root in base64 after a space.
pub(crate) fn print_head<W: Write>(
    alloc: Global,
    writer: &mut Counted<W>,
    size: u64,
    root: Hash,
) -> Result<(), RunFault>
    ensures { OnOk result
        (WroteWhole (passage W.contents writer.old writer.new) (head_line size root)) }
{
    let root = STANDARD.encode(alloc, root.as_bytes())?;
    let line = format!(in alloc; "{size} {root}\n")?;
    match print_text(writer, line.as_bytes()) {
        Ok(()) => Ok(()),
        Err(fault) => Err(fault),
    }
}
