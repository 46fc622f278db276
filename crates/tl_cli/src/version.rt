//! The version of the program.

ghost use Rattle.tl_device.specs.Device.{passage};
ghost use Rattle.tl_cli.specs.Version.{PrintsText, PrintsVersion};

use std::io::Write;
use tl_device::Counted;
use tl_run::{RunFault, print_text};

// The program's version, and the kit that it is proved with. The formats that it reads and writes have versions of
// their own.
const LINE: &str = "tlog 0.1.0 (proved with rattle-kit-13 logic dac8208d650f15bf)\n";

/// Prints a text.
pub(crate) fn print_whole<W: Write>(text: &str, writer: &mut Counted<W>) -> Result<(), RunFault>
    ensures { PrintsText text.now (passage W.contents writer.old writer.new) result }
{
    match print_text(writer, text.as_bytes()) {
        Ok(()) => Ok(()),
        Err(_) => Err(RunFault::Write),
    }
}

/// Prints the program's version and the kit that it is proved with, in a line.
pub(crate) fn print_version<W: Write>(writer: &mut Counted<W>) -> Result<(), RunFault>
    ensures { PrintsVersion (passage W.contents writer.old writer.new) result }
{
    print_whole(LINE, writer)
}
