//! A text in pieces, written with few calls and without allocation.

ghost use Rattle.std.specs.Prelude.{◌≡◌, ◌++◌, OnOk, OnErr};
ghost use Rattle.tl_device.specs.Device.{passage, WroteWhole, WrotePart};
ghost use Rattle.tl_device.specs.Pieces.{pieces_text};
ghost use Rattle.tl_device.specs.Inner.Sending.{PutSome};

use crate::counted::{Counted, WriteFault, write_whole};
use arrayvec::ArrayVec;
use std::io::Write;

// The number of bytes that are kept before they are written.
const ROOM: usize = 16_384;

// Keeps the bytes if there is room for them. Otherwise writes what is kept, and then keeps or writes the bytes.
fn put<W: Write>(
    writer: &mut Counted<W>,
    kept: &mut ArrayVec<u8, ROOM>,
    bytes: &[u8],
) -> Result<(), WriteFault>
    ensures some { OnOk result (PutSome
        (passage W.contents writer.old writer.new) kept.old.items kept.new.items bytes.now) }
    ensures part { OnErr result
        (WrotePart (passage W.contents writer.old writer.new) (kept.old.items ++ bytes.now)) }
{
    if kept.try_extend_from_slice(bytes).is_ok() {
        return Ok(());
    }
    write_whole(writer, kept.as_slice())?;
    kept.clear();
    if kept.try_extend_from_slice(bytes).is_ok() {
        return Ok(());
    }
    write_whole(writer, bytes)
}

/// Writes the pieces, one after another, in one write if they fit into a buffer of 16,384 bytes on the stack. It
/// allocates nothing. It fails if a write fails or takes no byte; then some of the first bytes are written.
pub fn write_pieces<W: Write>(writer: &mut Counted<W>, pieces: &[&[u8]]) -> Result<(), WriteFault>
    ensures whole { OnOk result (WroteWhole
        (passage W.contents writer.old writer.new) (pieces_text (λ p. p.now) pieces.now)) }
    ensures part { OnErr result (WrotePart
        (passage W.contents writer.old writer.new) (pieces_text (λ p. p.now) pieces.now)) }
{
    let mut kept = ArrayVec::new();
    for piece in pieces {
        put(writer, &mut kept, piece)?;
    }
    write_whole(writer, kept.as_slice())
}
