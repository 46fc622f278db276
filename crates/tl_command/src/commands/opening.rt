//! The command `open` prints what a key signed of a note.

ghost use Rattle.std.specs.Prelude.{◌≡◌, ◌∷◌, [], map, vec_items};
ghost use Rattle.tl_run.specs.Run.{Runs};
ghost use Rattle.tl_device.specs.Device.{passage};
ghost use Rattle.tl_key.specs.NoteKey.{PublicKey, cosignature_kind, note_kind, verifier_key};
ghost use Rattle.tl_key.specs.KeyText.{IsVerifierText};
ghost use Rattle.tl_command.specs.Open.{OpenComes, OpensSigned, RunsOpen, after_note};

use crate::commands::cosigned::{open_cosigned, read_cosigner};
use std::alloc::Global;
use std::io::{Read, Write};
use std::str;
use tl_device::Counted;
use tl_note::{NoteFault, Verifier, open_note};
use tl_run::{MOST_INPUT, RunFault, print_text, read_input, read_log_key};

/// Returns the fault of a command for a note that doesn't open: `WrongSignature` has the index of the line, counted
/// from 0, and `Malformed` stands for bytes that are no note.
pub fn note_refusal(fault: NoteFault) -> RunFault
    ensures { result ≡ after_note fault }
{
    match fault {
        NoteFault::Ambiguous(place) | NoteFault::InvalidSignature(place) => {
            RunFault::WrongSignature(place as u64)
        }
        NoteFault::Unverified => RunFault::Unverified,
        NoteFault::OutOfMemory => RunFault::OutOfMemory,
        _ => RunFault::Malformed,
    }
}

// Reads a note and prints its text, if it opens under these keys.
fn open_under<R: Read, W: Write>(
    alloc: Global,
    verifiers: &[Box<dyn Verifier>],
    reader: &mut Counted<R>,
    writer: &mut Counted<W>,
) -> Result<(), RunFault>
    ensures { Runs (OpenComes (map (λ verifier. key verifier) verifiers.now)) (passage
        R.remaining reader.old reader.new) (passage W.contents writer.old writer.new) result }
{
    let input = read_input(alloc, reader, MOST_INPUT)?;
    let Ok(message) = str::from_utf8(input.as_slice()) else {
        return Err(RunFault::Malformed);
    };
    match open_note(alloc, message, verifiers) {
        Ok(opened) => print_text(writer, opened.note.text.as_bytes()),
        Err(fault) => Err(note_refusal(fault)),
    }
}

// Reads a note and prints its text, if it opens under the one key whose text this is.
fn open_by<R: Read, W: Write>(
    alloc: Global,
    text: &str,
    verifiers: &[Box<dyn Verifier>],
    reader: &mut Counted<R>,
    writer: &mut Counted<W>,
) -> Result<(), RunFault>
    requires { (k : PublicKey) × IsVerifierText note_kind text.now k
        × (map (λ verifier. key verifier) verifiers.now ≡ verifier_key k ∷ []) }
    ensures { OpensSigned text.now (passage R.remaining reader.old reader.new)
        (passage W.contents writer.old writer.new) result }
{
    open_under(alloc, verifiers, reader, writer)
}

// Reads a note and prints its text, if it opens under the log's key whose text `text` is.
fn open_signed<R: Read, W: Write>(
    alloc: Global,
    text: &str,
    reader: &mut Counted<R>,
    writer: &mut Counted<W>,
) -> Result<(), RunFault>
    ensures { OpensSigned text.now (passage R.remaining reader.old reader.new)
        (passage W.contents writer.old writer.new) result }
{
    let key = read_log_key(alloc, text)?;
    let verifier: Box<dyn Verifier> = Box::new(alloc, key)?;
    open_by(alloc, text, &[verifier], reader, writer)
}

// Reads a note and prints what the witness's key whose text `text` is signed of it.
fn open_by_witness<R: Read, W: Write>(
    alloc: Global,
    text: &str,
    verifier: &dyn Verifier,
    reader: &mut Counted<R>,
    writer: &mut Counted<W>,
) -> Result<(), RunFault>
    requires { (k : PublicKey) × IsVerifierText cosignature_kind text.now k
        × (key verifier.now ≡ verifier_key k) }
    ensures { RunsOpen text.now (passage R.remaining reader.old reader.new)
        (passage W.contents writer.old writer.new) result }
{
    open_cosigned(alloc, verifier, reader, writer)
}

/// Reads the whole input, a note, and prints what the key whose text `text` is signed of it: under a log's key the
/// note's text (C2SP signed-note, "Verification"), under a witness's key the message of its cosignature, which has
/// the time (C2SP tlog-cosignature, "Format"). The key's first line counts. It fails with `WrongSignature` of that
/// line if it isn't valid, with `Unverified` if no line is the key's, with `Malformed` if the input is no note, and
/// with `BadKey`, before it reads, if the text is no key's.
pub fn run_open<R: Read, W: Write>(
    alloc: Global,
    text: &str,
    reader: &mut Counted<R>,
    writer: &mut Counted<W>,
) -> Result<(), RunFault>
    ensures { RunsOpen text.now (passage R.remaining reader.old reader.new)
        (passage W.contents writer.old writer.new) result }
{
    let found = match read_cosigner(alloc, text) {
        Ok(found) => found,
        Err(fault) => return Err(fault),
    };
    match found {
        Some(key) => open_by_witness(alloc, text, &key, reader, writer),
        None => open_signed(alloc, text, reader, writer),
    }
}
