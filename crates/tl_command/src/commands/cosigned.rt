//! The command `open` under the key of a witness prints the message that the witness signed of a note, which has the
//! time.

ghost use Rattle.std.specs.Prelude.{◌≡◌, ◌↔◌, ◌+◌, ◌≤◌, IfErr, IfOk, IsTrue, MatchOption, length};
ghost use Rattle.tl_checkpoint.specs.Cosignature.{IsOfKey};
ghost use Rattle.tl_command.specs.Inner.Cosigned.{Finds, GivesMessage};
ghost use Rattle.tl_command.specs.OpenCosigned.{CosignedComes};
ghost use Rattle.tl_run.specs.Run.{Runs};
ghost use Rattle.tl_device.specs.Device.{passage};
ghost use Rattle.tl_key.specs.KeyText.{IsVerifierText};
ghost use Rattle.tl_key.specs.NoteKey.{PublicKey, cosignature_kind};
ghost use Rattle.tl_key.specs.Reading.{IsNoVerifierText};

use crate::commands::opening::note_refusal;
use std::alloc::{AllocError, Global};
use std::io::{Read, Write};
use std::str;
use tl_checkpoint::{check_cosignature, cosign_message};
use tl_device::Counted;
use tl_key::{CosignerVerifier, KeyFault, read_verifier_key};
use tl_note::{SigView, Verifier, parse_note};
use tl_run::{MOST_INPUT, RunFault, print_text, read_input};

// What the signature lines of a note are to a key.
#[derive(Clone, Copy)]
enum Found {
    // The first line of the key is its cosignature, at this time.
    Time(u64),
    // The first line of the key, at this index, is no cosignature of the text.
    Wrong(u64),
    // No line is of the key.
    Nothing,
}

// Reports whether a line is of a key, by its name and identifier.
fn is_of(line: &SigView<'_>, verifier: &dyn Verifier) -> bool
    ensures { IsTrue result ↔ IsOfKey (key verifier.now) line.now }
{
    line.name() == verifier.name() && line.key_id() == verifier.key_id()
}

// Returns what the key's first line among these is to the text. The first of the lines has the index `from`.
fn find(
    alloc: Global,
    text: &str,
    lines: &[SigView<'_>],
    from: u64,
    verifier: &dyn Verifier,
) -> Result<Found, AllocError>
    requires { from + length lines.now ≤ 100 }
    ensures { IfOk result (Finds text.now (key verifier.now) lines.now from) }
{
    let [first, rest @ ..] = lines else {
        return Ok(Found::Nothing);
    };
    if !is_of(first, verifier) {
        return find(alloc, text, rest, from + 1, verifier);
    }
    match check_cosignature(alloc, text, first, verifier)? {
        Some(time) => Ok(Found::Time(time)),
        None => Ok(Found::Wrong(from)),
    }
}

// Returns the message that the key signed of a note.
fn message_in(alloc: Global, note: &str, verifier: &dyn Verifier) -> Result<String, RunFault>
    ensures { GivesMessage (key verifier.now) note.now result }
{
    let view = match parse_note(alloc, note) {
        Ok(view) => view,
        Err(fault) => return Err(note_refusal(fault)),
    };
    let found = find(alloc, view.text, view.signatures.as_slice(), 0, verifier)?;
    match found {
        Found::Time(time) => {
            let message = cosign_message(alloc, time, view.text)?;
            Ok(message)
        }
        Found::Wrong(place) => Err(RunFault::WrongSignature(place)),
        Found::Nothing => Err(RunFault::Unverified),
    }
}

/// Reads a note and prints the message that the key of a witness signed of it.
pub(crate) fn open_cosigned<R: Read, W: Write>(
    alloc: Global,
    verifier: &dyn Verifier,
    reader: &mut Counted<R>,
    writer: &mut Counted<W>,
) -> Result<(), RunFault>
    ensures { Runs (CosignedComes (key verifier.now)) (passage R.remaining reader.old reader.new)
        (passage W.contents writer.old writer.new) result }
{
    let input = read_input(alloc, reader, MOST_INPUT)?;
    let Ok(note) = str::from_utf8(input.as_slice()) else {
        return Err(RunFault::Malformed);
    };
    match message_in(alloc, note, verifier) {
        Ok(message) => print_text(writer, message.as_bytes()),
        Err(fault) => Err(fault),
    }
}

/// Returns the key of a witness whose text this is, or None if it is no such text (C2SP signed-note, "Verifier
/// keys"). It fails only if allocation fails.
pub(crate) fn read_cosigner(
    alloc: Global,
    text: &str,
) -> Result<Option<CosignerVerifier<Global>>, RunFault>
    ensures read { IfOk result (λ found. MatchOption found
        (IsNoVerifierText cosignature_kind text.now)
        (λ k. IsVerifierText cosignature_kind text.now k)) }
    ensures refused { IfErr result (λ fault. (fault ≡ RunFault.OutOfMemory)
        × ((k : PublicKey) × IsVerifierText cosignature_kind text.now k)) }
{
    match read_verifier_key(alloc, text) {
        Ok(key) => Ok(Some(key)),
        Err(KeyFault::OutOfMemory) => Err(RunFault::OutOfMemory),
        Err(_) => Ok(None),
    }
}
