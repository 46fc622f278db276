//! The command `check --fork`: whether a text is evidence that a log forked.

ghost use Rattle.std.specs.Prelude.{◌≡◌, ◌<◌, ◌∷◌, ◌↔◌, ◌++◌, [], IfOk, IsTrue, MatchOption, OnErr, codes, length, map, string_bytes};
ghost use Rattle.tl_device.specs.Device.{passage};
ghost use Rattle.tl_key.specs.KeyText.{IsVerifierText};
ghost use Rattle.tl_key.specs.NoteKey.{PublicKey, note_kind, verifier_key};
ghost use Rattle.tl_note.specs.Key.{IsKeyName};
ghost use Rattle.tl_text.specs.Text.{line};
ghost use Rattle.tl_run.specs.Run.{Runs};
ghost use Rattle.tl_fork.specs.Evidence.{IsEvidence};
ghost use Rattle.tl_evidence.specs.ForkCommand.{ForkComes, RunsFork};

use crate::evidence::is_evidence;
use std::alloc::{AllocError, Global};
use std::io::{Read, Write};
use tl_command::lines_of;
use tl_device::Counted;
use tl_note::Verifier;
use tl_run::{MOST_INPUT, RunFault, print_text, read_input, read_log_key};

// Reports whether a text is evidence that the log of this name, which signs by these keys, forked.
fn accuses(
    alloc: Global,
    text: &[u8],
    verifiers: &[Box<dyn Verifier>],
    name: &str,
) -> Result<bool, AllocError>
    requires { IsKeyName name.now }
    ensures { IfOk result (λ shown. IsTrue shown
        ↔ IsEvidence (map (λ v. key v) verifiers.now) name.now text.now) }
{
    match lines_of(alloc, text) {
        Ok(Some(lines)) => is_evidence(alloc, lines.as_slice(), verifiers, name),
        Ok(None) => Ok(false),
        Err(fault) => Err(fault),
    }
}

// Returns the line that says that a log of this name forked.
fn fork_line(alloc: Global, name: &str) -> Result<String, AllocError>
    ensures { IfOk result (λ text. string_bytes text ≡ line (codes "fork of " ++ name.now)) }
{
    let mut text = String::from_str(alloc, "fork of ")?;
    text.push_str(name)?;
    text.push_str("\n")?;
    Ok(text)
}

// Returns the line that says that the log forked, if the input is evidence of that.
fn fork_of(
    alloc: Global,
    input: &[u8],
    verifiers: &[Box<dyn Verifier>],
    name: &str,
) -> Result<Option<String>, AllocError>
    requires { IsKeyName name.now }
    ensures answer { IfOk result (λ found. MatchOption found
        (IsEvidence (map (λ v. key v) verifiers.now) name.now input.now → ⊥)
        (λ text. IsEvidence (map (λ v. key v) verifiers.now) name.now input.now
        × (string_bytes text ≡ line (codes "fork of " ++ name.now)))) }
    ensures memory { OnErr result (0 < length input.now) }
{
    if input.is_empty() {
        return Ok(None);
    }
    if accuses(alloc, input, verifiers, name)? {
        return Ok(Some(fork_line(alloc, name)?));
    }
    Ok(None)
}

// Reads the whole input, and prints whether it is evidence against the log.
fn check_under<R: Read, W: Write>(
    alloc: Global,
    verifiers: &[Box<dyn Verifier>],
    name: &str,
    reader: &mut Counted<R>,
    writer: &mut Counted<W>,
) -> Result<(), RunFault>
    requires { IsKeyName name.now }
    ensures { Runs (ForkComes (map (λ v. key v) verifiers.now) name.now)
        (passage R.remaining reader.old reader.new)
        (passage W.contents writer.old writer.new) result }
{
    let input = read_input(alloc, reader, MOST_INPUT)?;
    let found = match fork_of(alloc, input.as_slice(), verifiers, name) {
        Ok(found) => found,
        Err(_) => return Err(RunFault::OutOfMemory),
    };
    match found {
        Some(text) => match print_text(writer, text.as_bytes()) {
            Ok(()) => Ok(()),
            Err(_) => Err(RunFault::Write),
        },
        None => match print_text(writer, b"refused\n") {
            Ok(()) => Err(RunFault::Refused),
            Err(_) => Err(RunFault::Write),
        },
    }
}

// Reads the whole input, and prints whether it is evidence against the log. The one verifier has the key with this
// text.
fn check_by<R: Read, W: Write>(
    alloc: Global,
    text: &str,
    verifiers: &[Box<dyn Verifier>],
    name: &str,
    reader: &mut Counted<R>,
    writer: &mut Counted<W>,
) -> Result<(), RunFault>
    requires { (k : PublicKey) × IsVerifierText note_kind text.now k × (name.now ≡ k.name)
        × (map (λ v. key v) verifiers.now ≡ verifier_key k ∷ []) }
    ensures { RunsFork text.now (passage R.remaining reader.old reader.new)
        (passage W.contents writer.old writer.new) result }
{
    check_under(alloc, verifiers, name, reader, writer)
}

/// Reads the whole input, and prints `fork of NAME` if it is evidence that the log with this verifier key forked: two
/// of its checkpoints, and, if their sizes differ, the text of a consistency proof that leads to the larger tree from
/// a tree of the smaller one's size, but with another root (RFC 6962, section 2.1.2). For any other input it prints
/// `refused`, and returns `Refused`. `BadKey`: the text isn't a verifier key; nothing was read.
pub fn run_check_fork<R: Read, W: Write>(
    alloc: Global,
    text: &str,
    reader: &mut Counted<R>,
    writer: &mut Counted<W>,
) -> Result<(), RunFault>
    ensures { RunsFork text.now (passage R.remaining reader.old reader.new)
        (passage W.contents writer.old writer.new) result }
{
    let key = read_log_key(alloc, text)?;
    let name = String::from_str(alloc, key.name())?;
    let verifier: Box<dyn Verifier> = Box::new(alloc, key)?;
    check_by(alloc, text, &[verifier], name.as_str(), reader, writer)
}
