//! Signing a note.

ghost use Rattle.std.specs.Prelude.{◌≡◌, ◌<◌, IsTrue, IfOk, IsErrOf, MatchOption, All, length, map, string_bytes};
ghost use Rattle.tl_note.specs.Key.{IsKeyName, MayGiveNone};
ghost use Rattle.tl_note.specs.SignNote.{IsFirstBadName, SignsNote};
ghost use Rattle.tl_note.specs.Inner.Signing.{GivesSignature, SignsLine, SignsLines};

use crate::fault::NoteFault;
use crate::keys::{SignFault, Signer, is_key_name};
use crate::line::write_signature_line;
use crate::parse::{MOST_LINES, is_note_text};
use std::alloc::{Allocator, Global};

/// Returns the note of a text, with one signature line for each signer, in order (C2SP signed-note, "Format"). The
/// signers allocate from `global`.
///
/// The faults are checked in this order. `Malformed`: the text can't be signed, or there are no signers or more than
/// 100. `BadName(i)`: signer i is the first whose name is no key's name. `Sign(i)`: signer i refused the text, or
/// gave an empty signature.
pub fn sign_note<A: Allocator + Copy>(
    alloc: A,
    global: Global,
    text: &str,
    signers: &[Box<dyn Signer>],
) -> Result<String<A>, NoteFault>
    ensures { SignsNote text.now (map (λ signer. signing_key signer) signers.now) result }
{
    if !is_note_text(text) || signers.is_empty() || signers.len() > MOST_LINES {
        return Err(NoteFault::Malformed);
    }
    if let Some(place) = first_bad_name(signers) {
        return Err(NoteFault::BadName(place));
    }
    let mut note = String::from_str(alloc, text)?;
    note.push_str("\n")?;
    push_lines(alloc, global, text, signers, &mut note)?;
    Ok(note)
}

/// Returns the signature of a message by one signer, at least one byte. It fails with `Refused` if the signer refuses
/// the message or gives no bytes.
pub fn signature_of(
    global: Global,
    signer: &dyn Signer,
    message: &[u8],
) -> Result<Vec<u8>, SignFault>
    ensures some { IfOk result (λ signature. 0 < length signature.items) }
    ensures given { IfOk result
        (λ signature. IsTrue ((signing_key signer.now).may_give message.now signature.items)) }
    ensures refused { IsErrOf result SignFault.Refused
        → MayGiveNone (signing_key signer.now) message.now }
{
    let signature = match signer.sign(global, message) {
        Ok(signature) => signature,
        Err(fault) => return Err(fault),
    };
    if signature.is_empty() {
        return Err(SignFault::Refused);
    }
    Ok(signature)
}

// Returns the name of a signer's key. This call of an object's method is a function of its own, so that its clause
// speaks of the box.
fn name_of(signer: &Box<dyn Signer>) -> &str
    ensures { result.now ≡ (signing_key signer.now).name }
{
    signer.name()
}

// Returns the identifier of a signer's key.
fn key_id_of(signer: &Box<dyn Signer>) -> u32
    ensures { result ≡ (signing_key signer.now).id }
{
    signer.key_id()
}

/// Returns the index of the first signer whose name is no key's name (C2SP signed-note, "Format"), or `None` if there
/// is no such signer. So a caller can check signers before there is a text.
pub fn first_bad_name(signers: &[Box<dyn Signer>]) -> Option<usize>
    ensures { MatchOption result
        (All (λ k. IsKeyName k.name) (map (λ signer. signing_key signer) signers.now))
        (IsFirstBadName (map (λ signer. signing_key signer) signers.now)) }
{
    for place in 0..signers.len() {
        if !is_key_name(name_of(&signers[place])) {
            return Some(place);
        }
    }
    None
}

// Adds a line for each signer.
fn push_lines<A: Allocator + Copy>(
    alloc: A,
    global: Global,
    text: &str,
    signers: &[Box<dyn Signer>],
    note: &mut String<A>,
) -> Result<(), NoteFault>
    requires { All (λ k. IsKeyName k.name) (map (λ signer. signing_key signer) signers.now) }
    ensures { SignsLines text.now (map (λ signer. signing_key signer) signers.now)
        (string_bytes note.old) (string_bytes note.new) result }
{
    for place in 0..signers.len() {
        push_line(alloc, global, text, place, &signers[place], note)?;
    }
    Ok(())
}

// Adds the line of the signer at this index.
fn push_line<A: Allocator + Copy>(
    alloc: A,
    global: Global,
    text: &str,
    place: usize,
    signer: &Box<dyn Signer>,
    note: &mut String<A>,
) -> Result<(), NoteFault>
    requires { IsKeyName (signing_key signer.now).name }
    ensures { SignsLine text.now
        (signing_key signer.now) place (string_bytes note.old) (string_bytes note.new) result }
{
    let signature = sign_text(global, text, place, signer)?;
    let line = write_signature_line(
        alloc,
        name_of(signer),
        key_id_of(signer),
        signature.as_slice(),
    )?;
    note.push_str(line.as_str())?;
    Ok(())
}

// Returns the signature of the signer at this index.
fn sign_text(
    global: Global,
    text: &str,
    place: usize,
    signer: &Box<dyn Signer>,
) -> Result<Vec<u8>, NoteFault>
    ensures { GivesSignature text.now (signing_key signer.now) place result }
{
    match signature_of(global, &**signer, text.as_bytes()) {
        Ok(signature) => Ok(signature),
        Err(SignFault::Refused) => Err(NoteFault::Sign(place)),
        Err(SignFault::OutOfMemory) => Err(NoteFault::OutOfMemory),
    }
}
