//! Opening a note: reading it, and verifying the lines that count.

ghost use Rattle.std.specs.Prelude.{◌≡◌, ◌<◌, length, map, slice_get, Some};
ghost use Rattle.tl_note.specs.Note.{Signature};
ghost use Rattle.std.specs.List.{list_any};
ghost use Rattle.tl_note.specs.Inner.Judging.{JudgesLine, SortsLines};
ghost use Rattle.tl_note.specs.Open.{is_same_key};
ghost use Rattle.tl_note.specs.OpenNote.{OpensNote, VerifiesNote};

use crate::fault::NoteFault;
use crate::keys::Verifier;
use crate::line::SigView;
use crate::parse::{NoteView, parse_note};
use crate::verify::{is_known, verify_line};
use std::alloc::Allocator;

/// An opened note. `verified` has the indexes of the lines that count, all valid: the first of each key that a
/// verifier has. `unverified` has those of all lines whose keys no verifier has. A later line of a known key is in
/// neither. Indexes are counted from 0, and in order.
#[derive(Debug, Drop)]
#[non_exhaustive]
pub struct OpenedNote<'m, A: Allocator> {
    pub note: NoteView<'m, A>,
    pub verified: Vec<usize, A>,
    pub unverified: Vec<usize, A>,
}

// The standing of a line.
#[derive(Clone, Copy)]
enum Standing {
    // No verifier has its key.
    Unknown,
    // A verifier has its key, and an earlier line has the same key.
    Repeated,
    // It counts, and its signature is valid.
    Verified,
}

/// Reads a note, and verifies it as `verify_note` does. It is read as a whole first, and fails with `Malformed`
/// exactly if it is no note. The faults of `verify_note` occur only for a note.
pub fn open_note<'m, A: Allocator + Copy>(
    alloc: A,
    message: &'m str,
    verifiers: &[Box<dyn Verifier>],
) -> Result<OpenedNote<'m, A>, NoteFault>
    ensures { OpensNote message.now (map (λ verifier. key verifier) verifiers.now) result }
{
    let note = parse_note(alloc, message)?;
    verify_note(alloc, note, verifiers)
}

/// Verifies the signatures of a note that was read (C2SP signed-note, "Verification"). A line counts if a verifier
/// has its key and no earlier line has it. The note opens if some line counts, and each line that counts has one
/// verifier, which accepts its signature.
///
/// The first line that counts and has a fault decides: `Ambiguous` if two verifiers have its key, `InvalidSignature`
/// if its signature isn't valid. `Unverified`: no line counts. Nothing is allocated if there is no line, or two
/// verifiers have the first line's key.
pub fn verify_note<'m, A: Allocator + Copy>(
    alloc: A,
    note: NoteView<'m, A>,
    verifiers: &[Box<dyn Verifier>],
) -> Result<OpenedNote<'m, A>, NoteFault>
    ensures { VerifiesNote (map (λ verifier. key verifier) verifiers.now)
        note.entry.text.now note.entry.signatures.items result }
{
    let (verified, unverified) = sort_lines(
        alloc,
        note.text,
        note.signatures.as_slice(),
        verifiers,
    )?;
    if verified.is_empty() {
        return Err(NoteFault::Unverified);
    }
    Ok(OpenedNote {
        note,
        verified,
        unverified,
    })
}

// Returns the indexes of the lines that count, all valid, and of those whose key no verifier has.
fn sort_lines<A: Allocator + Copy>(
    alloc: A,
    text: &str,
    lines: &[SigView<'_>],
    verifiers: &[Box<dyn Verifier>],
) -> Result<(Vec<usize, A>, Vec<usize, A>), NoteFault>
    ensures { SortsLines (map (λ verifier. key verifier) verifiers.now) text.now lines.now result }
{
    let mut verified = Vec::new(alloc);
    let mut unverified = Vec::new(alloc);
    for place in 0..lines.len() {
        match judge_line(alloc, text, lines, place, verifiers)? {
            Standing::Unknown => unverified.push(place)?,
            Standing::Repeated => {}
            Standing::Verified => verified.push(place)?,
        }
    }
    Ok((verified, unverified))
}

// Returns the standing of the line at this index.
fn judge_line<A: Allocator>(
    alloc: A,
    text: &str,
    lines: &[SigView<'_>],
    place: usize,
    verifiers: &[Box<dyn Verifier>],
) -> Result<Standing, NoteFault>
    requires { place < length lines.now }
    ensures { (line : Signature) × (slice_get lines.now place ≡ Some line) × JudgesLine
        (map (λ verifier. key verifier) verifiers.now) text.now lines.now (place, line) result }
{
    let line = &lines[place];
    if !is_known(verifiers, line) {
        return Ok(Standing::Unknown);
    }
    if is_repeated(&lines[..place], line) {
        return Ok(Standing::Repeated);
    }
    verify_line(alloc, text, line, place, verifiers)?;
    Ok(Standing::Verified)
}

// Reports whether an earlier line has the line's key.
fn is_repeated(earlier: &[SigView<'_>], line: &SigView<'_>) -> bool
    ensures { result ≡ list_any (is_same_key line.now) earlier.now }
{
    match earlier {
        [] => false,
        [first, rest @ ..] => names_same_key(line, first) || is_repeated(rest, line),
    }
}

// Reports whether both lines have one key.
fn names_same_key(line: &SigView<'_>, other: &SigView<'_>) -> bool
    ensures { result ≡ is_same_key line.now other.now }
{
    line.name() == other.name() && line.key_id() == other.key_id()
}
