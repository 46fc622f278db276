//! Reading a note, before any signature is verified.

ghost use Rattle.std.specs.Prelude.{◌≡◌, ◌↔◌, IsTrue, IfOk, IsUtf8, MatchOption};
ghost use Rattle.tl_note.specs.Note.{IsNoteByte, IsNoteText, HasNoNote};
ghost use Rattle.tl_note.specs.Inner.Reading.{AreSignatureLines, CutsLine, CutsText, HasSignatureLines, HasNoSignatureLines, IsNoFirstLine};
ghost use Rattle.tl_note.specs.View.{ParsesNote, ParsesSignatures};

use crate::fault::NoteFault;
use crate::line::SigView;
use std::alloc::{AllocError, Allocator};

/// The most signature lines of a note (C2SP signed-note, "Format").
pub const MOST_LINES: usize = 100;

/// A note's text, with the newline that ends it, and its signature lines, in order.
#[derive(Debug, Drop)]
#[non_exhaustive]
pub struct NoteView<'m, A: Allocator> {
    pub text: &'m str,
    pub signatures: Vec<SigView<'m>, A>,
}

/// Reads a note: a text that ends with a newline, an empty line, and 1 to 100 signature lines (C2SP signed-note,
/// "Format"). It fails with `Malformed` exactly if the message is no note. It allocates only the lines of a note, so
/// `OutOfMemory` occurs only for a note. The views borrow the message.
pub fn parse_note<A: Allocator + Copy>(
    alloc: A,
    message: &str,
) -> Result<NoteView<'_, A>, NoteFault>
    ensures { ParsesNote message.now result }
{
    let Some((text, lines)) = cut_text(message) else {
        return Err(NoteFault::Malformed);
    };
    if !is_note_text(text) {
        return Err(NoteFault::Malformed);
    }
    let Some(count) = count_lines(lines) else {
        return Err(NoteFault::Malformed);
    };
    let signatures = read_lines(alloc, lines, count)?;
    Ok(NoteView { text, signatures })
}

/// Reads signature lines alone: at most 100 of them and nothing else, as a witness returns them (C2SP signed-note,
/// "Format"; C2SP tlog-witness, "add-checkpoint"). It fails with `Malformed` exactly if the text is something else,
/// and allocates nothing if it is empty. The views borrow the text.
pub fn parse_signatures<A: Allocator>(
    alloc: A,
    text: &str,
) -> Result<Vec<SigView<'_>, A>, NoteFault>
    ensures { ParsesSignatures text.now result }
{
    if text.is_empty() {
        return Ok(Vec::new(alloc));
    }
    let Some(count) = count_lines(text) else {
        return Err(NoteFault::Malformed);
    };
    let lines = read_lines(alloc, text, count)?;
    Ok(lines)
}

// Reports whether a note may contain this byte: it is a newline, or at least 0x20.
fn is_note_byte(byte: u8) -> bool
    ensures { IsTrue result ↔ IsNoteByte byte }
{
    byte >= 0x20 || byte == b'\n'
}

/// Reports whether a text can be signed: it ends with a newline, and has no other character below 0x20.
pub(crate) fn is_note_text(text: &str) -> bool
    ensures { IsTrue result ↔ IsNoteText text.now }
{
    text.ends_with('\n') && text.bytes().all(|byte| is_note_byte(byte))
}

// Returns the text, and what follows the empty line. The message is cut at the last place with two newlines in a row.
fn cut_text(message: &str) -> Option<(&str, &str)>
    ensures { MatchOption result (HasNoNote message.now)
        (λ parts. CutsText message.now parts.0.now parts.1.now) }
{
    let Some((front, lines)) = message.rsplit_once("\n\n") else {
        return None;
    };
    Some((&message[..front.len() + 1], lines))
}

// Returns the first signature line of a text, and what follows it.
fn cut_line(text: &str) -> Option<(SigView<'_>, &str)>
    ensures { MatchOption result (IsNoFirstLine text.now)
        (λ parts. CutsLine text.now parts.0 parts.1.now × IsUtf8 parts.1.now) }
{
    let Some((words, rest)) = text.split_once('\n') else {
        return None;
    };
    let Some(line) = SigView::read(words) else {
        return None;
    };
    Some((line, rest))
}

// Returns the number of lines of a text, or `None` if it isn't 1 to 100 signature lines and nothing else.
fn count_lines(text: &str) -> Option<usize>
    ensures { MatchOption result (HasNoSignatureLines text.now) (HasSignatureLines text.now) }
{
    let mut count = 0;
    let mut left = text;
    while !left.is_empty() {
        if count == MOST_LINES {
            return None;
        }
        let Some((_, rest)) = cut_line(left) else {
            return None;
        };
        count += 1;
        left = rest;
    }
    if count == 0 {
        return None;
    }
    Some(count)
}

// Returns the lines of a text that has this many.
fn read_lines<A: Allocator>(
    alloc: A,
    text: &str,
    count: usize,
) -> Result<Vec<SigView<'_>, A>, AllocError>
    requires { HasSignatureLines text.now count }
    ensures { IfOk result (λ lines. AreSignatureLines text.now lines.items) }
{
    let mut lines = Vec::with_capacity(alloc, count)?;
    let mut left = text;
    while let Some((line, rest)) = cut_line(left) {
        lines.push(line)?;
        left = rest;
    }
    Ok(lines)
}
