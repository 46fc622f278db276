//! Rows of checkpoints, and of cosignatures of witnesses.

use crate::words::{Shown, Told, Words, put, put_hash, unknown};
use std::alloc::Global;
use tl_checkpoint::{
    Checkpoint, check_cosignature, cosign_line, cosign_message, cosignatures_by,
    have_distinct_names, parse, write,
};
use tl_note::{NoteView, Signer, Verifier, parse_note};
use tl_testing::LengthKey;

// The identifier of each witness's key.
const WITNESS_ID: u32 = 0x0A0B0C0D;

/// Writes its parts, and its text again.
impl Shown for Checkpoint<Global> {
    fn show(&self, out: &mut String) -> Told {
        write!(out, "{:?} {} ", self.origin, self.size)?;
        put_hash(out, self.root)?;
        out.push(' ')?;
        put(out, write(*out.allocator(), self))
    }
}

// Writes the text of a checkpoint of these parts, without an extension line.
fn of_parts(alloc: Global, words: &mut Words<'_>, out: &mut String) -> Told {
    let checkpoint = Checkpoint {
        origin: String::from_str(alloc, words.next())?,
        size: words.number(),
        root: words.hash(),
        extensions: Vec::new(alloc),
    };
    put(out, write(alloc, &checkpoint))
}

// Writes what a witness signs of a text at a time.
fn message(alloc: Global, time: u64, text: &str, out: &mut String) -> Told {
    let message = cosign_message(alloc, time, text)?;
    write!(out, "{} {message:?}", message.len())
}

// Writes the line of a witness of this name.
fn cosigned(alloc: Global, words: &mut Words<'_>, text: &str, out: &mut String) -> Told {
    let time = words.number();
    let key = LengthKey::new(alloc, words.next(), WITNESS_ID)?;
    let key: Box<dyn Signer> = Box::new(alloc, key)?;
    put(out, cosign_line(alloc, alloc, text, time, &*key))
}

// Writes the time of the first line of a note, if it is the cosignature of the note's text by a witness.
fn check(alloc: Global, view: &NoteView<'_, Global>, key: &dyn Verifier, out: &mut String) -> Told {
    match view.signatures.first() {
        Some(line) => {
            let time = check_cosignature(alloc, view.text, line, key)?;
            write!(out, "{time:?}")
        }
        None => unknown(out),
    }
}

// Writes that time for a witness of this name.
fn checked(alloc: Global, name: &str, note: &str, out: &mut String) -> Told {
    let key = LengthKey::new(alloc, name, WITNESS_ID)?;
    let key: Box<dyn Verifier> = Box::new(alloc, key)?;
    match parse_note(alloc, note) {
        Ok(view) => check(alloc, &view, &*key, out),
        Err(fault) => write!(out, "{fault:?}"),
    }
}

// Writes which of these witnesses cosigned a note's text.
fn first(
    alloc: Global,
    view: &NoteView<'_, Global>,
    witnesses: &[Box<dyn Verifier>],
    out: &mut String,
) -> Told {
    if !have_distinct_names(witnesses) {
        return out.push_str("not apart");
    }
    let found = cosignatures_by(alloc, view.text, view.signatures.as_slice(), witnesses)?;
    write!(out, "{found:?}")
}

// Writes which of the witnesses of these names did.
fn first_of(alloc: Global, names: &str, note: &str, out: &mut String) -> Told {
    let mut witnesses: Vec<Box<dyn Verifier>> = Vec::new(alloc);
    for name in names.split(',') {
        let key = LengthKey::new(alloc, name, WITNESS_ID)?;
        witnesses.push(Box::new(alloc, key)?)?;
    }
    match parse_note(alloc, note) {
        Ok(view) => first(alloc, &view, witnesses.as_slice(), out),
        Err(fault) => write!(out, "{fault:?}"),
    }
}

/// Writes the answer of a call.
pub(crate) fn answer(alloc: Global, words: &mut Words<'_>, text: &str, out: &mut String) -> Told {
    match words.next() {
        "parse" => put(out, parse(alloc, text)),
        "write" => of_parts(alloc, words, out),
        "message" => message(alloc, words.number(), text, out),
        "cosign" => cosigned(alloc, words, text, out),
        "check" => checked(alloc, words.next(), text, out),
        _ => first_of(alloc, words.next(), text, out),
    }
}
