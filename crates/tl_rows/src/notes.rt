//! Rows of notes: read, opened and signed.

use crate::signers::Reluctant;
use crate::words::{Shown, Told, Words, bytes_of, put, put_hex};
use std::alloc::Global;
use tl_key::{KeyFault, NoteSigner, NoteVerifier, read_signer_key, read_verifier_key};
use tl_note::{
    NoteFault, NoteView, OpenedNote, SigView, Signer, Verifier, is_key_name, open_note, parse_note,
    parse_signatures, sign_note, write_signature_line,
};
use tl_testing::LengthKey;

// The identifier of each length key.
const LENGTH_ID: u32 = 0x01020304;

// Writes a signature line: its name, its identifier, its base64 and its signature.
fn put_line(out: &mut String, line: &SigView<'_>) -> Told {
    let signature = line.decode(*out.allocator())?;
    let (name, id, base64) = (line.name(), line.key_id(), line.base64());
    write!(out, "\n{name} {id:08x} {base64} ")?;
    put_hex(out, signature.as_slice())
}

/// Writes how many signature lines there are, and each.
impl Shown for Vec<SigView<'_>> {
    fn show(&self, out: &mut String) -> Told {
        write!(out, "{} lines", self.len())?;
        for line in self {
            put_line(out, line)?;
        }
        Ok(())
    }
}

/// Writes the text and the lines.
impl Shown for NoteView<'_, Global> {
    fn show(&self, out: &mut String) -> Told {
        write!(out, "{:?} ", self.text)?;
        self.signatures.show(out)
    }
}

/// Writes the indexes of the lines that are verified and of those that aren't, and the text.
impl Shown for OpenedNote<'_, Global> {
    fn show(&self, out: &mut String) -> Told {
        let text = self.note.text;
        write!(out, "{:?} {:?} {text:?}", self.verified, self.unverified)
    }
}

// Opens a note by length keys.
fn open_length(alloc: Global, note: &str, names: &str, out: &mut String) -> Told {
    let mut verifiers: Vec<Box<dyn Verifier>> = Vec::new(alloc);
    for name in names.split(',') {
        let key = LengthKey::new(alloc, name, LENGTH_ID)?;
        verifiers.push(Box::new(alloc, key)?)?;
    }
    put(out, open_note(alloc, note, verifiers.as_slice()))
}

// Opens a note by the key with this text.
fn open_keyed(alloc: Global, note: &str, text: &str, out: &mut String) -> Told {
    let key: Result<NoteVerifier<Global>, KeyFault> = read_verifier_key(alloc, text);
    match key {
        Ok(key) => {
            let verifier: Box<dyn Verifier> = Box::new(alloc, key)?;
            put(out, open_note(alloc, note, &[verifier]))
        }
        Err(fault) => write!(out, "{fault:?}"),
    }
}

// Writes the note that length keys make of a text, among them keys that give no signature.
fn sign_length(alloc: Global, text: &str, names: &str, out: &mut String) -> Told {
    if names.is_empty() {
        return put(out, sign_note(alloc, alloc, text, &[]));
    }
    let mut signers: Vec<Box<dyn Signer>> = Vec::new(alloc);
    for name in names.split(',') {
        if name == "refuses" || name == "is-silent" {
            signers.push(Box::new(alloc, Reluctant::new(name == "refuses"))?)?;
        } else {
            let key = LengthKey::new(alloc, name, LENGTH_ID)?;
            signers.push(Box::new(alloc, key)?)?;
        }
    }
    put(out, sign_note(alloc, alloc, text, signers.as_slice()))
}

// Writes the note that the key with this text makes of another text.
fn sign_keyed(alloc: Global, text: &str, key: &str, out: &mut String) -> Told {
    let key: Result<NoteSigner<Global>, KeyFault> = read_signer_key(alloc, key);
    match key {
        Ok(key) => {
            let signer: Box<dyn Signer> = Box::new(alloc, key)?;
            put(out, sign_note(alloc, alloc, text, &[signer]))
        }
        Err(fault) => write!(out, "{fault:?}"),
    }
}

// Opens a note by length keys, or by a key with a text.
fn opened(alloc: Global, words: &mut Words<'_>, note: &str, out: &mut String) -> Told {
    if words.next() == "length" {
        open_length(alloc, note, words.left, out)
    } else {
        open_keyed(alloc, note, words.left, out)
    }
}

// Signs a text by length keys, or by a key with a text.
fn signed(alloc: Global, words: &mut Words<'_>, text: &str, out: &mut String) -> Told {
    if words.next() == "length" {
        sign_length(alloc, text, words.left, out)
    } else {
        sign_keyed(alloc, text, words.left, out)
    }
}

// Writes a signature line.
fn line(alloc: Global, words: &mut Words<'_>, out: &mut String) -> Told {
    let name = words.next();
    let id = (words.number() % (1 << 32)) as u32;
    let signature = bytes_of(alloc, words.next())?;
    put(
        out,
        write_signature_line(alloc, name, id, signature.as_slice()),
    )
}

/// Writes the answer of a call.
pub(crate) fn answer(alloc: Global, words: &mut Words<'_>, text: &str, out: &mut String) -> Told {
    match words.next() {
        "parse" => put(out, parse_note(alloc, text)),
        "signatures" => put(out, parse_signatures(alloc, text)),
        "name" => write!(out, "{}", is_key_name(text)),
        "fault" => write!(out, "{}", NoteFault::Sign(words.number() as usize)),
        "line" => line(alloc, words, out),
        "open" => opened(alloc, words, text, out),
        _ => signed(alloc, words, text, out),
    }
}
