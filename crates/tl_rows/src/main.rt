//! Runs rows of worked examples over the libraries, as standard input has them, and prints the answer of each call.
//! The gate compares the answers with those that are stored beside.
//!
//! A line `$ family call ..` begins a row and names the call. Each line `< ..` after it is a line of the row's input,
//! a line `<- ..` a piece of it with no newline, and a line `<x ..` bytes of it in hexadecimal. A line `> ..` is a
//! step of a log (`steps`) or of a witness (`witness`). Other lines, and at least one line before the first row, say
//! what the rows are for.
//!
//! If an allocation fails in a row or a step, the line `.. out of memory` is printed, and the row or the step is
//! tried once more. With that line left out, the output is the same as if none had failed.
#![tactic(auto)]

mod audits;
mod calls;
mod checkpoints;
mod closed;
mod edges;
mod equals;
mod gets;
mod keys;
mod lanes;
mod looks;
mod notes;
mod objects;
mod opening;
mod proofs;
mod requests;
mod running;
mod sending;
mod signatures;
mod signers;
mod sources;
mod stores;
mod tiles;
mod trees;
mod witnesses;
mod words;

use crate::words::{NO_MEMORY, Row, Told, Words, bytes_of};
use std::alloc::{AllocError, Global};
use std::sync::Wait;
use std::{io, str};

// More bytes than any row prints, so that no answer is lost for lack of memory.
const ROOM: usize = 65_536;

// Adds what a line of the script holds to the input of a row.
fn add_line(alloc: Global, input: &mut Vec<u8>, line: &str) -> Told {
    if let Some(text) = line.strip_prefix("< ") {
        input.extend_from_slice(text.as_bytes())?;
        return Ok(input.push(b'\n')?);
    }
    if let Some(text) = line.strip_prefix("<- ") {
        return input.extend_from_slice(text.as_bytes());
    }
    match line.strip_prefix("<x ") {
        Some(digits) => input.extend_from_slice(bytes_of(alloc, digits)?.as_slice()),
        None => Ok(()),
    }
}

// Returns the input that the lines of a row hold.
fn input_of(alloc: Global, lines: &str) -> Result<Vec<u8>, AllocError> {
    let mut input = Vec::new(alloc);
    for line in lines.split('\n') {
        add_line(alloc, &mut input, line)?;
    }
    Ok(input)
}

// Returns the steps that the lines of a row hold.
fn steps_of<'a>(alloc: Global, lines: &'a str) -> Result<Vec<&'a str>, AllocError> {
    let mut steps = Vec::new(alloc);
    for line in lines.split('\n') {
        if let Some(step) = line.strip_prefix("> ") {
            steps.push(step)?;
        }
    }
    Ok(steps)
}

// Writes the answer of a call without steps to its input.
fn answer(alloc: Global, words: &mut Words<'_>, input: &[u8], out: &mut String) -> Told {
    let text = str::from_utf8(input).unwrap_or("");
    match words.next() {
        "audit" => audits::answer(alloc, words, text, out),
        "checkpoint" => checkpoints::answer(alloc, words, text, out),
        "ed25519" => signatures::answer(alloc, words, out),
        "edge" => edges::answer(alloc, words, out),
        "equal" => equals::answer(alloc, words, out),
        "get" => gets::answer(alloc, words, input, out),
        "key" => keys::answer(alloc, words, text, out),
        "note" => notes::answer(alloc, words, text, out),
        "object" => objects::answer(alloc, words, text, out),
        "proof" => proofs::answer(alloc, words, text, out),
        "request" => requests::answer(alloc, words, text, out),
        "source" => sources::answer(alloc, words, out),
        "store" => stores::answer(alloc, words, out),
        "tile" => tiles::answer(alloc, words, text, out),
        _ => trees::answer(alloc, words, out),
    }
}

// Does the steps of a log or of a witness.
fn answer_steps<R: Wait>(
    rt: &R,
    alloc: Global,
    words: &mut Words<'_>,
    text: &str,
    lines: &str,
    out: &mut String,
) -> Told {
    let steps = steps_of(alloc, lines)?;
    let row = Row { text, steps };
    match words.next() {
        "steps" => opening::answer(rt, alloc, words, &row, out),
        _ => witnesses::answer(rt, alloc, words, &row, out),
    }
}

// Writes the call of a row and its answer, a line each.
fn answer_row<R: Wait>(rt: &R, alloc: Global, row: &str, out: &mut String) -> Told {
    let (call, lines) = row.split_once('\n').unwrap_or((row, ""));
    write!(out, "$ {call}\n")?;
    let input = input_of(alloc, lines)?;
    let input = input.as_slice();
    let words = &mut Words { left: call };
    if call.starts_with("steps ") || call.starts_with("witness ") {
        let text = str::from_utf8(input).unwrap_or("");
        return answer_steps(rt, alloc, words, text, lines, out);
    }
    answer(alloc, words, input, out)?;
    out.push('\n')
}

// Reports whether an allocation failed and no answer was written.
fn lacks_memory(answered: Told, out: &str) -> bool {
    answered.is_err() || out.contains("OutOfMemory")
}

// Prints the rows of a script.
fn print_rows<R: Print + Wait>(rt: &R, alloc: Global, script: &str) -> io::Result<()> {
    let mut out = String::with_capacity(alloc, ROOM)?;
    for row in script.split("\n$ ").skip(1) {
        out.clear();
        if lacks_memory(answer_row(rt, alloc, row, &mut out), out.as_str()) {
            print!(rt; "{NO_MEMORY}")?;
            out.clear();
            answer_row(rt, alloc, row, &mut out)?;
        }
        print!(rt; "{out}")?;
    }
    Ok(())
}

fn main(rt: HostRuntime) -> Result<(), anyhow::Error> {
    let script = io::read_to_string(rt.alloc(), rt.reader())?;
    print_rows(&rt, rt.alloc(), script.as_str())?;
    Ok(())
}
