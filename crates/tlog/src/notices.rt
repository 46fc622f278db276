//! Prints what a user should know before a command runs.

use std::fs::{Files, metadata};
use std::io::Write;
use std::os::unix::fs::PermissionsExt;
use tl_device::{Counted, write_pieces, write_whole};

// Reports whether one of the words is this one.
fn has(words: &[String], wanted: &str) -> bool {
    words.iter().any(|word| word.as_str() == wanted)
}

// Returns the value of an option: the next word, or what stands behind an equals sign in the option's word.
fn value_of<'a>(words: &'a [String], option: &str) -> Option<&'a str> {
    let mut is_next = false;
    for word in words {
        if is_next {
            return Some(word.as_str());
        }
        match word.as_str().split_once('=') {
            Some((name, value)) if name == option => return Some(value),
            _ => is_next = word.as_str() == option,
        }
    }
    None
}

// Reports whether a command with these words reads standard input to its end before it does anything.
fn reads_all(command: &str, words: &[String]) -> bool {
    match command {
        "head"
        | "build"
        | "append"
        | "inclusion"
        | "consistency"
        | "check"
        | "open"
        | "audit"
        | "verify" => { true }
        "serve" => !has(words, "--follow") && !has(words, "--add"),
        "witness" => value_of(words, "--state").is_none(),
        _ => false,
    }
}

// Returns the file of the private key that a command with these words reads.
fn private_key<'a>(command: &str, words: &'a [String]) -> Option<&'a str> {
    match command {
        "build" | "append" | "serve" | "witness" => value_of(words, "--key"),
        _ => None,
    }
}

// Reports whether the file at a path may be read by others than its owner.
fn is_open<H: Files>(rt: &H, path: &str) -> bool {
    match metadata(rt, path) {
        Ok(told) => told.is_file() && told.permissions().mode() & 0o077 != 0,
        Err(_) => false,
    }
}

// Prints that others can read the private key in the file at a path.
fn tell_open<E: Write>(path: &str, errors: &mut Counted<E>) {
    let _ = write_pieces(
        errors,
        &[
            b"tlog: ".as_slice(),
            path.as_bytes(),
            b": others can read this private key\n",
        ],
    );
}

/// Prints to `errors` that the command of these words reads a terminal to its end, if it does and standard input is
/// one, and that others can read the file of its private key, if they can.
pub(crate) fn tell_before<H: Files, E: Write>(
    rt: &H,
    words: &[String],
    is_terminal: bool,
    errors: &mut Counted<E>,
) {
    let [_, command, words @ ..] = words else {
        return;
    };
    if has(words, "--help") || has(words, "-h") {
        return;
    }
    let command = command.as_str();
    if is_terminal && reads_all(command, words) {
        let _ = write_whole(
            errors,
            b"tlog: reading standard input up to its end (Ctrl-D)\n",
        );
    }
    match private_key(command, words) {
        Some(path) if is_open(rt, path) => tell_open(path, errors),
        _ => {}
    }
}
