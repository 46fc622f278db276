//! Words whose texts are in files: `@FILE` stands for the public key that the file has, and the FILE of
//! `serve --witnesses FILE` for the policy.

ghost use Rattle.std.specs.Prelude.{◌≡◌, ◌⊎◌};

use crate::policy_words::can_be_satisfied;
use std::alloc::{AllocError, AllocFailed, Global};
use std::fs::Files;
use std::io::Write;
use tl_device::{Counted, write_whole};
use tl_prove::{ProveFault, policy_of, policy_text, prove_exit_of};
use tl_run::{RunFault, read_file};

/// Why the text of a key isn't read from its file.
#[derive(Drop)]
pub(crate) enum KeyTextFault {
    /// The file at this path can't be read, or has no text.
    Unread(String, RunFault),
    /// The file at this path can't be read as a policy.
    Policy(String, ProveFault),
    /// The witnesses with a URL of the policy at this path can't satisfy its quorum.
    Quorum(String),
    /// Allocation failed.
    OutOfMemory,
}

impl From<AllocError> for KeyTextFault {
    fn from(_fault: AllocError) -> KeyTextFault {
        KeyTextFault::OutOfMemory
    }
}

impl<X: Drop> From<AllocFailed<X>> for KeyTextFault {
    fn from(_fault: AllocFailed<X>) -> KeyTextFault {
        KeyTextFault::OutOfMemory
    }
}

// What stands behind an option.
#[derive(Clone, Copy)]
enum Taken {
    // The text of a public key, or `@FILE` for that of a file.
    Key,
    // The file of a policy.
    Policy,
}

// Returns what stands behind an option of a command, if its text may be in a file.
fn taken_by(command: &str, option: &str) -> Option<Taken> {
    let takes_key = match option {
        "--key" => matches!(command, "check" | "open" | "fetch" | "feed"),
        "--fork" => command == "check",
        "--log-key" => command == "witness",
        "--witness" => matches!(command, "fetch" | "feed" | "serve"),
        "--witnesses" if command == "serve" => return Some(Taken::Policy),
        _ => false,
    };
    if takes_key { Some(Taken::Key) } else { None }
}

// Cuts `@FILE`, or `@FILE=URL`, into the path and what stands behind it.
fn path_in(value: &str) -> Option<(&str, &str)> {
    let Some(rest) = value.strip_prefix('@') else {
        return None;
    };
    match rest.find("=http") {
        Some(end) => Some((&rest[..end], &rest[end..])),
        None => Some((rest, "")),
    }
}

// Returns the text of the file at a path, without a newline at its end, and what stands behind the path.
fn text_at<H: Files>(
    rt: &H,
    alloc: Global,
    path: &str,
    rest: &str,
) -> Result<String, KeyTextFault> {
    let bytes = match read_file(rt, alloc, path) {
        Ok(bytes) => bytes,
        Err(fault) => return Err(KeyTextFault::Unread(String::from_str(alloc, path)?, fault)),
    };
    let Ok(text) = String::from_utf8(bytes) else {
        return Err(KeyTextFault::Unread(String::from_str(alloc, path)?, RunFault::BadKey));
    };
    let text = text.as_str();
    let text = text.strip_suffix('\n').unwrap_or(text);
    Ok(format!(in alloc; "{text}{rest}")?)
}

// Returns the text of a policy's file. Fails with `Quorum` if its witnesses that have a URL can't satisfy the quorum.
fn policy_at<H: Files>(rt: &H, alloc: Global, path: &str) -> Result<String, KeyTextFault> {
    let text = match policy_text(rt, alloc, path) {
        Ok(text) => text,
        Err(fault) => return Err(KeyTextFault::Policy(String::from_str(alloc, path)?, fault)),
    };
    match policy_of(alloc, text.as_str()) {
        Ok(policy) if can_be_satisfied(alloc, &policy)? => {}
        Ok(_) => return Err(KeyTextFault::Quorum(String::from_str(alloc, path)?)),
        Err(fault) => return Err(KeyTextFault::Policy(String::from_str(alloc, path)?, fault)),
    }
    Ok(text)
}

// Returns the value of an option, with the text of a file in place of the file.
fn value_of<H: Files>(
    rt: &H,
    alloc: Global,
    taken: Taken,
    value: &str,
) -> Result<String, KeyTextFault> {
    match (taken, path_in(value)) {
        (Taken::Policy, _) => policy_at(rt, alloc, value),
        (Taken::Key, Some((path, rest))) => text_at(rt, alloc, path, rest),
        (Taken::Key, None) => Ok(String::from_str(alloc, value)?),
    }
}

// Returns a word of a command, with the text of a file in place of the file: `taken` says what the word before takes,
// and an option may have its value behind an equals sign.
fn word_of<H: Files>(
    rt: &H,
    alloc: Global,
    command: &str,
    word: &str,
    taken: Option<Taken>,
) -> Result<String, KeyTextFault> {
    if let Some(taken) = taken {
        return value_of(rt, alloc, taken, word);
    }
    if let Some((option, value)) = word.split_once('=') {
        if let Some(taken) = taken_by(command, option) {
            let value = value_of(rt, alloc, taken, value)?;
            return Ok(format!(in alloc; "{option}={value}")?);
        }
    }
    Ok(String::from_str(alloc, word)?)
}

/// Returns the words of a command, the program's name first, with the text of a file in place of each `@FILE` that
/// stands for a public key, and of `serve` with the text of a policy in place of its file.
pub(crate) fn with_texts<H: Files>(
    rt: &H,
    alloc: Global,
    words: &[String],
) -> Result<Vec<String>, KeyTextFault> {
    let command = match words.get(1) {
        Some(command) => command.as_str(),
        None => "",
    };
    let mut given = Vec::new(alloc);
    let mut taken = None;
    for word in words {
        let word = word.as_str();
        given.push(word_of(rt, alloc, command, word, taken)?)?;
        taken = match taken {
            Some(_) => None,
            None => taken_by(command, word),
        };
    }
    Ok(given)
}

// Returns the line that says why a file can't be read.
fn unread_line(alloc: Global, fault: &KeyTextFault) -> Result<String, AllocError> {
    match fault {
        KeyTextFault::Unread(path, RunFault::Device(_, why)) => {
            format!(in alloc; "tlog: {path}: {why}\n")
        }
        KeyTextFault::Unread(_, RunFault::OutOfMemory) | KeyTextFault::OutOfMemory => {
            String::from_str(alloc, "tlog: out of memory\n")
        }
        KeyTextFault::Unread(path, _) => format!(in alloc; "tlog: {path}: bad key\n"),
        KeyTextFault::Policy(path, why) => format!(in alloc; "tlog: {path}: {why}\n"),
        KeyTextFault::Quorum(path) => {
            format!(in alloc; "tlog: {path}: witnesses with URLs don't make a quorum\n")
        }
    }
}

/// Prints a line to `errors` that says which file can't be read, and why. It returns the exit status: 3 if a device
/// failed, else 1.
pub(crate) fn end_unread<E: Write>(
    alloc: Global,
    fault: &KeyTextFault,
    errors: &mut Counted<E>,
) -> u8
    ensures { (result ≡ 3) ⊎ (result ≡ 1) }
{
    if let Ok(line) = unread_line(alloc, fault) {
        let _ = write_whole(errors, line.as_bytes());
    }
    let failed = match fault {
        KeyTextFault::Unread(_, RunFault::Device(_, _)) => true,
        KeyTextFault::Policy(_, why) => prove_exit_of(why) == 3,
        _ => false,
    };
    if failed { 3 } else { 1 }
}
