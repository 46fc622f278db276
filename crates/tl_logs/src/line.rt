//! One line of the file of logs.

ghost use Rattle.std.specs.Prelude.{◌≡◌, ◌↔◌, IsTrue};
ghost use Rattle.tl_logs.specs.LogsFile.{IsPassedOver};
ghost use Rattle.tl_logs.specs.Inner.Lines.{ReadsAlone, ReadsBehind, ReadsLine, ReadsNamed, ReadsText};
ghost use Rattle.tl_logs.specs.Inner.Listing.{ReadsUnder};

use std::alloc::{AllocError, AllocFailed, Allocator};
use std::str;
use tl_key::{KeyFault, NoteVerifier, read_verifier_key};
use tl_note::{Verifier, is_key_name};

/// A key, and the name of the log that a line gives it to.
#[derive(Drop)]
pub(crate) struct KeyLine<A: Allocator> {
    pub(crate) origin: String<A>,
    pub(crate) key: NoteVerifier<A>,
}

/// Why a line isn't accepted.
#[derive(Clone, Copy)]
pub(crate) enum LineFault {
    Malformed,
    Twice,
    OutOfMemory,
}

impl From<AllocError> for LineFault {
    ghost use Rattle.std.specs.Prelude.{◌≡◌};
    ghost use Rattle.tl_logs.specs.declared.line.LineFault.TheVariants.{OutOfMemory};

    ghost from_gives = { λ _ fault. fault ≡ OutOfMemory };

    fn from(_fault: AllocError) -> LineFault {
        LineFault::OutOfMemory
    }
}

impl<X: Drop> From<AllocFailed<X>> for LineFault {
    ghost use Rattle.std.specs.Prelude.{◌≡◌};
    ghost use Rattle.tl_logs.specs.declared.line.LineFault.TheVariants.{OutOfMemory};

    ghost from_gives = { λ _ fault. fault ≡ OutOfMemory };

    fn from(_fault: AllocFailed<X>) -> LineFault {
        LineFault::OutOfMemory
    }
}

// Reports whether the line is skipped: it is empty or begins with `#`.
fn is_passed_over(words: &[u8]) -> bool
    ensures { IsTrue result ↔ IsPassedOver words.now }
{
    match words {
        [] => true,
        [first, ..] => *first == b'#',
    }
}

// Parses a verifier key.
fn read_key<A: Allocator + Send + Sync>(alloc: A, text: &str) -> Result<NoteVerifier<A>, LineFault>
    ensures { ReadsText text.now result }
{
    match read_verifier_key(alloc, text) {
        Ok(key) => Ok(key),
        Err(KeyFault::OutOfMemory) => Err(LineFault::OutOfMemory),
        Err(_) => Err(LineFault::Malformed),
    }
}

/// Parses a verifier key, whose name is the log's.
pub(crate) fn key_alone<A: Allocator + Copy + Send + Sync>(
    alloc: A,
    text: &str,
) -> Result<KeyLine<A>, LineFault>
    ensures { ReadsAlone text.now result }
{
    let key = match read_key(alloc, text) {
        Ok(key) => key,
        Err(fault) => return Err(fault),
    };
    let Ok(origin) = String::from_str(alloc, key.name()) else {
        return Err(LineFault::OutOfMemory);
    };
    Ok(KeyLine { origin, key })
}

/// Parses a verifier key, given to the log with this name.
pub(crate) fn key_under<A: Allocator + Copy + Send + Sync>(
    alloc: A,
    name: &str,
    text: &str,
) -> Result<KeyLine<A>, LineFault>
    ensures { ReadsUnder name.now text.now result }
{
    let key = match read_key(alloc, text) {
        Ok(key) => key,
        Err(fault) => return Err(fault),
    };
    let Ok(origin) = String::from_str(alloc, name) else {
        return Err(LineFault::OutOfMemory);
    };
    Ok(KeyLine { origin, key })
}

// Parses a log's name, a space and a verifier key.
fn key_behind<A: Allocator + Copy + Send + Sync>(
    alloc: A,
    text: &str,
) -> Result<KeyLine<A>, LineFault>
    ensures { ReadsBehind text.now result }
{
    let Some((name, key)) = text.split_once(' ') else {
        return Err(LineFault::Malformed);
    };
    if !is_key_name(name) {
        return Err(LineFault::Malformed);
    }
    key_under(alloc, name, key)
}

// Parses a line that gives a key, in either form.
fn key_in<A: Allocator + Copy + Send + Sync>(alloc: A, text: &str) -> Result<KeyLine<A>, LineFault>
    ensures { ReadsNamed text.now result }
{
    match key_alone(alloc, text) {
        Ok(line) => Ok(line),
        Err(LineFault::Malformed) => key_behind(alloc, text),
        Err(LineFault::Twice) => Err(LineFault::Twice),
        Err(LineFault::OutOfMemory) => Err(LineFault::OutOfMemory),
    }
}

/// Returns the key that a line gives, or `None` if the line is skipped. `OutOfMemory` comes only for a line that
/// gives a key.
pub(crate) fn read_line<A: Allocator + Copy + Send + Sync>(
    alloc: A,
    words: &[u8],
) -> Result<Option<KeyLine<A>>, LineFault>
    ensures { ReadsLine words.now result }
{
    if is_passed_over(words) {
        return Ok(None);
    }
    let Ok(text) = str::from_utf8(words) else {
        return Err(LineFault::Malformed);
    };
    match key_in(alloc, text) {
        Ok(line) => Ok(Some(line)),
        Err(fault) => Err(fault),
    }
}
