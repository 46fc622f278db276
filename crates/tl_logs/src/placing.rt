//! Adding the key of a line to those of its log.

ghost use Rattle.std.specs.Prelude.{◌≡◌, ◌↔◌, ◌∷◌, [], IfOk, IsTrue, OnOk, map, string_bytes, vec_items};
ghost use Rattle.tl_logs.specs.LogsFile.{key_name, log};
ghost use Rattle.tl_logs.specs.ReadLogs.{logs_shown};
ghost use Rattle.tl_logs.specs.Inner.ByOrigin.{Indexes, index_of, log_origins};
ghost use Rattle.tl_logs.specs.Inner.Lines.{given_by};
ghost use Rattle.tl_logs.specs.Inner.Placing.{AddsKey, IsOneOf, PlacesKey, TakesLine};

use crate::by_origin::ByOrigin;
use crate::line::{KeyLine, LineFault, read_line};
use crate::log::KnownLog;
use std::alloc::{AllocError, Allocator};
use tl_key::NoteVerifier;
use tl_note::Verifier;

// Reports whether two keys have the same name and identifier.
fn is_same<A: Allocator + Send + Sync>(key: &NoteVerifier<A>, other: &NoteVerifier<A>) -> bool
    ensures { IsTrue result ↔ (key_name key.now ≡ key_name other.now) }
{
    key.key_id() == other.key_id() && key.name() == other.name()
}

// Reports whether one of the keys has this key's name and identifier.
fn has_key<A: Allocator + Send + Sync>(keys: &[NoteVerifier<A>], key: &NoteVerifier<A>) -> bool
    ensures { IsTrue result ↔ IsOneOf key.now keys.now }
{
    for i in 0..keys.len() {
        if is_same(&keys[i], key) {
            return true;
        }
    }
    false
}

// Appends a key to those of a log, unless the log has it already.
fn add_key<A: Allocator + Send + Sync>(
    known: &mut KnownLog<A>,
    key: NoteVerifier<A>,
) -> Result<(), LineFault>
    ensures { AddsKey key (string_bytes known.old.origin) (vec_items known.old.keys)
        (log (string_bytes known.new.origin) (vec_items known.new.keys)) result }
{
    if has_key(known.keys.as_slice(), &key) {
        return Err(LineFault::Twice);
    }
    known.keys.push(key)?;
    Ok(())
}

// Returns a log with one key.
fn first_key<A: Allocator + Copy + Send + Sync>(
    alloc: A,
    line: KeyLine<A>,
) -> Result<KnownLog<A>, AllocError>
    ensures { IfOk result (λ known. log (string_bytes known.origin) (vec_items known.keys)
        ≡ log (string_bytes line.origin) (line.key ∷ [])) }
{
    let KeyLine { origin, key } = line;
    let mut keys = Vec::new(alloc);
    keys.push(key)?;
    Ok(KnownLog { origin, keys })
}

/// Appends a key to those of its log, whose position the map has, or begins a new log.
pub(crate) fn put_key<A: Allocator + Copy + Send + Sync>(
    alloc: A,
    logs: &mut Vec<KnownLog<A>, A>,
    index: &mut ByOrigin<A>,
    line: KeyLine<A>,
) -> Result<(), LineFault>
    requires { Indexes (index_of index.old) (log_origins (logs_shown logs.old.items)) }
    ensures placed { PlacesKey (given_by line)
        (logs_shown logs.old.items) (logs_shown logs.new.items) result }
    ensures indexed { OnOk result
        (Indexes (index_of index.new) (log_origins (logs_shown logs.new.items))) }
{
    match index.find(line.origin.as_str()) {
        Some(place) => add_key(&mut logs[place], line.key),
        None => {
            index.add(alloc, line.origin.as_str(), logs.len())?;
            let known = first_key(alloc, line)?;
            logs.push(known)?;
            Ok(())
        }
    }
}

/// Adds the key that a line gives, if it gives one, to those of its log, whose position the map has.
pub(crate) fn take_line<A: Allocator + Copy + Send + Sync>(
    alloc: A,
    logs: &mut Vec<KnownLog<A>, A>,
    index: &mut ByOrigin<A>,
    words: &[u8],
) -> Result<(), LineFault>
    requires { Indexes (index_of index.old) (log_origins (logs_shown logs.old.items)) }
    ensures taken { TakesLine words.now
        (logs_shown logs.old.items) (logs_shown logs.new.items) result }
    ensures indexed { OnOk result
        (Indexes (index_of index.new) (log_origins (logs_shown logs.new.items))) }
{
    let read = match read_line(alloc, words) {
        Ok(read) => read,
        Err(fault) => return Err(fault),
    };
    match read {
        Some(line) => put_key(alloc, logs, index, line),
        None => Ok(()),
    }
}
