//! What a reader sees, what a board keeps, and what a log is after its close.

use crate::words::{Step, Told, number_of, small_of};
use std::alloc::{AllocError, Global};
use std::str;
use std::sync::Wait;
use tl_publisher::{Board, BoardReader, GetFault, Head};
use tl_sequencer::Complete;
use tl_tile::{Resource, Tile};

// Returns the resource that words name.
fn resource_of(words: &[&str]) -> Resource {
    match words {
        ["tile", level, index, width] => Resource::Tile(Tile {
            level: small_of(level),
            index: number_of(index),
            width: small_of(width),
        }),
        ["bundle", index, width] => Resource::Entries {
            index: number_of(index),
            width: small_of(width),
        },
        _ => Resource::Checkpoint,
    }
}

// Writes the size that was found.
fn tell_size(found: Result<Option<Head>, GetFault>, step: &mut Step<'_>) -> Told {
    match found {
        Ok(Some(head)) => step.tell(head.size),
        Ok(None) => step.say("None"),
        Err(fault) => step.tell(fault),
    }
}

// Writes what was found: its bytes, how many they are, or the text.
fn tell_found(kind: &str, found: Result<Option<Vec<u8>>, GetFault>, step: &mut Step<'_>) -> Told {
    let bytes = match &found {
        Ok(Some(bytes)) => bytes.as_slice(),
        Ok(None) => return step.say("None"),
        Err(GetFault::OutOfMemory) => return Err(AllocError),
        Err(fault) => return step.tell(*fault),
    };
    match kind {
        "length" => step.tell(bytes.len()),
        "note" => step.tell(str::from_utf8(bytes).unwrap_or("")),
        _ => step.tell_hex(Some(bytes)),
    }
}

/// Writes what a reader sees.
pub(crate) fn see(
    alloc: Global,
    reader: &mut BoardReader<Global>,
    words: &[&str],
    step: &mut Step<'_>,
) -> Told {
    match words {
        ["size"] => tell_size(reader.head(), step),
        [kind, rest @ ..] => { tell_found(kind, reader.get(alloc, &resource_of(rest)), step) }
        [] => step.say("no such look"),
    }
}

/// Writes what the board of a closed log keeps.
pub(crate) fn kept<R: Wait + Drop>(
    alloc: Global,
    board: &mut Board<R>,
    words: &[&str],
    step: &mut Step<'_>,
) -> Told {
    match words {
        ["size"] => tell_size(board.head(), step),
        [kind, rest @ ..] => { tell_found(kind, board.get(alloc, &resource_of(rest)), step) }
        [] => step.say("no such look"),
    }
}

/// Writes what is asked of a log after its close.
pub(crate) fn ask(log: &Complete<Global, Global>, words: &[&str], step: &mut Step<'_>) -> Told {
    match words {
        ["len"] => step.tell(log.len()),
        ["who", place] => step.tell(log.who(number_of(place))),
        ["place", lane, number] => { step.tell(log.place_of(small_of(lane), number_of(number))) }
        ["entry", place] => step.tell_hex(log.entry(number_of(place))),
        _ => step.say("no such step"),
    }
}
