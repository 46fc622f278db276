//! Reading a list of logs.

ghost use Rattle.std.specs.Prelude.{OnOk};
ghost use Rattle.tl_logs.specs.ReadLogs.{ReadsList, logs_shown};
ghost use Rattle.tl_logs.specs.Inner.ByOrigin.{Indexes, index_of, log_origins};
ghost use Rattle.tl_logs.specs.Inner.Listing.{ReadsEntry, TakesEntry, entry_in, entry_of};

use crate::by_origin::ByOrigin;
use crate::entry::{ListEntry, add_line};
use crate::fault::LogsFault;
use crate::line::{KeyLine, LineFault, key_alone, key_under};
use crate::log::KnownLog;
use crate::placing::put_key;
use crate::reading::{cut_line, fault_at};
use std::alloc::Allocator;
use std::str;
use tl_text::is_one_line;

// Parses the key of a log. If no line gives the log a name, it is the key's.
fn read_entry<A: Allocator + Copy + Send + Sync>(
    alloc: A,
    entry: &ListEntry<'_>,
) -> Result<KeyLine<A>, LineFault>
    ensures { ReadsEntry (entry_of entry.now) result }
{
    let Ok(key) = str::from_utf8(entry.key) else {
        return Err(LineFault::Malformed);
    };
    let Some(name) = entry.name else {
        return key_alone(alloc, key);
    };
    match str::from_utf8(name) {
        Ok(name) if is_one_line(name) => key_under(alloc, name, key),
        _ => Err(LineFault::Malformed),
    }
}

// Adds the key of a log, if there is one, to those that the log has, whose position the map has.
fn take_entry<A: Allocator + Copy + Send + Sync>(
    alloc: A,
    logs: &mut Vec<KnownLog<A>, A>,
    index: &mut ByOrigin<A>,
    entry: Option<ListEntry<'_>>,
) -> Result<(), LogsFault>
    requires { Indexes (index_of index.old) (log_origins (logs_shown logs.old.items)) }
    ensures taken { TakesEntry (entry_in entry.entry)
        (logs_shown logs.old.items) (logs_shown logs.new.items) result }
    ensures indexed { OnOk result
        (Indexes (index_of index.new) (log_origins (logs_shown logs.new.items))) }
{
    let Some(entry) = entry else {
        return Ok(());
    };
    let line = match read_entry(alloc, &entry) {
        Ok(line) => line,
        Err(fault) => return Err(fault_at(fault, entry.line)),
    };
    match put_key(alloc, logs, index, line) {
        Ok(()) => Ok(()),
        Err(fault) => Err(fault_at(fault, entry.line)),
    }
}

/// Reads a list of logs. Returns them in the order of their first lines, each with its keys in order. A key is taken
/// once the log's name is known: at a line `origin NAME`, at the next line `vkey KEY`, or at the end. So the fault is
/// that of the first log that is wrong, with the number of the line that begins it.
pub(crate) fn read_list<A: Allocator + Copy + Send + Sync>(
    alloc: A,
    bytes: &[u8],
) -> Result<Vec<KnownLog<A>, A>, LogsFault>
    ensures { ReadsList bytes.now result }
{
    let mut logs = Vec::new(alloc);
    let mut index = ByOrigin::new(alloc);
    let mut waiting = None;
    let mut left = bytes;
    let mut line = 0;
    while !left.is_empty() {
        let (words, rest) = cut_line(left);
        line += 1;
        let ended = add_line(&mut waiting, line, words);
        match take_entry(alloc, &mut logs, &mut index, ended) {
            Ok(()) => {}
            Err(fault) => return Err(fault),
        }
        left = rest;
    }
    match take_entry(alloc, &mut logs, &mut index, waiting) {
        Ok(()) => Ok(logs),
        Err(fault) => Err(fault),
    }
}
