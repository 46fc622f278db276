//! What a server reports.

ghost use Rattle.std.specs.Prelude.{codes};
ghost use Rattle.tl_device.specs.Device.{passage};
ghost use Rattle.tl_serve.specs.Inner.Telling.{Tells, told_closed, told_head, told_input_ended, told_not_published, told_too_long};

use base64::engine::general_purpose::STANDARD;
use std::alloc::Global;
use std::io::{ErrorKind, Write};
use tl_device::Counted;
use tl_hash::Head;
use tl_run::{RunFault, print_text};

// The report on a log that is in memory alone.
const IN_MEMORY: &str =
    "in memory: nothing of this log outlasts the program; readers who kept a checkpoint will find it shrunk\n";

/// Reports size and root of a publication, after this word.
pub(crate) fn tell_head<L: Write>(
    alloc: Global,
    log: &mut Counted<L>,
    word: &str,
    head: Head,
) -> Result<(), RunFault>
    ensures { Tells (told_head word.now head.size head.root)
        (passage L.contents log.old log.new) result }
{
    let root = STANDARD.encode(alloc, head.root.as_bytes())?;
    let line = format!(in alloc; "{word}{} {root}\n", head.size)?;
    match print_text(log, line.as_bytes()) {
        Ok(()) => Ok(()),
        Err(fault) => Err(fault),
    }
}

/// Reports how many entries the closed log has.
pub(crate) fn tell_closed<L: Write>(
    alloc: Global,
    log: &mut Counted<L>,
    size: u64,
) -> Result<(), RunFault>
    ensures { Tells (told_closed size) (passage L.contents log.old log.new) result }
{
    let line = format!(in alloc; "closed {size}\n")?;
    match print_text(log, line.as_bytes()) {
        Ok(()) => Ok(()),
        Err(fault) => Err(fault),
    }
}

/// Reports that the line with this number, counted from 0, is too long and was left out.
pub(crate) fn tell_too_long<L: Write>(
    alloc: Global,
    log: &mut Counted<L>,
    line: u64,
) -> Result<(), RunFault>
    ensures { Tells (told_too_long line) (passage L.contents log.old log.new) result }
{
    let text = format!(in alloc; "line {line} too long\n")?;
    match print_text(log, text.as_bytes()) {
        Ok(()) => Ok(()),
        Err(fault) => Err(fault),
    }
}

/// Reports that the input has ended.
pub(crate) fn tell_input_ended<L: Write>(log: &mut Counted<L>) -> Result<(), RunFault>
    ensures { Tells told_input_ended (passage L.contents log.old log.new) result }
{
    match print_text(log, b"input ended\n") {
        Ok(()) => Ok(()),
        Err(fault) => Err(fault),
    }
}

/// Reports how many lines came and were not published.
pub(crate) fn tell_not_published<L: Write>(
    alloc: Global,
    log: &mut Counted<L>,
    count: u64,
) -> Result<(), RunFault>
    ensures { Tells (told_not_published count) (passage L.contents log.old log.new) result }
{
    let line = format!(in alloc; "lines not published: {count}\n")?;
    match print_text(log, line.as_bytes()) {
        Ok(()) => Ok(()),
        Err(fault) => Err(fault),
    }
}

/// Reports why an address can't be bound.
pub(crate) fn tell_refused<L: Write>(
    alloc: Global,
    log: &mut Counted<L>,
    address: &str,
    why: ErrorKind,
) -> Result<(), RunFault> {
    let line = format!(in alloc; "tlog: {address}: {why}\n")?;
    print_text(log, line.as_bytes())
}

/// Reports that the log is in memory alone.
pub(crate) fn tell_in_memory<L: Write>(log: &mut Counted<L>) -> Result<(), RunFault> {
    print_text(log, IN_MEMORY.as_bytes())
}
