//! Reading the file of logs.

ghost use Rattle.std.specs.Prelude.{◌≡◌, ◌==◌, ◌↔◌, IsTrue, position};
ghost use Rattle.std.specs.List.{after_first, before_first};
ghost use Rattle.tl_logs.specs.LogList.{IsList};
ghost use Rattle.tl_logs.specs.ReadLogs.{ReadsLines, ReadsLogs};
ghost use Rattle.tl_logs.specs.Inner.Lines.{CutsLine};
ghost use Rattle.tl_logs.specs.Inner.Placing.{fault_at};

use crate::by_origin::ByOrigin;
use crate::fault::LogsFault;
use crate::line::LineFault;
use crate::listing::read_list;
use crate::log::KnownLog;
use crate::placing::take_line;
use std::alloc::Allocator;

// Returns the position of the first byte of this value.
fn first_byte(bytes: &[u8], value: u8) -> Option<usize>
    ensures { result ≡ position (λ byte. byte == value) bytes.now }
{
    bytes.iter().position(|byte| *byte == value)
}

/// Returns the position of the first newline.
pub(crate) fn first_newline(bytes: &[u8]) -> Option<usize>
    ensures { result ≡ position (λ byte. byte == 10) bytes.now }
{
    first_byte(bytes, b'\n')
}

/// Returns what stands before the first byte of this value, and what follows it. Without such a byte all stands before.
pub(crate) fn cut_at(bytes: &[u8], value: u8) -> (&[u8], &[u8])
    ensures before { result.0.now ≡ before_first (λ byte. byte == value) bytes.now }
    ensures behind { result.1.now ≡ after_first (λ byte. byte == value) bytes.now }
{
    match first_byte(bytes, value) {
        Some(end) => (&bytes[..end], &bytes[end + 1..]),
        None => (bytes, &bytes[bytes.len()..]),
    }
}

/// Returns the first line, without its newline, and what follows it.
pub(crate) fn cut_line(bytes: &[u8]) -> (&[u8], &[u8])
    ensures { CutsLine bytes.now result.0.now result.1.now }
{
    cut_at(bytes, b'\n')
}

/// Converts the fault of the line with this number.
pub(crate) fn fault_at(fault: LineFault, line: u64) -> LogsFault
    ensures { result ≡ fault_at fault line }
{
    match fault {
        LineFault::Malformed => LogsFault::Malformed(line),
        LineFault::Twice => LogsFault::Twice(line),
        LineFault::OutOfMemory => LogsFault::OutOfMemory,
    }
}

// Reports whether the file is a list: its first line is `logs/v0`.
fn is_list(bytes: &[u8]) -> bool
    ensures { IsTrue result ↔ IsList bytes.now }
{
    let (first, _rest) = cut_line(bytes);
    first == b"logs/v0".as_slice()
}

// Reads a file that is no list, line by line.
fn read_lines<A: Allocator + Copy + Send + Sync>(
    alloc: A,
    bytes: &[u8],
) -> Result<Vec<KnownLog<A>, A>, LogsFault>
    ensures { ReadsLines bytes.now result }
{
    let mut logs = Vec::new(alloc);
    let mut index = ByOrigin::new(alloc);
    let mut left = bytes;
    let mut line = 0;
    while !left.is_empty() {
        let (words, rest) = cut_line(left);
        line += 1;
        match take_line(alloc, &mut logs, &mut index, words) {
            Ok(()) => {}
            Err(fault) => return Err(fault_at(fault, line)),
        }
        left = rest;
    }
    Ok(logs)
}

/// Reads the file of logs. Returns the logs in the order of their first lines, each with its keys in order. A line is
/// `KEY`, a verifier key (C2SP signed-note) whose name is the log's, or `ORIGIN KEY`; a file whose first line is
/// `logs/v0` is a list, as logs are published. (docs/FORMATS.md has both.) `Malformed` has the first line that is
/// neither, `Twice` the first whose key its log already has, whichever comes first; of a list, the line that begins
/// the log. Lines are counted from 1.
pub fn read_logs<A: Allocator + Copy + Send + Sync>(
    alloc: A,
    bytes: &[u8],
) -> Result<Vec<KnownLog<A>, A>, LogsFault>
    ensures { ReadsLogs bytes.now result }
{
    if is_list(bytes) {
        return read_list(alloc, bytes);
    }
    read_lines(alloc, bytes)
}
