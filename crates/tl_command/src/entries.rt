//! The entries of an input are its lines.

ghost use Rattle.std.specs.Prelude.{◌≡◌, ◌+◌, ◌<◌, ◌≤◌, ◌∷◌, length, map, vec_items, vec_len, IfOk, OnErr, position, nat_lt};
ghost use Rattle.tl_device.specs.Device.{passage};
ghost use Rattle.tl_command.specs.Lines.{entries_of};
ghost use Rattle.tl_command.specs.Entries.{ReadsEntries};

use memchr::memchr;
use std::alloc::{AllocError, Allocator};
use std::io::Read;
use tl_device::Counted;
use tl_run::{RunFault, read_input};
use tl_tile::LONGEST_ENTRY;

/// Returns the first entry of an input that isn't empty, without its newline, and the rest of the input.
pub(crate) fn first_entry(input: &[u8]) -> (&[u8], &[u8])
    requires { 0 < length input.now }
    ensures entry { entries_of input.entry.now ≡ result.0.now ∷ entries_of result.1.now }
    ensures shorter { length result.1.now < length input.entry.now }
    ensures bytes { length result.0.now + length result.1.now ≤ length input.entry.now }
{
    match memchr(b'\n', input) {
        Some(end) => (&input[..end], &input[end + 1..]),
        None => (input, &input[input.len()..]),
    }
}

/// Returns the entries of an input. It fails only if allocation fails.
pub(crate) fn split_entries<A: Allocator + Copy>(
    alloc: A,
    input: &[u8],
) -> Result<Vec<Vec<u8, A>, A>, AllocError>
    ensures entries { IfOk result (λ entries. map vec_items entries.items ≡ entries_of input.now) }
    ensures memory { OnErr result (0 < length input.now) }
{
    let mut entries = Vec::new(alloc);
    let mut rest = input;
    while !rest.is_empty() {
        let (entry, others) = first_entry(rest);
        entries.push(Vec::from_slice(alloc, entry)?)?;
        rest = others;
    }
    Ok(entries)
}

// Returns the index of the first entry that is too long.
fn find_too_long<A: Allocator>(entries: &[Vec<u8, A>]) -> Option<usize>
    ensures { result ≡ position (λ entry. nat_lt 65535 (vec_len entry)) entries.now }
{
    entries.iter().position(|entry| entry.len() > LONGEST_ENTRY)
}

/// Reads all that the reader gives and returns its entries: the input is cut at each newline, and a last piece
/// without one is an entry if it isn't empty. It fails with `TooLarge` if the input has more than `most` bytes, and
/// else with `EntryTooLong` of the first entry that has more than 65,535 bytes. It also fails if a read or an
/// allocation fails.
pub fn read_entries<A: Allocator + Copy, R: Read>(
    alloc: A,
    reader: &mut Counted<R>,
    most: u64,
) -> Result<Vec<Vec<u8, A>, A>, RunFault>
    ensures { ReadsEntries most (passage R.remaining reader.old reader.new) result }
{
    let input = read_input(alloc, reader, most)?;
    let entries = split_entries(alloc, input.as_slice())?;
    match find_too_long(entries.as_slice()) {
        Some(place) => Err(RunFault::EntryTooLong(place as u64)),
        None => Ok(entries),
    }
}
