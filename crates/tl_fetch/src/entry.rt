//! One entry of a log.

ghost use Rattle.std.specs.Prelude.{◌≡◌, ◌<◌, ◌+◌, ◌*◌, ◌/◌, ◌%◌, IfOk, IfErr};
ghost use Rattle.sha2.specs.Sha256.{sha256};
ghost use Rattle.tl_fetch.specs.Entries.{IsCheckedEntry, RefusesOne};

use crate::observer::Observer;
use std::alloc::Allocator;
use tl_client::{ClientFault, Head, ResourceSource, read_entries};
use tl_tile::FetchedTiles;

/// Returns the entry with this index, counted from 0, of a log of this size and root, checked against them (C2SP
/// tlog-tiles, "Log Entries"; RFC 6962, section 2.1). The observer gets the tiles that it was checked with. It fails
/// with `Range` if the log has no such entry, or more than 2^62, and else with the faults of
/// `tl_client::read_entries` for the bundle that has the entry.
pub fn fetch_entry<S: ResourceSource, A: Allocator + Copy, O: Observer>(
    alloc: A,
    source: &S,
    head: &Head,
    index: u64,
    observer: &mut O,
) -> Result<Vec<u8, A>, ClientFault>
    ensures entry { IfOk result (λ entry. IsCheckedEntry sha256 head.now index entry.items) }
    ensures refused { IfErr result
        (RefusesOne (S.may_answer source.now) (S.may_lack source.now) head.now index) }
{
    let Head { size, root } = *head;
    if index >= size {
        return Err(ClientFault::Range);
    }
    let mut fetched = FetchedTiles::new(alloc);
    let mut entries = read_entries(alloc, source, size, root, index / 256, &mut fetched)?;
    observer.passed(head, &fetched);
    Ok(entries.swap_remove((index % 256) as usize))
}
