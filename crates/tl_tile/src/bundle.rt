//! Entry bundles: entries one after another, each after its length (C2SP tlog-tiles, "Log Entries").

ghost use Rattle.std.specs.Prelude.{◌≡◌, ◌+◌, ◌<◌, ◌≤◌, ◌^◌, ◌++◌, length, OnOk, OnErr, IfOk, IsOk, MatchOption, MatchBool, Any, map, vec_items, vec_len, vec_capacity};
ghost use Rattle.tl_tile.specs.Bundle.{most_entry, bundled_entry, bundle_text, IsShortEntry, AreShortEntries, AreEntries, IsBundle, IsPartialEntry};
ghost use Rattle.tl_tile.specs.ReadBundle.{ReadsBundle, WritesBundle, ChecksBundle};
ghost use Rattle.tl_tile.specs.declared.bundle.BundleFault.TheVariants.{OutOfMemory};

use std::alloc::{AllocError, AllocFailed, Allocator};
use thiserror::Error;

/// The length of the longest entry, in bytes: a bundle has it in 16 bits (C2SP tlog-tiles, "Log Entries").
pub const LONGEST_ENTRY: usize = 65_535;

/// The reasons why a bundle can't be written or read, in the order in which they are checked.
#[derive(Clone, Copy, Debug, PartialEq, Eq, Error)]
pub enum BundleFault {
    /// An entry has more than 65,535 bytes.
    #[error("an entry is longer than 65535 bytes")]
    EntryTooLong,
    /// The bytes end within the bundle: they are the beginning of a bundle of this width, and not all of it.
    #[error("the entry bundle is truncated")]
    Truncated,
    /// The bytes go on after a bundle of this width.
    #[error("bytes follow the entry bundle")]
    Trailing,
    /// Memory ran out.
    #[error("out of memory")]
    OutOfMemory,
}

impl From<AllocError> for BundleFault {
    ghost from_gives = { λ _ fault. fault ≡ OutOfMemory };

    fn from(_error: AllocError) -> BundleFault {
        BundleFault::OutOfMemory
    }
}

impl<X: Drop> From<AllocFailed<X>> for BundleFault {
    ghost from_gives = { λ _ fault. fault ≡ OutOfMemory };

    fn from(_error: AllocFailed<X>) -> BundleFault {
        BundleFault::OutOfMemory
    }
}

/// Appends an entry of at most 65,535 bytes to a bundle: its length in 16 bits, big-endian, and its bytes (C2SP
/// tlog-tiles, "Log Entries"). If allocation fails, the bundle doesn't change. It allocates only if the bundle has no
/// room for the entry and two more bytes.
pub fn push_entry<A: Allocator>(bundle: &mut Vec<u8, A>, entry: &[u8]) -> Result<(), AllocError>
    requires { IsShortEntry entry.now }
    ensures pushed { OnOk result (bundle.new.items ≡ bundle.old.items ++ bundled_entry entry.now) }
    ensures unchanged { OnErr result (bundle.new.items ≡ bundle.old.items) }
    ensures room { vec_len bundle.old + (2 + length entry.now) ≤ vec_capacity bundle.old
        → IsOk result }
{
    bundle.reserve(2 + entry.len())?;
    let front = bundle.extend_from_slice(&(entry.len() as u16).to_be_bytes());
    prove!(front.is_ok());
    let rest = bundle.extend_from_slice(entry);
    prove!(rest.is_ok());
    Ok(())
}

// Reports whether each entry has at most `LONGEST_ENTRY` bytes.
fn are_short<B: Allocator>(entries: &[Vec<u8, B>]) -> bool
    ensures { MatchBool result
        (AreShortEntries (map vec_items entries.now))
        (Any (λ entry. most_entry < length entry) (map vec_items entries.now)) }
{
    for entry in entries {
        if entry.len() > LONGEST_ENTRY {
            return false;
        }
    }
    true
}

// Returns the entries one after another, each after its length.
fn join_entries<A: Allocator, B: Allocator>(
    alloc: A,
    entries: &[Vec<u8, B>],
) -> Result<Vec<u8, A>, AllocError>
    requires { AreShortEntries (map vec_items entries.now) }
    ensures { IfOk result (λ text. text.items ≡ bundle_text (map vec_items entries.now)) }
{
    let mut out = Vec::new(alloc);
    for entry in entries {
        push_entry(&mut out, entry)?;
    }
    Ok(out)
}

/// Returns the bundle of these 1 to 256 entries: each is its length in 16 bits, big-endian, and its bytes (C2SP
/// tlog-tiles, "Log Entries"). It fails with `EntryTooLong`, before it allocates, exactly if an entry has more than
/// 65,535 bytes, and with `OutOfMemory` if allocation fails.
pub fn write_bundle<A: Allocator, B: Allocator>(
    alloc: A,
    entries: &[Vec<u8, B>],
) -> Result<Vec<u8, A>, BundleFault>
    requires some { 0 < length entries.now }
    requires at_most_256 { length entries.now ≤ 256 }
    ensures { WritesBundle (map vec_items entries.now) result }
{
    if !are_short(entries) {
        return Err(BundleFault::EntryTooLong);
    }
    let text = join_entries(alloc, entries)?;
    Ok(text)
}

// Returns the first entry, and the bytes after it.
fn first_entry(bytes: &[u8]) -> Option<(&[u8], &[u8])>
    ensures { MatchOption result (IsPartialEntry bytes.now)
        (λ x. IsShortEntry x.0.now × (bytes.now ≡ bundled_entry x.0.now ++ x.1.now)) }
{
    if bytes.len() < 2 {
        return None;
    }
    let (front, rest) = bytes.split_at(2);
    let len = u16::from_be_bytes([front[0], front[1]]) as usize;
    if rest.len() < len {
        return None;
    }
    Some(rest.split_at(len))
}

// Checks that the bytes are a bundle of this many entries. It allocates nothing.
fn check_bundle(bytes: &[u8], width: u32) -> Result<(), BundleFault>
    ensures { ChecksBundle bytes.now width result }
{
    let mut rest = bytes;
    for _ in 0..width {
        let Some((_, after)) = first_entry(rest) else {
            return Err(BundleFault::Truncated);
        };
        rest = after;
    }
    if !rest.is_empty() {
        return Err(BundleFault::Trailing);
    }
    Ok(())
}

// Returns the entries of a bundle that has this many.
fn split_bundle<A: Allocator + Copy>(
    alloc: A,
    bytes: &[u8],
    width: u32,
) -> Result<Vec<Vec<u8, A>, A>, AllocError>
    requires { IsBundle bytes.now width }
    ensures { IfOk result (λ entries. AreEntries width (map vec_items entries.items)
        × (bytes.now ≡ bundle_text (map vec_items entries.items))) }
{
    let mut entries = Vec::new(alloc);
    let mut rest = bytes;
    for _ in 0..width {
        let Some((entry, after)) = first_entry(rest) else {
            unreachable!();
        };
        let entry = Vec::from_slice(alloc, entry)?;
        entries.push(entry)?;
        rest = after;
    }
    Ok(entries)
}

/// Returns the entries of a bundle of `width` entries, from 1 to 256 (C2SP tlog-tiles, "Log Entries"). Before it
/// allocates, it fails with `Truncated` exactly if the bytes are the beginning of such a bundle and not all of it,
/// and with `Trailing` exactly if such a bundle is the beginning of the bytes and not all of them. It fails with
/// `OutOfMemory` if allocation fails.
pub fn read_bundle<A: Allocator + Copy>(
    alloc: A,
    bytes: &[u8],
    width: u32,
) -> Result<Vec<Vec<u8, A>, A>, BundleFault>
    requires some { 0 < width }
    requires at_most_256 { width ≤ 256 }
    ensures { ReadsBundle bytes.now width result }
{
    check_bundle(bytes, width)?;
    let entries = split_bundle(alloc, bytes, width)?;
    Ok(entries)
}
