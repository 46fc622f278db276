//! The bytes of commits.

ghost use Rattle.std.specs.Prelude.{◌≡◌, ◌≢◌, ◌++◌, ℕ, List, IfErr, IfOk, MatchBool, MatchOption, map, vec_items, nat_lt, position};
ghost use Rattle.tl_hash.specs.Bytes.{Bytes};
ghost use Rattle.tl_text.specs.Text.{line, number_text, HasNoControl, IsSize};
ghost use Rattle.tl_text.specs.Pieces.{IsNoLine, IsNoSize};
ghost use Rattle.tl_tile.specs.Bundle.{bundle_text, bundled_entry, AreShortEntries, IsShortEntry};
ghost use Rattle.tl_bucket.specs.Commits as spec;
ghost use Rattle.tl_bucket.specs.Commits.{IsBehind, IsCommit};
ghost use Rattle.tl_bucket.specs.declared.commit.CommitFault.TheVariants.{Malformed, OutOfMemory};

use itoa::Buffer;
use std::alloc::{AllocError, Allocator};
use std::str;
use tl_text::{parse_size, push_line};

/// A commit that was read.
#[derive(Drop)]
pub(crate) struct Commit<A: Allocator> {
    /// How many entries come before it.
    pub(crate) start: u64,
    /// The token of the run that made it.
    pub(crate) token: Vec<u8, A>,
    /// The entries that it appends.
    pub(crate) entries: Vec<Vec<u8, A>, A>,
}

/// Why bytes weren't read as a commit.
#[derive(Clone, Copy)]
pub(crate) enum CommitFault {
    /// The bytes aren't those of a commit.
    Malformed,
    /// Allocation failed.
    OutOfMemory,
}

impl From<AllocError> for CommitFault {
    ghost from_gives = { λ _ fault. fault ≡ OutOfMemory };

    fn from(_error: AllocError) -> CommitFault {
        CommitFault::OutOfMemory
    }
}

/// Returns the bytes before the entries of a commit that comes after `start` entries and has this token. With a token
/// that isn't one line they begin no commit. It fails only when allocation fails.
pub(crate) fn commit_front<A: Allocator>(
    alloc: A,
    start: u64,
    token: &[u8],
) -> Result<Vec<u8, A>, AllocError>
    ensures { IfOk result (λ front. front.items ≡ spec.commit_front start token.now) }
{
    let mut lines = String::new(alloc);
    push_line(&mut lines, "tlog commit")?;
    push_line(&mut lines, Buffer::new().format(start))?;
    let mut front = lines.into_bytes();
    front.extend_from_slice(token)?;
    front.extend_from_slice(b"\n\n")?;
    Ok(front)
}

// Returns the index of the first control character.
fn first_control(bytes: &[u8]) -> Option<usize>
    ensures { result ≡ position (λ byte. nat_lt byte 32) bytes.now }
{
    bytes.iter().position(|byte| *byte < 0x20)
}

/// Returns the first line, without its newline, and the bytes after it. A line ends with a newline and has no other
/// byte below 0x20.
pub(crate) fn cut_line(bytes: &[u8]) -> Option<(&[u8], &[u8])>
    ensures { MatchOption result (IsNoLine bytes.now)
        (λ r. HasNoControl r.0.now × (bytes.now ≡ line r.0.now ++ r.1.now)) }
{
    let Some(end) = first_control(bytes) else {
        return None;
    };
    if bytes[end] != b'\n' {
        return None;
    }
    Some((&bytes[..end], &bytes[end + 1..]))
}

/// Returns the number below 2^63 that bytes write in decimal, without sign or leading zeros.
pub(crate) fn read_size(bytes: &[u8]) -> Option<u64>
    ensures { MatchOption result (IsNoSize bytes.now)
        (λ size. IsSize size × (bytes.now ≡ number_text size)) }
{
    match str::from_utf8(bytes) {
        Ok(text) => parse_size(text),
        Err(_) => None,
    }
}

// Returns how many entries come before a commit, its token, and the bytes of its entries.
fn split_front(bytes: &[u8]) -> Option<(u64, &[u8], &[u8])>
    ensures { MatchOption result
        ((start : ℕ) (token rest : Bytes) → IsSize start → HasNoControl token
        → bytes.now ≢ spec.commit_front start token ++ rest)
        (λ r. IsSize r.0 × HasNoControl r.1.now
        × (bytes.now ≡ spec.commit_front r.0 r.1.now ++ r.2.now)) }
{
    let Some(rest) = bytes.strip_prefix(b"tlog commit\n") else {
        return None;
    };
    let Some((number, rest)) = cut_line(rest) else {
        return None;
    };
    let Some(start) = read_size(number) else {
        return None;
    };
    let Some((token, rest)) = cut_line(rest) else {
        return None;
    };
    let Some(rest) = rest.strip_prefix(b"\n") else {
        return None;
    };
    Some((start, token, rest))
}

// Returns the first entry, and the bytes after it.
fn first_entry(bytes: &[u8]) -> Option<(&[u8], &[u8])>
    ensures { MatchOption result
        ((entry rest : Bytes) → IsShortEntry entry → bytes.now ≢ bundled_entry entry ++ rest)
        (λ r. IsShortEntry r.0.now × (bytes.now ≡ bundled_entry r.0.now ++ r.1.now)) }
{
    let [high, low, rest @ ..] = bytes else {
        return None;
    };
    let len = u16::from_be_bytes([*high, *low]) as usize;
    if rest.len() < len {
        return None;
    }
    Some(rest.split_at(len))
}

// Reports whether bytes are those of entries, each with its length before it. It allocates nothing.
fn are_entries(bytes: &[u8]) -> bool
    ensures { MatchBool result
        ((entries : List Bytes) × AreShortEntries entries × (bytes.now ≡ bundle_text entries))
        ((entries : List Bytes) → AreShortEntries entries → bytes.now ≢ bundle_text entries) }
{
    let mut rest = bytes;
    while !rest.is_empty() {
        let Some((_, after)) = first_entry(rest) else {
            return false;
        };
        rest = after;
    }
    true
}

// Returns the entries in these bytes, each with its length before it.
fn split_entries<A: Allocator + Copy>(
    alloc: A,
    bytes: &[u8],
) -> Result<Vec<Vec<u8, A>, A>, AllocError>
    requires { (entries : List Bytes) × AreShortEntries entries
        × (bytes.now ≡ bundle_text entries) }
    ensures { IfOk result (λ entries. AreShortEntries (map vec_items entries.items)
        × (bytes.now ≡ bundle_text (map vec_items entries.items))) }
{
    let mut entries = Vec::new(alloc);
    let mut rest = bytes;
    while !rest.is_empty() {
        let Some((entry, after)) = first_entry(rest) else {
            unreachable!();
        };
        let entry = Vec::from_slice(alloc, entry)?;
        entries.push(entry)?;
        rest = after;
    }
    Ok(entries)
}

/// Returns the commit that has these bytes. It is `Malformed` if and only if no commit has them, which is decided
/// before anything is allocated, and `OutOfMemory` if allocation fails.
pub(crate) fn read_commit<A: Allocator + Copy>(
    alloc: A,
    bytes: &[u8],
) -> Result<Commit<A>, CommitFault>
    ensures read { IfOk result (λ c. IsCommit bytes.now (record {
      start = c.start;
      token = c.token.items;
      entries = map vec_items c.entries.items;
    })) }
    ensures none { IfErr result (λ fault. fault ≡ Malformed
        → (c : spec.Commit) → ¬ (IsCommit bytes.now c)) }
    ensures memory { IfErr result (λ fault. fault ≡ OutOfMemory
        → (c : spec.Commit) × IsCommit bytes.now c) }
{
    let Some((start, token, rest)) = split_front(bytes) else {
        return Err(CommitFault::Malformed);
    };
    if !are_entries(rest) {
        return Err(CommitFault::Malformed);
    }
    let token = Vec::from_slice(alloc, token)?;
    let entries = split_entries(alloc, rest)?;
    Ok(Commit {
        start,
        token,
        entries,
    })
}

/// Returns the bytes after the first `count` entries, each with its length before it, or `None` if there are fewer.
/// It allocates nothing.
pub(crate) fn behind(bytes: &[u8], count: u64) -> Option<&[u8]>
    ensures { MatchOption result ((rest : Bytes) → ¬ (IsBehind bytes.now count rest))
        (λ rest. IsBehind bytes.now count rest.now) }
{
    let mut rest = bytes;
    for _ in 0..count {
        let Some((_, after)) = first_entry(rest) else {
            return None;
        };
        rest = after;
    }
    Some(rest)
}
