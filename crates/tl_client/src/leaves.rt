//! The leaf hashes of a bundle, from the tiles and from the entries.

ghost use Rattle.std.specs.Prelude.{◌≡◌, ◌↔◌, ◌<◌, ◌≤◌, ◌+◌, ◌^◌, ℕ, IsTrue, [], length, map, slice_index_or, vec_items, IfOk, IfErr, OnOk};
ghost use Rattle.sha2.specs.Sha256.{sha256};
ghost use Rattle.tl_hash.specs.Tree.{leaf_input};
ghost use Rattle.tl_tile.specs.TileReader.{AreAuthentic};
ghost use Rattle.tl_tile.specs.Verified.{AreVerified, HavePassed};
ghost use Rattle.tl_client.specs.Blame.{AddsServed, leaf_numbers, leaf_reading};
ghost use Rattle.tl_client.specs.Inner.Leaves.{HaveLeaves, HaveLeavesBetween, IsOfOne, RefusesLeaves};

use crate::fault::ClientFault;
use crate::source::{ResourceSource, Tiles};
use std::alloc::{AllocError, Allocator};
use tl_hash::{Hash, Sha256Tree, TreeHash, leaf_hash};
use tl_store::stored_index;
use tl_tile::{FetchedTiles, TileHashReader};

// Returns the stored indexes of `count` leaves, from the one of entry `first` on.
fn numbers_of<A: Allocator>(alloc: A, first: u64, count: u32) -> Result<Vec<u64, A>, AllocError>
    requires { first + count ≤ 2 ^ 62 }
    ensures { IfOk result (λ numbers. numbers.items ≡ leaf_numbers first count) }
{
    let mut numbers = Vec::new(alloc);
    for i in 0..count {
        numbers.push(stored_index(0, first + i as u64))?;
    }
    Ok(numbers)
}

/// Returns `count` leaf hashes of a log of this size and root, from the one of entry `first` on. `fetched` holds
/// tiles that have passed all checks, or none; the tiles that are fetched are added after them.
pub(crate) fn read_leaves<S: ResourceSource, A: Allocator + Copy>(
    alloc: A,
    source: &S,
    size: u64,
    root: Hash,
    first: u64,
    count: u32,
    fetched: &mut FetchedTiles<A>,
) -> Result<Vec<Hash, A>, ClientFault>
    requires some { 0 < count }
    requires inside { first + count ≤ size }
    requires limit { size ≤ 2 ^ 62 }
    requires passed { HavePassed sha256 size root fetched.old }
    ensures authentic { IfOk result (λ leaves.
        AreAuthentic sha256 (leaf_reading size root first count fetched.new) leaves.items) }
    ensures verified { OnOk result (AreVerified sha256 size root fetched.new) }
    ensures passed { OnOk result (HavePassed sha256 size root fetched.new) }
    ensures count { IfOk result (λ leaves. length leaves.items ≡ count) }
    ensures served { AddsServed (S.may_answer source.now) size fetched.old fetched.new }
    ensures refused { IfErr result (RefusesLeaves (S.may_lack source.now)
        (leaf_reading size root first count fetched.new)) }
{
    let numbers = numbers_of(alloc, first, count)?;
    let reader = TileHashReader::new(alloc, Sha256Tree, size, root, Tiles(source));
    let leaves = reader.read_after(alloc, &numbers, fetched)?;
    Ok(leaves)
}

// Reports whether two hashes are the same.
fn is_same(a: Hash, b: Hash) -> bool
    ensures { IsTrue result ↔ (a ≡ b) }
{
    a == b
}

// Checks that `hash`, the leaf hash of the entry at a position, is also at this position of the leaf hashes.
fn check_place<A: Allocator>(
    first: u64,
    entries: &[Vec<u8, A>],
    leaves: &[Hash],
    place: usize,
    hash: Hash,
) -> Result<(), ClientFault>
    requires below { place < length entries.now }
    requires hash { hash
        ≡ sha256 (leaf_input (slice_index_or (map vec_items entries.now) place [])) }
    requires count { length leaves.now ≡ length entries.now }
    requires limit { first + length entries.now ≤ 2 ^ 62 }
    ensures leaf { OnOk result (sha256 (leaf_input (slice_index_or (map vec_items entries.now) place
        [])) ≡ slice_index_or leaves.now place []) }
    ensures fault { IfErr result (IsOfOne first (map vec_items entries.now) leaves.now) }
{
    if !is_same(hash, leaves[place]) {
        return Err(ClientFault::BadEntry(first + place as u64));
    }
    Ok(())
}

// Returns the leaf hashes of the four entries from this position on.
fn hash_four<A: Allocator>(entries: &[Vec<u8, A>], from: usize) -> [Hash; 4]
    requires { from + 4 ≤ length entries.now }
    ensures { (j : ℕ) → j < 4 → slice_index_or result j []
        ≡ sha256 (leaf_input (slice_index_or (map vec_items entries.now) (from + j) [])) }
{
    let (a, b) = (&entries[from], &entries[from + 1]);
    let (c, d) = (&entries[from + 2], &entries[from + 3]);
    Sha256Tree.digest_four(0, a, b, c, d)
}

// Checks the leaf hashes of the four entries from this position on.
fn check_four<A: Allocator>(
    first: u64,
    entries: &[Vec<u8, A>],
    leaves: &[Hash],
    from: usize,
) -> Result<(), ClientFault>
    requires four { from + 4 ≤ length entries.now }
    requires count { length leaves.now ≡ length entries.now }
    requires limit { first + length entries.now ≤ 2 ^ 62 }
    ensures leaves { OnOk result
        (HaveLeavesBetween sha256 from (from + 4) (map vec_items entries.now) leaves.now) }
    ensures fault { IfErr result (IsOfOne first (map vec_items entries.now) leaves.now) }
{
    let hashes = hash_four(entries, from);
    for j in 0..4 {
        check_place(first, entries, leaves, from + j, hashes[j])?;
    }
    Ok(())
}

// Checks the leaf hashes of the next four entries, or of one if there are fewer. Returns the position after them.
fn check_next<A: Allocator>(
    first: u64,
    entries: &[Vec<u8, A>],
    leaves: &[Hash],
    from: usize,
) -> Result<usize, ClientFault>
    requires below { from < length entries.now }
    requires count { length leaves.now ≡ length entries.now }
    requires limit { first + length entries.now ≤ 2 ^ 62 }
    ensures further { IfOk result (λ next. from < next) }
    ensures within { IfOk result (λ next. next ≤ length entries.now) }
    ensures leaves { IfOk result (λ next.
        HaveLeavesBetween sha256 from next (map vec_items entries.now) leaves.now) }
    ensures fault { IfErr result (IsOfOne first (map vec_items entries.now) leaves.now) }
{
    if from + 4 <= entries.len() {
        check_four(first, entries, leaves, from)?;
        return Ok(from + 4);
    }
    let hash = leaf_hash(Sha256Tree, &entries[from]);
    check_place(first, entries, leaves, from, hash)?;
    Ok(from + 1)
}

/// Checks that these are the leaf hashes of the entries. The first entry has index `first`.
pub(crate) fn check_leaves<A: Allocator>(
    first: u64,
    entries: &[Vec<u8, A>],
    leaves: &[Hash],
) -> Result<(), ClientFault>
    requires count { length leaves.now ≡ length entries.now }
    requires limit { first + length entries.now ≤ 2 ^ 62 }
    ensures leaves { OnOk result (HaveLeaves sha256 (map vec_items entries.now) leaves.now) }
    ensures fault { IfErr result (IsOfOne first (map vec_items entries.now) leaves.now) }
{
    let mut done = 0;
    while done < entries.len() {
        done = match check_next(first, entries, leaves, done) {
            Ok(next) => next,
            Err(fault) => return Err(fault),
        };
    }
    Ok(())
}
