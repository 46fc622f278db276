//! Inclusion and consistency proofs from stored hashes.

ghost use Rattle.std.specs.Prelude.{◌≡◌, ◌≤◌, ◌++◌, ◌↔◌, List, length, map, sum, take, vec_items, All, IsTrue, IfOk, IfErr, OnOk};
ghost use Rattle.tl_hash.specs.Bytes.{Bytes};
ghost use Rattle.tl_store.specs.Reader.{readable_size};
ghost use Rattle.tl_proof.specs.Proofs.{inclusion_proof, consistency_proof};
ghost use Rattle.tl_proof.specs.Needs.{inclusion_needs, records_need, consistency_needs};
ghost use Rattle.tl_proof.specs.ProveFaults.{IsIndex, IsOldSize, GivesProveFault, GivesProofsFault};
ghost use Rattle.tl_proof.specs.Inner.ManyPaths.{cut_into};

use crate::fault::ProveFault;
use crate::plan::{path_segments, paths_segments, proof_segments};
use crate::read::read_segments;
use std::alloc::{AllocError, Allocator};
use tl_hash::{Hash, TreeHash};
use tl_store::HashReader;

/// Returns the inclusion proof of the entry at `index`, counted from 0, among the first `size` (PATH of RFC 6962,
/// section 2.1.1): at most 62 hashes, the one nearest to the leaf first, from one `read`. It fails with `BadRange` if
/// `index` isn't below `size` or `size` is above 2^62, and with `Read(OutOfRange)` if a hash is over an entry past
/// the reader's last. A fault of the reader's source is returned as it is.
pub fn prove_record<T: TreeHash, R: HashReader, A: Allocator + Copy>(
    alloc: A,
    h: T,
    size: u64,
    index: u64,
    reader: &R,
) -> Result<Vec<Hash, A>, ProveFault>
    ensures path { (entries more : List Bytes) → R.stands_for reader.now T.digest_of entries
        → size ≤ length (entries ++ more) → IfOk result
        (λ proof. proof.items ≡ inclusion_proof T.digest_of index (take size (entries ++ more))) }
    ensures in_range { OnOk result
        (IsIndex size index × (inclusion_needs size index ≤ readable_size (R.size reader.now))) }
    ensures faults { IfErr result (GivesProveFault (IsIndex size index)
        (R.size reader.now) (R.may_fail reader.now) (inclusion_needs size index)) }
{
    if !is_index(size, index) {
        return Err(ProveFault::BadRange);
    }
    let segments = path_segments(alloc, size, index)?;
    Ok(read_segments(alloc, h, &segments, reader)?)
}

// Reports whether this is an index among the first `size` entries, and `size` is at most 2^62.
fn is_index(size: u64, index: u64) -> bool
    ensures { IsTrue result ↔ IsIndex size index }
{
    index < size && size <= 1 << 62
}

// Reports whether these are all indexes among the first `size` entries.
fn are_indexes(size: u64, indexes: &[u64]) -> bool
    ensures { IsTrue result ↔ All (IsIndex size) indexes.now }
{
    indexes.iter().all(|index| is_index(size, *index))
}

// Cuts a list of hashes into lists of these lengths, from its beginning.
fn cut_hashes<A: Allocator + Copy>(
    alloc: A,
    counts: &[usize],
    hashes: &[Hash],
) -> Result<Vec<Vec<Hash, A>, A>, AllocError>
    requires { sum counts.now ≤ length hashes.now }
    ensures lists { IfOk result
        (λ lists. map vec_items lists.items ≡ cut_into counts.now hashes.now) }
    ensures count { IfOk result (λ lists. length lists.items ≡ length counts.now) }
{
    let mut lists = Vec::new(alloc);
    let mut left = hashes;
    for count in counts {
        let (list, rest) = left.split_at(*count);
        lists.push(Vec::from_slice(alloc, list)?)?;
        left = rest;
    }
    Ok(lists)
}

/// Returns the inclusion proofs of the entries at these indexes among the first `size`, in order. Each is the proof
/// that `prove_record` makes. All hashes come from one `read`, or from none if no index is given. It fails with
/// `BadRange` if an index isn't below `size`, or if there is an index and `size` is above 2^62, and with
/// `Read(OutOfRange)` if a hash is over an entry past the reader's last. A fault of the reader's source is returned
/// as it is.
pub fn prove_records<T: TreeHash, R: HashReader, A: Allocator + Copy>(
    alloc: A,
    h: T,
    size: u64,
    indexes: &[u64],
    reader: &R,
) -> Result<Vec<Vec<Hash, A>, A>, ProveFault>
    ensures paths { (entries more : List Bytes) → R.stands_for reader.now T.digest_of entries
        → size ≤ length (entries ++ more) → IfOk result (λ proofs. map vec_items proofs.items ≡ map
        (λ index. inclusion_proof T.digest_of index (take size (entries ++ more))) indexes.now) }
    ensures count { IfOk result (λ proofs. length proofs.items ≡ length indexes.now) }
    ensures in_range { OnOk result (All (IsIndex size) indexes.now
        × (records_need size indexes.now ≤ readable_size (R.size reader.now))) }
    ensures faults { IfErr result (GivesProofsFault (All (IsIndex size) indexes.now) (length
        indexes.now) (R.size reader.now) (R.may_fail reader.now) (records_need size indexes.now)) }
{
    if indexes.is_empty() {
        return Ok(Vec::new(alloc));
    }
    if !are_indexes(size, indexes) {
        return Err(ProveFault::BadRange);
    }
    let plan = paths_segments(alloc, size, indexes)?;
    let hashes = read_segments(alloc, h, &plan.segments, reader)?;
    Ok(cut_hashes(alloc, &plan.counts, &hashes)?)
}

/// Returns the consistency proof from the first `old` entries to the first `size` (PROOF of RFC 6962, section 2.1.2):
/// at most 63 hashes, the one nearest to the leaves first, from one `read`. From the old size 0 it is empty, and an
/// empty proof reads nothing. It fails with `BadRange` if `old` is above `size` or `size` is above 2^62, and with
/// `Read(OutOfRange)` if the proof has a hash and `size` is above the reader's. A fault of the reader's source is
/// returned as it is.
pub fn prove_tree<T: TreeHash, R: HashReader, A: Allocator + Copy>(
    alloc: A,
    h: T,
    size: u64,
    old: u64,
    reader: &R,
) -> Result<Vec<Hash, A>, ProveFault>
    ensures proof { (entries more : List Bytes) → R.stands_for reader.now T.digest_of entries
        → size ≤ length (entries ++ more) → IfOk result
        (λ proof. proof.items ≡ consistency_proof T.digest_of old (take size (entries ++ more))) }
    ensures in_range { OnOk result
        (IsOldSize size old × (consistency_needs size old ≤ readable_size (R.size reader.now))) }
    ensures faults { IfErr result (GivesProveFault (IsOldSize size old)
        (R.size reader.now) (R.may_fail reader.now) (consistency_needs size old)) }
{
    if old > size || size > 1 << 62 {
        return Err(ProveFault::BadRange);
    }
    if old == 0 || old == size {
        return Ok(Vec::new(alloc));
    }
    let segments = proof_segments(alloc, size, old)?;
    Ok(read_segments(alloc, h, &segments, reader)?)
}
