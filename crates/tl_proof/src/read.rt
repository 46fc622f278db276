//! Tree hashes of segments, from stored hashes.

ghost use Rattle.std.specs.Prelude.{◌≡◌, ◌≤◌, ◌<◌, ◌-◌, ◌^◌, ◌++◌, ℕ, List, length, map, min, All, IfOk, IfErr, OnOk, OnErr};
ghost use Rattle.std.specs.Int.RustNames.{count_ones};
ghost use Rattle.tl_hash.specs.Bytes.{Bytes};
ghost use Rattle.tl_store.specs.Stored.{stored_hash};
ghost use Rattle.tl_store.specs.Reader.{readable_size};
ghost use Rattle.tl_store.specs.Head.{GivesHeadFault};
ghost use Rattle.tl_proof.specs.Inner.Segments.{IsSegment, IsNeeded, AreGroups, subtree_count, segment_root};

use crate::plan::Segment;
use std::alloc::{AllocError, Allocator};
use tl_hash::{Hash, TreeHash};
use tl_store::{HashReader, ReadFault, cover_hash, cover_indexes};

// Returns the number of complete subtrees that cover a segment.
fn subtrees(segment: Segment) -> usize
    requires { segment.start ≤ segment.end }
    ensures { result ≡ count_ones (segment.end - segment.start) }
{
    (segment.end - segment.start).count_ones() as usize
}

// Returns the number of complete subtrees that cover these segments, or 2^64 - 1 if it is larger; no list has room
// for that many.
fn all_subtrees(segments: &[Segment]) -> usize
    requires { All IsSegment segments.now }
    ensures { result ≡ min (subtree_count segments.now) (2 ^ 64 - 1) }
{
    let mut count: usize = 0;
    for segment in segments {
        count = count.saturating_add(subtrees(*segment));
    }
    count
}

// Returns the numbers of the complete subtrees that cover each segment, one segment after another. It allocates once.
fn group_indexes<A: Allocator>(alloc: A, segments: &[Segment]) -> Result<Vec<u64, A>, AllocError>
    requires parts { All IsSegment segments.now }
    requires small { All (λ s. s.end ≤ 2 ^ 62) segments.now }
    ensures groups { IfOk result (λ indexes. AreGroups segments.now indexes.items) }
    ensures some { OnErr result (0 < length segments.now) }
{
    let mut indexes = Vec::new(alloc);
    indexes.reserve(all_subtrees(segments))?;
    for segment in segments {
        cover_indexes(&mut indexes, segment.start, segment.end);
    }
    Ok(indexes)
}

// Returns the tree hash of each segment from the hashes of the complete subtrees that cover it.
fn group_hashes<T: TreeHash, A: Allocator>(
    alloc: A,
    h: T,
    segments: &[Segment],
    hashes: &[Hash],
) -> Result<Vec<Hash, A>, AllocError>
    requires parts { All IsSegment segments.now }
    requires count { length hashes.now ≡ subtree_count segments.now }
    ensures hashes { (entries more : List Bytes) (indexes : List ℕ)
        → AreGroups segments.now indexes → All (λ s. s.end ≤ length entries) segments.now
        → hashes.now ≡ map (stored_hash T.digest_of entries) indexes → IfOk result
        (λ roots. roots.items ≡ map (segment_root T.digest_of (entries ++ more)) segments.now) }
    ensures count { IfOk result (λ roots. length roots.items ≡ length segments.now) }
    ensures some { OnErr result (0 < length segments.now) }
{
    let mut roots = Vec::new(alloc);
    let mut from = 0;
    for segment in segments {
        let to = from + subtrees(*segment);
        roots.push(cover_hash(h, &hashes[from..to]))?;
        from = to;
    }
    Ok(roots)
}

/// Returns the tree hashes of these segments, from one read. They are the same over any list that begins with the
/// reader's entries. It fails with `OutOfRange` if a segment has an entry past the reader's last.
pub(crate) fn read_segments<T: TreeHash, R: HashReader, A: Allocator + Copy>(
    alloc: A,
    h: T,
    segments: &[Segment],
    reader: &R,
) -> Result<Vec<Hash, A>, ReadFault>
    requires parts { All IsSegment segments.now }
    requires small { All (λ s. s.end ≤ 2 ^ 62) segments.now }
    ensures hashes { (entries more : List Bytes)
        → R.stands_for reader.now T.digest_of entries → IfOk result
        (λ proof. proof.items ≡ map (segment_root T.digest_of (entries ++ more)) segments.now) }
    ensures count { IfOk result (λ proof. length proof.items ≡ length segments.now) }
    ensures in_range { (needed : ℕ) → IsNeeded 0 needed segments.now
        → OnOk result (needed ≤ readable_size (R.size reader.now)) }
    ensures faults { (needed : ℕ) → IsNeeded 0 needed segments.now
        → IfErr result (GivesHeadFault (R.size reader.now) (R.may_fail reader.now) needed) }
{
    let indexes = group_indexes(alloc, segments)?;
    let hashes = reader.read(alloc, &indexes)?;
    Ok(group_hashes(alloc, h, segments, &hashes)?)
}
