//! Tree hashes from stored hashes.

ghost use Rattle.std.specs.Prelude.{◌≡◌, ◌≤◌, List, [], take, Ok, IfOk, IfErr, OnOk};
ghost use Rattle.tl_hash.specs.Bytes.{Bytes};
ghost use Rattle.tl_hash.specs.Tree.{tree_hash as tree_hash_of};
ghost use Rattle.tl_store.specs.Reader.{readable_size};
ghost use Rattle.tl_store.specs.Head.{GivesHeadFault};

use crate::reader::{HashReader, ReadFault};
use crate::segment::{cover_hash, segment_indexes};
use std::alloc::Allocator;
use tl_hash::{Hash, TreeHash, empty_hash};

/// Returns the tree hash of the first `size` entries (RFC 6962, section 2.1). It reads the hashes of the complete
/// subtrees that cover them, at most 62, in one `read`, and nothing for size 0. It fails with `OutOfRange` if `size`
/// is above the reader's size or above 2^62. It allocates only for sizes from 1 to 2^62. A fault of the reader's
/// source is returned as it is.
pub fn tree_hash<T: TreeHash, R: HashReader, A: Allocator + Copy>(
    alloc: A,
    h: T,
    size: u64,
    reader: &R,
) -> Result<Hash, ReadFault>
    ensures root { (entries : List Bytes) → R.stands_for reader.now T.digest_of entries
        → IfOk result (λ root. root ≡ tree_hash_of T.digest_of (take size entries)) }
    ensures empty { size ≡ 0 → result ≡ Ok (T.digest_of []) }
    ensures in_range { OnOk result (size ≤ readable_size (R.size reader.now)) }
    ensures faults { IfErr result
        (GivesHeadFault (R.size reader.now) (R.may_fail reader.now) size) }
{
    if size == 0 {
        return Ok(empty_hash(h));
    }
    if size > 1 << 62 {
        return Err(ReadFault::OutOfRange);
    }
    let indexes = segment_indexes(alloc, 0, size)?;
    let hashes = reader.read(alloc, &indexes)?;
    Ok(cover_hash(h, &hashes))
}
