//! The numbers of stored hashes, computed from binary digits (Go's golang.org/x/mod/sumdb/tlog).

ghost use Rattle.std.specs.Prelude.{◌≡◌, ◌≤◌, ◌<◌, ◌+◌, ◌-◌, ◌*◌, ◌^◌, List, length, take, drop};
ghost use Rattle.tl_hash.specs.Bytes.{Bytes, Digest};
ghost use Rattle.tl_hash.specs.Tree.{tree_hash};
ghost use Rattle.tl_store.specs.Stored as spec;

/// Returns the number of hashes stored for the first `n` entries: one for each complete subtree over them. `n` is at
/// most 2^62.
pub fn stored_count(n: u64) -> u64
    requires { n ≤ 2 ^ 62 }
    ensures subtrees { result ≡ spec.stored_count n }
    ensures hashes { (H : Digest) (entries : List Bytes)
        → length entries ≡ n
        → length (spec.stored_hashes H entries) ≡ result }
{
    2 * n - n.count_ones() as u64
}

/// Returns the number of the stored hash of a complete subtree: the one at place `n` of `level`, which is over the
/// 2^level entries from n * 2^level on. Level 0 has the leaves. The subtree must lie within 2^62 entries.
pub fn stored_index(level: u32, n: u64) -> u64
    requires level { level ≤ 62 }
    requires entries { (n + 1) * 2 ^ level ≤ 2 ^ 62 }
    ensures number { result ≡ spec.stored_index level n }
    ensures hash { (H : Digest) (entries : List Bytes)
        → (n + 1) * 2 ^ level ≤ length entries
        → spec.stored_hash H entries result
        ≡ tree_hash H (take (2 ^ level) (drop (n * 2 ^ level) entries)) }
{
    stored_count((n + 1) * 2u64.pow(level) - 1) + level as u64
}

// Returns the number of entries before the last entry of the subtree with this number. The count for n entries is
// between n and 2 * n, so the search begins at half of the number, and takes no more steps than the number has binary
// digits.
fn entries_before(index: u64) -> u64
    requires { index < 2 ^ 63 - 1 }
    ensures low { spec.stored_count result ≤ index }
    ensures high { index < spec.stored_count (result + 1) }
    ensures small { result < 2 ^ 62 }
{
    let mut n = index / 2;
    while stored_count(n + 1) <= index {
        n += 1;
    }
    n
}

/// Returns the level and place of the complete subtree whose stored hash has this number. It is the inverse of
/// `stored_index`. `index` is below 2^63 - 1, the count for 2^62 entries.
pub fn split_index(index: u64) -> (u32, u64)
    requires { index < 2 ^ 63 - 1 }
    ensures number { spec.stored_index result.0 result.1 ≡ index }
    ensures level { result.0 ≤ 62 }
    ensures entries { (result.1 + 1) * 2 ^ result.0 ≤ 2 ^ 62 }
{
    let n = entries_before(index);
    let level = (index - stored_count(n)) as u32;
    (level, (n + 1) / 2u64.pow(level) - 1)
}
