//! The point at which the tree over a list of entries splits.

ghost use Rattle.std.specs.Prelude.{◌<◌};
ghost use Rattle.tl_hash.specs.Split.{IsSplit};

/// Returns k, the largest power of two below `n` (RFC 6962, section 2.1). In the tree over `n` entries the left part
/// is over the first k. `n` is at least 2.
pub fn split_point(n: u64) -> u64
    requires { 1 < n }
    ensures { IsSplit result n }
{
    // this is the least power of two that is at least half of `n`, rounded up
    (n - n / 2).next_power_of_two()
}
