//! Tree heads.

use crate::hash::Hash;

/// The size of a log, and the Merkle tree hash of its first `size` entries (RFC 6962, section 2.1).
#[derive(Clone, Copy, Debug, PartialEq, Eq)]
pub struct Head {
    pub size: u64,
    pub root: Hash,
}
