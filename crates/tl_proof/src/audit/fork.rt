//! What an audit finds: two nodes with one digest over different hashes, or the entries at one place.

use tl_hash::Hash;

/// The two hashes that a node is over.
#[derive(Clone, Copy)]
pub(crate) struct Children {
    pub(crate) left: Hash,
    pub(crate) right: Hash,
}

/// Two nodes, one of each tree.
#[derive(Clone, Copy)]
pub(crate) struct Fork {
    pub(crate) first: Children,
    pub(crate) second: Children,
}

/// The old and the new root that the check of a proof leads to, the root of the list beside it, and the uppermost two
/// nodes over different hashes on the way to the old root.
#[derive(Clone, Copy)]
pub(crate) struct CheckWalk {
    pub(crate) old: Hash,
    pub(crate) new: Hash,
    pub(crate) list: Hash,
    pub(crate) fork: Option<Fork>,
}

/// The hashes of two nodes, and the uppermost two nodes over different hashes on one way down from them, which may be
/// these two themselves.
#[derive(Clone, Copy)]
pub(crate) struct Walk {
    pub(crate) first: Hash,
    pub(crate) second: Hash,
    pub(crate) fork: Option<Fork>,
}
