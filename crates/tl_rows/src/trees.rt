//! Rows of hashes of trees.

use crate::words::{Told, Words, bytes_of, entries_of, put_hash, unknown};
use std::alloc::Global;
use tl_hash::{Sha256Tree, TreeHash, empty_hash, entry_root, leaf_hash, node_hash, split_point};
use tl_testing::SumDigest;

// Writes the root of the entries that a word names, or of none.
fn tree<T: TreeHash>(alloc: Global, h: T, words: &mut Words<'_>, out: &mut String) -> Told {
    if words.next() == "empty" {
        return put_hash(out, empty_hash(h));
    }
    let entries = entries_of(alloc, words.next())?;
    put_hash(out, entry_root(h, entries.as_slice()))
}

// Writes the place at which a tree of this many entries is split.
fn split(size: u64, out: &mut String) -> Told {
    if size < 2 {
        return unknown(out);
    }
    write!(out, "{}", split_point(size))
}

/// Writes the answer of a call.
pub(crate) fn answer(alloc: Global, words: &mut Words<'_>, out: &mut String) -> Told {
    let before = *words;
    match words.next() {
        "leaf" => {
            let entry = bytes_of(alloc, words.next())?;
            put_hash(out, leaf_hash(Sha256Tree, entry.as_slice()))
        }
        "node" => {
            let left = words.hash();
            put_hash(out, node_hash(Sha256Tree, left, words.hash()))
        }
        "split" => split(words.number(), out),
        "sum" => tree(alloc, SumDigest, words, out),
        _ => {
            *words = before;
            tree(alloc, Sha256Tree, words, out)
        }
    }
}
