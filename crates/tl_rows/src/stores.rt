//! Rows of stored hashes: their numbers, those of a store, and heads.

use crate::words::{Told, Words, entries_of, number_of, put, unknown};
use std::alloc::{AllocError, Global};
use tl_hash::Sha256Tree;
use tl_store::{
    HashReader, HashStore, ReadFault, split_index, stored_count, stored_index, tree_hash,
};
use tl_testing::store_of;
use tl_testing::vectors::numbered;

/// A store over hashes by SHA-256.
pub(crate) type Store = HashStore<Sha256Tree, Global>;

/// Returns the store of the entries that a word names.
pub(crate) fn named_store(alloc: Global, word: &str) -> Result<Store, AllocError> {
    let entries = entries_of(alloc, word)?;
    store_of(alloc, Sha256Tree, entries.as_slice())
}

// Writes the number of the hash of a subtree.
fn index(level: u64, place: u64, out: &mut String) -> Told {
    let level = (level % 63) as u32;
    if place >= (1u64 << 62) >> level {
        return unknown(out);
    }
    write!(out, "{}", stored_index(level, place))
}

// Writes the level and the place of the subtree whose hash has a number.
fn split(index: u64, out: &mut String) -> Told {
    if index >= (1 << 63) - 1 {
        return unknown(out);
    }
    let (level, place) = split_index(index);
    write!(out, "{level} {place}")
}

// Writes how many hashes a store of this many entries has.
fn count(size: u64, out: &mut String) -> Told {
    if size > 1 << 62 {
        return unknown(out);
    }
    write!(out, "{}", stored_count(size))
}

// Adds this many of the numbers from 0 up to a store.
fn add(alloc: Global, store: &mut Store, count: u64) -> Told {
    let entries = numbered(alloc, (count % 100_000) as u32)?;
    if store.size() < 100_000 && entries.len() < 100_000 {
        store.append_all(entries.as_slice())?;
    }
    Ok(())
}

// Writes the roots of a store after each of some batches of numbers from 0 up.
fn batches(alloc: Global, counts: &str, out: &mut String) -> Told {
    let mut store = HashStore::new(alloc, Sha256Tree);
    out.push_str("roots")?;
    for count in counts.split(',') {
        add(alloc, &mut store, number_of(count))?;
        out.push('\n')?;
        put(out, tree_hash(alloc, Sha256Tree, store.size(), &store))?;
    }
    Ok(())
}

// Writes the hashes of a store with some numbers.
fn hashes(alloc: Global, words: &mut Words<'_>, out: &mut String) -> Told {
    let store = named_store(alloc, words.next())?;
    let numbers = words.numbers(alloc)?;
    let answer: Result<Vec<_>, ReadFault> = store.read(alloc, numbers.as_slice());
    put(out, answer)
}

// Writes the root of the first entries of a store.
fn head(alloc: Global, words: &mut Words<'_>, out: &mut String) -> Told {
    let store = named_store(alloc, words.next())?;
    put(out, tree_hash(alloc, Sha256Tree, words.number(), &store))
}

/// Writes the answer of a call.
pub(crate) fn answer(alloc: Global, words: &mut Words<'_>, out: &mut String) -> Told {
    match words.next() {
        "index" => {
            let level = words.number();
            index(level, words.number(), out)
        }
        "split" => split(words.number(), out),
        "count" => count(words.number(), out),
        "batches" => batches(alloc, words.next(), out),
        "head" => head(alloc, words, out),
        _ => hashes(alloc, words, out),
    }
}
