//! Rows of stored hashes that are read from checked tiles, of a source that may change one tile.

use crate::proofs::made;
use crate::stores::{Store, named_store};
use crate::words::{Told, Words, entries_of, put};
use std::alloc::{AllocError, Allocator, Global};
use std::cell::Cell;
use tl_hash::{Hash, Sha256Tree, TreeHash};
use tl_store::{HashReader, HashStore, ReadFault, stored_count, stored_index, tree_hash};
use tl_testing::{SumDigest, store_of, stored_bytes};
use tl_tile::{
    FetchedTiles, Resource, SourceFault, Tile, TileHashReader, TileSource, needed, parse_path,
};

// What a source does to one tile: it lacks the tile, changes the first or the last byte, cuts or adds one, or
// exchanges the first two hashes.
#[derive(Clone, Copy)]
struct Trick<'s> {
    name: &'s str,
    tile: Option<Tile>,
}

// A source over a store, which counts its fetches.
#[derive(Drop)]
struct TrickSource<'s, T: TreeHash> {
    store: &'s HashStore<T, Global>,
    trick: Trick<'s>,
    fetches: &'s Cell<u32>,
}

// Exchanges the first two hashes.
fn exchange(bytes: &mut [u8]) {
    for place in 0..32usize {
        if bytes.len() >= 64 {
            bytes.swap(place, place + 32);
        }
    }
}

// Changes the bytes of a tile as a trick says.
fn spoil<A: Allocator>(trick: &str, bytes: &mut Vec<u8, A>) -> Result<(), SourceFault> {
    match trick {
        "changes-first" => {
            if let Some(first) = bytes.first_mut() {
                *first ^= 1;
            }
        }
        "changes-last" => {
            if let Some(last) = bytes.last_mut() {
                *last ^= 1;
            }
        }
        "cuts" => _ = bytes.pop(),
        "adds" => bytes.push(0)?,
        "exchanges" => exchange(bytes.as_mut_slice()),
        _ => return Err(SourceFault::Unavailable),
    }
    Ok(())
}

impl<T: TreeHash> TileSource for TrickSource<'_, T> {
    ghost may_answer = { λ s t text. Unit {0} };

    ghost may_lack = { λ s t. Unit {0} };

    fn fetch<A: Allocator + Copy>(&self, alloc: A, tile: Tile) -> Result<Vec<u8, A>, SourceFault> {
        self.fetches.set(self.fetches.get().saturating_add(1));
        let mut bytes = match stored_bytes(alloc, tile, self.store) {
            Ok(bytes) => bytes,
            Err(ReadFault::OutOfMemory) => return Err(SourceFault::OutOfMemory),
            Err(_) => return Err(SourceFault::Unavailable),
        };
        if self.trick.tile == Some(tile) {
            spoil(self.trick.name, &mut bytes)?;
        }
        Ok(bytes)
    }
}

type Reader<'s, T> = TileHashReader<T, TrickSource<'s, T>, Global>;

// Returns a reader of the first entries of a store, from a source with a trick.
fn reader_of<'s, T: TreeHash>(
    alloc: Global,
    h: T,
    store: &'s HashStore<T, Global>,
    size: u64,
    trick: Trick<'s>,
    fetches: &'s Cell<u32>,
) -> Result<Reader<'s, T>, ReadFault> {
    let root = tree_hash(alloc, h, size, store)?;
    let source = TrickSource {
        store,
        trick,
        fetches,
    };
    Ok(TileHashReader::new(alloc, h, size, root, source))
}

// Returns the trick that two words name: what is done, and the path of the tile.
fn trick_of<'s>(words: &mut Words<'s>) -> Trick<'s> {
    let name = words.next();
    let tile = match parse_path(words.next()) {
        Some(Resource::Tile(tile)) => Some(tile),
        _ => None,
    };
    Trick { name, tile }
}

// Reports whether two reads had the same answer.
fn are_same(one: &Result<Vec<Hash>, ReadFault>, other: &Result<Vec<Hash>, ReadFault>) -> bool {
    match (one, other) {
        (Ok(one), Ok(other)) => one.as_slice() == other.as_slice(),
        (Err(one), Err(other)) => *one == *other,
        _ => false,
    }
}

// Writes the tiles that were fetched, with the lengths of their texts.
fn put_fetched(out: &mut String, fetched: &[(Tile, Vec<u8>)]) -> Told {
    for (tile, bytes) in fetched {
        write!(out, "\n{tile:?} {}", bytes.len())?;
    }
    Ok(())
}

// Writes the hashes of a read that also returns its tiles, those tiles with the lengths of their texts, and how many
// were fetched; and the answer of a read that doesn't return them, if it is another one.
fn read<T: TreeHash>(
    alloc: Global,
    reader: &Reader<'_, T>,
    numbers: &[u64],
    fetches: &Cell<u32>,
    out: &mut String,
) -> Told {
    let mut fetched = FetchedTiles::new(alloc);
    let checked = reader.read_checked(alloc, numbers, &mut fetched);
    let count = fetches.get();
    let again = reader.read(alloc, numbers);
    let is_same = are_same(&checked, &again);
    put(out, checked)?;
    put_fetched(out, fetched.as_slice())?;
    write!(out, "\n{count} fetched")?;
    if !is_same {
        write!(out, "\nanother answer of read, {:?}", again.err())?;
    }
    Ok(())
}

// Writes what `read` does, from a source with the trick that words name.
fn reads<T: TreeHash>(alloc: Global, h: T, words: &mut Words<'_>, out: &mut String) -> Told {
    let trick = trick_of(words);
    let entries = entries_of(alloc, words.next())?;
    let store = store_of(alloc, h, entries.as_slice())?;
    let numbers = words.numbers(alloc)?;
    let fetches = Cell::new(0);
    match reader_of(alloc, h, &store, store.size(), trick, &fetches) {
        Ok(reader) => read(alloc, &reader, numbers.as_slice(), &fetches, out),
        Err(fault) => write!(out, "{fault:?}"),
    }
}

// Writes the head, a tile, or a proof made from the tiles of a source, and how many tiles were fetched for it.
fn proves(alloc: Global, call: &str, words: &mut Words<'_>, out: &mut String) -> Told {
    let trick = trick_of(words);
    let store = named_store(alloc, words.next())?;
    let (size, place) = (store.size(), words.number());
    let fetches = Cell::new(0);
    let reader = match reader_of(alloc, Sha256Tree, &store, size, trick, &fetches) {
        Ok(reader) => reader,
        Err(fault) => return write!(out, "{fault:?}"),
    };
    match call {
        "head" => put(out, tree_hash(alloc, Sha256Tree, size, &reader))?,
        "tile" => {
            let tile = Tile {
                level: (place % 256) as u32,
                index: words.number(),
                width: (words.number() % 512) as u32,
            };
            put(out, stored_bytes(alloc, tile, &reader))?;
        }
        _ => put(out, made(alloc, call == "record", size, place, &reader))?,
    }
    write!(out, "\n{} fetched", fetches.get())
}

// Adds the numbers of all hashes at a size.
fn add_numbers(numbers: &mut Vec<u64>, size: u64) -> Told {
    if size <= 100_000 {
        for number in 0..stored_count(size) {
            numbers.push(number)?;
        }
    }
    Ok(())
}

// Returns the numbers of all hashes at a size, this many times one after another.
fn all_numbers(alloc: Global, size: u64, times: u64) -> Result<Vec<u64>, AllocError> {
    let mut numbers = Vec::new(alloc);
    for _ in 0..times {
        add_numbers(&mut numbers, size)?;
    }
    Ok(numbers)
}

// The source that changes nothing.
const HONEST: Trick<'static> = Trick {
    name: "nothing",
    tile: None,
};

// Reports whether these hashes of the first entries are read as they are stored.
fn are_read(alloc: Global, store: &Store, size: u64, numbers: &[u64]) -> Result<bool, ReadFault> {
    let fetches = Cell::new(0);
    let reader = reader_of(alloc, Sha256Tree, store, size, HONEST, &fetches)?;
    let hashes = reader.read(alloc, numbers)?;
    Ok(hashes.as_slice() == store.read(alloc, numbers)?.as_slice())
}

// Reports whether a changed bit of a tile is found when these hashes are read.
fn is_told(
    alloc: Global,
    store: &Store,
    size: u64,
    tile: Tile,
    numbers: &[u64],
) -> Result<bool, AllocError> {
    let trick = Trick {
        name: "changes-last",
        tile: Some(tile),
    };
    let fetches = Cell::new(0);
    let Ok(reader) = reader_of(alloc, Sha256Tree, store, size, trick, &fetches) else {
        return Err(AllocError);
    };
    match reader.read(alloc, numbers) {
        Err(ReadFault::OutOfMemory) => Err(AllocError),
        Err(ReadFault::BadTile { .. }) => Ok(true),
        _ => Ok(false),
    }
}

// Returns the number of the first hash of a tile of the three lowest levels.
fn first_number(tile: Tile) -> u64 {
    if tile.index >= 1000 || tile.level > 2 {
        return 0;
    }
    stored_index(tile.level * 8, tile.index * 256)
}

// Returns for how many tiles of a log of this size a changed bit is found, and how many tiles there are. Either all
// hashes are read, or only the tile's first.
fn told(alloc: Global, store: &Store, size: u64, is_first: bool) -> Result<(u64, u64), AllocError> {
    let numbers = all_numbers(alloc, size, 1)?;
    let mut count = (0u64, 0u64);
    if size > 100_000 {
        return Ok(count);
    }
    for resource in needed(alloc, size)? {
        if let Resource::Tile(tile) = resource {
            let first = [first_number(tile)];
            let asked = if is_first {
                first.as_slice()
            } else {
                numbers.as_slice()
            };
            if is_told(alloc, store, size, tile, asked)? {
                count.0 = count.0.saturating_add(1);
            }
            count.1 = count.1.saturating_add(1);
        }
    }
    Ok(count)
}

// Writes how many hashes of the first entries that a word names are read, as often as the words say, and whether they
// are read as they are stored.
fn honest(alloc: Global, words: &mut Words<'_>, out: &mut String) -> Told {
    let store = named_store(alloc, words.next())?;
    let size = words.number();
    let numbers = all_numbers(alloc, size, words.number().max(1))?;
    match are_read(alloc, &store, size, numbers.as_slice()) {
        Ok(are_read) => write!(out, "{are_read} of {} hashes", numbers.len()),
        Err(fault) => write!(out, "{fault:?}"),
    }
}

// Writes how many changed tiles are found.
fn lies(alloc: Global, is_first: bool, words: &mut Words<'_>, out: &mut String) -> Told {
    let store = named_store(alloc, words.next())?;
    let (count, all) = told(alloc, &store, words.number(), is_first)?;
    write!(out, "{count} of {all} tiles")
}

// Writes the answer of a read under a digest.
fn read_by(alloc: Global, words: &mut Words<'_>, out: &mut String) -> Told {
    match words.next() {
        "sha" => reads(alloc, Sha256Tree, words, out),
        _ => reads(alloc, SumDigest, words, out),
    }
}

/// Writes the answer of a call.
pub(crate) fn answer(alloc: Global, words: &mut Words<'_>, out: &mut String) -> Told {
    match words.next() {
        "read" => read_by(alloc, words, out),
        "honest" => honest(alloc, words, out),
        "told" => lies(alloc, false, words, out),
        "told-first" => lies(alloc, true, words, out),
        "record" => proves(alloc, "record", words, out),
        "tree" => proves(alloc, "tree", words, out),
        "tile" => proves(alloc, "tile", words, out),
        _ => proves(alloc, "head", words, out),
    }
}
