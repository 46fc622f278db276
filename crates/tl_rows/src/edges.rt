//! Rows of the right edge of a log.

ghost use Rattle.std.specs.Prelude.{◌≤◌};

use crate::words::{Told, Words, entries_of, number_of, put_bytes, put_hash, unknown};
use std::alloc::{AllocError, Global};
use tl_hash::{Sha256Tree, leaf_hash};
use tl_testing::vectors::numbered;
use tl_tile::{Edge, Tile};

type RightEdge = Edge<Sha256Tree, Global>;

// More entries than any row has.
const MOST: u64 = 100_000;

// Writes a full tile, with the size of the log, its length and the leaf hash of its bytes.
fn put_tile(out: &mut String, size: u64, tile: &Tile, bytes: &[u8]) -> Told {
    write!(out, "at {size} {tile:?} {} ", bytes.len())?;
    put_hash(out, leaf_hash(Sha256Tree, bytes))?;
    out.push('\n')
}

// Writes full tiles.
fn put_tiles(out: &mut String, size: u64, tiles: &[(Tile, Vec<u8>)]) -> Told {
    for (tile, bytes) in tiles {
        put_tile(out, size, tile, bytes.as_slice())?;
    }
    Ok(())
}

// Writes the partial tile of a level, if there is one.
fn put_partial(out: &mut String, edge: &RightEdge, level: u32) -> Told
    requires { level ≤ 7 }
{
    if let Some((tile, bytes)) = edge.partial(level)? {
        write!(out, "partial {tile:?} ")?;
        put_bytes(out, bytes.as_slice())?;
        out.push('\n')?;
    }
    Ok(())
}

// Writes the partial tiles of an edge, its size and its root.
fn put_edge(out: &mut String, edge: &RightEdge) -> Told {
    for level in 0..8u32 {
        put_partial(out, edge, level)?;
    }
    write!(out, "{} ", edge.size())?;
    put_hash(out, edge.root())
}

// Adds an entry to an edge, and writes the full tiles that it fills.
fn add(edge: &mut RightEdge, entry: &[u8], out: &mut String) -> Told {
    if edge.size() < MOST {
        let tiles = edge.append(entry)?;
        put_tiles(out, edge.size(), tiles.as_slice())?;
    }
    Ok(())
}

// Writes the full tiles that entries fill one after another, and the edge at the end.
fn singly(alloc: Global, word: &str, out: &mut String) -> Told {
    let mut edge = Edge::new(alloc, Sha256Tree);
    for entry in &entries_of(alloc, word)? {
        add(&mut edge, entry.as_slice(), out)?;
    }
    put_edge(out, &edge)
}

// Adds this many of the numbers from 0 up to an edge, and writes the full tiles that they fill.
fn add_batch(alloc: Global, edge: &mut RightEdge, count: u64, out: &mut String) -> Told {
    let entries = numbered(alloc, (count % 100_000) as u32)?;
    if edge.size() < MOST && entries.len() < 100_000 {
        let tiles = edge.append_all(entries.as_slice())?;
        put_tiles(out, edge.size(), tiles.as_slice())?;
    }
    Ok(())
}

// Returns the edge of this many of the numbers from 0 up, added one by one.
fn edge_of(alloc: Global, count: u64) -> Result<RightEdge, AllocError> {
    let mut edge = Edge::new(alloc, Sha256Tree);
    for entry in &numbered(alloc, (count % 100_000) as u32)? {
        if edge.size() < MOST {
            edge.push(entry.as_slice())?;
        }
    }
    Ok(edge)
}

// Returns the edge of this many full tiles.
fn edge_of_tiles(alloc: Global, count: u64) -> Result<RightEdge, AllocError> {
    edge_of(alloc, count.saturating_mul(256))
}

// Appends an edge of full tiles to another.
fn join(edge: &mut RightEdge, next: &RightEdge) -> Told {
    let are_whole = edge.size() % 256 == 0 && next.size() % 256 == 0;
    if are_whole && edge.size() < 4_000_000_000 && next.size() < 65_536 {
        edge.append_edge(next)?;
    }
    Ok(())
}

// Writes an edge of copies of the edge of full tiles, and of some tiles more; the words say how many.
fn repeated(alloc: Global, words: &mut Words<'_>, out: &mut String) -> Told {
    let next = edge_of_tiles(alloc, words.number())?;
    let mut edge = Edge::new(alloc, Sha256Tree);
    for _ in 0..words.number() {
        join(&mut edge, &next)?;
    }
    join(&mut edge, &edge_of_tiles(alloc, words.number())?)?;
    put_edge(out, &edge)
}

// Writes an edge after each of some batches: of this many of the numbers from 0 up, or of others with this many full
// tiles.
fn grown(alloc: Global, call: &str, counts: &str, out: &mut String) -> Told {
    let mut edge = Edge::new(alloc, Sha256Tree);
    out.push_str(call)?;
    for count in counts.split(',') {
        out.push('\n')?;
        if call == "batches" {
            add_batch(alloc, &mut edge, number_of(count), out)?;
        } else {
            join(&mut edge, &edge_of_tiles(alloc, number_of(count))?)?;
        }
        put_edge(out, &edge)?;
    }
    Ok(())
}

/// Writes the answer of a call.
pub(crate) fn answer(alloc: Global, words: &mut Words<'_>, out: &mut String) -> Told {
    match words.next() {
        "singly" => singly(alloc, words.next(), out),
        "batches" => grown(alloc, "batches", words.next(), out),
        "joined" => grown(alloc, "joined", words.next(), out),
        "repeated" => repeated(alloc, words, out),
        _ => unknown(out),
    }
}
