//! Rows of logs of equal entries, of any size. All hashes of one level are the same, so they are read from checked
//! tiles without a store.

use crate::proofs::{Claim, accepts, made};
use crate::words::{Told, Words, put, unknown};
use std::alloc::{Allocator, Global};
use tl_hash::{Hash, Sha256Tree, leaf_hash, node_hash};
use tl_proof::prove_records;
use tl_records::{InclusionClaim, check_records};
use tl_store::{stored_index, tree_hash};
use tl_tile::{FetchedTiles, SourceFault, Tile, TileHashReader, TileSource, tile_bytes};

// The hash of 2^level entries of the byte `e`, for each level.
#[derive(Clone, Copy)]
struct Equal {
    hashes: [Hash; 63],
}

fn equal_log() -> Equal {
    let mut hashes = [leaf_hash(Sha256Tree, b"e"); 63];
    for level in 1..63usize {
        hashes[level] = node_hash(Sha256Tree, hashes[level - 1], hashes[level - 1]);
    }
    Equal { hashes }
}

impl TileSource for Equal {
    ghost may_answer = { λ s t text. Unit {0} };

    ghost may_lack = { λ s t. Unit {0} };

    fn fetch<A: Allocator + Copy>(&self, alloc: A, tile: Tile) -> Result<Vec<u8, A>, SourceFault> {
        let mut bytes = Vec::new(alloc);
        let Some(hash) = self.hashes.get(tile.level as usize * 8) else {
            return Err(SourceFault::Unavailable);
        };
        for _ in 0..tile.width {
            bytes.extend_from_slice(hash.as_bytes())?;
        }
        Ok(bytes)
    }
}

// Returns the root of this many entries, at least one and at most 2^63 - 1.
fn root_of(log: &Equal, size: u64) -> Hash {
    let mut root = None;
    for level in 0..63usize {
        if size >> level & 1 == 1 {
            let own = log.hashes[level];
            root = match root {
                None => Some(own),
                Some(below) => Some(node_hash(Sha256Tree, own, below)),
            };
        }
    }
    root.unwrap_or(log.hashes[0])
}

type Reader = TileHashReader<Sha256Tree, Equal, Global>;

// Returns a reader of a log of this size.
fn reader_of(alloc: Global, size: u64) -> Reader {
    let log = equal_log();
    TileHashReader::new(alloc, Sha256Tree, size, root_of(&log, size), log)
}

// Writes how many hashes a proof from a log has, and whether it is accepted.
fn proof(alloc: Global, is_record: bool, words: &mut Words<'_>, out: &mut String) -> Told {
    let reader = reader_of(alloc, words.number());
    let (size, place) = (words.number(), words.number());
    let log = equal_log();
    let hash = if is_record {
        log.hashes[0]
    } else {
        root_of(&log, place)
    };
    let claim = Claim {
        is_record,
        size,
        root: root_of(&log, size),
        place,
        hash,
    };
    match made(alloc, is_record, size, place, &reader) {
        Ok(proof) => {
            let is_accepted = accepts(&claim, proof.as_slice());
            write!(out, "{} {is_accepted}", proof.len())
        }
        Err(fault) => write!(out, "{fault:?}"),
    }
}

// Returns the claim that the entry at an index is in the log.
fn claim<'a>(log: &Equal, index: u64, proof: &'a [Hash]) -> InclusionClaim<'a> {
    InclusionClaim {
        index,
        leaf: log.hashes[0],
        proof,
    }
}

// Reports whether four inclusion proofs of entries at these indexes are accepted together.
fn accepted(size: u64, places: [u64; 4], proofs: &[Vec<Hash>]) -> bool {
    let [a, b, c, d] = proofs else {
        return false;
    };
    let log = equal_log();
    let claims = [
        claim(&log, places[0], a),
        claim(&log, places[1], b),
        claim(&log, places[2], c),
        claim(&log, places[3], d),
    ];
    check_records(Sha256Tree, size, root_of(&log, size), &claims)
}

// Writes whether four proofs made in one read are accepted together, the last of them at another index.
fn records(alloc: Global, words: &mut Words<'_>, out: &mut String) -> Told {
    let size = words.number();
    let reader = reader_of(alloc, size);
    let mut places = [
        words.number(),
        words.number(),
        words.number(),
        words.number(),
    ];
    match prove_records(alloc, Sha256Tree, size, &places, &reader) {
        Ok(proofs) => {
            places[3] = words.number();
            write!(out, "{}", accepted(size, places, proofs.as_slice()))
        }
        Err(fault) => write!(out, "{fault:?}"),
    }
}

// Writes the head of the first entries of a log.
fn head(alloc: Global, words: &mut Words<'_>, out: &mut String) -> Told {
    let reader = reader_of(alloc, words.number());
    put(out, tree_hash(alloc, Sha256Tree, words.number(), &reader))
}

// Writes the hash with a number, or the fault and how many tiles were fetched.
fn hash(alloc: Global, reader: &Reader, number: u64, out: &mut String) -> Told {
    let mut fetched = FetchedTiles::new(alloc);
    let answer = reader.read_checked(alloc, &[number], &mut fetched);
    let is_read = answer.is_ok();
    put(out, answer)?;
    if !is_read {
        write!(out, " by {} tiles", fetched.as_slice().len())?;
    }
    Ok(())
}

// Writes the same of a subtree, by its place in a level.
fn subtree(alloc: Global, words: &mut Words<'_>, out: &mut String) -> Told {
    let reader = reader_of(alloc, words.number());
    let level = (words.number() % 63) as u32;
    let place = words.number();
    if place >= (1u64 << 62) >> level {
        return unknown(out);
    }
    hash(alloc, &reader, stored_index(level, place), out)
}

// Writes the bytes of a tile of the log of 2^62 entries, of one of three levels.
fn tile(alloc: Global, words: &mut Words<'_>, out: &mut String) -> Told {
    let (level, index, width) = (words.number(), words.number(), words.number());
    if width == 0 || width > 256 {
        return unknown(out);
    }
    let width = width as u32;
    let tile = match level {
        0 if index < 1 << 54 => Tile {
            level: 0,
            index,
            width,
        },
        4 if index < 1 << 22 => Tile {
            level: 4,
            index,
            width,
        },
        7 if width <= 64 => Tile {
            level: 7,
            index: 0,
            width,
        },
        _ => return unknown(out),
    };
    put(out, tile_bytes(alloc, tile, &reader_of(alloc, 1 << 62)))
}

// Writes the first hash as a reader with another root reads it.
fn under_another_root(alloc: Global, size: u64, out: &mut String) -> Told {
    let root = leaf_hash(Sha256Tree, b"other");
    let reader = TileHashReader::new(alloc, Sha256Tree, size, root, equal_log());
    hash(alloc, &reader, 0, out)
}

/// Writes the answer of a call.
pub(crate) fn answer(alloc: Global, words: &mut Words<'_>, out: &mut String) -> Told {
    match words.next() {
        "head" => head(alloc, words, out),
        "record" => proof(alloc, true, words, out),
        "records" => records(alloc, words, out),
        "tree" => proof(alloc, false, words, out),
        "subtree" => subtree(alloc, words, out),
        "number" => {
            let reader = reader_of(alloc, words.number());
            hash(alloc, &reader, words.number(), out)
        }
        "tile" => tile(alloc, words, out),
        "under-another-root" => under_another_root(alloc, words.number(), out),
        _ => unknown(out),
    }
}
