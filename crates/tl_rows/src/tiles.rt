//! Rows of resources, their paths, tiles and entry bundles.

use crate::stores::named_store;
use crate::words::{Shown, Told, Words, bytes_of, entries_of, put, put_hex, unknown};
use std::alloc::{AllocError, Global};
use tl_testing::stored_bytes;
use tl_tile::{
    Resource, Tile, added_resources, needed, parse_path, path_of, read_bundle, write_bundle,
};

// Writes the resource of a path, and its path again.
fn parsed(alloc: Global, path: &str, out: &mut String) -> Told {
    match parse_path(path) {
        Some(resource) => {
            let back = path_of(alloc, &resource)?;
            write!(out, "{resource:?} {back}")
        }
        None => out.push_str("none"),
    }
}

// Returns the resources that a log of this size needs besides those of an older size.
fn listed(alloc: Global, old: u64, size: u64) -> Result<Vec<Resource>, AllocError> {
    if size > u32::MAX as u64 || old > size {
        return Ok(Vec::new(alloc));
    }
    if old == 0 {
        return needed(alloc, size);
    }
    added_resources(alloc, old, size)
}

// Writes how many resources there are, and some of them.
fn resources(alloc: Global, words: &mut Words<'_>, out: &mut String) -> Told {
    let old = words.number();
    let resources = listed(alloc, old, words.number())?;
    write!(out, "{}", resources.len())?;
    let from = words.number() as usize;
    let count = words.number() as usize;
    for resource in resources.iter().skip(from).take(count) {
        write!(out, "\n{resource:?}")?;
    }
    Ok(())
}

// Writes the bytes of a tile of the log of the entries that a word names.
fn bytes(alloc: Global, words: &mut Words<'_>, out: &mut String) -> Told {
    let store = named_store(alloc, words.next())?;
    let tile = Tile {
        level: (words.number() % 256) as u32,
        index: words.number(),
        width: (words.number() % 512) as u32,
    };
    put(out, stored_bytes(alloc, tile, &store))
}

// Writes the bundle of the entries that a word names.
fn written(alloc: Global, word: &str, out: &mut String) -> Told {
    let entries = entries_of(alloc, word)?;
    if entries.is_empty() || entries.len() > 256 {
        return unknown(out);
    }
    put(out, write_bundle(alloc, entries.as_slice()))
}

/// Writes how many entries there are, and each.
impl Shown for Vec<Vec<u8>> {
    fn show(&self, out: &mut String) -> Told {
        write!(out, "{}", self.len())?;
        for entry in self {
            out.push(' ')?;
            put_hex(out, entry.as_slice())?;
        }
        Ok(())
    }
}

// Writes the entries of a bundle.
fn read(alloc: Global, width: u64, digits: &str, out: &mut String) -> Told {
    if width == 0 || width > 256 {
        return unknown(out);
    }
    let bytes = bytes_of(alloc, digits)?;
    put(out, read_bundle(alloc, bytes.as_slice(), width as u32))
}

/// Writes the answer of a call.
pub(crate) fn answer(alloc: Global, words: &mut Words<'_>, text: &str, out: &mut String) -> Told {
    match words.next() {
        "path" => parsed(alloc, text, out),
        "needed" => resources(alloc, words, out),
        "bytes" => bytes(alloc, words, out),
        "write-bundle" => written(alloc, words.next(), out),
        _ => {
            let width = words.number();
            read(alloc, width, words.next(), out)
        }
    }
}
