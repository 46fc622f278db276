//! Reads hashes of a log from a source of tiles that may lie, and checks them against a trusted root.

use std::alloc::{Allocator, Global};
use std::io;
use tl_hash::{Sha256Tree, leaf_hash, node_hash};
use tl_store::HashReader;
use tl_tile::{SourceFault, Tile, TileHashReader, TileSource};

// A source with one tile: the hashes of two entries.
#[derive(Clone, Copy, Drop)]
struct OneTile {
    hashes: [u8; 64],
}

impl TileSource for OneTile {
    ghost may_answer = { λ s t text. Unit {0} };

    ghost may_lack = { λ s t. Unit {0} };

    fn fetch<A: Allocator + Copy>(&self, alloc: A, _tile: Tile) -> Result<Vec<u8, A>, SourceFault> {
        Ok(Vec::from_slice(alloc, &self.hashes)?)
    }
}

/// Reads the hash of the second entry from an honest source, and from one that flipped a bit of it.
pub fn read_from_a_liar(rt: &impl Print, alloc: Global) -> Result<(), anyhow::Error> {
    println!(rt; "Tiles from a source that may lie:")?;
    let cat = leaf_hash(Sha256Tree, b"a cat");
    let dog = leaf_hash(Sha256Tree, b"a dog");
    let root = node_hash(Sha256Tree, cat, dog);
    let mut hashes = [0u8; 64];
    hashes[..32].copy_from_slice(cat.as_bytes());
    hashes[32..].copy_from_slice(dog.as_bytes());
    let honest = OneTile { hashes };
    hashes[40] ^= 1;
    let lying = OneTile { hashes };
    for source in [honest, lying] {
        let reader = TileHashReader::new(alloc, Sha256Tree, 2, root, source);
        match reader.read(alloc, &[1]) {
            Ok(_) => println!(rt; "- the hash was read and is the log's")?,
            Err(fault) => println!(rt; "- refused: {fault}")?,
        }
    }
    Ok(())
}
