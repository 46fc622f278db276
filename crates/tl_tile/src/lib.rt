//! The files that a log serves to anybody, by C2SP tlog-tiles: tiles of hashes, bundles of entries, and their paths.
//!
//! A tile has up to 256 hashes of one level of the tree, and a bundle up to 256 entries. Both are full or partial,
//! and only the last of a row is partial. A `Resource` names a tile, a bundle or the checkpoint. `path_of` and
//! `parse_path` turn it into its path and back, and `needed` lists all that a log of a size serves.
//!
//! An operator keeps an `Edge`, the hashes of the partial tiles, which are at most 255 for each level. `append`
//! returns the full tiles that an entry completes, and `partial` the partial tile of a level:
//!
//! ```rust
//! let mut edge = Edge::new(alloc, Sha256Tree);
//! edge.append(b"a cat")?;
//! edge.append(b"a dog")?;
//! let (tile, bytes) = edge.partial(0)?.unwrap();
//! assert_eq!(rt; path_of(alloc, &Resource::Tile(tile))?.as_str(), "tile/0/000.p/2");
//! assert_eq!(rt; bytes.len(), 64);
//! ```
//!
//! A client reads tiles from a `TileSource`, which may lie. A `TileHashReader` checks each tile against a size and a
//! root that are trusted, and is a `HashReader`, so the calls of `tl_proof` make proofs over it. Here `source` is a
//! source of the log with the root above:
//!
//! ```rust
//! let reader = TileHashReader::new(alloc, Sha256Tree, 2, edge.root(), source);
//! let hashes = reader.read(alloc, &[stored_index(0, 1)])?; // the leaf hash of "a dog", or a fault
//! ```
//!
//! The hashes that it returns are the log's, or two different byte strings with one digest were hashed.
#![tactic(auto)]

mod bundle;
mod edge;
mod fold;
mod four_runs;
mod law;
mod listing;
mod path;
mod resource;
mod source;
mod tile;
mod tile_reader;

pub use bundle::{BundleFault, LONGEST_ENTRY, push_entry, read_bundle, write_bundle};
pub use edge::Edge;
pub use law::{
    bundle_has_one_reading, checked_tiles_law, filled_tiles_are_new, folded_hashes_law,
    honest_source_law, honest_tiles_law, needed_since_is_new,
};
pub use listing::{added_resources, bundle_width, needed};
pub use path::{parse_path, path_of};
pub use resource::{Resource, Tile};
pub use source::{SourceFault, TileSource};
pub use tile::tile_bytes;
pub use tile_reader::{FetchedTiles, TileHashReader};
