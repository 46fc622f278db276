//! The checks of a client that trusts no source of a log's resources.
//!
//! A client trusts only the log's keys and the witnesses' keys. With them `open_cosigned` opens a checkpoint, which
//! has a size and a root (C2SP tlog-checkpoint, tlog-cosignature). Everything else is checked against these:
//! `read_entries` returns the entries of a bundle (C2SP tlog-tiles), `prove_entry` an inclusion proof, and
//! `prove_growth` a consistency proof between two checkpoints (RFC 6962, section 2.1). A wrong answer of the source
//! is an error that names the tile, bundle or entry. The caller compares the checkpoint's origin with the log's name,
//! and keeps the last checkpoint that it trusted.
//!
//! ```rust
//! let checkpoint = open_cosigned(alloc, note, &[log], &witnesses, 2)?; // two of the witnesses cosigned it
//! let (size, root) = (checkpoint.size, checkpoint.root);
//! let mut fetched = FetchedTiles::new(alloc);
//! let entries = read_entries(alloc, &source, size, root, 0, &mut fetched)?; // of the first bundle
//! let leaf = leaf_hash(Sha256Tree, &entries[0]);
//! let proof = prove_entry(alloc, &source, size, root, 0, leaf)?;
//! let proof = prove_growth(alloc, &source, Head { size, root }, newer, &mut fetched)?;
//! ```
//!
//! A source is anything that implements `ResourceSource`; `tl_source` has sources over folders and HTTP.
#![tactic(auto)]

mod cosigners;
mod entries;
mod fault;
mod growth;
mod head;
mod inclusion;
mod kept;
mod leaves;
mod source;

pub use entries::{read_entries, read_entries_after};
pub use fault::ClientFault;
pub use growth::prove_growth;
pub use head::{HeadFault, open_cosigned};
pub use inclusion::prove_entry;
pub use source::{ResourceSource, Tiles, is_tile};
pub use tl_hash::Head;
