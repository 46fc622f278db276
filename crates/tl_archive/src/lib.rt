//! Storage for the tiles, bundles and checkpoint of a log, and what it means that the storage is complete.
//!
//! A `Shelf` is any place that keeps bytes by resource (C2SP tlog-tiles): a folder or a bucket, for example. A call
//! may fail, and a crash may cut one off at any moment. New bytes are first staged and then settled, after which they
//! outlast a crash. What a crash leaves must be complete: if there is a checkpoint, everything that a client of it
//! needs is there, too. So tiles and bundles are settled before the checkpoint that needs them:
//!
//! ```rust
//! shelf.stage(&tile, hashes)?; // written, but not under its resource yet
//! shelf.stage(&bundle, entries)?;
//! shelf.settle()?; // tile and bundle are there and outlast a crash
//! shelf.stage(&Resource::Checkpoint, note)?;
//! shelf.settle()?;
//! shelf.mark_published(size)?; // a checkpoint of this many entries is there
//! let mark = shelf.read_mark()?; // `Some(size)`
//! let found = shelf.read(alloc, &Resource::Checkpoint)?; // `None` if there is none
//! ```
//!
//! The mark reveals later that a checkpoint was replaced by an older one. `tl_ledger` writes a log to a shelf in this
//! order and proves that the shelf stays complete. `tl_folder` has a shelf in a folder.
#![tactic(auto)]

mod fault;
mod law;
mod shelf;

pub use fault::ShelfFault;
pub use law::{archived_bytes_stay, safe_shelf_is_complete};
pub use shelf::Shelf;
