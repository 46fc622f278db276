//! What rows and tests of several crates share: a weak digest, keys, a saver, stores of few entries, published test
//! vectors.
//!
//! ```rust
//! let entries = vectors::entries(alloc, 3)?; // the first three of the Certificate Transparency test data
//! let store = store_of(alloc, SumDigest, &entries)?; // `SumDigest` collides at once
//! let key = LengthKey::new(alloc, "example.com/log", 7)?; // signs a message by its length
//! let mut saver = KeepingSaver::new(alloc); // set `saver.fails` to see what a failure changes
//! ```
#![tactic(auto)]

mod counting_key;
mod keeping_saver;
mod length_key;
mod stores;
mod sum_digest;
pub mod vectors;

pub use counting_key::CountingKey;
pub use keeping_saver::KeepingSaver;
pub use length_key::LengthKey;
pub use stores::{store_of, stored_bytes};
pub use sum_digest::SumDigest;
