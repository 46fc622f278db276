//! A log that a witness knows.

use std::alloc::Allocator;
use tl_key::NoteVerifier;

/// A log that a witness knows, with its keys.
#[derive(Drop)]
pub struct KnownLog<A: Allocator> {
    /// The log's name, which is the origin of its checkpoints.
    pub origin: String<A>,
    /// The keys, in the order of their lines.
    pub keys: Vec<NoteVerifier<A>, A>,
}
