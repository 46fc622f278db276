//! What comes next of an input.

use std::alloc::Allocator;

/// What comes next of an input.
#[derive(Drop)]
pub enum NextLine<A: Allocator> {
    /// A line, without its newline.
    Entry(Vec<u8, A>),
    /// The line with this number, counted from 0, has more than 65,535 bytes. The rest of it is left out.
    TooLong(u64),
}
