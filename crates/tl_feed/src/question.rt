//! The body of a request to a witness, and the witness's answer.

use std::alloc::Allocator;
use tl_hash::Hash;

/// What a witness is asked to cosign (C2SP tlog-witness, "add-checkpoint"). A witness rejects an old size of 2^63 or
/// more, and a proof of more than 63 hashes.
#[derive(Clone, Copy)]
pub struct Question<'q> {
    /// The size that the witness is believed to have cosigned last.
    pub old: u64,
    /// The consistency proof from that size to the checkpoint's.
    pub proof: &'q [Hash],
    /// The signed checkpoint.
    pub note: &'q str,
}

/// The answer of a witness.
#[derive(Drop)]
pub enum WitnessAnswer<A: Allocator> {
    /// The witness cosigned (200): the body, which is at least one signature line. None of them is verified.
    Cosigned(String<A>),
    /// The witness cosigned this size last, below 2^63 (409 with the type text/x.tlog.size).
    At(u64),
}
