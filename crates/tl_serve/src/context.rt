//! What connections are answered with.

use crate::signals::Signals;
use std::alloc::Global;

/// What connections are answered with: the system, memory, and the signals between the threads.
#[derive(Drop)]
pub(crate) struct Context<'h, H> {
    pub(crate) rt: &'h H,
    pub(crate) alloc: Global,
    pub(crate) signals: &'h Signals,
}
