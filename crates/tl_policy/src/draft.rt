//! What the lines that were read say.

use crate::policy::Policy;
use std::alloc::Allocator;

/// What the lines that were read say, and whether one was a quorum.
#[derive(Drop)]
pub(crate) struct Draft<'t, A: Allocator> {
    pub(crate) policy: Policy<'t, A>,
    pub(crate) has_quorum: bool,
}
