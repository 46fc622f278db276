//! The text of a policy that has to trust a checkpoint.

use std::alloc::Global;
use tl_policy::Policy;

/// The text of a policy that has to trust a checkpoint, too (C2SP tlog-policy).
#[derive(Clone, Copy)]
pub struct Under<'k> {
    /// The logs that it names, and the witnesses of its quorum.
    pub policy: &'k Policy<'k, Global>,
    /// The time, in seconds since 1970, from which on one of its witnesses must have cosigned; without it, any time
    /// will do.
    pub since: Option<u64>,
}
