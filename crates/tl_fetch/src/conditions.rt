//! What is asked of a log's checkpoint beside a signature.

use crate::under::Under;
use std::alloc::Global;
use tl_key::CosignerVerifier;

/// What is asked of a log's checkpoint beside a signature by one of its keys: the rest of a `Policy`.
#[derive(Clone, Copy)]
pub(crate) struct Conditions<'k> {
    /// The log's name.
    pub(crate) origin: &'k str,
    /// The witnesses' keys; those of one witness follow one another.
    pub(crate) witnesses: &'k [CosignerVerifier<Global>],
    /// How many of the witnesses must have cosigned it.
    pub(crate) need: u64,
    /// The time, in seconds since 1970, from which on one of them must have; without it, any time will do.
    pub(crate) since: Option<u64>,
    /// The text of a policy that has to trust it, too.
    pub(crate) under: Option<Under<'k>>,
}
