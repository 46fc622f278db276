//! Which checkpoints of a log are trusted.

use crate::under::Under;
use std::alloc::Global;
use tl_key::CosignerVerifier;
use tl_note::Verifier;

/// Which checkpoints of a log are trusted: those that name the log, that the log signed, and that enough of the
/// witnesses cosigned, one of them lately enough (C2SP tlog-checkpoint, tlog-cosignature). Keys with one name are one
/// witness's, which counts once.
#[derive(Drop)]
pub struct Policy<'k> {
    /// The log's name.
    pub origin: &'k str,
    /// The log's keys.
    pub log: &'k [Box<dyn Verifier>],
    /// The witnesses' keys; those of one witness follow one another.
    pub witnesses: &'k [CosignerVerifier<Global>],
    /// How many of the witnesses must have cosigned a checkpoint.
    pub need: u64,
    /// The time, in seconds since 1970, from which on one of the witnesses must have cosigned; without it, any time
    /// will do.
    pub since: Option<u64>,
    /// The text of a policy that has to trust the checkpoint, too.
    pub under: Option<Under<'k>>,
}
