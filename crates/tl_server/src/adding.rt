//! Submitting entries.

/// The status of a submitted entry.
#[derive(Clone, Copy, Debug, PartialEq, Eq)]
pub enum EntryStatus {
    /// Its index isn't known yet: the request is to be answered later.
    Later,
    /// The log takes nothing now, or hasn't published it in time.
    Refused,
    /// Allocation failed.
    NoMemory,
    /// It has this index in a published log of `size` entries.
    At { index: u64, size: u64 },
}

/// Submits entries, and reports their indexes. Its reports are untrusted.
pub trait Submits {
    ghost use Rattle.tl_hash.specs.Bytes.{Bytes};
    ghost use Rattle.tl_server.specs.declared.adding.EntryStatus.{EntryStatus};

    /// What one call reports of an entry, before and after it. An `impl` may leave it out. By it contracts say that
    /// an answer was reported by one call.
    ghost submits: { Self → Self → Bytes → EntryStatus → Type 0 } = { λ _ _ _ _. Unit {0} };

    /// Submits this entry, or reports the index that it has got since.
    fn submit(&mut self, entry: &[u8]) -> EntryStatus
        ensures { submits self.old self.new entry.now result };
}

/// The result of a request to a log that takes entries.
#[derive(Clone, Copy, Debug, PartialEq, Eq)]
pub enum Outcome {
    /// No byte came.
    Nothing,
    /// The request was answered with this status.
    Answered(u16),
    /// The index of its entry isn't known yet: nothing was written.
    Later,
    /// The entry isn't at the index that was reported: the request was answered with 500.
    Misplaced,
}
