//! The reasons why a call fails. If several apply, a call reports the first.
use thiserror::Error;

/// The reasons why a log can't be opened.
#[derive(Clone, Copy, Debug, PartialEq, Eq, Error)]
pub enum OpenFault {
    /// The number of lanes is not from 1 to 64.
    #[error("the number of lanes is not from 1 to 64")]
    LaneCount,
    /// The capacity of each ring is not from 1 to 65,536 entries.
    #[error("the capacity of a ring is not from 1 to 65,536 entries")]
    Capacity,
    /// The limit is not from 1 to 4,294,967,295 entries.
    #[error("the limit is not from 1 to 4,294,967,295 entries")]
    Limit,
    /// Allocation failed.
    #[error("out of memory")]
    OutOfMemory,
}

/// The reasons why an entry isn't sent.
#[derive(Clone, Copy, Debug, PartialEq, Eq, Error)]
pub enum Why {
    /// The entry has more than 65,535 bytes.
    #[error("the entry has more than 65,535 bytes")]
    TooLong,
    /// This submitter has sent as many entries as the log's limit.
    #[error("this submitter gave all its numbers")]
    NumbersUsed,
    /// The lane's ring is full until the sequencer takes from it.
    #[error("the lane is full")]
    Full,
}

/// The reasons why nothing is taken.
#[derive(Clone, Copy, Debug, PartialEq, Eq, Error)]
pub enum TakeFault {
    /// The log has no lane of this number.
    #[error("no such lane")]
    NoLane,
    /// The log has no room for what is to be taken.
    #[error("the log is full")]
    LogFull,
    /// Allocation failed.
    #[error("out of memory")]
    OutOfMemory,
}
