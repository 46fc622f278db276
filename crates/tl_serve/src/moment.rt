//! Times of a connection.

/// The time, and how long connections are kept.
#[derive(Clone, Copy)]
pub(crate) struct Moment {
    /// The time, in milliseconds.
    pub(crate) now: u64,
    /// Whether connections may stay open after an answer.
    pub(crate) may_stay: bool,
}

/// How many milliseconds a connection has.
#[derive(Clone, Copy)]
pub(crate) struct Limits {
    /// For one request.
    pub(crate) request: u64,
    /// Until its next request comes.
    pub(crate) idle: u64,
}
