//! What one attempt to answer a request gave.

/// What one attempt to answer the next request of a connection gave.
#[derive(Clone, Copy, Debug, PartialEq, Eq)]
pub enum Turn {
    /// An answer is to be sent. After it the connection stays open, or is closed.
    Answered(bool),
    /// The entry isn't at the index that was reported: 500 is to be sent, and the connection closed.
    Misplaced,
    /// The index of its entry isn't known yet. The same bytes are to be tried again.
    Later,
    /// More has to come.
    More,
    /// No byte came, and nothing comes any more.
    Nothing,
    /// An answer isn't sent yet.
    Unsent,
    /// There is an answer, and allocation for it failed; or a read failed after the end.
    Failed,
}
