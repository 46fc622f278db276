//! What a command knows of the standard streams besides their bytes.

use std::os::fd::RawFd;

/// What is known of the standard streams.
#[derive(Clone, Copy, Debug)]
pub struct Streams {
    /// Whether standard error is a terminal.
    pub is_terminal: bool,
    /// The descriptor of standard input, if it can be waited for.
    pub input: Option<RawFd>,
}
