//! What the threads of the lanes pass before they send.

/// A gate that the thread of each lane passes once, before it sends its first entry.
pub trait Gate: Send + Sync + Drop {
    /// Lets the thread of this lane through. It may take as long as it likes.
    fn pass(&self, lane: u32);
}

/// A gate that is always open.
#[derive(Clone, Copy)]
pub(crate) struct OpenGate;

impl Gate for OpenGate {
    fn pass(&self, _lane: u32) {}
}
