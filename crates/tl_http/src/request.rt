//! A POST request and its response.

use std::alloc::Allocator;

/// A POST request, and which responses to it are wanted (RFC 9110, section 9.3.3).
#[derive(Clone, Copy)]
pub struct Post<'p> {
    /// The host, the value of the field Host.
    pub host: &'p str,
    /// The target, which begins with a slash.
    pub target: &'p str,
    /// The body that is sent.
    pub body: &'p [u8],
    /// The statuses of responses whose body is wanted.
    pub statuses: &'p [u16],
    /// The name of the response's field whose value is wanted.
    pub field: &'p str,
}

/// A response with a wanted status.
#[derive(Drop)]
pub struct Reply<A: Allocator> {
    /// Its status.
    pub status: u16,
    /// The value of its one field with the wanted name. `None` if there is no such field, or more than one.
    pub field: Option<Vec<u8, A>>,
    /// Its body.
    pub body: Vec<u8, A>,
}
