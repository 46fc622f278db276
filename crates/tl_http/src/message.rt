//! A request with the caller's own fields, and its response.

use std::alloc::Allocator;

/// A field of a request's head (RFC 9112, section 5).
#[derive(Clone, Copy, Debug)]
pub struct FieldLine<'m> {
    /// Its name, a token. Fields that frame a message (Content-Length, Transfer-Encoding, Connection) can't be sent.
    pub name: &'m str,
    /// Its value: visible ASCII characters, with single spaces or tabs between them.
    pub value: &'m str,
}

/// A request, and which responses to it are wanted (RFC 9112, section 2.1).
#[derive(Clone, Copy)]
pub struct Message<'m> {
    /// The method, a token such as `PUT`; not `HEAD` or `CONNECT`.
    pub method: &'m str,
    /// The target, which begins with a slash.
    pub target: &'m str,
    /// The fields in their order, with `Host`, and without those that frame the message.
    pub fields: &'m [FieldLine<'m>],
    /// The body that is sent.
    pub body: &'m [u8],
    /// The statuses of responses whose body is wanted.
    pub statuses: &'m [u16],
    /// The name of the response's field whose value is wanted.
    pub field: &'m str,
}

/// A response with a wanted status.
#[derive(Drop)]
pub struct Response<A: Allocator> {
    /// Its status.
    pub status: u16,
    /// The value of its one field with the wanted name. `None` if there is no such field, or more than one.
    pub field: Option<Vec<u8, A>>,
    /// Its body.
    pub body: Vec<u8, A>,
    /// Whether the connection can carry another request.
    pub stays_open: bool,
}
