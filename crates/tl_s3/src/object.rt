//! Objects of a bucket, and the answers to putting and getting them.

use crate::credential::Credential;
use std::alloc::Allocator;

/// A bucket of an S3-compatible server.
#[derive(Clone, Copy)]
pub struct Bucket<'b> {
    /// The host, the value of the field Host.
    pub host: &'b str,
    /// The prefix of each object's path, encoded, such as `/logs`; empty if the host names the bucket.
    pub prefix: &'b str,
    /// The credential that signs requests.
    pub credential: Credential<'b>,
}

/// An object that is put.
#[derive(Clone, Copy)]
pub struct Object<'o> {
    /// Its path, encoded, which begins with a slash.
    pub path: &'o str,
    /// Its media type, which the server sends with it.
    pub content_type: &'o str,
    /// How long caches may keep it, which the server sends with it (RFC 9111, section 5.2).
    pub cache_control: &'o str,
    /// Its content.
    pub body: &'o [u8],
}

/// The condition under which an object is put (RFC 9110, sections 13.1.1 and 13.1.2).
#[derive(Clone, Copy)]
pub enum Condition<'c> {
    /// None.
    Always,
    /// No object is there: `If-None-Match: *`.
    Absent,
    /// The object that is there has this entity tag: `If-Match`.
    Matches(&'c str),
}

/// The answer of a server to a put.
#[derive(Clone, Copy, Debug, PartialEq, Eq)]
pub enum PutAnswer {
    /// The object is put (200, 201, 204).
    Done,
    /// The condition doesn't hold (412).
    Refused,
    /// Another put of the object is under way (409).
    Conflict,
    /// Another status. From 500 on the object may have been put.
    Other(u16),
}

/// The answer of a server to a get.
#[derive(Clone, Copy, Debug, PartialEq, Eq)]
pub enum GetAnswer {
    /// The object is there (200).
    Found,
    /// There is none (404).
    Missing,
    /// Another status.
    Other(u16),
}

/// The response to a put.
#[derive(Drop)]
pub struct PutReply<A: Allocator> {
    /// The answer that its status gives.
    pub answer: PutAnswer,
    /// Its entity tag. If the answer is `Done`, that of the object.
    pub etag: Option<Vec<u8, A>>,
    /// Its body. If the answer isn't `Done`, the server's message, such as why the status is 403.
    pub body: Vec<u8, A>,
    /// Whether the connection can carry another request.
    pub stays_open: bool,
}

/// The response to a get.
#[derive(Drop)]
pub struct GetReply<A: Allocator> {
    /// The answer that its status gives.
    pub answer: GetAnswer,
    /// Its entity tag. If the answer is `Found`, that of the object.
    pub etag: Option<Vec<u8, A>>,
    /// Its body. If the answer is `Found`, the object's content.
    pub body: Vec<u8, A>,
    /// Whether the connection can carry another request.
    pub stays_open: bool,
}
