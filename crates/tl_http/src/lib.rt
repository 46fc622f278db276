//! A client's half of HTTP/1.1: one request and its response, over any reader and writer (RFC 9110, RFC 9112).
//!
//! `get` returns the body of a response with status 200. `post` sends a body, and returns the status, one field and
//! the body of a response whose status is one of those that the caller names. Both close the connection. `exchange`
//! sends a request that the caller makes up, a `Message` with its own method and fields, and reports whether the
//! connection can carry another one. All three take a limit of the body's size.
//!
//! `values_in` and `number_in` read the fields of any head, of a request or a response.
//!
//! A reader and a writer are `Counted` (`tl_device`), and may be the two halves of a connection. Nothing is trusted:
//! a response that isn't clear is a `HttpFault`, which says why. Redirects aren't followed, codings aren't decoded and
//! trailers aren't read. Time limits and TLS are the caller's.
//!
//! ```rust
//! let mut reader = Counted::new(&stream);
//! let mut writer = Counted::new(&stream);
//! match get(alloc, &mut reader, &mut writer, "example.com", "/checkpoint", 65_536) {
//!     Ok(body) => {}                   // the whole body, at most 65,536 bytes
//!     Err(HttpFault::Status(404)) => {} // the server has nothing there
//!     Err(_) => {}                     // why there is no body
//! }
//!
//! let statuses = [200, 409];
//! let (target, field) = ("/add", "Content-Type");
//! let asked = Post { host: "example.com", target, body: b"text", statuses: &statuses, field };
//! match post(alloc, &mut reader, &mut writer, &asked, 65_536) {
//!     Ok(reply) => {}                  // status 200 or 409, the value of Content-Type, and the body
//!     Err(HttpFault::Status(_)) => {}   // another status
//!     Err(_) => {}                     // why there is no response
//! }
//!
//! let fields = [FieldLine { name: "host", value: "example.com" }];
//! let statuses = [200, 412];
//! let (target, field) = ("/a", "ETag");
//! let message = Message { method: "PUT", target, fields: &fields, body: b"text", statuses: &statuses, field };
//! let response = exchange(alloc, &mut reader, &mut writer, &message, 65_536)?;
//! if response.stays_open {}            // the same reader and writer can carry another request
//! ```
#![tactic(auto)]

mod announced;
mod body;
mod chunks;
mod fault;
mod field_values;
mod fields;
mod framing;
mod getting;
mod growth;
mod head;
mod kept;
mod message;
mod persistence;
mod posting;
mod request;
mod sendable;
mod sending;
mod taken;
mod target;
mod window;
mod written;

pub use fault::HttpFault;
pub use field_values::{Values, number_in, values_in};
pub use getting::get;
pub use kept::exchange;
pub use message::{FieldLine, Message, Response};
pub use posting::post;
pub use request::{Post, Reply};
