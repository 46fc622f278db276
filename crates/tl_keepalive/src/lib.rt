//! A server's connection over HTTP/1.1 that carries one request after another (RFC 9112, section 9.3).
//!
//! `Exchanges` holds what came over a connection and isn't answered yet, and what is to be sent. It does no input and
//! no output: the caller feeds it the bytes that it read, calls `answer`, and sends what is `unsent`. Requests may come
//! in pieces, or several at once; they are answered in order, one at a time. The answers are those of `Resources`,
//! which are a log's or a witness's calls of `tl_server`; one after which the connection stays open is sent without
//! its field `Connection: close`.
//!
//! ```rust
//! let mut exchanges = Exchanges::new(alloc);
//! exchanges.feed(&buf[..count])?;
//! match exchanges.answer(&mut resources, &mut queue, true) {
//!     Turn::Answered(stays) => {} // send `exchanges.unsent()`, and then go on or close
//!     Turn::More => {}            // read on
//!     Turn::Later => {}           // try again once the queue knows the entry's index
//!     _ => {}                     // close
//! }
//! ```
#![tactic(auto)]

mod exchanges;
mod facts;
mod kept_text;
mod law;
mod partial;
mod resources;
mod staying;
mod turn;

pub use exchanges::Exchanges;
pub use law::{Leads, what_is_sent_is_a_conversation};
pub use resources::Resources;
pub use turn::Turn;
