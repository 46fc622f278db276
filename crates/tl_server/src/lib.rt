//! A server's half of HTTP/1.1: answers one request to a log (C2SP tlog-tiles) or to a witness (C2SP tlog-witness),
//! over any reader and writer. The connection is closed after the answer.
//!
//! `serve_log` answers GET requests for the resources of a log, its checkpoint, tiles and bundles, from a reader of
//! the board in memory; `serve_shelf` does the same from a `Shelf`, such as a folder. `serve_open_log` and
//! `serve_open_shelf` answer these requests too, and take entries: `POST /add` submits the body to a queue
//! (`Submits`), and is answered with the entry's index once the published bundle has the entry there. A `ReadBack` is a
//! shelf that keeps the bundle it read last for that. `serve_witness` answers a witness's add-checkpoint requests.
//!
//! Each call reads one request and writes one answer. Accepting connections, threads and time limits are the
//! caller's.
//!
//! ```rust
//! let mut reader = Counted::new(&stream);
//! let mut writer = Counted::new(&stream);
//! match serve_log(alloc, &mut reader, &mut writer, &mut board) {
//!     Ok(Some(status)) => {} // the whole answer was written, with this status
//!     Ok(None) => {}         // the connection was closed without a byte
//!     Err(_) => {}           // a read or a write failed
//! }
//!
//! match serve_open_log(alloc, &mut reader, &mut writer, &mut board, &mut queue) {
//!     Ok(Outcome::Answered(status)) => {} // the whole answer was written: 200 has the index of the posted entry
//!     Ok(Outcome::Later) => {}            // the index isn't known yet: call again with the same bytes
//!     Ok(Outcome::Misplaced) => {}        // answered 500: the board doesn't have the entry at the reported index
//!     Ok(Outcome::Nothing) => {}          // the connection was closed without a byte
//!     Err(_) => {}                        // a read or a write failed
//! }
//! ```
#![tactic(auto)]

mod adding;
mod body;
mod course;
mod entry;
mod fault;
mod fields;
mod head;
mod log;
mod look;
mod method;
mod open_log;
mod open_shelf;
mod post;
mod posted;
mod read_back;
mod receive;
mod sending;
mod shelf;
mod witness;

pub use adding::{EntryStatus, Outcome, Submits};
pub use fault::ServeFault;
pub use log::serve_log;
pub use open_log::serve_open_log;
pub use open_shelf::serve_open_shelf;
pub use post::serve_witness;
pub use read_back::ReadBack;
pub use shelf::serve_shelf;
pub use witness::Witness;
