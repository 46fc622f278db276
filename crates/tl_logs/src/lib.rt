//! Two files of a witness (C2SP tlog-witness): the logs that it knows, and the links that it has saved.
//!
//! The file of logs has one line for each key of a log: a verifier key (C2SP signed-note), or the log's name and a
//! key. `read_logs` returns the logs with their keys:
//!
//! ```rust
//! let logs = read_logs(alloc, b"# one log\nexample.com/log+530ac4f8+AQ8e..\n")?;
//! assert_eq!(logs[0].origin.as_str(), "example.com/log");
//! assert_eq!(logs[0].keys.len(), 1);
//! let bad = read_logs(alloc, b"# one log\nexample.com/log\n"); // `LogsFault::Malformed(2)`: no key in line 2
//! ```
//!
//! It may also be a list of logs, as it is published: `logs/v0`, and then `vkey KEY` and `origin NAME` for each log.
//!
//! The state has one line for each link that the witness saved, as `tl_witness::write_chain_line` writes it. A start
//! needs only the last size and root of each log. `read_state` reads the lines as a stream, checks each link against
//! the one before, and keeps only these heads. `whole_chains` makes them the chains that `tl_witness::Book::open`
//! takes:
//!
//! ```rust
//! let mut reader = Counted::new(file);
//! let heads = read_state(alloc, Sha256Tree, Some(logs.as_slice()), &mut reader)?;
//! let chains = whole_chains(alloc, heads)?;
//! let book = Book::open(alloc, alloc, Sha256Tree, trusts, chains)?;
//! ```
//!
//! `compact_state` reads a state and returns a shorter one that leads to the same heads, with one line for each log.
#![tactic(auto)]

mod by_origin;
mod entry;
mod fault;
mod head;
mod known;
mod law;
mod line;
mod listing;
mod log;
mod one_line;
mod placing;
mod reading;
mod state;
mod state_fault;
mod state_reading;
mod taking;

pub use fault::LogsFault;
pub use head::{OriginHead, whole_chains};
pub use law::{whole_steps_are_chains, whole_steps_lead_there};
pub use log::KnownLog;
pub use reading::read_logs;
pub use state::{compact_state, read_state};
pub use state_fault::StateFault;
