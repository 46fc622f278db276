//! Asks witnesses to cosign the checkpoints of a log (C2SP tlog-witness, "add-checkpoint"; tlog-cosignature).
//!
//! A witness signs a log's checkpoint only if the log has grown from the one that it signed before. So a request
//! carries three things: the size that the witness cosigned last, a consistency proof from that size to the
//! checkpoint's, and the signed checkpoint. The witness answers with a cosignature, or with status 409 and the size
//! that it has, from which the caller proves again.
//!
//! `HttpWitness` sends such requests over HTTP, and keeps the connection; `question_bytes` returns the body of one. Its
//! answer is a `WitnessAnswer`. The signature lines are unverified: `line_of` checks them. `AskFault` has a variant for
//! each status by which a witness refuses.
//!
//! A witness cosigns a checkpoint after it has seen a proof that the log only grew since the checkpoint that it
//! cosigned before. `line_of` asks one witness: it makes the consistency proof from the size that the witness has,
//! over tiles of a source, asks, asks again if the witness answers with another size, and returns the line with its
//! cosignature. The line is checked against the witness's keys. `HttpWitness` asks over HTTP; any other `AsksWitness`
//! will do.
//!
//! A log that needs cosignatures of several witnesses asks them side by side. A `Ballot` has one round at a time, for
//! one note. A thread for each witness runs `ask_in_rounds`, and one thread proposes a note and waits for events:
//! that a witness gave no line, and why, or that enough lines are there.
//!
//! ```rust
//! let proposed = Proposed { origin: "example.com/log", log: &log, note, head: &head };
//! let mut asker = HttpWitness::new(rt, alloc, url, limit);
//! let mut known = 0; // the size that the witness cosigned last, as far as the caller knows
//! let line = line_of(alloc, &source, &proposed, &mut known, &mut asker, &witness)?;
//!
//! let ballot = Ballot::new(alloc, witnesses.len())?; // shared with the threads that are in `ask_in_rounds`
//! ballot.propose(rt, note)?;
//! match ballot.wait(rt, 2)? {
//!     BallotEvent::Enough(lines) => {}       // two witnesses cosigned: append these lines to the note
//!     BallotEvent::Unasked(place, why) => {} // the witness at this place gave no line: wait again
//!     BallotEvent::Ended => {}               // another thread called `ballot.end(rt)`
//! }
//! ```
#![tactic(auto)]

mod asking;
mod ballot;
mod failing;
mod fault;
mod growing;
mod http;
mod law;
mod lines;
mod proposed;
mod question;
mod reading;
mod rounds;
mod shelf;
mod tally;
mod unasked;
mod writing;

pub use ballot::Ballot;
pub use fault::AskFault;
pub use growing::growth_from;
pub use http::HttpWitness;
pub use law::honest_growth_is_accepted;
pub use lines::line_of;
pub use proposed::{AsksWitness, LogIdentity, Proposed};
pub use question::{Question, WitnessAnswer};
pub use rounds::ask_in_rounds;
pub use shelf::ShelfReader;
pub use tally::BallotEvent;
pub use unasked::Unasked;
pub use writing::question_bytes;
