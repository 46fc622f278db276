//! A witness of transparency logs: it cosigns only checkpoints that extend those it cosigned before (C2SP
//! tlog-witness).
//!
//! A witness has a `Trust` for each log: its origin, the verifiers of its signatures, and the signer that cosigns for
//! it. A `Book` keeps, besides, the chain of each origin: a link for each size that it cosigned, with the consistency
//! proof from the size before. `add` answers the body of an add-checkpoint request with the status and body of the
//! HTTP response.
//!
//! ```rust
//! let mut trusts = Vec::new(alloc);
//! trusts.push(Trust { origin, verifiers, cosigner })?;
//! let chains = read_chain(alloc, &saved)?; // the links that were saved; no bytes for a new witness
//! let mut book = Book::open(alloc, alloc, Sha256Tree, trusts, chains)?;
//! let reply = book.add(body, 1_700_000_000, &mut saver);
//! assert_eq!(reply.status, 200); // its body is a cosignature line
//! let reply = book.add(body, 1_700_000_001, &mut saver);
//! assert_eq!(reply.status, 409); // a larger size is cosigned now; the body has it
//! ```
//!
//! The `Saver` keeps each link outside the program before the witness cosigns it, so that a restart forgets nothing:
//! for example as the lines that `write_chain_line` writes and `read_chain` reads. A `SharedWitness` is a book that
//! threads share, with one lock for each origin:
//!
//! ```rust
//! let witness = SharedWitness::new(book)?;
//! let reply = witness.add(rt, body, 1_700_000_002, &mut saver); // waits only for requests of the same origin
//! ```
#![tactic(auto)]

mod book;
mod by_origin;
mod chain;
mod chain_fields;
mod chain_line;
mod chain_reading;
mod cosign;
mod finding;
mod guarded;
mod law;
mod lock;
mod opening;
mod origin_state;
mod reply;
mod request;
mod saver;
mod shared;
mod trust;

pub use book::{Book, Shown};
pub use chain_line::write_chain_line;
pub use chain_reading::{ChainFault, read_chain};
pub use law::{
    books_only_grow, chains_are_linked_from_each_step, chains_only_grow,
    cosigned_checkpoints_extend, opened_books_are_sound, saved_links_have_one_reading,
};
pub use opening::BookFault;
pub use reply::Reply;
pub use request::{AddRequest, RequestFault, parse_request};
pub use saver::{SaveFault, Saver};
pub use shared::{BookBack, SharedWitness, WitnessBack};
pub use trust::{ShownTrust, Trust};
