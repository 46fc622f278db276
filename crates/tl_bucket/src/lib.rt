//! A log in a bucket, which several operators may share (C2SP tlog-tiles; for the conditions of puts RFC 9110,
//! "If-Match" and "If-None-Match").
//!
//! A bucket is a store of objects whose puts may have conditions, such as S3. A log in it has the layout of
//! tlog-tiles, so clients read it as any other. Its operators agree by *commits*: an operator that appends entries
//! first puts them under the next `commit/N`, on condition that nothing is there yet. Then it puts the tiles and
//! bundles that the committed log needs, and last the checkpoint, on condition that the old one is still there. An
//! operator that finds commits behind the checkpoint finishes them first. So of any two checkpoints that operators
//! sign, the entries of one are a prefix of the other's, whoever crashes or loses a race. The laws of this crate,
//! such as `operators_never_fork`, state that and more.
//!
//! `BucketShelf` is such a bucket as a `Shelf`. Open it and finish what was begun; then use it as a folder, with
//! `run_append` or `SealedShelf` (`tl_append`). `BucketShelf::reader` opens it for reading alone.
//!
//! ```rust
//! let client = Client::new(&rt, alloc, url, credential);
//! // `token` is a line that no other run has; `false`: the log is there already
//! let mut shelf = BucketShelf::open(disk, client, address, token, false)?;
//! finish_log(&rt, alloc, origin, &key, &mut shelf)?; // what other operators committed is put and shown
//! let start = Some(shelf.committed()); // how many entries the log must have
//! run_append(
//!     &rt, alloc, &options, start, Joining::AtHand, &mut shelf, &NoProposals, &mut found, &mut reader, &mut writer,
//! )?;
//! ```
#![tactic(auto)]

mod asking;
mod claims;
mod client;
mod commit;
mod fault;
mod finishing;
mod law;
mod noting;
mod objects;
mod opening;
mod reach;
mod record;
mod shelf;
mod staged;
mod together;
mod workers;

pub use client::Client;
pub use fault::BucketFault;
pub use finishing::finish_log;
pub use law::{
    checkpoints_tell_size, commits_have_no_gap, commits_have_one_reading, commits_stay,
    committed_logs_extend, leave_to_send_stays, log_can_go_on, new_resources_suffice,
    operators_never_fork, shown_log_is_complete, shown_log_never_rolls_back,
    stored_bytes_are_right, stored_bytes_stay,
};
pub use shelf::BucketShelf;
pub use together::{DiskAndStore, PutsTogether, SpreadWork};
pub use workers::Worker;
