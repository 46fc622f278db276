//! A client of a log that it doesn't trust: the commands `fetch` and `feed`.
//!
//! A log publishes its entries, the hashes of its Merkle tree and a signed checkpoint (C2SP tlog-tiles,
//! tlog-checkpoint). The source of these, a folder or a host, may lie. So a checkpoint is trusted only if the log
//! signed it and enough witnesses cosigned it (C2SP tlog-cosignature), as a `Policy` says, and if it extends the
//! checkpoint that was trusted last by an accepted consistency proof (RFC 6962, section 2.1.2). An entry counts only
//! if it hashes up to the checkpoint's root. If the log forked, `run_fetch` prints evidence that anybody can check,
//! and fails with `Forked`.
//!
//! The parts can be used over any source, store of the state, and observer of the checks:
//!
//! ```rust
//! let key: Box<dyn Verifier> = Box::new(Global, read_log_key(Global, "example.com/log+530ac4f8+AQ8e..")?)?;
//! let policy = Policy {
//!     origin: "example.com/log",
//!     log: &[key],
//!     witnesses: &[],
//!     need: 0,
//!     since: None,
//!     under: None,
//! };
//! let url = Url::parse("http://log.example/2026/").unwrap();
//! let source = HttpSource::new(&rt, Global, url, Duration::from_secs(10));
//!
//! let head = open_trusted(Global, &policy, note)?; // of the source's checkpoint, a `&str`
//! let entry = fetch_entry(Global, &source, &head, 7, &mut observer)?;
//! ```
//!
//! or as the program does, by the options of a command:
//!
//! ```rust
//! if let Err(fault) = run_fetch(&rt, Global, &options, &mut writer, &mut errors, false) {
//!     let line = fetch_fault_line(Global, &fault)?; // for standard error
//!     let status = fetch_exit_of(&fault); // 4: the log forked
//! }
//! ```
#![tactic(auto)]

mod ahead;
mod by_keys;
mod by_policy;
mod caching;
mod command;
mod conditions;
mod cosigned;
mod entry;
mod fault;
mod faults;
mod feed;
mod freshness;
mod judging;
mod kept;
mod law;
mod listing;
mod log_keys;
mod observer;
mod opening;
mod options;
mod policy;
mod printing;
mod progress;
mod run;
mod state;
mod state_file;
mod under;
mod witnesses;

pub use by_policy::fetch_by_policy;
pub use command::{name_lack, run_fetch, source_of};
pub use entry::fetch_entry;
pub use fault::{Address, FetchFault, fetch_exit_of, fetch_fault_line};
pub use faults::client_refusal;
pub use feed::asking::AsksWitnesses;
pub use feed::by_policy::feed_by_policy;
pub use feed::command::{FeedOptions, run_feed};
pub use feed::feeding::feed_under;
pub use law::listing_is_one_list;
pub use listing::print_entries;
pub use observer::{Nobody, Observer};
pub use opening::{open_trusted, trusted_head};
pub use options::{FetchOptions, FetchRequest};
pub use policy::Policy;
pub use printing::{print_entry, print_head, print_proof, print_raw};
pub use run::fetch_under;
pub use state::{NoState, TrustStore};
pub use state_file::FileState;
pub use under::Under;
