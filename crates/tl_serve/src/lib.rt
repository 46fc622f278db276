//! The servers of the program `tlog`: `serve`, which runs a log, and `witness`, which cosigns checkpoints of logs.
//!
//! `run_serve` keeps a log in memory, and `run_serve_shelf` on a shelf, a folder or a bucket, where it outlives the
//! server. Both answer requests over HTTP for the log's checkpoint, tiles and entry bundles (C2SP tlog-tiles). The
//! log grows by the lines of an input and, if the options say so, by what is posted to `/add`. Several threads
//! answer, one for each lane sends entries, and one takes, signs and publishes them. With witnesses to ask,
//! `run_serve_cosigned` shows a checkpoint only once enough of them have cosigned it. `run_witness` serves a witness
//! of one log or of many (C2SP tlog-witness); it prints a line for each link before it answers, from which the next
//! run goes on.
//!
//! A server binds its address first, reports it on a writer, and ends after as many connections as the options say,
//! or once something fails.
//!
//! ```rust
//! // `options` name the log, its key and the address; reports `listening 127.0.0.1:8080`, and ends in time
//! run_serve(&rt, Global, &options, None, &mut reader, &mut log)?;
//!
//! // `witness` names the logs and the witness's key; prints a line for each checkpoint that it cosigns
//! let bound = BoundListener::bind(&rt, Global, &witness.server, &mut log)?;
//! run_witness(&rt, Global, &witness, Some(&bound), &mut reader, &mut writer, &mut log)?;
//! ```
#![tactic(auto)]

mod answering;
mod asked;
mod awaited;
mod bound_listener;
mod connection;
mod connections;
mod context;
mod cosigner;
mod cosigners;
mod following;
mod gate;
mod host;
mod lanes;
mod listed;
mod listener;
mod live_log;
mod memory_log;
mod moment;
mod opening;
mod options;
mod queue;
mod queued;
mod receipt;
mod remembered;
mod resources;
mod running;
mod saver;
mod serve;
mod serve_cosigned;
mod serve_shelf;
mod server;
mod serving;
mod shared_writer;
mod shelf_log;
mod signal_feed;
mod signals;
mod submission;
mod submit_queue;
mod telling;
mod watch;
mod witness;
mod witness_fault;
mod witness_server;
mod written;

pub use bound_listener::{BoundListener, Site};
pub use gate::Gate;
pub use host::Host;
pub use options::{
    AskedWitness, KnownLogs, ListenOptions, LogVerifierKey, ServeOptions, WitnessOptions,
    WitnessSignerKey,
};
pub use queue::LineQueue;
pub use saver::LineSaver;
pub use serve::{run_serve, serve_gated, threads_of};
pub use serve_cosigned::{CosignedLog, run_serve_cosigned};
pub use serve_shelf::{Served, run_serve_shelf};
pub use witness::run_witness;
pub use witness_fault::WitnessFault;
