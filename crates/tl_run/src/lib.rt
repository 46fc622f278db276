//! What every command of `tlog` shares: why a run ends, its streams, its keys, and the checkpoint that it signs.
#![tactic(auto)]

mod checkpoint;
mod fault;
mod keys;
mod log_signer;
mod place;
mod streams;

pub use checkpoint::{checkpoint_of, sign_checkpoint};
pub use fault::{RunFault, exit_of, fault_line};
pub use keys::{LogKey, read_file, read_log_key, read_private_key};
pub use log_signer::{HmacLogSigner, LogSigner};
pub use place::Place;
pub use streams::{MOST_INPUT, print_text, read_input};
