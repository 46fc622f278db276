//! The words that the servers share.

use super::given::text_of;
use super::table::{Group, Kind, Word};
use super::{TIMEOUT, WordsFault};
use clap::ArgMatches;
use std::alloc::Global;
use tl_serve::ListenOptions;

// How many connections are held at once if that isn't given.
const CLIENTS: u64 = 1024;

/// The words that the servers share.
pub(super) const SERVER: Group = Group {
    heading: "The server",
    words: words![
        "listen" "ADDRESS" Kind::RequiredText => "The address to listen at";
        "connections" "N" Kind::Number(0, 0xFFFF_FFFF)
            => "End after so many connections (default: never)";
        "threads" "N" Kind::Number(1, 63) => "Threads that answer (default: all processors)";
        "timeout" "N" Kind::Number(1, 86_400) => "Seconds that a connection has (default: 10)";
        "keep-alive" "N" Kind::Number(1, 86_400)
            => "Seconds to wait for another request (default: none)";
        "clients" "N" Kind::Number(1, 1_000_000)
            => "Connections that are held at once (default: 1024)";
        "quiet" "" Kind::Flag => "Report the address and lost lines alone";
    ],
};

/// Returns what is given for the words that the servers share.
pub(super) fn listen_options(
    alloc: Global,
    options: &ArgMatches<'_>,
) -> Result<ListenOptions, WordsFault> {
    Ok(ListenOptions {
        listen: text_of(alloc, options, "listen")?,
        connections: options.get_one::<u64>("connections"),
        threads: options.get_one::<u64>("threads"),
        timeout: options.get_one::<u64>("timeout").unwrap_or(TIMEOUT),
        keep_alive: options.get_one::<u64>("keep-alive"),
        clients: options.get_one::<u64>("clients").unwrap_or(CLIENTS),
        quiet: options.get_flag("quiet"),
    })
}
