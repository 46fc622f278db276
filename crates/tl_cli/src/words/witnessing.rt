//! The words of the command `witness`.

use super::given::{is_given, text_if_given, usage_error};
use super::listening::{SERVER, listen_options};
use super::table::{Group, Kind, Word, Words};
use super::{LOG_KEY, WordsFault, texts};
use crate::job::Job;
use clap::ArgMatches;
use std::alloc::{AllocError, Global};
use tl_serve::{KnownLogs, LogVerifierKey, WitnessOptions, WitnessSignerKey};

// The message if not exactly one key of the log is given to a witness.
const ONE_LOG_KEY: &str = "either --secret or --log-key is given";

// The message if neither one log nor a file of logs is given to a witness.
const ONE_OR_MANY: &str = "either --origin, with one key of the log, or --logs is given";

// The message if not exactly one key of the witness is given.
const ONE_WITNESS_KEY: &str = "either --name and --witness-secret or --key is given";

// The message if a state is to begin or to be compacted, and none is given.
const OF_A_STATE: &str = "--new and --compact are given with --state alone";

// The message if a state is both to begin and to be compacted.
const NOTHING_TO_COMPACT: &str = "--new and --compact are not given together";

const WITNESS: Words = Words {
    name: "witness",
    about: "Serves a witness, which cosigns what extends the last checkpoint",
    after_help: texts::WITNESS,
    groups: &[
        Group {
            heading: "The logs",
            words: words![
                "origin" "NAME" Kind::Text => "The name of the log, a key's name";
                "secret" "SECRET" Kind::Text => "The secret of its demonstration key";
                "log-key" "VKEY" Kind::Text => LOG_KEY;
                "logs" "FILE" Kind::Path => "The file of many logs, a line a key";
            ],
        },
        Group {
            heading: "The witness",
            words: words![
                "key" "FILE" Kind::Path => "The file with its private key";
                "name" "NAME" Kind::Text => "The name of its demonstration key";
                "witness-secret" "SECRET" Kind::Text => "The secret of that key";
                "state" "FILE" Kind::Path
                    => "What it cosigned (default: standard streams)";
                "new" "" Kind::Flag => "Make that file; none may be there";
                "compact" "" Kind::Flag => "First keep each log's last line alone there";
                "time" "N" Kind::Number(0, u64::MAX)
                    => "The time, in seconds since 1970 (default: now)";
            ],
        },
        SERVER,
    ],
};

/// Returns the words of `witness`.
pub(super) fn witness() -> &'static Words {
    &WITNESS
}

// Returns the one log that a witness knows, by its key.
fn one_log(alloc: Global, origin: &str, key: LogVerifierKey) -> Result<KnownLogs, AllocError> {
    let origin = String::from_str(alloc, origin)?;
    Ok(KnownLogs::One(origin, key))
}

// Returns the logs that a witness knows: one by its name and either its secret or the text of its key, or those of a
// file.
fn known_logs(alloc: Global, options: &ArgMatches<'_>) -> Result<KnownLogs, WordsFault> {
    let (origin, file) = (options.get_str("origin"), options.get_str("logs"));
    match (
        origin,
        options.get_str("secret"),
        options.get_str("log-key"),
        file,
    ) {
        (None, None, None, Some(file)) => Ok(KnownLogs::Listed(String::from_str(alloc, file)?)),
        (Some(origin), Some(secret), None, None) => {
            let key = LogVerifierKey::Secret(String::from_str(alloc, secret)?);
            Ok(one_log(alloc, origin, key)?)
        }
        (Some(origin), None, Some(text), None) => {
            let key = LogVerifierKey::Text(String::from_str(alloc, text)?);
            Ok(one_log(alloc, origin, key)?)
        }
        (Some(_), _, _, None) => Err(usage_error(alloc, witness(), ONE_LOG_KEY)),
        _ => Err(usage_error(alloc, witness(), ONE_OR_MANY)),
    }
}

// Returns the key of a witness: a name and its secret, or a file.
fn cosigner_key(alloc: Global, options: &ArgMatches<'_>) -> Result<WitnessSignerKey, WordsFault> {
    let (name, secret) = (options.get_str("name"), options.get_str("witness-secret"));
    match (name, secret, options.get_str("key")) {
        (Some(name), Some(secret), None) => Ok(WitnessSignerKey::Secret(
            String::from_str(alloc, name)?,
            String::from_str(alloc, secret)?,
        )),
        (None, None, Some(file)) => Ok(WitnessSignerKey::File(String::from_str(alloc, file)?)),
        _ => Err(usage_error(alloc, witness(), ONE_WITNESS_KEY)),
    }
}

// Returns the message if the words of a witness's state don't go together.
fn state_refusal(options: &ArgMatches<'_>) -> Option<&'static str> {
    let (is_new, compacts) = (options.get_flag("new"), options.get_flag("compact"));
    if (is_new || compacts) && !is_given(options, "state") {
        return Some(OF_A_STATE);
    }
    (is_new && compacts).then_some(NOTHING_TO_COMPACT)
}

// Returns the job of `witness`: a state is given if one begins or is compacted.
pub(super) fn witness_job(alloc: Global, options: &ArgMatches<'_>) -> Result<Job, WordsFault> {
    if let Some(why) = state_refusal(options) {
        return Err(usage_error(alloc, witness(), why));
    }
    Ok(Job::Witness(WitnessOptions {
        logs: known_logs(alloc, options)?,
        key: cosigner_key(alloc, options)?,
        time: options.get_one::<u64>("time"),
        state: text_if_given(alloc, options, "state")?,
        is_new: options.get_flag("new"),
        compacts: options.get_flag("compact"),
        server: listen_options(alloc, options)?,
    }))
}
