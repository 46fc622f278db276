//! The words of the commands that build a log, as a mirror or in a folder.

use super::bucket::{BUCKET, bucket_of, bucket_refusal};
use super::given::{
    NamedLog, has_log_key, is_given, named_log, text_if_given, text_of, usage_error,
};
use super::table::{Group, Kind, Word, Words};
use super::{EITHER_KEY, THREADS, WordsFault, texts};
use crate::in_bucket::AppendToOptions;
use crate::job::Job;
use clap::ArgMatches;
use std::alloc::Global;
use tl_append::AppendOptions;
use tl_command::{BuildOptions, SignedOptions};
use tl_run::LogKey;

// The message if both a resource and a folder are given.
const ONE_OUTPUT: &str = "--get and --dir are not given together";

// The message if both threads and a folder are given.
const NO_THREADS: &str = "--threads and --dir are not given together";

// The message if not exactly one place of a log is given.
const EITHER_PLACE: &str = "either --dir or --bucket is given";

// The message if options of a folder are given with a bucket.
const OF_A_FOLDER: &str =
    "--get, --threads, --older and --keep-partials are not given with --bucket";

// After how many entries a log in a bucket is published if the options don't say.
const BATCH: u64 = 65_536;

/// The words of a log and its key.
pub(super) const LOG: Group = Group {
    heading: "The log",
    words: words![
        "origin" "NAME" Kind::RequiredText => "The name of the log, a key's name";
        "secret" "SECRET" Kind::Text => "The secret of its demonstration key";
        "key" "FILE" Kind::Path => "The file with its private key";
    ],
};

const BUILD: Words = Words {
    name: "build",
    about: "Builds the log of the lines of standard input",
    after_help: texts::BUILD,
    groups: &[
        LOG,
        Group {
            heading: "What is built",
            words: words![
                "get" "PATH" Kind::Text => "Print the resource with this path";
                "dir" "DIR" Kind::Path => "Write the log into this folder";
                "threads" "N" Kind::Short => THREADS;
            ],
        },
        BUCKET,
    ],
};

/// Returns the words of `build`.
pub(super) fn build() -> &'static Words {
    &BUILD
}

const APPEND: Words = Words {
    name: "append",
    about: "Appends the lines of its input to the log in a folder or a bucket",
    after_help: texts::APPEND,
    groups: &[
        LOG,
        Group {
            heading: "Where it is, and how it grows",
            words: words![
                "dir" "DIR" Kind::Path => "The folder of the log";
                "new" "" Kind::Flag => "Begin a log; none may be there";
                "batch" "N" Kind::Number(1, 0xFFFF_FFFF)
                    => "Publish after each N entries (in a bucket: 65536)";
                "older" "" Kind::Flag => "Go on from an older checkpoint than was there";
                "keep-partials" "" Kind::Flag => "Keep partial tiles that full ones replace";
            ],
        },
        BUCKET,
    ],
};

/// Returns the words of `append`.
pub(super) fn append() -> &'static Words {
    &APPEND
}

// How entries are appended to a log.
#[derive(Drop)]
struct Appending {
    batch: Option<u64>,
    is_new: bool,
    allows_older: bool,
    keeps_partials: bool,
}

// Returns the options of an append to the log at this place.
fn append_options(
    alloc: Global,
    options: &ArgMatches<'_>,
    place: &str,
    how: Appending,
) -> Result<AppendOptions, WordsFault> {
    let dir = text_of(alloc, options, place)?;
    let NamedLog { origin, key } = named_log(alloc, options)?;
    let Appending {
        batch,
        is_new,
        allows_older,
        keeps_partials,
    } = how;
    Ok(AppendOptions {
        dir,
        origin,
        key,
        batch,
        is_new,
        allows_older,
        keeps_partials,
    })
}

// Returns the job that appends to a log in a bucket, where partial tiles are kept.
fn append_to(
    alloc: Global,
    options: &ArgMatches<'_>,
    batch: Option<u64>,
    is_new: bool,
) -> Result<Job, WordsFault> {
    let how = Appending {
        batch: Some(batch.unwrap_or(BATCH)),
        is_new,
        allows_older: false,
        keeps_partials: true,
    };
    let append = append_options(alloc, options, "bucket", how)?;
    let bucket = bucket_of(alloc, options)?;
    Ok(Job::AppendTo(AppendToOptions { bucket, append }))
}

// Returns the message if the words of `build` don't go together.
fn build_refusal(options: &ArgMatches<'_>) -> Option<&'static str> {
    let has_threads = options.get_one::<u16>("threads").is_some();
    let (has_get, has_dir) = (is_given(options, "get"), is_given(options, "dir"));
    if !has_log_key(options) {
        return Some(EITHER_KEY);
    }
    if let Some(why) = bucket_refusal(options) {
        return Some(why);
    }
    match (is_given(options, "bucket"), has_dir) {
        (true, _) if has_threads || has_get => Some(OF_A_FOLDER),
        (true, true) => Some(EITHER_PLACE),
        (false, true) if has_threads => Some(NO_THREADS),
        (false, true) if has_get => Some(ONE_OUTPUT),
        _ => None,
    }
}

// Returns the job that prints a mirror.
fn print_job(alloc: Global, options: &ArgMatches<'_>) -> Result<Job, WordsFault> {
    let threads = options.get_one::<u16>("threads");
    let get = text_if_given(alloc, options, "get")?;
    let NamedLog { origin, key } = named_log(alloc, options)?;
    match key {
        LogKey::Secret(secret) => Ok(Job::Build(BuildOptions {
            origin,
            secret,
            get,
            threads,
        })),
        LogKey::File(key) => Ok(Job::BuildSigned(SignedOptions {
            origin,
            key,
            get,
            threads,
        })),
    }
}

// Returns the job of `build`: either the secret or the file of a key is given, and not both a resource and a folder.
pub(super) fn build_job(alloc: Global, options: &ArgMatches<'_>) -> Result<Job, WordsFault> {
    if let Some(why) = build_refusal(options) {
        return Err(usage_error(alloc, build(), why));
    }
    if is_given(options, "bucket") {
        return append_to(alloc, options, None, true);
    }
    if !is_given(options, "dir") {
        return print_job(alloc, options);
    }
    let how = Appending {
        batch: None,
        is_new: true,
        allows_older: false,
        keeps_partials: false,
    };
    Ok(Job::Append(append_options(alloc, options, "dir", how)?))
}

// Returns the message if the words of `append` don't go together.
fn append_refusal(options: &ArgMatches<'_>) -> Option<&'static str> {
    let of_a_folder = options.get_flag("older") || options.get_flag("keep-partials");
    if !has_log_key(options) {
        return Some(EITHER_KEY);
    }
    if let Some(why) = bucket_refusal(options) {
        return Some(why);
    }
    match (is_given(options, "bucket"), is_given(options, "dir")) {
        (true, true) | (false, false) => Some(EITHER_PLACE),
        (true, false) if of_a_folder => Some(OF_A_FOLDER),
        _ => None,
    }
}

// Returns the job of `append`, to a folder or to a bucket.
pub(super) fn append_job(alloc: Global, options: &ArgMatches<'_>) -> Result<Job, WordsFault> {
    if let Some(why) = append_refusal(options) {
        return Err(usage_error(alloc, append(), why));
    }
    let batch = options.get_one::<u64>("batch");
    let is_new = options.get_flag("new");
    if is_given(options, "bucket") {
        return append_to(alloc, options, batch, is_new);
    }
    let how = Appending {
        batch,
        is_new,
        allows_older: options.get_flag("older"),
        keeps_partials: options.get_flag("keep-partials"),
    };
    Ok(Job::Append(append_options(alloc, options, "dir", how)?))
}
