//! The words of the command `serve`.

use super::bucket::{BUCKET, bucket_of, bucket_refusal};
use super::building::LOG;
use super::fetching::FEWER;
use super::given::{
    NamedLog, count_given, has_log_key, is_given, named_log, no_word, text_if_given, usage_error,
};
use super::listening::{SERVER, listen_options};
use super::table::{Group, Kind, Word, Words};
use super::{EITHER_KEY, WordsFault, texts};
use crate::in_bucket::ServeFromOptions;
use crate::job::Job;
use crate::policy_words::{AskedByPolicy, asked_by};
use clap::ArgMatches;
use std::alloc::{AllocError, Global};
use tl_policy::PolicyFault;
use tl_serve::{AskedWitness, ServeOptions};

// What an option is if it isn't given.
const LANES: u64 = 1;

const CAPACITY: u64 = 256;

const BATCH: u64 = 256;

// The message if both a note and a folder are given.
const ONE_BASE: &str = "--note and --dir are not given together";

// The message if options of a log in a folder are given without a folder.
const OF_A_FOLDER: &str =
    "--older, --keep-partials, --witness and --witnesses are given with --dir alone";

// The message if a bucket is given with a note or a folder.
const ONE_PLACE: &str = "--note, --dir and --bucket are not given together";

// The message if a witness is given without its key or its address.
const NO_PAIR: &str = "--witness is VKEY=http://HOST[:PORT][/PATH]";

// The message if a number of cosignatures is given without a witness, or is 0.
const OF_WITNESSES: &str = "--need is given with --witness alone, and at least 1";

// The message if a policy says who is asked, and others do, too.
const ONE_ASKED: &str = "--witnesses is given without --witness and --need";

// The message if an interval is given, and no entries come while the log is served.
const OF_WHAT_COMES: &str = "--interval is given with --follow or --add alone";

// The message if a number of remembered entries is given, and none are posted.
const OF_POSTS: &str = "--remember is given with --add alone";

// How many entries are remembered if the options don't say.
const REMEMBER: u64 = 65_536;

// How many milliseconds posted entries wait for more if no interval is given.
const INTERVAL: u64 = 1000;

// The message if a log begins that is neither in a folder nor in a bucket.
const OF_A_PLACE: &str = "--new is given with --dir or --bucket alone";

const SERVE: Words = Words {
    name: "serve",
    about: "Serves the lines of its input, or the log in a folder or a bucket",
    after_help: texts::SERVE,
    groups: &[
        LOG,
        Group {
            heading: "Where it is",
            words: words![
                "dir" "DIR" Kind::Path => "The folder of the log";
                "new" "" Kind::Flag => "Begin a log there; none may be there";
                "note" "NOTE" Kind::Text => "In memory: the checkpoint that it goes on from";
                "older" "" Kind::Flag => "Go on from an older checkpoint than was there";
                "keep-partials" "" Kind::Flag => "Keep partial tiles that full ones replace";
            ],
        },
        BUCKET,
        Group {
            heading: "How it grows",
            words: words![
                "follow" "" Kind::Flag => "Publish lines as they come";
                "add" "" Kind::Flag => "Take entries that are posted, and --follow";
                "interval" "MS" Kind::Number(0, 86_400_000)
                    => "Wait for more so long (default: 1000 with --add, else 0)";
                "remember" "N" Kind::Number(0, 16_777_216)
                    => "Know so many posted entries again (default: 65536)";
                "lanes" "N" Kind::Number(0, u64::MAX) => "Lanes that entries come by (default: 1)";
                "capacity" "N" Kind::Number(0, u64::MAX)
                    => "Entries that a lane has room for (default: 256)";
                "batch" "N" Kind::Number(1, 65_536)
                    => "Entries of a lane that are taken at once (default: 256)";
            ],
        },
        Group {
            heading: "Witnesses",
            words: words![
                "witness" "VKEY=URL" Kind::Texts => "One that is asked to cosign; @FILE=URL, too";
                "need" "N" Kind::Number(0, u64::MAX)
                    => "How many must have cosigned (default: all)";
                "witnesses" "FILE" Kind::Path
                    => "In place of these two: the quorum of a policy";
            ],
        },
        SERVER,
    ],
};

/// Returns the words of `serve`.
pub(super) fn serve() -> &'static Words {
    &SERVE
}

// Returns the message if words on entries that come while a log is served are given, and none come.
fn coming_refusal(options: &ArgMatches<'_>) -> Option<&'static str> {
    let takes_posts = options.get_flag("add");
    let has_interval = options.get_one::<u64>("interval").is_some();
    if has_interval && !takes_posts && !options.get_flag("follow") {
        return Some(OF_WHAT_COMES);
    }
    let has_remember = options.get_one::<u64>("remember").is_some();
    (has_remember && !takes_posts).then_some(OF_POSTS)
}

// Reports whether each text names a witness: its key, and behind a `=` its address.
fn are_pairs(options: &ArgMatches<'_>) -> bool {
    match options.get_strs("witness") {
        Some(texts) => texts.iter().all(|text| text.find("=http://").is_some()),
        None => true,
    }
}

// Returns the witness that a text names.
fn asked_of(alloc: Global, text: &str) -> Result<AskedWitness, WordsFault> {
    let Some(end) = text.find("=http://") else {
        return Err(no_word(alloc));
    };
    Ok(AskedWitness {
        key: String::from_str(alloc, &text[..end])?,
        url: String::from_str(alloc, &text[end + 1..])?,
    })
}

// Returns the witnesses that are asked.
fn all_asked(alloc: Global, options: &ArgMatches<'_>) -> Result<Vec<AskedWitness>, WordsFault> {
    let mut asked = Vec::new(alloc);
    let Some(texts) = options.get_strs("witness") else {
        return Ok(asked);
    };
    for text in texts {
        let witness = asked_of(alloc, text)?;
        if asked.push(witness).is_err() {
            return Err(WordsFault::OutOfMemory);
        }
    }
    Ok(asked)
}

// Returns how many of the witnesses must have cosigned what is shown: all, unless a number is given.
fn must_cosign(options: &ArgMatches<'_>) -> u64 {
    match options.get_one::<u64>("need") {
        Some(need) => need,
        None => count_given(options, "witness") as u64,
    }
}

// Returns who is asked: the witnesses of a policy, if one is given.
fn asked(alloc: Global, options: &ArgMatches<'_>) -> Result<AskedByPolicy, WordsFault> {
    let Some(text) = options.get_str("witnesses") else {
        return Ok(AskedByPolicy {
            witnesses: all_asked(alloc, options)?,
            need: must_cosign(options),
            quorum: None,
        });
    };
    match asked_by(alloc, text) {
        Ok(asked) => Ok(asked),
        Err(PolicyFault::OutOfMemory) => Err(WordsFault::OutOfMemory),
        Err(_) => Err(no_word(alloc)),
    }
}

// Returns the message if a text names no witness, or the number of cosignatures doesn't fit the witnesses.
fn witness_refusal(options: &ArgMatches<'_>) -> Option<&'static str> {
    if !are_pairs(options) {
        return Some(NO_PAIR);
    }
    let counts = count_given(options, "witness") > 0 || options.get_one::<u64>("need").is_some();
    if counts && is_given(options, "witnesses") {
        return Some(ONE_ASKED);
    }
    let (need, all) = (must_cosign(options), count_given(options, "witness") as u64);
    if need > all && all > 0 {
        return Some(FEWER);
    }
    let is_told = options.get_one::<u64>("need").is_some();
    (is_told && (need == 0 || all == 0)).then_some(OF_WITNESSES)
}

// Returns the message if the places of a log don't go together, or options of a folder are given without one.
fn place_refusal(options: &ArgMatches<'_>) -> Option<&'static str> {
    let (has_note, has_dir) = (is_given(options, "note"), is_given(options, "dir"));
    let of_a_folder = options.get_flag("older") || options.get_flag("keep-partials");
    if has_note && has_dir {
        return Some(ONE_BASE);
    }
    if let Some(why) = bucket_refusal(options) {
        return Some(why);
    }
    if is_given(options, "bucket") && (has_note || has_dir) {
        return Some(ONE_PLACE);
    }
    if options.get_flag("new") && !has_dir && !is_given(options, "bucket") {
        return Some(OF_A_PLACE);
    }
    let has_witness = count_given(options, "witness") > 0 || is_given(options, "witnesses");
    (!has_dir && (of_a_folder || has_witness)).then_some(OF_A_FOLDER)
}

// Returns the message if the words of `serve` don't go together.
fn serve_refusal(options: &ArgMatches<'_>) -> Option<&'static str> {
    if !has_log_key(options) {
        return Some(EITHER_KEY);
    }
    place_refusal(options)
        .or(coming_refusal(options))
        .or(witness_refusal(options))
}

// Returns the place in which a log outlasts its server: its bucket, or else its folder, if one is given.
fn place_of(alloc: Global, options: &ArgMatches<'_>) -> Result<Option<String>, AllocError> {
    let is_in_bucket = is_given(options, "bucket");
    let word = if is_in_bucket { "bucket" } else { "dir" };
    text_if_given(alloc, options, word)
}

// Reports whether lines are published as they come. If entries are posted they are, unless several lanes are asked
// for.
fn is_followed(options: &ArgMatches<'_>) -> bool {
    let has_one_lane = options.get_one::<u64>("lanes").unwrap_or(LANES) == 1;
    options.get_flag("follow") || (options.get_flag("add") && has_one_lane)
}

// Returns the options of `serve`, whose words go together.
fn serve_options(alloc: Global, options: &ArgMatches<'_>) -> Result<ServeOptions, WordsFault> {
    let takes_posts = options.get_flag("add");
    let unless_given = if takes_posts { INTERVAL } else { 0 };
    let NamedLog { origin, key } = named_log(alloc, options)?;
    let AskedByPolicy {
        witnesses,
        need,
        quorum,
    } = asked(alloc, options)?;
    Ok(ServeOptions {
        origin,
        key,
        server: listen_options(alloc, options)?,
        lanes: options.get_one::<u64>("lanes").unwrap_or(LANES),
        capacity: options.get_one::<u64>("capacity").unwrap_or(CAPACITY),
        batch: options.get_one::<u64>("batch").unwrap_or(BATCH),
        note: text_if_given(alloc, options, "note")?,
        dir: place_of(alloc, options)?,
        is_new: options.get_flag("new"),
        follow: is_followed(options),
        takes_posts,
        interval: options.get_one::<u64>("interval").unwrap_or(unless_given),
        remember: options.get_one::<u64>("remember").unwrap_or(REMEMBER),
        allows_older: options.get_flag("older"),
        keeps_partials: options.get_flag("keep-partials"),
        witnesses,
        need,
        quorum,
    })
}

// Returns the job of `serve`: a note and a folder aren't both given, and options of a folder only with one.
pub(super) fn serve_job(alloc: Global, options: &ArgMatches<'_>) -> Result<Job, WordsFault> {
    if let Some(why) = serve_refusal(options) {
        return Err(usage_error(alloc, serve(), why));
    }
    let serve = serve_options(alloc, options)?;
    if !is_given(options, "bucket") {
        return Ok(Job::Serve(serve));
    }
    let bucket = bucket_of(alloc, options)?;
    Ok(Job::ServeFrom(ServeFromOptions { bucket, serve }))
}
