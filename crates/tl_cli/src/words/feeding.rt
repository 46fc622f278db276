//! The words of the command `feed`.

use super::fetching::{FROM, TIMEOUT_OF_ONE, fetch_options, has_keys, log_refusal, name_of};
use super::given::{count_given, is_given, text_if_given, texts_of, usage_error};
use super::table::{Group, Kind, Word, Words};
use super::{LOG_KEYS, WITNESS_KEY, WordsFault, texts};
use crate::job::Job;
use clap::ArgMatches;
use std::alloc::Global;
use tl_fetch::{FeedOptions, FetchRequest};
use tl_prove::PolicyFetchOptions;

// The message if it isn't said who is asked, or twice.
const ONE_TRUST: &str =
    "one of --key and --policy is given, and --to, --witness and --need with --key alone";

// The message if not each witness has its address.
const PAIRS: &str =
    "--to is given once for each witness, once at least, in the order of their --witness";

const FEED: Words = Words {
    name: "feed",
    about: "Has witnesses cosign a log's checkpoint, and prints it",
    after_help: texts::FEED,
    groups: &[
        Group {
            heading: "The log",
            words: words![
                "from" "FROM" Kind::RequiredText => FROM;
                "key" "VKEY" Kind::Texts => LOG_KEYS;
                "state" "FILE" Kind::Path => "The checkpoint that was trusted last";
            ],
        },
        Group {
            heading: "Witnesses",
            words: words![
                "to" "URL" Kind::Texts => "The address of one, http://HOST[:PORT][/PATH]";
                "witness" "VKEY" Kind::Texts => WITNESS_KEY;
                "need" "N" Kind::Number(0, u64::MAX)
                    => "How many of them must cosign (default: all)";
                "policy" "FILE" Kind::Path
                    => "In place of --key and these three: a policy";
                "timeout" "N" Kind::Number(1, 86_400) => TIMEOUT_OF_ONE;
            ],
        },
    ],
};

/// Returns the words of `feed`.
pub(super) fn feed() -> &'static Words {
    &FEED
}

// Reports whether the key of the text at this place has another name than the one before it.
fn is_next(texts: &[&str], place: usize) -> bool {
    let name = |place: usize| texts.get(place).map(|text| name_of(text));
    place == 0 || name(place) != name(place - 1)
}

// Returns how many witnesses have the given keys; those of one witness follow one another.
fn count_runs(options: &ArgMatches<'_>) -> usize {
    let Some(texts) = options.get_strs("witness") else {
        return 0;
    };
    (0..texts.len())
        .filter(|place| is_next(texts, *place))
        .count()
}

// Returns the message if the words of `feed` don't go together.
fn feed_refusal(options: &ArgMatches<'_>) -> Option<&'static str> {
    let count = count_given(options, "to");
    if count == 0 || count != count_runs(options) {
        return Some(PAIRS);
    }
    log_refusal(options)
}

// Returns the message if it isn't said who is asked, or twice, or if the words of `feed` don't go together.
fn asked_refusal(options: &ArgMatches<'_>) -> Option<&'static str> {
    if is_given(options, "policy") {
        let asks = has_keys(options) || count_given(options, "to") > 0;
        return asks.then_some(ONE_TRUST);
    }
    if count_given(options, "key") == 0 {
        return Some(ONE_TRUST);
    }
    feed_refusal(options)
}

// Returns the job of `feed`: each witness has its address, and no more have to cosign than there are; or a policy says
// who is asked.
pub(super) fn feed_job(alloc: Global, options: &ArgMatches<'_>) -> Result<Job, WordsFault> {
    if let Some(why) = asked_refusal(options) {
        return Err(usage_error(alloc, feed(), why));
    }
    let log = fetch_options(alloc, options, FetchRequest::Head)?;
    if let Some(policy) = text_if_given(alloc, options, "policy")? {
        return Ok(Job::FeedBy(PolicyFetchOptions { policy, fetch: log }));
    }
    let to = texts_of(alloc, options, "to")?;
    Ok(Job::Feed(FeedOptions { log, to }))
}
