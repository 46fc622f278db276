//! The words of the command `fetch`.

use super::given::{count_given, is_given, text_if_given, text_of, texts_of, usage_error};
use super::table::{Group, Kind, Word, Words};
use super::{LOG_KEYS, TIMEOUT, WITNESS_KEY, WordsFault, texts};
use crate::job::Job;
use clap::ArgMatches;
use std::alloc::{AllocError, Global};
use tl_fetch::{FetchOptions, FetchRequest};
use tl_prove::PolicyFetchOptions;

// The message if not exactly one of the four requests is given.
const ONE_WANTED: &str =
    "one of --head, --index, --all and --prove is given, and --raw with --index alone";

/// The message if more cosignatures are needed than there are witnesses.
pub(super) const FEWER: &str = "--need is at most the number of witnesses";

// The message if it isn't said who is trusted, or twice.
const ONE_TRUST: &str =
    "one of --key and --policy is given, and --witness and --need with --key alone";

// The message if a witness must have cosigned lately, and none is given.
const FRESH_OF_NOBODY: &str = "--fresh is given with --witness alone";

/// The help of the option that says where a log is read from.
pub(super) const FROM: &str = "Its folder, or http://HOST[:PORT][/PATH]";

/// The help of the option that says how long one answer may take.
pub(super) const TIMEOUT_OF_ONE: &str = "Seconds that one answer may take (default: 10)";

const FETCH: Words = Words {
    name: "fetch",
    about: "Prints what a log has, once it is checked; nobody is trusted",
    after_help: texts::FETCH,
    groups: &[
        Group {
            heading: "Whose log, and who is trusted",
            words: words![
                "from" "FROM" Kind::RequiredText => FROM;
                "key" "VKEY" Kind::Texts => LOG_KEYS;
                "witness" "VKEY" Kind::Texts => WITNESS_KEY;
                "need" "N" Kind::Number(0, u64::MAX)
                    => "How many witnesses must have cosigned (default: all)";
                "policy" "FILE" Kind::Path
                    => "In place of these three: a policy";
                "fresh" "SECONDS" Kind::Number(0, u64::MAX)
                    => "Refuse what no witness cosigned since then";
                "state" "FILE" Kind::Path => "The checkpoint that was trusted last";
            ],
        },
        Group {
            heading: "What is wanted, one of these",
            words: words![
                "head" "" Kind::Flag => "Print the log's name, size and root";
                "index" "N" Kind::Number(0, u64::MAX) => "Print the entry with this index";
                "raw" "" Kind::Flag => "With --index: its bytes, and no newline";
                "all" "" Kind::Flag => "Print every entry that wasn't printed yet";
                "prove" "N" Kind::Number(0, u64::MAX) => "Print the inclusion proof of an entry";
            ],
        },
        Group {
            heading: "How it is fetched",
            words: words![
                "cache" "DIR" Kind::Path => "The folder where checked tiles are kept";
                "timeout" "N" Kind::Number(1, 86_400) => TIMEOUT_OF_ONE;
                "threads" "N" Kind::Few => "Requests in flight at once (default: 8)";
            ],
        },
    ],
};

/// Returns the words of `fetch`.
pub(super) fn fetch() -> &'static Words {
    &FETCH
}

// Returns what is asked for, or None unless exactly one of the four requests is given, and `--raw` only with an
// entry.
fn wanted_if_one(options: &ArgMatches<'_>) -> Option<FetchRequest> {
    let index = options.get_one::<u64>("index");
    let proof = options.get_one::<u64>("prove");
    let (head, all) = (options.get_flag("head"), options.get_flag("all"));
    match (head, index, all, proof, options.get_flag("raw")) {
        (true, None, false, None, false) => Some(FetchRequest::Head),
        (false, Some(index), false, None, false) => Some(FetchRequest::Entry(index)),
        (false, Some(index), false, None, true) => Some(FetchRequest::Raw(index)),
        (false, None, true, None, false) => Some(FetchRequest::All),
        (false, None, false, Some(index), false) => Some(FetchRequest::Proof(index)),
        _ => None,
    }
}

// The message if more than two keys of a log are given.
const TWO_KEYS: &str = "--key is given once or twice";

// The texts of a log's keys.
#[derive(Drop)]
struct LogKeyTexts {
    key: String,
    // The text of another key, if there are two.
    other_key: Option<String>,
}

// Returns the text of the log's other key, if there are two.
fn other_key(alloc: Global, options: &ArgMatches<'_>) -> Result<Option<String>, AllocError> {
    let Some(texts) = options.get_strs("key") else {
        return Ok(None);
    };
    match texts.get(1) {
        Some(text) => Ok(Some(String::from_str(alloc, text)?)),
        None => Ok(None),
    }
}

// Returns the texts of the log's keys, which are known to be one or two, or none if a policy is given.
fn log_keys(alloc: Global, options: &ArgMatches<'_>) -> Result<LogKeyTexts, AllocError> {
    let other_key = other_key(alloc, options)?;
    let key = match text_if_given(alloc, options, "key")? {
        Some(key) => key,
        None => String::new(alloc),
    };
    Ok(LogKeyTexts { key, other_key })
}

/// Returns the name that the text of a verifier key begins with.
pub(super) fn name_of(text: &str) -> &str {
    match text.find('+') {
        Some(end) => &text[..end],
        None => text,
    }
}

// Reports whether no text before this place is of a key with the name of the one there.
fn is_new(texts: &[&str], place: usize) -> bool {
    let (before, behind) = texts.split_at(place.min(texts.len()));
    let Some(text) = behind.first() else {
        return false;
    };
    let name = name_of(text);
    !before.iter().any(|earlier| name_of(earlier) == name)
}

// Returns how many witnesses have the given keys; keys with one name are one witness's.
fn count_witnesses(options: &ArgMatches<'_>) -> u64 {
    let Some(texts) = options.get_strs("witness") else {
        return 0;
    };
    let places = 0..texts.len();
    places.filter(|place| is_new(texts, *place)).count() as u64
}

// Returns how many of the witnesses must have cosigned: all, unless a number is given.
fn need_of(options: &ArgMatches<'_>) -> u64 {
    match options.get_one::<u64>("need") {
        Some(need) => need,
        None => count_witnesses(options),
    }
}

/// Returns the message if a log has more than two keys, if more of its witnesses must have cosigned than there are,
/// or if one must have lately and none is given.
pub(super) fn log_refusal(options: &ArgMatches<'_>) -> Option<&'static str> {
    if count_given(options, "key") > 2 {
        return Some(TWO_KEYS);
    }
    let all = count_witnesses(options);
    if all == 0 && options.get_one::<u64>("fresh").is_some() {
        return Some(FRESH_OF_NOBODY);
    }
    (need_of(options) > all).then_some(FEWER)
}

// The files of the reader of a log.
#[derive(Drop)]
struct OwnFiles {
    state: Option<String>,
    cache: Option<String>,
}

// Returns the files of the reader of a log, as they are given.
fn own_files(alloc: Global, options: &ArgMatches<'_>) -> Result<OwnFiles, AllocError> {
    let state = text_if_given(alloc, options, "state")?;
    let cache = text_if_given(alloc, options, "cache")?;
    Ok(OwnFiles { state, cache })
}

/// Returns the options of `fetch`, whose words go together.
pub(super) fn fetch_options(
    alloc: Global,
    options: &ArgMatches<'_>,
    wanted: FetchRequest,
) -> Result<FetchOptions, WordsFault> {
    let from = text_of(alloc, options, "from")?;
    let LogKeyTexts { key, other_key } = log_keys(alloc, options)?;
    let OwnFiles { state, cache } = own_files(alloc, options)?;
    Ok(FetchOptions {
        from,
        key,
        other_key,
        witnesses: texts_of(alloc, options, "witness")?,
        need: need_of(options),
        fresh: options.get_one::<u64>("fresh"),
        state,
        cache,
        timeout: options.get_one::<u64>("timeout").unwrap_or(TIMEOUT),
        threads: options.get_one::<u16>("threads"),
        wanted,
    })
}

/// Reports whether keys are given, or what belongs to them.
pub(super) fn has_keys(options: &ArgMatches<'_>) -> bool {
    count_given(options, "key") > 0
        || count_given(options, "witness") > 0
        || options.get_one::<u64>("need").is_some()
}

// Returns the message if it isn't said who is trusted, or twice, or if the keys don't go together.
fn trust_refusal(options: &ArgMatches<'_>) -> Option<&'static str> {
    if is_given(options, "policy") {
        return has_keys(options).then_some(ONE_TRUST);
    }
    if count_given(options, "key") == 0 {
        return Some(ONE_TRUST);
    }
    log_refusal(options)
}

// Returns the job of `fetch`: one of the four requests is given, and keys of which no more are needed than there are,
// or a policy.
pub(super) fn fetch_job(alloc: Global, options: &ArgMatches<'_>) -> Result<Job, WordsFault> {
    let Some(wanted) = wanted_if_one(options) else {
        return Err(usage_error(alloc, fetch(), ONE_WANTED));
    };
    if let Some(why) = trust_refusal(options) {
        return Err(usage_error(alloc, fetch(), why));
    }
    let fetch = fetch_options(alloc, options, wanted)?;
    match text_if_given(alloc, options, "policy")? {
        Some(policy) => Ok(Job::FetchBy(PolicyFetchOptions { policy, fetch })),
        None => Ok(Job::Fetch(fetch)),
    }
}
