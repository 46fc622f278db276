//! The words of the commands on proofs that travel: `prove`, `verify` and `submit`.

use super::fetching::{FROM, TIMEOUT_OF_ONE};
use super::given::{is_given, text_if_given, text_of, usage_error};
use super::table::{Group, Kind, Word, Words};
use super::{TIMEOUT, WordsFault, texts};
use crate::job::Job;
use clap::ArgMatches;
use std::alloc::Global;
use tl_prove::{EntryOptions, ProveOptions, ProveRequest, SubmitOptions, VerifyOptions};

// The message if not exactly one entry is given.
const ONE_ENTRY: &str =
    "one of --entry, --entry-file and --sha256 is given, and --name with --sha256 alone";

// The message if not exactly one entry is given, or its index.
const ONE_WANTED: &str =
    "one of --index, --entry, --entry-file and --sha256 is given, and --name with --sha256 alone";

// The message if a name has a newline.
const ONE_LINE: &str = "--name is one line";

// The help of these words.
const POLICY: &str = "Which logs and witnesses are trusted (C2SP tlog-policy)";

const ENTRY: &str = "The entry";

const ENTRY_FILE: &str = "The file that is the entry";

const SHA256: &str = "The file that the entry stands for, by its SHA-256";

const NAME: &str = "With --sha256: a name in the entry";

const EXTRA: &str = "The file of data to put into the proof";

// The words of an entry.
const GIVEN: Group = Group {
    heading: "Which entry, one of these",
    words: words![
        "entry" "TEXT" Kind::Text => ENTRY;
        "entry-file" "FILE" Kind::Path => ENTRY_FILE;
        "sha256" "FILE" Kind::Path => SHA256;
        "name" "NAME" Kind::Text => NAME;
    ],
};

// The seconds until a proof, if they aren't given.
const PATIENCE: u64 = 60;

const PROVE: Words = Words {
    name: "prove",
    about: "Prints a proof of an entry, to be checked without the log",
    after_help: texts::PROVE,
    groups: &[
        Group {
            heading: "Whose log, and who is trusted",
            words: words![
                "from" "FROM" Kind::RequiredText => FROM;
                "policy" "FILE" Kind::RequiredPath => POLICY;
            ],
        },
        Group {
            heading: "Which entry, one of these",
            words: words![
                "index" "N" Kind::Number(0, u64::MAX) => "Its index, counted from 0";
                "entry" "TEXT" Kind::Text => ENTRY;
                "entry-file" "FILE" Kind::Path => ENTRY_FILE;
                "sha256" "FILE" Kind::Path => SHA256;
                "name" "NAME" Kind::Text => NAME;
            ],
        },
        Group {
            heading: "How it is made",
            words: words![
                "extra" "FILE" Kind::Path => EXTRA;
                "timeout" "N" Kind::Number(1, 86_400) => TIMEOUT_OF_ONE;
            ],
        },
    ],
};

/// Returns the words of `prove`.
pub(super) fn prove() -> &'static Words {
    &PROVE
}

const VERIFY: Words = Words {
    name: "verify",
    about: "Checks a proof that an entry is in a log, without the log",
    after_help: texts::VERIFY,
    groups: &[
        Group {
            heading: "Who is trusted",
            words: words![
                "policy" "FILE" Kind::RequiredPath => POLICY;
            ],
        },
        GIVEN,
        Group {
            heading: "What is done with the proof",
            words: words![
                "extra-out" "FILE" Kind::Path => "Write the proof's extra data there";
            ],
        },
    ],
};

/// Returns the words of `verify`.
pub(super) fn verify() -> &'static Words {
    &VERIFY
}

const SUBMIT: Words = Words {
    name: "submit",
    about: "Posts an entry to a log, and prints a proof of it",
    after_help: texts::SUBMIT,
    groups: &[
        Group {
            heading: "Whose log, and who is trusted",
            words: words![
                "to" "URL" Kind::RequiredText => "The log's address, http://HOST[:PORT][/PATH]";
                "policy" "FILE" Kind::RequiredPath => POLICY;
            ],
        },
        GIVEN,
        Group {
            heading: "How it is done",
            words: words![
                "extra" "FILE" Kind::Path => EXTRA;
                "timeout" "N" Kind::Number(1, 86_400)
                    => "Seconds until a checkpoint has it (default: 60)";
            ],
        },
    ],
};

/// Returns the words of `submit`.
pub(super) fn submit() -> &'static Words {
    &SUBMIT
}

// Returns the message if the words of an entry don't go together; `has_index` says that one may be given instead.
fn entry_refusal(options: &ArgMatches<'_>, has_index: bool) -> Option<&'static str> {
    let has = |name| is_given(options, name) as usize;
    let index = has_index && options.get_one::<u64>("index").is_some();
    let entries = has("entry") + has("entry-file") + has("sha256") + index as usize;
    if entries != 1 || (is_given(options, "name") && !is_given(options, "sha256")) {
        return Some(if has_index { ONE_WANTED } else { ONE_ENTRY });
    }
    match options.get_str("name") {
        Some(name) if name.contains('\n') => Some(ONE_LINE),
        _ => None,
    }
}

// Returns the entry that is given; one is.
fn entry_of(alloc: Global, options: &ArgMatches<'_>) -> Result<EntryOptions, WordsFault> {
    if is_given(options, "entry") {
        return Ok(EntryOptions::Text(text_of(alloc, options, "entry")?));
    }
    if is_given(options, "entry-file") {
        return Ok(EntryOptions::File(text_of(alloc, options, "entry-file")?));
    }
    let name = text_if_given(alloc, options, "name")?;
    let file = text_of(alloc, options, "sha256")?;
    Ok(EntryOptions::Digest { file, name })
}

// Returns of which entry a proof is made.
fn wanted_of(alloc: Global, options: &ArgMatches<'_>) -> Result<ProveRequest, WordsFault> {
    match options.get_one::<u64>("index") {
        Some(index) => Ok(ProveRequest::Index(index)),
        None => Ok(ProveRequest::Entry(entry_of(alloc, options)?)),
    }
}

/// Returns the job of `prove`: an entry or its index is given.
pub(super) fn prove_job(alloc: Global, options: &ArgMatches<'_>) -> Result<Job, WordsFault> {
    if let Some(why) = entry_refusal(options, true) {
        return Err(usage_error(alloc, prove(), why));
    }
    Ok(Job::Prove(ProveOptions {
        from: text_of(alloc, options, "from")?,
        policy: text_of(alloc, options, "policy")?,
        wanted: wanted_of(alloc, options)?,
        extra: text_if_given(alloc, options, "extra")?,
        timeout: options.get_one::<u64>("timeout").unwrap_or(TIMEOUT),
    }))
}

/// Returns the job of `verify`: an entry is given.
pub(super) fn verify_job(alloc: Global, options: &ArgMatches<'_>) -> Result<Job, WordsFault> {
    if let Some(why) = entry_refusal(options, false) {
        return Err(usage_error(alloc, verify(), why));
    }
    Ok(Job::Verify(VerifyOptions {
        policy: text_of(alloc, options, "policy")?,
        entry: entry_of(alloc, options)?,
        extra: text_if_given(alloc, options, "extra-out")?,
    }))
}

/// Returns the job of `submit`: an entry is given.
pub(super) fn submit_job(alloc: Global, options: &ArgMatches<'_>) -> Result<Job, WordsFault> {
    if let Some(why) = entry_refusal(options, false) {
        return Err(usage_error(alloc, submit(), why));
    }
    Ok(Job::Submit(SubmitOptions {
        to: text_of(alloc, options, "to")?,
        policy: text_of(alloc, options, "policy")?,
        entry: entry_of(alloc, options)?,
        extra: text_if_given(alloc, options, "extra")?,
        timeout: options.get_one::<u64>("timeout").unwrap_or(PATIENCE),
    }))
}
