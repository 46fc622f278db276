//! The words of the commands on proofs, audits, notes and keys.

use super::given::{is_given, text_if_given, text_of, usage_error};
use super::table::{Group, Kind, Word, Words};
use super::{LOG_KEY, THREADS, WordsFault, texts};
use crate::job::{Job, KeyFileOptions};
use clap::ArgMatches;
use std::alloc::Global;
use tl_command::{CheckOptions, GivenEntry, KeygenOptions};

// The message if options that belong together aren't all given.
const TOGETHER: &str = "--checkpoint and --key are given together, and an entry with them";

// The message if more than one thing is to be checked.
const ONE_CHECK: &str = "--fork is given alone, and one of --entry and --entry-file";

const HEAD: Words = Words {
    name: "head",
    about: "Prints the checkpoint of the log of the lines of standard input",
    after_help: texts::HEAD,
    groups: &[Group {
        heading: "",
        words: words![
            "origin" "NAME" Kind::RequiredText => "The name of the log, one line that isn't empty";
            "threads" "N" Kind::Short => THREADS;
        ],
    }],
};

/// Returns the words of `head`.
pub(super) fn head() -> &'static Words {
    &HEAD
}

const INCLUSION: Words = Words {
    name: "inclusion",
    about: "Prints the inclusion proof of a line of standard input",
    after_help: texts::INCLUSION,
    groups: &[Group {
        heading: "",
        words: words![
            "index" "N" Kind::RequiredNumber => "The place of the line, counted from 0";
            "threads" "N" Kind::Short => THREADS;
        ],
    }],
};

/// Returns the words of `inclusion`.
pub(super) fn inclusion() -> &'static Words {
    &INCLUSION
}

const CONSISTENCY: Words = Words {
    name: "consistency",
    about: "Prints the proof that the first lines of its input begin them all",
    after_help: texts::CONSISTENCY,
    groups: &[Group {
        heading: "",
        words: words![
            "old" "N" Kind::RequiredNumber => "The number of the first lines";
            "threads" "N" Kind::Short => THREADS;
        ],
    }],
};

/// Returns the words of `consistency`.
pub(super) fn consistency() -> &'static Words {
    &CONSISTENCY
}

const CHECK: Words = Words {
    name: "check",
    about: "Checks a proof, or evidence that a log forked",
    after_help: texts::CHECK,
    groups: &[
        Group {
            heading: "A proof under a checkpoint",
            words: words![
                "checkpoint" "FILE" Kind::Text => "The signed checkpoint";
                "key" "VKEY" Kind::Text => LOG_KEY;
                "entry" "TEXT" Kind::Text => "The entry that the proof is to show";
                "entry-file" "FILE" Kind::Path => "The file with that entry's bytes";
            ],
        },
        Group {
            heading: "Evidence that a log forked",
            words: words![
                "fork" "VKEY" Kind::Text => LOG_KEY;
            ],
        },
    ],
};

/// Returns the words of `check`.
pub(super) fn check() -> &'static Words {
    &CHECK
}

const KEYGEN: Words = Words {
    name: "keygen",
    about: "Makes a key from the system's random bytes",
    after_help: texts::KEYGEN,
    groups: &[Group {
        heading: "",
        words: words![
            "name" "NAME" Kind::RequiredText => "The key's name";
            "cosigner" "" Kind::Flag => "Make a key of a witness, which cosigns checkpoints";
            "out" "FILE" Kind::Path => "Write the keys to FILE and FILE.pub";
        ],
    }],
};

/// Returns the words of `keygen`.
pub(super) fn keygen() -> &'static Words {
    &KEYGEN
}

// The help of the key under which a note is opened.
const EITHERS_KEY: &str = "The verifier key of a log or a witness, or @FILE";

const OPEN: Words = Words {
    name: "open",
    about: "Prints what a key signed of the note on standard input",
    after_help: texts::OPEN,
    groups: &[Group {
        heading: "",
        words: words![
            "key" "VKEY" Kind::RequiredText => EITHERS_KEY;
        ],
    }],
};

/// Returns the words of `open`.
pub(super) fn open() -> &'static Words {
    &OPEN
}

const AUDIT: Words = Words {
    name: "audit",
    about: "Checks that one list on standard input extends another",
    after_help: texts::AUDIT,
    groups: &[],
};

/// Returns the words of `audit`.
pub(super) fn audit() -> &'static Words {
    &AUDIT
}

// Returns the message if the words of `check` don't go together.
fn checking_refusal(options: &ArgMatches<'_>) -> Option<&'static str> {
    let has = |name| is_given(options, name);
    let has_entry = has("entry") || has("entry-file");
    let has_both = has("entry") && has("entry-file");
    let is_about = has("checkpoint") || has("key") || has_entry;
    if has_both || (has("fork") && is_about) {
        return Some(ONE_CHECK);
    }
    if has("checkpoint") != has("key") || (has_entry && !has("key")) {
        return Some(TOGETHER);
    }
    None
}

// Returns the entry that is given, if one is.
fn given_entry(alloc: Global, options: &ArgMatches<'_>) -> Result<Option<GivenEntry>, WordsFault> {
    if is_given(options, "entry") {
        return Ok(Some(GivenEntry::Text(text_of(alloc, options, "entry")?)));
    }
    if is_given(options, "entry-file") {
        return Ok(Some(GivenEntry::File(text_of(alloc, options, "entry-file")?)));
    }
    Ok(None)
}

/// Returns the job of `check`: evidence is checked by the key alone; otherwise the checkpoint and the key are both
/// given or both not, and an entry only with them.
pub(super) fn checking_job(alloc: Global, options: &ArgMatches<'_>) -> Result<Job, WordsFault> {
    if let Some(why) = checking_refusal(options) {
        return Err(usage_error(alloc, check(), why));
    }
    if is_given(options, "fork") {
        return Ok(Job::CheckFork {
            key: text_of(alloc, options, "fork")?,
        });
    }
    if !is_given(options, "key") {
        return Ok(Job::Check);
    }
    Ok(Job::CheckUnder(CheckOptions {
        checkpoint: text_of(alloc, options, "checkpoint")?,
        key: text_of(alloc, options, "key")?,
        entry: given_entry(alloc, options)?,
    }))
}

/// Returns the job of `keygen`: into the standard streams, or into two files.
pub(super) fn keygen_job(alloc: Global, options: &ArgMatches<'_>) -> Result<Job, WordsFault> {
    let key = KeygenOptions {
        name: text_of(alloc, options, "name")?,
        is_cosigner: options.get_flag("cosigner"),
    };
    match text_if_given(alloc, options, "out")? {
        Some(out) => Ok(Job::KeygenTo(KeyFileOptions { key, out })),
        None => Ok(Job::Keygen(key)),
    }
}
