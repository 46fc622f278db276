//! The command line: from words to a job.

use crate::job::{ConsistencyOptions, InclusionOptions, Job};
use clap::error::ErrorKind;
use clap::{ArgMatches, Command, Error as ClapError};
use std::alloc::{AllocError, Global};
use thiserror::Error;
use tl_command::HeadOptions;

// The words of a command, one a row: its name, what help calls its value, what its value may be, and its help.
macro_rules! words {
    ($($name:literal $value:literal $kind:expr => $help:expr;)*) => {
        &[$(Word { name: $name, value: $value, kind: $kind, help: $help }),*]
    };
}

mod bucket;
mod building;
mod feeding;
mod fetching;
mod given;
mod listening;
mod offline;
mod proving;
mod serving;
mod table;
mod texts;
mod witnessing;

use table::{Words, command_of};

// The message if not exactly one of two options is given.
const EITHER_KEY: &str = "either --secret or --key is given";

// The help of the option that takes a log's verifier key.
const LOG_KEY: &str = "The log's verifier key, or @FILE";

// The help of that option if a log may have two keys.
const LOG_KEYS: &str = "The log's verifier key, or @FILE; given twice for two";

// The help of the words for the keys of witnesses.
const WITNESS_KEY: &str = "The verifier key of a witness, or @FILE";

// The help of the option that says how many threads hash.
const THREADS: &str = "How many threads hash at once (default: all processors)";

// The seconds of a time limit that isn't given.
const TIMEOUT: u64 = 10;

// The program's version. The formats that it reads and writes have versions of their own.
const VERSION: &str = "0.1.0";

/// Why a command line gives no job.
#[derive(Debug, Drop, Error)]
pub enum WordsFault {
    /// The words aren't understood, or ask for help: the text to show.
    #[error("{0}")]
    Usage(String),
    /// Memory ran out.
    #[error("out of memory")]
    OutOfMemory,
}

impl From<AllocError> for WordsFault {
    fn from(_fault: AllocError) -> WordsFault {
        WordsFault::OutOfMemory
    }
}

// Returns the fault of a command line that isn't understood.
fn fault_of(alloc: Global, error: ClapError) -> WordsFault {
    if matches!(error.kind(), ErrorKind::OutOfMemory) {
        return WordsFault::OutOfMemory;
    }
    match error.to_string(alloc) {
        Ok(text) => WordsFault::Usage(text),
        Err(_) => WordsFault::OutOfMemory,
    }
}

// Returns the program without its commands.
fn program<'a>(alloc: Global) -> Command<'a> {
    Command::new(alloc, "tlog")
        .version(VERSION)
        .about("A transparency log: a list that only grows, under the root of a Merkle tree")
        .after_help(texts::STATUSES)
        .subcommand_required(true)
        .disable_help_subcommand(true)
}

// A command of the program.
#[derive(Clone, Copy)]
enum Named {
    Head,
    Build,
    Append,
    Inclusion,
    Consistency,
    Check,
    Keygen,
    Open,
    Audit,
    Serve,
    Witness,
    Fetch,
    Feed,
    Prove,
    Verify,
    Submit,
}

// The commands in the order in which help lists them.
const COMMANDS: &[Named] = &[
    Named::Head,
    Named::Build,
    Named::Append,
    Named::Inclusion,
    Named::Consistency,
    Named::Check,
    Named::Keygen,
    Named::Open,
    Named::Audit,
    Named::Serve,
    Named::Witness,
    Named::Fetch,
    Named::Feed,
    Named::Prove,
    Named::Verify,
    Named::Submit,
];

// Returns the words of a command.
fn words_of(command: Named) -> &'static Words {
    match command {
        Named::Head => proving::head(),
        Named::Build => building::build(),
        Named::Append => building::append(),
        Named::Inclusion => proving::inclusion(),
        Named::Consistency => proving::consistency(),
        Named::Check => proving::check(),
        Named::Keygen => proving::keygen(),
        Named::Open => proving::open(),
        Named::Audit => proving::audit(),
        Named::Serve => serving::serve(),
        Named::Witness => witnessing::witness(),
        Named::Fetch => fetching::fetch(),
        Named::Feed => feeding::feed(),
        Named::Prove => offline::prove(),
        Named::Verify => offline::verify(),
        Named::Submit => offline::submit(),
    }
}

// Returns the program with its commands.
fn with_commands<'a>(alloc: Global) -> Result<Command<'a>, AllocError> {
    let mut program = program(alloc);
    for command in COMMANDS {
        program = program.subcommand(command_of(alloc, words_of(*command))?)?;
    }
    Ok(program)
}

// Returns the job of a command with these options.
fn job_of(alloc: Global, command: &str, options: &ArgMatches<'_>) -> Result<Job, WordsFault> {
    match command {
        "head" => Ok(Job::Head(HeadOptions {
            origin: given::text_of(alloc, options, "origin")?,
            threads: options.get_one::<u16>("threads"),
        })),
        "build" => building::build_job(alloc, options),
        "append" => building::append_job(alloc, options),
        "inclusion" => Ok(Job::Inclusion(InclusionOptions {
            index: given::number_of(alloc, options, "index")?,
            threads: options.get_one::<u16>("threads"),
        })),
        "consistency" => Ok(Job::Consistency(ConsistencyOptions {
            old: given::number_of(alloc, options, "old")?,
            threads: options.get_one::<u16>("threads"),
        })),
        "check" => proving::checking_job(alloc, options),
        "keygen" => proving::keygen_job(alloc, options),
        "open" => Ok(Job::Open {
            key: given::text_of(alloc, options, "key")?,
        }),
        "audit" => Ok(Job::Audit),
        "serve" => serving::serve_job(alloc, options),
        "witness" => witnessing::witness_job(alloc, options),
        "fetch" => fetching::fetch_job(alloc, options),
        "feed" => feeding::feed_job(alloc, options),
        "prove" => offline::prove_job(alloc, options),
        "verify" => offline::verify_job(alloc, options),
        "submit" => offline::submit_job(alloc, options),
        _ => Err(given::no_word(alloc)),
    }
}

// Returns the words that ask for the help of what `help` names: the program's name, the other words, and `--help`.
fn help_words(alloc: Global, program: &str, names: &[String]) -> Result<Vec<String>, AllocError> {
    let mut asked = Vec::new(alloc);
    asked.push(String::from_str(alloc, program)?)?;
    for name in names {
        asked.push(String::from_str(alloc, name.as_str())?)?;
    }
    asked.push(String::from_str(alloc, "--help")?)?;
    Ok(asked)
}

// Returns the job that prints the help for these words.
fn help_of(alloc: Global, asked: &[String]) -> Result<Job, WordsFault> {
    let program = with_commands(alloc)?;
    match program.try_get_matches_from(asked) {
        Ok(_matches) => Err(given::no_word(alloc)),
        Err(error) if matches!(error.kind(), ErrorKind::DisplayHelp) => Ok(Job::Help {
            text: error.to_string(alloc)?,
        }),
        Err(error) => Err(fault_of(alloc, error)),
    }
}

// Returns the job of `help` with the names of a command.
fn help_job(alloc: Global, program: &str, names: &[String]) -> Result<Job, WordsFault> {
    let asked = help_words(alloc, program, names)?;
    help_of(alloc, asked.as_slice())
}

/// Returns the job that the words ask for. The first word is the program's name. `--version` is a job, and so is
/// `help`, with or without the name of a command. It fails with `Usage`, which has the text to print, on `--help` and
/// on words that are no command of the program with its options.
pub fn read_words(alloc: Global, words: &[String]) -> Result<Job, WordsFault> {
    match words {
        [program, first, names @ ..] if first.as_str() == "help" => {
            return help_job(alloc, program.as_str(), names);
        }
        _ => {}
    }
    let program = with_commands(alloc)?;
    let matches = match program.try_get_matches_from(words) {
        Ok(matches) => matches,
        Err(error) if matches!(error.kind(), ErrorKind::DisplayVersion) => return Ok(Job::Version),
        Err(error) => return Err(fault_of(alloc, error)),
    };
    match matches.subcommand() {
        Some((command, options)) => job_of(alloc, command, options),
        None => Err(given::no_word(alloc)),
    }
}
