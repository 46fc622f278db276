//! What was given for the words of a command.

use super::table::{Words, command_named};
use super::{WordsFault, fault_of};
use clap::ArgMatches;
use clap::error::ErrorKind;
use std::alloc::{AllocError, Global};
use tl_run::LogKey;

/// Returns the fault of a word that is lacking although the command line was understood. It has no text.
pub(super) fn no_word(alloc: Global) -> WordsFault {
    WordsFault::Usage(String::new(alloc))
}

/// Returns the fault of words that don't go together, with the usage of their command.
pub(super) fn usage_error(alloc: Global, row: &Words, why: &str) -> WordsFault {
    let Ok(name) = format!(in alloc; "tlog {}", row.name) else {
        return WordsFault::OutOfMemory;
    };
    let Ok(mut command) = command_named(alloc, name.as_str(), row) else {
        return WordsFault::OutOfMemory;
    };
    match command.error(ErrorKind::MissingRequiredArgument, why) {
        Ok(error) => fault_of(alloc, error),
        Err(_) => WordsFault::OutOfMemory,
    }
}

/// Returns the text of a word that has to be given.
pub(super) fn text_of(
    alloc: Global,
    options: &ArgMatches<'_>,
    name: &str,
) -> Result<String, WordsFault> {
    let Some(text) = options.get_str(name) else {
        return Err(no_word(alloc));
    };
    Ok(String::from_str(alloc, text)?)
}

/// Returns the text of a word, if it is given.
pub(super) fn text_if_given(
    alloc: Global,
    options: &ArgMatches<'_>,
    name: &str,
) -> Result<Option<String>, AllocError> {
    match options.get_str(name) {
        Some(text) => Ok(Some(String::from_str(alloc, text)?)),
        None => Ok(None),
    }
}

/// Returns how many texts are given for a word that may be given several times.
pub(super) fn count_given(options: &ArgMatches<'_>, name: &str) -> usize {
    match options.get_strs(name) {
        Some(texts) => texts.len(),
        None => 0,
    }
}

/// Returns the texts of a word that may be given several times, in order.
pub(super) fn texts_of(
    alloc: Global,
    options: &ArgMatches<'_>,
    name: &str,
) -> Result<Vec<String>, AllocError> {
    let mut given = Vec::new(alloc);
    let Some(texts) = options.get_strs(name) else {
        return Ok(given);
    };
    for text in texts {
        given.push(String::from_str(alloc, text)?)?;
    }
    Ok(given)
}

/// Returns the number of a word that has to be given.
pub(super) fn number_of(
    alloc: Global,
    options: &ArgMatches<'_>,
    name: &str,
) -> Result<u64, WordsFault> {
    match options.get_one::<u64>(name) {
        Some(number) => Ok(number),
        None => Err(no_word(alloc)),
    }
}

/// Reports whether a text is given for this word.
pub(super) fn is_given(options: &ArgMatches<'_>, name: &str) -> bool {
    options.get_str(name).is_some()
}

/// Reports whether either the secret of a log's key or its file is given.
pub(super) fn has_log_key(options: &ArgMatches<'_>) -> bool {
    is_given(options, "secret") != is_given(options, "key")
}

/// The name of a log, and its key.
#[derive(Drop)]
pub(super) struct NamedLog {
    pub(super) origin: String,
    pub(super) key: LogKey,
}

// Returns the key of a log: that of the secret, if one is given, else that in the file.
fn log_key(alloc: Global, options: &ArgMatches<'_>) -> Result<LogKey, WordsFault> {
    if is_given(options, "secret") {
        return Ok(LogKey::Secret(text_of(alloc, options, "secret")?));
    }
    Ok(LogKey::File(text_of(alloc, options, "key")?))
}

/// Returns the log that the words name; a key is known to be given.
pub(super) fn named_log(alloc: Global, options: &ArgMatches<'_>) -> Result<NamedLog, WordsFault> {
    let key = log_key(alloc, options)?;
    let origin = text_of(alloc, options, "origin")?;
    Ok(NamedLog { origin, key })
}
