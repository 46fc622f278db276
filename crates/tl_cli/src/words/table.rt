//! Tables of the words that commands take, and the commands of `clap` made of them.

use clap::builder::ValueParser;
use clap::{Arg, ArgAction, Command};
use std::alloc::{AllocError, Global};

/// What a word takes as its value.
#[derive(Clone, Copy)]
pub(super) enum Kind {
    /// Nothing.
    Flag,
    /// A text.
    Text,
    /// A text; the word has to be given.
    RequiredText,
    /// A text; the word may be given more than once.
    Texts,
    /// A text; the word has to be given, and may be more than once.
    RequiredTexts,
    /// The path of a file or a folder, a text that isn't empty.
    Path,
    /// A path; the word has to be given.
    RequiredPath,
    /// A number that isn't below the first or above the second.
    Number(u64, u64),
    /// A number; the word has to be given.
    RequiredNumber,
    /// A number from 1 to 65,535.
    Short,
    /// A number from 1 to 64.
    Few,
}

/// A word of a command, which is given behind two hyphens.
pub(super) struct Word {
    pub(super) name: &'static str,
    /// What help calls the value.
    pub(super) value: &'static str,
    pub(super) kind: Kind,
    pub(super) help: &'static str,
}

/// The words of a subject, listed by help under this heading, or with all others if it is empty.
pub(super) struct Group {
    pub(super) heading: &'static str,
    pub(super) words: &'static [Word],
}

/// A command: its name, what help says of it, and its words, by subjects.
pub(super) struct Words {
    pub(super) name: &'static str,
    pub(super) about: &'static str,
    pub(super) after_help: &'static str,
    pub(super) groups: &'static [Group],
}

// Reports whether a word has to be given.
fn is_required(kind: Kind) -> bool {
    matches!(
        kind,
        Kind::RequiredText | Kind::RequiredTexts | Kind::RequiredPath | Kind::RequiredNumber
    )
}

// Returns what is done with a word that is given.
fn action_of(kind: Kind) -> ArgAction {
    match kind {
        Kind::Flag => ArgAction::SetTrue,
        Kind::Texts | Kind::RequiredTexts => ArgAction::Append,
        _ => ArgAction::Set,
    }
}

// Returns the parser of a word's value.
fn parser_of<'a>(kind: Kind) -> ValueParser<'a> {
    match kind {
        Kind::Path | Kind::RequiredPath => ValueParser::NonEmptyString,
        Kind::Number(least, most) => ValueParser::unsigned(least, most),
        Kind::RequiredNumber => ValueParser::unsigned(0, u64::MAX),
        Kind::Short => ValueParser::signed(1, 65_535),
        Kind::Few => ValueParser::signed(1, 64),
        _ => ValueParser::String,
    }
}

// Returns a word as an argument.
fn argument<'a>(alloc: Global, heading: &'static str, word: &Word) -> Arg<'a> {
    let arg = Arg::new(alloc, word.name);
    let arg = if heading.is_empty() {
        arg
    } else {
        arg.help_heading(heading)
    };
    let arg = arg
        .long(word.name)
        .help(word.help)
        .action(action_of(word.kind));
    if matches!(word.kind, Kind::Flag) {
        return arg;
    }
    arg.value_name(word.value)
        .value_parser(parser_of(word.kind))
        .required(is_required(word.kind))
}

// Returns the command with the words of a group added.
fn with_group<'a>(
    alloc: Global,
    command: Command<'a>,
    group: &Group,
) -> Result<Command<'a>, AllocError> {
    let mut command = command;
    for word in group.words {
        command = command.arg(argument(alloc, group.heading, word))?;
    }
    Ok(command)
}

/// Returns a command with all its words, under this name.
pub(super) fn command_named<'a>(
    alloc: Global,
    name: &'a str,
    row: &Words,
) -> Result<Command<'a>, AllocError> {
    let mut command = Command::new(alloc, name)
        .about(row.about)
        .after_help(row.after_help);
    for group in row.groups {
        command = with_group(alloc, command, group)?;
    }
    Ok(command)
}

/// Returns a command with all its words.
pub(super) fn command_of<'a>(alloc: Global, row: &Words) -> Result<Command<'a>, AllocError> {
    command_named(alloc, row.name, row)
}
