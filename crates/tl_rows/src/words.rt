//! The words of a call or a step, and how answers are written.

use hex::{FromHex, FromHexError};
use std::alloc::{AllocError, Global};
use std::fmt::Debug;
use tl_hash::Hash;
use tl_testing::vectors::{entries, numbered};

/// Whether an answer was written: it isn't if an allocation fails.
pub(crate) type Told = Result<(), AllocError>;

/// What is printed if an allocation fails: what is tried again comes behind it.
pub(crate) const NO_MEMORY: &str = ".. out of memory\n";

/// A row with steps: its input, and its steps.
#[derive(Drop)]
pub(crate) struct Row<'a> {
    pub(crate) text: &'a str,
    pub(crate) steps: Vec<&'a str>,
}

/// The words of a call that are left, with single spaces between.
#[derive(Clone, Copy)]
pub(crate) struct Words<'a> {
    pub(crate) left: &'a str,
}

impl<'a> Words<'a> {
    /// Returns the next word, which is empty if none is left.
    pub(crate) fn next(&mut self) -> &'a str {
        let (word, left) = self.left.split_once(' ').unwrap_or((self.left, ""));
        self.left = left;
        word
    }

    /// Returns the number that the next word is, or 0 for any other word.
    pub(crate) fn number(&mut self) -> u64 {
        number_of(self.next())
    }

    /// Returns the hash that the next word is.
    pub(crate) fn hash(&mut self) -> Hash {
        parse_hash(self.next())
    }

    /// Returns the hashes that the words left are.
    pub(crate) fn hashes(&self, alloc: Global) -> Result<Vec<Hash>, AllocError> {
        let mut hashes = Vec::new(alloc);
        for word in self.left.split(' ') {
            if !word.is_empty() {
                hashes.push(parse_hash(word))?;
            }
        }
        Ok(hashes)
    }

    /// Returns the numbers that the words left are.
    pub(crate) fn numbers(&self, alloc: Global) -> Result<Vec<u64>, AllocError> {
        let mut numbers = Vec::new(alloc);
        for word in self.left.split(' ') {
            if !word.is_empty() {
                numbers.push(number_of(word))?;
            }
        }
        Ok(numbers)
    }
}

/// Returns the number that a word is, or 0 for any other word.
pub(crate) fn number_of(word: &str) -> u64 {
    word.parse::<u64>().unwrap_or(0)
}

/// Returns the number below 2^32 that a word is, or 0 for any other word.
pub(crate) fn small_of(word: &str) -> u32 {
    word.parse::<u32>().unwrap_or(0)
}

/// Returns the words between single spaces.
pub(crate) fn words_of<'a>(alloc: Global, line: &'a str) -> Result<Vec<&'a str>, AllocError> {
    line.split(' ').collect::<Vec<&str>>(alloc)
}

// Appends the bytes that a part of a word gives in hexadecimal, as often as it says.
fn add_part(alloc: Global, bytes: &mut Vec<u8>, part: &str) -> Told {
    let (digits, count) = part.split_once('*').unwrap_or((part, "1"));
    let piece = match hex::decode(alloc, digits) {
        Ok(piece) => piece,
        Err(FromHexError::OutOfMemory) => return Err(AllocError),
        Err(_) => return Ok(()),
    };
    for _ in 0..number_of(count) {
        bytes.extend_from_slice(piece.as_slice())?;
    }
    Ok(())
}

/// Returns the bytes that a word gives: parts in hexadecimal with `+` between, and `*COUNT` behind a part that is
/// repeated. A part that isn't hexadecimal gives none.
pub(crate) fn bytes_of(alloc: Global, word: &str) -> Result<Vec<u8>, AllocError> {
    let mut bytes = Vec::new(alloc);
    for part in word.split('+') {
        add_part(alloc, &mut bytes, part)?;
    }
    Ok(bytes)
}

/// Returns a text in which `|` stands for a newline and `_` for a space.
pub(crate) fn text_of(alloc: Global, word: &str) -> Result<String, AllocError> {
    let mut text = String::new(alloc);
    for letter in word.chars() {
        text.push(match letter {
            '|' => '\n',
            '_' => ' ',
            other => other,
        })?;
    }
    Ok(text)
}

/// Returns the 32 bytes that a word gives in hexadecimal, or zeros for any other word.
pub(crate) fn key_of(word: &str) -> [u8; 32] {
    <[u8; 32] as FromHex>::from_hex(word).unwrap_or([0; 32])
}

// Returns these bytes as a hash. A word of two digits is the hash with this first byte, and 31 zeros behind it.
fn parse_hash(word: &str) -> Hash {
    let mut bytes = key_of(word);
    if word.len() == 2 {
        let first = <[u8; 1] as FromHex>::from_hex(word).unwrap_or([0]);
        bytes[0] = first[0];
    }
    Hash::from_bytes(bytes)
}

// Returns this many entries, each of this many bytes 7.
fn equal_entries(alloc: Global, count: u64, length: u64) -> Result<Vec<Vec<u8>>, AllocError> {
    let mut list = Vec::new(alloc);
    for _ in 0..count {
        list.push(vec![in alloc; 7u8; length as usize]?)?;
    }
    Ok(list)
}

// Returns the entries that a text gives in hexadecimal, with commas between.
fn listed_entries(alloc: Global, text: &str) -> Result<Vec<Vec<u8>>, AllocError> {
    let mut list = Vec::new(alloc);
    for word in text.split(',') {
        list.push(bytes_of(alloc, word)?)?;
    }
    Ok(list)
}

/// Returns the entries that a word names: `worked:N`, the first of the eight outside vectors; `numbered:N`, the
/// numbers from 0 up in four bytes; `equal:N:LENGTH`; or each in hexadecimal, with commas between.
pub(crate) fn entries_of(alloc: Global, word: &str) -> Result<Vec<Vec<u8>>, AllocError> {
    match word.split_once(':') {
        Some(("worked", count)) => entries(alloc, number_of(count) as usize),
        Some(("numbered", count)) => numbered(alloc, (number_of(count) % 100_000) as u32),
        Some((_, rest)) => {
            let (count, length) = rest.split_once(':').unwrap_or((rest, ""));
            equal_entries(alloc, number_of(count), number_of(length))
        }
        None => listed_entries(alloc, word),
    }
}

/// Writes bytes in hexadecimal.
pub(crate) fn put_hex(out: &mut String, bytes: &[u8]) -> Told {
    for byte in bytes {
        write!(out, "{byte:02x}")?;
    }
    Ok(())
}

/// Writes a hash in hexadecimal.
pub(crate) fn put_hash(out: &mut String, hash: Hash) -> Told {
    put_hex(out, hash.as_bytes().as_slice())
}

/// Writes how many bytes there are, and the first 256 of them in hexadecimal.
pub(crate) fn put_bytes(out: &mut String, bytes: &[u8]) -> Told {
    write!(out, "{} ", bytes.len())?;
    put_hex(out, bytes.get(..256).unwrap_or(bytes))
}

/// Writes the answer for a call that has no such row.
pub(crate) fn unknown(out: &mut String) -> Told {
    out.push_str("no such call")
}

/// A step of a row, and the text that its answer is written to.
#[derive(Drop)]
pub(crate) struct Step<'s> {
    pub(crate) line: &'s str,
    pub(crate) out: &'s mut String,
}

impl Step<'_> {
    /// Writes the step and its answer.
    pub(crate) fn tell<T: Debug + Drop>(&mut self, answer: T) -> Told {
        write!(self.out, "{}: {answer:?}\n", self.line)
    }

    /// Writes the step and a fixed answer to it.
    pub(crate) fn say(&mut self, answer: &str) -> Told {
        write!(self.out, "{}: {answer}\n", self.line)
    }

    /// Writes the step and bytes in hexadecimal, if there are some.
    pub(crate) fn tell_hex(&mut self, bytes: Option<&[u8]>) -> Told {
        let Some(bytes) = bytes else {
            return self.say("None");
        };
        write!(self.out, "{}: ", self.line)?;
        put_hex(self.out, bytes)?;
        self.out.push('\n')
    }

    /// Writes that an allocation failed. In a row with a key that counts it fails, and the whole row is tried again.
    pub(crate) fn say_refused(&mut self) -> Told {
        if self.out.contains("counting") {
            return Err(AllocError);
        }
        self.out.push_str(NO_MEMORY)
    }
}

/// How an answer without a fault is written.
pub(crate) trait Shown {
    /// Writes the answer.
    fn show(&self, out: &mut String) -> Told;
}

/// Writes the answer of a call, or its fault.
pub(crate) fn put<T: Shown + Drop, E: Debug + Drop>(
    out: &mut String,
    answer: Result<T, E>,
) -> Told {
    match answer {
        Ok(value) => value.show(out),
        Err(fault) => write!(out, "{fault:?}"),
    }
}

impl Shown for String {
    fn show(&self, out: &mut String) -> Told {
        write!(out, "{self:?}")
    }
}

impl Shown for Vec<u8> {
    fn show(&self, out: &mut String) -> Told {
        put_bytes(out, self.as_slice())
    }
}

/// Writes how many hashes there are, and each.
impl Shown for Vec<Hash> {
    fn show(&self, out: &mut String) -> Told {
        write!(out, "{}", self.len())?;
        for hash in self {
            out.push(' ')?;
            put_hash(out, *hash)?;
        }
        Ok(())
    }
}

/// Writes the hash as one of several.
impl Shown for Hash {
    fn show(&self, out: &mut String) -> Told {
        out.push_str("1 ")?;
        put_hash(out, *self)
    }
}
