//! The lines of a text, and the number or the hash that follows a word in a line. Each reader accepts one exact
//! spelling.

ghost use Rattle.std.specs.Prelude.{◌≡◌, ◌≢◌, ◌<◌, ◌^◌, ◌++◌, ℕ, List, All, MatchOption, IfOk, OnErr, length, MatchBool, IsUtf8, map, vec_items};
ghost use Rattle.tl_hash.specs.Bytes.{Bytes, IsHash};
ghost use Rattle.tl_text.specs.Text.{number_text, base64_text, IsSize};
ghost use Rattle.tl_command.specs.Lines.{entries_of, lines_text, HasNoNewline};

use crate::entries::split_entries;
use std::alloc::{AllocError, Allocator};
use std::str;
use tl_hash::Hash;
use tl_text::{parse_hash, parse_size};

// Reports whether a text is lines, each ended by its newline.
fn is_lines(text: &[u8]) -> bool
    ensures { MatchBool result (text.now ≡ lines_text (entries_of text.now))
        ((lines : List Bytes) → text.now ≢ lines_text lines) }
{
    match text.last() {
        Some(byte) => *byte == b'\n',
        None => true,
    }
}

/// Returns the lines of a text, without their newlines, or None if the last one has no newline. It fails only if
/// allocation fails.
pub fn lines_of<A: Allocator + Copy>(
    alloc: A,
    text: &[u8],
) -> Result<Option<Vec<Vec<u8, A>, A>>, AllocError>
    ensures lines { IfOk result (λ found. MatchOption found ((lines : List Bytes)
        → All HasNoNewline lines → text.now ≢ lines_text lines) (λ lines. (map vec_items lines.items
        ≡ entries_of text.now) × (text.now ≡ lines_text (entries_of text.now)))) }
    ensures memory { OnErr result (0 < length text.now) }
{
    if !is_lines(text) {
        return Ok(None);
    }
    Ok(Some(split_entries(alloc, text)?))
}

// Returns what follows a word at the beginning of a line, or None if the line doesn't begin with it or the rest isn't
// UTF-8.
fn text_after<'a>(line: &'a [u8], word: &[u8]) -> Option<&'a str>
    ensures { MatchOption result ((text : Bytes) → IsUtf8 text → line.now ≢ word.now ++ text)
        (λ text. line.now ≡ word.now ++ text.now) }
{
    let Some(rest) = line.strip_prefix(word) else {
        return None;
    };
    match str::from_utf8(rest) {
        Ok(text) => Some(text),
        Err(_) => None,
    }
}

/// Returns the number below 2^63 that follows a word in a line.
pub(crate) fn number_after(line: &[u8], word: &[u8]) -> Option<u64>
    ensures { MatchOption result ((n : ℕ) → IsSize n → line.now ≢ word.now ++ number_text n)
        (λ n. (n < 2 ^ 63) × (line.now ≡ word.now ++ number_text n)) }
{
    let Some(text) = text_after(line, word) else {
        return None;
    };
    parse_size(text)
}

/// Returns the hash that follows a word in a line, in base64.
pub(crate) fn hash_after(line: &[u8], word: &[u8]) -> Option<Hash>
    ensures { MatchOption result
        ((hash : Bytes) → IsHash hash → line.now ≢ word.now ++ base64_text hash)
        (λ hash. IsHash hash × (line.now ≡ word.now ++ base64_text hash)) }
{
    let Some(text) = text_after(line, word) else {
        return None;
    };
    parse_hash(text)
}

/// Returns the numbers below 2^63 that follow their words in two lines.
pub(crate) fn two_numbers(
    first: &[u8],
    word: &[u8],
    second: &[u8],
    other: &[u8],
) -> Option<(u64, u64)>
    ensures { MatchOption result ((m n : ℕ) → IsSize m → IsSize n
        → first.now ≡ word.now ++ number_text m → second.now ≢ other.now ++ number_text n)
        (λ r. IsSize r.0 × (first.now ≡ word.now ++ number_text r.0)
        × IsSize r.1 × (second.now ≡ other.now ++ number_text r.1)) }
{
    let Some(m) = number_after(first, word) else {
        return None;
    };
    let Some(n) = number_after(second, other) else {
        return None;
    };
    Some((m, n))
}

/// Returns the hashes that follow their words in two lines, in base64.
pub(crate) fn two_hashes(
    first: &[u8],
    word: &[u8],
    second: &[u8],
    other: &[u8],
) -> Option<(Hash, Hash)>
    ensures { MatchOption result ((g h : Bytes) → IsHash g → IsHash h
        → first.now ≡ word.now ++ base64_text g → second.now ≢ other.now ++ base64_text h)
        (λ r. IsHash r.0 × (first.now ≡ word.now ++ base64_text r.0)
        × IsHash r.1 × (second.now ≡ other.now ++ base64_text r.1)) }
{
    let Some(g) = hash_after(first, word) else {
        return None;
    };
    let Some(h) = hash_after(second, other) else {
        return None;
    };
    Some((g, h))
}

/// Returns the hashes that lines have, one each, in base64, or None if a line has none. It fails only if allocation
/// fails.
pub(crate) fn hashes_of<A: Allocator + Copy, B: Allocator>(
    alloc: A,
    lines: &[Vec<u8, B>],
) -> Result<Option<Vec<Hash, A>>, AllocError>
    ensures hashes { IfOk result (λ found. MatchOption found ((hashes : List Bytes)
        → All IsHash hashes → map vec_items lines.now ≢ map base64_text hashes) (λ hashes.
        All IsHash hashes.items × (map vec_items lines.now ≡ map base64_text hashes.items))) }
    ensures memory { OnErr result (0 < length lines.now) }
{
    let mut hashes = Vec::new(alloc);
    for line in lines {
        let Some(hash) = hash_after(line.as_slice(), b"") else {
            return Ok(None);
        };
        hashes.push(hash)?;
    }
    Ok(Some(hashes))
}
