//! Reads the text of a proof.

ghost use Rattle.std.specs.Prelude.{◌≡◌, ◌++◌, ◌<◌, ◌≤◌, IfOk, MatchOption, OnErr, length, vec_items};
ghost use Rattle.std.specs.Prelude.{IsUtf8};
ghost use Rattle.base64.specs.GeneralPurpose.{IsBytes};
ghost use Rattle.tl_text.specs.Base64.{IsBase64, IsSpelled};
ghost use Rattle.tl_text.specs.Text.{IsSize};
ghost use Rattle.tl_offline.specs.ProofText.{index_line};
ghost use Rattle.tl_offline.specs.ParseProof.{HasNoIndexLine, ParsesProof};
ghost use Rattle.tl_offline.specs.Inner.Cutting.{CutsExtra, CutsFront, CutsHash, CutsHashes};

use crate::proof::{MOST_HASHES, OfflineProof, ProofFault};
use base64::DecodeAllocError;
use base64::engine::general_purpose::STANDARD;
use std::alloc::{AllocError, Allocator};
use tl_hash::Hash;
use tl_text::{is_base64, parse_hash, parse_size, split_line};

// The base64 of the extra data, if a text begins with their line, how many lines that is, and what follows it.
#[derive(Clone, Copy)]
struct Extra<'t> {
    words: Option<&'t str>,
    lines: usize,
    rest: &'t str,
}

// Cuts the line of the extra data from a text, if it begins with `extra `.
fn cut_extra(text: &str) -> Result<Extra<'_>, ProofFault>
    ensures { CutsExtra text.now result }
{
    let Some(line) = text.strip_prefix("extra ") else {
        return Ok(Extra {
            words: None,
            lines: 0,
            rest: text,
        });
    };
    let Some((words, rest)) = split_line(line) else {
        return Err(ProofFault::BadExtra);
    };
    if !is_base64(words.as_bytes()) {
        return Err(ProofFault::BadExtra);
    }
    Ok(Extra {
        words: Some(words),
        lines: 1,
        rest,
    })
}

// The index that a text's first line gives, and what follows it.
fn cut_index(text: &str) -> Option<(u64, &str)>
    ensures { MatchOption result (HasNoIndexLine text.now)
        (λ r. IsSize r.0 × (text.now ≡ index_line r.0 ++ r.1.now) × IsUtf8 r.1.now) }
{
    let Some((words, rest)) = split_line(text) else {
        return None;
    };
    let Some(digits) = words.strip_prefix("index ") else {
        return None;
    };
    let Some(index) = parse_size(digits) else {
        return None;
    };
    Some((index, rest))
}

// What stands before the hashes, the number of the line after it, and what follows.
#[derive(Clone, Copy)]
struct Front<'t> {
    extra: Option<&'t str>,
    index: u64,
    next: usize,
    rest: &'t str,
}

// Cuts the lines before the hashes from a text.
fn cut_front(text: &str) -> Result<Front<'_>, ProofFault>
    ensures { CutsFront text.now result }
{
    let Some(rest) = text.strip_prefix("c2sp.org/tlog-proof@v1\n") else {
        return Err(ProofFault::NoHeader);
    };
    let extra = cut_extra(rest)?;
    let line = 2 + extra.lines;
    let Some((index, rest)) = cut_index(extra.rest) else {
        return Err(ProofFault::NoIndex(line));
    };
    Ok(Front {
        extra: extra.words,
        index,
        next: line + 1,
        rest,
    })
}

// The hash that is a text's first line, of this number in the whole text, and what follows it.
fn cut_hash(text: &str, line: usize) -> Result<(Hash, &str), ProofFault>
    ensures { CutsHash text.now line result }
{
    let Some((words, rest)) = text.split_once('\n') else {
        return Err(ProofFault::NoCheckpoint(line));
    };
    let Some(hash) = parse_hash(words) else {
        return Err(ProofFault::NoHash(line));
    };
    Ok((hash, rest))
}

// Hashes, the first `count` of those found, and the note that follows them.
#[derive(Clone, Copy)]
struct Hashes<'t> {
    found: [Hash; MOST_HASHES],
    count: usize,
    note: &'t str,
}

// Cuts a text into the hashes before its first empty line, which have lines from this number on, and the note.
fn cut_hashes(text: &str, first: usize) -> Result<Hashes<'_>, ProofFault>
    requires { first ≤ 4 }
    ensures { CutsHashes text.now first result }
{
    let mut found = [Hash::from_bytes([0; 32]); MOST_HASHES];
    let mut count = 0;
    let mut left = text;
    while !left.starts_with('\n') {
        let (hash, rest) = match cut_hash(left, first + count) {
            Ok(read) => read,
            Err(fault) => return Err(fault),
        };
        if count == MOST_HASHES {
            return Err(ProofFault::TooMany(first + count));
        }
        found[count] = hash;
        count += 1;
        left = rest;
    }
    Ok(Hashes {
        found,
        count,
        note: &left[1..],
    })
}

// The bytes that a text is base64 of.
fn decode<A: Allocator>(alloc: A, words: &str) -> Result<Vec<u8, A>, AllocError>
    requires { IsBase64 words.now }
    ensures { IfOk result (λ bytes. IsSpelled words.now bytes.items) }
{
    match STANDARD.decode(alloc, words.as_bytes()) {
        Ok(bytes) => Ok(bytes),
        Err(DecodeAllocError::OutOfMemory) => Err(AllocError),
        Err(DecodeAllocError::DecodeError(_)) => unreachable!(),
    }
}

// A list of these hashes.
fn list_of<A: Allocator>(alloc: A, hashes: &[Hash]) -> Result<Vec<Hash, A>, AllocError>
    ensures list { IfOk result (λ list. list.items ≡ hashes.now) }
    ensures memory { OnErr result (0 < length hashes.now) }
{
    let mut list = Vec::new(alloc);
    list.extend_from_slice(hashes)?;
    Ok(list)
}

/// Returns the proof that a text is (C2SP tlog-proof), or the first line that is wrong. The text is read to its end
/// before memory is asked for, so `OutOfMemory` is of a proof, one with hashes or extra data. A line `extra ` with
/// nothing behind it has extra data of no bytes, since base64 of no bytes is the empty text (RFC 4648, section 10).
/// The note isn't read: its signatures count under keys, so whoever opens it refuses what is no note.
pub fn parse_proof<A: Allocator + Copy>(
    alloc: A,
    text: &str,
) -> Result<OfflineProof<'_, A>, ProofFault>
    ensures { ParsesProof text.now result }
{
    let front = cut_front(text)?;
    let hashes = match cut_hashes(front.rest, front.next) {
        Ok(hashes) => hashes,
        Err(fault) => return Err(fault),
    };
    let extra = match front.extra {
        None => None,
        Some(words) => Some(decode(alloc, words)?),
    };
    Ok(OfflineProof {
        extra,
        index: front.index,
        hashes: list_of(alloc, &hashes.found[..hashes.count])?,
        note: hashes.note,
    })
}
