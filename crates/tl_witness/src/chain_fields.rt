//! The fields of a chain line. Each reader accepts exactly the one spelling of its field.

ghost use Rattle.std.specs.Prelude.{◌≡◌, IfOk, IsUtf8, List, MatchOption};
ghost use Rattle.tl_hash.specs.Bytes.{Bytes, IsHash};
ghost use Rattle.tl_text.specs.Text.{IsSize, base64_text, number_text};
ghost use Rattle.tl_witness.specs.ChainFields.{AreHashes, field};
ghost use Rattle.tl_witness.specs.Inner.ChainFields.{HasHashes, HasNoHash, HasNoHashes, HasNoNumber, IsNoChainLine};
ghost use Rattle.tl_witness.specs.ReadChain.{ShowsFields};

use crate::request::MOST_HASHES;
use std::alloc::{AllocError, Allocator};
use tl_hash::Hash;
use tl_proof::HashList;
use tl_text::{is_one_line, parse_hash, parse_size};

// Reads a number below 2^63 and the space after it, and returns it with the rest.
fn number_field(text: &str) -> Option<(u64, &str)>
    ensures { MatchOption result (HasNoNumber text.now)
        (λ r. IsSize r.0 × (text.now ≡ field (number_text r.0) r.1.now)) }
{
    let Some((words, rest)) = text.split_once(' ') else {
        return None;
    };
    let Some(number) = parse_size(words) else {
        return None;
    };
    Some((number, rest))
}

// Reads a hash in base64 and the space after it, and returns it with the rest.
fn hash_field(text: &str) -> Option<(Hash, &str)>
    ensures { MatchOption result (HasNoHash text.now)
        (λ r. IsHash r.0 × (text.now ≡ field (base64_text r.0) r.1.now) × IsUtf8 r.1.now) }
{
    let Some((words, rest)) = text.split_once(' ') else {
        return None;
    };
    let Some(hash) = parse_hash(words) else {
        return None;
    };
    Some((hash, rest))
}

// Returns what follows `count` hashes, each with a space after it.
fn skip_hashes(count: usize, text: &str) -> Option<&str>
    ensures { MatchOption result (HasNoHashes count text.now)
        (λ rest. HasHashes count text.now rest.now × IsUtf8 rest.now) }
{
    let mut left = text;
    for _ in 0..count {
        let Some((_, rest)) = hash_field(left) else {
            return None;
        };
        left = rest;
    }
    Some(left)
}

// Reads the `count` hashes, each with a space after it, that the text begins with.
pub(crate) fn read_hashes<A: Allocator>(
    alloc: A,
    count: usize,
    text: &str,
) -> Result<HashList<A>, AllocError>
    requires { (rest : Bytes) × HasHashes count text.now rest }
    ensures { IfOk result (λ read. (hashes : List Bytes) (rest : Bytes)
        → AreHashes count text.now hashes rest → read ≡ hashes) }
{
    let mut hashes: Vec<Hash, A> = Vec::with_capacity(alloc, count)?;
    let mut left = text;
    while hashes.len() < count {
        let Some(read) = hash_field(left) else {
            unreachable!();
        };
        let (hash, rest) = read;
        hashes.push(hash)?;
        left = rest;
    }
    Ok(HashList::from_vec(hashes))
}

/// The fields of a chain line. `hashes` begins with the hashes of the proof.
#[derive(Clone, Copy)]
pub(crate) struct Fields<'a> {
    pub(crate) size: u64,
    pub(crate) root: Hash,
    pub(crate) count: usize,
    pub(crate) hashes: &'a str,
    pub(crate) origin: &'a str,
}

/// Cuts a chain line, given without its newline, into its fields. It allocates nothing.
pub(crate) fn cut_fields(words: &str) -> Option<Fields<'_>>
    ensures { MatchOption result (IsNoChainLine words.now) (ShowsFields words.now) }
{
    let Some((size, rest)) = number_field(words) else {
        return None;
    };
    let Some(read) = hash_field(rest) else {
        return None;
    };
    let (root, rest) = read;
    let Some((count, hashes)) = number_field(rest) else {
        return None;
    };
    if count > MOST_HASHES as u64 {
        return None;
    }
    let count = count as usize;
    let Some(origin) = skip_hashes(count, hashes) else {
        return None;
    };
    if !is_one_line(origin) {
        return None;
    }
    Some(Fields {
        size,
        root,
        count,
        hashes,
        origin,
    })
}
