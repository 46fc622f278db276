//! Reading the text of a checkpoint.

ghost use Rattle.std.specs.Prelude.{◌≡◌, ◌↔◌, IsTrue, IfOk, MatchOption, map, string_bytes};
ghost use Rattle.tl_checkpoint.specs.ParseCheckpoint.{IsInNoLines, ParsesCheckpoint};
ghost use Rattle.tl_checkpoint.specs.Inner.CutLines.{AreExtensions, AreSome, CutsLines};

use crate::checkpoint::{Checkpoint, CheckpointFault};
use std::alloc::{AllocError, Allocator};
use tl_text::{parse_hash, parse_size, split_line};

// Reports whether a text is lines, none of which is empty.
fn are_extensions(text: &str) -> bool
    ensures { IsTrue result ↔ AreSome text.now }
{
    let mut left = text;
    while !left.is_empty() {
        let Some((words, rest)) = split_line(left) else {
            return false;
        };
        if words.is_empty() {
            return false;
        }
        left = rest;
    }
    true
}

// The lines of a text. The extensions are one piece of text.
#[derive(Clone, Copy)]
struct Parts<'a> {
    origin: &'a str,
    size: &'a str,
    root: &'a str,
    extensions: &'a str,
}

// Cuts a text into its lines: at least three, and none of those after the third is empty.
fn cut_lines(text: &str) -> Option<Parts<'_>>
    ensures { MatchOption result (IsInNoLines text.now) (CutsLines text.now) }
{
    let Some((origin, rest)) = split_line(text) else {
        return None;
    };
    let Some((size, rest)) = split_line(rest) else {
        return None;
    };
    let Some((root, extensions)) = split_line(rest) else {
        return None;
    };
    if !are_extensions(extensions) {
        return None;
    }
    Some(Parts {
        origin,
        size,
        root,
        extensions,
    })
}

// Returns the lines of a text that is lines, none of which is empty.
fn read_extensions<A: Allocator + Copy>(
    alloc: A,
    text: &str,
) -> Result<Vec<String<A>, A>, AllocError>
    requires { AreSome text.now }
    ensures { IfOk result (λ lines. AreExtensions text.now (map string_bytes lines.items)) }
{
    let mut lines = Vec::new(alloc);
    let mut left = text;
    while let Some((words, rest)) = split_line(left) {
        lines.push(String::from_str(alloc, words)?)?;
        left = rest;
    }
    Ok(lines)
}

/// Reads the text of a checkpoint (C2SP tlog-checkpoint, "Note text"). If the text is none, it fails with the first
/// fault in the order lines, origin, size, root. It allocates only after these checks, so `OutOfMemory` occurs only
/// for a checkpoint.
pub fn parse<A: Allocator + Copy>(alloc: A, text: &str) -> Result<Checkpoint<A>, CheckpointFault>
    ensures { ParsesCheckpoint text.now result }
{
    let Some(parts) = cut_lines(text) else {
        return Err(CheckpointFault::Lines);
    };
    if parts.origin.is_empty() {
        return Err(CheckpointFault::Origin);
    }
    let Some(size) = parse_size(parts.size) else {
        return Err(CheckpointFault::Size);
    };
    let Some(root) = parse_hash(parts.root) else {
        return Err(CheckpointFault::Root);
    };
    let extensions = read_extensions(alloc, parts.extensions)?;
    Ok(Checkpoint {
        origin: String::from_str(alloc, parts.origin)?,
        size,
        root,
        extensions,
    })
}
