//! Paths of resources (C2SP tlog-tiles, "Merkle Tree", "Log Entries" and "Checkpoints").

ghost use Rattle.std.specs.Prelude.{◌≡◌, ◌≢◌, ◌+◌, ◌*◌, ◌/◌, ◌^◌, ◌<◌, ◌≤◌, ◌++◌, List, ℕ, MatchOption, Some, IfSome, IfNone, IfOk, OnOk, string_bytes};
ghost use Rattle.tl_tile.specs.Path.{IsResource, path_text, three_digits, marked_group, index_text, width_text, piece_text};
ghost use Rattle.tl_tile.specs.Inner.ReadPath.{Strips, leading_number, leading_groups, IsWidth, HasNoWidth, IsPiece, HasNoPiece, IsTilePath, HasNoTile};
ghost use Rattle.tl_tile.specs.declared.resource.Resource.{Resource};

use crate::resource::{Resource, Tile};
use itoa::Buffer;
use std::alloc::{AllocError, Allocator};

// Returns a number below 1000 in three digits.
fn digits(n: u64) -> [u8; 3]
    requires { n < 1000 }
    ensures { result ≡ three_digits n }
{
    [
        b'0' + (n / 100) as u8,
        b'0' + (n / 10 % 10) as u8,
        b'0' + (n % 10) as u8,
    ]
}

// Returns the bytes after `front`, or `None` if they don't begin with it.
fn after<'a>(bytes: &'a [u8], front: &[u8]) -> Option<&'a [u8]>
    ensures { Strips (λ rest. rest.now) bytes.now front.now result }
{
    bytes.strip_prefix(front)
}

// Returns the bytes after the leading groups of an index.
fn after_groups(bytes: &[u8], n: u64) -> Option<&[u8]>
    ensures { Strips (λ rest. rest.now) bytes.now (leading_groups n) result }
{
    if n == 0 {
        return Some(bytes);
    }
    let Some(rest) = after_groups(bytes, n / 1000) else {
        return None;
    };
    let [a, b, c] = digits(n % 1000);
    after(rest, &[b'x', a, b, c, b'/'])
}

// Returns the bytes after an index.
fn after_index(bytes: &[u8], index: u64) -> Option<&[u8]>
    ensures { Strips (λ rest. rest.now) bytes.now (index_text index) result }
{
    let Some(rest) = after_groups(bytes, index / 1000) else {
        return None;
    };
    after(rest, &digits(index % 1000))
}

// Returns the number that the digits before the first dot write. It skips other bytes, and stops growing past 2^56.
fn number_before_dot(bytes: &[u8]) -> u64
    ensures { result ≡ leading_number 0 bytes.now }
{
    let mut n: u64 = 0;
    for byte in bytes {
        if *byte == b'.' {
            return n;
        }
        if byte.is_ascii_digit() && n < 1 << 56 {
            n = n * 10 + (*byte - b'0') as u64;
        }
    }
    n
}

// Returns the width that the end of a path gives: 256 if nothing is left, and otherwise the number after `.p/`.
fn width_of(bytes: &[u8]) -> Option<u32>
    ensures { MatchOption result (HasNoWidth bytes.now) (λ width. IsWidth bytes.now width) }
{
    if bytes.is_empty() {
        return Some(256);
    }
    let Some(digits) = after(bytes, b".p/") else {
        return None;
    };
    let width = number_before_dot(digits);
    if width == 0 || width > 255 {
        return None;
    }
    if digits != Buffer::new().format(width).as_bytes() {
        return None;
    }
    Some(width as u32)
}

// Returns an index and a width. The bytes must begin with the one text of this index.
fn piece_of(bytes: &[u8]) -> Option<(u64, u32)>
    ensures { MatchOption result (HasNoPiece bytes.now)
        (λ piece. IsPiece bytes.now piece.0 piece.1) }
{
    let index = number_before_dot(bytes);
    if index >= 1 << 56 {
        return None;
    }
    let Some(rest) = after_index(bytes, index) else {
        return None;
    };
    let Some(width) = width_of(rest) else {
        return None;
    };
    Some((index, width))
}

// Returns the tile whose level, index and width these bytes give, which follow `tile/`.
fn tile_of(bytes: &[u8]) -> Option<Resource>
    ensures { MatchOption result (HasNoTile bytes.now) (λ resource. IsTilePath bytes.now resource) }
{
    if bytes.len() < 2 {
        return None;
    }
    let digit = bytes[0];
    if digit < b'0' || digit > b'7' || bytes[1] != b'/' {
        return None;
    }
    let level = (digit - b'0') as u32;
    match piece_of(&bytes[2..]) {
        Some((index, width)) => Some(Resource::Tile(Tile {
            level,
            index,
            width,
        })),
        None => None,
    }
}

/// Returns the resource with this path, without a leading slash, or `None` if no resource has it. The level of a tile
/// is from 0 to 7, each index is below 2^56, and each width from 1 to 256; a width of 256 has no suffix. It allocates
/// nothing.
#[tactic(auto, using(crate::proofs::OnePath::only_path))]
pub fn parse_path(text: &str) -> Option<Resource>
    ensures found { IfSome result
        (λ resource. IsResource resource × (path_text resource ≡ text.now)) }
    ensures none { IfNone result
        ((resource : Resource) → IsResource resource → path_text resource ≢ text.now) }
    ensures only { (resource : Resource)
        → IsResource resource → path_text resource ≡ text.now → result ≡ Some resource }
{
    let bytes = text.as_bytes();
    if text == "checkpoint" {
        return Some(Resource::Checkpoint);
    }
    if let Some(piece) = after(bytes, b"tile/entries/") {
        return match piece_of(piece) {
            Some((index, width)) => Some(Resource::Entries { index, width }),
            None => None,
        };
    }
    let Some(rest) = after(bytes, b"tile/") else {
        return None;
    };
    tile_of(rest)
}

// Adds a number below 1000 in three digits.
fn push_three<A: Allocator>(out: &mut String<A>, n: u64) -> Result<(), AllocError>
    requires { n < 1000 }
    ensures { OnOk result (string_bytes out.new ≡ string_bytes out.old ++ three_digits n) }
{
    out.push((b'0' + (n / 100) as u8) as char)?;
    out.push((b'0' + (n / 10 % 10) as u8) as char)?;
    out.push((b'0' + (n % 10) as u8) as char)
}

// Adds a group that isn't the last one.
fn push_group<A: Allocator>(out: &mut String<A>, n: u64) -> Result<(), AllocError>
    requires { n < 1000 }
    ensures { OnOk result (string_bytes out.new ≡ string_bytes out.old ++ marked_group n) }
{
    out.push_str("x")?;
    push_three(out, n)?;
    out.push_str("/")
}

// Adds the leading groups of an index.
#[tactic(auto, using(crate::proofs::PathLemmas::pushed_groups))]
fn push_groups<A: Allocator>(out: &mut String<A>, n: u64) -> Result<(), AllocError>
    ensures { OnOk result (string_bytes out.new ≡ string_bytes out.old ++ leading_groups n) }
{
    if n == 0 {
        return Ok(());
    }
    push_groups(out, n / 1000)?;
    push_group(out, n % 1000)?;
    Ok(())
}

// Adds an index and the suffix of a width.
fn push_piece<A: Allocator>(out: &mut String<A>, index: u64, width: u32) -> Result<(), AllocError>
    requires { width ≤ 256 }
    ensures { OnOk result (string_bytes out.new ≡ string_bytes out.old ++ piece_text index width) }
{
    push_groups(out, index / 1000)?;
    push_three(out, index % 1000)?;
    if width == 256 {
        return Ok(());
    }
    out.push_str(".p/")?;
    out.push_str(Buffer::new().format(width))
}

/// Returns the path of a resource, without a leading slash (C2SP tlog-tiles): `tile/0/x001/234`,
/// `tile/entries/000.p/7` or `checkpoint`. The level of a tile is from 0 to 7, each index is below 2^56, and each
/// width from 1 to 256. It fails only if allocation fails.
pub fn path_of<A: Allocator>(alloc: A, resource: &Resource) -> Result<String<A>, AllocError>
    requires { IsResource resource.now }
    ensures { IfOk result (λ text. string_bytes text ≡ path_text resource.now) }
{
    let mut out = String::new(alloc);
    match resource {
        Resource::Checkpoint => out.push_str("checkpoint")?,
        Resource::Entries { index, width } => {
            out.push_str("tile/entries/")?;
            push_piece(&mut out, *index, *width)?;
        }
        Resource::Tile(tile) => {
            out.push_str("tile/")?;
            out.push((b'0' + tile.level as u8) as char)?;
            out.push_str("/")?;
            push_piece(&mut out, tile.index, tile.width)?;
        }
    }
    Ok(out)
}
