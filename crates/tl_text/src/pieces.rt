//! Readers of a line, a decimal number and a hash in base64, and the writer of a line. Each reader takes exactly one
//! spelling of its value.

ghost use Rattle.std.specs.Prelude.{◌≡◌, ◌<◌, ◌^◌, ◌++◌, MatchOption, IsTrue, ◌↔◌, IsUtf8, OnOk, string_bytes};
ghost use Rattle.tl_hash.specs.Bytes.{IsHash};
ghost use Rattle.tl_text.specs.Text.{line, number_text, base64_text, HasNoControl, IsOneLine};
ghost use Rattle.tl_text.specs.Pieces.{IsNoLine, IsNoSize, IsNoHash};

use base64::engine::general_purpose::STANDARD;
use itoa::Buffer;
use std::alloc::{AllocError, Allocator};
use tl_hash::Hash;

// Reports whether a text has no character below 0x20.
fn is_plain(text: &str) -> bool
    ensures { IsTrue result ↔ HasNoControl text.now }
{
    text.bytes().all(|byte| byte >= 0x20)
}

/// Reports whether a text is one line and not empty: it has no character below 0x20.
pub fn is_one_line(text: &str) -> bool
    ensures { IsTrue result ↔ IsOneLine text.now }
{
    !text.is_empty() && is_plain(text)
}

/// Returns the first line of a text, without its newline, and what follows it. A line ends with a newline and has no
/// other character below 0x20.
pub fn split_line(text: &str) -> Option<(&str, &str)>
    ensures { MatchOption result (IsNoLine text.now)
        (λ r. HasNoControl r.0.now × (text.now ≡ line r.0.now ++ r.1.now) × IsUtf8 r.1.now) }
{
    let Some((words, rest)) = text.split_once('\n') else {
        return None;
    };
    if !is_plain(words) {
        return None;
    }
    Some((words, rest))
}

/// Reads a number below 2^63 in decimal, without sign or leading zeros.
pub fn parse_size(text: &str) -> Option<u64>
    ensures { MatchOption result (IsNoSize text.now)
        (λ size. (size < 2 ^ 63) × (text.now ≡ number_text size)) }
{
    let Ok(size) = text.parse::<u64>() else {
        return None;
    };
    if size >= 1 << 63 {
        return None;
    }
    if text != Buffer::new().format(size) {
        return None;
    }
    Some(size)
}

// The most bytes that 44 characters of base64 can encode.
const HASH_ROOM: usize = 33;

/// Reads a hash: 32 bytes in padded base64. It allocates nothing.
pub fn parse_hash(text: &str) -> Option<Hash>
    ensures { MatchOption result (IsNoHash text.now)
        (λ hash. IsHash hash × (text.now ≡ base64_text hash)) }
{
    let mut bytes = [0; HASH_ROOM];
    let Ok(count) = STANDARD.decode_slice(text.as_bytes(), &mut bytes) else {
        return None;
    };
    let Ok(hash) = <[u8; 32]>::try_from(&bytes[..count]) else {
        return None;
    };
    Some(Hash::from_bytes(hash))
}

/// Appends a text and a newline. It fails only if allocation fails; then part of the line may be appended.
pub fn push_line<A: Allocator>(out: &mut String<A>, text: &str) -> Result<(), AllocError>
    ensures { OnOk result (string_bytes out.new ≡ string_bytes out.old ++ line text.now) }
{
    out.push_str(text)?;
    out.push_str("\n")?;
    Ok(())
}
