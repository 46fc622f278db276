//! The parts of a key's text: its name, the digits of its identifier, and its type with 32 bytes.

ghost use Rattle.std.specs.Prelude.{◌≡◌, ◌++◌, ◌∷◌, MatchOption, OnOk, drop, length, string_bytes};
ghost use Rattle.tl_text.specs.Text.{base64_text};
ghost use Rattle.tl_key.specs.KeyText.{hex8};
ghost use Rattle.tl_key.specs.Inner.Parts.{Are33Bytes, IsField, IsNoField, IsTail, IsNoTail, HasParts, HasNoParts};

use base64::engine::general_purpose::STANDARD;
use std::alloc::{AllocError, Allocator};
use tl_note::is_key_name;

// The number of bytes in a field of base64: the type and 32 more.
const FIELD_BYTES: usize = 33;

// The number of digits of an identifier.
const DIGITS: usize = 8;

// The parts after a name.
#[derive(Drop)]
struct Tail<'t> {
    digits: &'t [u8],
    bytes: [u8; 33],
}

// The parts of a text.
#[derive(Drop)]
pub(crate) struct Parts<'t> {
    pub(crate) name: &'t str,
    pub(crate) digits: &'t [u8],
    pub(crate) bytes: [u8; 33],
}

// Decodes the 33 bytes of a field of base64. It allocates nothing.
fn read_field(field: &[u8]) -> Option<[u8; 33]>
    ensures { MatchOption result (IsNoField field.now) (λ bytes. IsField field.now bytes) }
{
    let mut bytes = [0; 33];
    let Ok(count) = STANDARD.decode_slice(field, &mut bytes) else {
        return None;
    };
    if count != FIELD_BYTES {
        return None;
    }
    Some(bytes)
}

// Reads the digits and the bytes that follow a name and a plus sign.
fn read_tail(rest: &[u8]) -> Option<Tail<'_>>
    ensures { MatchOption result (IsNoTail rest.now)
        (λ tail. IsTail rest.now tail.digits.now tail.bytes) }
{
    if rest.len() <= DIGITS {
        return None;
    }
    if rest[DIGITS] != b'+' {
        return None;
    }
    let Some(bytes) = read_field(&rest[DIGITS + 1..]) else {
        return None;
    };
    Some(Tail {
        digits: &rest[..DIGITS],
        bytes,
    })
}

// Reads the parts of a key's text. It allocates nothing.
pub(crate) fn read_parts(text: &str) -> Option<Parts<'_>>
    ensures { MatchOption result (HasNoParts text.now)
        (λ parts. HasParts text.now parts.name.now parts.digits.now parts.bytes) }
{
    let Some((name, rest)) = text.split_once('+') else {
        return None;
    };
    if !is_key_name(name) {
        return None;
    }
    let Some(tail) = read_tail(rest.as_bytes()) else {
        return None;
    };
    Some(Parts {
        name,
        digits: tail.digits,
        bytes: tail.bytes,
    })
}

// Returns the 32 bytes after the type.
pub(crate) fn after_kind(bytes: &[u8; 33]) -> [u8; 32]
    ensures { result ≡ drop 1 bytes.now }
{
    let mut rest = [0; 32];
    rest.copy_from_slice(&bytes[1..]);
    rest
}

// Returns the type and the 32 bytes after it.
fn with_kind(kind: u8, rest: &[u8; 32]) -> [u8; 33]
    ensures bytes { result ≡ kind ∷ rest.now }
    ensures fit { Are33Bytes result }
{
    let mut bytes = [kind; 33];
    bytes[1..].copy_from_slice(rest);
    bytes
}

// Appends what follows the name in a key's text.
pub(crate) fn push_tail<A: Allocator + Copy>(
    alloc: A,
    text: &mut String<A>,
    id: u32,
    kind: u8,
    rest: &[u8; 32],
) -> Result<(), AllocError>
    ensures text { OnOk result (string_bytes text.new
        ≡ string_bytes text.old ++ 0x2B ∷ (hex8 id ++ 0x2B ∷ base64_text (kind ∷ rest.now))) }
    ensures fit { Are33Bytes (kind ∷ rest.now) }
{
    let bytes = with_kind(kind, rest);
    text.push_str("+")?;
    push_digits(alloc, text, id)?;
    text.push_str("+")?;
    STANDARD.encode_string(&bytes, text)
}

// Appends the digits of an identifier.
fn push_digits<A: Allocator + Copy>(
    alloc: A,
    text: &mut String<A>,
    id: u32,
) -> Result<(), AllocError>
    ensures { OnOk result (string_bytes text.new ≡ string_bytes text.old ++ hex8 id) }
{
    let digits = hex::encode(alloc, id.to_be_bytes())?;
    text.push_str(digits.as_str())
}
