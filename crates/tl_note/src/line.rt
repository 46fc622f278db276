//! A signature line of a note: a view that borrows it, and its exact reader.

ghost use Rattle.std.specs.Prelude.{◌≡◌, ◌++◌, MatchOption, IfOk, OnOk, ◌<◌, length, string_bytes};
ghost use Rattle.tl_note.specs.Key.{IsKeyName};
ghost use Rattle.tl_note.specs.Note.{IsSignature, signature_field, signature_line, signature_words};
ghost use Rattle.tl_note.specs.Inner.Reading.{IsNoLine};
ghost use Rattle.tl_note.specs.Inner.LineField.{IsNoField, ShowsField};

use crate::keys::is_key_name;
use base64::DecodeAllocError;
use base64::engine::general_purpose::STANDARD;
use std::alloc::{AllocError, Allocator};
use std::marker::Model;
use tl_text::{BLOCK_LEN, decode_base64_block, is_base64};

/// A signature line of a note, within the message. A contract sees the signature that the line shows: the key's name,
/// its identifier and the bytes of the signature. Only reading makes a view, so the line is always well formed.
#[derive(Debug, Drop)]
pub struct SigView<'m> {
    name: &'m str,
    key_id: u32,
    field: &'m str,
}

impl<'m> Model for SigView<'m> {
    ghost use Rattle.tl_note.specs.Note.{Signature};
    ghost use Rattle.tl_note.specs.Line.{shown, ShowsLine};

    ghost Value = { Signature };

    ghost view = { λ line. shown line.name.now line.key_id line.field.now };

    ghost invariant = { λ line. ShowsLine line.name.now line.key_id line.field.now };
}

impl<'m> SigView<'m> {
    /// Returns the key's name.
    pub fn name(&self) -> &'m str
        ensures { result.now ≡ self.now.name }
    {
        self.name
    }

    /// Returns the key's identifier.
    pub fn key_id(&self) -> u32
        ensures { result ≡ self.now.id }
    {
        self.key_id
    }

    /// Returns the field after the name: base64 of the identifier, four bytes, big-endian, and the signature.
    pub fn base64(&self) -> &'m str
        ensures { result.now ≡ signature_field self.now }
    {
        self.field
    }

    /// Returns the bytes of the signature, at least one: what the field has after the identifier. It fails only if
    /// allocation fails.
    pub fn decode<A: Allocator>(&self, alloc: A) -> Result<Vec<u8, A>, AllocError>
        ensures { IfOk result (λ bytes. bytes.items ≡ self.now.bytes) }
    {
        let mut bytes = match STANDARD.decode(alloc, self.field.as_bytes()) {
            Ok(bytes) => bytes,
            Err(DecodeAllocError::OutOfMemory) => return Err(AllocError),
            Err(DecodeAllocError::DecodeError(_)) => unreachable!(),
        };
        let rest = bytes.len() - KEY_ID_LEN;
        bytes.rotate_left(KEY_ID_LEN);
        bytes.truncate(rest);
        Ok(bytes)
    }

    /// Appends the line, with the newline that ends it, to a text (C2SP signed-note, "Format"). It fails only if
    /// allocation fails.
    pub fn push_to<A: Allocator>(&self, text: &mut String<A>) -> Result<(), AllocError>
        ensures { OnOk result
            (string_bytes text.new ≡ string_bytes text.old ++ signature_line self.now) }
    {
        text.push_str("— ")?;
        text.push_str(self.name)?;
        text.push_str(" ")?;
        text.push_str(self.field)?;
        text.push_str("\n")
    }

    /// Reads a signature line, without its newline.
    pub(crate) fn read(line: &'m str) -> Option<SigView<'m>>
        ensures { MatchOption result (IsNoLine line.now)
            (λ view. IsSignature view × (line.now ≡ signature_words view)) }
    {
        let Some(words) = line.strip_prefix("— ") else {
            return None;
        };
        let Some((name, field)) = words.split_once(' ') else {
            return None;
        };
        if !is_key_name(name) {
            return None;
        }
        let Some(key_id) = read_key_id(field) else {
            return None;
        };
        Some(SigView {
            name,
            key_id,
            field,
        })
    }
}

/// Returns a signature line, with the newline that ends it, of a key's name, its identifier and the bytes of the
/// signature (C2SP signed-note, "Format"). The line is well formed if the name is a key's name and there is at least
/// one byte. It fails only if allocation fails.
pub fn write_signature_line<A: Allocator + Copy>(
    alloc: A,
    name: &str,
    key_id: u32,
    signature: &[u8],
) -> Result<String<A>, AllocError>
    ensures text { IfOk result (λ line. string_bytes line
        ≡ signature_line (record { name = name.now; id = key_id; bytes = signature.now })) }
    ensures lawful { IsKeyName name.now → 0 < length signature.now
        → IsSignature (record { name = name.now; id = key_id; bytes = signature.now }) }
{
    let mut field = Vec::from_slice(alloc, &key_id.to_be_bytes())?;
    field.extend_from_slice(signature)?;
    let mut line = String::from_str(alloc, "— ")?;
    line.push_str(name)?;
    line.push_str(" ")?;
    STANDARD.encode_string(field.as_slice(), &mut line)?;
    line.push_str("\n")?;
    Ok(line)
}

// The number of bytes of the identifier in a field.
pub(crate) const KEY_ID_LEN: usize = 4;

/// Returns the identifier in a field: strict base64 of the identifier, four bytes, big-endian, and of at least one
/// byte more.
pub(crate) fn read_key_id(field: &str) -> Option<u32>
    ensures { MatchOption result (IsNoField field.now) (λ id. ShowsField id field.now) }
{
    let text = field.as_bytes();
    if text.len() < BLOCK_LEN {
        return None;
    }
    let Some(block) = decode_base64_block(&text[..BLOCK_LEN]) else {
        return None;
    };
    if block.count <= KEY_ID_LEN {
        return None;
    }
    if !is_base64(text) {
        return None;
    }
    let bytes = block.bytes;
    Some(u32::from_be_bytes([bytes[0], bytes[1], bytes[2], bytes[3]]))
}
