//! Base64 of any bytes, read eight characters at a time, so that nothing is allocated.

ghost use Rattle.std.specs.Prelude.{◌≤◌, length, IsTrue, ◌↔◌, MatchOption};
ghost use Rattle.tl_text.specs.Base64.{IsBase64, IsNoBase64, IsRead};

use base64::engine::general_purpose::STANDARD;

/// The number of characters of a block of base64.
pub const BLOCK_LEN: usize = 8;

/// The number of bytes that a whole block encodes.
pub const BLOCK_BYTES: usize = 6;

/// The bytes that a block of at most eight characters encodes.
#[derive(Clone, Copy, Debug)]
pub struct Block {
    /// How many bytes it encodes.
    pub count: usize,
    /// An array that begins with them.
    pub bytes: [u8; BLOCK_BYTES],
}

/// Decodes a block of at most eight characters of strict base64 (RFC 4648, section 4), padded if its bytes need it.
pub fn decode_base64_block(text: &[u8]) -> Option<Block>
    requires { length text.now ≤ 8 }
    ensures { MatchOption result (IsNoBase64 text.now)
        (λ block. IsRead text.now block.count block.bytes) }
{
    let mut bytes = [0; BLOCK_BYTES];
    match STANDARD.decode_slice(text, &mut bytes) {
        Ok(count) => Some(Block { count, bytes }),
        Err(_) => None,
    }
}

/// Reports whether a text is strict base64 (RFC 4648, section 4). It decodes a block at a time, and allocates
/// nothing.
pub fn is_base64(text: &[u8]) -> bool
    ensures { IsTrue result ↔ IsBase64 text.now }
{
    let mut left = text;
    while left.len() > BLOCK_LEN {
        let (front, rest) = left.split_at(BLOCK_LEN);
        let Some(block) = decode_base64_block(front) else {
            return false;
        };
        if block.count != BLOCK_BYTES {
            return false;
        }
        left = rest;
    }
    decode_base64_block(left).is_some()
}
