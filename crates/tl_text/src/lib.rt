//! The pieces that the text formats of transparency logs share: lines, decimal numbers, and base64 of hashes.
//!
//! Notes, checkpoints and proofs are signed or compared as texts, so each value must have exactly one text. These
//! readers take the one spelling and nothing else: a number has no sign and no leading zeros, and base64 (RFC 4648,
//! section 4) is padded and strict. A line ends with a newline, and has no other character below 0x20.
//!
//! A text is read from the front. `split_line` returns the first line and what follows it, and `parse_size` and
//! `parse_hash` read a line as a number or a hash:
//!
//! ```rust
//! let (size, rest) = split_line("12\nmore\n").unwrap();
//! assert_eq!(rt; rest, "more\n");
//! assert_eq!(rt; parse_size(size), Some(12));
//! assert_eq!(rt; parse_size("012"), None); // each number has one text
//! assert!(rt; is_base64(b"AQI=") && !is_base64(b"AQI"));
//! ```
//!
//! No reader allocates memory. `push_line` writes a line. The laws in `law` say that a text is that of one number, of
//! one string of bytes, and of one list of lines.
#![tactic(auto)]

mod blocks;
pub mod law;
mod pieces;

pub use blocks::{BLOCK_BYTES, BLOCK_LEN, Block, decode_base64_block, is_base64};
pub use pieces::{is_one_line, parse_hash, parse_size, push_line, split_line};
