//! The eight entries of Google's Certificate Transparency test data, and numbered entries.

use std::alloc::{AllocError, Global};

/// The entries.
const ENTRIES: [&[u8]; 8] = [
    b"",
    b"\x00",
    b"\x10",
    b"\x20\x21",
    b"\x30\x31",
    b"\x40\x41\x42\x43",
    b"\x50\x51\x52\x53\x54\x55\x56\x57",
    b"\x60\x61\x62\x63\x64\x65\x66\x67\x68\x69\x6a\x6b\x6c\x6d\x6e\x6f",
];

/// Returns the first `count` entries of the list.
pub fn entries(alloc: Global, count: usize) -> Result<Vec<Vec<u8>>, AllocError> {
    let mut list = Vec::new(alloc);
    for entry in ENTRIES.iter().take(count) {
        list.push(Vec::from_slice(alloc, entry)?)?;
    }
    Ok(list)
}

/// Returns `count` entries of four bytes: the numbers from 0 up, big-endian.
pub fn numbered(alloc: Global, count: u32) -> Result<Vec<Vec<u8>>, AllocError> {
    let mut list = Vec::new(alloc);
    for number in 0..count {
        list.push(Vec::from_slice(alloc, &number.to_be_bytes())?)?;
    }
    Ok(list)
}
