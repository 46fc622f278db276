//! Rows of a GET request over HTTP: the body of the response or its fault, and how many bytes were written. The words
//! are the limit of the body, the host and the target, both in hexadecimal.

use crate::words::{Told, Words, bytes_of, put};
use std::alloc::Global;
use std::str;
use tl_device::Counted;
use tl_http::get;

// More bytes than any request has, so that no write runs out of memory.
const ROOM: usize = 4_096;

/// Writes the answer of a call to a response.
pub(crate) fn answer(
    alloc: Global,
    words: &mut Words<'_>,
    response: &[u8],
    out: &mut String,
) -> Told {
    let limit = words.number() as usize;
    let host = bytes_of(alloc, words.next())?;
    let target = bytes_of(alloc, words.next())?;
    let host = str::from_utf8(host.as_slice()).unwrap_or("");
    let target = str::from_utf8(target.as_slice()).unwrap_or("");
    let mut reader = Counted::new(response);
    let mut writer = Counted::new(Vec::with_capacity(alloc, ROOM)?);
    put(
        out,
        get(alloc, &mut reader, &mut writer, host, target, limit),
    )?;
    write!(out, "\n{} written", writer.into_inner().len())
}
