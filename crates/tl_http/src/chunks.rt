//! Reading a body that comes in chunks.

ghost use Rattle.std.specs.Prelude.{◌≡◌, ◌+◌, ◌≤◌, ◌++◌, length, vec_len};
ghost use Rattle.tl_device.specs.Device.{passage};
ghost use Rattle.tl_http.specs.Get.{Receives};
ghost use Rattle.tl_http.specs.Response.{ChunksDecide, outcome};
ghost use Rattle.tl_http.specs.Inner.ChunkReads.{FindsLine, ReadsByte, ReadsChunk, ReadsData, ReadsLine};

use crate::fault::HttpFault;
use crate::growth::append;
use crate::window::{Filled, Window};
use httparse::{Status, parse_chunk_size};
use std::alloc::Allocator;
use std::io::Read;
use tl_device::Counted;

// The most bytes of a chunk's line.
const MOST_LINE: usize = 256;

// What some bytes begin with.
#[derive(Clone, Copy)]
pub(crate) enum Line {
    // A chunk's line of this many bytes, with this size.
    Whole(usize, u64),
    // The beginning of such a line; more may come.
    Cut,
    // No such line, whatever follows.
    Lacking,
}

// Returns the chunk's line at the front of the bytes.
fn line_in(bytes: &[u8]) -> Line
    ensures { FindsLine bytes.now result }
{
    let most = bytes.len().min(MOST_LINE);
    match parse_chunk_size(&bytes[..most]) {
        Ok(Status::Complete((len, size))) => Line::Whole(len, size),
        Ok(Status::Partial) => if bytes.len() < MOST_LINE {
            Line::Cut
        } else {
            Line::Lacking
        },
        Err(_) => Line::Lacking,
    }
}

// Reads a chunk's line, and returns its size.
fn read_line<I: Read>(reader: &mut Counted<I>, window: &mut Window) -> Result<u64, HttpFault>
    ensures { ReadsLine (passage I.remaining reader.old reader.new) window.old window.new result }
{
    loop {
        match line_in(window.bytes()) {
            Line::Whole(len, size) => {
                window.skip(len);
                return Ok(size);
            }
            Line::Cut => {}
            Line::Lacking => return Err(HttpFault::BadChunk),
        }
        match window.fill(reader) {
            Filled::Failed => return Err(HttpFault::Read),
            Filled::Ended => return Err(HttpFault::Short),
            Filled::More => {}
        }
    }
}

// Reads one byte, which has to be `wanted`.
fn read_byte<I: Read>(
    reader: &mut Counted<I>,
    window: &mut Window,
    wanted: u8,
) -> Result<(), HttpFault>
    ensures { ReadsByte wanted (passage I.remaining reader.old reader.new) window.old window.new
        result }
{
    match window.refill(reader) {
        Filled::Failed => return Err(HttpFault::Read),
        Filled::Ended => return Err(HttpFault::Short),
        Filled::More => {}
    }
    let bytes = window.bytes();
    if bytes[0] != wanted {
        return Err(HttpFault::BadChunk);
    }
    window.skip(1);
    Ok(())
}

// Reads `size` bytes and appends them to a body, which has at most `most` bytes then.
fn read_data<A: Allocator + Copy, I: Read>(
    alloc: A,
    reader: &mut Counted<I>,
    window: &mut Window,
    body: &mut Vec<u8, A>,
    size: usize,
    most: usize,
) -> Result<(), HttpFault>
    requires { vec_len body.old + size ≤ most }
    ensures { ReadsData size (passage I.remaining reader.old reader.new) window.old window.new
        body.old.items body.new.items result }
{
    let mut left = size;
    while left > 0 {
        match window.refill(reader) {
            Filled::Failed => return Err(HttpFault::Read),
            Filled::Ended => return Err(HttpFault::Short),
            Filled::More => {}
        }
        let bytes = window.bytes();
        let n = left.min(bytes.len());
        let Ok(()) = append(alloc, body, &bytes[..n], most) else {
            return Err(HttpFault::OutOfMemory);
        };
        window.skip(n);
        left -= n;
    }
    Ok(())
}

// Reads a chunk's data, appends them to a body, which has at most `most` bytes then, and reads the CR LF after them.
fn read_chunk<A: Allocator + Copy, I: Read>(
    alloc: A,
    reader: &mut Counted<I>,
    window: &mut Window,
    body: &mut Vec<u8, A>,
    size: usize,
    most: usize,
) -> Result<(), HttpFault>
    requires { vec_len body.old + size ≤ most }
    ensures { ReadsChunk size (passage I.remaining reader.old reader.new) window.old window.new
        body.old.items body.new.items result }
{
    read_data(alloc, reader, window, body, size, most)?;
    read_byte(reader, window, b'\r')?;
    read_byte(reader, window, b'\n')?;
    Ok(())
}

/// Reads a chunked body up to the line of its last chunk. `begun` is the part that came with the head. The list grows
/// as the data come. What follows that line, such as trailers, isn't read: the connection is closed then.
pub(crate) fn read_chunks<A: Allocator + Copy, I: Read>(
    alloc: A,
    reader: &mut Counted<I>,
    begun: &[u8],
    limit: usize,
) -> Result<Vec<u8, A>, HttpFault>
    requires { length begun.now ≤ 16384 }
    ensures { Receives (λ rest r. ChunksDecide limit (begun.now ++ rest) r)
        (passage I.remaining reader.old reader.new) (outcome result) }
{
    let mut body = Vec::new(alloc);
    let mut window = Window::new(begun);
    loop {
        let size = read_line(reader, &mut window)?;
        if size == 0 {
            return Ok(body);
        }
        if size > (limit - body.len()) as u64 {
            return Err(HttpFault::TooLarge);
        }
        read_chunk(alloc, reader, &mut window, &mut body, size as usize, limit)?;
    }
}
