//! Reading the body of a response.

ghost use Rattle.std.specs.Prelude.{◌≤◌, ◌++◌, IfOk, length};
ghost use Rattle.tl_device.specs.Device.{passage};
ghost use Rattle.tl_http.specs.Get.{Receives};
ghost use Rattle.tl_http.specs.Response.{BodyDecides, outcome};
ghost use Rattle.tl_http.specs.Inner.Bodies.{FillsSized, FullBody, ReadsUpTo, TellsEnd};
ghost use Rattle.tl_http.specs.declared.framing.Framing.TheVariants.{Sized, UntilEnd};

use crate::chunks::read_chunks;
use crate::fault::HttpFault;
use crate::framing::Framing;
use crate::growth::append;
use crate::window::BLOCK;
use std::alloc::Allocator;
use std::io::Read;
use tl_device::Counted;

// The result of reading a body.
#[derive(Drop)]
pub(crate) enum Body<A: Allocator> {
    // A read failed.
    Failed,
    // An allocation failed.
    NoMemory,
    // The input ended after these bytes, fewer than were wanted.
    Ended(Vec<u8, A>),
    // All bytes that were wanted.
    Full(Vec<u8, A>),
}

// Reads up to `most` bytes of a body, of which the first may have come with the head. The list grows as they come.
fn read_up_to<A: Allocator + Copy, I: Read>(
    alloc: A,
    reader: &mut Counted<I>,
    begun: &[u8],
    most: usize,
) -> Body<A>
    ensures { ReadsUpTo (passage I.remaining reader.old reader.new) begun.now most result }
{
    let mut body = Vec::new(alloc);
    let mut block = [0u8; BLOCK];
    let Ok(()) = append(alloc, &mut body, &begun[..begun.len().min(most)], most) else {
        return Body::NoMemory;
    };
    while body.len() < most {
        let room = BLOCK.min(most - body.len());
        let n = match reader.read_some(&mut block[..room]) {
            None => return Body::Failed,
            Some(n) => n,
        };
        if n == 0 {
            return Body::Ended(body);
        }
        let Ok(()) = append(alloc, &mut body, &block[..n], most) else {
            return Body::NoMemory;
        };
    }
    Body::Full(body)
}

// Reports whether the input has ended. `None` if a read failed.
fn has_ended<I: Read>(reader: &mut Counted<I>) -> Option<bool>
    ensures { TellsEnd (passage I.remaining reader.old reader.new) result }
{
    let mut next = [0u8; 1];
    match reader.read_some(&mut next) {
        None => None,
        Some(n) => Some(n == 0),
    }
}

// Reads a body of `len` bytes.
fn read_sized<A: Allocator + Copy, I: Read>(
    alloc: A,
    reader: &mut Counted<I>,
    begun: &[u8],
    len: usize,
) -> Result<Vec<u8, A>, HttpFault>
    ensures decides { Receives (λ rest r. BodyDecides len (Sized len) (begun.now ++ rest) r)
        (passage I.remaining reader.old reader.new) (outcome result) }
    ensures full { IfOk result (λ body.
        FullBody (passage I.remaining reader.old reader.new) begun.now len body.items) }
{
    match read_up_to(alloc, reader, begun, len) {
        Body::Failed => Err(HttpFault::Read),
        Body::NoMemory => Err(HttpFault::OutOfMemory),
        Body::Ended(_) => Err(HttpFault::Short),
        Body::Full(body) => Ok(body),
    }
}

// Reads a body up to the end of the input, at most `limit` bytes.
fn read_rest<A: Allocator + Copy, I: Read>(
    alloc: A,
    reader: &mut Counted<I>,
    begun: &[u8],
    limit: usize,
) -> Result<Vec<u8, A>, HttpFault>
    ensures { Receives (λ rest r. BodyDecides limit UntilEnd (begun.now ++ rest) r)
        (passage I.remaining reader.old reader.new) (outcome result) }
{
    if begun.len() > limit {
        return Err(HttpFault::TooLarge);
    }
    let body = match read_up_to(alloc, reader, begun, limit) {
        Body::Failed => return Err(HttpFault::Read),
        Body::NoMemory => return Err(HttpFault::OutOfMemory),
        Body::Ended(body) => return Ok(body),
        Body::Full(body) => body,
    };
    match has_ended(reader) {
        None => Err(HttpFault::Read),
        Some(true) => Ok(body),
        Some(false) => Err(HttpFault::TooLarge),
    }
}

/// Reads the body that follows a head. `begun` is the part that came with the head.
pub(crate) fn read_body<A: Allocator + Copy, I: Read>(
    alloc: A,
    reader: &mut Counted<I>,
    begun: &[u8],
    framing: Framing,
    limit: usize,
) -> Result<Vec<u8, A>, HttpFault>
    requires { length begun.now ≤ 16384 }
    ensures decides { Receives (λ rest r. BodyDecides limit framing (begun.now ++ rest) r)
        (passage I.remaining reader.old reader.new) (outcome result) }
    ensures full { IfOk result (λ body.
        FillsSized framing (passage I.remaining reader.old reader.new) begun.now body.items) }
{
    match framing {
        Framing::UntilEnd => read_rest(alloc, reader, begun, limit),
        Framing::Sized(n) if n > limit as u64 => Err(HttpFault::TooLarge),
        Framing::Sized(n) => read_sized(alloc, reader, begun, n as usize),
        Framing::Chunked => read_chunks(alloc, reader, begun, limit),
    }
}
