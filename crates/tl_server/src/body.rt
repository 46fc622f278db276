//! Reading the body of a request.

ghost use Rattle.std.specs.Prelude.{◌≤◌, length};
ghost use Rattle.tl_device.specs.Device.{passage};
ghost use Rattle.tl_server.specs.Inner.Bodies.{Fills, ReadsBody};

use std::alloc::Allocator;
use std::io::Read;
use tl_device::Counted;

// The result of filling a buffer.
#[derive(Clone, Copy)]
pub(crate) enum Filled {
    // A read failed.
    Failed,
    // The input ended before it was full.
    Cut,
    // It is full.
    Whole,
}

// Fills a buffer from the index `from` on.
fn fill<I: Read>(reader: &mut Counted<I>, buf: &mut [u8], from: usize) -> Filled
    requires { from ≤ length buf.old }
    ensures { Fills (passage I.remaining reader.old reader.new) from buf.old buf.new result }
{
    let mut len = from;
    while len < buf.len() {
        let n = match reader.read_some(&mut buf[len..]) {
            None => return Filled::Failed,
            Some(n) => n,
        };
        if n == 0 {
            return Filled::Cut;
        }
        len += n;
    }
    Filled::Whole
}

/// The result of reading a body.
#[derive(Drop)]
pub(crate) enum Body<A: Allocator> {
    /// A read failed.
    Failed,
    /// The whole body.
    Whole(Vec<u8, A>),
    /// The input ended before the whole body came.
    Cut,
    /// Allocation failed.
    NoMemory,
}

/// Reads a body of `most` bytes, of which the first may have come with the head, into one buffer of that length.
pub(crate) fn read_body<A: Allocator, I: Read>(
    alloc: A,
    reader: &mut Counted<I>,
    begun: &[u8],
    most: usize,
) -> Body<A>
    ensures { ReadsBody (passage I.remaining reader.old reader.new) begun.now most result }
{
    if most == 0 {
        return Body::Whole(Vec::new(alloc));
    }
    let Ok(mut body) = Vec::from_elem(alloc, 0u8, most) else {
        return Body::NoMemory;
    };
    let len = begun.len().min(most);
    let buf = body.as_mut_slice();
    buf[..len].copy_from_slice(&begun[..len]);
    match fill(reader, buf, len) {
        Filled::Failed => Body::Failed,
        Filled::Cut => Body::Cut,
        Filled::Whole => Body::Whole(body),
    }
}
