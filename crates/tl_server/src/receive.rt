//! Receiving the body of a request.

ghost use Rattle.std.specs.Prelude.{◌≡◌};
ghost use Rattle.tl_device.specs.Device.{passage};
ghost use Rattle.tl_server.specs.Inner.Posts.{Receives};

use crate::body::{Body, read_body};
use crate::posted::Posted;
use std::alloc::Allocator;
use std::io::Read;
use tl_device::Counted;

/// The result of receiving a body.
#[derive(Drop)]
pub(crate) enum Received<A: Allocator> {
    /// A read failed.
    Failed,
    /// There is no body; the status to answer with.
    Refused(u16),
    /// The whole body.
    Whole(Vec<u8, A>),
}

/// Receives the body that a head announces. `part` is the part that came with the head.
pub(crate) fn receive<A: Allocator, I: Read>(
    alloc: A,
    reader: &mut Counted<I>,
    posted: Posted,
    part: &[u8],
) -> Received<A>
    ensures { Receives (passage I.remaining reader.old reader.new) posted part.now result }
{
    let most = match posted {
        Posted::OtherMethod => return Received::Refused(405),
        Posted::Unsized => return Received::Refused(400),
        Posted::TooLarge => return Received::Refused(413),
        Posted::Sized(most) => most,
    };
    match read_body(alloc, reader, part, most as usize) {
        Body::Failed => Received::Failed,
        Body::Cut => Received::Refused(400),
        Body::NoMemory => Received::Refused(500),
        Body::Whole(body) => Received::Whole(body),
    }
}
