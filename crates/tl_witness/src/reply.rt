//! The answer of a witness.

ghost use Rattle.std.specs.Prelude.{◌≡◌, [], IfOk};
ghost use Rattle.tl_text.specs.Text.{line, number_text};

use itoa::Buffer;
use std::alloc::{AllocError, Allocator};

/// An HTTP status and a body (C2SP tlog-witness, "add-checkpoint").
#[derive(Debug, Drop)]
pub struct Reply<A: Allocator> {
    /// 200, 400, 403, 404, 409, 422 or 500.
    pub status: u16,
    /// With 200 a cosignature line, with 409 the last cosigned size in decimal and a newline; else empty.
    pub body: Vec<u8, A>,
}

/// Returns the reply with this status and no body. It allocates nothing.
pub(crate) fn refusal<A: Allocator>(alloc: A, status: u16) -> Reply<A>
    ensures status { result.status ≡ status }
    ensures body { result.body.items ≡ [] }
{
    Reply {
        status,
        body: Vec::new(alloc),
    }
}

/// Returns the reply 409 with the last cosigned size and a newline. It fails only if allocation fails.
pub(crate) fn conflict<A: Allocator>(alloc: A, size: u64) -> Result<Reply<A>, AllocError>
    ensures { IfOk result
        (λ reply. (reply.status ≡ 409) × (reply.body.items ≡ line (number_text size))) }
{
    let mut body = Vec::from_slice(alloc, Buffer::new().format(size).as_bytes())?;
    body.push(b'\n')?;
    Ok(Reply { status: 409, body })
}
