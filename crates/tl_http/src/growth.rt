//! A body that grows as its bytes come.

ghost use Rattle.std.specs.Prelude.{◌≡◌, ◌+◌, ◌<◌, ◌≤◌, ◌++◌, OnOk, OnErr, length, vec_len, vec_capacity};

use std::alloc::{AllocError, Allocator};

// Makes room for `more` bytes in a body that has at most `most`. The room doubles, up to `most`.
fn make_room<A: Allocator + Copy>(
    alloc: A,
    body: &mut Vec<u8, A>,
    more: usize,
    most: usize,
) -> Result<(), AllocError>
    requires { vec_len body.old + more ≤ most }
    ensures kept { OnOk result (body.new.items ≡ body.old.items) }
    ensures room { OnOk result (vec_len body.new + more ≤ vec_capacity body.new) }
    ensures refused { OnErr result (0 < more) }
{
    let len = body.len() + more;
    if len <= body.capacity() {
        return Ok(());
    }
    let room = body.capacity().saturating_mul(2).max(len).min(most);
    let mut larger = Vec::with_capacity(alloc, room)?;
    larger.extend_from_slice(body.as_slice())?;
    *body = larger;
    Ok(())
}

/// Appends bytes to a body, which has at most `most` bytes then.
pub(crate) fn append<A: Allocator + Copy>(
    alloc: A,
    body: &mut Vec<u8, A>,
    bytes: &[u8],
    most: usize,
) -> Result<(), AllocError>
    requires { vec_len body.old + length bytes.now ≤ most }
    ensures appended { OnOk result (body.new.items ≡ body.old.items ++ bytes.now) }
    ensures len { OnOk result (vec_len body.new ≡ vec_len body.old + length bytes.now) }
    ensures refused { OnErr result (0 < length bytes.now) }
{
    make_room(alloc, body, bytes.len(), most)?;
    body.extend_from_slice(bytes)
}
