//! Entries dealt out to lanes.

ghost use Rattle.std.specs.Prelude.{◌≡◌, ◌<◌, [], IfOk, OnErr, map, replicate, vec_items};
ghost use Rattle.tl_lines.specs.Dealt.{Deals};

use std::alloc::{AllocError, Allocator};

// Returns this many empty lists.
fn empty_lists<A: Allocator + Copy>(
    alloc: A,
    lanes: usize,
) -> Result<Vec<Vec<Vec<u8, A>, A>, A>, AllocError>
    ensures lists { IfOk result (λ lists. map vec_items lists.items ≡ replicate lanes []) }
    ensures memory { OnErr result (0 < lanes) }
{
    let mut lists = Vec::new(alloc);
    for _lane in 0..lanes {
        lists.push(Vec::new(alloc))?;
    }
    Ok(lists)
}

/// Deals entries out to lanes in turn: the first entry goes to the first lane, and so on, each once and in order. If
/// there is no lane, the entries are dropped. It fails only if allocation fails.
pub fn deal<A: Allocator + Copy>(
    alloc: A,
    entries: Vec<Vec<u8, A>, A>,
    lanes: usize,
) -> Result<Vec<Vec<Vec<u8, A>, A>, A>, AllocError>
    ensures dealt { IfOk result (λ lists. Deals lanes entries.items (map vec_items lists.items)) }
    ensures memory { OnErr result (0 < lanes) }
{
    let mut lists = empty_lists(alloc, lanes)?;
    if lanes == 0 {
        return Ok(lists);
    }
    let mut lane = 0usize;
    for entry in entries {
        let list = &mut lists[lane];
        list.push(entry)?;
        lane = if lane + 1 < lanes { lane + 1 } else { 0 };
    }
    Ok(lists)
}
