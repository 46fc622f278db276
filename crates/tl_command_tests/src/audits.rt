//! What `audit` prints for two lists that only a weak digest accepts.

use std::alloc::Global;
use tl_command::run_audit;
use tl_device::Counted;
use tl_run::RunFault;
use tl_testing::SumDigest;

// An audit of two lists whose first two entries are exchanged. The two nodes of `a` and `b` have one sum.
const EXCHANGED: &[u8] =
    b"old 2\na\nb\nnew 3\nb\na\nc\nYwAAAAAAAAAAAAAAAAAAAAAAAAAAAAAAAAAAAAAAAAA=\n";

const COLLISION: &[u8] =
    b"collision\n0161000000000000000000000000000000000000000000000000000000000000006200000000000000000000000000000000000000000000000000000000000000\n0162000000000000000000000000000000000000000000000000000000000000006100000000000000000000000000000000000000000000000000000000000000\n";

// Reports whether an audit by the sum of bytes is refused with both nodes.
fn is_refused(alloc: Global) -> bool {
    let mut reader = Counted::new(EXCHANGED);
    let mut writer = Counted::new(Vec::new(alloc));
    let ended = run_audit(alloc, SumDigest, &mut reader, &mut writer);
    ended == Err(RunFault::Refused) && writer.into_inner().as_slice() == COLLISION
}

#[test]
fn an_audit_shows_a_collision(rt: HostRuntime) {
    assert!(rt; is_refused(rt.alloc()));
}
