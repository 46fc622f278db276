//! Reading the state of a witness as a stream. Of each origin only its last head is kept.

ghost use Rattle.std.specs.Prelude.{◌≡◌, ◌<◌, IfErr, IfOk, IsSomeAnd, OnErr, length, option_map};
ghost use Rattle.tl_device.specs.Device.{passage};
ghost use Rattle.tl_logs.specs.ReadLogs.{logs_shown};
ghost use Rattle.tl_logs.specs.ReadState.{CompactsState, ReadsState, heads_shown};
ghost use Rattle.tl_logs.specs.StateFaults.{RefusesReading};
ghost use Rattle.tl_logs.specs.Inner.Counting.{counts_of};
ghost use Rattle.tl_logs.specs.State.{KnowsHeads, of_logs};

use crate::head::{OriginHead, whole_lines};
use crate::known::Counting;
use crate::log::KnownLog;
use crate::state_fault::StateFault;
use crate::state_reading::StateReading;
use std::alloc::{AllocError, Allocator};
use std::io::Read;
use tl_device::Counted;
use tl_hash::TreeHash;

// The number of bytes of a read.
const BLOCK: usize = 65_536;

// A state must be shorter than this: 2^62 bytes.
const MOST_BYTES: u64 = 4_611_686_018_427_387_904;

// Returns which origins count.
fn counting_of<A: Allocator + Copy>(
    alloc: A,
    logs: Option<&[KnownLog<A>]>,
) -> Result<Counting<A>, AllocError>
    ensures counts { IfOk result (λ counting.
        counts_of counting ≡ of_logs (option_map (λ l. logs_shown l.now) logs.entry)) }
    ensures memory { OnErr result
        (IsSomeAnd (option_map (λ l. logs_shown l.now) logs.entry) (λ known. 0 < length known)) }
{
    match logs {
        Some(logs) => Counting::of(alloc, logs),
        None => Ok(Counting::all()),
    }
}

// Returns the heads of the origins that count.
fn read_counting<T: TreeHash, A: Allocator + Copy, R: Read>(
    alloc: A,
    tree: T,
    counting: &Counting<A>,
    reader: &mut Counted<R>,
) -> Result<Vec<OriginHead<A>, A>, StateFault>
    ensures heads { IfOk result (λ heads. KnowsHeads T.digest_of (counts_of counting.now)
        (passage R.remaining reader.old reader.new) (heads_shown heads.items)) }
    ensures refused { IfErr result (RefusesReading T.digest_of (counts_of counting.now)
        (passage R.remaining reader.old reader.new)) }
{
    let mut reading = StateReading::new(alloc, tree);
    let mut block = [0u8; BLOCK];
    let mut count: u64 = 0;
    while count < MOST_BYTES {
        let Some(some) = reader.read_some(&mut block) else {
            return Err(StateFault::Read);
        };
        if some == 0 {
            return reading.end();
        }
        match reading.take_block(counting, &block[..some]) {
            Ok(()) => {}
            Err(fault) => return Err(fault),
        }
        count += some as u64;
    }
    Err(StateFault::TooLarge)
}

/// Returns the head that the saved links of each origin lead to, in the order of the first lines: of the origins of
/// these logs, or of all if `logs` is `None`. Reads the lines one by one, and checks each that counts against the one
/// before of its origin. The error has the first line that is wrong. The last line must end with a newline. Only one
/// line and the heads are in memory. The time grows with the bytes and the logarithm of the number of origins.
pub fn read_state<T: TreeHash, A: Allocator + Copy, R: Read>(
    alloc: A,
    tree: T,
    logs: Option<&[KnownLog<A>]>,
    reader: &mut Counted<R>,
) -> Result<Vec<OriginHead<A>, A>, StateFault>
    ensures { ReadsState T.digest_of (option_map (λ l. logs_shown l.now) logs.entry)
        (passage R.remaining reader.old reader.new) result }
{
    let counting = counting_of(alloc, logs)?;
    read_counting(alloc, tree, &counting, reader)
}

/// Returns a state that has one line for each origin, from size 0 without a proof, and leads to the same heads as the
/// one read. It has all origins of that state, in the order of their first lines, and every line is checked.
pub fn compact_state<T: TreeHash, A: Allocator + Copy, R: Read>(
    alloc: A,
    tree: T,
    reader: &mut Counted<R>,
) -> Result<String<A>, StateFault>
    ensures { CompactsState T.digest_of (passage R.remaining reader.old reader.new) result }
{
    let heads = match read_counting(alloc, tree, &Counting::all(), reader) {
        Ok(heads) => heads,
        Err(fault) => return Err(fault),
    };
    match whole_lines(alloc, heads.as_slice()) {
        Ok(lines) => Ok(lines),
        Err(_) => Err(StateFault::OutOfMemory),
    }
}
