//! Opening a log with its lanes.
ghost use Rattle.std.specs.Prelude.{◌≡◌, ◌≤◌, [], map, vec_items, vec_len, replicate, IfOk, IfErr, MatchOption};
ghost use Rattle.std.specs.List.{All};
ghost use Rattle.tl_sequencer.specs.Log.{IsShort};
ghost use Rattle.tl_sequencer.specs.Inner.Lanes.{IsNewLane, AreLanes};
ghost use Rattle.tl_sequencer.specs.Opened.{IsOpened};
ghost use Rattle.tl_sequencer.specs.Faults.{MayOpen, OpenRefuses};

use crate::fault::OpenFault;
use crate::lane::{Lane, ShortEntries};
use crate::sequencer::Sequencer;
use crate::submitter::Submitter;
use rtrb::RingBuffer;
use std::alloc::{AllocError, Allocator};

const MOST_LANES: u32 = 64;

const MOST_CAPACITY: usize = 65_536;

const MOST_ENTRIES: u64 = 4_294_967_295;

/// The entries that a log was to begin with, and why it wasn't opened.
#[derive(Drop)]
pub struct BaseBack<E: Allocator, A: Allocator> {
    /// The entries, as they were passed.
    pub base: Vec<Vec<u8, E>, A>,
    /// The first reason that applies.
    pub why: OpenFault,
}

// Returns the two ends of a new lane.
fn new_lane<E: Allocator, A: Allocator + Copy>(
    alloc: A,
    lane: u32,
    capacity: usize,
    limit: u64,
) -> Result<(Lane<E, A>, Submitter<E, A>), AllocError>
    ensures { IfOk result (λ r. IsNewLane capacity limit lane r.0 r.1) }
{
    let (producer, consumer) = RingBuffer::with_protocol::<A, ShortEntries>(alloc, capacity)?;
    Ok((Lane::new(consumer), Submitter::new(producer, lane, limit)))
}

// Returns this many new lanes.
pub(crate) fn new_lanes<E: Allocator, A: Allocator + Copy>(
    alloc: A,
    count: u32,
    capacity: usize,
    limit: u64,
) -> Result<(Vec<Lane<E, A>, A>, Vec<Submitter<E, A>, A>), AllocError>
    ensures { IfOk result (λ r. AreLanes count capacity limit r.0.items r.1.items) }
{
    let mut lanes = Vec::new(alloc);
    let mut submitters = Vec::new(alloc);
    for lane in 0..count {
        let (ours, theirs) = new_lane(alloc, lane, capacity, limit)?;
        lanes.push(ours)?;
        submitters.push(theirs)?;
    }
    Ok((lanes, submitters))
}

// Returns an empty list of places for each lane.
fn no_places<A: Allocator + Copy>(alloc: A, count: usize) -> Result<Vec<Vec<u64, A>, A>, AllocError>
    ensures { IfOk result (λ places. map vec_items places.items ≡ replicate count []) }
{
    let mut places = Vec::new(alloc);
    for _ in 0..count {
        places.push(Vec::new(alloc))?;
    }
    Ok(places)
}

// Returns the fault for the first number that is outside its bounds.
pub(crate) fn fault_of(lanes: u32, capacity: usize, limit: u64) -> Option<OpenFault>
    ensures { MatchOption result (MayOpen lanes capacity limit) (OpenRefuses lanes capacity limit) }
{
    if lanes < 1 || lanes > MOST_LANES {
        return Some(OpenFault::LaneCount);
    }
    if capacity < 1 || capacity > MOST_CAPACITY {
        return Some(OpenFault::Capacity);
    }
    if limit < 1 || limit > MOST_ENTRIES {
        return Some(OpenFault::Limit);
    }
    None
}

/// Opens an empty log of at most `limit` entries (1 to 4,294,967,295), with 1 to 64 lanes whose rings have room for
/// `capacity` entries each (1 to 65,536). It returns one submitter for each lane, in the order of the lanes.
pub fn open<E: Allocator, A: Allocator + Copy>(
    alloc: A,
    lanes: u32,
    capacity: usize,
    limit: u64,
) -> Result<(Sequencer<E, A>, Vec<Submitter<E, A>, A>), OpenFault>
    ensures opened { IfOk result (λ r. IsOpened [] lanes capacity limit r.0 r.1.items) }
    ensures bounds { IfOk result (λ _. MayOpen lanes capacity limit) }
    ensures refused { IfErr result (λ why. OpenRefuses lanes capacity limit why) }
{
    match open_from(alloc, Vec::new(alloc), lanes, capacity, limit) {
        Ok(opened) => Ok(opened),
        Err(back) => Err(back.why),
    }
}

/// Opens a log that begins with these entries: at most `limit`, none longer than 65,535 bytes. They are of no lane,
/// and count towards the limit. All else is as in `open`. If it fails, the fault returns the entries as they were.
pub fn open_from<E: Allocator, A: Allocator + Copy>(
    alloc: A,
    base: Vec<Vec<u8, E>, A>,
    lanes: u32,
    capacity: usize,
    limit: u64,
) -> Result<(Sequencer<E, A>, Vec<Submitter<E, A>, A>), BaseBack<E, A>>
    requires fits { vec_len base ≤ limit }
    requires short { All IsShort (map vec_items base.items) }
    ensures opened { IfOk result
        (λ r. IsOpened (map vec_items base.items) lanes capacity limit r.0 r.1.items) }
    ensures bounds { IfOk result (λ _. MayOpen lanes capacity limit) }
    ensures refused { IfErr result (λ back. OpenRefuses lanes capacity limit back.why) }
    ensures back { IfErr result (λ back. back.base ≡ base) }
{
    if let Some(why) = fault_of(lanes, capacity, limit) {
        return Err(BaseBack { base, why });
    }
    let Ok((lanes, submitters)) = new_lanes(alloc, lanes, capacity, limit) else {
        let why = OpenFault::OutOfMemory;
        return Err(BaseBack { base, why });
    };
    let Ok(places) = no_places(alloc, lanes.len()) else {
        let why = OpenFault::OutOfMemory;
        return Err(BaseBack { base, why });
    };
    let log = Sequencer::new(alloc, base, limit, lanes, places);
    Ok((log, submitters))
}
