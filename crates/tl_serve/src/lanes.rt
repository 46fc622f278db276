//! How entries enter a log: by a thread for each lane.

ghost use Rattle.std.specs.Global.{Global as GlobalValue};
ghost use Rattle.std.specs.Prelude.{◌≡◌, All, IfOk, IfSome};
ghost use Rattle.tl_sequencer.specs.Log.{IsEndOf, IsSenderOf, Log};

use crate::gate::Gate;
use crate::signals::Signals;
use std::alloc::Global;
use std::snapshot::Snapshot;
use std::thread;
use std::thread::{Promise, PromisedHandle, Scope, Threads};
use tl_run::RunFault;
use tl_sequencer::{Ended, Submitter, Why};

/// A submitter, and the entries that it is to send.
#[derive(Drop)]
pub(crate) struct Sending {
    pub(crate) submitter: Submitter<Global, Global>,
    pub(crate) entries: Vec<Vec<u8>>,
}

/// The end of a lane, if it could be closed, and how many entries there were to send, as far as
/// that is known.
#[derive(Drop)]
pub(crate) struct Sent {
    pub(crate) ended: Option<Ended<Global, Global>>,
    pub(crate) count: u64,
}

/// The promise that an end is of this submitter.
#[derive(Drop)]
pub(crate) struct EndOf(pub(crate) Snapshot<Submitter<Global, Global>>);

impl Promise<Sent> for EndOf {
    ghost use Rattle.std.specs.Prelude.{◌≡◌, IfSome};

    ghost kept_by = { λ p r.
        IfSome r.ended (λ e. (e.ring ≡ p.0.value.ring) × (e.lane ≡ p.0.value.lane)) };
}

/// The thread of a lane.
pub(crate) type LaneThread = PromisedHandle<Sent, EndOf>;

/// Sends one entry, and tries again while the lane is full. Gives up once nothing more is taken.
/// Reports whether it was sent.
pub(crate) fn send_one(
    submitter: &mut Submitter<Global, Global>,
    entry: Vec<u8>,
    signals: &Signals,
) -> bool
    ensures { (submitter.new.ring ≡ submitter.old.ring)
        × (submitter.new.lane ≡ submitter.old.lane) }
{
    let mut entry = entry;
    for _ in 0..u64::MAX {
        if signals.is_stopped() {
            return false;
        }
        match submitter.submit(entry) {
            Ok(_) => {
                signals.notify_entries();
                return true;
            }
            Err(refused) => {
                if refused.why != Why::Full {
                    return false;
                }
                entry = refused.entry;
                thread::yield_now();
            }
        }
    }
    false
}

// Sends all entries, and closes the submitter.
fn send_all(
    submitter: Submitter<Global, Global>,
    entries: Vec<Vec<u8>>,
    signals: &Signals,
) -> Option<Ended<Global, Global>>
    ensures { IfSome result (λ e. (e.ring ≡ submitter.ring) × (e.lane ≡ submitter.lane)) }
{
    let mut submitter = submitter;
    for entry in entries {
        if !send_one(&mut submitter, entry, signals) {
            break;
        }
    }
    submitter.close()
}

// Passes the gate, and then sends the entries of a lane.
fn send_lane<G: Gate>(gate: &G, lane: Sending, signals: &Signals) -> Sent
    ensures { IfSome result.ended
        (λ e. (e.ring ≡ lane.submitter.ring) × (e.lane ≡ lane.submitter.lane)) }
{
    let Sending { submitter, entries } = lane;
    let count = entries.len() as u64;
    gate.pass(submitter.lane());
    let ended = send_all(submitter, entries, signals);
    signals.end_sending();
    Sent { ended, count }
}

// Starts the thread of a lane. It promises that its end is of the lane's submitter.
fn start_lane<'s, E, G: Gate>(
    scope: &'s Scope<'s, E>,
    gate: &'s G,
    lane: Sending,
    signals: &'s Signals,
) -> Result<LaneThread, RunFault>
    ensures { IfOk result (λ h. h.promise.0.value ≡ lane.submitter) }
{
    let promise = EndOf(Snapshot::of(&lane.submitter));
    let job = move || -> Sent
        ensures { IfSome result.ended
            (λ e. (e.ring ≡ lane.submitter.ring) × (e.lane ≡ lane.submitter.lane)) }
    { send_lane(gate, lane, signals) };
    signals.begin_sending();
    match scope.spawn_with(promise, job) {
        Ok(handle) => Ok(handle),
        Err(_) => {
            signals.end_sending();
            Err(RunFault::OutOfMemory)
        }
    }
}

/// Starts a thread for each lane. Each promises that its end is of the lane's submitter.
pub(crate) fn start_lanes<'s, E, G: Gate>(
    scope: &'s Scope<'s, E>,
    alloc: Global,
    gate: &'s G,
    lanes: Vec<Sending>,
    signals: &'s Signals,
) -> Result<Vec<LaneThread>, RunFault>
    ensures { (log : Log GlobalValue) → All (λ l. IsSenderOf l.submitter log) lanes.items
        → IfOk result (λ threads. All (λ h. IsSenderOf h.promise.0.value log) threads.items) }
{
    let mut threads = Vec::new(alloc);
    for lane in lanes {
        let thread = start_lane(scope, gate, lane, signals)?;
        threads.push(thread)?;
    }
    Ok(threads)
}

/// What the threads of the lanes returned: their ends, and how many entries there were to send.
#[derive(Drop)]
pub(crate) struct AllSent {
    pub(crate) ends: Vec<Ended<Global, Global>>,
    pub(crate) count: u64,
}

/// Waits for the threads of the lanes. The ends are of the submitters that the threads were given.
pub(crate) fn join_lanes<T: Threads>(
    rt: &T,
    alloc: Global,
    threads: Vec<LaneThread>,
) -> Result<AllSent, RunFault>
    ensures { (log : Log GlobalValue) → All (λ h. IsSenderOf h.promise.0.value log) threads.items
        → IfOk result (λ sent. All (λ e. IsEndOf e log) sent.ends.items) }
{
    let mut ends = Vec::new(alloc);
    let mut count = 0u64;
    for thread in threads {
        let Sent { ended, count: own } = thread.join(rt);
        count = count.saturating_add(own);
        let Some(ended) = ended else {
            continue;
        };
        ends.push(ended)?;
    }
    Ok(AllSent { ends, count })
}
