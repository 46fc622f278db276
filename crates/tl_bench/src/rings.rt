//! Measures how many entries a second go through the rings of a sequencer, and through one lock.

use std::alloc::{AllocError, Global};
use std::sync::{Arc, Mutex, Wait};
use std::thread::Threads;
use std::time::{Clock, Duration, Instant};
use std::{io, thread};
use tl_sequencer::{Sequencer, Submitter, open};

const LANES: u32 = 4;

// How many entries each thread sends.
const EACH: u64 = 2_500_000;

const ENTRIES: u64 = 10_000_000;

const BYTES: usize = 32;

// The room in each ring, and the most entries that one `take` gives.
const CAPACITY: usize = 256;

const BATCH: u64 = 256;

// More entries than are sent, so that the log is never full.
const LIMIT: u64 = 4_294_967_295;

// Returns how many entries a second that is, or 0 if the time is too short to tell.
fn rate(took: Duration) -> u128 {
    match took.as_micros() {
        0 => 0,
        micros => u128::from(ENTRIES) * 1_000_000 / micros,
    }
}

// Sends an entry when there is room for it.
fn send_when_free(submitter: &mut Submitter<Global, Global>, entry: Vec<u8>) {
    let mut entry = entry;
    for _ in 0..u64::MAX {
        match submitter.submit(entry) {
            Ok(_) => return,
            Err(refused) => entry = refused.entry,
        }
        thread::yield_now();
    }
}

// Sends the entries of a lane's thread.
fn send_each(alloc: Global, submitter: Submitter<Global, Global>) -> Result<(), AllocError> {
    let mut submitter = submitter;
    for _ in 0..EACH {
        let entry = vec![in alloc; 7; BYTES]?;
        send_when_free(&mut submitter, entry);
    }
    Ok(())
}

// Takes from the lanes in turn until the log has all entries.
fn take_each(log: &mut Sequencer<Global, Global>) -> bool {
    for _ in 0..u64::MAX {
        let before = log.len();
        for lane in 0..LANES {
            if log.take(lane, BATCH).is_err() {
                return false;
            }
        }
        if log.len() >= ENTRIES {
            return true;
        }
        if log.len() == before {
            thread::yield_now();
        }
    }
    false
}

// Returns the time until all entries are in the log, or `None` if allocation fails.
fn through_rings<R: Threads + Clock>(rt: &R, alloc: Global) -> io::Result<Option<Duration>> {
    let Ok((mut log, submitters)) = open(alloc, LANES, CAPACITY, LIMIT) else {
        return Ok(None);
    };
    let start = Instant::now(rt)?;
    let mut threads = Vec::new(alloc);
    for submitter in submitters {
        threads.push(thread::spawn(rt, move || send_each(alloc, submitter))?)?;
    }
    let whole = take_each(&mut log);
    let took = start.elapsed(rt)?;
    for thread in threads {
        thread.join(rt)?;
    }
    Ok(whole.then_some(took))
}

// Pushes the entries of a thread onto a list behind a lock.
fn push_each(
    rt: &impl Wait,
    alloc: Global,
    log: &Mutex<Vec<(u32, Vec<u8>)>>,
    who: u32,
) -> Result<(), AllocError> {
    for _ in 0..EACH {
        let entry = vec![in alloc; 7; BYTES]?;
        log.lock(rt).push((who, entry))?;
    }
    Ok(())
}

// Returns the time until all entries are in the list.
fn through_lock<R: Threads + Wait + Clock + Copy + Send + 'static>(
    rt: &R,
    alloc: Global,
) -> io::Result<Duration> {
    let log = Arc::new(alloc, Mutex::new(Vec::new(alloc)))?;
    let start = Instant::now(rt)?;
    let mut threads = Vec::new(alloc);
    for who in 0..LANES {
        let theirs = Arc::try_clone(&log)?;
        let handle = *rt;
        threads.push(thread::spawn(rt, move || push_each(&handle, alloc, &theirs, who))?)?;
    }
    for thread in threads {
        thread.join(rt)?;
    }
    start.elapsed(rt)
}

/// Prints how many entries a second four threads get into one list, through rings of 256 with batches of 256, and
/// through a lock. Returns false if allocation fails.
pub fn sequencer<R: Threads + Wait + Clock + Print + Copy + Send + 'static>(
    rt: &R,
    alloc: Global,
) -> io::Result<bool> {
    let Some(took) = through_rings(rt, alloc)? else {
        return Ok(false);
    };
    println!(rt; "sequencer: rings {} entries a second", rate(took))?;
    let took = through_lock(rt, alloc)?;
    println!(rt; "sequencer: one lock {} entries a second", rate(took))?;
    Ok(true)
}
