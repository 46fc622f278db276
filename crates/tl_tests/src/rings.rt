//! A submitter on a thread of its own, over a ring of one entry.

use std::alloc::Global;
use std::test::Fail;
use std::thread;
use tl_sequencer::{Sequencer, Submitter, open};

// How often a thread tries before it gives up.
const TRIES: u64 = 10_000_000;

// Tries an entry until it is sent.
fn send_when_free(submitter: &mut Submitter<Global, Global>, entry: Vec<u8>) -> bool {
    let mut entry = entry;
    for _ in 0..TRIES {
        match submitter.submit(entry) {
            Ok(_) => return true,
            Err(refused) => entry = refused.entry,
        }
        thread::yield_now();
    }
    false
}

// Sends two entries, each when there is room.
fn send_both(submitter: Submitter<Global, Global>, first: Vec<u8>, second: Vec<u8>) -> bool {
    let mut submitter = submitter;
    send_when_free(&mut submitter, first) && send_when_free(&mut submitter, second)
}

// Takes until the log has two entries.
fn take_both(log: &mut Sequencer<Global, Global>) -> bool {
    for _ in 0..TRIES {
        if log.take(0, 2).is_err() {
            return false;
        }
        if log.len() == 2 {
            return true;
        }
        thread::yield_now();
    }
    false
}

#[test]
fn two_threads_over_a_ring_of_one(rt: HostRuntime) -> Result<(), Fail> {
    let alloc = rt.alloc();
    for _ in 0..100 {
        let (mut log, mut submitters) = open(alloc, 1, 1, 9)?;
        let submitter = submitters.pop().unwrap();
        let first = Vec::from_slice(alloc, b"first")?;
        let second = Vec::from_slice(alloc, b"second")?;
        let sends = thread::spawn(&rt, move || send_both(submitter, first, second))?;
        let took = take_both(&mut log);
        assert!(rt; sends.join(&rt));
        assert!(rt; took);
        assert!(rt; log.entry(0) == Some(b"first".as_slice()));
        assert!(rt; log.entry(1) == Some(b"second".as_slice()));
    }
    Ok(())
}
