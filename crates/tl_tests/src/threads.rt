//! Two threads: one publishes, and one reads without waiting. Each answer is that of a size that was published.

ghost use Rattle.std.specs.Prelude.{◌≡◌, IfOk};
ghost use Rattle.tl_publisher.specs.Operating.{IsOperating};

use crate::logs::{Sender, found, grown, opened, send, signers, size_of};
use std::alloc::{AllocError, Global};
use std::sync::atomic::{AtomicU64, Ordering};
use std::sync::{Arc, Wait};
use std::test::Fail;
use std::thread;
use std::thread::Threads;
use tl_publisher::{BoardReader, Operator, RunningLog};
use tl_tile::{Resource, Tile};

// How often a thread tries before it gives up.
const TRIES: u64 = 10_000_000;

// The bundle of three entries, of which each shorter one is a part.
const BUNDLE: &[u8] = b"\0\x01x\0\x01y\0\x01z";

// Reports whether the reader finds the checkpoint, the first bundle and the first tile of a published size, at most
// 3.
fn is_whole(alloc: Global, reader: &mut BoardReader<Global>, size: u32) -> bool {
    let bundle = Resource::Entries {
        index: 0,
        width: size,
    };
    let tile = Resource::Tile(Tile {
        level: 0,
        index: 0,
        width: size,
    });
    let bytes = BUNDLE.get(..3 * size as usize);
    let length = Some(32 * size as usize);
    found(alloc, reader, Resource::Checkpoint).is_some()
        && found(alloc, reader, bundle).is_some_and(|found| Some(found.as_slice()) == bytes)
        && found(alloc, reader, tile).map(|found| found.len()) == length
}

// Reads until the log has this size, at most 3, and reports whether it then has all of it, and had at each size
// before.
fn sees(alloc: Global, reader: &mut BoardReader<Global>, size: u32) -> bool {
    for _ in 0..TRIES {
        let now = size_of(reader).unwrap_or(0);
        if now > 3 || (now > 0 && !is_whole(alloc, reader, now as u32)) {
            return false;
        }
        if now == size as u64 {
            return true;
        }
        thread::yield_now();
    }
    false
}

// Reads the sizes 1, 2 and 3, and raises the flag after each.
fn watch(alloc: Global, reader: BoardReader<Global>, flag: Arc<AtomicU64>) -> bool {
    let mut reader = reader;
    for size in [1u32, 2, 3] {
        if !sees(alloc, &mut reader, size) {
            return false;
        }
        flag.store(size as u64, Ordering::SeqCst);
    }
    true
}

// Waits until the flag has this number.
fn is_raised(flag: &AtomicU64, number: u64) -> bool {
    for _ in 0..TRIES {
        if flag.load(Ordering::SeqCst) == number {
            return true;
        }
        thread::yield_now();
    }
    false
}

// Publishes one entry more, and waits until the reader saw it.
fn show_next<R: Wait + Drop>(operator: &mut Operator<R>, flag: &AtomicU64, size: u64) -> bool
    requires { IsOperating (⟦<Operator<R> as RunningLog>⟧.state operator.old) }
    ensures { IsOperating (⟦<Operator<R> as RunningLog>⟧.state operator.new) }
{
    grown(operator, 0) == Some(size) && is_raised(flag, size)
}

// Publishes three entries, each once the reader saw the one before.
fn show_three<R: Wait + Drop>(operator: &mut Operator<R>, flag: &AtomicU64) -> bool
    requires { IsOperating (⟦<Operator<R> as RunningLog>⟧.state operator.old) }
{
    show_next(operator, flag, 1) && show_next(operator, flag, 2) && show_next(operator, flag, 3)
}

// Sends three entries of a byte each, and reports whether each was taken.
fn are_sent(alloc: Global, submitter: &mut Sender) -> Result<bool, AllocError> {
    Ok(
        send(alloc, submitter, b"x")?
            && send(alloc, submitter, b"y")?
            && send(alloc, submitter, b"z")?,
    )
}

// Returns a log with three entries to take, and its reader.
fn filled<R: Wait + Drop>(rt: R, alloc: Global) -> Result<(Operator<R>, BoardReader<Global>), Fail>
    ensures { IfOk result (λ r. IsOperating (⟦<Operator<R> as RunningLog>⟧.state r.0)) }
{
    let keys = signers(alloc)?;
    let (operator, mut submitters, reader) = opened(rt, alloc, keys, 1, 4, 9)?;
    let mut submitter = submitters.pop().ok_or("no submitter")?;
    if !are_sent(alloc, &mut submitter)? {
        return Err(Fail::new("an entry was not taken"));
    }
    Ok((operator, reader))
}

// Publishes three entries one by one, each once the reader saw the one before, and reports whether both threads saw
// that.
fn are_shown<R: Threads + Wait>(rt: &R, alloc: Global) -> Result<bool, Fail> {
    let (mut operator, reader) = filled(rt, alloc)?;
    let flag = Arc::new(alloc, AtomicU64::new(0))?;
    let theirs = Arc::try_clone(&flag)?;
    let watcher = thread::spawn(rt, move || watch(alloc, reader, theirs))?;
    let are_shown = show_three(&mut operator, &flag);
    Ok(watcher.join(rt) && are_shown)
}

#[test]
fn reader_sees_each_size_in_turn(rt: HostRuntime) -> Result<(), Fail> {
    for _ in 0..100 {
        assert!(rt; are_shown(&rt, rt.alloc())?);
    }
    Ok(())
}
