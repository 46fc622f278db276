//! Logs for tests, and single steps on them.
ghost use Rattle.std.specs.Prelude.{◌≡◌, IfOk};
ghost use Rattle.tl_publisher.specs.Operating.{IsOperating};

use std::alloc::{AllocError, Global};
use std::sync::Wait;
use tl_note::Signer;
use tl_publisher::{BoardReader, Operator, OperatorFault, PublishFault, RunningLog};
use tl_sequencer::Submitter;
use tl_testing::LengthKey;
use tl_tile::Resource;

/// The origin of each log.
pub const ORIGIN: &str = "example.com/log";

/// The identifier of its key.
pub const LOG_ID: u32 = 0x01020304;

/// What sends to a lane.
pub type Sender = Submitter<Global, Global>;

/// Returns the one signer of each log, the length key of its origin.
pub fn signers(alloc: Global) -> Result<Vec<Box<dyn Signer>>, AllocError> {
    let mut all: Vec<Box<dyn Signer>> = Vec::new(alloc);
    all.push(Box::new(alloc, LengthKey::new(alloc, ORIGIN, LOG_ID)?)?)?;
    Ok(all)
}

/// Returns a log with this many lanes and one reader, under these signers.
pub fn opened<R: Wait + Drop>(
    rt: R,
    alloc: Global,
    signers: Vec<Box<dyn Signer>>,
    lanes: u32,
    capacity: usize,
    limit: u64,
) -> Result<(Operator<R>, Vec<Sender>, BoardReader<Global>), OperatorFault>
    ensures operating { IfOk result (λ r. IsOperating (⟦<Operator<R> as RunningLog>⟧.state r.0)) }
    ensures follows { IfOk result (λ r. r.2.book ≡ (⟦<Operator<R> as RunningLog>⟧.state r.0).past.book) }
{
    let (operator, submitters, mut readers) = match Operator::open(
        rt, alloc, ORIGIN, signers, lanes, capacity, limit, 1,
    ) {
        Ok(opened) => opened,
        Err(fault) => return Err(fault),
    };
    let reader = readers.pop().unwrap();
    Ok((operator, submitters, reader))
}

/// Sends an entry, and reports whether it was taken.
pub fn send(alloc: Global, submitter: &mut Sender, entry: &[u8]) -> Result<bool, AllocError> {
    let entry = Vec::from_slice(alloc, entry)?;
    Ok(submitter.submit(entry).is_ok())
}

/// Takes up to `most` entries of a lane, and returns how many it took, or None if the call fails.
pub fn taken<R: Wait + Drop>(operator: &mut Operator<R>, lane: u32, most: u64) -> Option<u64>
    requires { IsOperating (⟦<Operator<R> as RunningLog>⟧.state operator.old) }
    ensures { IsOperating (⟦<Operator<R> as RunningLog>⟧.state operator.new) }
{
    match operator.take(lane, most) {
        Ok(count) => Some(count),
        Err(_) => None,
    }
}

/// Publishes the log, and returns its size.
pub fn published<R: Wait + Drop>(operator: &mut Operator<R>) -> Result<u64, PublishFault>
    requires { IsOperating (⟦<Operator<R> as RunningLog>⟧.state operator.old) }
    ensures { IsOperating (⟦<Operator<R> as RunningLog>⟧.state operator.new) }
{
    match operator.publish() {
        Ok(published) => Ok(published.size()),
        Err(fault) => Err(fault),
    }
}

/// Takes one entry of a lane and publishes the log. It returns the log's size.
pub fn grown<R: Wait + Drop>(operator: &mut Operator<R>, lane: u32) -> Option<u64>
    requires { IsOperating (⟦<Operator<R> as RunningLog>⟧.state operator.old) }
    ensures { IsOperating (⟦<Operator<R> as RunningLog>⟧.state operator.new) }
{
    let count = taken(operator, lane, 1);
    match published(operator) {
        Ok(size) if count == Some(1) => Some(size),
        _ => None,
    }
}

/// Returns what the reader finds under a resource, or None if it got no answer.
pub fn found(
    alloc: Global,
    reader: &mut BoardReader<Global>,
    resource: Resource,
) -> Option<Vec<u8>> {
    match reader.get(alloc, &resource) {
        Ok(found) => found,
        Err(_) => None,
    }
}

/// Returns the size that the reader sees, or None if it got no answer or nothing is published.
pub fn size_of(reader: &mut BoardReader<Global>) -> Option<u64> {
    match reader.head() {
        Ok(Some(head)) => Some(head.size),
        Ok(None) => None,
        Err(_) => None,
    }
}
