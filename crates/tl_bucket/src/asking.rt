//! Requests that are sent again until their outcome is known.

ghost use Rattle.std.specs.Prelude.{◌≡◌, IfOk, IfSome};
ghost use Rattle.tl_bucket.specs.Answered.{WasReadWith};
ghost use Rattle.tl_bucket.specs.Inner.Outcomes.{Concludes, Finds, Tells};
ghost use Rattle.tl_http.specs.Post.{value_bytes};
ghost use Rattle.tl_s3.specs.Objects.{content_of};

use crate::client::{Client, Connection, now};
use crate::fault::BucketFault;
use memchr::memmem;
use std::alloc::Global;
use std::net::{Net, TcpStream};
use std::thread;
use std::time::{Clock, Duration, Instant};
use tl_device::DeviceFault;
use tl_s3::{Condition, GetAnswer, GetReply, Object, PutAnswer, PutReply};

// For how many seconds a request that fails is sent again.
const PATIENCE: u64 = 60;

// How many milliseconds pass before it is, at first and at most.
const FIRST_PAUSE: u64 = 50;

const LONGEST_PAUSE: u64 = 2000;

/// The most bytes of an object that is read: a commit of 65,536 of the longest entries has fewer.
pub(crate) const MOST_BYTES: usize = 1 << 33;

/// The outcome of putting an object.
#[derive(Drop)]
pub(crate) enum PutOutcome {
    /// It is there, with this entity tag.
    Done(Option<Vec<u8>>),
    /// The condition didn't hold: another object is there, or none.
    Refused,
}

/// An object that was found.
#[derive(Drop)]
pub(crate) struct Found {
    /// Its content.
    pub(crate) body: Vec<u8>,
    /// Its entity tag.
    pub(crate) etag: Option<Vec<u8>>,
}

// How long a store is waited for: since when, and how many milliseconds next.
#[derive(Drop)]
struct Patience {
    start: Instant,
    pause: u64,
}

impl Patience {
    // Begins to wait now.
    fn new<H: Clock>(rt: &H) -> Result<Patience, BucketFault> {
        Ok(Patience {
            start: now(rt)?,
            pause: FIRST_PAUSE,
        })
    }

    // Waits if the fault may pass and there is time left. Else returns the fault.
    fn wait<H: Clock>(&mut self, rt: &H, fault: BucketFault) -> Result<(), BucketFault> {
        let Ok(elapsed) = self.start.elapsed(rt) else {
            return Err(fault);
        };
        if !fault.is_passing() || elapsed.as_secs() >= PATIENCE {
            return Err(fault);
        }
        thread::sleep(rt, Duration::from_millis(self.pause));
        self.pause = self.pause.saturating_mul(2).min(LONGEST_PAUSE);
        Ok(())
    }
}

// Returns why a store refused a request with this status and this body.
fn refusal(status: u16, words: &[u8]) -> BucketFault {
    if memmem::find(words, b"<Code>RequestTimeTooSkewed</Code>").is_some() {
        return BucketFault::ClockIsOff;
    }
    if memmem::find(words, b"<Code>QuotaExceeded</Code>").is_some() {
        return BucketFault::Device(DeviceFault::Full);
    }
    if status == 501 {
        return BucketFault::NoConditions;
    }
    BucketFault::Device(DeviceFault::Status(status))
}

// Returns the outcome that the answer to a put shows by itself.
fn outcome_of(reply: PutReply<Global>) -> Result<PutOutcome, BucketFault>
    ensures { IfOk result (Tells reply.answer (value_bytes reply.etag)) }
{
    match reply.answer {
        PutAnswer::Done => Ok(PutOutcome::Done(reply.etag)),
        PutAnswer::Refused => Ok(PutOutcome::Refused),
        PutAnswer::Conflict => Err(BucketFault::Device(DeviceFault::Status(409))),
        PutAnswer::Other(status) => Err(refusal(status, reply.body.as_slice())),
    }
}

// Reports whether what is there has to be read to know the outcome of a put: if it has a condition, and the answer is
// neither that it is done nor why it never will be.
fn is_unclear(condition: &Condition<'_>, outcome: &Result<PutOutcome, BucketFault>) -> bool {
    match (condition, outcome) {
        (Condition::Always, _) => false,
        (_, Ok(PutOutcome::Done(_))) => false,
        (_, Ok(PutOutcome::Refused)) => true,
        (_, Err(fault)) => fault.is_passing(),
    }
}

impl Connection {
    // Puts an object once, and returns the outcome that the answer shows by itself.
    fn put_answered<H: Net<Stream = TcpStream> + Clock>(
        &mut self,
        client: &Client<'_, H>,
        object: &Object<'_>,
        condition: Condition<'_>,
    ) -> Result<PutOutcome, BucketFault>
        ensures { IfOk result (Concludes client.now (content_of object.now) condition.entry) }
    {
        match self.put_once(client, object, condition) {
            Ok(reply) => outcome_of(reply),
            Err(fault) => Err(fault),
        }
    }

    // Returns the entity tag of the object that is there, if it has this very content.
    fn find_same<H: Net<Stream = TcpStream> + Clock>(
        &mut self,
        client: &Client<'_, H>,
        object: &Object<'_>,
    ) -> Result<Option<Option<Vec<u8>>>, BucketFault>
        ensures { IfOk result (λ found. IfSome found (λ etag. WasReadWith client.now
            object.now.path.now object.now.body.now (value_bytes etag))) }
    {
        match self.find(client, object.path, MOST_BYTES)? {
            Some(found) if found.body.as_slice() == object.body => Ok(Some(found.etag)),
            _ => Ok(None),
        }
    }

    // Puts an object once, and reads it if the answer doesn't show the outcome.
    fn try_put<H: Net<Stream = TcpStream> + Clock>(
        &mut self,
        client: &Client<'_, H>,
        object: &Object<'_>,
        condition: Condition<'_>,
    ) -> Result<PutOutcome, BucketFault>
        ensures { IfOk result (Concludes client.now (content_of object.now) condition.entry) }
    {
        let outcome = self.put_answered(client, object, condition);
        if !is_unclear(&condition, &outcome) {
            return outcome;
        }
        match self.find_same(client, object)? {
            Some(tag) => Ok(PutOutcome::Done(tag)),
            None => outcome,
        }
    }

    /// Puts an object, again and again until the outcome is known or a minute is over. After a fault the object may
    /// be there.
    pub(crate) fn put<H: Net<Stream = TcpStream> + Clock>(
        &mut self,
        client: &Client<'_, H>,
        object: &Object<'_>,
        condition: Condition<'_>,
    ) -> Result<PutOutcome, BucketFault>
        ensures { IfOk result (Concludes client.now (content_of object.now) condition.entry) }
    {
        let mut patience = Patience::new(client.rt)?;
        for _ in 0..u64::MAX {
            match self.try_put(client, object, condition) {
                Ok(outcome) => return Ok(outcome),
                Err(fault) => patience.wait(client.rt, fault)?,
            }
        }
        Err(BucketFault::Device(DeviceFault::TimedOut))
    }

    // Asks once for an object.
    fn try_get<H: Net<Stream = TcpStream> + Clock>(
        &mut self,
        client: &Client<'_, H>,
        path: &str,
        limit: usize,
    ) -> Result<Option<Found>, BucketFault>
        ensures { IfOk result (Finds client.now path.now) }
    {
        let reply = self.get_once(client, path, limit)?;
        match reply.answer {
            GetAnswer::Found => Ok(Some(Found {
                body: reply.body,
                etag: reply.etag,
            })),
            GetAnswer::Missing => Ok(None),
            GetAnswer::Other(status) => Err(refusal(status, reply.body.as_slice())),
        }
    }

    /// Returns the object with this path, of at most `limit` bytes, or `None` if there is none. It asks again and
    /// again until that is known or a minute is over.
    pub(crate) fn find<H: Net<Stream = TcpStream> + Clock>(
        &mut self,
        client: &Client<'_, H>,
        path: &str,
        limit: usize,
    ) -> Result<Option<Found>, BucketFault>
        ensures { IfOk result (Finds client.now path.now) }
    {
        let mut patience = Patience::new(client.rt)?;
        for _ in 0..u64::MAX {
            match self.try_get(client, path, limit) {
                Ok(found) => return Ok(found),
                Err(fault) => patience.wait(client.rt, fault)?,
            }
        }
        Err(BucketFault::Device(DeviceFault::TimedOut))
    }
}
