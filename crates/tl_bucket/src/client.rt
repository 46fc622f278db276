//! How an operator reaches its bucket.

ghost use Rattle.std.specs.Prelude.{◌≡◌, IfOk, Ok, OnOk};
ghost use Rattle.tl_bucket.specs.Answered.{AnswersGet, AnswersPut};
ghost use Rattle.tl_s3.specs.Answers.{get_told, put_told};
ghost use Rattle.tl_s3.specs.Objects.{content_of, place_of};

use crate::fault::BucketFault;
use std::alloc::Global;
use std::marker::Model;
use std::net::{Net, TcpStream};
use std::time::{Clock, Duration, Instant, SystemTime, UNIX_EPOCH};
use tl_device::{Counted, DeviceFault, Timed};
use tl_s3::{
    Bucket, Condition, Credential, GetReply, Moment, Object, PutReply, get_object, put_object,
};
use tl_source::{Url, connect};

// Returns the most time that one request takes.
fn request_time() -> Duration {
    Duration::from_secs(10)
}

/// A bucket, and how its store is reached: what connects, and the credential that signs. Contracts see the bucket.
#[derive(Drop)]
pub struct Client<'b, H> {
    pub(crate) rt: &'b H,
    pub(crate) alloc: Global,
    pub(crate) url: Url<'b>,
    pub(crate) bucket: Bucket<'b>,
}

impl<'b, H> Model for Client<'b, H> {
    ghost use Rattle.tl_s3.specs.Objects.{Place, place_of};

    ghost Value = { Place };

    ghost view = { λ c. place_of c.bucket };
}

impl<'b, H> Client<'b, H> {
    ghost use Rattle.tl_s3.specs.CanonicalRequests.{credential_of};

    /// Creates a client of the bucket at this address. What follows the host and the port is the prefix of each
    /// object's path. Nothing is requested yet.
    pub fn new(rt: &'b H, alloc: Global, url: Url<'b>, credential: Credential<'b>) -> Client<'b, H>
        ensures host { result.host ≡ url.entry.authority.now }
        ensures prefix { result.prefix ≡ url.entry.prefix.now }
        ensures credential { result.credential ≡ credential_of credential.entry }
    {
        let bucket = Bucket {
            host: url.authority,
            prefix: url.prefix,
            credential,
        };
        Client {
            rt,
            alloc,
            url,
            bucket,
        }
    }

    /// Returns another client of the same bucket.
    pub(crate) fn again(&self) -> Client<'b, H>
        ensures { result ≡ self.now }
    {
        Client {
            rt: self.rt,
            alloc: self.alloc,
            url: self.url,
            bucket: self.bucket,
        }
    }
}

// Returns the time of the machine's clock, to the second.
fn moment_now<H: Clock>(rt: &H) -> Result<Moment, DeviceFault> {
    let Ok(since) = SystemTime::now(rt)?.duration_since(UNIX_EPOCH) else {
        return Err(DeviceFault::System);
    };
    match Moment::from_unix_seconds(since.as_secs()) {
        Some(moment) => Ok(moment),
        None => Err(DeviceFault::System),
    }
}

// Reports whether a request that began at `start` has used up its time.
fn is_late<H: Clock>(rt: &H, start: &Instant) -> bool {
    match start.elapsed(rt) {
        Ok(elapsed) => elapsed >= request_time(),
        Err(_) => false,
    }
}

impl<H: Clock> Client<'_, H> {
    // Puts an object over this connection, and returns the answer.
    fn put_over(
        &self,
        stream: &TcpStream,
        start: Instant,
        object: &Object<'_>,
        condition: Condition<'_>,
    ) -> Result<PutReply<Global>, BucketFault>
        ensures { IfOk result (λ reply. AnswersPut self.now (content_of object.now) condition.entry
            (put_told (Ok reply))) }
    {
        let moment = moment_now(self.rt)?;
        let mut reader = Counted::new(Timed::new(self.rt, stream, start, request_time()));
        let mut writer = Counted::new(Timed::new(self.rt, stream, start, request_time()));
        let (alloc, bucket) = (self.alloc, &self.bucket);
        match put_object(
            alloc,
            &mut reader,
            &mut writer,
            bucket,
            &moment,
            object,
            condition,
        ) {
            Ok(reply) => Ok(reply),
            Err(fault) => Err(BucketFault::of_request(fault, is_late(self.rt, &start))),
        }
    }

    // Gets an object over this connection, and returns the answer.
    fn get_over(
        &self,
        stream: &TcpStream,
        start: Instant,
        path: &str,
        limit: usize,
    ) -> Result<GetReply<Global>, BucketFault>
        ensures { IfOk result (λ reply. AnswersGet self.now path.now limit (get_told (Ok reply))) }
    {
        let moment = moment_now(self.rt)?;
        let mut reader = Counted::new(Timed::new(self.rt, stream, start, request_time()));
        let mut writer = Counted::new(Timed::new(self.rt, stream, start, request_time()));
        let (alloc, bucket) = (self.alloc, &self.bucket);
        match get_object(
            alloc,
            &mut reader,
            &mut writer,
            bucket,
            &moment,
            path,
            limit,
        ) {
            Ok(reply) => Ok(reply),
            Err(fault) => Err(BucketFault::of_request(fault, is_late(self.rt, &start))),
        }
    }
}

/// A connection that is kept between requests, if the last answer left it open.
#[derive(Drop)]
pub(crate) struct Connection {
    stream: Option<TcpStream>,
}

impl Connection {
    /// Creates a connection that isn't open yet.
    pub(crate) fn new() -> Connection {
        Connection { stream: None }
    }

    // Returns the connection that was kept, or a new one.
    fn take<H: Net<Stream = TcpStream> + Clock>(
        &mut self,
        client: &Client<'_, H>,
        start: &Instant,
    ) -> Result<TcpStream, DeviceFault> {
        if let Some(stream) = self.stream.take() {
            return Ok(stream);
        }
        let stream = connect(client.rt, &client.url, start, request_time())?;
        stream.set_nodelay(true)?;
        Ok(stream)
    }

    /// Puts an object once, and returns the answer.
    pub(crate) fn put_once<H: Net<Stream = TcpStream> + Clock>(
        &mut self,
        client: &Client<'_, H>,
        object: &Object<'_>,
        condition: Condition<'_>,
    ) -> Result<PutReply<Global>, BucketFault>
        ensures { IfOk result (λ reply. AnswersPut client.now (content_of object.now)
            condition.entry (put_told (Ok reply))) }
    {
        let start = now(client.rt)?;
        let stream = self.take(client, &start)?;
        let reply = client.put_over(&stream, start, object, condition)?;
        if reply.stays_open {
            self.stream = Some(stream);
        }
        Ok(reply)
    }

    /// Gets an object once, and returns the answer.
    pub(crate) fn get_once<H: Net<Stream = TcpStream> + Clock>(
        &mut self,
        client: &Client<'_, H>,
        path: &str,
        limit: usize,
    ) -> Result<GetReply<Global>, BucketFault>
        ensures { IfOk result
            (λ reply. AnswersGet client.now path.now limit (get_told (Ok reply))) }
    {
        let start = now(client.rt)?;
        let stream = self.take(client, &start)?;
        let reply = client.get_over(&stream, start, path, limit)?;
        if reply.stays_open {
            self.stream = Some(stream);
        }
        Ok(reply)
    }
}

/// Returns the time of a clock that never goes back.
pub(crate) fn now<H: Clock>(rt: &H) -> Result<Instant, DeviceFault> {
    Ok(Instant::now(rt)?)
}
