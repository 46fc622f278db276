//! One request to a host, over a connection that may be kept.

ghost use Rattle.std.specs.Prelude.{◌≡◌};
ghost use Rattle.tl_http.specs.Exchange.{sought};
ghost use Rattle.tl_http.specs.Message.{sent};
ghost use Rattle.tl_source.specs.Calling.{Calls};
ghost use Rattle.tl_source.specs.Lacking.{after_call};

use crate::heard::Heard;
use crate::host::{LogHost, connect, why_none};
use std::alloc::Global;
use std::net::{Net, TcpStream};
use std::time::{Clock, Duration, Instant};
use tl_device::{Counted, DeviceFault, Timed};
use tl_http::{HttpFault, Message, Response, exchange};

/// Why a request has no response.
#[derive(Clone, Copy, Debug, PartialEq, Eq)]
pub enum CallFault {
    /// The host can't be reached, or the clock can't be read.
    Unreached(DeviceFault),
    /// The request failed.
    Failed {
        /// How it failed.
        fault: HttpFault,
        /// Whether its time was over.
        is_late: bool,
    },
}

impl CallFault {
    /// Returns why the host failed: why it can't be reached, or how the request failed.
    pub fn reason(self) -> DeviceFault
        ensures { result ≡ after_call self }
    {
        match self {
            CallFault::Unreached(why) => why,
            CallFault::Failed { fault, is_late } => why_none(fault, is_late),
        }
    }
}

// Reports whether `limit` has passed since `start`.
fn is_late<H: Clock>(rt: &H, start: &Instant, limit: Duration) -> bool {
    match start.elapsed(rt) {
        Ok(elapsed) => elapsed >= limit,
        Err(_) => false,
    }
}

// What came of a request, and whether a byte of an answer did.
#[derive(Drop)]
struct Tried {
    outcome: Result<Response<Global>, CallFault>,
    was_heard: bool,
}

// Sends the message over a connection, within the host's limit since `start`.
fn call_over<H: Clock>(
    rt: &H,
    alloc: Global,
    limit: Duration,
    start: Instant,
    stream: &TcpStream,
    message: &Message<'_>,
    most: usize,
) -> Tried
    ensures { Calls (sent message.now) (sought message.now most) result.outcome }
{
    let mut reader = Counted::new(Heard::new(Timed::new(rt, stream, start, limit)));
    let mut writer = Counted::new(Timed::new(rt, stream, start, limit));
    let outcome = match exchange(alloc, &mut reader, &mut writer, message, most) {
        Ok(response) => Ok(response),
        Err(fault) => Err(CallFault::Failed {
            fault,
            is_late: is_late(rt, &start, limit),
        }),
    };
    Tried {
        outcome,
        was_heard: reader.into_inner().has_given(),
    }
}

// Reports whether a kept connection was closed before a byte of an answer came, or the host said that it had waited
// too long for a request (RFC 9110, section 15.5.9).
fn was_closed(tried: &Tried) -> bool {
    match &tried.outcome {
        Err(
            CallFault::Failed {
                fault: HttpFault::Status(408),
                is_late: _,
            },
        ) => true,
        Err(
            CallFault::Failed {
                fault: HttpFault::Read | HttpFault::Write | HttpFault::NoHead,
                is_late: false,
            },
        ) => !tried.was_heard,
        _ => false,
    }
}

// Sends the message over a connection, and keeps the connection if it stays open.
fn call_keeping<H: Clock>(
    rt: &H,
    alloc: Global,
    limit: Duration,
    start: Instant,
    stream: TcpStream,
    idle: &mut Option<TcpStream>,
    message: &Message<'_>,
    most: usize,
) -> Tried
    ensures { Calls (sent message.now) (sought message.now most) result.outcome }
{
    let tried = call_over(rt, alloc, limit, start, &stream, message, most);
    if stays_open(&tried) {
        *idle = Some(stream);
    }
    tried
}

// Reports whether the connection can carry another request.
fn stays_open(tried: &Tried) -> bool {
    match &tried.outcome {
        Ok(response) => response.stays_open,
        Err(_) => false,
    }
}

// Sends the message over a new connection, and keeps the connection if it stays open.
fn call_anew<H: Net<Stream = TcpStream> + Clock>(
    rt: &H,
    alloc: Global,
    host: &LogHost<'_>,
    start: Instant,
    idle: &mut Option<TcpStream>,
    message: &Message<'_>,
    most: usize,
) -> Result<Response<Global>, CallFault>
    ensures { Calls (sent message.now) (sought message.now most) result }
{
    let stream = match connect(rt, &host.url, &start, host.limit) {
        Ok(stream) => stream,
        Err(why) => return Err(CallFault::Unreached(why)),
    };
    let _ = stream.set_nodelay(true);
    call_keeping(rt, alloc, host.limit, start, stream, idle, message, most).outcome
}

/// Sends a request to a host over the idle connection, or over a new one if there is none, and returns the response.
/// The connection is kept as the idle one if it can carry another request. If an idle one was closed before a byte of
/// an answer came, or is answered 408, the request is sent once more, over a new one: one that mustn't be made twice is
/// sent with `idle` empty. All of it takes at most the host's limit, without the look-up of its name.
pub fn call<H: Net<Stream = TcpStream> + Clock>(
    rt: &H,
    alloc: Global,
    host: &LogHost<'_>,
    idle: &mut Option<TcpStream>,
    message: &Message<'_>,
    most: usize,
) -> Result<Response<Global>, CallFault>
    ensures { Calls (sent message.now) (sought message.now most) result }
{
    let start = match Instant::now(rt) {
        Ok(start) => start,
        Err(error) => return Err(CallFault::Unreached(DeviceFault::from(error))),
    };
    if let Some(stream) = idle.take() {
        let tried = call_keeping(rt, alloc, host.limit, start, stream, idle, message, most);
        if !was_closed(&tried) {
            return tried.outcome;
        }
    }
    call_anew(rt, alloc, host, start, idle, message, most)
}
