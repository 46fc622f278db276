//! One connection, which waits without a thread of its own.

use crate::context::Context;
use crate::moment::{Limits, Moment};
use crate::receipt::Receipt;
use crate::submission::Submission;
use mio::Interest;
use mio::net::TcpStream;
use std::alloc::Global;
use std::io::{ErrorKind, Read, Write};
use std::net;
use std::sync::{Arc, Wait};
use tl_keepalive::{Exchanges, Resources, Turn};

// The most bytes of one read.
const BLOCK: usize = 8192;

// The longest answer that is sent whole as soon as it is written: it fits the first packets of a
// connection.
const SHORT: usize = 14_000;

// How many milliseconds are kept to answer that an entry isn't published.
const LAST: u64 = 1000;

// Most reads that drain leftover input.
const MOST_DRAINS: u32 = 256;

// The most requests of one connection.
const MOST_REQUESTS: u32 = 1000;

// What a client is sent that waits before it sends a body (RFC 9110, section 15.2.1).
const CONTINUE: &[u8; 25] = b"HTTP/1.1 100 Continue\r\n\r\n";

/// A connection.
#[derive(Drop)]
pub(crate) struct Connection {
    pub(crate) stream: TcpStream,
    exchanges: Exchanges,
    // The receipt of the entry that it submitted, if it did.
    receipt: Option<Arc<Receipt>>,
    // Whether there is an answer, how many of its bytes were written, and whether the connection
    // stays open after it.
    is_answered: bool,
    written: usize,
    stays: bool,
    // How many requests were answered.
    requests: u32,
    // When its time began, in milliseconds: when it was accepted, when its last answer was sent, or
    // when the next request came.
    began: u64,
    /// Whether it is watched for room to write.
    pub(crate) is_writing: bool,
    /// Whether it counts among those that wait for their next request.
    pub(crate) counts_idle: bool,
    // Whether the whole answer was written, and it waits for the client to close.
    is_draining: bool,
    // Whether it is answered even if the index of its entry isn't known.
    is_late: bool,
    // Whether the client was told to send the body.
    has_continued: bool,
}

/// What to do next with a connection.
#[derive(Clone, Copy, PartialEq, Eq)]
pub(crate) enum Next {
    /// It waits.
    Wait,
    /// It goes on at once.
    Continue,
    /// It is closed.
    Close,
}

impl Connection {
    /// Returns a new connection that was accepted at this time.
    pub(crate) fn new(alloc: Global, stream: net::TcpStream, accepted_at: u64) -> Connection {
        Connection {
            stream: TcpStream::from_std(stream),
            exchanges: Exchanges::new(alloc),
            receipt: None,
            is_answered: false,
            written: 0,
            stays: false,
            requests: 0,
            began: accepted_at,
            is_writing: false,
            counts_idle: false,
            is_draining: false,
            is_late: false,
            has_continued: false,
        }
    }

    /// Reports whether there is an answer.
    pub(crate) fn is_answered(&self) -> bool {
        self.is_answered
    }

    /// Reports whether it waits for the index of an entry.
    pub(crate) fn is_waiting(&self) -> bool {
        !self.is_answered && self.receipt.is_some()
    }

    /// Reports whether it waits for its next request, of which nothing came.
    pub(crate) fn is_idle(&self) -> bool {
        self.requests > 0 && !self.is_answered && self.exchanges.is_idle()
    }

    /// Returns when its time began, in milliseconds.
    pub(crate) fn began(&self) -> u64 {
        self.began
    }

    /// Reports whether it waits for an entry whose index is below this size.
    pub(crate) fn is_published(&self, size: u64) -> bool {
        match &self.receipt {
            Some(receipt) => self.is_waiting() && receipt.index_below(size).is_some(),
            None => false,
        }
    }

    /// Returns when its time is over. Reading the head of a request may take only half of it.
    pub(crate) fn deadline(&self, limits: Limits) -> u64 {
        let is_reading = !self.is_answered && self.receipt.is_none();
        let time = if self.is_idle() {
            limits.idle
        } else if is_reading && self.exchanges.is_in_head() {
            limits.request - limits.request / 2
        } else {
            limits.request
        };
        self.began.saturating_add(time)
    }

    /// Returns when something is to be done with it even if nothing comes: its time is over, or its
    /// entry isn't published in time. In the latter case a second is left for the answer, or half
    /// of the time if that is less.
    pub(crate) fn due(&self, limits: Limits) -> u64 {
        if self.is_waiting() {
            let limit = limits.request;
            return self
                .began
                .saturating_add(limit.saturating_sub(LAST.min(limit / 2)));
        }
        self.deadline(limits)
    }

    // Takes what came. The time of a next request begins with its first byte.
    fn feed(&mut self, bytes: &[u8], moment: Moment) -> Next {
        if self.is_idle() {
            self.began = moment.now;
        }
        match self.exchanges.feed(bytes) {
            Ok(()) => Next::Continue,
            Err(_) => Next::Close,
        }
    }

    // Reads what came, until there is enough to try an answer.
    fn read_more(&mut self, moment: Moment) -> Next {
        let mut buf = [0u8; BLOCK];
        for _ in 0..u64::MAX {
            if self.exchanges.is_enough() {
                return Next::Continue;
            }
            let room = self.exchanges.room().min(BLOCK);
            match self.stream.read(&mut buf[..room]) {
                Ok(0) => {
                    self.exchanges.close();
                    return Next::Continue;
                }
                Ok(count) => {
                    if self.feed(&buf[..count], moment) == Next::Close {
                        return Next::Close;
                    }
                }
                Err(error) if error.kind() == ErrorKind::WouldBlock => return Next::Wait,
                Err(_) => return Next::Close,
            }
        }
        Next::Close
    }

    // Reports that the log doesn't have the entry at its index.
    fn report_damage<H: Wait>(&self, context: &Context<'_, H>) {
        if let (Some(receipt), Some(queue)) = (&self.receipt, context.signals.queue()) {
            context
                .signals
                .report_fault(context.rt, queue.damage(receipt));
        }
    }

    // Tries to answer what came. If the answer depends on more input, or on an index that isn't
    // known yet, it waits for that. It is a fault of the log if the entry isn't at its index.
    fn try_answer<H: Wait, P: Resources>(
        &mut self,
        context: &Context<'_, H>,
        resources: &mut P,
        moment: Moment,
    ) -> Next {
        let mut submission = Submission {
            rt: context.rt,
            signals: context.signals,
            receipt: self.receipt.take(),
            is_late: self.is_late,
        };
        let may_stay = moment.may_stay && self.requests < MOST_REQUESTS - 1;
        let turn = self.exchanges.answer(resources, &mut submission, may_stay);
        self.receipt = submission.receipt;
        match turn {
            Turn::Answered(stays) => {
                (self.is_answered, self.stays) = (true, stays);
                Next::Continue
            }
            Turn::Misplaced => {
                self.report_damage(context);
                (self.is_answered, self.stays) = (true, false);
                Next::Continue
            }
            Turn::Later => Next::Wait,
            Turn::More => self.ask_for_body(moment),
            Turn::Nothing | Turn::Unsent | Turn::Failed => Next::Close,
        }
    }

    // Asks the client for the body of its request, if it waits for that.
    fn ask_for_body(&mut self, moment: Moment) -> Next {
        if !moment.may_stay || self.has_continued || !self.exchanges.waits_for_continue() {
            return Next::Continue;
        }
        self.has_continued = true;
        match self.stream.write(CONTINUE) {
            Ok(count) if count == CONTINUE.len() => Next::Continue,
            _ => Next::Close,
        }
    }

    // Reads and tries until there is an answer.
    fn prepare<H: Wait, P: Resources>(
        &mut self,
        context: &Context<'_, H>,
        resources: &mut P,
        moment: Moment,
    ) -> Next {
        for _ in 0..u64::MAX {
            if self.is_answered {
                return Next::Continue;
            }
            if self.receipt.is_none() {
                let next = self.read_more(moment);
                if next != Next::Continue {
                    return next;
                }
            }
            let next = self.try_answer(context, resources, moment);
            if next != Next::Continue {
                return next;
            }
        }
        Next::Close
    }

    // Writes what is left of the answer, with one call.
    fn write_some(&mut self) -> Next {
        match self.stream.write(self.exchanges.unsent()) {
            Ok(0) => Next::Close,
            Ok(count) => {
                self.exchanges.send(count);
                self.written = self.written.saturating_add(count);
                Next::Continue
            }
            Err(error) if error.kind() == ErrorKind::WouldBlock => Next::Wait,
            Err(_) => Next::Close,
        }
    }

    // Ends a short answer to one request at once. After a long one, or several, only the write side
    // is shut, and we wait for the client to close: closing with unread input makes the kernel drop
    // data in flight.
    fn shut_write(&mut self) -> Next {
        let is_short = self.written <= SHORT && self.requests == 0;
        if is_short || self.stream.shutdown(net::Shutdown::Write).is_err() {
            return Next::Close;
        }
        self.is_draining = true;
        Next::Continue
    }

    // Reads and drops what the client still sends, until it closes.
    fn drain(&mut self) -> Next {
        let mut buf = [0u8; BLOCK];
        for _ in 0..MOST_DRAINS {
            match self.stream.read(&mut buf) {
                Ok(0) => return Next::Close,
                Ok(_) => {}
                Err(error) if error.kind() == ErrorKind::WouldBlock => return Next::Wait,
                Err(_) => return Next::Close,
            }
        }
        Next::Close
    }

    // Begins with the next request, once the answer before it was sent.
    fn renew(&mut self, moment: Moment) {
        self.receipt = None;
        (self.is_answered, self.stays, self.written) = (false, false, 0);
        (self.is_late, self.has_continued) = (false, false);
        self.requests = self.requests.saturating_add(1);
        self.began = moment.now;
    }

    // Sends the answer, and goes on with the next request or waits for the client to close.
    fn finish(&mut self, moment: Moment) -> Next {
        for _ in 0..u64::MAX {
            if self.is_draining {
                return self.drain();
            }
            let is_sent = self.exchanges.unsent().is_empty();
            if is_sent && self.stays {
                self.renew(moment);
                return Next::Continue;
            }
            let next = if is_sent {
                self.shut_write()
            } else {
                self.write_some()
            };
            if next != Next::Continue {
                return next;
            }
        }
        Next::Close
    }

    /// Goes on as far as it can now, and returns what to do next.
    pub(crate) fn advance<H: Wait, P: Resources>(
        &mut self,
        context: &Context<'_, H>,
        resources: &mut P,
        moment: Moment,
    ) -> Next {
        for _ in 0..u64::MAX {
            let next = self.prepare(context, resources, moment);
            if next != Next::Continue {
                return next;
            }
            let next = self.finish(moment);
            if next != Next::Continue {
                return next;
            }
        }
        Next::Close
    }

    /// Answers that its entry isn't published, unless it is.
    pub(crate) fn give_up<H: Wait, P: Resources>(
        &mut self,
        context: &Context<'_, H>,
        resources: &mut P,
        moment: Moment,
    ) -> Next {
        self.is_late = true;
        self.advance(context, resources, moment)
    }

    /// Reports whether it waits for room to write, and not for input.
    pub(crate) fn wants_to_write(&self) -> bool {
        self.is_answered && !self.is_draining
    }

    /// Returns what it is to be watched for.
    pub(crate) fn interest(&self) -> Interest {
        if self.wants_to_write() {
            Interest::WRITABLE
        } else {
            Interest::READABLE
        }
    }
}
