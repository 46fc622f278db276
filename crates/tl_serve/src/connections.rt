//! The connections that a thread holds. They wait without threads of their own.

use crate::connection::{Connection, Next};
use crate::context::Context;
use crate::listener::{ACCEPT, Accepted, Listener};
use crate::moment::Moment;
use crate::signals::Signals;
use mio::{Events, Poll, Token};
use slab::Slab;
use std::alloc::Global;
use std::net;
use std::net::Net;
use std::sync::Wait;
use std::time::{Clock, Duration, Instant};
use tl_keepalive::Resources;
use tl_run::RunFault;

// The most events that one poll returns.
const MOST_EVENTS: usize = 1024;

// How many milliseconds an answer in progress may still take after the listener closes.
const GRACE: u64 = 1000;

// How often an accept that fails for now is tried again, and how many milliseconds to wait in between.
const TRIES: u32 = 1000;

const PAUSE: u64 = 10;

/// The connections that a thread holds.
#[derive(Drop)]
pub(crate) struct Connections<'d, H> {
    context: Context<'d, H>,
    listener: &'d Listener,
    poll: Poll,
    connections: Slab<Connection>,
    start: Instant,
    // The time, and when something may have to be done with a connection, in milliseconds from the start.
    now: u64,
    due: u64,
    // When all are closed, once the listener is closed.
    end: u64,
    // How many entries were published when the connections that wait for a publication were last
    // answered.
    published: u64,
    // Whether connections may be pending, and how many accepts in a row failed for now.
    has_pending: bool,
    refusals: u32,
}

impl<'d, H: Clock> Connections<'d, H> {
    /// Returns an empty set of connections. Fails with `Accept` if the machine's clock can't be read.
    pub(crate) fn new(
        context: Context<'d, H>,
        listener: &'d Listener,
        poll: Poll,
    ) -> Result<Connections<'d, H>, RunFault> {
        let Ok(start) = Instant::now(context.rt) else {
            return Err(RunFault::Accept);
        };
        Ok(Connections {
            connections: Slab::new(context.alloc),
            context,
            listener,
            poll,
            start,
            now: 0,
            due: u64::MAX,
            end: u64::MAX,
            published: 0,
            has_pending: true,
            refusals: 0,
        })
    }

    // Records the time. If the clock can't be read, the time stands still.
    fn read_clock(&mut self) {
        if let Ok(time) = self.start.elapsed(self.context.rt) {
            self.now = u64::try_from(time.as_millis()).unwrap_or(u64::MAX);
        }
    }
}

impl<'d, H> Connections<'d, H> {
    // Returns how long there is nothing to do if no event comes.
    fn pause(&self) -> Option<Duration> {
        if self.refusals > 0 && !self.listener.is_over() {
            return Some(Duration::from_millis(PAUSE));
        }
        if self.connections.is_empty() {
            return None;
        }
        let due = self.due.min(self.end);
        Some(Duration::from_millis(due.saturating_sub(self.now)))
    }

    // Returns the time, and whether connections may stay open after an answer.
    fn moment(&self) -> Moment {
        Moment {
            now: self.now,
            may_stay: self.listener.keeps_alive() && !self.listener.is_closed(),
        }
    }

    // Registers what the connection waits for, and reports whether it is watched.
    fn watch(&mut self, key: usize) -> bool {
        let Some(connection) = self.connections.get_mut(key) else {
            return false;
        };
        let (interest, is_to_write) = (connection.interest(), connection.wants_to_write());
        if is_to_write == connection.is_writing {
            return true;
        }
        connection.is_writing = is_to_write;
        self.poll
            .registry()
            .reregister(&mut connection.stream, Token(key), interest)
            .is_ok()
    }

    // Reports whether a connection waits for an entry whose index is below this size.
    fn is_published(&self, key: usize, size: u64) -> bool {
        match self.connections.get(key) {
            Some(connection) => connection.is_published(size),
            None => false,
        }
    }

    // Holds a connection that has to wait, and reports whether it can.
    fn keep(&mut self, connection: Connection) -> bool {
        let mut connection = connection;
        let (key, interest) = (self.connections.vacant_key(), connection.interest());
        connection.is_writing = connection.wants_to_write();
        connection.counts_idle = connection.is_idle();
        let (due, counts_idle) = (
            connection.due(self.listener.limits()),
            connection.counts_idle,
        );
        let is_watched = self
            .poll
            .registry()
            .register(&mut connection.stream, Token(key), interest);
        if is_watched.is_err() || self.connections.insert(connection).is_err() {
            return false;
        }
        if counts_idle {
            self.listener.begin_idle();
        }
        self.due = self.due.min(due);
        true
    }

    // Counts a connection among those that wait for their next request, if it does.
    fn count_idle(&mut self, key: usize) {
        let Some(connection) = self.connections.get_mut(key) else {
            return;
        };
        let is_idle = connection.is_idle();
        if is_idle && !connection.counts_idle {
            self.listener.begin_idle();
        }
        if !is_idle && connection.counts_idle {
            self.listener.end_idle();
        }
        connection.counts_idle = is_idle;
    }

    // Closes a connection.
    fn close(&mut self, key: usize) {
        if let Some(connection) = self.connections.try_remove(key) {
            if connection.counts_idle {
                self.listener.end_idle();
            }
        }
        self.listener.release(1);
    }

    // Returns the connection that has waited longest for its next request.
    fn longest_idle(&self) -> Option<usize> {
        let mut longest: Option<usize> = None;
        let mut began = u64::MAX;
        for (key, connection) in self.connections.iter() {
            if connection.counts_idle && connection.began() < began {
                longest = Some(key);
                began = connection.began();
            }
        }
        longest
    }

    // Closes those that have waited longest for their next request, as long as room is wanted for
    // new ones.
    fn make_room(&mut self) {
        for _ in 0..u64::MAX {
            if !self.listener.wants_room() {
                return;
            }
            let Some(key) = self.longest_idle() else {
                return;
            };
            if !self.listener.takes_room() {
                return;
            }
            self.close(key);
        }
    }

    // Closes those whose time is over and, once the listener is closed, those that have no answer
    // yet.
    fn close_expired(&mut self) {
        let is_closed = self.listener.is_closed();
        if is_closed && self.end == u64::MAX {
            self.end = self.now.saturating_add(GRACE);
        }
        if self.now < self.due && !is_closed {
            return;
        }
        let (now, end, limits) = (self.now, self.end, self.listener.limits());
        for key in 0..self.connections.capacity() {
            let is_over = match self.connections.get(key) {
                Some(connection) => {
                    now >= connection.deadline(limits).min(end)
                        || (is_closed && !connection.is_answered())
                }
                None => false,
            };
            if is_over {
                self.close(key);
            }
        }
        self.due = self.next_due();
    }

    // Returns when something is to be done with the first of them.
    fn next_due(&self) -> u64 {
        let mut due = u64::MAX;
        for (_, connection) in self.connections.iter() {
            due = due.min(connection.due(self.listener.limits()));
        }
        due
    }
}

impl<'d, H: Clock + Net + Wait> Connections<'d, H> {
    // Keeps a connection waiting, or closes it, by what is next.
    fn settle(&mut self, key: usize, next: Next) {
        if next == Next::Close || !self.watch(key) {
            self.close(key);
            return;
        }
        self.count_idle(key);
        if let Some(connection) = self.connections.get(key) {
            self.due = self.due.min(connection.due(self.listener.limits()));
        }
    }

    // Goes on with a connection.
    fn advance<P: Resources>(&mut self, key: usize, resources: &mut P) {
        let moment = self.moment();
        let next = match self.connections.get_mut(key) {
            Some(connection) => connection.advance(&self.context, resources, moment),
            None => return,
        };
        self.settle(key, next);
    }

    // Answers a connection that its entry isn't published, if it waits no longer.
    fn give_up<P: Resources>(&mut self, key: usize, resources: &mut P) {
        let (moment, limits) = (self.moment(), self.listener.limits());
        let is_closed = self.listener.is_closed();
        let Some(connection) = self.connections.get_mut(key) else {
            return;
        };
        if connection.is_waiting() && (is_closed || moment.now >= connection.due(limits)) {
            let next = connection.give_up(&self.context, resources, moment);
            self.settle(key, next);
        }
    }

    // Answers all connections whose entries aren't published in time, or won't be since the
    // listener is closed.
    fn give_up_late<P: Resources>(&mut self, resources: &mut P) {
        if self.now < self.due && !self.listener.is_closed() {
            return;
        }
        for key in 0..self.connections.capacity() {
            self.give_up(key, resources);
        }
    }

    // Goes on with all connections that have an event.
    fn advance_ready<P: Resources>(&mut self, events: &Events, resources: &mut P) {
        for event in events.iter() {
            if event.token() == ACCEPT {
                self.has_pending = true;
                continue;
            }
            let Token(key) = event.token();
            self.advance(key, resources);
        }
    }

    // Goes on with all connections whose entries were published since the last look.
    fn advance_published<P: Resources>(&mut self, resources: &mut P) {
        let Some(queue) = self.context.signals.queue() else {
            return;
        };
        let size = queue.published();
        if size == self.published {
            return;
        }
        self.published = size;
        for key in 0..self.connections.capacity() {
            if self.is_published(key, size) {
                self.advance(key, resources);
            }
        }
    }

    // Answers a new connection, or holds it if it has to wait.
    fn accept<P: Resources>(&mut self, stream: net::TcpStream, resources: &mut P) {
        if !self.listener.acquire() {
            return;
        }
        let is_kept = self.is_ready(&stream) && self.begin(stream, resources);
        if !is_kept {
            self.listener.release(1);
        }
    }

    // Prepares a new connection, and reports whether it can be used. Answers over one that stays
    // open are sent without delay.
    fn is_ready(&self, stream: &net::TcpStream) -> bool {
        if self.listener.keeps_alive() && stream.set_nodelay(true).is_err() {
            return false;
        }
        stream.set_nonblocking(true).is_ok()
    }

    // Begins with a connection, and reports whether it is held.
    fn begin<P: Resources>(&mut self, stream: net::TcpStream, resources: &mut P) -> bool {
        let mut connection = Connection::new(self.context.alloc, stream, self.now);
        let moment = self.moment();
        connection.advance(&self.context, resources, moment) == Next::Wait && self.keep(connection)
    }

    // Accepts all pending connections. Fails with `Accept` if accepting fails for good.
    fn accept_all<P: Resources>(&mut self, resources: &mut P) -> Result<(), RunFault> {
        for _ in 0..u64::MAX {
            if !self.has_pending {
                break;
            }
            match self.listener.accept()? {
                Accepted::Stream(stream) => {
                    self.refusals = 0;
                    self.accept(stream, resources);
                }
                Accepted::Later => {
                    self.refusals = self.refusals.saturating_add(1);
                    break;
                }
                Accepted::Nothing | Accepted::Over => {
                    self.refusals = 0;
                    self.has_pending = false;
                }
            }
        }
        if self.refusals > TRIES {
            return Err(RunFault::Accept);
        }
        Ok(())
    }

    /// Answers connections, until no more are to be accepted and none is held. What is read for an answer is
    /// forgotten before the thread waits. Fails with `Accept` if accepting fails for good.
    pub(crate) fn answer_all<P: Resources>(&mut self, resources: P) -> Result<(), RunFault> {
        let mut resources = resources;
        let mut events = Events::with_capacity(self.context.alloc, MOST_EVENTS)?;
        for _ in 0..u64::MAX {
            self.accept_all(&mut resources)?;
            self.make_room();
            if self.listener.is_over() && self.connections.is_empty() {
                break;
            }
            let pause = self.pause();
            resources.forget();
            if self.poll.poll(&mut events, pause).is_err() {
                return Err(RunFault::Accept);
            }
            self.read_clock();
            self.advance_ready(&events, &mut resources);
            self.advance_published(&mut resources);
            self.give_up_late(&mut resources);
            self.close_expired();
        }
        Ok(())
    }
}
