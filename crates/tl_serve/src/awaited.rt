//! How a thread waits for an input, and is woken while it waits.

use mio::unix::SourceFd;
use mio::{Events, Interest, Poll, Token, Waker};
use std::alloc::Global;
use std::net::Net;
use std::os::fd::RawFd;
use tl_run::RunFault;

// The tokens under which the input and the waker are watched.
const INPUT: Token = Token(0);

const WAKE: Token = Token(1);

// The most events that one poll returns.
const MOST_EVENTS: usize = 4;

/// An input that can be waited for: that of a descriptor, if the system can watch it. Any other input is never waited
/// for, since a read of a file returns at once.
#[derive(Drop)]
pub(crate) struct Awaited {
    poll: Poll,
    events: Events,
    descriptor: Option<RawFd>,
    has_ended: bool,
}

impl Awaited {
    /// Returns the input of this descriptor, and what wakes the thread that waits for it. Fails with `Read` if the
    /// system refuses to watch.
    pub(crate) fn new<H: Net>(
        rt: &H,
        alloc: Global,
        descriptor: Option<RawFd>,
    ) -> Result<(Awaited, Waker), RunFault> {
        let events = Events::with_capacity(alloc, MOST_EVENTS)?;
        let Ok(poll) = Poll::new(rt) else {
            return Err(RunFault::Read);
        };
        let Ok(waker) = Waker::new(poll.registry(), WAKE) else {
            return Err(RunFault::Read);
        };
        let descriptor = watched(&poll, descriptor);
        let awaited = Awaited {
            poll,
            events,
            descriptor,
            has_ended: false,
        };
        Ok((awaited, waker))
    }

    /// Waits until the input can be read or has ended, or the thread is woken, and reports whether it is the input.
    /// After the end it waits until another writer comes. Fails with `Read` if the system refuses to watch.
    pub(crate) fn wait(&mut self) -> Result<bool, RunFault> {
        let Some(descriptor) = self.descriptor else {
            return Ok(true);
        };
        if !self.has_ended {
            let mut source = SourceFd(&descriptor);
            let again = self
                .poll
                .registry()
                .reregister(&mut source, INPUT, Interest::READABLE);
            if again.is_err() {
                return Err(RunFault::Read);
            }
        }
        if self.poll.poll(&mut self.events, None).is_err() {
            return Err(RunFault::Read);
        }
        Ok(tells_input(&self.events))
    }

    /// Reports whether the last read came to the end.
    pub(crate) fn has_ended(&self) -> bool {
        self.has_ended
    }

    /// Records whether a read came to the end, and reports whether another writer may come.
    pub(crate) fn note(&mut self, has_ended: bool) -> bool {
        self.has_ended = has_ended;
        self.descriptor.is_some()
    }
}

// Reports whether one of the events is of the input.
fn tells_input(events: &Events) -> bool {
    for event in events.iter() {
        if event.token() == INPUT {
            return true;
        }
    }
    false
}

// Returns the descriptor, if the system watches it.
fn watched(poll: &Poll, descriptor: Option<RawFd>) -> Option<RawFd> {
    let descriptor = descriptor?;
    let mut source = SourceFd(&descriptor);
    match poll
        .registry()
        .register(&mut source, INPUT, Interest::READABLE)
    {
        Ok(()) => Some(descriptor),
        Err(_) => None,
    }
}
