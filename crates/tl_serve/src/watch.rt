//! How a thread waits until others wake it.

use mio::{Events, Poll, Token, Waker};
use std::alloc::Global;
use std::net::Net;
use std::time::Duration;
use tl_run::RunFault;

// The most events that one poll returns.
const MOST_EVENTS: usize = 4;

/// What a thread waits with.
#[derive(Drop)]
pub(crate) struct Watch {
    poll: Poll,
    events: Events,
}

impl Watch {
    /// Returns a watch, and what wakes it. Fails with `Read` if the system refuses.
    pub(crate) fn new<H: Net>(rt: &H, alloc: Global) -> Result<(Watch, Waker), RunFault> {
        let events = Events::with_capacity(alloc, MOST_EVENTS)?;
        let Ok(poll) = Poll::new(rt) else {
            return Err(RunFault::Read);
        };
        match Waker::new(poll.registry(), Token(0)) {
            Ok(waker) => Ok((Watch { poll, events }, waker)),
            Err(_) => Err(RunFault::Read),
        }
    }

    /// Waits until it is woken, at most this long. Fails with `Read` if the system refuses to wait.
    pub(crate) fn wait(&mut self, limit: Option<Duration>) -> Result<(), RunFault> {
        match self.poll.poll(&mut self.events, limit) {
            Ok(()) => Ok(()),
            Err(_) => Err(RunFault::Read),
        }
    }
}
