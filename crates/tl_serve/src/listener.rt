//! The listener of a server, which accepts connections for its threads.

use crate::bound_listener::BoundListener;
use crate::moment::Limits;
use crate::options::ListenOptions;
use mio::unix::SourceFd;
use mio::{Interest, Poll, Token, Waker};
use std::alloc::Global;
use std::io;
use std::io::{ErrorKind, Write};
use std::net::{Net, TcpListener, TcpStream};
use std::os::fd::AsRawFd;
use std::sync::atomic::{AtomicBool, AtomicU64, Ordering};
use std::sync::{Mutex, Wait};
use tl_device::Counted;
use tl_run::{RunFault, print_text};

/// The token under which a thread watches the listener. Those of connections are smaller.
pub(crate) const ACCEPT: Token = Token(usize::MAX);

// The token of what wakes the thread.
const WAKE: Token = Token(usize::MAX - 1);

// Errors that Linux passes on with a new connection and `ErrorKind` doesn't distinguish (accept(2),
// "Error handling"): EPERM, ENONET, EPROTO, ENOPROTOOPT, EOPNOTSUPP, EHOSTDOWN. After these, the
// errors if there is no room for one now: ENOMEM, ENFILE, EMFILE, ENOBUFS.
const PASSING: [i32; 10] = [1, 64, 71, 92, 95, 112, 12, 23, 24, 105];

/// A listening socket, with how many connections are still to be accepted and how many may be held
/// at once.
#[derive(Drop)]
pub(crate) struct Listener {
    socket: TcpListener,
    left: AtomicU64,
    held: AtomicU64,
    clients: u64,
    // How many of those that are held wait for their next request, and how many of these are to be
    // closed for new ones.
    idle: AtomicU64,
    wanted: AtomicU64,
    // How many milliseconds a connection has, and whether it may wait for another request.
    limits: Limits,
    keeps_alive: bool,
    // What each answering thread waits with, until the thread takes it, and what wakes each.
    polls: Mutex<Vec<Poll>>,
    wakers: Vec<Waker>,
    is_closed: AtomicBool,
}

/// What an accept gave.
#[derive(Drop)]
pub(crate) enum Accepted {
    /// A connection.
    Stream(TcpStream),
    /// None is pending.
    Nothing,
    /// None can be accepted for now.
    Later,
    /// No more are accepted.
    Over,
}

// Reports whether an accept failed for this one connection, or for now.
fn is_passing(error: &io::Error) -> bool {
    match error.kind() {
        ErrorKind::Interrupted
        | ErrorKind::ConnectionAborted
        | ErrorKind::ConnectionReset
        | ErrorKind::NetworkDown
        | ErrorKind::NetworkUnreachable
        | ErrorKind::HostUnreachable
        | ErrorKind::TimedOut => true,
        _ => match error.raw_os_error() {
            Some(code) => PASSING.contains(&code),
            None => false,
        },
    }
}

// Returns a poll that reports connections, and what wakes it.
fn watch<H: Net>(rt: &H, socket: &TcpListener) -> io::Result<(Poll, Waker)> {
    let poll = Poll::new(rt)?;
    let waker = Waker::new(poll.registry(), WAKE)?;
    let descriptor = socket.as_raw_fd();
    poll.registry()
        .register(&mut SourceFd(&descriptor), ACCEPT, Interest::READABLE)?;
    Ok((poll, waker))
}

// Returns as many polls and wakers as there are threads. Fails with `Accept` if the system refuses.
fn watch_all<H: Net>(
    rt: &H,
    alloc: Global,
    socket: &TcpListener,
    threads: u32,
) -> Result<(Vec<Poll>, Vec<Waker>), RunFault> {
    let (mut polls, mut wakers) = (Vec::new(alloc), Vec::new(alloc));
    for _ in 0..threads {
        let Ok((poll, waker)) = watch(rt, socket) else {
            return Err(RunFault::Accept);
        };
        polls.push(poll)?;
        wakers.push(waker)?;
    }
    Ok((polls, wakers))
}

// Takes one off a count, and reports whether there was one.
fn take_one(count: &AtomicU64) -> bool {
    for _ in 0..u64::MAX {
        let left = count.load(Ordering::SeqCst);
        if left == 0 {
            return false;
        }
        let taken = count.compare_exchange(left, left - 1, Ordering::SeqCst, Ordering::SeqCst);
        if taken.is_ok() {
            return true;
        }
    }
    false
}

impl Listener {
    /// Opens the listener at this address for this many threads, and reports the address. Fails with `Accept` if the
    /// system refuses to watch it.
    pub(crate) fn open<H: Net, L: Write>(
        rt: &H,
        alloc: Global,
        options: &ListenOptions,
        bound: &BoundListener,
        threads: u32,
        log: &mut Counted<L>,
    ) -> Result<Listener, RunFault> {
        let Ok(socket) = bound.socket.try_clone() else {
            return Err(RunFault::Accept);
        };
        let (polls, wakers) = watch_all(rt, alloc, &socket, threads)?;
        let line = format!(in alloc; "listening {}\n", bound.address)?;
        print_text(log, line.as_bytes())?;
        Ok(Listener {
            socket,
            left: AtomicU64::new(options.connections.unwrap_or(u64::MAX)),
            held: AtomicU64::new(0),
            clients: options.clients,
            idle: AtomicU64::new(0),
            wanted: AtomicU64::new(0),
            limits: Limits {
                request: options.timeout.saturating_mul(1000),
                idle: options.keep_alive.unwrap_or(0).saturating_mul(1000),
            },
            keeps_alive: options.keep_alive.is_some(),
            polls: Mutex::new(polls),
            wakers,
            is_closed: AtomicBool::new(false),
        })
    }

    /// Returns what one more thread waits with, or none if all threads have theirs.
    pub(crate) fn next_poll<H: Wait>(&self, rt: &H) -> Option<Poll> {
        self.polls.lock(rt).pop()
    }

    /// Returns how many milliseconds a connection has.
    pub(crate) fn limits(&self) -> Limits {
        self.limits
    }

    /// Reports whether a connection may stay open after an answer.
    pub(crate) fn keeps_alive(&self) -> bool {
        self.keeps_alive
    }

    /// Wakes all threads that watch the listener.
    pub(crate) fn wake_all(&self) {
        for waker in self.wakers.iter() {
            let _ = waker.wake();
        }
    }

    /// Closes the listener. No more connections are accepted, and those without an answer get none.
    pub(crate) fn close(&self) {
        self.is_closed.store(true, Ordering::SeqCst);
        self.wake_all();
    }

    /// Reports whether the listener was closed.
    pub(crate) fn is_closed(&self) -> bool {
        self.is_closed.load(Ordering::SeqCst)
    }

    /// Reports whether no more connections are accepted: the listener was closed, or as many were taken as are to be
    /// answered.
    pub(crate) fn is_over(&self) -> bool {
        self.is_closed() || self.left.load(Ordering::SeqCst) == 0
    }

    // Accepts the connection that was taken. If none comes, it is given back. If it was the last,
    // all threads are woken.
    fn accept_taken(&self) -> Result<TcpStream, io::Error> {
        match self.socket.accept() {
            Ok((stream, _)) => {
                if self.is_over() {
                    self.wake_all();
                }
                Ok(stream)
            }
            Err(error) => {
                self.left.fetch_add(1, Ordering::SeqCst);
                Err(error)
            }
        }
    }

    /// Returns the next connection, if one is pending. Fails with `Accept` if accepting fails for good.
    pub(crate) fn accept(&self) -> Result<Accepted, RunFault> {
        if self.is_closed() || !take_one(&self.left) {
            return Ok(Accepted::Over);
        }
        match self.accept_taken() {
            Ok(stream) => Ok(Accepted::Stream(stream)),
            Err(error) if error.kind() == ErrorKind::WouldBlock => Ok(Accepted::Nothing),
            Err(error) if is_passing(&error) => Ok(Accepted::Later),
            Err(_) => Err(RunFault::Accept),
        }
    }

    /// Reports whether one more connection may be held. If so, it counts until it is released. If as
    /// many are held as may be, one that waits for its next request is closed for it.
    pub(crate) fn acquire(&self) -> bool {
        let may_be = self.held.fetch_add(1, Ordering::SeqCst) < self.clients
            || self.asks_for_room();
        if !may_be {
            self.held.fetch_sub(1, Ordering::SeqCst);
        }
        may_be
    }

    // Asks the threads to close a connection that waits for its next request, and reports whether
    // there is one that isn't asked for already.
    fn asks_for_room(&self) -> bool {
        if self.wanted.fetch_add(1, Ordering::SeqCst) < self.idle.load(Ordering::SeqCst) {
            self.wake_all();
            return true;
        }
        self.wanted.fetch_sub(1, Ordering::SeqCst);
        false
    }

    /// Reports whether a connection that waits for its next request is to be closed for a new one.
    pub(crate) fn wants_room(&self) -> bool {
        self.wanted.load(Ordering::SeqCst) > 0 && self.held.load(Ordering::SeqCst) > self.clients
    }

    /// Reports whether it is up to this thread to close one.
    pub(crate) fn takes_room(&self) -> bool {
        take_one(&self.wanted)
    }

    /// Counts a connection that begins to wait for its next request.
    pub(crate) fn begin_idle(&self) {
        self.idle.fetch_add(1, Ordering::SeqCst);
    }

    /// Counts a connection that waits for it no longer.
    pub(crate) fn end_idle(&self) {
        self.idle.fetch_sub(1, Ordering::SeqCst);
    }

    /// Releases this many connections, which are held no longer.
    pub(crate) fn release(&self, count: u64) {
        let held = self.held.fetch_sub(count, Ordering::SeqCst);
        if held.saturating_sub(count) <= self.clients {
            self.wanted.store(0, Ordering::SeqCst);
        }
    }
}
