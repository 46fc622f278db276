//! What a log is served with, in memory or on a shelf.

ghost use Rattle.std.specs.Prelude.{All};
ghost use Rattle.tl_sequencer.specs.Log.{IsSenderOf};
ghost use Rattle.tl_serve.specs.Inner.Running.{StaysRunning};

use crate::awaited::Awaited;
use crate::bound_listener::{BoundListener, Site};
use crate::following::Followed;
use crate::gate::Gate;
use crate::host::Host;
use crate::lanes::Sending;
use crate::listener::Listener;
use crate::live_log::LiveLog;
use crate::options::ServeOptions;
use crate::remembered::Remembered;
use crate::running::{Rounds, Running};
use crate::serve::threads_of;
use crate::serving::{Common, Ran, run_log};
use crate::signals::Signals;
use crate::submit_queue::SubmitQueue;
use crate::telling::tell_in_memory;
use mio::Waker;
use std::alloc::Global;
use std::io::{Read, Write};
use std::net::{Net, TcpListener, TcpStream};
use std::os::fd::RawFd;
use std::sync::Arc;
use tl_device::Counted;
use tl_keepalive::Resources;
use tl_lines::Lines;
use tl_run::RunFault;

// The word that is reported before size and root.
const PUBLISHED: &str = "published ";

/// What a log is served with.
#[derive(Drop)]
pub(crate) struct Server<'s, H, G> {
    pub(crate) rt: &'s H,
    pub(crate) alloc: Global,
    pub(crate) options: &'s ServeOptions,
    // The descriptor of the input, if there is one to wait for.
    pub(crate) input: Option<RawFd>,
    pub(crate) gate: &'s G,
}

/// What a log that is to be served has: its size, and the entries that are remembered. If it is
/// due, the last entries aren't shown yet.
#[derive(Drop)]
pub(crate) struct Base {
    pub(crate) size: u64,
    pub(crate) is_due: bool,
    pub(crate) remembered: Remembered,
}

// What a log is served with beside its resources.
#[derive(Drop)]
struct Prepared<'r, R> {
    followed: Option<Followed<'r, R>>,
    signals: Signals,
    listener: Listener,
}

impl<H: Host + Net<Listener = TcpListener, Stream = TcpStream>, G: Gate> Server<'_, H, G> {
    /// Returns how many readers the board has: one for each thread that answers, and one for the
    /// thread that reports.
    pub(crate) fn readers(&self) -> u32 {
        threads_of(self.rt, self.options.server.threads) + 1
    }

    // Reports whether entries come while the log is served: they are gathered to a batch while more wait.
    fn goes_on(&self) -> bool {
        self.options.follow || self.options.takes_posts
    }

    // Returns how much is taken at a time from this many lanes, after this many entries, and what
    // is reported.
    fn rounds(&self, before: u64, lanes: usize) -> Rounds {
        Rounds {
            before,
            batch: if self.goes_on() {
                self.options.batch
            } else {
                1
            },
            gathers: self.options.interval > 0,
            lanes: u32::try_from(lanes).unwrap_or(u32::MAX),
            most: if self.goes_on() {
                None
            } else {
                Some(self.options.batch)
            },
            word: if self.options.server.quiet {
                None
            } else {
                Some(PUBLISHED)
            },
        }
    }

    // Opens the listener, and reports the address, and whether the log is in memory alone.
    fn open_listener<L: Write>(
        &self,
        bound: &BoundListener,
        threads: usize,
        log: &mut Counted<L>,
    ) -> Result<Listener, RunFault> {
        let threads = u32::try_from(threads).unwrap_or(u32::MAX);
        let server = &self.options.server;
        let listener = Listener::open(self.rt, self.alloc, server, bound, threads, log)?;
        if self.options.dir.is_none() && !server.quiet {
            tell_in_memory(log)?;
        }
        Ok(listener)
    }

    // Returns the lines that are followed, if any are, and what wakes the thread that waits for
    // them.
    fn follow<'r, R: Read + Send>(
        &self,
        lines: Lines<Global>,
        reader: &'r mut Counted<R>,
    ) -> Result<(Option<Followed<'r, R>>, Option<Waker>), RunFault> {
        if !self.options.follow {
            return Ok((None, None));
        }
        let (input, waker) = Awaited::new(self.rt, self.alloc, self.input)?;
        let before = lines.entries();
        let followed = Followed {
            lines,
            reader,
            input,
            before,
        };
        Ok((Some(followed), Some(waker)))
    }

    // Returns the queue, if posted entries are taken. Its lane is the last of this many.
    fn open_queue(&self, base: Base, lanes: usize) -> Result<Option<SubmitQueue>, RunFault> {
        if !self.options.takes_posts {
            return Ok(None);
        }
        let lane = u32::try_from(lanes).unwrap_or(u32::MAX).saturating_sub(1);
        let room = usize::try_from(self.options.capacity).unwrap_or(usize::MAX);
        let Base {
            size,
            is_due,
            remembered,
        } = base;
        let shown = if is_due { 0 } else { size };
        let queue = SubmitQueue::new(self.rt, self.alloc, lane, room, shown, remembered)?;
        Ok(Some(queue))
    }

    // Returns what a log is served with beside its resources: the followed lines, the signals, and
    // the listener.
    fn prepare<'r, R: Read + Send, L: Write>(
        &self,
        site: &Site<'_>,
        base: Base,
        lanes: usize,
        lines: Lines<Global>,
        reader: &'r mut Counted<R>,
        threads: usize,
        out: &mut Counted<L>,
    ) -> Result<Prepared<'r, R>, RunFault> {
        let (followed, following) = self.follow(lines, reader)?;
        let queue = self.open_queue(base, lanes)?;
        let ballot = match site.ballot {
            Some(ballot) => Some(Arc::try_clone(ballot)?),
            None => None,
        };
        let signals = Signals::new(self.rt, self.alloc, following, queue, ballot)?;
        let listener = self.open_listener(site.bound, threads, out)?;
        Ok(Prepared {
            followed,
            signals,
            listener,
        })
    }

    /// Returns the list of remembered entries, empty at first.
    pub(crate) fn remembered(&self) -> Remembered {
        let most = if self.options.takes_posts {
            self.options.remember
        } else {
            0
        };
        Remembered::new(self.rt, self.alloc, most)
    }

    /// Serves a log at a site that was published, or is due, and gives it back.
    pub(crate) fn serve_published<O: LiveLog, P: Resources + Send, R: Read + Send, L: Write>(
        &self,
        site: &Site<'_>,
        log: O,
        base: Base,
        lanes: Vec<Sending>,
        resources: Vec<P>,
        lines: Lines<Global>,
        reader: &mut Counted<R>,
        out: &mut Counted<L>,
    ) -> Ran<O>
        requires holds { O.holds log }
        requires senders { All (λ l. IsSenderOf l.submitter (O.log log)) lanes.items }
        ensures { StaysRunning O.holds O.log O.begun log result.running.log }
    {
        let count = lanes.len();
        let running = Running::new(log, self.rounds(base.size, count), base.is_due);
        let Prepared {
            followed,
            signals,
            listener,
        } = match self.prepare(site, base, count, lines, reader, resources.len(), out) {
            Ok(prepared) => prepared,
            Err(fault) => {
                return Ran {
                    running,
                    last: Err(fault),
                };
            }
        };
        let common = Common {
            rt: self.rt,
            alloc: self.alloc,
            listener: &listener,
            gate: self.gate,
            signals: &signals,
            interval: self.options.interval,
        };
        run_log(common, running, resources, lanes, followed, out)
    }
}
