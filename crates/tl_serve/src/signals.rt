//! What the threads of a server signal to the one that carries out steps.

use crate::submit_queue::SubmitQueue;
use crate::watch::Watch;
use mio::Waker;
use std::alloc::Global;
use std::net::Net;
use std::sync::atomic::{AtomicBool, AtomicU64, Ordering};
use std::sync::{Arc, Mutex, Wait};
use std::time::Duration;
use tl_feed::Ballot;
use tl_loop::Event;
use tl_run::RunFault;

/// What happens beside the thread that carries out steps.
#[derive(Drop)]
pub(crate) struct Signals {
    watch: Mutex<Watch>,
    waker: Waker,
    // What wakes the thread that follows the input, if one does.
    following: Option<Waker>,
    // Where connections submit entries, if they may.
    queue: Option<SubmitQueue>,
    // The ballot by which witnesses are asked about what the log proposes, if they are asked.
    ballot: Option<Arc<Ballot>>,
    // Whether entries were sent since the last look for them.
    has_entries: AtomicBool,
    // Whether the input ended since the last look for that.
    has_ended: AtomicBool,
    // Lines that were too long and are not reported yet.
    too_long: Mutex<Vec<u64>>,
    fault: Mutex<Option<RunFault>>,
    // How many threads answer, and how many send.
    answering: AtomicU64,
    sending: AtomicU64,
    // Whether all connections are answered, and whether nothing more is taken.
    is_over: AtomicBool,
    is_stopped: AtomicBool,
}

impl Signals {
    /// Returns signals none of which is given yet. `following` wakes the thread that follows the input, if one does.
    /// Connections submit entries to the queue, and witnesses are asked by the ballot, if there is one. Fails with
    /// `Read` if the system refuses.
    pub(crate) fn new<H: Net>(
        rt: &H,
        alloc: Global,
        following: Option<Waker>,
        queue: Option<SubmitQueue>,
        ballot: Option<Arc<Ballot>>,
    ) -> Result<Signals, RunFault> {
        let (watch, waker) = Watch::new(rt, alloc)?;
        Ok(Signals {
            watch: Mutex::new(watch),
            waker,
            following,
            queue,
            ballot,
            has_entries: AtomicBool::new(false),
            has_ended: AtomicBool::new(false),
            too_long: Mutex::new(Vec::new(alloc)),
            fault: Mutex::new(None),
            answering: AtomicU64::new(0),
            sending: AtomicU64::new(0),
            is_over: AtomicBool::new(false),
            is_stopped: AtomicBool::new(false),
        })
    }

    // Wakes the thread that carries out steps.
    fn wake(&self) {
        let _ = self.waker.wake();
    }

    /// Records that a thread begins to answer.
    pub(crate) fn begin_answering(&self) {
        self.answering.fetch_add(1, Ordering::SeqCst);
    }

    /// Records that a thread that answered ends. Once all have, the input is followed to its end.
    pub(crate) fn end_answering(&self) {
        if self.answering.fetch_sub(1, Ordering::SeqCst) == 1 {
            self.is_over.store(true, Ordering::SeqCst);
            self.wake_senders();
            self.wake();
        }
    }

    /// Records that a thread begins to send.
    pub(crate) fn begin_sending(&self) {
        self.sending.fetch_add(1, Ordering::SeqCst);
    }

    /// Records that a thread that sent ends.
    pub(crate) fn end_sending(&self) {
        self.sending.fetch_sub(1, Ordering::SeqCst);
        self.wake();
    }

    // Wakes the threads that send what comes from the input and from the queue.
    fn wake_senders(&self) {
        if let Some(waker) = &self.following {
            let _ = waker.wake();
        }
        if let Some(queue) = &self.queue {
            queue.wake();
        }
    }

    /// Returns where connections submit entries, if they may.
    pub(crate) fn queue(&self) -> Option<&SubmitQueue> {
        self.queue.as_ref()
    }

    /// Reports whether all connections are answered, so that the log ends with its input.
    pub(crate) fn is_over(&self) -> bool {
        self.is_over.load(Ordering::SeqCst)
    }

    /// Stops the threads that send: nothing more is taken.
    pub(crate) fn stop(&self) {
        self.is_stopped.store(true, Ordering::SeqCst);
        self.wake_senders();
    }

    /// Reports whether nothing more is taken.
    pub(crate) fn is_stopped(&self) -> bool {
        self.is_stopped.load(Ordering::SeqCst)
    }

    /// Makes the ballot ask the witnesses again soon, if there is one: something came that waits for them.
    pub(crate) fn urge(&self) {
        if let Some(ballot) = &self.ballot {
            ballot.urge();
        }
    }

    /// Signals that entries were sent.
    pub(crate) fn notify_entries(&self) {
        self.urge();
        if !self.has_entries.swap(true, Ordering::SeqCst) {
            self.wake();
        }
    }

    /// Signals that the input has ended.
    pub(crate) fn notify_end(&self) {
        self.has_ended.store(true, Ordering::SeqCst);
        self.wake();
    }

    /// Signals that the line with this number is too long.
    pub(crate) fn notify_too_long<H: Wait>(&self, rt: &H, line: u64) -> Result<(), RunFault> {
        self.too_long.lock(rt).push(line)?;
        self.wake();
        Ok(())
    }

    /// Signals a fault beside the thread that carries out steps. The first one counts.
    pub(crate) fn report_fault<H: Wait>(&self, rt: &H, fault: RunFault) {
        let mut first = self.fault.lock(rt);
        if first.is_none() {
            *first = Some(fault);
        }
        self.wake();
    }

    /// Returns the fault beside the thread that carries out steps, if there is one.
    pub(crate) fn fault<H: Wait>(&self, rt: &H) -> Option<RunFault> {
        *self.fault.lock(rt)
    }

    // Returns the next line that is too long.
    fn next_too_long<H: Wait>(&self, rt: &H) -> Option<u64> {
        let mut lines = self.too_long.lock(rt);
        if lines.is_empty() {
            return None;
        }
        Some(lines.remove(0))
    }

    // Reports whether all threads that were to answer and to send have ended.
    fn are_done(&self) -> bool {
        self.answering.load(Ordering::SeqCst) == 0 && self.sending.load(Ordering::SeqCst) == 0
    }

    // Returns what happened since the last look, the most urgent first.
    fn look<H: Wait>(&self, rt: &H) -> Option<Event<RunFault>> {
        if let Some(fault) = self.fault(rt) {
            return Some(Event::Failed(fault));
        }
        if self.has_entries.swap(false, Ordering::SeqCst) {
            return Some(Event::Done(0));
        }
        if let Some(line) = self.next_too_long(rt) {
            return Some(Event::TooLong(line));
        }
        if self.has_ended.swap(false, Ordering::SeqCst) {
            return Some(Event::InputEnded);
        }
        if self.are_done() {
            return Some(Event::Stopped);
        }
        None
    }

    /// Waits until something happens, at most this long. Returns None if nothing does. Fails with `Read` if the
    /// system refuses to wait.
    pub(crate) fn wait_for<H: Wait>(
        &self,
        rt: &H,
        limit: Option<Duration>,
    ) -> Option<Event<RunFault>> {
        if let Some(event) = self.look(rt) {
            return Some(event);
        }
        match self.watch.lock(rt).wait(limit) {
            Ok(()) => self.look(rt),
            Err(fault) => Some(Event::Failed(fault)),
        }
    }

    /// Waits until something happens. Fails with `Read` if the system refuses to wait.
    pub(crate) fn wait<H: Wait>(&self, rt: &H) -> Event<RunFault> {
        for _ in 0..u64::MAX {
            if let Some(event) = self.wait_for(rt, None) {
                return event;
            }
        }
        Event::Stopped
    }
}
