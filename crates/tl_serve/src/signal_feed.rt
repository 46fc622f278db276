//! What the thread that carries out steps learns, and when a publication is due.

ghost use Rattle.std.specs.Prelude.{◌≡◌};

use crate::listener::Listener;
use crate::running::Feed;
use crate::signals::Signals;
use std::sync::Wait;
use std::time::{Clock, Duration, Instant};
use tl_loop::Event;
use tl_run::RunFault;

/// What happens beside the thread that carries out steps, as the other threads signal it, and when
/// what was taken in has waited long enough for more.
#[derive(Drop)]
pub(crate) struct SignalFeed<'n, H> {
    rt: &'n H,
    signals: &'n Signals,
    listener: &'n Listener,
    // How long entries that were taken in wait for more.
    interval: Duration,
    // How many entries were published when those that wait came, and since when they wait.
    published: Option<u64>,
    since: Option<Instant>,
}

impl<'n, H: Wait + Clock> SignalFeed<'n, H> {
    /// Returns a feed of which nothing came yet. What was taken in waits for this many
    /// milliseconds, but what is due at first doesn't wait.
    pub(crate) fn new(
        rt: &'n H,
        signals: &'n Signals,
        listener: &'n Listener,
        interval: u64,
        is_due: bool,
    ) -> SignalFeed<'n, H> {
        SignalFeed {
            rt,
            signals,
            listener,
            interval: Duration::from_millis(interval),
            published: if is_due { Some(0) } else { None },
            since: None,
        }
    }

    // Records whether entries wait, and since when. This many were published when they came.
    fn note(&mut self, published: Option<u64>)
        ensures { (self.new.rt ≡ self.old.rt) × (self.new.signals ≡ self.old.signals)
            × (self.new.listener ≡ self.old.listener) }
    {
        if published != self.published {
            self.published = published;
            self.since = Instant::now(self.rt).ok();
        }
    }

    // Returns how long they still wait, which is no time if the machine's clock can't be read.
    fn left(&self) -> Duration {
        let Some(since) = self.since else {
            return Duration::ZERO;
        };
        match since.elapsed(self.rt) {
            Ok(time) => self.interval.saturating_sub(time),
            Err(_) => Duration::ZERO,
        }
    }

    // Returns `Due` if a publication is due. If not, waits for an event until one is, and returns
    // none if nothing happened.
    fn signal_or_due(&self) -> Option<Event<RunFault>> {
        let left = self.left();
        if let Some(fault) = self.signals.fault(self.rt) {
            return Some(Event::Failed(fault));
        }
        if left.is_zero() {
            return Some(Event::Due);
        }
        self.signals.wait_for(self.rt, Some(left))
    }
}

impl<H: Wait + Clock> Feed for SignalFeed<'_, H> {
    ghost use Rattle.std.specs.Prelude.{◌≡◌};

    ghost gives = { λ a b _. (b.rt ≡ a.rt) × (b.signals ≡ a.signals) × (b.listener ≡ a.listener) };

    fn wait(&mut self, published: Option<u64>) -> Event<RunFault> {
        self.note(published);
        if published.is_none() {
            return self.signals.wait(self.rt);
        }
        for _ in 0..u64::MAX {
            if let Some(event) = self.signal_or_due() {
                return event;
            }
        }
        Event::Stopped
    }

    fn note_taken(&self, lane: u32, index: u64, count: u64) {
        if let Some(queue) = self.signals.queue() {
            queue.note_taken(self.rt, lane, index, count);
        }
    }

    fn note_published(&self, size: u64) {
        if let Some(queue) = self.signals.queue() {
            queue.note_published(size);
            self.listener.wake_all();
        }
    }
}
