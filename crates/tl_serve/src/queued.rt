//! How submitted entries enter a log: as the lines of a followed input do.

use crate::following::{ReadOn, Source};
use crate::submit_queue::SubmitQueue;
use std::alloc::Global;
use std::sync::Wait;
use std::vec::IntoIter;
use tl_lines::NextLine;
use tl_run::RunFault;

/// The entries of a queue, as they are submitted.
#[derive(Drop)]
pub(crate) struct Queued<'d, H> {
    rt: &'d H,
    queue: &'d SubmitQueue,
    // Those that were drained from the queue and aren't sent yet.
    taken: IntoIter<Vec<u8>>,
    count: u64,
}

impl<'d, H> Queued<'d, H> {
    /// Returns a source of which nothing came yet.
    pub(crate) fn new(rt: &'d H, alloc: Global, queue: &'d SubmitQueue) -> Queued<'d, H> {
        Queued {
            rt,
            queue,
            taken: Vec::new(alloc).into_iter(),
            count: 0,
        }
    }
}

impl<H: Wait + Sync> Source for Queued<'_, H> {
    fn cut(&mut self) -> Result<Option<NextLine<Global>>, RunFault> {
        match self.taken.next() {
            Some(entry) => {
                self.count = self.count.saturating_add(1);
                Ok(Some(NextLine::Entry(entry)))
            }
            None => Ok(None),
        }
    }

    fn wait(&mut self) -> Result<bool, RunFault> {
        self.queue.wait(self.rt)?;
        Ok(true)
    }

    fn read_on(&mut self) -> Result<ReadOn, RunFault> {
        self.taken = self.queue.drain(self.rt).into_iter();
        Ok(ReadOn::More)
    }

    // Reports whether the queue is empty, which counts as ended: the thread goes on until all connections are
    // answered.
    fn has_ended(&self) -> bool {
        self.queue.is_empty(self.rt)
    }

    fn last(&mut self) -> Option<NextLine<Global>> {
        None
    }

    fn count(&self) -> u64 {
        self.count
    }
}
