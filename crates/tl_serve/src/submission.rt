//! The submission of a connection.

use crate::receipt::Receipt;
use crate::signals::Signals;
use crate::submit_queue::{SubmitFault, SubmitQueue};
use std::sync::{Arc, Wait};
use tl_server::{EntryStatus, Submits};

/// The submission of a connection. If there is a queue, its entry is taken once, and known by its
/// receipt from then on.
#[derive(Drop)]
pub(crate) struct Submission<'t, H> {
    pub(crate) rt: &'t H,
    pub(crate) signals: &'t Signals,
    // The receipt of its entry, once that is submitted.
    pub(crate) receipt: Option<Arc<Receipt>>,
    // Whether it has waited long enough for the index.
    pub(crate) is_late: bool,
}

impl<H: Wait> Submission<'_, H> {
    // Returns the status of the submitted entry.
    fn look(&self, queue: &SubmitQueue) -> EntryStatus {
        let Some(receipt) = &self.receipt else {
            return EntryStatus::Refused;
        };
        let size = queue.published();
        match receipt.index_below(size) {
            Some(index) => EntryStatus::At { index, size },
            None if self.is_late => EntryStatus::Refused,
            None => EntryStatus::Later,
        }
    }
}

impl<H: Wait> Submits for Submission<'_, H> {
    fn submit(&mut self, entry: &[u8]) -> EntryStatus {
        let Some(queue) = self.signals.queue() else {
            return EntryStatus::Refused;
        };
        if self.receipt.is_some() {
            return self.look(queue);
        }
        if self.signals.is_stopped() {
            return EntryStatus::Refused;
        }
        self.signals.urge();
        match queue.submit(self.rt, entry) {
            Ok(receipt) => {
                self.receipt = Some(receipt);
                self.look(queue)
            }
            Err(SubmitFault::Refused) => EntryStatus::Refused,
            Err(SubmitFault::NoMemory) => EntryStatus::NoMemory,
        }
    }
}
