//! The queue to which connections submit entries, and from which they learn the indexes.

use crate::receipt::Receipt;
use crate::remembered::Remembered;
use crate::watch::Watch;
use mio::Waker;
use std::alloc::{AllocError, AllocFailed, Global};
use std::collections::VecDeque;
use std::net::Net;
use std::sync::atomic::{AtomicU64, Ordering};
use std::sync::{Arc, Mutex, Wait};
use tl_device::DeviceFault;
use tl_hash::{Hash, Sha256Tree, leaf_hash};
use tl_run::{Place, RunFault};
use tl_tile::{Resource, bundle_width};

// What was submitted: the entries that are still to be sent to the log, and the receipts of all
// that have no index yet, both in the order in which they came.
#[derive(Drop)]
struct Submitted {
    entries: Vec<Vec<u8>>,
    receipts: VecDeque<Arc<Receipt>>,
}

/// Why an entry wasn't taken.
#[derive(Clone, Copy)]
pub(crate) enum SubmitFault {
    /// There is no room for it now.
    Refused,
    /// Allocation failed.
    NoMemory,
}

impl From<AllocError> for SubmitFault {
    fn from(_fault: AllocError) -> SubmitFault {
        SubmitFault::NoMemory
    }
}

impl<X: Drop> From<AllocFailed<X>> for SubmitFault {
    fn from(_fault: AllocFailed<X>) -> SubmitFault {
        SubmitFault::NoMemory
    }
}

/// The queue to which connections submit entries. A thread of its own sends them to the log in
/// order, by a lane of its own. The thread that publishes reports their indexes.
#[derive(Drop)]
pub(crate) struct SubmitQueue {
    alloc: Global,
    lane: u32,
    // How many entries may wait to be sent.
    room: usize,
    submitted: Mutex<Submitted>,
    remembered: Mutex<Remembered>,
    // What the sending thread waits with, and what wakes it.
    watch: Mutex<Watch>,
    waker: Waker,
    // How many entries the log had when it was last published.
    published: AtomicU64,
}

impl SubmitQueue {
    /// Returns a queue whose entries go by this lane to a log with this many entries, which are published, and of
    /// which some are remembered. At most `room` entries wait to be sent. Fails with `Read` if the system refuses to
    /// wait for them.
    pub(crate) fn new<H: Net>(
        rt: &H,
        alloc: Global,
        lane: u32,
        room: usize,
        size: u64,
        remembered: Remembered,
    ) -> Result<SubmitQueue, RunFault> {
        let (watch, waker) = Watch::new(rt, alloc)?;
        Ok(SubmitQueue {
            alloc,
            lane,
            room,
            submitted: Mutex::new(Submitted {
                entries: Vec::new(alloc),
                receipts: VecDeque::new(alloc),
            }),
            remembered: Mutex::new(remembered),
            watch: Mutex::new(watch),
            waker,
            published: AtomicU64::new(size),
        })
    }

    // Appends an entry that isn't remembered.
    fn push<H: Wait>(&self, rt: &H, entry: &[u8], leaf: Hash) -> Result<Arc<Receipt>, SubmitFault> {
        let entry = Vec::from_slice(self.alloc, entry)?;
        let receipt = Arc::new(self.alloc, Receipt::new(leaf, None))?;
        let own = Arc::try_clone(&receipt)?;
        let mut submitted = self.submitted.lock(rt);
        if submitted.entries.len() >= self.room {
            return Err(SubmitFault::Refused);
        }
        submitted.entries.reserve(1)?;
        submitted.receipts.push_back(own)?;
        submitted.entries.push(entry)?;
        if submitted.entries.len() == 1 {
            self.wake();
        }
        Ok(receipt)
    }

    /// Takes an entry, unless it is remembered, and returns its receipt. The receipt gives the
    /// index once that is published. From now on the entry is remembered.
    pub(crate) fn submit<H: Wait>(
        &self,
        rt: &H,
        entry: &[u8],
    ) -> Result<Arc<Receipt>, SubmitFault> {
        let leaf = leaf_hash(Sha256Tree, entry);
        let known = self.remembered.lock(rt).find(&leaf);
        if let Some(receipt) = known {
            return Ok(receipt);
        }
        let receipt = self.push(rt, entry, leaf)?;
        if let Ok(own) = Arc::try_clone(&receipt) {
            self.remembered.lock(rt).put(own);
        }
        Ok(receipt)
    }

    /// Wakes the thread that sends.
    pub(crate) fn wake(&self) {
        let _ = self.waker.wake();
    }

    /// Waits until something is submitted, or nothing will be any more. Fails with `Read` if the system refuses to
    /// wait.
    pub(crate) fn wait<H: Wait>(&self, rt: &H) -> Result<(), RunFault> {
        self.watch.lock(rt).wait(None)
    }

    /// Reports whether no entry is to be sent.
    pub(crate) fn is_empty<H: Wait>(&self, rt: &H) -> bool {
        self.submitted.lock(rt).entries.is_empty()
    }

    /// Removes the entries that are to be sent, and returns them.
    pub(crate) fn drain<H: Wait>(&self, rt: &H) -> Vec<Vec<u8>> {
        let mut submitted = self.submitted.lock(rt);
        std::mem::replace(&mut submitted.entries, Vec::new(self.alloc))
    }

    /// Records that the log took in this many entries of a lane, the first of them at this index.
    pub(crate) fn note_taken<H: Wait>(&self, rt: &H, lane: u32, index: u64, count: u64) {
        if lane != self.lane {
            return;
        }
        let mut submitted = self.submitted.lock(rt);
        for before in 0..count {
            let Some(receipt) = submitted.receipts.pop_front() else {
                break;
            };
            receipt.set(index.saturating_add(before));
        }
    }

    /// Records that this many entries of the log are published.
    pub(crate) fn note_published(&self, size: u64) {
        self.published.store(size, Ordering::SeqCst);
    }

    /// Returns the fault of a log that doesn't have this entry at its index: its bundle is damaged.
    pub(crate) fn damage(&self, receipt: &Receipt) -> RunFault {
        let size = self.published();
        let Some(entry) = receipt.index_below(size) else {
            return RunFault::Operator;
        };
        let index = entry / 256;
        let width = bundle_width(size, index);
        let place = Place::Log(Some(Resource::Entries { index, width }));
        RunFault::Device(place, DeviceFault::Damaged)
    }

    /// Returns how many entries of the log are published.
    pub(crate) fn published(&self) -> u64 {
        self.published.load(Ordering::SeqCst)
    }
}
