//! How a program makes workers put side by side.

use crate::workers::Worker;
use std::fs::Files;
use std::net::{Net, TcpStream};
use std::time::Clock;
use tl_folder::{AnyOutcome, CrashOutcome, SideBySide, SyncKind, SyncOutcome, SyncsTogether};

/// Makes workers put what they have, one after another or side by side.
pub trait PutsTogether {
    /// Makes each of the workers work. One that doesn't work reports that it has put nothing.
    fn put_together<H: Net<Stream = TcpStream> + Clock>(&self, rt: &H, workers: &mut [Worker]);
}

impl PutsTogether for AnyOutcome {
    fn put_together<H: Net<Stream = TcpStream> + Clock>(&self, rt: &H, workers: &mut [Worker]) {
        for worker in workers {
            worker.work(rt);
        }
    }
}

/// Spreads the work of workers over threads. A program passes such a function, since it alone has the handle of the
/// threads.
pub type SpreadWork = fn(&HostRuntime, &mut [Worker]);

/// What a program does side by side: its disk's syncs, and its puts. `spread` makes each worker work.
#[derive(Clone, Copy)]
pub struct DiskAndStore {
    disk: SideBySide,
    rt: HostRuntime,
    spread: SpreadWork,
    ghost callable: { IsAlwaysCallable spread },
}

impl DiskAndStore {
    /// Pairs this disk with a store to which `spread` makes workers put.
    pub fn new(disk: SideBySide, rt: HostRuntime, spread: SpreadWork) -> DiskAndStore
        requires { IsAlwaysCallable spread }
    {
        DiskAndStore { disk, rt, spread }
    }
}

impl PutsTogether for DiskAndStore {
    fn put_together<H: Net<Stream = TcpStream> + Clock>(&self, _rt: &H, workers: &mut [Worker]) {
        (self.spread)(&self.rt, workers);
    }
}

impl SyncsTogether for DiskAndStore {
    fn sync_each<H: Files>(
        &self,
        files: &H,
        kind: SyncKind,
        paths: &[String],
        outcomes: &mut [SyncOutcome],
    ) {
        self.disk.sync_each(files, kind, paths, outcomes);
    }
}

impl CrashOutcome for DiskAndStore {
    ghost use Rattle.std.specs.Prelude.{None, false};

    ghost held = { λ _. None };

    ghost reached = { λ _ _. false };
}
