//! The saver of a witness that prints its links.

ghost use Rattle.std.specs.Prelude.{◌≡◌, ◌<◌, ◌-◌, ◌^◌, ◌⊎◌, IfOk, IsErr};
ghost use Rattle.tl_proof.specs.Acceptance.{step_of};
ghost use Rattle.tl_witness.specs.ChainLine.{IsChainLine};

use crate::queue::LineQueue;
use crate::written::{LinkLine, WrittenLink};
use std::alloc::{Allocator, Global};
use std::io::Write;
use std::sync::Wait;
use tl_proof::Link;
use tl_witness::{SaveFault, Saver};

/// A saver that has the line of each link written by a queue that several threads share, and keeps what was written.
#[derive(Drop)]
pub struct LineSaver<'a, 'w, H: Wait, O> {
    rt: &'a H,
    alloc: Global,
    queue: &'a LineQueue<'w, O>,
    failures: u64,
    links: Vec<WrittenLink>,
}

impl<'a, 'w, H: Wait, O: Write> LineSaver<'a, 'w, H, O> {
    /// Returns a saver that has nothing yet, and gives its lines to `queue`.
    pub fn new(rt: &'a H, alloc: Global, queue: &'a LineQueue<'w, O>) -> LineSaver<'a, 'w, H, O> {
        LineSaver {
            rt,
            alloc,
            queue,
            failures: 0,
            links: Vec::new(alloc),
        }
    }

    /// Reports whether a save has failed.
    pub(crate) fn has_failed(&self) -> bool {
        self.failures > 0
    }

    // Writes the line of a link by the queue, and checks what comes back.
    fn print<A: Allocator>(&self, origin: &str, link: &Link<A>) -> Result<WrittenLink, SaveFault>
        requires { IsChainLine (record { origin = origin.now; step = step_of link.now }) }
        ensures { IfOk result (λ written. written ≡ (origin.now, step_of link.now)) }
    {
        let Ok(line) = LinkLine::of(self.alloc, origin, link) else {
            return Err(SaveFault);
        };
        match self.queue.save(self.rt, line) {
            Ok(written) if written.is_of(origin, link) => Ok(written),
            _ => Err(SaveFault),
        }
    }

    // Counts one more failure.
    fn fail(&mut self) -> Result<(), SaveFault>
        ensures failed { IsErr result }
        ensures counted { (self.old.failures < self.new.failures)
            ⊎ (self.old.failures ≡ 2 ^ 64 - 1) }
        ensures links { self.new.links ≡ self.old.links }
    {
        self.failures = self.failures.saturating_add(1);
        Err(SaveFault)
    }
}

impl<'a, 'w, H: Wait, O: Write> Saver for LineSaver<'a, 'w, H, O> {
    ghost saved = { λ s. record { failures = s.failures; links = s.links.items } };

    fn save<A: Allocator>(&mut self, origin: &str, link: &Link<A>) -> Result<(), SaveFault> {
        if self.links.reserve(1).is_err() {
            return self.fail();
        }
        match self.print(origin, link) {
            Ok(written) => {
                self.links.push_reserved(written);
                Ok(())
            }
            Err(_) => self.fail(),
        }
    }
}
