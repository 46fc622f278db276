//! The trait of what keeps accepted links outside the program.

ghost use Rattle.std.specs.Prelude.{OnOk, OnErr};
ghost use Rattle.tl_proof.specs.Acceptance.{step_of};
ghost use Rattle.tl_witness.specs.ChainLine.{IsChainLine};
ghost use Rattle.tl_witness.specs.Saver.{Saved, Keeps, Fails};

use std::alloc::Allocator;
use tl_proof::Link;

/// The error of a save.
#[derive(Clone, Copy, Debug, PartialEq, Eq)]
pub struct SaveFault;

/// Keeps accepted links so that they outlive the program. Contracts see a `Saved`: how many saves failed, and the
/// origins and links that were saved, in order.
pub trait Saver {
    ghost saved: { Self → Saved };

    /// Saves a link of an origin, once, after those that it saved before. On error nothing was saved, and the count
    /// of failures rises unless it has reached its end.
    fn save<A: Allocator>(&mut self, origin: &str, link: &Link<A>) -> Result<(), SaveFault>
        requires { IsChainLine (record { origin = origin.now; step = step_of link.now }) }
        ensures kept { OnOk result
            (Keeps (saved self.old) (saved self.new) origin.now (step_of link.now)) }
        ensures failed { OnErr result (Fails (saved self.old) (saved self.new)) };
}
