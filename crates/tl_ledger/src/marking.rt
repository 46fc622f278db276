//! Checking a log against the mark of its shelf.

use crate::ledger::Ledger;
use std::alloc::Allocator;
use thiserror::Error;
use tl_archive::{Shelf, ShelfFault};

/// Why a log may not be continued.
#[derive(Clone, Copy, Debug, PartialEq, Eq, Error)]
pub enum MarkFault {
    /// The shelf failed.
    #[error("{0}")]
    Shelf(ShelfFault),
    /// A checkpoint of this many entries was published, which is more than the log has.
    #[error("older than one of {0} entries")]
    Older(u64),
}

impl<A: Allocator + Copy> Ledger<A> {
    ghost use Rattle.std.specs.Prelude.{◌≡◌, true, IfErr, OnOk};
    ghost use Rattle.tl_ledger.specs.Marks.{IsWithin, MarkFails};

    /// Checks that the log has as many entries as the shelf's mark says were published, or more. `Older` means that
    /// it has fewer: the checkpoint was removed or replaced by an older one.
    pub fn check_mark<S: Shelf>(&self, shelf: &S) -> Result<(), MarkFault>
        ensures within { S.is_honest ≡ true
            → OnOk result (IsWithin self.now.edge.size (S.published shelf.now)) }
        ensures refused { IfErr result (λ fault.
            MarkFails S.is_honest self.now.edge.size (S.published shelf.now) fault) }
    {
        let marked = match shelf.read_mark() {
            Ok(Some(marked)) => marked,
            Ok(None) => return Ok(()),
            Err(fault) => return Err(MarkFault::Shelf(fault)),
        };
        if marked > self.size() {
            return Err(MarkFault::Older(marked));
        }
        Ok(())
    }
}
