//! Whether the witnesses that cosigned a note satisfy the quorum of a policy.

ghost use Rattle.std.specs.Prelude.{◌≡◌, IfOk};
ghost use Rattle.tl_policy.specs.Cosigned.{cosigners};
ghost use Rattle.tl_policy.specs.Quorum.{MeetsQuorum};
ghost use Rattle.tl_policy.specs.Terms.{terms_of};

use crate::policy::Policy;
use std::alloc::{AllocError, Allocator};
use tl_note::{NoteFault, parse_note};

/// Returns the set of those that have a time.
pub(crate) fn set_of<A: Allocator>(
    alloc: A,
    times: &[Option<u64>],
) -> Result<Vec<bool, A>, AllocError>
    ensures { IfOk result (λ set. set.items ≡ cosigners times.now) }
{
    let mut set = Vec::new(alloc);
    for time in times {
        set.push(time.is_some())?;
    }
    Ok(set)
}

impl<'t, A: Allocator + Copy> Policy<'t, A> {
    /// Reports whether the witnesses that cosigned a note satisfy the quorum (C2SP tlog-cosignature, tlog-policy). It
    /// doesn't look for the signature of a log, as `open_under` does. Nothing but a note satisfies one. It fails only
    /// if memory runs out.
    pub fn is_met_by(&self, alloc: A, note: &str) -> Result<bool, AllocError>
        ensures { IfOk result (MeetsQuorum (terms_of self.now) note.now) }
    {
        let view = match parse_note(alloc, note) {
            Ok(view) => view,
            Err(NoteFault::OutOfMemory) => return Err(AllocError),
            Err(_) => return Ok(false),
        };
        let times = self.cosigned_by(alloc, view.text, view.signatures.as_slice())?;
        let set = set_of(alloc, times.as_slice())?;
        Ok(self.is_satisfied(set.as_slice()))
    }
}
