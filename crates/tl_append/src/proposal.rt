//! Keeping what a log proposes.

use std::alloc::Global;
use tl_run::RunFault;

/// Keeps the signed note of the checkpoint that a log proposes, before any witness sees it (C2SP tlog-checkpoint).
pub trait ProposalStore {
    ghost use Rattle.std.specs.Prelude.{IfOk, OnOk, Option, option_map, string_bytes};
    ghost use Rattle.tl_hash.specs.Bytes.{Bytes};

    /// The note that may be kept; none before the first one.
    ghost may_have: { Self → Option Bytes → Type 0 };

    /// Whether this note is the one that was kept last.
    ghost has_kept: { Self → Bytes → Type 0 };

    /// Returns the note that was kept last.
    fn last(&self, alloc: Global) -> Result<Option<String>, RunFault>
        ensures { IfOk result (λ note. may_have self.now (option_map string_bytes note)) };

    /// Keeps a note in place of the last one, so that it outlasts a crash. At a failure either of them may be kept.
    fn keep(&mut self, note: &str) -> Result<(), RunFault>
        ensures { OnOk result (has_kept self.new note.now) };
}

/// No store: no proposal was kept before, and none can be.
#[derive(Clone, Copy, Debug, PartialEq, Eq)]
pub struct NoProposals;

impl ProposalStore for NoProposals {
    ghost use Rattle.std.specs.Prelude.{◌≡◌, None};

    ghost may_have = { λ _ note. note ≡ None };

    ghost has_kept = { λ _ _. ⊥ };

    fn last(&self, _alloc: Global) -> Result<Option<String>, RunFault> {
        Ok(None)
    }

    fn keep(&mut self, _note: &str) -> Result<(), RunFault> {
        Err(RunFault::Operator)
    }
}
