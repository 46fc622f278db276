//! Stores of the checkpoint that was trusted last.

use crate::fault::FetchFault;
use crate::policy::Policy;
use std::alloc::Global;

/// A store of the signed checkpoint of a log that was trusted last.
pub trait TrustStore {
    ghost use Rattle.std.specs.Prelude.{IfErr, IfOk, OnOk, Option, map, option_map, string_bytes};
    ghost use Rattle.tl_hash.specs.Bytes.{Bytes};
    ghost use Rattle.tl_fetch.specs.Faults.{IsNoAccusation};
    ghost use Rattle.tl_fetch.specs.declared.fault.FetchFault.{FetchFault};
    ghost use Rattle.tl_fetch.specs.Trusting.{IsNext, policy_in};

    /// Which note the store may have; None before the first one.
    ghost may_have: { Self → Option Bytes → Type 0 };

    /// Whether a note is the one that was kept last, as far as the store shows what it keeps.
    ghost has_kept: { Self → Bytes → Type 0 };

    /// The faults with which the store may fail.
    ghost may_fail: { Self → FetchFault → Type 0 };

    /// Returns the note that was kept last.
    fn last(&self, alloc: Global) -> Result<Option<String>, FetchFault>
        ensures had { IfOk result (λ note. may_have self.now (option_map string_bytes note)) }
        ensures refused { IfErr result (may_fail self.now) }
        ensures fair { IfErr result IsNoAccusation };

    /// Keeps a note in place of the last one. It is only called for a trusted note whose log extends the one known by
    /// the last note, by an accepted consistency proof. `last` is what the store gave.
    fn keep(
        &mut self,
        policy: &Policy<'_>,
        last: Option<&str>,
        note: &str,
    ) -> Result<(), FetchFault>
        requires had { may_have self.old (option_map (λ s. s.now) last) }
        requires next { IsNext (policy_in (λ v. key v) policy.now) (option_map (λ s. s.now) last)
            note.now }
        ensures kept { OnOk result (has_kept self.new note.now) }
        ensures refused { IfErr result (may_fail self.old) }
        ensures fair { IfErr result IsNoAccusation };
}

/// An empty state: nothing was known before, and nothing is kept.
#[derive(Clone, Copy, Debug, PartialEq, Eq)]
pub struct NoState;

impl TrustStore for NoState {
    ghost use Rattle.std.specs.Prelude.{◌≡◌, None};

    ghost may_have = { λ _ note. note ≡ None };

    ghost has_kept = { λ _ _. Unit {0} };

    ghost may_fail = { λ _ _. ⊥ };

    fn last(&self, _alloc: Global) -> Result<Option<String>, FetchFault> {
        Ok(None)
    }

    fn keep(
        &mut self,
        _policy: &Policy<'_>,
        _last: Option<&str>,
        _note: &str,
    ) -> Result<(), FetchFault> {
        Ok(())
    }
}
