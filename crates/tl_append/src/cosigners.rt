//! The witnesses that cosign what a log proposes.

ghost use Rattle.std.specs.Prelude.{None, Ok, map, option_map, IfOk, OnOk};
ghost use Rattle.tl_append.specs.Cosigning.{HasEnough, MeetsPolicy};
ghost use Rattle.tl_key.specs.NoteKey.{verifier_key};
ghost use Rattle.tl_policy.specs.ReadPolicy.{ReadsPolicy};
ghost use Rattle.tl_policy.specs.Terms.{terms_of};

use crate::proposal::ProposalStore;
use std::alloc::Global;
use tl_client::open_cosigned;
use tl_key::CosignerVerifier;
use tl_note::Verifier;
use tl_policy::{Policy, PolicyFault, parse_policy};
use tl_run::RunFault;

/// Asks witnesses to cosign. Their answers are untrusted.
pub trait AsksCosigners {
    /// Returns lines by which witnesses cosign this note of a checkpoint (C2SP tlog-witness). It may wait until there
    /// are enough. It is only ever called with a note that the store keeps.
    fn ask<P: ProposalStore>(&mut self, store: &P, note: &str) -> Result<String, RunFault>
        requires { P.has_kept store.now note.now };
}

/// Checks that enough witnesses cosigned a checkpoint.
pub trait ChecksCosigned {
    ghost use Rattle.std.specs.Prelude.{OnOk};
    ghost use Rattle.tl_append.specs.Cosigning.{HasQuorum, Quorum};

    /// The witnesses, and how many of them are needed.
    ghost quorum: { Self → Quorum };

    /// Accepts a note of a checkpoint that opens under the log's keys and that enough of the witnesses cosigned.
    fn check(&self, alloc: Global, note: &str) -> Result<(), RunFault>
        ensures { OnOk result (HasQuorum (quorum self.now) note.now) };
}

// Accepts a note that opens under the log's keys and that at least `need` of these witnesses cosigned.
fn check_cosigned(
    alloc: Global,
    note: &str,
    log: &[Box<dyn Verifier>],
    witnesses: &[CosignerVerifier<Global>],
    need: u64,
) -> Result<(), RunFault>
    ensures { OnOk result (HasEnough
        (record { witnesses = map verifier_key witnesses.now; need = need; policy = None }) note.now) }
{
    match open_cosigned(alloc, note, log, witnesses, need) {
        Ok(_checkpoint) => Ok(()),
        Err(_) => Err(RunFault::Operator),
    }
}

// Returns the policy that a text is. Fails with `Operator` if it is none.
fn policy_of(alloc: Global, text: &str) -> Result<Policy<'_, Global>, RunFault>
    ensures { IfOk result (λ policy. ReadsPolicy text.now (Ok (terms_of policy))) }
{
    match parse_policy(alloc, alloc, text) {
        Ok(policy) => Ok(policy),
        Err(PolicyFault::OutOfMemory) => Err(RunFault::OutOfMemory),
        Err(_) => Err(RunFault::Operator),
    }
}

// Accepts a note if those that cosigned it satisfy the policy that the text is.
fn check_policy(alloc: Global, note: &str, text: Option<&str>) -> Result<(), RunFault>
    ensures { OnOk result (MeetsPolicy (option_map (λ t. t.now) text.entry) note.now) }
{
    let Some(text) = text else {
        return Ok(());
    };
    let policy = match policy_of(alloc, text) {
        Ok(policy) => policy,
        Err(fault) => return Err(fault),
    };
    match policy.is_met_by(alloc, note) {
        Ok(true) => Ok(()),
        Ok(false) => Err(RunFault::Operator),
        Err(_) => Err(RunFault::OutOfMemory),
    }
}

/// Which witnesses have to cosign, and the keys of the log whose checkpoints they cosign.
#[derive(Clone, Copy)]
pub struct LogQuorum<'k> {
    log: &'k [Box<dyn Verifier>],
    witnesses: &'k [CosignerVerifier<Global>],
    need: u64,
    policy: Option<&'k str>,
}

impl<'k> LogQuorum<'k> {
    ghost use Rattle.std.specs.Prelude.{◌≡◌, map, option_map};
    ghost use Rattle.tl_key.specs.NoteKey.{verifier_key};

    /// Creates a quorum for checkpoints that open under the log's keys: at least `need` of these witnesses, and as
    /// the policy says that the text is, if there is one (C2SP tlog-policy).
    pub fn new(
        log: &'k [Box<dyn Verifier>],
        witnesses: &'k [CosignerVerifier<Global>],
        need: u64,
        policy: Option<&'k str>,
    ) -> LogQuorum<'k>
        ensures { ⟦<LogQuorum<'k> as ChecksCosigned>⟧.quorum result ≡ record {
          witnesses = map verifier_key witnesses.now;
          need = need;
          policy = option_map (λ t. t.now) policy.entry;
        } }
    {
        LogQuorum {
            log,
            witnesses,
            need,
            policy,
        }
    }
}

impl ChecksCosigned for LogQuorum<'_> {
    ghost use Rattle.std.specs.Prelude.{map, option_map};
    ghost use Rattle.tl_key.specs.NoteKey.{verifier_key};

    ghost quorum = { λ q. record {
      witnesses = map verifier_key q.witnesses.now;
      need = q.need;
      policy = option_map (λ t. t.now) q.policy;
    } };

    fn check(&self, alloc: Global, note: &str) -> Result<(), RunFault> {
        match check_cosigned(alloc, note, self.log, self.witnesses, self.need) {
            Ok(()) => {}
            Err(fault) => return Err(fault),
        }
        match check_policy(alloc, note, self.policy) {
            Ok(()) => Ok(()),
            Err(fault) => Err(fault),
        }
    }
}
