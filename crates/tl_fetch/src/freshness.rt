//! Checks that one of the witnesses cosigned a checkpoint lately enough.

ghost use Rattle.std.specs.Prelude.{IfErr, IfOk, MatchBool, OnOk, map};
ghost use Rattle.tl_fetch.specs.Command.{IsSinceOf};
ghost use Rattle.tl_key.specs.NoteKey.{verifier_key};
ghost use Rattle.tl_fetch.specs.Faults.{IsNoAccusation};
ghost use Rattle.tl_fetch.specs.Inner.Freshness.{AllEarly, AreEarly, HasLate, IsEarly, IsLate, RefusesFresh, SomeLate};
ghost use Rattle.tl_fetch.specs.Trusting.{IsFresh};

use crate::fault::FetchFault;
use crate::faults::BAD_CHECKPOINT;
use crate::policy::Policy;
use std::alloc::{AllocError, Global};
use std::time::{Clock, SystemTime, UNIX_EPOCH};
use tl_key::CosignerVerifier;
use tl_note::{NoteFault, SigView, parse_note};
use tl_policy::cosigned_at;
use tl_run::RunFault;

// Returns the seconds since 1970 that the clock reads. If it can't be read, it returns the most that there are, so
// that nothing is fresh.
fn seconds_now<H: Clock>(rt: &H) -> u64 {
    let Ok(now) = SystemTime::now(rt) else {
        return u64::MAX;
    };
    match now.duration_since(UNIX_EPOCH) {
        Ok(since) => since.as_secs(),
        Err(_) => u64::MAX,
    }
}

/// Returns the time from which on a cosignature is fresh, this many seconds before what the clock reads. Without
/// seconds it returns None and doesn't read the clock.
pub(crate) fn since_of<H: Clock>(rt: &H, fresh: Option<u64>) -> Option<u64>
    ensures { IsSinceOf fresh result }
{
    let Some(seconds) = fresh else {
        return None;
    };
    Some(seconds_now(rt).saturating_sub(seconds))
}

// Reports whether the line is a cosignature by the witness of this time or later.
fn is_late(
    alloc: Global,
    text: &str,
    line: &SigView<'_>,
    witness: &CosignerVerifier<Global>,
    since: u64,
) -> Result<bool, AllocError>
    ensures { IfOk result (λ late. MatchBool late
        (IsLate text.now since (verifier_key witness.now) line.now)
        (IsEarly text.now since (verifier_key witness.now) line.now)) }
{
    let Some(time) = cosigned_at(alloc, text, line, witness)? else {
        return Ok(false);
    };
    Ok(since <= time)
}

// Reports whether one of the lines is a cosignature by the witness of this time or later.
fn has_line(
    alloc: Global,
    text: &str,
    lines: &[SigView<'_>],
    witness: &CosignerVerifier<Global>,
    since: u64,
) -> Result<bool, AllocError>
    ensures { IfOk result (λ found. MatchBool found
        (HasLate text.now lines.now since (verifier_key witness.now))
        (AreEarly text.now lines.now since (verifier_key witness.now))) }
{
    let [first, rest @ ..] = lines else {
        return Ok(false);
    };
    if is_late(alloc, text, first, witness, since)? {
        return Ok(true);
    }
    has_line(alloc, text, rest, witness, since)
}

// Reports whether one of the lines is a cosignature by one of the witnesses of this time or later.
fn has_witness(
    alloc: Global,
    text: &str,
    lines: &[SigView<'_>],
    witnesses: &[CosignerVerifier<Global>],
    since: u64,
) -> Result<bool, AllocError>
    ensures { IfOk result (λ found. MatchBool found
        (SomeLate text.now lines.now since (map verifier_key witnesses.now))
        (AllEarly text.now lines.now since (map verifier_key witnesses.now))) }
{
    let [first, rest @ ..] = witnesses else {
        return Ok(false);
    };
    if has_line(alloc, text, lines, first, since)? {
        return Ok(true);
    }
    has_witness(alloc, text, lines, rest, since)
}

/// Checks that one of the witnesses cosigned the note lately enough (C2SP tlog-cosignature). If the policy asks for
/// no time, it doesn't read the note.
pub(crate) fn check_fresh(alloc: Global, policy: &Policy<'_>, note: &str) -> Result<(), FetchFault>
    ensures fresh { OnOk result
        (IsFresh note.now (map verifier_key policy.now.witnesses.now) policy.now.since) }
    ensures fair { IfErr result IsNoAccusation }
    ensures refused { IfErr result
        (RefusesFresh note.now (map verifier_key policy.now.witnesses.now) policy.now.since) }
{
    let Some(since) = policy.since else {
        return Ok(());
    };
    let view = match parse_note(alloc, note) {
        Ok(view) => view,
        Err(NoteFault::Malformed) => return Err(FetchFault::Run(BAD_CHECKPOINT)),
        Err(_) => return Err(FetchFault::Run(RunFault::OutOfMemory)),
    };
    let lines = view.signatures.as_slice();
    if has_witness(alloc, view.text, lines, policy.witnesses, since)? {
        return Ok(());
    }
    Err(FetchFault::Stale(since))
}
