//! Checks that the text of a policy trusts a checkpoint.

ghost use Rattle.std.specs.Prelude.{◌≡◌, IfErr, OnOk, option_map};
ghost use Rattle.std.specs.List.{list_any};
ghost use Rattle.tl_fetch.specs.Faults.{IsNoAccusation};
ghost use Rattle.tl_fetch.specs.Inner.Late.{IsEarlyBy};
ghost use Rattle.tl_fetch.specs.Opening.{RefusesUnder};
ghost use Rattle.tl_fetch.specs.Trusting.{AreFresh, IsUnder, is_late, under_of};

use crate::fault::FetchFault;
use crate::faults::trust_refusal;
use crate::under::Under;
use std::alloc::Global;
use tl_policy::open_under;

// Whether the time of a cosignature is this one or later.
fn is_late(time: &Option<u64>, since: u64) -> bool
    ensures { result ≡ is_late since time.now }
{
    match time {
        Some(time) => since <= *time,
        None => false,
    }
}

// Whether one of the times is this one or later.
fn has_late(times: &[Option<u64>], since: u64) -> bool
    ensures { result ≡ list_any (is_late since) times.now }
{
    times.iter().any(|time| is_late(time, since))
}

// Checks that one of the times is late enough, if that is asked for.
fn check_times(times: &[Option<u64>], since: Option<u64>) -> Result<(), FetchFault>
    ensures fresh { OnOk result (AreFresh times.now since) }
    ensures fair { IfErr result IsNoAccusation }
    ensures refused { IfErr result (IsEarlyBy times.now since) }
{
    let Some(since) = since else {
        return Ok(());
    };
    if has_late(times, since) {
        return Ok(());
    }
    Err(FetchFault::Stale(since))
}

/// Checks that the text of a policy trusts the note, if there is one, and that one of its witnesses cosigned it lately
/// enough, if that is asked for. It fails with `Untrusted` or `Stale` if not.
pub(crate) fn check_under(
    alloc: Global,
    under: &Option<Under<'_>>,
    note: &str,
) -> Result<(), FetchFault>
    ensures trusted { OnOk result (IsUnder (option_map under_of under.now) note.now) }
    ensures fair { IfErr result IsNoAccusation }
    ensures refused { IfErr result (RefusesUnder (option_map under_of under.now) note.now) }
{
    let Some(under) = under else {
        return Ok(());
    };
    let trusted = match open_under(alloc, under.policy, note) {
        Ok(trusted) => trusted,
        Err(fault) => return Err(trust_refusal(fault)),
    };
    match check_times(trusted.times.as_slice(), under.since) {
        Ok(()) => Ok(()),
        Err(fault) => Err(fault),
    }
}
