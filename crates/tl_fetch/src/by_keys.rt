//! Fetching by the keys of a log, one or two.

ghost use Rattle.std.specs.Prelude.{◌≡◌, map};
ghost use Rattle.tl_device.specs.Device.{passage};
ghost use Rattle.tl_fetch.specs.Command.{RunsUnder, keys_of};
ghost use Rattle.tl_fetch.specs.Inner.LogKeys.{OrEarly, of_log};
ghost use Rattle.tl_key.specs.NoteKey.{verifier_key};

use crate::command::fetch_as_asked;
use crate::conditions::Conditions;
use crate::fault::FetchFault;
use crate::log_keys::LogKeys;
use crate::options::FetchOptions;
use crate::policy::Policy;
use std::alloc::Global;
use std::fs::{File, Files};
use std::io::Write;
use std::snapshot::Snapshot;
use tl_device::Counted;
use tl_note::Verifier;
use tl_source::HostClient;

// Fetches as `fetch_as_asked` does from the log of these keys, which are boxed.
fn fetch_of<'s, 'k, H: Files<File = File> + HostClient, W: Write, E: Write>(
    rt: &'s H,
    alloc: Global,
    _own: &Snapshot<LogKeys>,
    asked: Conditions<'k>,
    log: &'k [Box<dyn Verifier>],
    options: &'s FetchOptions,
    writer: &mut Counted<W>,
    errors: &'s mut Counted<E>,
    is_terminal: bool,
) -> Result<(), FetchFault>
    requires { map (λ v. key v) log.now
        ≡ map verifier_key (keys_of _own.now.value.key _own.now.value.other) }
    ensures { OrEarly (RunsUnder (of_log _own.now.value.key _own.now.value.other asked.entry)
        options.now (passage W.contents writer.old writer.new))
        (passage W.contents writer.old writer.new) result }
{
    let policy = Policy {
        origin: asked.origin,
        log,
        witnesses: asked.witnesses,
        need: asked.need,
        since: asked.since,
        under: asked.under,
    };
    match fetch_as_asked(rt, alloc, &policy, options, writer, errors, is_terminal) {
        Ok(()) => Ok(()),
        Err(fault) => Err(fault),
    }
}

/// Fetches as `fetch_as_asked` does from the log of these keys, one or two, under what a policy says beside them.
pub(crate) fn fetch_by<'s, H: Files<File = File> + HostClient, W: Write, E: Write>(
    rt: &'s H,
    alloc: Global,
    keys: LogKeys,
    asked: Conditions<'_>,
    options: &'s FetchOptions,
    writer: &mut Counted<W>,
    errors: &'s mut Counted<E>,
    is_terminal: bool,
) -> Result<(), FetchFault>
    ensures { OrEarly (RunsUnder (of_log keys.key keys.other asked.entry)
        options.now (passage W.contents writer.old writer.new))
        (passage W.contents writer.old writer.new) result }
{
    let own = Snapshot::of(&keys);
    let first: Box<dyn Verifier> = Box::new(alloc, keys.key)?;
    let Some(other) = keys.other else {
        let log = [first];
        return fetch_of(
            rt,
            alloc,
            &own,
            asked,
            &log,
            options,
            writer,
            errors,
            is_terminal,
        );
    };
    let second: Box<dyn Verifier> = Box::new(alloc, other)?;
    let log = [first, second];
    fetch_of(
        rt,
        alloc,
        &own,
        asked,
        &log,
        options,
        writer,
        errors,
        is_terminal,
    )
}
