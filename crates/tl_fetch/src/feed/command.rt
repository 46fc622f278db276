//! The command `feed`.

ghost use Rattle.std.specs.Prelude.{◌≡◌, map, string_bytes};
ghost use Rattle.tl_device.specs.Device.{passage};
ghost use Rattle.tl_fetch.specs.Command.{keys_of};
ghost use Rattle.tl_fetch.specs.FeedCommand.{RunsFeed, RunsFeedUnder};
ghost use Rattle.tl_fetch.specs.Inner.FeedRuns.{FeedsOver};
ghost use Rattle.tl_fetch.specs.Inner.LogKeys.{OrEarly, of_log};
ghost use Rattle.tl_fetch.specs.Trusting.{policy_in};
ghost use Rattle.tl_key.specs.NoteKey.{verifier_key};

use crate::command::{source_of, with_lack};
use crate::conditions::Conditions;
use crate::fault::FetchFault;
use crate::feed::asking::AsksWitnesses;
use crate::feed::feeding::feed_under;
use crate::feed::witnesses::{HttpWitnesses, addresses};
use crate::freshness::since_of;
use crate::log_keys::{LogKeys, NamedKeys, named_keys};
use crate::observer::Nobody;
use crate::options::FetchOptions;
use crate::policy::Policy;
use crate::state::NoState;
use crate::state_file::{FileState, file_refusal};
use std::alloc::Global;
use std::fs::{File, Files};
use std::io::Write;
use std::net::{Net, TcpStream};
use std::snapshot::Snapshot;
use std::time::{Clock, Duration};
use tl_client::ResourceSource;
use tl_device::Counted;
use tl_folder::AtomicFile;
use tl_note::Verifier;
use tl_source::{FullSource, NamesLack};

/// The options of `feed`.
#[derive(Drop)]
pub struct FeedOptions {
    /// Where the log is, its keys, the witnesses' keys, how many of them must cosign, the file of the state, and how
    /// many seconds one answer may take, as `fetch` has them. `cache`, `threads` and `wanted` aren't used.
    pub log: FetchOptions,
    /// The addresses of the witnesses, in the order of their keys, one for the keys of one name that follow one
    /// another.
    pub to: Vec<String>,
}

// Brings the log's checkpoint before the witnesses, with the state in a file, if one is named.
fn feed_with_state<H: Files<File = File>, S: ResourceSource, Q: AsksWitnesses, W: Write>(
    rt: &H,
    alloc: Global,
    source: &S,
    policy: &Policy<'_>,
    options: &FetchOptions,
    asker: &mut Q,
    writer: &mut Counted<W>,
) -> Result<(), FetchFault>
    ensures { FeedsOver (S.may_answer source.now) (S.may_lack source.now)
        (policy_in (λ v. key v) policy.now) options.now (passage W.contents writer.old writer.new)
        result }
{
    let mut nobody = Nobody;
    let Some(path) = &options.state else {
        let mut state = NoState;
        return match feed_under(
            alloc,
            source,
            policy,
            &mut state,
            asker,
            &mut nobody,
            writer,
        ) {
            Ok(()) => Ok(()),
            Err(fault) => Err(fault),
        };
    };
    let file = match AtomicFile::open(rt, alloc, path.as_str()) {
        Ok(file) => file,
        Err(fault) => return Err(file_refusal(fault)),
    };
    let mut state = FileState(file);
    match feed_under(
        alloc,
        source,
        policy,
        &mut state,
        asker,
        &mut nobody,
        writer,
    ) {
        Ok(()) => Ok(()),
        Err(fault) => Err(fault),
    }
}

/// Brings the checkpoint of the log that the options name before the witnesses at these addresses.
pub(crate) fn feed_as_asked<
    's,
    H: Files<File = File> + Net<Stream = TcpStream> + Clock,
    W: Write,
    E: Write,
>(
    rt: &'s H,
    alloc: Global,
    policy: &Policy<'_>,
    to: &'s [String],
    options: &'s FetchOptions,
    writer: &mut Counted<W>,
    errors: &'s mut Counted<E>,
) -> Result<(), FetchFault>
    ensures { RunsFeedUnder (policy_in (λ v. key v) policy.now) (map string_bytes to.now)
        options.now (passage W.contents writer.old writer.new) result }
{
    let urls = match addresses(alloc, to) {
        Ok(urls) => urls,
        Err(fault) => return Err(fault),
    };
    let from = options.from.as_str();
    let source = match source_of(rt, alloc, from, options.timeout) {
        Ok(source) => source,
        Err(fault) => return Err(fault),
    };
    let source = FullSource::new(alloc, &source);
    let mut asker = HttpWitnesses {
        rt,
        alloc,
        urls,
        limit: Duration::from_secs(options.timeout),
        errors,
    };
    let outcome = feed_with_state(rt, alloc, &source, policy, options, &mut asker, writer);
    with_lack(outcome, source.lack())
}

// Feeds as `feed_as_asked` does by these keys of the log, which are boxed.
fn feed_of<'s, 'k, H: Files<File = File> + Net<Stream = TcpStream> + Clock, W: Write, E: Write>(
    rt: &'s H,
    alloc: Global,
    _own: &Snapshot<LogKeys>,
    asked: Conditions<'k>,
    log: &'k [Box<dyn Verifier>],
    to: &'s [String],
    options: &'s FetchOptions,
    writer: &mut Counted<W>,
    errors: &'s mut Counted<E>,
) -> Result<(), FetchFault>
    requires { map (λ v. key v) log.now
        ≡ map verifier_key (keys_of _own.now.value.key _own.now.value.other) }
    ensures { OrEarly (RunsFeedUnder (of_log _own.now.value.key _own.now.value.other asked.entry)
        (map string_bytes to.now) options.now (passage W.contents writer.old writer.new))
        (passage W.contents writer.old writer.new) result }
{
    let policy = Policy {
        origin: asked.origin,
        log,
        witnesses: asked.witnesses,
        need: asked.need,
        since: asked.since,
        under: asked.under,
    };
    match feed_as_asked(rt, alloc, &policy, to, options, writer, errors) {
        Ok(()) => Ok(()),
        Err(fault) => Err(fault),
    }
}

/// Brings the checkpoint of the log of these keys, one or two, before the witnesses at these addresses, under what a
/// policy says beside them.
pub(crate) fn feed_by<
    's,
    H: Files<File = File> + Net<Stream = TcpStream> + Clock,
    W: Write,
    E: Write,
>(
    rt: &'s H,
    alloc: Global,
    keys: LogKeys,
    asked: Conditions<'_>,
    to: &'s [String],
    options: &'s FetchOptions,
    writer: &mut Counted<W>,
    errors: &'s mut Counted<E>,
) -> Result<(), FetchFault>
    ensures { OrEarly (RunsFeedUnder (of_log keys.key keys.other asked.entry)
        (map string_bytes to.now) options.now (passage W.contents writer.old writer.new))
        (passage W.contents writer.old writer.new) result }
{
    let own = Snapshot::of(&keys);
    let first: Box<dyn Verifier> = Box::new(alloc, keys.key)?;
    let Some(other) = keys.other else {
        let log = [first];
        return feed_of(rt, alloc, &own, asked, &log, to, options, writer, errors);
    };
    let second: Box<dyn Verifier> = Box::new(alloc, other)?;
    let log = [first, second];
    feed_of(rt, alloc, &own, asked, &log, to, options, writer, errors)
}

/// Runs the command `feed`. It reads the verifier keys of the log, one or two, and of the witnesses (C2SP
/// signed-note, "Verifier keys"), and brings the checkpoint of the log, read from a folder or over HTTP, before each
/// witness as `feed_under` does. It prints to `errors` a line for each witness that gave no cosignature.
pub fn run_feed<'s, H: Files<File = File> + Net<Stream = TcpStream> + Clock, W: Write, E: Write>(
    rt: &'s H,
    alloc: Global,
    options: &'s FeedOptions,
    writer: &mut Counted<W>,
    errors: &'s mut Counted<E>,
) -> Result<(), FetchFault>
    ensures { RunsFeed options.now (passage W.contents writer.old writer.new) result }
{
    let NamedKeys { log, witnesses } = named_keys(alloc, &options.log)?;
    let origin = String::from_str(alloc, log.key.name())?;
    let asked = Conditions {
        origin: origin.as_str(),
        witnesses: witnesses.as_slice(),
        need: options.log.need,
        since: since_of(rt, options.log.fresh),
        under: None,
    };
    let to = options.to.as_slice();
    feed_by(rt, alloc, log, asked, to, &options.log, writer, errors)
}
