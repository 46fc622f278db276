//! The command `fetch`.

ghost use Rattle.std.specs.Prelude.{◌≡◌, ◌++◌, string_bytes, IfErr, IfOk, codes};
ghost use Rattle.tl_device.specs.Device.{passage};
ghost use Rattle.tl_fetch.specs.Command.{HasScheme, IsOriginOf, IsStateFault, RunsFetch, RunsUnder, cached_answers, cached_lacks};
ghost use Rattle.tl_fetch.specs.Inner.Naming.{Renames, RunsOver, RunsWith, told_as};
ghost use Rattle.tl_fetch.specs.Trusting.{policy_in};
ghost use Rattle.tl_source.specs.Sources.{origin_of};
ghost use Rattle.tl_source.specs.Url.{IsNoUrl};

use crate::by_keys::fetch_by;
use crate::caching::Caching;
use crate::conditions::Conditions;
use crate::fault::{Address, FetchFault};
use crate::freshness::since_of;
use crate::log_keys::{NamedKeys, named_keys};
use crate::observer::Observer;
use crate::options::{FetchOptions, FetchRequest};
use crate::policy::Policy;
use crate::progress::Progress;
use crate::run::fetch_under;
use crate::state::NoState;
use crate::state_file::{FileState, file_refusal};
use std::alloc::{AllocError, Global};
use std::fs::{File, Files};
use std::io::Write;
use std::net::{Net, TcpListener, TcpStream};
use std::thread::Threads;
use std::time::{Clock, Duration};
use tl_client::ResourceSource;
use tl_device::Counted;
use tl_folder::{AtomicFile, TileCache};
use tl_note::Verifier;
use tl_run::{Place, RunFault};
use tl_source::{
    AnySource, AsksHost, CachedSource, FolderSource, FullSource, HostClient, HttpSource, Lack,
    NamesLack, Requests, Url,
};

// How many requests to a host are in flight at once if the options don't say.
const AT_ONCE: u16 = 8;

/// Returns the source of a log at an address, if the text has a scheme, and else in a folder. An answer takes at most
/// this many seconds. It fails with `BadAddress` if the text has a scheme and is no address over HTTP.
pub fn source_of<'s, H: Files + Net<Stream = TcpStream> + Clock>(
    rt: &'s H,
    alloc: Global,
    from: &'s str,
    timeout: u64,
) -> Result<AnySource<'s, H>, FetchFault>
    ensures found { IfOk result (λ s. IsOriginOf from.now (origin_of s)) }
    ensures refused { IfErr result (λ fault. (fault ≡ FetchFault.BadAddress Address.From)
        × HasScheme from.now × IsNoUrl from.now) }
{
    if !from.contains("://") {
        return Ok(AnySource::Folder(FolderSource::new(rt, alloc, from)));
    }
    let Some(url) = Url::parse(from) else {
        return Err(FetchFault::BadAddress(Address::From));
    };
    let limit = Duration::from_secs(timeout);
    Ok(AnySource::Http(HttpSource::new(rt, alloc, url, limit)))
}

// Returns the path of the file beside a state's that says up to where all entries were printed.
fn printed_path(alloc: Global, state: &str) -> Result<String, AllocError>
    ensures { IfOk result (λ path. string_bytes path ≡ state.now ++ codes ".printed") }
{
    let mut path = String::from_str(alloc, state)?;
    path.push_str(".printed")?;
    Ok(path)
}

// Fetches all entries with this state, and with a file beside it that says up to where they were printed.
fn fetch_beside<
    H: Files<File = File> + HostClient,
    S: ResourceSource + AsksHost,
    O: Observer,
    W: Write,
>(
    rt: &H,
    alloc: Global,
    source: &S,
    requests: &Requests<'_, H>,
    policy: &Policy<'_>,
    path: &str,
    state: &mut FileState<'_, H>,
    observer: &mut O,
    writer: &mut Counted<W>,
) -> Result<(), FetchFault>
    ensures { RunsWith (S.may_answer source.now) (S.may_lack source.now) (λ note. Unit {0})
        IsStateFault (policy_in (λ v. key v) policy.now) FetchRequest.All
        (passage W.contents writer.old writer.new) result }
{
    let wanted = FetchRequest::All;
    let beside = printed_path(alloc, path)?;
    let mut printed = match AtomicFile::open(rt, alloc, beside.as_str()) {
        Ok(file) => FileState(file),
        Err(fault) => return Err(file_refusal(fault)),
    };
    fetch_under(
        alloc,
        source,
        requests,
        policy,
        wanted,
        state,
        &mut printed,
        observer,
        writer,
    )
}

// Fetches with the state in this file.
fn fetch_with_file<
    H: Files<File = File> + HostClient,
    S: ResourceSource + AsksHost,
    O: Observer,
    W: Write,
>(
    rt: &H,
    alloc: Global,
    source: &S,
    requests: &Requests<'_, H>,
    policy: &Policy<'_>,
    wanted: FetchRequest,
    path: &str,
    observer: &mut O,
    writer: &mut Counted<W>,
) -> Result<(), FetchFault>
    ensures { RunsWith (S.may_answer source.now) (S.may_lack source.now) (λ note. Unit {0})
        IsStateFault (policy_in (λ v. key v) policy.now) wanted
        (passage W.contents writer.old writer.new) result }
{
    let mut state = match AtomicFile::open(rt, alloc, path) {
        Ok(file) => FileState(file),
        Err(fault) => return Err(file_refusal(fault)),
    };
    let mut unread = NoState;
    match wanted {
        FetchRequest::All => fetch_beside(
            rt, alloc, source, requests, policy, path, &mut state, observer, writer,
        ),
        _ => fetch_under(
            alloc,
            source,
            requests,
            policy,
            wanted,
            &mut state,
            &mut unread,
            observer,
            writer,
        ),
    }
}

// Fetches with the state in a file, if one is named.
fn fetch_with_state<
    H: Files<File = File> + HostClient,
    S: ResourceSource + AsksHost,
    O: Observer,
    W: Write,
>(
    rt: &H,
    alloc: Global,
    source: &S,
    policy: &Policy<'_>,
    options: &FetchOptions,
    observer: &mut O,
    writer: &mut Counted<W>,
) -> Result<(), FetchFault>
    ensures { RunsOver (S.may_answer source.now) (S.may_lack source.now)
        (policy_in (λ v. key v) policy.now) options.now (passage W.contents writer.old writer.new)
        result }
{
    let wanted = options.wanted;
    let requests = Requests {
        rt,
        alloc,
        at_once: options.threads.unwrap_or(AT_ONCE),
    };
    let Some(path) = &options.state else {
        return fetch_under(
            alloc,
            source,
            &requests,
            policy,
            wanted,
            &mut NoState,
            &mut NoState,
            observer,
            writer,
        );
    };
    let path = path.as_str();
    fetch_with_file(
        rt, alloc, source, &requests, policy, wanted, path, observer, writer,
    )
}

/// Returns a fault that names the resource which the last call of the source lacked, if that is the reason of this
/// one.
pub fn name_lack(fault: FetchFault, lack: Option<Lack>) -> FetchFault
    ensures { result ≡ told_as fault lack }
{
    match (fault, lack) {
        (FetchFault::Unavailable, Some(lack)) => {
            FetchFault::Run(RunFault::of_device(Place::Source(lack.resource), lack.why))
        }
        _ => fault,
    }
}

/// Returns the outcome of a run, whose fault names the resource that the last call of the source lacked, if that is
/// the reason.
pub(crate) fn with_lack(
    outcome: Result<(), FetchFault>,
    lack: Option<Lack>,
) -> Result<(), FetchFault>
    ensures { Renames outcome lack result }
{
    match outcome {
        Ok(()) => Ok(()),
        Err(fault) => Err(name_lack(fault, lack)),
    }
}

// Fetches from a source, and before it from the cache of tiles, if one is named.
fn fetch_through<
    H: Files<File = File> + HostClient,
    S: ResourceSource + AsksHost,
    W: Write,
    E: Write,
>(
    rt: &H,
    alloc: Global,
    source: &S,
    policy: &Policy<'_>,
    options: &FetchOptions,
    writer: &mut Counted<W>,
    errors: &mut Counted<E>,
    is_terminal: bool,
) -> Result<(), FetchFault>
    ensures { RunsOver (cached_answers options.now.cache (S.may_answer source.now))
        (cached_lacks options.now.cache (S.may_lack source.now)) (policy_in (λ v. key v) policy.now)
        options.now (passage W.contents writer.old writer.new) result }
{
    let mut progress = Progress::new(alloc, errors, is_terminal);
    let Some(folder) = &options.cache else {
        return fetch_with_state(rt, alloc, source, policy, options, &mut progress, writer);
    };
    let folder = folder.as_str();
    let cache = FolderSource::without_links(rt, alloc, folder);
    let mut caching = Caching {
        alloc,
        cache: TileCache::new(rt, folder),
        then: progress,
    };
    let source = CachedSource::new(alloc, &cache, source);
    fetch_with_state(rt, alloc, &source, policy, options, &mut caching, writer)
}

/// Fetches from the source that the options name.
pub(crate) fn fetch_as_asked<'s, H: Files<File = File> + HostClient, W: Write, E: Write>(
    rt: &'s H,
    alloc: Global,
    policy: &Policy<'_>,
    options: &'s FetchOptions,
    writer: &mut Counted<W>,
    errors: &'s mut Counted<E>,
    is_terminal: bool,
) -> Result<(), FetchFault>
    ensures { RunsUnder (policy_in (λ v. key v) policy.now) options.now
        (passage W.contents writer.old writer.new) result }
{
    let from = options.from.as_str();
    let source = match source_of(rt, alloc, from, options.timeout) {
        Ok(source) => source,
        Err(fault) => return Err(fault),
    };
    let source = FullSource::new(alloc, &source);
    let outcome = fetch_through(
        rt,
        alloc,
        &source,
        policy,
        options,
        writer,
        errors,
        is_terminal,
    );
    with_lack(outcome, source.lack())
}

/// Runs the command `fetch`. It reads the verifier keys of the log, one or two, and of the witnesses (C2SP
/// signed-note, "Verifier keys"), and fetches as `fetch_under` does, from a folder or over HTTP, from the log with
/// the name of its keys. The options say how many requests are in flight at once. If `errors` is a terminal, it shows
/// how far the checks are. The clock is read once, if a cosignature has to be fresh.
pub fn run_fetch<
    's,
    H: Files<File = File>
        + Net<Listener = TcpListener, Stream = TcpStream>
        + Clock
        + Threads
        + Sync,
    W: Write,
    E: Write,
>(
    rt: &'s H,
    alloc: Global,
    options: &'s FetchOptions,
    writer: &mut Counted<W>,
    errors: &'s mut Counted<E>,
    is_terminal: bool,
) -> Result<(), FetchFault>
    ensures { RunsFetch options.now (passage W.contents writer.old writer.new) result }
{
    let NamedKeys { log, witnesses } = named_keys(alloc, options)?;
    let origin = String::from_str(alloc, log.key.name())?;
    let asked = Conditions {
        origin: origin.as_str(),
        witnesses: witnesses.as_slice(),
        need: options.need,
        since: since_of(rt, options.fresh),
        under: None,
    };
    fetch_by(rt, alloc, log, asked, options, writer, errors, is_terminal)
}
