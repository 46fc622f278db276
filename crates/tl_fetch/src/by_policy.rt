//! The command `fetch` under the text of a policy.

ghost use Rattle.std.specs.Prelude.{◌≡◌, IfErr, IfOk, map};
ghost use Rattle.tl_device.specs.Device.{passage};
ghost use Rattle.tl_policy.specs.Terms.{log_term, terms_of, url_of};
ghost use Rattle.tl_fetch.specs.ByPolicy.{AreKeysBy, FetchesBy, NamesNone, is_twin, is_url, key_at, key_for, note_key, twin_of};

use crate::by_keys::fetch_by;
use crate::conditions::Conditions;
use crate::fault::FetchFault;
use crate::freshness::since_of;
use crate::log_keys::LogKeys;
use crate::options::FetchOptions;
use crate::under::Under;
use std::alloc::{AllocError, Global};
use std::fs::{File, Files};
use std::io::Write;
use std::net::{Net, TcpListener, TcpStream};
use std::thread::Threads;
use std::time::Clock;
use tl_device::Counted;
use tl_key::NoteVerifier;
use tl_note::Verifier;
use tl_policy::{Policy as Text, PolicyLog, TrustFault};

// Whether a log is served here.
fn is_url(from: &str, url: Option<&str>) -> bool
    ensures { result ≡ is_url from.now (url_of url.entry) }
{
    match url {
        Some(url) => url == from,
        None => false,
    }
}

// Returns the key of a log.
fn key_of(alloc: Global, log: &PolicyLog<'_>) -> Result<NoteVerifier<Global>, AllocError>
    ensures { IfOk result (λ key. key ≡ note_key (log_term log.now)) }
{
    match NoteVerifier::new(alloc, log.key.name(), log.key.public_key()) {
        Ok(key) => Ok(key),
        Err(_) => Err(AllocError),
    }
}

// Returns the key of the first log that is served here.
fn key_at(
    alloc: Global,
    logs: &[PolicyLog<'_>],
    from: &str,
) -> Result<Option<NoteVerifier<Global>>, AllocError>
    ensures { IfOk result (λ key. key ≡ key_at from.now (map log_term logs.now)) }
{
    let [log, rest @ ..] = logs else {
        return Ok(None);
    };
    if is_url(from, log.url) {
        return Ok(Some(key_of(alloc, log)?));
    }
    key_at(alloc, rest, from)
}

// Returns the key of the log that is fetched from here.
fn key_for(
    alloc: Global,
    logs: &[PolicyLog<'_>],
    from: &str,
) -> Result<Option<NoteVerifier<Global>>, AllocError>
    ensures { IfOk result (λ key. key ≡ key_for from.now (map log_term logs.now)) }
{
    if let Some(key) = key_at(alloc, logs, from)? {
        return Ok(Some(key));
    }
    let [first, ..] = logs else {
        return Ok(None);
    };
    Ok(Some(key_of(alloc, first)?))
}

// Whether a log's key is another one of the log of this key.
fn is_twin(log: &PolicyLog<'_>, key: &NoteVerifier<Global>) -> bool
    ensures { result ≡ is_twin key.now (log_term log.now) }
{
    log.key.name() == key.name() && log.key.public_key() != key.public_key()
}

// Returns the first other key of the log of this key.
fn twin_of(
    alloc: Global,
    logs: &[PolicyLog<'_>],
    key: &NoteVerifier<Global>,
) -> Result<Option<NoteVerifier<Global>>, AllocError>
    ensures { IfOk result (λ twin. twin ≡ twin_of key.now (map log_term logs.now)) }
{
    let [log, rest @ ..] = logs else {
        return Ok(None);
    };
    if is_twin(log, key) {
        return Ok(Some(key_of(alloc, log)?));
    }
    twin_of(alloc, rest, key)
}

/// Returns the keys of the log that is fetched from here. It fails with `Untrusted` if the text names none.
pub(crate) fn keys_by(
    alloc: Global,
    text: &Text<'_, Global>,
    from: &str,
) -> Result<LogKeys, FetchFault>
    ensures read { IfOk result
        (λ keys. AreKeysBy (terms_of text.now) from.now keys.key keys.other) }
    ensures refused { IfErr result (NamesNone (terms_of text.now) from.now) }
{
    let logs = text.logs.as_slice();
    let Some(key) = key_for(alloc, logs, from)? else {
        return Err(FetchFault::Untrusted(TrustFault::Unsigned));
    };
    let other = twin_of(alloc, logs, &key)?;
    Ok(LogKeys { key, other })
}

/// Fetches as `run_fetch` does, under the text of a policy (C2SP tlog-policy) in place of keys: `key`, `other_key`,
/// `witnesses` and `need` of the options aren't used. The log is the first of the policy whose URL is `from`, or else
/// the first of all, by its key and the next one of that name. A checkpoint is trusted if it opens under these keys
/// and the policy trusts it (`tl_policy::open_under`), and if one of its witnesses cosigned it lately enough. It fails
/// with `Untrusted` if not.
pub fn fetch_by_policy<
    's,
    H: Files<File = File>
        + Net<Listener = TcpListener, Stream = TcpStream>
        + Clock
        + Threads
        + Sync,
    W: Write,
    E: Write,
>(
    rt: &'s H,
    alloc: Global,
    text: &Text<'_, Global>,
    options: &'s FetchOptions,
    writer: &mut Counted<W>,
    errors: &'s mut Counted<E>,
    is_terminal: bool,
) -> Result<(), FetchFault>
    ensures { FetchesBy (terms_of text.now) options.now
        (passage W.contents writer.old writer.new) result }
{
    let keys = keys_by(alloc, text, options.from.as_str())?;
    let origin = String::from_str(alloc, keys.key.name())?;
    let asked = Conditions {
        origin: origin.as_str(),
        witnesses: &[],
        need: 0,
        since: None,
        under: Some(Under {
            policy: text,
            since: since_of(rt, options.fresh),
        }),
    };
    fetch_by(rt, alloc, keys, asked, options, writer, errors, is_terminal)
}
