//! What the options of a job name, for the line of a fault.

ghost use Rattle.std.specs.Prelude.{◌≡◌, option_map};
ghost use Rattle.tl_cli.specs.Named.{address_of, base_of, credentials_of, entry_file, extra_file, file_of, given_file, key_file, key_option, listed_file, log_of, logs_file, named_file, new_key_of, policy_file, source_of, state_of, text_at, wanted_file, witness_address, witness_file};

use crate::job::Job;
use tl_fetch::Address;
use tl_prove::{EntryOptions, NamedFile, ProveRequest};
use tl_run::{LogKey, Place};
use tl_serve::{KnownLogs, WitnessSignerKey};

// Returns the file of a log's key.
fn key_file(key: &LogKey) -> Option<&str>
    ensures { option_map (λ s. s.now) result ≡ key_file key.now }
{
    match key {
        LogKey::Secret(_) => None,
        LogKey::File(path) => Some(path.as_str()),
    }
}

// Returns the file of a witness's key.
fn witness_file(key: &WitnessSignerKey) -> Option<&str>
    ensures { option_map (λ s. s.now) result ≡ witness_file key.now }
{
    match key {
        WitnessSignerKey::Secret(_, _) => None,
        WitnessSignerKey::File(path) => Some(path.as_str()),
    }
}

// Returns the file of a key or of a checkpoint that the options name.
fn file_of(job: &Job) -> Option<&str>
    ensures { option_map (λ s. s.now) result ≡ file_of job.now }
{
    match job {
        Job::BuildSigned(options) => Some(options.key.as_str()),
        Job::CheckUnder(options) => Some(options.checkpoint.as_str()),
        Job::Append(options) => key_file(&options.key),
        Job::AppendTo(options) => key_file(&options.append.key),
        Job::Serve(options) => key_file(&options.key),
        Job::ServeFrom(options) => key_file(&options.serve.key),
        Job::Witness(options) => witness_file(&options.key),
        _ => None,
    }
}

// Returns the file of a state that the options name.
fn state_of(job: &Job) -> Option<&str>
    ensures { option_map (λ s. s.now) result ≡ state_of job.now }
{
    match job {
        Job::Witness(options) => options.state.as_deref(),
        Job::Fetch(options) => options.state.as_deref(),
        Job::FetchBy(options) | Job::FeedBy(options) => options.fetch.state.as_deref(),
        Job::Feed(options) => options.log.state.as_deref(),
        _ => None,
    }
}

// Returns the file of the logs that a witness knows.
fn listed_file(logs: &KnownLogs) -> Option<&str>
    ensures { option_map (λ s. s.now) result ≡ listed_file logs.now }
{
    match logs {
        KnownLogs::One(_, _) => None,
        KnownLogs::Listed(path) => Some(path.as_str()),
    }
}

/// Returns the file of the logs that the options name.
pub(crate) fn logs_file(job: &Job) -> Option<&str>
    ensures { option_map (λ s. s.now) result ≡ logs_file job.now }
{
    match job {
        Job::Witness(options) => listed_file(&options.logs),
        _ => None,
    }
}

/// Returns the folder of a log that the options name, or the address of its bucket.
pub(crate) fn log_of(job: &Job) -> Option<&str>
    ensures { option_map (λ s. s.now) result ≡ log_of job.now }
{
    match job {
        Job::Append(options) => Some(options.dir.as_str()),
        Job::AppendTo(options) => Some(options.bucket.address.as_str()),
        Job::Serve(options) => options.dir.as_deref(),
        Job::ServeFrom(options) => Some(options.bucket.address.as_str()),
        _ => None,
    }
}

/// Returns the file of the key that signs requests to a bucket.
pub(crate) fn credentials_of(job: &Job) -> Option<&str>
    ensures { option_map (λ s. s.now) result ≡ credentials_of job.now }
{
    match job {
        Job::AppendTo(options) => options.bucket.credentials.as_deref(),
        Job::ServeFrom(options) => options.bucket.credentials.as_deref(),
        _ => None,
    }
}

// Returns the folder or the address that the options name to fetch from.
fn source_of(job: &Job) -> Option<&str>
    ensures { option_map (λ s. s.now) result ≡ source_of job.now }
{
    match job {
        Job::Fetch(options) => Some(options.from.as_str()),
        Job::FetchBy(options) | Job::FeedBy(options) => Some(options.fetch.from.as_str()),
        Job::Feed(options) => Some(options.log.from.as_str()),
        Job::Prove(options) => Some(options.from.as_str()),
        Job::Submit(options) => Some(options.to.as_str()),
        _ => None,
    }
}

// Returns the file of an entry.
fn entry_file(entry: &EntryOptions) -> Option<&str>
    ensures { option_map (λ s. s.now) result ≡ entry_file entry.now }
{
    match entry {
        EntryOptions::Text(_) => None,
        EntryOptions::File(path) => Some(path.as_str()),
        EntryOptions::Digest { file, name: _ } => Some(file.as_str()),
    }
}

// Returns the file of the entry of which a proof is made.
fn wanted_file(wanted: &ProveRequest) -> Option<&str>
    ensures { option_map (λ s. s.now) result ≡ wanted_file wanted.now }
{
    match wanted {
        ProveRequest::Index(_) => None,
        ProveRequest::Entry(entry) => entry_file(entry),
    }
}

// Returns the file of a policy that the options name.
fn policy_file(job: &Job) -> Option<&str>
    ensures { option_map (λ s. s.now) result ≡ policy_file job.now }
{
    match job {
        Job::FetchBy(options) | Job::FeedBy(options) => Some(options.policy.as_str()),
        Job::Verify(options) => Some(options.policy.as_str()),
        Job::Prove(options) => Some(options.policy.as_str()),
        Job::Submit(options) => Some(options.policy.as_str()),
        _ => None,
    }
}

// Returns the file of an entry that the options name.
fn given_file(job: &Job) -> Option<&str>
    ensures { option_map (λ s. s.now) result ≡ given_file job.now }
{
    match job {
        Job::Verify(options) => entry_file(&options.entry),
        Job::Prove(options) => wanted_file(&options.wanted),
        Job::Submit(options) => entry_file(&options.entry),
        _ => None,
    }
}

// Returns the file of a proof's extra data that the options name.
fn extra_file(job: &Job) -> Option<&str>
    ensures { option_map (λ s. s.now) result ≡ extra_file job.now }
{
    match job {
        Job::Verify(options) => options.extra.as_deref(),
        Job::Prove(options) => options.extra.as_deref(),
        Job::Submit(options) => options.extra.as_deref(),
        _ => None,
    }
}

/// Returns the file of `verify`, `prove` or `submit` that the options name.
pub(crate) fn named_file(job: &Job, which: NamedFile) -> Option<&str>
    ensures { option_map (λ s. s.now) result ≡ named_file job.now which }
{
    match which {
        NamedFile::Policy => policy_file(job),
        NamedFile::Entry => given_file(job),
        NamedFile::Extra => extra_file(job),
    }
}

/// Returns what the options name for a place.
pub(crate) fn base_of(job: &Job, place: Place) -> Option<&str>
    ensures { option_map (λ s. s.now) result ≡ base_of job.now place }
{
    match place {
        Place::File => file_of(job),
        Place::State => state_of(job),
        Place::Log(_) => log_of(job),
        Place::Source(_) => source_of(job),
    }
}

/// Returns the file of a new private key that the options name.
pub(crate) fn new_key_of(job: &Job) -> Option<&str>
    ensures { option_map (λ s. s.now) result ≡ new_key_of job.now }
{
    match job {
        Job::KeygenTo(options) => Some(options.out.as_str()),
        _ => None,
    }
}

// Returns the address with this index.
fn text_at(texts: &[String], place: u64) -> Option<&str>
    ensures { option_map (λ s. s.now) result ≡ text_at texts.now place }
{
    match texts.get(place as usize) {
        Some(text) => Some(text.as_str()),
        None => None,
    }
}

// Returns the address of the witness with this index that the options name, or the file that has it.
fn witness_address(job: &Job, place: u64) -> Option<&str>
    ensures { option_map (λ s. s.now) result ≡ witness_address job.now place }
{
    match job {
        Job::Feed(options) => text_at(options.to.as_slice(), place),
        Job::FeedBy(options) => Some(options.policy.as_str()),
        _ => None,
    }
}

/// Returns the address that the options name.
pub(crate) fn address_of(job: &Job, which: Address) -> Option<&str>
    ensures { option_map (λ s. s.now) result ≡ address_of job.now which }
{
    match which {
        Address::From => source_of(job),
        Address::To(place) => witness_address(job, place),
    }
}

/// Returns the option that takes the texts of keys, one of which is no key's.
pub(crate) fn key_option(job: &Job) -> &'static str
    ensures { result.now ≡ key_option job.now }
{
    match job {
        Job::Serve(_) | Job::ServeFrom(_) => "--witness",
        Job::Witness(_) => "--log-key",
        Job::CheckFork { .. } => "--fork",
        _ => "--key",
    }
}
