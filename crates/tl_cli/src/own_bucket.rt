//! The bucket of a log that a command works on.

ghost use Rattle.std.specs.Prelude.{◌≡◌, ◌↔◌, ◌⊎◌, [], ◌∷◌, ◌++◌, IfOk, IsTrue, MatchOption, string_bytes};
ghost use Rattle.tl_cli.specs.InBucket.{EndsInBucket, IsKeyFor, IsKeyText, IsPlaceOf, IsToken, OpensBucket};
ghost use Rattle.tl_cli.specs.Inner.Keys.{IsCut};
ghost use Rattle.tl_hash.specs.Bytes.{Bytes};
ghost use Rattle.tl_text.specs.Text.{IsOneLine};

use crate::fault::CommandFault;
use std::alloc::{AllocError, Global};
use std::env::{self, Env, VarError};
use std::fs::Files;
use std::net::{Net, TcpStream};
use std::random::RandomSource;
use std::time::Clock;
use tl_bucket::{BucketFault, BucketShelf, Client};
use tl_device::DeviceFault;
use tl_folder::CrashOutcome;
use tl_run::{RunFault, read_file};
use tl_s3::Credential;
use tl_source::Url;
use tl_text::{is_one_line, split_line};

/// The bucket of a log, as options name it.
#[derive(Drop)]
pub struct BucketOptions {
    /// Its address, `http://HOST[:PORT]/BUCKET[/PREFIX]`.
    pub address: String,
    /// The region of its store.
    pub region: String,
    /// The file with the key that signs requests; without it, the environment has the key.
    pub credentials: Option<String>,
}

/// A key that signs requests: its public name and its secret.
#[derive(Drop)]
pub(crate) struct AccessKey {
    id: String,
    secret: String,
}

// Returns the first line of a text and what follows it, or all of the text if no line ends.
fn cut_line(text: &str) -> (&str, &str)
    ensures { IsCut text.entry.now result.0.now result.1.now }
{
    match split_line(text) {
        Some(cut) => cut,
        None => (text, ""),
    }
}

// Reports whether these can be a key's name and its secret, with nothing behind them.
fn is_key(id: &str, secret: &str, after: &str) -> bool
    ensures { IsTrue result ↔ (IsOneLine id.now × IsOneLine secret.now × (after.now ≡ [])) }
{
    is_one_line(id) && is_one_line(secret) && after.is_empty()
}

// Returns the key that a text of two lines spells: its name, and its secret.
fn parse_key(alloc: Global, text: &str) -> Result<Option<AccessKey>, AllocError>
    ensures { IfOk result (λ found. MatchOption found
        ((id secret : Bytes) → IsKeyText text.now id secret → ⊥)
        (λ key. IsKeyText text.now (string_bytes key.id) (string_bytes key.secret))) }
{
    let Some((id, rest)) = split_line(text) else {
        return Ok(None);
    };
    let (secret, after) = cut_line(rest);
    if !is_key(id, secret, after) {
        return Ok(None);
    }
    Ok(Some(AccessKey {
        id: String::from_str(alloc, id)?,
        secret: String::from_str(alloc, secret)?,
    }))
}

// Returns the key in a file.
fn key_in<H: Files>(rt: &H, alloc: Global, path: &str) -> Result<AccessKey, CommandFault>
    ensures { IfOk result (λ key. (text : Bytes)
        × IsKeyText text (string_bytes key.id) (string_bytes key.secret)) }
{
    let bytes = match read_file(rt, alloc, path) {
        Ok(bytes) => bytes,
        Err(RunFault::Device(_, why)) => return Err(CommandFault::Credentials(Some(why))),
        Err(fault) => return Err(CommandFault::Run(fault)),
    };
    let Ok(text) = str::from_utf8(bytes.as_slice()) else {
        return Err(CommandFault::Credentials(None));
    };
    match parse_key(alloc, text) {
        Ok(Some(key)) => Ok(key),
        Ok(None) => Err(CommandFault::Credentials(None)),
        Err(_) => Err(CommandFault::Run(RunFault::OutOfMemory)),
    }
}

// Returns what the environment has under this name.
fn variable<H: Env>(rt: &H, alloc: Global, name: &str) -> Result<String, CommandFault> {
    match env::var(&(rt, alloc), name) {
        Ok(text) => Ok(text),
        Err(VarError::OutOfMemory) => Err(CommandFault::Run(RunFault::OutOfMemory)),
        Err(_) => Err(CommandFault::Credentials(None)),
    }
}

/// Returns the key that signs requests to a bucket: that in the file which the options name, or else that in the
/// environment's AWS_ACCESS_KEY_ID and AWS_SECRET_ACCESS_KEY.
pub(crate) fn access_key<H: Files + Env>(
    rt: &H,
    alloc: Global,
    options: &BucketOptions,
) -> Result<AccessKey, CommandFault>
    ensures { IfOk result (λ key.
        IsKeyFor options.now (string_bytes key.id) (string_bytes key.secret)) }
{
    if let Some(path) = &options.credentials {
        return key_in(rt, alloc, path);
    }
    Ok(AccessKey {
        id: variable(rt, alloc, "AWS_ACCESS_KEY_ID")?,
        secret: variable(rt, alloc, "AWS_SECRET_ACCESS_KEY")?,
    })
}

// Returns a text that no other run has: 16 random bytes in hexadecimal.
fn new_token<H: RandomSource>(rt: &H, alloc: Global) -> Result<String, CommandFault>
    ensures { IfOk result (λ token. IsToken (string_bytes token)) }
{
    let mut bytes = [0; 16];
    if rt.fill_bytes(&mut bytes).is_err() {
        return Err(CommandFault::Run(RunFault::Read));
    }
    Ok(hex::encode(alloc, bytes)?)
}

// Returns an address without the slash at its end, if it has one.
fn without_slash(address: &str) -> &str
    ensures { (address.now ≡ result.now ++ 47 ∷ []) ⊎ ((address.now ≡ result.now)
        × ((front : Bytes) → address.now ≡ front ++ 47 ∷ [] → ⊥)) }
{
    match address.strip_suffix('/') {
        Some(front) => front,
        None => address,
    }
}

/// Returns a client of the bucket that the options name, with this key.
pub(crate) fn client_of<'b, H>(
    rt: &'b H,
    alloc: Global,
    options: &'b BucketOptions,
    key: &'b AccessKey,
) -> Result<Client<'b, H>, CommandFault>
    ensures at { IfOk result (IsPlaceOf (string_bytes options.entry.now.address)) }
    ensures region { IfOk result (λ client.
        client.credential.region ≡ string_bytes options.entry.now.region) }
    ensures key { IfOk result (λ client. (client.credential.id ≡ string_bytes key.entry.now.id)
        × (client.credential.secret ≡ string_bytes key.entry.now.secret)) }
{
    let Some(url) = Url::parse(without_slash(options.address.as_str())) else {
        return Err(CommandFault::Bucket(BucketFault::Device(DeviceFault::NoHost)));
    };
    let credential = Credential {
        id: key.id.as_str(),
        secret: key.secret.as_str(),
        region: options.region.as_str(),
        service: "s3",
    };
    Ok(Client::new(rt, alloc, url, credential))
}

/// Opens the bucket of a log as a shelf. If the log is new, no log may be there yet; otherwise one has to be.
pub(crate) fn open_bucket<
    'b,
    D: CrashOutcome + Drop,
    H: Net<Stream = TcpStream> + Clock + RandomSource,
>(
    disk: D,
    rt: &'b H,
    alloc: Global,
    options: &'b BucketOptions,
    key: &'b AccessKey,
    is_new: bool,
) -> Result<BucketShelf<'b, D, H>, CommandFault>
    requires { IsKeyFor options.now (string_bytes key.now.id) (string_bytes key.now.secret) }
    ensures { IfOk result (OpensBucket options.entry.now is_new) }
{
    let token = new_token(rt, alloc)?;
    let client = client_of(rt, alloc, options, key)?;
    match BucketShelf::open(disk, client, options.address.as_str(), token, is_new) {
        Ok(shelf) => Ok(shelf),
        Err(fault) => Err(CommandFault::Bucket(fault)),
    }
}

/// Returns the outcome of a command that worked on a bucket, with the bucket's own fault if it had one.
pub(crate) fn after_bucket<D: CrashOutcome + Drop, H: Net<Stream = TcpStream> + Clock>(
    shelf: &BucketShelf<'_, D, H>,
    outcome: Result<(), RunFault>,
) -> Result<(), CommandFault>
    ensures { EndsInBucket outcome result }
{
    let Err(fault) = outcome else {
        return Ok(());
    };
    match shelf.fault() {
        None | Some(BucketFault::Device(_)) => Err(CommandFault::Run(fault)),
        Some(why) => Err(CommandFault::Bucket(why)),
    }
}
