//! The checkpoint of a log in a bucket, and reading of the bucket.

ghost use Rattle.std.specs.Prelude.{◌≡◌, [], Some, All, IfOk, IfSome, option_map, string_bytes};
ghost use Rattle.tl_bucket.specs.Answered.{IsBare, WasRead, WasReadWith};
ghost use Rattle.tl_bucket.specs.Buckets.{IsReplacing, NoteWasThere};
ghost use Rattle.tl_bucket.specs.Inner.Puts.{IsThere, shown_of};
ghost use Rattle.tl_bucket.specs.Opened.{KnowsShown};
ghost use Rattle.tl_bucket.specs.Operators.{TellsSize};
ghost use Rattle.tl_folder.specs.Places.{place_of};
ghost use Rattle.tl_http.specs.Post.{value_bytes};
ghost use Rattle.tl_hash.specs.Bytes.{Bytes};
ghost use Rattle.tl_tile.specs.Path.{IsResource};
ghost use Rattle.tl_tile.specs.declared.resource.Resource.TheVariants as resource;

use crate::asking::{Found, MOST_BYTES, PutOutcome};
use crate::client::{Client, Connection};
use crate::commit::{cut_line, read_size};
use crate::fault::BucketFault;
use crate::staged::{Staged, object_of};
use std::alloc::{Allocator, Global};
use std::net::{Net, TcpStream};
use std::time::Clock;
use tl_device::DeviceFault;
use tl_folder::{most_bytes, path_under};
use tl_s3::Condition;
use tl_tile::Resource;

/// The path of the checkpoint.
pub(crate) const CHECKPOINT: &str = "/checkpoint";

// Returns an entity tag without its quotes, if it has any.
fn unquoted(etag: &[u8]) -> Option<&[u8]>
    ensures { IfSome result (λ tag. IsBare etag.now tag.now) }
{
    let Some(rest) = etag.strip_prefix(b"\"") else {
        return Some(etag);
    };
    match rest.strip_suffix(b"\"") {
        Some(bare) => Some(bare),
        None => None,
    }
}

// Returns an entity tag as If-Match takes it: without its quotes, which Ceph's gateway doesn't accept.
fn bare_tag(etag: &[u8]) -> Option<&str>
    ensures { IfSome result (λ tag. IsBare etag.now tag.now) }
{
    let Some(bare) = unquoted(etag) else {
        return None;
    };
    match str::from_utf8(bare) {
        Ok(tag) => Some(tag),
        Err(_) => None,
    }
}

// Returns the entity tag of an answer, as If-Match takes it. `NoConditions`: the answer has none.
fn own_tag(alloc: Global, etag: &Option<Vec<u8>>) -> Result<String, BucketFault>
    ensures { IfOk result (λ tag. (text : Bytes) × (value_bytes etag.now ≡ Some text)
        × IsBare text (string_bytes tag)) }
{
    let Some(etag) = etag else {
        return Err(BucketFault::NoConditions);
    };
    match bare_tag(etag.as_slice()) {
        Some(tag) => Ok(String::from_str(alloc, tag)?),
        None => Err(BucketFault::NoConditions),
    }
}

/// The checkpoint that is there.
#[derive(Drop)]
pub(crate) struct Shown {
    /// Its note.
    pub(crate) note: Vec<u8>,
    /// Its entity tag, as If-Match takes it.
    pub(crate) etag: String,
}

/// Returns the checkpoint that is there, if there is one: its note and its entity tag are of one answer.
pub(crate) fn find_shown<H: Net<Stream = TcpStream> + Clock>(
    client: &Client<'_, H>,
    connection: &mut Connection,
) -> Result<Option<Shown>, BucketFault>
    ensures { IfOk result (λ shown. KnowsShown client.now (option_map shown_of shown)) }
{
    let most = most_bytes(&Resource::Checkpoint) as usize;
    let Some(found) = connection.find(client, CHECKPOINT, most)? else {
        return Ok(None);
    };
    let Found { body, etag } = found;
    let etag = own_tag(client.alloc, &etag)?;
    Ok(Some(Shown { note: body, etag }))
}

/// Returns the size in the second line of a note (C2SP tlog-checkpoint).
pub(crate) fn size_told(note: &[u8]) -> Option<u64>
    ensures { IfSome result (TellsSize note.now) }
{
    let Some((_, rest)) = cut_line(note) else {
        return None;
    };
    let Some((number, _)) = cut_line(rest) else {
        return None;
    };
    read_size(number)
}

// Returns the condition under which a checkpoint is put.
fn replacing(shown: &Option<Shown>) -> Condition<'_>
    ensures { IsReplacing (option_map shown_of shown.now) result }
{
    match shown {
        Some(shown) => Condition::Matches(shown.etag.as_str()),
        None => Condition::Absent,
    }
}

// Returns the entity tag of the checkpoint that is there, if it has these bytes. `Outrun`: another one is there, or
// none.
fn tag_of_note<H: Net<Stream = TcpStream> + Clock>(
    client: &Client<'_, H>,
    connection: &mut Connection,
    note: &[u8],
) -> Result<String, BucketFault>
    ensures { IfOk result (λ tag. (text : Bytes)
        × WasReadWith client.now (place_of [] resource.Checkpoint) note.now (Some text)
        × IsBare text (string_bytes tag)) }
{
    match connection.find(client, CHECKPOINT, MOST_BYTES)? {
        Some(found) if found.body.as_slice() == note => own_tag(client.alloc, &found.etag),
        _ => Err(BucketFault::Outrun),
    }
}

/// Puts the checkpoint in the place of the one that was shown, or where none is, once these tiles and bundles are
/// there. Returns the tag of the new one. `Outrun`: another one is there.
pub(crate) fn put_note<H: Net<Stream = TcpStream> + Clock>(
    client: &Client<'_, H>,
    connection: &mut Connection,
    _staged: &[Staged],
    note: &[u8],
    shown: &Option<Shown>,
) -> Result<String, BucketFault>
    requires there { All (IsThere client.now) _staged.now }
    ensures { IfOk result (λ tag. NoteWasThere client.now (option_map shown_of shown.now)
        (Some note.now) (Some (record { note = note.now; etag = string_bytes tag }))) }
{
    let object = object_of(&Resource::Checkpoint, CHECKPOINT, note);
    let PutOutcome::Done(tag) = connection.put(client, &object, replacing(shown))? else {
        return Err(BucketFault::Outrun);
    };
    match own_tag(client.alloc, &tag) {
        Err(BucketFault::NoConditions) => tag_of_note(client, connection, note),
        own => own,
    }
}

/// Returns the bytes of the object of a resource, read over a new connection, or `None` if there is none.
pub(crate) fn read_object<A: Allocator, H: Net<Stream = TcpStream> + Clock>(
    alloc: A,
    client: &Client<'_, H>,
    resource: &Resource,
) -> Result<Option<Vec<u8, A>>, BucketFault>
    requires { IsResource resource.now }
    ensures { IfOk result (λ found. IfSome found
        (λ bytes. WasRead client.now (place_of [] resource.now) bytes.items)) }
{
    let path = path_under(client.alloc, "", resource)?;
    let Some(found) = Connection::new().find(client, path.as_str(), most_bytes(resource) as usize)?
    else {
        return Ok(None);
    };
    Ok(Some(Vec::from_slice(alloc, found.body.as_slice())?))
}
