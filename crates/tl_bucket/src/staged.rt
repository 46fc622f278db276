//! Resources that wait to be put.

ghost use Rattle.std.specs.Prelude.{◌≡◌, [], All, IfOk, IsTrue, OnOk};
ghost use Rattle.tl_bucket.specs.Answered.{WasThere};
ghost use Rattle.tl_bucket.specs.Inner.Puts.{IsThere, item_of};
ghost use Rattle.tl_bucket.specs.Shelved.{caching_of, content_at, media_of};
ghost use Rattle.tl_folder.specs.Places.{place_of};
ghost use Rattle.tl_s3.specs.Objects.{content_of};

use crate::asking::PutOutcome;
use crate::client::{Client, Connection};
use crate::fault::BucketFault;
use std::alloc::Global;
use std::net::{Net, TcpStream};
use std::time::Clock;
use tl_device::DeviceFault;
use tl_folder::{has_path, path_under};
use tl_s3::{Condition, Object};
use tl_tile::Resource;

/// The caching of objects that never change.
pub(crate) const LASTING: &str = "public, max-age=31536000, immutable";

// The caching of objects that change.
const FLEETING: &str = "no-store";

/// A resource that waits to be put.
#[derive(Drop)]
pub(crate) struct Staged {
    pub(crate) resource: Resource,
    pub(crate) bytes: Vec<u8>,
}

impl Staged {
    /// Copies these bytes, to be put for this resource.
    pub(crate) fn of(
        alloc: Global,
        resource: &Resource,
        bytes: &[u8],
    ) -> Result<Staged, BucketFault>
        ensures { IfOk result (λ staged. item_of staged ≡ (resource.now, bytes.now)) }
    {
        let bytes = Vec::from_slice(alloc, bytes)?;
        Ok(Staged {
            resource: *resource,
            bytes,
        })
    }

    /// Reports whether the other one has the same resource and the same bytes.
    pub(crate) fn is_same(&self, other: &Staged) -> bool
        ensures { IsTrue result → item_of self.now ≡ item_of other.now }
    {
        self.resource == other.resource && self.bytes.as_slice() == other.bytes.as_slice()
    }
}

/// Returns the object of a resource, with its path.
pub(crate) fn object_of<'o>(resource: &Resource, path: &'o str, body: &'o [u8]) -> Object<'o>
    ensures { path.now ≡ place_of [] resource.now
        → content_of result ≡ content_at (resource.now, body.now) }
{
    let (content_type, cache_control) = match resource {
        Resource::Checkpoint => ("text/plain; charset=utf-8", FLEETING),
        _ => ("application/octet-stream", LASTING),
    };
    Object {
        path,
        content_type,
        cache_control,
        body,
    }
}

// Puts the object of a resource, whatever is there.
fn put_one<H: Net<Stream = TcpStream> + Clock>(
    client: &Client<'_, H>,
    connection: &mut Connection,
    staged: &Staged,
) -> Result<(), BucketFault>
    ensures { OnOk result (IsThere client.now staged.now) }
{
    if !has_path(&staged.resource) {
        return Err(BucketFault::Device(DeviceFault::System));
    }
    let path = path_under(client.alloc, "", &staged.resource)?;
    let object = object_of(&staged.resource, path.as_str(), staged.bytes.as_slice());
    match connection.put(client, &object, Condition::Always)? {
        PutOutcome::Done(_) => Ok(()),
        PutOutcome::Refused => Err(BucketFault::Device(DeviceFault::Status(412))),
    }
}

/// Puts the objects of resources over one connection, one after another, up to the first failure.
pub(crate) fn put_each<H: Net<Stream = TcpStream> + Clock>(
    client: &Client<'_, H>,
    connection: &mut Connection,
    staged: &[Staged],
) -> Result<(), BucketFault>
    ensures { OnOk result (All (IsThere client.now) staged.now) }
{
    for one in staged {
        put_one(client, connection, one)?;
    }
    Ok(())
}
