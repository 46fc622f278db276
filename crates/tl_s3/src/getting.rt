//! Getting an object.

ghost use Rattle.std.specs.Prelude.{◌≡◌, IfErr, IfOk, map};
ghost use Rattle.tl_device.specs.Device.{passage};
ghost use Rattle.tl_http.specs.Exchange.{LeavesOpen};
ghost use Rattle.tl_s3.specs.Answers as spec;
ghost use Rattle.tl_s3.specs.Answers.{GetsObject, get_told};
ghost use Rattle.tl_s3.specs.Objects.{get_fields, place_of};
ghost use Rattle.tl_s3.specs.declared.fault.ObjectFault.TheVariants.{OutOfMemory};
ghost use Rattle.tl_s3.specs.CanonicalRequests.{field_of};

use crate::canonical::payload_digest;
use crate::fault::ObjectFault;
use crate::moment::Moment;
use crate::object::{Bucket, GetAnswer, GetReply};
use crate::request::{Field, Request};
use crate::sending::{field, send_signed, target_of};
use std::alloc::Allocator;
use std::io::{Read, Write};
use tl_device::Counted;

// Returns the fields of a get, in the order of their names; `payload` is the digest of no bytes.
fn fields_of<'t, A: Allocator>(
    alloc: A,
    host: &'t str,
    payload: &'t str,
    time: &'t str,
) -> Result<Vec<Field<'t>, A>, ObjectFault>
    ensures fields { IfOk result (λ fields. map field_of fields.items
        ≡ get_fields host.now payload.now time.now) }
    ensures refused { IfErr result (λ fault. fault ≡ OutOfMemory) }
{
    let mut fields = Vec::new(alloc);
    fields.push(field("host", host))?;
    fields.push(field("x-amz-content-sha256", payload))?;
    fields.push(field("x-amz-date", time))?;
    Ok(fields)
}

// Returns what a status answers to a get.
fn answer_of(status: u16) -> GetAnswer
    ensures answer { result ≡ spec.get_answer status }
{
    match status {
        200 => GetAnswer::Found,
        404 => GetAnswer::Missing,
        other => GetAnswer::Other(other),
    }
}

/// Gets the object with this path from a bucket, by a GET request that is signed at this moment, and returns the
/// server's answer, with a body of at most `limit` bytes (Amazon S3 API Reference, GetObject; RFC 9110, section
/// 9.3.1). The path is encoded and begins with a slash. The bytes written are the signed request and nothing else, or
/// a prefix of it before `Get(Write)`.
pub fn get_object<A: Allocator + Copy, I: Read, O: Write>(
    alloc: A,
    reader: &mut Counted<I>,
    writer: &mut Counted<O>,
    bucket: &Bucket<'_>,
    moment: &Moment,
    path: &str,
    limit: usize,
) -> Result<GetReply<A>, ObjectFault>
    ensures table { GetsObject (place_of bucket.now) moment.now path.now limit
        (passage I.remaining reader.old reader.new) (passage O.contents writer.old writer.new)
        (get_told result) }
    ensures open { IfOk result (λ reply.
        LeavesOpen (passage I.remaining reader.old reader.new) reply.body.items reply.stays_open) }
{
    let payload = payload_digest(alloc, b"")?;
    let fields = fields_of(alloc, bucket.host, payload.as_str(), moment.time())?;
    let path = target_of(alloc, bucket.prefix, path)?;
    let request = Request {
        method: "GET",
        path: path.as_str(),
        query: "",
        fields: fields.as_slice(),
        payload: payload.as_str(),
    };
    let credential = &bucket.credential;
    let response = send_signed(
        alloc, reader, writer, &request, credential, moment, b"", limit,
    )?;
    Ok(GetReply {
        answer: answer_of(response.status),
        etag: response.field,
        body: response.body,
        stays_open: response.stays_open,
    })
}
