//! Putting an object.

ghost use Rattle.std.specs.Prelude.{◌≡◌, IfErr, IfOk, map};
ghost use Rattle.tl_device.specs.Device.{passage};
ghost use Rattle.tl_http.specs.Exchange.{LeavesOpen};
ghost use Rattle.tl_s3.specs.Answers as spec;
ghost use Rattle.tl_s3.specs.Answers.{PutsObject, put_told};
ghost use Rattle.tl_s3.specs.Objects.{content_of, place_of, put_fields};
ghost use Rattle.tl_s3.specs.declared.fault.ObjectFault.TheVariants.{OutOfMemory};
ghost use Rattle.tl_s3.specs.CanonicalRequests.{field_of};

use crate::canonical::payload_digest;
use crate::fault::ObjectFault;
use crate::moment::Moment;
use crate::object::{Bucket, Condition, Object, PutAnswer, PutReply};
use crate::request::{Field, Request};
use crate::sending::{field, send_signed, target_of};
use std::alloc::Allocator;
use std::io::{Read, Write};
use tl_device::Counted;
use tl_http::Response;

// The most bytes of a response's body.
const MOST_ANSWER: usize = 65_536;

// Returns the fields of a put, in the order of their names; `payload` is the digest of the body.
fn fields_of<'t, A: Allocator>(
    alloc: A,
    host: &'t str,
    cache_control: &'t str,
    content_type: &'t str,
    condition: Condition<'t>,
    payload: &'t str,
    time: &'t str,
) -> Result<Vec<Field<'t>, A>, ObjectFault>
    ensures fields { IfOk result (λ fields. map field_of fields.items
        ≡ put_fields host.now cache_control.now content_type.now condition.entry payload.now time.now) }
    ensures refused { IfErr result (λ fault. fault ≡ OutOfMemory) }
{
    let mut fields = Vec::new(alloc);
    fields.push(field("cache-control", cache_control))?;
    fields.push(field("content-type", content_type))?;
    fields.push(field("host", host))?;
    match condition {
        Condition::Always => {}
        Condition::Absent => fields.push(field("if-none-match", "*"))?,
        Condition::Matches(etag) => fields.push(field("if-match", etag))?,
    }
    fields.push(field("x-amz-content-sha256", payload))?;
    fields.push(field("x-amz-date", time))?;
    Ok(fields)
}

// Returns what a status answers to a put.
fn answer_of(status: u16) -> PutAnswer
    ensures answer { result ≡ spec.put_answer status }
{
    match status {
        200 | 201 | 204 => PutAnswer::Done,
        412 => PutAnswer::Refused,
        409 => PutAnswer::Conflict,
        other => PutAnswer::Other(other),
    }
}

// Returns what a response answers to a put.
fn reply_of<A: Allocator>(response: Response<A>) -> PutReply<A>
    ensures answer { result.answer ≡ spec.put_answer response.status }
    ensures etag { result.etag ≡ response.field }
    ensures body { result.body ≡ response.body }
    ensures open { result.stays_open ≡ response.stays_open }
{
    PutReply {
        answer: answer_of(response.status),
        etag: response.field,
        body: response.body,
        stays_open: response.stays_open,
    }
}

/// Puts an object into a bucket under a condition, by a PUT request that is signed at this moment, and returns the
/// server's answer, with a body of at most 65,536 bytes (Amazon S3 API Reference, PutObject; RFC 9110, section
/// 9.3.4). The bytes written are the signed request and nothing else, or a prefix of it before `Get(Write)`. After a
/// fault other than `OutOfMemory`, `BadField` and `Get(BadTarget)`, and after a status from 500 on, the object may
/// have been put: get it, and compare.
pub fn put_object<A: Allocator + Copy, I: Read, O: Write>(
    alloc: A,
    reader: &mut Counted<I>,
    writer: &mut Counted<O>,
    bucket: &Bucket<'_>,
    moment: &Moment,
    object: &Object<'_>,
    condition: Condition<'_>,
) -> Result<PutReply<A>, ObjectFault>
    ensures table { PutsObject (place_of bucket.now) moment.now (content_of object.now) condition.entry
        (passage I.remaining reader.old reader.new) (passage O.contents writer.old writer.new)
        (put_told result) }
    ensures open { IfOk result (λ reply.
        LeavesOpen (passage I.remaining reader.old reader.new) reply.body.items reply.stays_open) }
{
    let payload = payload_digest(alloc, object.body)?;
    let fields = fields_of(
        alloc,
        bucket.host,
        object.cache_control,
        object.content_type,
        condition,
        payload.as_str(),
        moment.time(),
    )?;
    let path = target_of(alloc, bucket.prefix, object.path)?;
    let request = Request {
        method: "PUT",
        path: path.as_str(),
        query: "",
        fields: fields.as_slice(),
        payload: payload.as_str(),
    };
    let credential = &bucket.credential;
    let (body, most) = (object.body, MOST_ANSWER);
    let response = send_signed(
        alloc, reader, writer, &request, credential, moment, body, most,
    )?;
    Ok(reply_of(response))
}
