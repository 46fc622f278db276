//! Sending a request with its signature.

ghost use Rattle.std.specs.Prelude.{◌≡◌, ◌++◌, [], ◌∷◌, IfErr, IfOk, codes, map, string_bytes};
ghost use Rattle.tl_device.specs.Device.{passage};
ghost use Rattle.tl_http.specs.Exchange.{LeavesOpen};
ghost use Rattle.tl_http.specs.Message.{field_of};
ghost use Rattle.tl_s3.specs.Answers.{answers_sought};
ghost use Rattle.tl_s3.specs.Requests.{Asks};
ghost use Rattle.tl_s3.specs.Inner.Sendings.{response_told};
ghost use Rattle.tl_s3.specs.declared.fault.ObjectFault.TheVariants.{OutOfMemory};
ghost use Rattle.tl_s3.specs.CanonicalRequests as signed;
ghost use Rattle.tl_s3.specs.CanonicalRequests.{credential_of, request_of};

use crate::credential::Credential;
use crate::fault::ObjectFault;
use crate::form::is_canonical;
use crate::moment::Moment;
use crate::request::{Field, Request};
use crate::signing::authorization;
use std::alloc::{AllocError, Allocator};
use std::io::{Read, Write};
use tl_device::Counted;
use tl_http::{FieldLine, Message, Response, exchange};

// The statuses of responses that are accepted.
const STATUSES: [u16; 12] = [200, 201, 204, 400, 403, 404, 409, 412, 429, 500, 501, 503];

/// Returns the target of a path under a prefix. It fails only when allocation fails.
pub(crate) fn target_of<A: Allocator>(
    alloc: A,
    prefix: &str,
    path: &str,
) -> Result<String<A>, AllocError>
    ensures target { IfOk result (λ target. string_bytes target ≡ prefix.now ++ path.now) }
{
    let mut target = String::from_str(alloc, prefix)?;
    target.push_str(path)?;
    Ok(target)
}

/// Returns a field with this name and value.
pub(crate) fn field<'t>(name: &'t str, value: &'t str) -> Field<'t>
    ensures field { signed.field_of result ≡ (name.now, value.now) }
{
    Field { name, value }
}

// Returns the fields as they are sent, with the signature behind them.
fn lines_of<'t, A: Allocator>(
    alloc: A,
    fields: &[Field<'t>],
    signature: &'t str,
) -> Result<Vec<FieldLine<'t>, A>, ObjectFault>
    ensures lines { IfOk result (λ lines. map field_of lines.items
        ≡ map signed.field_of fields.now ++ (codes "authorization", signature.now) ∷ []) }
    ensures refused { IfErr result (λ fault. fault ≡ OutOfMemory) }
{
    let mut lines = Vec::new(alloc);
    for field in fields {
        lines.push(FieldLine {
            name: field.name,
            value: field.value,
        })?;
    }
    lines.push(FieldLine {
        name: "authorization",
        value: signature,
    })?;
    Ok(lines)
}

/// Signs and sends a request, whose payload is this body and whose query is empty, and returns a response that is
/// accepted, with the value of its field ETag.
pub(crate) fn send_signed<A: Allocator + Copy, I: Read, O: Write>(
    alloc: A,
    reader: &mut Counted<I>,
    writer: &mut Counted<O>,
    request: &Request<'_>,
    credential: &Credential<'_>,
    moment: &Moment,
    body: &[u8],
    limit: usize,
) -> Result<Response<A>, ObjectFault>
    ensures table { Asks (λ g. g) (request_of request.now) (credential_of credential.now) moment.now
        body.now (answers_sought limit) (passage I.remaining reader.old reader.new)
        (passage O.contents writer.old writer.new) (response_told result) }
    ensures open { IfOk result (λ response.
        LeavesOpen (passage I.remaining reader.old reader.new) response.body.items response.stays_open) }
{
    if !is_canonical(request.fields) {
        return Err(ObjectFault::BadField);
    }
    let value = authorization(alloc, request, credential, moment)?;
    let lines = lines_of(alloc, request.fields, value.as_str())?;
    let message = Message {
        method: request.method,
        target: request.path,
        fields: lines.as_slice(),
        body,
        statuses: &STATUSES,
        field: "etag",
    };
    let response = exchange(alloc, reader, writer, &message, limit)?;
    Ok(response)
}
