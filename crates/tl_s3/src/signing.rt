//! Signatures.

ghost use Rattle.std.specs.Prelude.{◌≡◌, ◌++◌, IfOk, codes, map, string_bytes};
ghost use Rattle.tl_s3.specs.Canonical.{IsCanonical};
ghost use Rattle.tl_s3.specs.CanonicalRequests.{credential_of, field_of, request_of};
ghost use Rattle.tl_s3.specs.Signing as spec;

use crate::canonical::{canonical_request, payload_digest, push_names};
use crate::credential::Credential;
use crate::moment::Moment;
use crate::request::Request;
use std::alloc::{AllocError, Allocator};
use tl_hash::Hash;
use tl_key::hmac;

// Returns the scope of a credential on a day.
fn scope_of<A: Allocator>(
    alloc: A,
    credential: &Credential<'_>,
    moment: &Moment,
) -> Result<String<A>, AllocError>
    ensures scope { IfOk result (λ text. string_bytes text
        ≡ spec.scope_text (credential_of credential.now) moment.now) }
{
    [
        moment.day(),
        "/",
        credential.region,
        "/",
        credential.service,
        "/aws4_request",
    ]
    .concat(alloc)
}

// Returns the string to sign, from its parts.
fn text_to_sign<'t, A: Allocator>(
    alloc: A,
    time: &'t str,
    scope: &'t str,
    digest: &'t str,
) -> Result<String<A>, AllocError>
    ensures text { IfOk result (λ text. string_bytes text
        ≡ codes "AWS4-HMAC-SHA256\n" ++ time.now ++ codes "\n"
        ++ scope.now ++ codes "\n" ++ digest.now) }
{
    ["AWS4-HMAC-SHA256\n", time, "\n", scope, "\n", digest].concat(alloc)
}

/// Returns the string to sign ("Signature Calculations for the Authorization Header", Task 2). The fields have to be
/// in canonical form (`is_canonical`), and `x-amz-date` has to be the time of this moment. It fails only when
/// allocation fails.
pub fn string_to_sign<A: Allocator + Copy>(
    alloc: A,
    request: &Request<'_>,
    credential: &Credential<'_>,
    moment: &Moment,
) -> Result<String<A>, AllocError>
    requires canonical { IsCanonical (map field_of request.now.fields.now) }
    ensures text { IfOk result (λ text. string_bytes text
        ≡ spec.string_to_sign (request_of request.now) (credential_of credential.now) moment.now) }
{
    let canonical = canonical_request(alloc, request)?;
    let digest = payload_digest(alloc, canonical.as_bytes())?;
    let scope = scope_of(alloc, credential, moment)?;
    text_to_sign(alloc, moment.time(), scope.as_str(), digest.as_str())
}

/// Returns the signing key ("Signature Calculations for the Authorization Header", Task 3). It signs any request on
/// the day of this moment to the credential's service in its region, so keep it as secret as the credential. It fails
/// only when allocation fails.
pub fn signing_key<A: Allocator>(
    alloc: A,
    credential: &Credential<'_>,
    moment: &Moment,
) -> Result<Hash, AllocError>
    ensures key { IfOk result (λ key. key
        ≡ spec.signing_key (credential_of credential.now) moment.now) }
{
    let mut start = String::from_str(alloc, "AWS4")?;
    start.push_str(credential.secret)?;
    let day = hmac(start.as_bytes(), moment.day().as_bytes());
    let region = hmac(day.as_bytes(), credential.region.as_bytes());
    let service = hmac(region.as_bytes(), credential.service.as_bytes());
    Ok(hmac(service.as_bytes(), b"aws4_request"))
}

/// Returns the signature of a request in hexadecimal ("Signature Calculations for the Authorization Header", Task 3).
/// The fields have to be in canonical form (`is_canonical`), and `x-amz-date` has to be the time of this moment. It
/// fails only when allocation fails.
pub fn signature<A: Allocator + Copy>(
    alloc: A,
    request: &Request<'_>,
    credential: &Credential<'_>,
    moment: &Moment,
) -> Result<String<A>, AllocError>
    requires canonical { IsCanonical (map field_of request.now.fields.now) }
    ensures digits { IfOk result (λ text. string_bytes text
        ≡ spec.signature (request_of request.now) (credential_of credential.now) moment.now) }
{
    let text = string_to_sign(alloc, request, credential, moment)?;
    let key = signing_key(alloc, credential, moment)?;
    let mac = hmac(key.as_bytes(), text.as_bytes());
    let digits = hex::encode(alloc, mac.as_bytes().as_slice())?;
    Ok(digits)
}

// Returns the value of `Authorization` up to the names of the signed fields.
fn before_names<'t, A: Allocator>(
    alloc: A,
    id: &'t str,
    scope: &'t str,
) -> Result<String<A>, AllocError>
    ensures text { IfOk result (λ text. string_bytes text
        ≡ codes "AWS4-HMAC-SHA256 Credential=" ++ id.now ++ codes "/" ++ scope.now
        ++ codes ",SignedHeaders=") }
{
    [
        "AWS4-HMAC-SHA256 Credential=",
        id,
        "/",
        scope,
        ",SignedHeaders=",
    ]
    .concat(alloc)
}

/// Returns the value of the field `Authorization` ("Signature Calculations for the Authorization Header",
/// "Overview"). The fields have to be in canonical form (`is_canonical`), and `x-amz-date` has to be the time of this
/// moment. It fails only when allocation fails.
pub fn authorization<A: Allocator + Copy>(
    alloc: A,
    request: &Request<'_>,
    credential: &Credential<'_>,
    moment: &Moment,
) -> Result<String<A>, AllocError>
    requires canonical { IsCanonical (map field_of request.now.fields.now) }
    ensures value { IfOk result (λ text. string_bytes text
        ≡ spec.authorization (request_of request.now) (credential_of credential.now) moment.now) }
{
    let signature = signature(alloc, request, credential, moment)?;
    let scope = scope_of(alloc, credential, moment)?;
    let mut text = before_names(alloc, credential.id, scope.as_str())?;
    push_names(&mut text, request.fields)?;
    text.push_str(",Signature=")?;
    text.push_str(signature.as_str())?;
    Ok(text)
}
