//! The canonical request.

ghost use Rattle.std.specs.Prelude.{◌≡◌, ◌++◌, IfOk, OnOk, map, string_bytes};
ghost use Rattle.std.specs.List.{flat_map};
ghost use Rattle.hex.specs.Hex.{encode_lower};
ghost use Rattle.sha2.specs.Sha256.{sha256};
ghost use Rattle.tl_s3.specs.Canonical.{IsCanonical, canonical_text, field_line, signed_names};
ghost use Rattle.tl_s3.specs.CanonicalRequests.{field_of, request_of};

use crate::request::{Field, Request};
use std::alloc::{AllocError, Allocator};
use tl_hash::{Sha256Tree, TreeHash};

// Appends the line of each field.
fn push_lines<A: Allocator>(out: &mut String<A>, fields: &[Field<'_>]) -> Result<(), AllocError>
    ensures lines { OnOk result (string_bytes out.new
        ≡ string_bytes out.old ++ flat_map field_line (map field_of fields.now)) }
{
    for field in fields {
        out.push_str(field.name)?;
        out.push_str(":")?;
        out.push_str(field.value)?;
        out.push_str("\n")?;
    }
    Ok(())
}

/// Appends the names of the fields, with semicolons between them.
pub(crate) fn push_names<A: Allocator>(
    out: &mut String<A>,
    fields: &[Field<'_>],
) -> Result<(), AllocError>
    ensures names { OnOk result (string_bytes out.new
        ≡ string_bytes out.old ++ signed_names (map field_of fields.now)) }
{
    let [first, rest @ ..] = fields else {
        return Ok(());
    };
    out.push_str(first.name)?;
    if rest.is_empty() {
        return Ok(());
    }
    out.push_str(";")?;
    push_names(out, rest)
}

/// Returns SHA-256 of a body in hexadecimal ("Signature Calculations for the Authorization Header", `HashedPayload`).
/// It fails only when allocation fails.
pub fn payload_digest<A: Allocator>(alloc: A, body: &[u8]) -> Result<String<A>, AllocError>
    ensures digest { IfOk result (λ text. string_bytes text ≡ encode_lower (sha256 body.now)) }
{
    hex::encode(
        alloc,
        Sha256Tree.digest(body, &[], &[]).as_bytes().as_slice(),
    )
}

/// Returns the canonical request ("Signature Calculations for the Authorization Header", Task 1). The fields have to
/// be in canonical form already (`is_canonical`), because the request that is signed is the one that has to be sent.
/// It fails only when allocation fails.
pub fn canonical_request<A: Allocator>(
    alloc: A,
    request: &Request<'_>,
) -> Result<String<A>, AllocError>
    requires canonical { IsCanonical (map field_of request.now.fields.now) }
    ensures text { IfOk result (λ text. string_bytes text
        ≡ canonical_text (request_of request.now)) }
{
    let mut text = [
        request.method,
        "\n",
        request.path,
        "\n",
        request.query,
        "\n",
    ]
    .concat(alloc)?;
    push_lines(&mut text, request.fields)?;
    text.push_str("\n")?;
    push_names(&mut text, request.fields)?;
    text.push_str("\n")?;
    text.push_str(request.payload)?;
    Ok(text)
}
