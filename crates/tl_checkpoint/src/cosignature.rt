//! Cosignatures of checkpoints by witnesses (C2SP tlog-cosignature, version 1).

ghost use Rattle.std.specs.Prelude.{◌≡◌, ◌↔◌, ◌<◌, ◌^◌, string_bytes, IfOk, IsErrOf, OnErr, IsTrue, MatchOption};
ghost use Rattle.tl_note.specs.Key.{IsKeyName, named_key};
ghost use Rattle.tl_checkpoint.specs.Cosignature.{ChecksCosignature, Cosigns, CosignsLine, IsOfKey, MayFailToCosign, cosigned_message, cosignature};
ghost use Rattle.tl_checkpoint.specs.Inner.Cosigning.{IsNoCosignature};

use itoa::Buffer;
use std::alloc::{AllocError, Allocator, Global};
use tl_note::{
    NoteFault, SigView, SignFault, Signer, Verifier, is_key_name, signature_of,
    write_signature_line,
};
use tl_text::push_line;

/// Returns the message that a witness signs for the text of a checkpoint: the version, the time in seconds since the
/// Unix epoch, and the text. It fails only if allocation fails.
pub fn cosign_message<A: Allocator>(
    alloc: A,
    time: u64,
    text: &str,
) -> Result<String<A>, AllocError>
    ensures { IfOk result (λ message. string_bytes message ≡ cosigned_message time text.now) }
{
    let mut message = String::new(alloc);
    push_line(&mut message, "cosignature/v1")?;
    message.push_str("time ")?;
    push_line(&mut message, Buffer::new().format(time))?;
    message.push_str(text)?;
    Ok(message)
}

/// Returns the bytes of a cosignature after the key's identifier: the time in seconds since the Unix epoch, in eight
/// bytes, big-endian, and the key's signature. It fails only if allocation fails.
pub fn cosignature_bytes<A: Allocator>(
    alloc: A,
    time: u64,
    signature: &[u8],
) -> Result<Vec<u8, A>, AllocError>
    ensures { IfOk result (λ bytes. bytes.items ≡ cosignature time signature.now) }
{
    let mut bytes = Vec::from_slice(alloc, &time.to_be_bytes())?;
    bytes.extend_from_slice(signature)?;
    Ok(bytes)
}

/// Returns the line by which a witness cosigns the text of a checkpoint at this time, under this name, which must be
/// a key's name. The signer allocates from `global`. It fails with `Refused` if the signer refuses the message or
/// gives no bytes.
pub fn cosignature_line_named<A: Allocator + Copy>(
    alloc: A,
    global: Global,
    name: &str,
    signer: &dyn Signer,
    time: u64,
    text: &str,
) -> Result<String<A>, SignFault>
    requires { IsKeyName name.now }
    ensures line { IfOk result (λ line.
        Cosigns text.now time (named_key name.now (signing_key signer.now)) (string_bytes line)) }
    ensures refused { IsErrOf result SignFault.Refused
        → MayFailToCosign text.now time (signing_key signer.now) }
{
    let message = cosign_message(alloc, time, text)?;
    let signature = match signature_of(global, signer, message.as_bytes()) {
        Ok(signature) => signature,
        Err(fault) => return Err(fault),
    };
    let bytes = cosignature_bytes(alloc, time, signature.as_slice())?;
    let line = write_signature_line(alloc, name, signer.key_id(), bytes.as_slice())?;
    Ok(line)
}

/// Returns the line by which a witness cosigns the text of a checkpoint at this time. The signer allocates from
/// `global`. It fails with `BadName(0)` if the signer's name is no key's name, and else with `Sign(0)` if the signer
/// refuses the message or gives no bytes.
pub fn cosign_line<A: Allocator + Copy>(
    alloc: A,
    global: Global,
    text: &str,
    time: u64,
    signer: &dyn Signer,
) -> Result<String<A>, NoteFault>
    ensures { CosignsLine text.now time (signing_key signer.now) result }
{
    if !is_key_name(signer.name()) {
        return Err(NoteFault::BadName(0));
    }
    match cosignature_line_named(alloc, global, signer.name(), signer, time, text) {
        Ok(line) => Ok(line),
        Err(SignFault::Refused) => Err(NoteFault::Sign(0)),
        Err(SignFault::OutOfMemory) => Err(NoteFault::OutOfMemory),
    }
}

// Reports whether the line has the verifier's key.
fn is_of(line: &SigView<'_>, verifier: &dyn Verifier) -> bool
    ensures { IsTrue result ↔ IsOfKey (key verifier.now) line.now }
{
    line.name() == verifier.name() && line.key_id() == verifier.key_id()
}

// Reads the time and the signature of the bytes of a cosignature.
fn read_cosignature(bytes: &[u8]) -> Option<(u64, &[u8])>
    ensures { MatchOption result (IsNoCosignature bytes.now)
        (λ r. (r.0 < 2 ^ 64) × (bytes.now ≡ cosignature r.0 r.1.now)) }
{
    let [a, b, c, d, e, f, g, h, signature @ ..] = bytes else {
        return None;
    };
    let time = u64::from_be_bytes([*a, *b, *c, *d, *e, *f, *g, *h]);
    Some((time, signature))
}

/// Returns the time of a cosignature: of a line with the verifier's name and identifier whose signature is valid for
/// the message of this text at that time. Returns `None` for any other line. It fails only if allocation fails, and
/// allocates only for a line with that name and identifier.
pub fn check_cosignature<A: Allocator + Copy>(
    alloc: A,
    text: &str,
    line: &SigView<'_>,
    verifier: &dyn Verifier,
) -> Result<Option<u64>, AllocError>
    ensures checked { IfOk result (ChecksCosignature text.now (key verifier.now) line.now) }
    ensures memory { OnErr result (IsOfKey (key verifier.now) line.now) }
{
    if !is_of(line, verifier) {
        return Ok(None);
    }
    let bytes = line.decode(alloc)?;
    let Some((time, signature)) = read_cosignature(bytes.as_slice()) else {
        return Ok(None);
    };
    let message = cosign_message(alloc, time, text)?;
    if verifier.verify(message.as_bytes(), signature) {
        Ok(Some(time))
    } else {
        Ok(None)
    }
}
