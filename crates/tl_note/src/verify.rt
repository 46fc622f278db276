//! Verifying one signature line.

ghost use Rattle.std.specs.Prelude.{◌≡◌, ◌≤◌, length, map, filter, count_by};
ghost use Rattle.std.specs.List.{list_any, list_all};
ghost use Rattle.tl_note.specs.Inner.Judging.{VerifiesLine};
ghost use Rattle.tl_note.specs.Open.{is_of};

use crate::fault::NoteFault;
use crate::keys::Verifier;
use crate::line::SigView;
use std::alloc::Allocator;

// Reports whether the line has the verifier's key.
fn has_key(verifier: &Box<dyn Verifier>, line: &SigView<'_>) -> bool
    ensures { result ≡ is_of line.now (key verifier.now) }
{
    line.name() == verifier.name() && line.key_id() == verifier.key_id()
}

// Reports whether the verifier accepts the signature of the message.
fn accepts(verifier: &Box<dyn Verifier>, message: &[u8], signature: &[u8]) -> bool
    ensures { result ≡ (key verifier.now).accepts message.now signature.now }
{
    verifier.verify(message, signature)
}

/// Reports whether a verifier has the line's key.
pub(crate) fn is_known(verifiers: &[Box<dyn Verifier>], line: &SigView<'_>) -> bool
    ensures { result ≡ list_any (is_of line.now) (map (λ verifier. key verifier) verifiers.now) }
{
    match verifiers {
        [] => false,
        [first, rest @ ..] => has_key(first, line) || is_known(rest, line),
    }
}

// Returns the number of verifiers that have the line's key.
fn count_known(verifiers: &[Box<dyn Verifier>], line: &SigView<'_>) -> usize
    ensures count { result
        ≡ count_by (is_of line.now) (map (λ verifier. key verifier) verifiers.now) }
    ensures bound { result ≤ length verifiers.now }
{
    match verifiers {
        [] => 0,
        [first, rest @ ..] => {
            let others = count_known(rest, line);
            if has_key(first, line) {
                others + 1
            } else {
                others
            }
        }
    }
}

// Reports whether all verifiers with the line's key accept the signature of the message.
fn is_accepted(
    verifiers: &[Box<dyn Verifier>],
    line: &SigView<'_>,
    message: &[u8],
    signature: &[u8],
) -> bool
    ensures { result ≡ list_all (λ key. key.accepts message.now signature.now)
        (filter (is_of line.now) (map (λ verifier. key verifier) verifiers.now)) }
{
    match verifiers {
        [] => true,
        [first, rest @ ..] => {
            if has_key(first, line) && !accepts(first, message, signature) {
                return false;
            }
            is_accepted(rest, line, message, signature)
        }
    }
}

/// Verifies the signature of the line at this index.
pub(crate) fn verify_line<A: Allocator>(
    alloc: A,
    text: &str,
    line: &SigView<'_>,
    place: usize,
    verifiers: &[Box<dyn Verifier>],
) -> Result<(), NoteFault>
    ensures { VerifiesLine
        (map (λ verifier. key verifier) verifiers.now) text.now (place, line.now) result }
{
    if count_known(verifiers, line) > 1 {
        return Err(NoteFault::Ambiguous(place));
    }
    let signature = line.decode(alloc)?;
    if !is_accepted(verifiers, line, text.as_bytes(), signature.as_slice()) {
        return Err(NoteFault::InvalidSignature(place));
    }
    Ok(())
}
