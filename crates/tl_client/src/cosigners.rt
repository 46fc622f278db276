//! Finding the witnesses that cosigned a checkpoint, each with any of its keys.

ghost use Rattle.std.specs.Prelude.{◌≡◌, ◌↔◌, All, Any, Contains, IfOk, IsTrue, MatchBool, ℕ, map};
ghost use Rattle.tl_checkpoint.specs.Cosignature.{IsCosignature};
ghost use Rattle.tl_client.specs.Trusted.{AreCosigners};
ghost use Rattle.tl_key.specs.NoteKey.{verifier_key};

use std::alloc::{AllocError, Allocator, Global};
use tl_key::CosignerVerifier;
use tl_note::{SigView, Verifier};
use tl_policy::cosigned_at;

// Returns the name of a witness.
fn name_of(witness: &CosignerVerifier<Global>) -> &str
    ensures { result.now ≡ witness.now.name }
{
    witness.name()
}

// Reports whether a name is among these.
fn is_among(names: &[&str], name: &str) -> bool
    ensures { IsTrue result ↔ Any (λ known. known.now ≡ name.now) names.now }
{
    names.iter().any(|known| *known == name)
}

// Reports whether one of the lines is a cosignature by this key.
fn has_line<A: Allocator + Copy>(
    alloc: A,
    text: &str,
    lines: &[SigView<'_>],
    witness: &CosignerVerifier<Global>,
) -> Result<bool, AllocError>
    ensures { IfOk result (λ found. MatchBool found
        (Any (λ line. (time : ℕ) × IsCosignature text.now (verifier_key witness.now) line time) lines.now)
        (All (λ line. (time : ℕ) → ¬ (IsCosignature text.now (verifier_key witness.now) line time)) lines.now)) }
{
    let [first, rest @ ..] = lines else {
        return Ok(false);
    };
    if let Some(_) = cosigned_at(alloc, text, first, witness)? {
        return Ok(true);
    }
    has_line(alloc, text, rest, witness)
}

/// Returns the names of the witnesses that cosigned the text with one of these lines, each once (C2SP
/// tlog-cosignature). Keys with the same name belong to one witness. It fails only if allocation fails.
pub(crate) fn cosigner_names<'w, A: Allocator + Copy>(
    alloc: A,
    text: &str,
    lines: &[SigView<'_>],
    witnesses: &'w [CosignerVerifier<Global>],
) -> Result<Vec<&'w str, A>, AllocError>
    ensures { IfOk result (λ names. AreCosigners text.now (map verifier_key witnesses.now)
        lines.now (map (λ n. n.now) names.items)) }
{
    let [first, rest @ ..] = witnesses else {
        return Ok(Vec::new(alloc));
    };
    let mut names = cosigner_names(alloc, text, lines, rest)?;
    let name = name_of(first);
    if is_among(names.as_slice(), name) {
        return Ok(names);
    }
    if !has_line(alloc, text, lines, first)? {
        return Ok(names);
    }
    names.push(name)?;
    Ok(names)
}
