//! Asking one witness to cosign a checkpoint.

ghost use Rattle.std.specs.Prelude.{◌≡◌, ◌⊎◌, ℕ, All, Any, IfErr, IfOk, MatchBool, OnOk, map, string_bytes};
ghost use Rattle.tl_checkpoint.specs.Cosignature.{IsCosignature};
ghost use Rattle.tl_key.specs.NoteKey.{verifier_key};
ghost use Rattle.tl_note.specs.Note.{signature_line};
ghost use Rattle.tl_feed.specs.Inner.Answered.{AreOthers};
ghost use Rattle.tl_feed.specs.Lines.{CosignsNote, CosignsText};
ghost use Rattle.tl_feed.specs.Proposing.{IsSignedBy};
ghost use Rattle.tl_feed.specs.Refusing.{IsFairlyTold};

use crate::fault::AskFault;
use crate::growing::growth_from;
use crate::proposed::{AsksWitness, Proposed};
use crate::question::{Question, WitnessAnswer};
use crate::unasked::Unasked;
use std::alloc::{AllocError, Global};
use tl_client::ResourceSource;
use tl_key::CosignerVerifier;
use tl_note::{NoteFault, SigView, parse_note, parse_signatures};
use tl_policy::cosigned_at;

// How often a witness is asked, at most, if it answers with another size each time.
const MOST_TRIES: u32 = 4;

// Asks a witness with the proof from the size that it has, and returns the lines that it answers with.
fn lines_of<S: ResourceSource, Q: AsksWitness>(
    alloc: Global,
    source: &S,
    proposed: &Proposed<'_>,
    known: &mut u64,
    asker: &mut Q,
) -> Result<String, Unasked>
    requires { IsSignedBy proposed.now.origin.now
        (map (λ v. key v) proposed.now.log.now) proposed.now.note.now proposed.now.head.now }
    ensures { IfErr result
        (IsFairlyTold (S.may_answer source.now) (S.may_lack source.now) proposed.now.head.now) }
{
    for _ in 0..MOST_TRIES {
        let old = *known;
        let proof = match growth_from(alloc, source, proposed.head, old) {
            Ok(proof) => proof,
            Err(fault) => return Err(Unasked::Growth(fault)),
        };
        let question = Question {
            old,
            proof: proof.as_slice(),
            note: proposed.note,
        };
        match asker.ask(source, proposed, &question)? {
            WitnessAnswer::Cosigned(lines) => return Ok(lines),
            WitnessAnswer::At(size) => *known = size,
        }
    }
    Err(Unasked::Restless)
}

// Reports whether a line is a cosignature of this text by one of these keys.
fn is_own(
    alloc: Global,
    text: &str,
    line: &SigView<'_>,
    keys: &[CosignerVerifier<Global>],
) -> Result<bool, AllocError>
    ensures { IfOk result (λ own. MatchBool own
        (Any (λ v. (time : ℕ) × IsCosignature text.now (verifier_key v) line.now time) keys.now)
        (All (λ v. (time : ℕ) → ¬ (IsCosignature text.now (verifier_key v) line.now time)) keys.now)) }
{
    let [first, rest @ ..] = keys else {
        return Ok(false);
    };
    if let Some(_) = cosigned_at(alloc, text, line, first)? {
        return Ok(true);
    }
    is_own(alloc, text, line, rest)
}

// Returns a line as it stands in a note.
fn text_of(alloc: Global, line: &SigView<'_>) -> Result<String, AllocError>
    ensures { IfOk result (λ text. string_bytes text ≡ signature_line line.now) }
{
    let mut text = String::new(alloc);
    line.push_to(&mut text)?;
    Ok(text)
}

// Returns the first of these lines by which one of the keys cosigned this text, as it stands in a note.
fn own_line(
    alloc: Global,
    text: &str,
    lines: &str,
    keys: &[CosignerVerifier<Global>],
) -> Result<String, Unasked>
    ensures line { IfOk result
        (λ line. CosignsText (map verifier_key keys.now) text.now (string_bytes line)) }
    ensures none { IfErr result (λ why. (why ≡ Unasked.Ask AskFault.OutOfMemory)
        ⊎ ((why ≡ Unasked.Other) × AreOthers text.now (map verifier_key keys.now) lines.now)) }
{
    let views = match parse_signatures(alloc, lines) {
        Ok(views) => views,
        Err(NoteFault::OutOfMemory) => return Err(Unasked::Ask(AskFault::OutOfMemory)),
        Err(_) => return Err(Unasked::Other),
    };
    for line in views.iter() {
        if is_own(alloc, text, line, keys)? {
            return Ok(text_of(alloc, line)?);
        }
    }
    Err(Unasked::Other)
}

/// Asks a witness to cosign a checkpoint, and returns the line by which one of its keys cosigns it (C2SP
/// tlog-cosignature). It is asked with the proof from size `known`, and again from each size that it answers with, at
/// most four times. On success `known` is the checkpoint's size; else it is the size that the witness answered with
/// last, if any. `Other`: no line that it answers with is of this checkpoint and by one of its keys.
pub fn line_of<S: ResourceSource, Q: AsksWitness>(
    alloc: Global,
    source: &S,
    proposed: &Proposed<'_>,
    known: &mut u64,
    asker: &mut Q,
    keys: &[CosignerVerifier<Global>],
) -> Result<String, Unasked>
    requires { IsSignedBy proposed.now.origin.now
        (map (λ v. key v) proposed.now.log.now) proposed.now.note.now proposed.now.head.now }
    ensures line { IfOk result
        (λ line. CosignsNote (map verifier_key keys.now) proposed.now.note.now (string_bytes line)) }
    ensures known { OnOk result (known.new ≡ proposed.now.head.now.size) }
    ensures fair { IfErr result
        (IsFairlyTold (S.may_answer source.now) (S.may_lack source.now) proposed.now.head.now) }
{
    let lines = match lines_of(alloc, source, proposed, known, asker) {
        Ok(lines) => lines,
        Err(why) => return Err(why),
    };
    let Ok(view) = parse_note(alloc, proposed.note) else {
        return Err(Unasked::Ask(AskFault::OutOfMemory));
    };
    let line = match own_line(alloc, view.text, lines.as_str(), keys) {
        Ok(line) => line,
        Err(why) => return Err(why),
    };
    *known = proposed.head.size;
    Ok(line)
}
