//! The command `audit` checks that one list extends another by an accepted proof.

ghost use Rattle.std.specs.Prelude.{◌≡◌, ◌++◌, codes, IfOk};
ghost use Rattle.hex.specs.Hex.{encode_lower};
ghost use Rattle.tl_text.specs.Text.{line};
ghost use Rattle.tl_command.specs.Inner.Shown.{audit_shown};
ghost use Rattle.tl_command.specs.AuditCommand.{AuditComes};
ghost use Rattle.tl_command.specs.Inner.Answers.{AnswersAudit, AnswersAuditText};
ghost use Rattle.tl_device.specs.Device.{passage};
ghost use Rattle.tl_run.specs.Run.{Runs};

use crate::audit_text::{AuditParts, read_audit};
use crate::lines::lines_of;
use std::alloc::{AllocError, Allocator};
use std::io::{Read, Write};
use tl_device::Counted;
use tl_hash::TreeHash;
use tl_proof::{AuditFault, Verdict, audit_tree};
use tl_run::{MOST_INPUT, RunFault, print_text, read_input};

// The text that is printed for an audit, and whether the answer is yes.
#[derive(Drop)]
pub(crate) struct Answer<A: Allocator> {
    pub(crate) text: Vec<u8, A>,
    pub(crate) yes: bool,
}

// Returns the text that shows two colliding byte strings: a line, and each of them in hexadecimal on a line.
fn collision_text<A: Allocator + Copy>(
    alloc: A,
    first: &[u8],
    second: &[u8],
) -> Result<Vec<u8, A>, AllocError>
    ensures { IfOk result (λ text. text.items ≡ line
        (codes "collision") ++ line (encode_lower first.now) ++ line (encode_lower second.now)) }
{
    let mut text = Vec::from_slice(alloc, b"collision\n")?;
    text.extend_from_slice(hex::encode(alloc, first)?.as_bytes())?;
    text.push(b'\n')?;
    text.extend_from_slice(hex::encode(alloc, second)?.as_bytes())?;
    text.push(b'\n')?;
    Ok(text)
}

// Returns an answer of fixed words.
fn fixed<A: Allocator>(alloc: A, words: &[u8], yes: bool) -> Result<Answer<A>, AllocError>
    ensures { IfOk result (λ answer. (answer.text.items ≡ words.now) × (answer.yes ≡ yes)) }
{
    Ok(Answer {
        text: Vec::from_slice(alloc, words)?,
        yes,
    })
}

// Returns the answer to an audit.
fn answer_of<T: TreeHash, A: Allocator + Copy, B: Allocator>(
    alloc: A,
    h: T,
    parts: &AuditParts<'_, A, B>,
) -> Result<Answer<A>, AllocError>
    ensures { IfOk result (AnswersAudit T.digest_of (audit_shown parts.now)) }
{
    match audit_tree(alloc, h, parts.old, parts.new, parts.proof.as_slice()) {
        Ok(Verdict::Extends) => fixed(alloc, b"extends\n", true),
        Ok(Verdict::Collision(first, second)) => Ok(Answer {
            text: collision_text(alloc, first.as_slice(), second.as_slice())?,
            yes: false,
        }),
        Err(AuditFault::NotAccepted) => fixed(alloc, b"not accepted\n", false),
        Err(AuditFault::OutOfMemory) => Err(AllocError),
    }
}

// Returns the answer to the audit whose text this is. It fails with `Malformed` if the text is no audit's.
fn answer_to<T: TreeHash, A: Allocator + Copy>(
    alloc: A,
    h: T,
    text: &[u8],
) -> Result<Answer<A>, RunFault>
    ensures { AnswersAuditText T.digest_of text.now result }
{
    let Some(lines) = lines_of(alloc, text)? else {
        return Err(RunFault::Malformed);
    };
    match read_audit(alloc, lines.as_slice())? {
        Some(parts) => Ok(answer_of(alloc, h, &parts)?),
        None => Err(RunFault::Malformed),
    }
}

/// Reads the whole input, the text of an audit: two lists of entries, and a consistency proof from the first list to
/// the second (RFC 6962, section 2.1.2). It writes `extends` if the proof is accepted and the first list is a prefix
/// of the second. Otherwise it fails with `Refused` and writes `not accepted`, or `collision` and, in hexadecimal,
/// two different byte strings with one digest that were hashed for the audit. It fails with `Malformed` on any other
/// input. Nothing is written before the whole input is read.
pub fn run_audit<T: TreeHash, A: Allocator + Copy, R: Read, W: Write>(
    alloc: A,
    h: T,
    reader: &mut Counted<R>,
    writer: &mut Counted<W>,
) -> Result<(), RunFault>
    ensures { Runs (AuditComes T.digest_of) (passage R.remaining reader.old reader.new)
        (passage W.contents writer.old writer.new) result }
{
    let input = read_input(alloc, reader, MOST_INPUT)?;
    let answer = match answer_to(alloc, h, input.as_slice()) {
        Ok(answer) => answer,
        Err(fault) => return Err(fault),
    };
    match print_text(writer, answer.text.as_slice()) {
        Ok(()) => {}
        Err(_) => return Err(RunFault::Write),
    }
    if !answer.yes {
        return Err(RunFault::Refused);
    }
    Ok(())
}
