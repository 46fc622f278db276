//! Writing the body of a request.

ghost use Rattle.std.specs.Prelude.{◌≡◌, ◌++◌, IfOk, OnOk, string_bytes};
ghost use Rattle.tl_feed.specs.Question.{body_of};
ghost use Rattle.tl_witness.specs.Request.{body_text, hash_lines};

use crate::question::Question;
use base64::engine::general_purpose::STANDARD;
use itoa::Buffer;
use std::alloc::{AllocError, Allocator};
use tl_hash::Hash;
use tl_text::push_line;

// Appends hashes in base64, one on each line.
fn push_hashes<A: Allocator>(out: &mut String<A>, hashes: &[Hash]) -> Result<(), AllocError>
    ensures { OnOk result
        (string_bytes out.new ≡ string_bytes out.old ++ hash_lines hashes.now) }
{
    for hash in hashes {
        STANDARD.encode_string(hash.as_bytes(), out)?;
        out.push_str("\n")?;
    }
    Ok(())
}

/// Returns the body of an add-checkpoint request: the old size, the hashes of the proof, one on each line, an empty
/// line, and the note (C2SP tlog-witness, "add-checkpoint"). It fails only when allocation fails.
pub fn question_bytes<A: Allocator>(
    alloc: A,
    question: &Question<'_>,
) -> Result<Vec<u8, A>, AllocError>
    ensures { IfOk result (λ bytes. bytes.items ≡ body_text (body_of question.now)) }
{
    let mut text = String::from_str(alloc, "old ")?;
    push_line(&mut text, Buffer::new().format(question.old))?;
    push_hashes(&mut text, question.proof)?;
    text.push_str("\n")?;
    text.push_str(question.note)?;
    Ok(text.into_bytes())
}
