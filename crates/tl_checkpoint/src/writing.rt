//! Writing the text of a checkpoint.

ghost use Rattle.std.specs.Prelude.{◌≡◌, ◌↔◌, ◌++◌, All, IsTrue, IfOk, OnOk, map, string_bytes};
ghost use Rattle.std.specs.List.{flat_map};
ghost use Rattle.tl_hash.specs.Bytes.{IsHash};
ghost use Rattle.tl_text.specs.Text.{line, IsOneLine};
ghost use Rattle.tl_checkpoint.specs.Checkpoint.{checkpoint_text, head_of};
ghost use Rattle.tl_checkpoint.specs.WriteCheckpoint.{WritesCheckpoint};

use crate::checkpoint::{Checkpoint, CheckpointFault};
use base64::engine::general_purpose::STANDARD;
use itoa::Buffer;
use std::alloc::{AllocError, Allocator};
use tl_text::{is_one_line, push_line};

// Reports whether each text is one line and not empty.
fn are_lines<A: Allocator>(texts: &[String<A>]) -> bool
    ensures { IsTrue result ↔ All IsOneLine (map string_bytes texts.now) }
{
    for text in texts {
        if !is_one_line(text) {
            return false;
        }
    }
    true
}

// Appends these texts as lines.
fn push_lines<A: Allocator, B: Allocator>(
    out: &mut String<A>,
    texts: &[String<B>],
) -> Result<(), AllocError>
    ensures { OnOk result (string_bytes out.new
        ≡ string_bytes out.old ++ flat_map line (map string_bytes texts.now)) }
{
    for text in texts {
        push_line(out, text)?;
    }
    Ok(())
}

// Returns the lines of a checkpoint.
fn lines_of<A: Allocator + Copy, B: Allocator>(
    alloc: A,
    checkpoint: &Checkpoint<B>,
) -> Result<String<A>, AllocError>
    ensures text { IfOk result
        (λ text. string_bytes text ≡ checkpoint_text (head_of checkpoint.now)) }
    ensures root { IsHash (head_of checkpoint.now).root }
{
    let root = STANDARD.encode(alloc, checkpoint.root.as_bytes())?;
    let mut out = String::new(alloc);
    push_line(&mut out, &checkpoint.origin)?;
    push_line(&mut out, Buffer::new().format(checkpoint.size))?;
    push_line(&mut out, &root)?;
    push_lines(&mut out, &checkpoint.extensions)?;
    Ok(out)
}

/// Returns the text of a checkpoint: the lines origin, size, root and extensions (C2SP tlog-checkpoint, "Note text").
/// If the checkpoint has no text, it fails with the first fault in the order extensions, origin, size.
pub fn write<A: Allocator + Copy, B: Allocator>(
    alloc: A,
    checkpoint: &Checkpoint<B>,
) -> Result<String<A>, CheckpointFault>
    ensures { WritesCheckpoint (head_of checkpoint.now) result }
{
    if !are_lines(&checkpoint.extensions) {
        return Err(CheckpointFault::Lines);
    }
    if !is_one_line(&checkpoint.origin) {
        return Err(CheckpointFault::Origin);
    }
    if checkpoint.size >= 1 << 63 {
        return Err(CheckpointFault::Size);
    }
    Ok(lines_of(alloc, checkpoint)?)
}
