//! The signed note of a log's checkpoint.

ghost use Rattle.std.specs.Prelude.{◌≡◌, IfOk, map, string_bytes};
ghost use Rattle.tl_text.specs.Text.{IsOneLine, IsSize};
ghost use Rattle.tl_note.specs.Note.{IsNoteText};
ghost use Rattle.tl_publisher.specs.Inner.Noting.{AsPublishFault, IsSignFault, NotesHead, text_of_head};
ghost use Rattle.tl_publisher.specs.Signed.{AreSigners};

use crate::fault::PublishFault;
use std::alloc::{AllocError, Global};
use tl_checkpoint::{Checkpoint, CheckpointFault, write};
use tl_hash::Head;
use tl_note::{NoteFault, Signer, sign_note};

// Converts the faults that lawful signers of a lawful text can cause: a signer refused, or allocation failed.
fn refusal(fault: NoteFault) -> PublishFault
    requires { IsSignFault fault }
    ensures { AsPublishFault fault result }
{
    match fault {
        NoteFault::Sign(place) => PublishFault::Sign(place),
        NoteFault::OutOfMemory => PublishFault::OutOfMemory,
        _ => unreachable!(),
    }
}

// Returns the text of the checkpoint of this size and root (C2SP tlog-checkpoint, "Note text").
pub(crate) fn text_of(alloc: Global, origin: &str, head: Head) -> Result<String, AllocError>
    requires origin { IsOneLine origin.now }
    requires size { IsSize head.size }
    ensures text { IfOk result
        (λ text. string_bytes text ≡ text_of_head origin.now head.size head.root) }
    ensures note { IfOk result (λ text. IsNoteText (string_bytes text)) }
{
    let checkpoint = Checkpoint {
        origin: String::from_str(alloc, origin)?,
        size: head.size,
        root: head.root,
        extensions: Vec::new(alloc),
    };
    match write(alloc, &checkpoint) {
        Ok(text) => Ok(text),
        Err(CheckpointFault::OutOfMemory) => Err(AllocError),
        Err(_) => unreachable!(),
    }
}

// Returns the note of the checkpoint of this size and root, signed by each signer in order (C2SP signed-note).
pub(crate) fn note_of(
    alloc: Global,
    origin: &str,
    signers: &[Box<dyn Signer>],
    head: Head,
) -> Result<String, PublishFault>
    requires origin { IsOneLine origin.now }
    requires signers { AreSigners (map (λ s. signing_key s) signers.now) }
    requires size { IsSize head.size }
    ensures { NotesHead origin.now
        (map (λ s. signing_key s) signers.now) head.size head.root result }
{
    let text = text_of(alloc, origin, head)?;
    match sign_note(alloc, alloc, text.as_str(), signers) {
        Ok(note) => Ok(note),
        Err(fault) => Err(refusal(fault)),
    }
}
