//! Laws of checkpoints, over the definitions.

ghost use Rattle.std.specs.Prelude.{◌≡◌, IsUtf8};
ghost use Rattle.tl_checkpoint.specs.Checkpoint.{Head, IsHead, checkpoint_text};
ghost use Rattle.tl_note.specs.Note.{IsNoteText};

/// No text is that of two checkpoints, so `parse` returns the checkpoint that `write` was given.
pub fn text_is_one_checkpoint()
    ensures { (c d : Head) → IsHead c → IsHead d → checkpoint_text c ≡ checkpoint_text d → c ≡ d }
{}

/// The text of a checkpoint can be the text of a note, so it can be signed (C2SP signed-note, "Format").
pub fn checkpoint_can_be_signed()
    ensures { (c : Head) → IsHead c → IsUtf8 (checkpoint_text c) → IsNoteText (checkpoint_text c) }
{}
