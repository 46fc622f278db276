//! The law of notes, over the definitions.

ghost use Rattle.std.specs.Prelude.{◌≡◌, List};
ghost use Rattle.tl_hash.specs.Bytes.{Bytes};
ghost use Rattle.tl_note.specs.Note.{Signature, Note};

/// No bytes are two notes: the text ends at the last place with two newlines in a row, and a key's name at the first
/// space.
pub fn bytes_are_one_note()
    ensures { (bytes t u : Bytes) (ls ms : List Signature)
        → Note bytes t ls → Note bytes u ms → (t ≡ u) × (ls ≡ ms) }
{}
