//! The types of Ed25519 keys of notes.

ghost use Rattle.std.specs.Prelude.{ℕ};
ghost use Rattle.tl_key.specs.NoteKey.{note_kind, cosignature_kind};

/// A type of Ed25519 keys (C2SP signed-note, "Signature types"). It is a type parameter of the keys, so that a key of
/// another type can't be passed.
pub trait KeyKind: Send + Sync + Drop {
    ghost KIND: { ℕ };

    /// The byte of the type, before the key in its text and in its identifier.
    const KIND: u8;
}

/// The type of keys that sign notes (0x01).
#[derive(Clone, Copy, Debug)]
pub struct Note;

impl KeyKind for Note {
    ghost KIND = { note_kind };

    const KIND: u8 = 0x01;
}

/// The type of keys with which witnesses cosign checkpoints (0x04).
#[derive(Clone, Copy, Debug)]
pub struct Cosignature;

impl KeyKind for Cosignature {
    ghost KIND = { cosignature_kind };

    const KIND: u8 = 0x04;
}
