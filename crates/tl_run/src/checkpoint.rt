//! The checkpoint of a log: its text, and the note that the log's key signs.

ghost use Rattle.std.specs.Prelude.{◌≡◌, List, [], length, string_bytes, IfOk, IfErr};
ghost use Rattle.sha2.specs.Sha256.{sha256};
ghost use Rattle.tl_hash.specs.Bytes.{Bytes};
ghost use Rattle.tl_hash.specs.Tree.{tree_hash};
ghost use Rattle.tl_text.specs.Text.{IsSize, IsOneLine};
ghost use Rattle.tl_note.specs.Key.{IsKeyName};
ghost use Rattle.tl_note.specs.Note.{IsNoteText};
ghost use Rattle.tl_checkpoint.specs.Checkpoint.{checkpoint_text};
ghost use Rattle.tl_run.specs.Signing.{checkpoint_note};

use crate::fault::RunFault;
use crate::log_signer::LogSigner;
use std::alloc::{Allocator, Global};
use tl_checkpoint::{Checkpoint, CheckpointFault, write};
use tl_hash::Hash;

/// Returns the text of the checkpoint (C2SP tlog-checkpoint, "Note text") of a log of `size` entries, below 2^63,
/// with this root. The origin is one line. The text can be signed (signed-note). It fails only if allocation fails.
pub fn checkpoint_of<A: Allocator + Copy>(
    alloc: A,
    origin: &str,
    size: u64,
    root: Hash,
) -> Result<String<A>, RunFault>
    requires origin { IsOneLine origin.now }
    requires size { IsSize size }
    ensures text { IfOk result (λ text. string_bytes text ≡ checkpoint_text
        (record { origin = origin.now; size = size; root = root; extensions = [] })) }
    ensures note { IfOk result (λ text. IsNoteText (string_bytes text)) }
    ensures fault { IfErr result (λ fault. fault ≡ RunFault.OutOfMemory) }
{
    let checkpoint = Checkpoint {
        origin: String::from_str(alloc, origin)?,
        size,
        root,
        extensions: Vec::new(alloc),
    };
    match write(alloc, &checkpoint) {
        Ok(text) => Ok(text),
        Err(CheckpointFault::OutOfMemory) => Err(RunFault::OutOfMemory),
        Err(_) => unreachable!(),
    }
}

/// Returns the note of the checkpoint of a log of `size` entries, below 2^63, with this root, signed by the log's key
/// (C2SP tlog-checkpoint, signed-note). The key takes its memory from `global`. It fails only if allocation fails.
pub fn sign_checkpoint<K: LogSigner, A: Allocator + Copy>(
    alloc: A,
    global: Global,
    key: &K,
    size: u64,
    root: Hash,
) -> Result<String<A>, RunFault>
    requires origin { IsKeyName (K.log_key key.now).name }
    requires size { IsSize size }
    ensures note { IfOk result (λ note. (entries : List Bytes) → length entries ≡ size
        → tree_hash sha256 entries ≡ root
        → string_bytes note ≡ checkpoint_note (K.log_key key.now) entries) }
    ensures fault { IfErr result (λ fault. fault ≡ RunFault.OutOfMemory) }
{
    let mut note = checkpoint_of(alloc, key.origin(), size, root)?;
    let line = key.line(alloc, global, note.as_str())?;
    note.push_str("\n")?;
    note.push_str(line.as_str())?;
    Ok(note)
}
