//! The command `check` against a signed checkpoint.

ghost use Rattle.std.specs.Prelude.{◌≡◌, ◌∷◌, [], map, option_map};
ghost use Rattle.tl_checkpoint.specs.Checkpoint.{head_of};
ghost use Rattle.tl_device.specs.Device.{passage};
ghost use Rattle.tl_key.specs.KeyText.{IsVerifierText};
ghost use Rattle.tl_key.specs.NoteKey.{PublicKey, note_kind, verifier_key};
ghost use Rattle.tl_command.specs.CheckOpened.{RunsCheckOpened, RunsUnder};
ghost use Rattle.tl_command.specs.Inner.Notes.{OpensBytes, after_opening};

use crate::commands::check::run_check_about;
use crate::commands::opening::note_refusal;
use std::alloc::Global;
use std::io::{Read, Write};
use std::str;
use tl_checkpoint::{Checkpoint, OpenCheckpointFault, open_checkpoint};
use tl_device::Counted;
use tl_note::{NoteFault, Verifier};
use tl_run::{Place, RunFault, read_log_key};

/// An entry, as the options of a command give it.
#[derive(Drop)]
pub enum GivenEntry {
    /// The bytes of this text.
    Text(String),
    /// The bytes of the file at this path.
    File(String),
}

/// The options of `check` against a signed checkpoint.
#[derive(Drop)]
pub struct CheckOptions {
    /// The file with the checkpoint.
    pub checkpoint: String,
    /// The text of the log's verifier key.
    pub key: String,
    /// The entry that an inclusion proof has to show; without it, any entry.
    pub entry: Option<GivenEntry>,
}

// Returns the fault of bytes that are no signed checkpoint that opens.
fn checkpoint_refusal(fault: OpenCheckpointFault) -> RunFault
    ensures { result ≡ after_opening fault }
{
    match fault {
        OpenCheckpointFault::Unopened(NoteFault::Malformed) => RunFault::BadCheckpoint(Place::File),
        OpenCheckpointFault::Unopened(fault) => note_refusal(fault),
        OpenCheckpointFault::NoCheckpoint(_) => RunFault::BadCheckpoint(Place::File),
        OpenCheckpointFault::OutOfMemory => RunFault::OutOfMemory,
    }
}

// Returns the checkpoint that these bytes are, if it opens under these keys.
fn checkpoint_of(
    alloc: Global,
    bytes: &[u8],
    verifiers: &[Box<dyn Verifier>],
) -> Result<Checkpoint<Global>, RunFault>
    ensures { OpensBytes bytes.now (map (λ verifier. key verifier) verifiers.now) result }
{
    let Ok(note) = str::from_utf8(bytes) else {
        return Err(RunFault::BadCheckpoint(Place::File));
    };
    match open_checkpoint(alloc, note, verifiers) {
        Ok(checkpoint) => Ok(checkpoint),
        Err(fault) => Err(checkpoint_refusal(fault)),
    }
}

// Checks the proof of the input against the checkpoint, if it opens under these keys and is of the log with this
// name.
fn check_under<R: Read, W: Write>(
    alloc: Global,
    verifiers: &[Box<dyn Verifier>],
    name: &str,
    bytes: &[u8],
    entry: Option<&[u8]>,
    reader: &mut Counted<R>,
    writer: &mut Counted<W>,
) -> Result<(), RunFault>
    ensures { RunsUnder bytes.now (map (λ verifier. key verifier) verifiers.now) name.now
        (option_map (λ e. e.now) entry.entry) (passage R.remaining reader.old reader.new)
        (passage W.contents writer.old writer.new) result }
{
    let checkpoint = checkpoint_of(alloc, bytes, verifiers)?;
    if checkpoint.origin.as_str() != name {
        return Err(RunFault::BadOrigin);
    }
    run_check_about(
        alloc,
        checkpoint.size,
        checkpoint.root,
        entry,
        reader,
        writer,
    )
}

// Checks the proof as `check_under` does, under the one key whose text this is.
fn check_by<R: Read, W: Write>(
    alloc: Global,
    text: &str,
    verifiers: &[Box<dyn Verifier>],
    name: &str,
    bytes: &[u8],
    entry: Option<&[u8]>,
    reader: &mut Counted<R>,
    writer: &mut Counted<W>,
) -> Result<(), RunFault>
    requires { (k : PublicKey) × IsVerifierText note_kind text.now k × (name.now ≡ k.name)
        × (map (λ verifier. key verifier) verifiers.now ≡ verifier_key k ∷ []) }
    ensures { RunsCheckOpened text.now bytes.now (option_map (λ e. e.now) entry.entry) (passage
        R.remaining reader.old reader.new) (passage W.contents writer.old writer.new) result }
{
    check_under(alloc, verifiers, name, bytes, entry, reader, writer)
}

/// Checks a proof as `run_check_about` does, against a signed checkpoint: a note that opens under the key of this
/// text, and is a checkpoint of the log with the key's name (C2SP tlog-checkpoint). The new tree of a consistency
/// proof has to be the checkpoint's. It fails before it reads, with `BadKey` if the text is no key's, with
/// `BadCheckpoint`, `WrongSignature` or `Unverified` if the bytes are no checkpoint that opens, and with `BadOrigin`
/// if it is another log's.
pub fn run_check_opened<R: Read, W: Write>(
    alloc: Global,
    text: &str,
    bytes: &[u8],
    entry: Option<&[u8]>,
    reader: &mut Counted<R>,
    writer: &mut Counted<W>,
) -> Result<(), RunFault>
    ensures { RunsCheckOpened text.now bytes.now (option_map (λ e. e.now) entry.entry) (passage
        R.remaining reader.old reader.new) (passage W.contents writer.old writer.new) result }
{
    let key = read_log_key(alloc, text)?;
    let name = String::from_str(alloc, key.name())?;
    let verifier: Box<dyn Verifier> = Box::new(alloc, key)?;
    let name = name.as_str();
    check_by(alloc, text, &[verifier], name, bytes, entry, reader, writer)
}
