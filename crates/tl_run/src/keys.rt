//! Keys that the options of a command name.

ghost use Rattle.tl_key.specs.Reading.{ReadsSigner, ReadsVerifier};
ghost use Rattle.tl_run.specs.Keys.{IsTextOf, ReadsFile, ReadsKey, ReadsPrivate};

use crate::fault::RunFault;
use crate::place::Place;
use crate::streams::MOST_INPUT;
use std::alloc::Global;
use std::fs::{Files, metadata};
use std::str;
use tl_device::read_plain;
use tl_key::{KeyFault, KeyKind, NoteVerifier, SignerKey, read_signer_key, read_verifier_key};

/// The key that signs a log.
#[derive(Drop)]
pub enum LogKey {
    /// The demonstration key of the log's name and this secret.
    Secret(String),
    /// The private key whose text is in this file.
    File(String),
}

/// Returns the verifier key of a log whose text this is (C2SP signed-note, "Verifier keys"). It fails with `BadKey`
/// if the text is none, and with `OutOfMemory` if allocation fails.
pub fn read_log_key(alloc: Global, text: &str) -> Result<NoteVerifier<Global>, RunFault>
    ensures { ReadsKey text.now result }
{
    match read_verifier_key(alloc, text) {
        Ok(key) => Ok(key),
        Err(KeyFault::OutOfMemory) => Err(RunFault::OutOfMemory),
        Err(_) => Err(RunFault::BadKey),
    }
}

// Returns the text without a newline at its end.
fn without_newline(text: &str) -> &str
    ensures { IsTextOf text.now result.now }
{
    match text.strip_suffix("\n") {
        Some(line) => line,
        None => text,
    }
}

/// Returns the private key whose text the bytes are, with or without a newline at its end
/// (`tl_key::read_signer_key`). It fails with `BadKeyFile` if the bytes are no text of a key of the type asked for,
/// and with `OutOfMemory` if allocation fails.
pub fn read_private_key<K: KeyKind>(
    alloc: Global,
    bytes: &[u8],
) -> Result<SignerKey<K, Global>, RunFault>
    ensures { ReadsPrivate K.KIND bytes.now result }
{
    let Ok(text) = str::from_utf8(bytes) else {
        return Err(RunFault::BadKeyFile);
    };
    match read_signer_key(alloc, without_newline(text)) {
        Ok(key) => Ok(key),
        Err(KeyFault::OutOfMemory) => Err(RunFault::OutOfMemory),
        Err(_) => Err(RunFault::BadKeyFile),
    }
}

/// Returns the bytes of the plain file at this path, at most as many as an input may have. If it can't read them, it
/// returns why: `NotPlain` for what is no plain file, such as a FIFO, whose opening would wait for a writer.
pub fn read_file<H: Files>(files: &H, alloc: Global, path: &str) -> Result<Vec<u8>, RunFault>
    ensures { ReadsFile result }
{
    match read_plain(alloc, files, path, metadata(files, path), MOST_INPUT) {
        Ok(bytes) => Ok(bytes),
        Err(fault) => Err(RunFault::of_device(Place::File, fault)),
    }
}
