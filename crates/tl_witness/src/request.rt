//! Reading the body of an add-checkpoint request.

ghost use Rattle.std.specs.Prelude.{◌≡◌, ◌++◌, ◌<◌, IfOk, IsUtf8, List, MatchOption, OnErr, ◌↔◌};
ghost use Rattle.tl_hash.specs.Bytes.{Bytes, IsHash};
ghost use Rattle.tl_text.specs.Text.{base64_text, line};
ghost use Rattle.tl_witness.specs.ReadRequest.{HasNoHashLine, HasNoProof, HasProof, IsProofText, ParsesRequest};
ghost use Rattle.tl_witness.specs.Inner.ReadSigned.{ReadsSigned};

use std::alloc::{AllocError, AllocFailed, Allocator};
use std::str;
use thiserror::Error;
use tl_checkpoint::{Checkpoint, CheckpointFault, parse};
use tl_hash::Hash;
use tl_note::{NoteFault, NoteView, parse_note};
use tl_proof::HashList;
use tl_text::{parse_hash, parse_size, split_line};

/// No consistency proof between sizes below 2^63 has more hashes than this.
pub(crate) const MOST_HASHES: usize = 63;

/// What an add-checkpoint request asks (C2SP tlog-witness, "add-checkpoint").
#[derive(Drop)]
pub struct AddRequest<'m, A: Allocator> {
    /// The size that the client believes was cosigned last, below 2^63.
    pub old: u64,
    /// The consistency proof from that size, of at most 63 hashes.
    pub proof: HashList<A>,
    /// The signed checkpoint, a part of the body.
    pub note: &'m str,
}

/// Why a body isn't read.
#[derive(Clone, Copy, Debug, PartialEq, Eq, Error)]
pub enum RequestFault {
    /// The bytes are not the body of a request.
    #[error("not a request")]
    Malformed,
    /// Allocation failed.
    #[error("out of memory")]
    OutOfMemory,
}

impl From<AllocError> for RequestFault {
    ghost use Rattle.tl_witness.specs.declared.request.RequestFault.TheVariants.{OutOfMemory};

    ghost from_gives = { λ _ fault. fault ≡ OutOfMemory };

    fn from(_fault: AllocError) -> RequestFault {
        RequestFault::OutOfMemory
    }
}

impl<X: Drop> From<AllocFailed<X>> for RequestFault {
    ghost use Rattle.tl_witness.specs.declared.request.RequestFault.TheVariants.{OutOfMemory};

    ghost from_gives = { λ _ fault. fault ≡ OutOfMemory };

    fn from(_fault: AllocFailed<X>) -> RequestFault {
        RequestFault::OutOfMemory
    }
}

// Returns the hash that is the first line of a text, and what follows it.
fn next_hash(text: &str) -> Option<(Hash, &str)>
    ensures { MatchOption result (HasNoHashLine text.now)
        (λ r. IsHash r.0 × (text.now ≡ line (base64_text r.0) ++ r.1.now) × IsUtf8 r.1.now) }
{
    let Some((words, rest)) = split_line(text) else {
        return None;
    };
    let Some(hash) = parse_hash(words) else {
        return None;
    };
    Some((hash, rest))
}

// Returns the number of lines with hashes, at most 63, before an empty line, and the note that follows the empty
// line.
fn cut_proof(text: &str) -> Option<(usize, &str)>
    ensures { MatchOption result (HasNoProof text.now) (λ r. HasProof text.now r.0 r.1.now) }
{
    let mut count = 0;
    let mut left = text;
    while !left.starts_with('\n') {
        if count == MOST_HASHES {
            return None;
        }
        let Some((_, rest)) = next_hash(left) else {
            return None;
        };
        count += 1;
        left = rest;
    }
    Some((count, &left[1..]))
}

// Reads the hashes of `count` lines that are followed by an empty line.
fn read_hashes<A: Allocator>(alloc: A, count: usize, text: &str) -> Result<HashList<A>, AllocError>
    requires { (note : Bytes) × HasProof text.now count note }
    ensures read { IfOk result (λ hashes.
        (proof : List Bytes) (note : Bytes) → IsProofText text.now proof note → hashes ≡ proof) }
    ensures refused { OnErr result (0 < count) }
{
    let mut hashes: Vec<Hash, A> = Vec::with_capacity(alloc, count)?;
    let mut left = text;
    while let Some(read) = next_hash(left) {
        let (hash, rest) = read;
        hashes.push_reserved(hash);
        left = rest;
    }
    Ok(HashList::from_vec(hashes))
}

/// Parses the body of a request (C2SP tlog-witness, "add-checkpoint"): the line with the old size, the hashes of the
/// proof, one on each line and 63 at most, an empty line, and the note. `Malformed` means that the bytes are no such
/// text. Allocates only once, for the hashes of a request's proof, and nothing if there are none.
pub fn parse_request<A: Allocator + Copy>(
    alloc: A,
    body: &[u8],
) -> Result<AddRequest<'_, A>, RequestFault>
    ensures { ParsesRequest body.now result }
{
    let Ok(text) = str::from_utf8(body) else {
        return Err(RequestFault::Malformed);
    };
    let Some((words, rest)) = split_line(text) else {
        return Err(RequestFault::Malformed);
    };
    let Some(digits) = words.strip_prefix("old ") else {
        return Err(RequestFault::Malformed);
    };
    let Some(old) = parse_size(digits) else {
        return Err(RequestFault::Malformed);
    };
    let Some((count, note)) = cut_proof(rest) else {
        return Err(RequestFault::Malformed);
    };
    let proof = read_hashes(alloc, count, rest)?;
    Ok(AddRequest { old, proof, note })
}

/// A note, and the checkpoint that is its text.
#[derive(Drop)]
pub(crate) struct SignedCheckpoint<'m, A: Allocator> {
    pub(crate) note: NoteView<'m, A>,
    pub(crate) checkpoint: Checkpoint<A>,
}

// Converts the fault of a checkpoint.
fn fault_of(fault: CheckpointFault) -> RequestFault
    ensures { (result ≡ RequestFault.OutOfMemory) ↔ (fault ≡ CheckpointFault.OutOfMemory) }
{
    match fault {
        CheckpointFault::OutOfMemory => RequestFault::OutOfMemory,
        _ => RequestFault::Malformed,
    }
}

/// Parses a note and the checkpoint that is its text. `Malformed` means that the bytes are no note, or the text is no
/// checkpoint. It verifies no signature.
pub(crate) fn read_signed<A: Allocator + Copy>(
    alloc: A,
    bytes: &str,
) -> Result<SignedCheckpoint<'_, A>, RequestFault>
    ensures { ReadsSigned bytes.now result }
{
    let note = match parse_note(alloc, bytes) {
        Ok(note) => note,
        Err(NoteFault::OutOfMemory) => return Err(RequestFault::OutOfMemory),
        Err(_) => return Err(RequestFault::Malformed),
    };
    let checkpoint = match parse(alloc, note.text) {
        Ok(checkpoint) => checkpoint,
        Err(fault) => return Err(fault_of(fault)),
    };
    Ok(SignedCheckpoint { note, checkpoint })
}
