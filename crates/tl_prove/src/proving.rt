//! A proof of an entry, of what a source has.

ghost use Rattle.std.specs.Prelude.{◌≡◌, ◌≢◌, ◌<◌, IfErr, IfOk, MatchBool, MatchOption, length, map, option_map, string_bytes, vec_items};
ghost use Rattle.tl_offline.specs.ProofText.{TlogProof};
ghost use Rattle.tl_policy.specs.Terms.{terms_of};
ghost use Rattle.tl_text.specs.Text.{IsSize};
ghost use Rattle.tl_prove.specs.Prove.{IsProofFor, Proves, RefusesLeaf, RefusesProving};
ghost use Rattle.tl_prove.specs.Inner.Proving.{Finds, HasNone, IsNoteOf, LooksFor, LooksIn, OpensSource, ReadsCheckpoint, head_of};

use crate::fault::ProveFault;
use std::alloc::{AllocError, Global};
use tl_client::{ClientFault, Head, ResourceSource, prove_entry, read_entries};
use tl_fetch::{FetchFault, Nobody, client_refusal, fetch_entry};
use tl_hash::{Hash, Sha256Tree, leaf_hash};
use tl_offline::{OfflineProof, WriteFault, accepted_proofs_are_short, write_proof};
use tl_policy::{Policy, TrustFault, Trusted, open_under};
use tl_tile::{FetchedTiles, Resource, SourceFault};

/// Of which entry a proof is made.
#[derive(Clone, Copy)]
pub enum Wanted<'w> {
    /// The entry with this index, counted from 0.
    Index(u64),
    /// One of these bytes.
    Entry(&'w [u8]),
}

/// A note, and its checkpoint that the policy trusts.
#[derive(Drop)]
pub(crate) struct TrustedNote {
    pub(crate) note: String,
    pub(crate) trusted: Trusted<Global>,
}

impl TrustedNote {
    // Returns the size and the root.
    pub(crate) fn head(&self) -> Head
        ensures { result ≡ head_of self.now }
    {
        Head {
            size: self.trusted.checkpoint.size,
            root: self.trusted.checkpoint.root,
        }
    }
}

// Returns the bytes that a source has for the checkpoint.
fn checkpoint_of<S: ResourceSource>(alloc: Global, source: &S) -> Result<Vec<u8>, ProveFault>
    ensures { ReadsCheckpoint (S.may_answer source.now) (S.may_lack source.now) result }
{
    match source.get(alloc, &Resource::Checkpoint) {
        Ok(bytes) => Ok(bytes),
        Err(SourceFault::Unavailable) => Err(ProveFault::Fetch(FetchFault::Unavailable)),
        Err(SourceFault::OutOfMemory) => Err(ProveFault::from(AllocError)),
    }
}

// Returns the note that bytes are, if they are UTF-8.
fn note_of(bytes: Vec<u8>) -> Result<String, ProveFault>
    ensures { IsNoteOf bytes.items result }
{
    match String::from_utf8(bytes) {
        Ok(note) => Ok(note),
        Err(_) => Err(ProveFault::Untrusted(TrustFault::NoNote)),
    }
}

/// Returns the checkpoint that a source has, if the policy trusts it.
pub(crate) fn open_source<S: ResourceSource>(
    alloc: Global,
    source: &S,
    policy: &Policy<'_, Global>,
) -> Result<TrustedNote, ProveFault>
    ensures { OpensSource (S.may_answer source.now) (S.may_lack source.now)
        (terms_of policy.now) result }
{
    let bytes = match checkpoint_of(alloc, source) {
        Ok(bytes) => bytes,
        Err(fault) => return Err(fault),
    };
    let note = match note_of(bytes) {
        Ok(note) => note,
        Err(fault) => return Err(fault),
    };
    match open_under(alloc, policy, note.as_str()) {
        Ok(trusted) => Ok(TrustedNote { note, trusted }),
        Err(TrustFault::OutOfMemory) => Err(ProveFault::from(AllocError)),
        Err(fault) => Err(ProveFault::Untrusted(fault)),
    }
}

// Reports whether two entries are one.
fn is_same(one: &[u8], other: &[u8]) -> bool
    ensures { MatchBool result (one.now ≡ other.now) (one.now ≢ other.now) }
{
    one == other
}

// Returns the place of the first of these entries that is this one.
fn place_of(entries: &[Vec<u8>], entry: &[u8]) -> Option<usize>
    ensures { MatchOption result (HasNone (map vec_items entries.now) entry.now)
        (λ place. place < length entries.now) }
{
    for place in 0..entries.len() {
        if is_same(entries[place].as_slice(), entry) {
            return Some(place);
        }
    }
    None
}

// Returns the index of an entry of a bundle that is this one.
fn look_in<S: ResourceSource>(
    alloc: Global,
    source: &S,
    head: &Head,
    bundle: u64,
    entry: &[u8],
) -> Result<Option<u64>, ClientFault>
    ensures { LooksIn (S.may_answer source.now) (S.may_lack source.now) head.now entry.now bundle result }
{
    let Head { size, root } = *head;
    let mut fetched = FetchedTiles::new(alloc);
    let entries = match read_entries(alloc, source, size, root, bundle, &mut fetched) {
        Ok(entries) => entries,
        Err(fault) => return Err(fault),
    };
    match place_of(entries.as_slice(), entry) {
        Some(place) => Ok(Some(256 * bundle + place as u64)),
        None => Ok(None),
    }
}

// Returns the index of an entry of the log that is this one. It looks through the bundles, the last one first.
fn look_for<S: ResourceSource>(
    alloc: Global,
    source: &S,
    head: &Head,
    entry: &[u8],
) -> Result<Option<u64>, ClientFault>
    ensures { LooksFor (S.may_answer source.now) (S.may_lack source.now) head.now entry.now result }
{
    let mut left = head.size.div_ceil(256);
    while left > 0 {
        left -= 1;
        match look_in(alloc, source, head, left, entry) {
            Ok(None) => {}
            Ok(Some(index)) => return Ok(Some(index)),
            Err(fault) => return Err(fault),
        }
    }
    Ok(None)
}

/// An entry of a log, by its index and its leaf hash.
#[derive(Clone, Copy)]
pub(crate) struct Found {
    pub(crate) index: u64,
    pub(crate) leaf: Hash,
}

// Returns the entry that is wanted.
fn find<S: ResourceSource>(
    alloc: Global,
    source: &S,
    head: &Head,
    wanted: Wanted<'_>,
) -> Result<Found, ProveFault>
    ensures { Finds (S.may_answer source.now) (S.may_lack source.now) head.now wanted.entry result }
{
    match wanted {
        Wanted::Index(index) => match fetch_entry(alloc, source, head, index, &mut Nobody) {
            Ok(entry) => Ok(Found {
                index,
                leaf: leaf_hash(Sha256Tree, entry.as_slice()),
            }),
            Err(fault) => Err(ProveFault::Fetch(client_refusal(fault))),
        },
        Wanted::Entry(entry) => match look_for(alloc, source, head, entry) {
            Ok(Some(index)) => Ok(Found {
                index,
                leaf: leaf_hash(Sha256Tree, entry),
            }),
            Ok(None) => Err(ProveFault::NoEntry),
            Err(fault) => Err(ProveFault::Fetch(client_refusal(fault))),
        },
    }
}

/// Returns the text of a proof of an entry under a trusted checkpoint, with these extra data.
pub(crate) fn prove_found<S: ResourceSource>(
    alloc: Global,
    source: &S,
    checkpoint: &TrustedNote,
    found: Found,
    extra: Option<Vec<u8>>,
) -> Result<String, ProveFault>
    requires { IsSize (head_of checkpoint.now).size }
    ensures proof { IfOk result (λ text. (proof : TlogProof) × IsProofFor (head_of checkpoint.now)
        (string_bytes checkpoint.now.note) found.index found.leaf (option_map vec_items extra)
        (string_bytes text) proof) }
    ensures refused { IfErr result (RefusesLeaf (S.may_answer source.now) (S.may_lack source.now)
        (head_of checkpoint.now) found.index found.leaf) }
{
    let Head { size, root } = checkpoint.head();
    let Found { index, leaf } = found;
    let hashes = match prove_entry(alloc, source, size, root, index, leaf) {
        Ok(hashes) => hashes,
        Err(fault) => return Err(ProveFault::Fetch(client_refusal(fault))),
    };
    accepted_proofs_are_short();
    let note = checkpoint.note.as_str();
    let proof = OfflineProof {
        extra,
        index,
        hashes,
        note,
    };
    match write_proof(alloc, &proof) {
        Ok(text) => Ok(text),
        Err(WriteFault::OutOfMemory) => Err(ProveFault::from(AllocError)),
        Err(WriteFault::Index) => unreachable!(),
        Err(WriteFault::TooMany) => unreachable!(),
    }
}

/// Returns the text of a proof of the wanted entry (C2SP tlog-proof), which the policy accepts (`verify`). The
/// source's checkpoint has to be trusted by the policy, and the entry and the proof are checked against it.
pub fn prove<S: ResourceSource>(
    alloc: Global,
    source: &S,
    policy: &Policy<'_, Global>,
    wanted: Wanted<'_>,
    extra: Option<Vec<u8>>,
) -> Result<String, ProveFault>
    ensures proof { IfOk result (λ text. Proves (S.may_answer source.now) (terms_of policy.now)
        wanted.entry (option_map vec_items extra) (string_bytes text)) }
    ensures refused { IfErr result (RefusesProving (S.may_answer source.now) (S.may_lack source.now)
        (terms_of policy.now) wanted.entry) }
{
    let checkpoint = match open_source(alloc, source, policy) {
        Ok(checkpoint) => checkpoint,
        Err(fault) => return Err(fault),
    };
    let found = match find(alloc, source, &checkpoint.head(), wanted) {
        Ok(found) => found,
        Err(fault) => return Err(fault),
    };
    match prove_found(alloc, source, &checkpoint, found, extra) {
        Ok(text) => Ok(text),
        Err(fault) => Err(fault),
    }
}
