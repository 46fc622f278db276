//! Whether a proof shows an entry under a policy.

ghost use Rattle.sha2.specs.Sha256.{sha256};
ghost use Rattle.tl_checkpoint.specs.Checkpoint.{head_of};
ghost use Rattle.tl_offline.specs.CheckEntry.{ChecksEntry};
ghost use Rattle.tl_offline.specs.ProofText.{proof_of};
ghost use Rattle.tl_policy.specs.Terms.{terms_of};
ghost use Rattle.tl_prove.specs.Verify.{OpensNote, Verifies, VerifiesText};

use crate::fault::Refusal;
use std::alloc::Allocator;
use std::str;
use tl_checkpoint::Checkpoint;
use tl_hash::{Hash, Sha256Tree};
use tl_offline::{EntryFault, OfflineProof, ProofFault, check_entry, parse_proof};
use tl_policy::{Policy, TrustFault, Trusted, open_under};

/// What an accepted proof shows: the entry is at this index of the log with this checkpoint.
#[derive(Drop)]
#[non_exhaustive]
pub struct Verified<A: Allocator> {
    /// The checkpoint, the log that signed it, and when each witness of the policy cosigned it.
    pub trusted: Trusted<A>,
    /// The index of the entry, counted from 0.
    pub index: u64,
    /// The proof's extra data, if there is a line of them.
    pub extra: Option<Vec<u8, A>>,
}

// Returns the checkpoint of a note that the policy trusts.
fn open_note<A: Allocator + Copy>(
    alloc: A,
    policy: &Policy<'_, A>,
    note: &str,
) -> Result<Trusted<A>, Refusal>
    ensures { OpensNote (terms_of policy.now) note.now result }
{
    match open_under(alloc, policy, note) {
        Ok(trusted) => Ok(trusted),
        Err(TrustFault::OutOfMemory) => Err(Refusal::OutOfMemory),
        Err(fault) => Err(Refusal::Trust(fault)),
    }
}

// Checks that the entry with this leaf hash is at the proof's index under a checkpoint.
fn check_under<A: Allocator>(
    proof: &OfflineProof<'_, A>,
    checkpoint: &Checkpoint<A>,
    leaf: Hash,
) -> Result<(), EntryFault>
    ensures { ChecksEntry sha256 (proof_of proof.now) (head_of checkpoint.now).size
        (head_of checkpoint.now).root leaf result }
{
    check_entry(Sha256Tree, proof, checkpoint.size, checkpoint.root, leaf)
}

// Returns what a text shows of the entry with this leaf hash.
fn verify_text<A: Allocator + Copy>(
    alloc: A,
    policy: &Policy<'_, A>,
    leaf: Hash,
    text: &str,
) -> Result<Verified<A>, Refusal>
    ensures { VerifiesText (terms_of policy.now) leaf text.now result }
{
    let proof = match parse_proof(alloc, text) {
        Ok(proof) => proof,
        Err(ProofFault::OutOfMemory) => return Err(Refusal::OutOfMemory),
        Err(fault) => return Err(Refusal::Proof(fault)),
    };
    let trusted = match open_note(alloc, policy, proof.note) {
        Ok(trusted) => trusted,
        Err(why) => return Err(why),
    };
    if let Err(fault) = check_under(&proof, &trusted.checkpoint, leaf) {
        return Err(Refusal::Entry(fault));
    }
    let OfflineProof { extra, index, .. } = proof;
    Ok(Verified {
        trusted,
        index,
        extra,
    })
}

/// Returns what a proof shows of the entry with this leaf hash, if the policy accepts it: the bytes are a proof (C2SP
/// tlog-proof), the policy trusts its checkpoint (`tl_policy::open_under`), and the entry is at its index under the
/// checkpoint's size and root. The entry is then at that index in every list of this size and root, or two inputs
/// collide (`tl_offline::accepted_entries_are_listed`). `OutOfMemory` is of a proof alone.
pub fn verify<A: Allocator + Copy>(
    alloc: A,
    policy: &Policy<'_, A>,
    leaf: Hash,
    bytes: &[u8],
) -> Result<Verified<A>, Refusal>
    ensures { Verifies (terms_of policy.now) leaf bytes.now result }
{
    match str::from_utf8(bytes) {
        Ok(text) => verify_text(alloc, policy, leaf, text),
        Err(_) => Err(Refusal::NotText),
    }
}
