//! Checks that an entry is where a proof says.

ghost use Rattle.tl_offline.specs.ProofText.{proof_of};
ghost use Rattle.tl_offline.specs.CheckEntry.{ChecksEntry};

use crate::proof::OfflineProof;
use std::alloc::Allocator;
use std::error::Error;
use std::fmt::{self, Display, Formatter};
use tl_hash::{Hash, TreeHash};
use tl_proof::check_record;

/// Why an entry isn't accepted, in the order in which it is found.
#[derive(Clone, Copy, Debug)]
pub enum EntryFault {
    /// The proof's index isn't below the size of the checkpoint.
    IndexOutOfRange,
    /// The hashes don't lead from this leaf, at this index, to the root.
    NotIncluded,
}

impl Error for EntryFault {}

impl Display for EntryFault {
    ghost use Rattle.std.specs.Prelude.{Some};
    ghost use Rattle.tl_offline.specs.FaultWords.{entry_words};

    ghost output = { λ fault. Some (entry_words fault) };

    fn fmt<W: fmt::Write>(&self, f: &mut Formatter<W>) -> fmt::Result {
        f.write_str(match self {
            EntryFault::IndexOutOfRange => "the index isn't in the log",
            EntryFault::NotIncluded => "the entry is another one",
        })
    }
}

/// Reports whether the hashes of a proof lead from a leaf hash, at the proof's index, to the root of `size` entries
/// (RFC 6962, section 2.1.1). Size and root are those of the checkpoint, once its note opened. The entry is then at
/// that index in every list of this size and root, or two inputs collide (`accepted_entries_are_listed`). It takes no
/// memory.
pub fn check_entry<T: TreeHash, A: Allocator>(
    h: T,
    proof: &OfflineProof<'_, A>,
    size: u64,
    root: Hash,
    leaf: Hash,
) -> Result<(), EntryFault>
    ensures { ChecksEntry T.digest_of (proof_of proof.now) size root leaf result }
{
    if proof.index >= size {
        return Err(EntryFault::IndexOutOfRange);
    }
    if !check_record(h, &proof.hashes, size, root, proof.index, leaf) {
        return Err(EntryFault::NotIncluded);
    }
    Ok(())
}
