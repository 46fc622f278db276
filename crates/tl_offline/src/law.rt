//! Laws of proofs that travel: they hold of the definitions alone.

ghost use Rattle.std.specs.Prelude.{◌≡◌};
ghost use Rattle.tl_hash.specs.Bytes.{Bytes};
ghost use Rattle.tl_offline.specs.ProofText.{IsProof, TlogProof, proof_text};
ghost use Rattle.tl_offline.specs.ParseProof.{IsNoProofFor};
ghost use Rattle.tl_offline.specs.declared.proof.ProofFault.{ProofFault};
ghost use Rattle.tl_offline.specs.CheckEntry.{AcceptedEntriesAreListed, AcceptedProofsAreShort};

/// No text is that of two proofs, so `parse_proof` gives what `write_proof` was given (C2SP tlog-proof).
pub fn text_is_one_proof()
    ensures { (p q : TlogProof) → IsProof p → IsProof q → proof_text p ≡ proof_text q → p ≡ q }
{}

/// The text of a proof is refused for no line of it, so `parse_proof` gives the proof or reports that memory ran out.
pub fn no_proof_is_refused()
    ensures { (p : TlogProof) (fault : ProofFault) → IsProof p → ¬ (IsNoProofFor (proof_text p) fault) }
{}

/// A text is refused for one line and reason: no two faults are of one text.
pub fn text_has_one_fault()
    ensures { (text : Bytes) (f g : ProofFault) → IsNoProofFor text f → IsNoProofFor text g → f ≡ g }
{}

/// An inclusion proof that is accepted in a log of fewer than 2^63 entries has an index below 2^63 and at most 63
/// hashes (RFC 6962, section 2.1.1), so `write_proof` has a text for it.
pub fn accepted_proofs_are_short()
    ensures { AcceptedProofsAreShort }
{}

/// If `check_entry` accepts the leaf hash of an entry under the size and root of a list, the entry is at the proof's
/// index in that list, or two different byte strings, one hashed for the check and one for the list, have one digest;
/// for every digest function with digests of 32 bytes.
pub fn accepted_entries_are_listed()
    ensures { AcceptedEntriesAreListed }
{}
