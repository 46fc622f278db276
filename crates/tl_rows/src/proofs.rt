//! Rows of inclusion and consistency proofs, and of their checks.

use crate::stores::named_store;
use crate::words::{Shown, Told, Words, entries_of, number_of, put, unknown};
use std::alloc::{AllocError, Global};
use tl_hash::{Hash, Sha256Tree, entry_root, leaf_hash};
use tl_proof::{ProveFault, check_record, check_tree, prove_record, prove_records, prove_tree};
use tl_records::{InclusionClaim, check_records};
use tl_store::HashReader;

/// What a proof has to show: an entry by its index and leaf hash, or an old size and root.
#[derive(Clone, Copy)]
pub(crate) struct Claim {
    pub(crate) is_record: bool,
    pub(crate) size: u64,
    pub(crate) root: Hash,
    pub(crate) place: u64,
    pub(crate) hash: Hash,
}

/// Reports whether a proof is accepted.
pub(crate) fn accepts(claim: &Claim, proof: &[Hash]) -> bool {
    let Claim {
        is_record,
        size,
        root,
        place,
        hash,
    } = *claim;
    if is_record {
        check_record(Sha256Tree, proof, size, root, place, hash)
    } else {
        check_tree(Sha256Tree, proof, size, root, place, hash)
    }
}

/// Returns the proof of an entry, or that of an old size, from any reader.
pub(crate) fn made<R: HashReader>(
    alloc: Global,
    is_record: bool,
    size: u64,
    place: u64,
    reader: &R,
) -> Result<Vec<Hash>, ProveFault> {
    if is_record {
        prove_record(alloc, Sha256Tree, size, place, reader)
    } else {
        prove_tree(alloc, Sha256Tree, size, place, reader)
    }
}

// Writes the proof of an entry, or that of an old size, over the entries that a word names.
fn proof(alloc: Global, is_record: bool, words: &mut Words<'_>, out: &mut String) -> Told {
    let store = named_store(alloc, words.next())?;
    let size = words.number();
    put(out, made(alloc, is_record, size, words.number(), &store))
}

/// Writes the proofs, one a line.
impl Shown for Vec<Vec<Hash>> {
    fn show(&self, out: &mut String) -> Told {
        write!(out, "{} proofs", self.len())?;
        for proof in self {
            out.push('\n')?;
            proof.show(out)?;
        }
        Ok(())
    }
}

// Writes the proofs of some entries.
fn records(alloc: Global, words: &mut Words<'_>, out: &mut String) -> Told {
    let store = named_store(alloc, words.next())?;
    let size = words.number();
    let places = words.numbers(alloc)?;
    put(
        out,
        prove_records(alloc, Sha256Tree, size, places.as_slice(), &store),
    )
}

// Returns how many of the proofs with one changed bit in the hash at a place are accepted.
fn accepted_at(
    alloc: Global,
    claim: &Claim,
    proof: &[Hash],
    place: usize,
) -> Result<u64, AllocError> {
    let mut changed = Vec::from_slice(alloc, proof)?;
    let mut count = 0u64;
    if place < changed.len() {
        let whole = *changed[place].as_bytes();
        for bit in 0..256usize {
            let mut bytes = whole;
            bytes[bit / 8] ^= 1u8 << (bit % 8);
            changed[place] = Hash::from_bytes(bytes);
            if accepts(claim, changed.as_slice()) {
                count = count.saturating_add(1);
            }
        }
    }
    Ok(count)
}

// Returns how many of the proofs with one changed bit in a hash are accepted.
fn accepted_changed(alloc: Global, claim: &Claim, proof: &[Hash]) -> Result<u64, AllocError> {
    let mut count = 0u64;
    for place in 0..proof.len() {
        count = count.saturating_add(accepted_at(alloc, claim, proof, place)?);
    }
    Ok(count)
}

// Reports whether the proof is accepted, but neither without its last hash nor with one more.
fn is_exact(alloc: Global, claim: &Claim, proof: &[Hash]) -> Result<bool, AllocError> {
    let mut longer = Vec::from_slice(alloc, proof)?;
    longer.push(claim.root)?;
    if let Some((_last, others)) = proof.split_last() {
        if accepts(claim, others) {
            return Ok(false);
        }
    }
    Ok(accepts(claim, proof) && !accepts(claim, longer.as_slice()))
}

// Returns the claim about entries that a word names.
fn claim_of(
    alloc: Global,
    is_record: bool,
    word: &str,
    size: u64,
    place: u64,
) -> Result<Claim, AllocError> {
    let entries = entries_of(alloc, word)?;
    let whole = entries.get(..size as usize).unwrap_or(&[]);
    let old = entries.get(..place as usize).unwrap_or(&[]);
    let hash = match entries.get(place as usize) {
        Some(entry) if is_record => leaf_hash(Sha256Tree, entry),
        _ => entry_root(Sha256Tree, old),
    };
    Ok(Claim {
        is_record,
        size,
        root: entry_root(Sha256Tree, whole),
        place,
        hash,
    })
}

// Writes whether a proof is exact, and, if each bit is tried, how many changed proofs are accepted.
fn tried(alloc: Global, claim: &Claim, proof: &[Hash], has_bits: bool, out: &mut String) -> Told {
    if !is_exact(alloc, claim, proof)? {
        return out.push_str("not exact");
    }
    out.push_str("exact")?;
    if has_bits {
        let count = accepted_changed(alloc, claim, proof)?;
        write!(out, ", and {count} changed")?;
    }
    Ok(())
}

// Writes the same of the entries that a word names.
fn exact(
    alloc: Global,
    is_record: bool,
    words: &mut Words<'_>,
    has_bits: bool,
    out: &mut String,
) -> Told {
    let word = words.next();
    let size = words.number();
    let claim = claim_of(alloc, is_record, word, size, words.number())?;
    let store = named_store(alloc, word)?;
    match made(alloc, is_record, size, claim.place, &store) {
        Ok(proof) => tried(alloc, &claim, proof.as_slice(), has_bits, out),
        Err(fault) => write!(out, "{fault:?}"),
    }
}

// Writes whether a proof is accepted.
fn checked(alloc: Global, is_record: bool, words: &mut Words<'_>, out: &mut String) -> Told {
    let claim = Claim {
        is_record,
        size: words.number(),
        root: words.hash(),
        place: words.number(),
        hash: words.hash(),
    };
    let proof = words.hashes(alloc)?;
    write!(out, "{}", accepts(&claim, proof.as_slice()))
}

// Returns how many of the proofs of the first entries of a store are the same as those made one by one.
fn same<R: HashReader>(
    alloc: Global,
    proofs: &[Vec<Hash>],
    size: u64,
    reader: &R,
) -> Result<u64, ProveFault> {
    let mut count = 0u64;
    for (place, proof) in proofs.iter().enumerate() {
        let one = prove_record(alloc, Sha256Tree, size, place as u64, reader)?;
        if one.as_slice() == proof.as_slice() {
            count = count.saturating_add(1);
        }
    }
    Ok(count)
}

// Writes how many of the proofs made together are the same as those made one by one.
fn together(alloc: Global, words: &mut Words<'_>, out: &mut String) -> Told {
    let store = named_store(alloc, words.next())?;
    let size = words.number();
    let mut places = Vec::new(alloc);
    for place in 0..size {
        places.push(place)?;
    }
    match prove_records(alloc, Sha256Tree, size, places.as_slice(), &store) {
        Ok(proofs) => {
            match same(alloc, proofs.as_slice(), size, &store) {
                Ok(count) => write!(out, "{count} of {} proofs", proofs.len()),
                Err(fault) => write!(out, "{fault:?}"),
            }
        }
        Err(fault) => write!(out, "{fault:?}"),
    }
}

// What a line claims: the index and the leaf hash of an entry, with its proof.
#[derive(Drop)]
struct Line {
    index: u64,
    leaf: Hash,
    proof: Vec<Hash>,
}

// Returns the claim of a line.
fn line_of(alloc: Global, line: &str) -> Result<Line, AllocError> {
    let mut words = Words { left: line };
    let index = words.number();
    let leaf = words.hash();
    let proof = words.hashes(alloc)?;
    Ok(Line { index, leaf, proof })
}

// Returns the claim at a place, or one of no entry if there is none.
fn claim_at(lines: &[Line], place: usize) -> InclusionClaim<'_> {
    match lines.get(place) {
        Some(line) => InclusionClaim {
            index: line.index,
            leaf: line.leaf,
            proof: line.proof.as_slice(),
        },
        None => InclusionClaim {
            index: 0,
            leaf: Hash::from_bytes([0; 32]),
            proof: &[],
        },
    }
}

// Reports whether up to nine claims are accepted together.
fn accepted(size: u64, root: Hash, lines: &[Line]) -> bool {
    let claims = [
        claim_at(lines, 0),
        claim_at(lines, 1),
        claim_at(lines, 2),
        claim_at(lines, 3),
        claim_at(lines, 4),
        claim_at(lines, 5),
        claim_at(lines, 6),
        claim_at(lines, 7),
        claim_at(lines, 8),
    ];
    check_records(
        Sha256Tree,
        size,
        root,
        claims.get(..lines.len()).unwrap_or(&[]),
    )
}

// Writes whether the claims of a text, one a line, are accepted together.
fn checked_together(alloc: Global, words: &mut Words<'_>, text: &str, out: &mut String) -> Told {
    let size = words.number();
    let mut lines = Vec::new(alloc);
    for line in text.lines() {
        lines.push(line_of(alloc, line)?)?;
    }
    write!(out, "{}", accepted(size, words.hash(), lines.as_slice()))
}

/// Writes the answer of a call.
pub(crate) fn answer(alloc: Global, words: &mut Words<'_>, text: &str, out: &mut String) -> Told {
    match words.next() {
        "record" => proof(alloc, true, words, out),
        "tree" => proof(alloc, false, words, out),
        "records" => records(alloc, words, out),
        "exact-record" => exact(alloc, true, words, false, out),
        "exact-tree" => exact(alloc, false, words, false, out),
        "bits-record" => exact(alloc, true, words, true, out),
        "bits-tree" => exact(alloc, false, words, true, out),
        "together" => together(alloc, words, out),
        "check-records" => checked_together(alloc, words, text, out),
        "check-record" => checked(alloc, true, words, out),
        "check-tree" => checked(alloc, false, words, out),
        _ => unknown(out),
    }
}
