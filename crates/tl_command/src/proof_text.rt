//! The texts of inclusion and consistency proofs, written and read.

ghost use Rattle.std.specs.Prelude.{◌≡◌, ◌≢◌, ◌<◌, ◌∷◌, ◌++◌, length, map, vec_items, IfOk, IfSome, OnErr, OnOk, MatchOption};
ghost use Rattle.tl_command.specs.ProofText.{Inclusion, IsInclusion, inclusion_lines, Consistency, IsConsistency, consistency_lines, inclusion_text, consistency_text};
ghost use Rattle.tl_command.specs.ProofShown.{consistency_shown, inclusion_shown};
ghost use Rattle.std.specs.List.{flat_map};
ghost use Rattle.tl_text.specs.Text.{line, number_text, base64_text};
ghost use Rattle.tl_command.specs.Lines.{lines_text};

use crate::lines::{hashes_of, two_hashes, two_numbers};
use base64::engine::general_purpose::STANDARD;
use itoa::Buffer;
use std::alloc::{AllocError, Allocator};
use tl_hash::Hash;

/// An inclusion proof, with the leaf, the index and the tree that it is about.
#[derive(Drop)]
pub struct InclusionProof<A: Allocator> {
    /// The entry's index, counted from 0.
    pub index: u64,
    /// The number of entries.
    pub size: u64,
    /// The leaf hash of the entry.
    pub leaf: Hash,
    /// The root of the tree.
    pub root: Hash,
    /// The hashes of the proof, the one nearest to the leaf first.
    pub proof: Vec<Hash, A>,
}

/// A consistency proof, with the two trees that it is about.
#[derive(Drop)]
pub struct ConsistencyProof<A: Allocator> {
    /// The number of entries of the old tree.
    pub old: u64,
    /// The root of the old tree.
    pub old_root: Hash,
    /// The number of entries of the new tree.
    pub size: u64,
    /// The root of the new tree.
    pub root: Hash,
    /// The hashes of the proof, in the order of RFC 6962, section 2.1.2.
    pub proof: Vec<Hash, A>,
}

// The lines of a proof's text: its kind, four lines that say what it is about, and its hashes.
#[derive(Drop)]
struct ProofLines<'a, B: Allocator> {
    kind: &'a [u8],
    first: &'a [u8],
    second: &'a [u8],
    third: &'a [u8],
    fourth: &'a [u8],
    hashes: &'a [Vec<u8, B>],
}

// Returns the lines by their part in a proof's text, or None if there are fewer than five.
fn proof_lines_of<'a, B: Allocator>(lines: &'a [Vec<u8, B>]) -> Option<ProofLines<'a, B>>
    ensures parts { MatchOption result (length lines.now < 5)
        (λ p. map vec_items lines.now ≡ p.kind.now
        ∷ p.first.now ∷ p.second.now ∷ p.third.now ∷ p.fourth.now ∷ map vec_items p.hashes.now) }
    ensures some { IfSome result (λ p. 0 < length lines.now) }
{
    let [kind, first, second, third, fourth, hashes @ ..] = lines else {
        return None;
    };
    Some(ProofLines {
        kind: kind.as_slice(),
        first: first.as_slice(),
        second: second.as_slice(),
        third: third.as_slice(),
        fourth: fourth.as_slice(),
        hashes,
    })
}

/// Returns the inclusion proof whose text has these lines, without their newlines, or None if they are no such
/// proof's. It fails only if allocation fails.
pub(crate) fn read_inclusion<A: Allocator + Copy, B: Allocator>(
    alloc: A,
    lines: &[Vec<u8, B>],
) -> Result<Option<InclusionProof<A>>, AllocError>
    ensures proof { IfOk result (λ found. MatchOption found ((p : Inclusion) → IsInclusion p
        → map vec_items lines.now ≢ inclusion_lines p) (λ p. IsInclusion (inclusion_shown p)
        × (map vec_items lines.now ≡ inclusion_lines (inclusion_shown p)))) }
    ensures memory { OnErr result (0 < length lines.now) }
{
    let Some(parts) = proof_lines_of(lines) else {
        return Ok(None);
    };
    if parts.kind != b"inclusion".as_slice() {
        return Ok(None);
    }
    let Some((index, size)) = two_numbers(parts.first, b"index ", parts.second, b"size ") else {
        return Ok(None);
    };
    let Some((leaf, root)) = two_hashes(parts.third, b"leaf ", parts.fourth, b"root ") else {
        return Ok(None);
    };
    let Some(proof) = hashes_of(alloc, parts.hashes)? else {
        return Ok(None);
    };
    Ok(Some(InclusionProof {
        index,
        size,
        leaf,
        root,
        proof,
    }))
}

/// Returns the consistency proof whose text has these lines, without their newlines, or None if they are no such
/// proof's. It fails only if allocation fails.
pub fn read_consistency<A: Allocator + Copy, B: Allocator>(
    alloc: A,
    lines: &[Vec<u8, B>],
) -> Result<Option<ConsistencyProof<A>>, AllocError>
    ensures proof { IfOk result (λ found. MatchOption found ((p : Consistency) → IsConsistency p
        → map vec_items lines.now ≢ consistency_lines p) (λ p. IsConsistency (consistency_shown p)
        × (map vec_items lines.now ≡ consistency_lines (consistency_shown p)))) }
    ensures memory { OnErr result (0 < length lines.now) }
{
    let Some(parts) = proof_lines_of(lines) else {
        return Ok(None);
    };
    if parts.kind != b"consistency".as_slice() {
        return Ok(None);
    }
    let Some((old, size)) = two_numbers(parts.first, b"old ", parts.third, b"size ") else {
        return Ok(None);
    };
    let Some((old_root, root)) = two_hashes(parts.second, b"oldroot ", parts.fourth, b"root ")
    else {
        return Ok(None);
    };
    let Some(proof) = hashes_of(alloc, parts.hashes)? else {
        return Ok(None);
    };
    Ok(Some(ConsistencyProof {
        old,
        old_root,
        size,
        root,
        proof,
    }))
}

// Appends a line of a word and a text.
fn push_line<A: Allocator>(out: &mut Vec<u8, A>, word: &str, text: &str) -> Result<(), AllocError>
    ensures { OnOk result (out.new.items ≡ out.old.items ++ line (word.now ++ text.now)) }
{
    out.extend_from_slice(word.as_bytes())?;
    out.extend_from_slice(text.as_bytes())?;
    out.push(b'\n')?;
    Ok(())
}

// Appends a line of a word and a number.
fn push_number<A: Allocator>(
    out: &mut Vec<u8, A>,
    word: &str,
    number: u64,
) -> Result<(), AllocError>
    ensures { OnOk result (out.new.items ≡ out.old.items ++ line (word.now ++ number_text number)) }
{
    push_line(out, word, Buffer::new().format(number))?;
    Ok(())
}

// Appends a line of a word and a hash in base64.
fn push_hash<A: Allocator + Copy>(
    alloc: A,
    out: &mut Vec<u8, A>,
    word: &str,
    hash: Hash,
) -> Result<(), AllocError>
    ensures { OnOk result (out.new.items ≡ out.old.items ++ line (word.now ++ base64_text hash)) }
{
    let text = STANDARD.encode(alloc, hash.as_bytes())?;
    push_line(out, word, text.as_str())?;
    Ok(())
}

// Appends hashes in base64, one a line.
fn push_hashes<A: Allocator + Copy>(
    alloc: A,
    out: &mut Vec<u8, A>,
    hashes: &[Hash],
) -> Result<(), AllocError>
    ensures { OnOk result
        (out.new.items ≡ out.old.items ++ lines_text (map base64_text hashes.now)) }
{
    for hash in hashes {
        push_hash(alloc, out, "", *hash)?;
    }
    Ok(())
}

/// Returns the text of an inclusion proof (RFC 6962, section 2.1.1) as `tlog check` reads it: the line `inclusion`,
/// lines that say what it is about, and its hashes, one a line. It fails only if allocation fails.
pub fn inclusion_bytes<A: Allocator + Copy, B: Allocator>(
    alloc: A,
    p: &InclusionProof<B>,
) -> Result<Vec<u8, A>, AllocError>
    ensures { IfOk result (λ bytes. bytes.items ≡ inclusion_text (inclusion_shown p.now)) }
{
    let mut out = Vec::new(alloc);
    push_line(&mut out, "inclusion", "")?;
    push_number(&mut out, "index ", p.index)?;
    push_number(&mut out, "size ", p.size)?;
    push_hash(alloc, &mut out, "leaf ", p.leaf)?;
    push_hash(alloc, &mut out, "root ", p.root)?;
    push_hashes(alloc, &mut out, p.proof.as_slice())?;
    Ok(out)
}

/// Returns the text of a consistency proof (RFC 6962, section 2.1.2) as `tlog check` reads it: the line
/// `consistency`, lines that say what it is about, and its hashes, one a line. It fails only if allocation fails.
pub fn consistency_bytes<A: Allocator + Copy, B: Allocator>(
    alloc: A,
    p: &ConsistencyProof<B>,
) -> Result<Vec<u8, A>, AllocError>
    ensures { IfOk result (λ bytes. bytes.items ≡ consistency_text (consistency_shown p.now)) }
{
    let mut out = Vec::new(alloc);
    push_line(&mut out, "consistency", "")?;
    push_number(&mut out, "old ", p.old)?;
    push_hash(alloc, &mut out, "oldroot ", p.old_root)?;
    push_number(&mut out, "size ", p.size)?;
    push_hash(alloc, &mut out, "root ", p.root)?;
    push_hashes(alloc, &mut out, p.proof.as_slice())?;
    Ok(out)
}
