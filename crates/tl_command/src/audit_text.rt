//! The text of an audit, read.

ghost use Rattle.std.specs.Prelude.{◌≡◌, ◌≢◌, ◌<◌, ◌++◌, List, length, map, vec_items, IfOk, OnErr, IfSome, MatchOption};
ghost use Rattle.tl_hash.specs.Bytes.{Bytes, IsHash};
ghost use Rattle.tl_text.specs.Text.{IsSize};
ghost use Rattle.tl_command.specs.AuditText.{Audit, IsAudit, audit_lines, counted_lines};
ghost use Rattle.tl_command.specs.Inner.Shown.{audit_shown, IsAuditRead};

use crate::lines::{hashes_of, number_after};
use std::alloc::{AllocError, Allocator};
use tl_hash::Hash;

/// Two lists of entries, and a consistency proof from the first list to the second.
#[derive(Drop)]
pub(crate) struct AuditParts<'a, A: Allocator, B: Allocator> {
    pub(crate) old: &'a [Vec<u8, B>],
    pub(crate) new: &'a [Vec<u8, B>],
    pub(crate) proof: Vec<Hash, A>,
}

// Returns the entries behind a first line, which is the word and their number, and the lines after them. It returns
// None if the first line isn't of that form, or if fewer lines follow it.
fn counted<'a, B: Allocator>(
    lines: &'a [Vec<u8, B>],
    word: &[u8],
) -> Option<(&'a [Vec<u8, B>], &'a [Vec<u8, B>])>
    ensures count { IfSome result (λ r. IsSize (length r.0.now)) }
    ensures found { IfSome result (λ r. map vec_items lines.now
        ≡ counted_lines word.now (map vec_items r.0.now) ++ map vec_items r.1.now) }
    ensures some { IfSome result (λ r. length r.1.now < length lines.now) }
    ensures only { (entries others : List Bytes) → IsSize (length entries)
        → map vec_items lines.now ≡ counted_lines word.now entries ++ others → MatchOption result ⊥
        (λ r. (map vec_items r.0.now ≡ entries) × (map vec_items r.1.now ≡ others)) }
{
    let [first, rest @ ..] = lines else {
        return None;
    };
    let Some(count) = number_after(first.as_slice(), word) else {
        return None;
    };
    if count > rest.len() as u64 {
        return None;
    }
    Some((&rest[..count as usize], &rest[count as usize..]))
}

/// Returns the audit whose text has these lines, or None if they are no audit's. The caller sees to it that no line
/// has a newline. It fails only if allocation fails.
pub(crate) fn read_audit<'a, A: Allocator + Copy, B: Allocator>(
    alloc: A,
    lines: &'a [Vec<u8, B>],
) -> Result<Option<AuditParts<'a, A, B>>, AllocError>
    ensures audit { IfOk result (λ found. MatchOption found
        ((a : Audit) → IsAudit a → map vec_items lines.now ≢ audit_lines a) (λ parts. IsAuditRead
        (audit_shown parts) × (map vec_items lines.now ≡ audit_lines (audit_shown parts)))) }
    ensures memory { OnErr result (0 < length lines.now) }
{
    let Some((old, rest)) = counted(lines, b"old ") else {
        return Ok(None);
    };
    let Some((new, rest)) = counted(rest, b"new ") else {
        return Ok(None);
    };
    let Some(proof) = hashes_of(alloc, rest)? else {
        return Ok(None);
    };
    Ok(Some(AuditParts { old, new, proof }))
}
