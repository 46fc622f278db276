//! Rows of audits of lists, under SHA-256 and under the weak digest.

use crate::words::{Shown, Told, Words, entries_of, put, put_hex};
use std::alloc::{AllocError, Global};
use tl_hash::{Sha256Tree, TreeHash};
use tl_proof::{AuditFault, HashList, Link, Verdict, audit_chain, audit_tree};
use tl_testing::SumDigest;

// Writes two colliding texts.
fn put_two(out: &mut String, first: &[u8], second: &[u8]) -> Told {
    out.push_str("collision ")?;
    put_hex(out, first)?;
    out.push(' ')?;
    put_hex(out, second)
}

/// Writes what an audit shows, with two colliding texts in the order of their bytes.
impl Shown for Verdict<Global> {
    fn show(&self, out: &mut String) -> Told {
        match self {
            Verdict::Collision(x, y) => {
                let (x, y) = (x.as_slice(), y.as_slice());
                if x < y {
                    put_two(out, x, y)
                } else {
                    put_two(out, y, x)
                }
            }
            Verdict::Extends => out.push_str("extends"),
        }
    }
}

// Returns the link of a line: a size, a root and a proof.
fn link_of(alloc: Global, line: &str) -> Result<Link<Global>, AllocError> {
    let mut words = Words { left: line };
    let size = words.number();
    let root = words.hash();
    let proof = HashList::from_vec(words.hashes(alloc)?);
    Ok(Link { size, root, proof })
}

// Returns the links of a text, one a line.
fn links_of(alloc: Global, text: &str) -> Result<Vec<Link<Global>>, AllocError> {
    let mut links = Vec::new(alloc);
    for line in text.lines() {
        links.push(link_of(alloc, line)?)?;
    }
    Ok(links)
}

// The answer of an audit.
type Audited = Result<Verdict<Global>, AuditFault>;

// Audits two lists by a chain of links.
fn by_chain<T: TreeHash>(
    alloc: Global,
    h: T,
    old: &[Vec<u8>],
    new: &[Vec<u8>],
    text: &str,
) -> Audited {
    let links = links_of(alloc, text)?;
    audit_chain(alloc, h, old, new, links.as_slice())
}

// Audits two lists by one proof.
fn by_proof<T: TreeHash>(
    alloc: Global,
    h: T,
    old: &[Vec<u8>],
    new: &[Vec<u8>],
    words: &mut Words<'_>,
) -> Audited {
    let proof = words.hashes(alloc)?;
    audit_tree(alloc, h, old, new, proof.as_slice())
}

// Audits the two lists that words name, by one proof or a chain of links.
fn audit<T: TreeHash>(
    alloc: Global,
    h: T,
    is_chain: bool,
    words: &mut Words<'_>,
    text: &str,
    out: &mut String,
) -> Told {
    let old = entries_of(alloc, words.next())?;
    let new = entries_of(alloc, words.next())?;
    let (old, new) = (old.as_slice(), new.as_slice());
    put(
        out,
        if is_chain {
            by_chain(alloc, h, old, new, text)
        } else {
            by_proof(alloc, h, old, new, words)
        },
    )
}

/// Writes the answer of a call.
pub(crate) fn answer(alloc: Global, words: &mut Words<'_>, text: &str, out: &mut String) -> Told {
    let is_chain = words.next() == "chain";
    match words.next() {
        "sha" => audit(alloc, Sha256Tree, is_chain, words, text, out),
        _ => audit(alloc, SumDigest, is_chain, words, text, out),
    }
}
