//! The witnesses that cosigned a checkpoint (C2SP tlog-cosignature).

ghost use Rattle.std.specs.Prelude.{◌≡◌, ◌↔◌, ◌<◌, length, map, slice_get, Some, IfOk, IsTrue, MatchOption, OnOk};
ghost use Rattle.std.specs.List.{Any};
ghost use Rattle.tl_note.specs.Note.{Signature};
ghost use Rattle.tl_checkpoint.specs.Cosignature.{ChecksCosignature};
ghost use Rattle.tl_checkpoint.specs.Quorum.{AreApart, AreFirst, IsOfSome};
ghost use Rattle.tl_checkpoint.specs.Inner.Keeping.{IsOfNone, IsRepeated, KeepsNew};

use crate::cosignature::check_cosignature;
use std::alloc::{AllocError, Allocator};
use tl_note::{SigView, Verifier};

/// A cosignature among signature lines: the index of its line and the index of its witness, both counted from 0, and
/// its time in seconds since the Unix epoch.
#[derive(Clone, Copy, Debug, PartialEq, Eq)]
pub struct Cosigned {
    pub line: usize,
    pub witness: usize,
    pub time: u64,
}

// Returns the name of a witness.
fn name_of(witness: &Box<dyn Verifier>) -> &str
    ensures { result.now ≡ (key witness.now).name }
{
    witness.name()
}

// Reports whether an earlier witness has the name of the one at this index.
fn is_repeated(witnesses: &[Box<dyn Verifier>], place: usize) -> bool
    requires { place < length witnesses.now }
    ensures { IsTrue result ↔ IsRepeated (map (λ witness. key witness) witnesses.now) place }
{
    let name = name_of(&witnesses[place]);
    for earlier in 0..place {
        if name_of(&witnesses[earlier]) == name {
            return true;
        }
    }
    false
}

/// Reports whether the names of the witnesses are all different. It allocates nothing.
pub fn have_distinct_names(witnesses: &[Box<dyn Verifier>]) -> bool
    ensures { IsTrue result ↔ AreApart (map (λ witness. key witness) witnesses.now) }
{
    for place in 0..witnesses.len() {
        if is_repeated(witnesses, place) {
            return false;
        }
    }
    true
}

// Returns the time of the line if it is a cosignature by the witness.
fn time_by<A: Allocator + Copy>(
    alloc: A,
    text: &str,
    line: &SigView<'_>,
    witness: &Box<dyn Verifier>,
) -> Result<Option<u64>, AllocError>
    ensures { IfOk result (ChecksCosignature text.now (key witness.now) line.now) }
{
    check_cosignature(alloc, text, line, &**witness)
}

// Finds the first witness whose cosignature the line at this index is.
fn cosigned_at<A: Allocator + Copy>(
    alloc: A,
    text: &str,
    lines: &[SigView<'_>],
    place: usize,
    witnesses: &[Box<dyn Verifier>],
) -> Result<Option<Cosigned>, AllocError>
    requires { place < length lines.now }
    ensures { IfOk result
        (λ found. (line : Signature) × (slice_get lines.now place ≡ Some line) × MatchOption found
        (IsOfNone text.now (map (λ witness. key witness) witnesses.now) line) (λ c. (c.line ≡ place)
        × IsOfSome text.now (map (λ witness. key witness) witnesses.now) line c.witness c.time)) }
{
    let line = &lines[place];
    for witness in 0..witnesses.len() {
        if let Some(time) = time_by(alloc, text, line, &witnesses[witness])? {
            return Ok(Some(Cosigned {
                line: place,
                witness,
                time,
            }));
        }
    }
    Ok(None)
}

// Reports whether there is a cosignature by this witness.
fn has_witness(found: &[Cosigned], witness: usize) -> bool
    ensures { IsTrue result ↔ Any (λ c. c.witness ≡ witness) found.now }
{
    found.iter().any(|cosigned| cosigned.witness == witness)
}

// Keeps a cosignature, if there is one, unless an earlier one is by the same witness.
fn keep<A: Allocator>(
    found: &mut Vec<Cosigned, A>,
    cosigned: Option<Cosigned>,
) -> Result<(), AllocError>
    ensures { OnOk result (KeepsNew cosigned found.old.items found.new.items) }
{
    let Some(cosigned) = cosigned else {
        return Ok(());
    };
    if !has_witness(found, cosigned.witness) {
        found.push(cosigned)?;
    }
    Ok(())
}

/// Returns the first cosignature of the text by each witness, in the order of the lines. The names of the witnesses
/// must all be different. A line of no witness, a line that isn't valid for this text, and a later line of a witness
/// don't count. It fails only if allocation fails.
pub fn cosignatures_by<A: Allocator + Copy>(
    alloc: A,
    text: &str,
    lines: &[SigView<'_>],
    witnesses: &[Box<dyn Verifier>],
) -> Result<Vec<Cosigned, A>, AllocError>
    requires { AreApart (map (λ witness. key witness) witnesses.now) }
    ensures { IfOk result (λ found.
        AreFirst text.now (map (λ witness. key witness) witnesses.now) lines.now found.items) }
{
    let mut found = Vec::new(alloc);
    for place in 0..lines.len() {
        let cosigned = cosigned_at(alloc, text, lines, place, witnesses)?;
        keep(&mut found, cosigned)?;
    }
    Ok(found)
}
