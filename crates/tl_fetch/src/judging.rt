//! Checks whether the tree of one of two checkpoints begins with the other's, and prints evidence if neither does.

ghost use Rattle.std.specs.Prelude.{◌≡◌, ◌++◌, ◌↔◌, ◌<◌, ◌≤◌, ◌^◌, All, IfErr, IfOk, IsTrue, MatchOption, OnErr, OnOk, option_map, vec_items};
ghost use Rattle.tl_hash.specs.Bytes.{IsHash};
ghost use Rattle.tl_client.specs.Refused.{RefusesGrowth};
ghost use Rattle.tl_client.specs.declared.fault.ClientFault.TheVariants as client;
ghost use Rattle.tl_command.specs.ProofShown.{consistency_shown};
ghost use Rattle.tl_command.specs.ProofText.{IsConsistency};
ghost use Rattle.tl_device.specs.Device.{HasFailed, IsUnwritten, passage};
ghost use Rattle.tl_fork.specs.Evidence.{Disagree};
ghost use Rattle.tl_fetch.specs.Evidence.{LacksProof, RefusesComparison, evidence_text};
ghost use Rattle.tl_fetch.specs.Inner.Judging.{Accuses, JudgesTwo, LeadsTo, bare, two_of};
ghost use Rattle.tl_fetch.specs.Printed.{PrintedSome, PrintedWhole};
ghost use Rattle.tl_fetch.specs.Trusting.{IsGrown};

use crate::fault::FetchFault;
use crate::faults::{BAD_CHECKPOINT, client_refusal};
use crate::observer::Observer;
use std::alloc::Global;
use std::io::Write;
use tl_client::{ClientFault, Head, ResourceSource, Tiles, prove_growth};
use tl_command::{ConsistencyProof, consistency_bytes};
use tl_device::Counted;
use tl_hash::{Hash, Sha256Tree};
use tl_run::{RunFault, print_text};
use tl_store::tree_hash;
use tl_tile::{FetchedTiles, TileHashReader};

/// Two notes and what they say: the one that was trusted last, and the one that is trusted now.
#[derive(Drop)]
pub(crate) struct Update<'l, 'n> {
    pub(crate) last: Option<&'l str>,
    pub(crate) old: &'l Head,
    pub(crate) note: &'n str,
    pub(crate) new: &'n Head,
}

/// Reports whether two heads are the same.
pub(crate) fn is_same(one: &Head, other: &Head) -> bool
    ensures { IsTrue result ↔ (one.now ≡ other.now) }
{
    one.size == other.size && one.root == other.root
}

// Checks that a log goes on from what was known, by a consistency proof that is accepted. The observer gets its
// tiles.
fn check_grown<S: ResourceSource, O: Observer>(
    alloc: Global,
    source: &S,
    old: &Head,
    new: &Head,
    observer: &mut O,
) -> Result<(), ClientFault>
    ensures grown { OnOk result (IsGrown old.now new.now) }
    ensures refused { IfErr result
        (RefusesGrowth (S.may_answer source.now) (S.may_lack source.now) old.now new.now) }
{
    let mut fetched = FetchedTiles::new(alloc);
    let _proof = prove_growth(alloc, source, *old, *new, &mut fetched)?;
    if !fetched.is_empty() {
        observer.passed(new, &fetched);
    }
    Ok(())
}

// Returns a consistency proof that is accepted, from the root that a tree has at a smaller size.
fn proof_from<S: ResourceSource>(
    alloc: Global,
    source: &S,
    old: u64,
    larger: &Head,
) -> Result<ConsistencyProof<Global>, ClientFault>
    ensures leads { IfOk result (λ p. LeadsTo old larger.now (consistency_shown p)) }
    ensures refused { IfErr result
        (LacksProof (S.may_answer source.now) (S.may_lack source.now) old larger.now) }
{
    let Head { size, root } = *larger;
    let reader = TileHashReader::new(alloc, Sha256Tree, size, root, Tiles(source));
    let old_root = tree_hash(alloc, Sha256Tree, old, &reader)?;
    let smaller = Head {
        size: old,
        root: old_root,
    };
    let mut fetched = FetchedTiles::new(alloc);
    let proof = prove_growth(alloc, source, smaller, *larger, &mut fetched)?;
    Ok(ConsistencyProof {
        old,
        old_root,
        size,
        root,
        proof,
    })
}

// Shows that each of these is a hash. It changes nothing.
fn are_hashes(hashes: &[Hash])
    ensures { All IsHash hashes.now }
{
    for hash in hashes {
        let _ = hash.as_bytes();
    }
}

// Shows that a consistency proof between sizes in range has a text. It changes nothing.
fn has_text(proof: &ConsistencyProof<Global>)
    requires order { proof.now.old ≤ proof.now.size }
    requires limit { proof.now.size ≤ 2 ^ 62 }
    ensures { IsConsistency (consistency_shown proof.now) }
{
    let _ = proof.old_root.as_bytes();
    let _ = proof.root.as_bytes();
    are_hashes(proof.proof.as_slice());
}

// Returns the text of a consistency proof to the larger tree from its own root at the smaller size, or None if that
// is the smaller tree's root.
fn text_apart<S: ResourceSource>(
    alloc: Global,
    source: &S,
    smaller: &Head,
    larger: &Head,
) -> Result<Option<Vec<u8>>, ClientFault>
    requires order { smaller.now.size ≤ larger.now.size }
    requires limit { larger.now.size ≤ 2 ^ 62 }
    ensures found { IfOk result (λ found. MatchOption found (IsGrown smaller.now larger.now)
        (λ text. Disagree (bare smaller.now) (bare larger.now) (vec_items text))) }
    ensures refused { IfErr result (LacksProof
        (S.may_answer source.now) (S.may_lack source.now) smaller.now.size larger.now) }
{
    let proof = proof_from(alloc, source, smaller.size, larger)?;
    if proof.old_root == smaller.root {
        return Ok(None);
    }
    has_text(&proof);
    let text = consistency_bytes(alloc, &proof)?;
    Ok(Some(text))
}

// Reports whether a growth was refused because the log forked.
fn is_fork(fault: &ClientFault) -> bool
    ensures { IsTrue result ↔ (fault.now ≡ client.Forked) }
{
    matches!(fault, ClientFault::Forked)
}

// Returns what shows, beside two notes, that the smaller tree doesn't begin the larger one, or None if it does.
fn difference<S: ResourceSource, O: Observer>(
    alloc: Global,
    source: &S,
    smaller: &Head,
    larger: &Head,
    observer: &mut O,
) -> Result<Option<Vec<u8>>, ClientFault>
    ensures found { IfOk result (λ found. MatchOption found (IsGrown smaller.now larger.now)
        (λ text. Disagree (bare smaller.now) (bare larger.now) (vec_items text))) }
    ensures refused { IfErr result (RefusesComparison
        (S.may_answer source.now) (S.may_lack source.now) smaller.now larger.now) }
{
    let Err(fault) = check_grown(alloc, source, smaller, larger, observer) else {
        return Ok(None);
    };
    if !is_fork(&fault) {
        return Err(fault);
    }
    if smaller.size == larger.size {
        return Ok(Some(Vec::new(alloc)));
    }
    text_apart(alloc, source, smaller, larger)
}

// Prints two texts, one after the other.
fn print_two<W: Write>(first: &[u8], second: &[u8], writer: &mut Counted<W>) -> Result<(), RunFault>
    ensures printed { OnOk result (PrintedWhole
        (λ text. text ≡ first.now ++ second.now) (passage W.contents writer.old writer.new)) }
    ensures part { OnErr result (PrintedSome
        (λ text. text ≡ first.now ++ second.now) (passage W.contents writer.old writer.new)) }
    ensures failed { OnErr result (HasFailed (passage W.contents writer.old writer.new)) }
    ensures fault { IfErr result (λ fault. fault ≡ RunFault.Write) }
{
    print_text(writer, first)?;
    match print_text(writer, second) {
        Ok(()) => Ok(()),
        Err(fault) => Err(fault),
    }
}

// Prints evidence: two notes, and what shows that the log forked.
fn print_evidence<W: Write>(
    last: &str,
    note: &str,
    shown: &[u8],
    writer: &mut Counted<W>,
) -> Result<(), RunFault>
    ensures printed { OnOk result (PrintedWhole (λ text. text
        ≡ evidence_text last.now note.now shown.now) (passage W.contents writer.old writer.new)) }
    ensures part { OnErr result (PrintedSome (λ text. text
        ≡ evidence_text last.now note.now shown.now) (passage W.contents writer.old writer.new)) }
    ensures failed { OnErr result (HasFailed (passage W.contents writer.old writer.new)) }
    ensures fault { IfErr result (λ fault. fault ≡ RunFault.Write) }
{
    print_text(writer, last.as_bytes())?;
    match print_two(note.as_bytes(), shown, writer) {
        Ok(()) => Ok(()),
        Err(fault) => Err(fault),
    }
}

// Prints evidence that the log forked, and returns that fault. Without a note that was trusted last, the new
// checkpoint has no entries and another root than a log of none; then nobody is accused.
fn accuse<W: Write>(step: &Update<'_, '_>, shown: &[u8], writer: &mut Counted<W>) -> FetchFault
    requires { Disagree (bare step.now.old.now) (bare step.now.new.now) shown.now }
    ensures { Accuses (two_of (option_map (λ s. s.now) step.now.last)
        step.now.old.now step.now.note.now step.now.new.now) result
        (passage W.contents writer.old writer.new) }
{
    let Some(last) = step.last else {
        return FetchFault::Run(BAD_CHECKPOINT);
    };
    match print_evidence(last, step.note, shown, writer) {
        Ok(()) => FetchFault::Forked,
        Err(fault) => FetchFault::Run(fault),
    }
}

// Returns the fault of a checkpoint that is older than the one trusted last, with whether the two were compared.
fn older(step: &Update<'_, '_>, compared: bool) -> FetchFault
    ensures { result ≡ FetchFault.Older step.now.new.now.size step.now.old.now.size compared }
{
    FetchFault::Older {
        size: step.new.size,
        of: step.old.size,
        compared,
    }
}

// Returns why a checkpoint smaller than the one trusted last isn't accepted: it is older, or the log forked.
fn judge_older<S: ResourceSource, O: Observer, W: Write>(
    alloc: Global,
    source: &S,
    step: &Update<'_, '_>,
    observer: &mut O,
    writer: &mut Counted<W>,
) -> FetchFault
    requires { step.now.new.now.size < step.now.old.now.size }
    ensures { JudgesTwo (S.may_answer source.now) (S.may_lack source.now) (two_of (option_map
        (λ s. s.now) step.now.last) step.now.old.now step.now.note.now step.now.new.now) result
        (passage W.contents writer.old writer.new) }
{
    match difference(alloc, source, step.new, step.old, observer) {
        Ok(Some(shown)) => accuse(step, shown.as_slice(), writer),
        Ok(None) => older(step, true),
        Err(_) => older(step, false),
    }
}

/// Checks that the log goes on from what was known. If the log forked, it prints evidence. If the new checkpoint is
/// smaller and no fork is shown, it fails with `Older`.
pub(crate) fn judge<S: ResourceSource, O: Observer, W: Write>(
    alloc: Global,
    source: &S,
    step: &Update<'_, '_>,
    observer: &mut O,
    writer: &mut Counted<W>,
) -> Result<(), FetchFault>
    ensures grown { OnOk result (IsGrown step.now.old.now step.now.new.now) }
    ensures silent { OnOk result (IsUnwritten (passage W.contents writer.old writer.new)) }
    ensures refused { IfErr result (λ fault. JudgesTwo (S.may_answer source.now)
        (S.may_lack source.now) (two_of (option_map (λ s. s.now)
        step.now.last) step.now.old.now step.now.note.now step.now.new.now) fault
        (passage W.contents writer.old writer.new)) }
{
    if step.new.size < step.old.size {
        return Err(judge_older(alloc, source, step, observer, writer));
    }
    match difference(alloc, source, step.old, step.new, observer) {
        Ok(None) => Ok(()),
        Ok(Some(shown)) => Err(accuse(step, shown.as_slice(), writer)),
        Err(fault) => Err(client_refusal(fault)),
    }
}
