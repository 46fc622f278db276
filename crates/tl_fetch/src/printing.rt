//! Prints a head, an entry and an inclusion proof.

ghost use Rattle.std.specs.Prelude.{◌≡◌, ◌⊎◌, IfErr, IfOk, OnErr, OnOk, string_bytes};
ghost use Rattle.sha2.specs.Sha256.{sha256};
ghost use Rattle.tl_command.specs.ProofShown.{inclusion_shown};
ghost use Rattle.tl_device.specs.Device.{passage};
ghost use Rattle.tl_fetch.specs.Entries.{IsCheckedEntry, RefusesLeaf, RefusesOne, RefusesProof};
ghost use Rattle.tl_fetch.specs.Printed.{FailsChecking, FailsPrinting, FailsWriting, IsEntryText, IsProofOf, IsProofText, PrintedSome, PrintedWhole, head_text};

use crate::entry::fetch_entry;
use crate::fault::FetchFault;
use crate::faults::client_refusal;
use crate::observer::Observer;
use base64::engine::general_purpose::STANDARD;
use itoa::Buffer;
use std::alloc::{AllocError, Allocator};
use std::io::Write;
use tl_client::{Head, ResourceSource, prove_entry};
use tl_command::{InclusionProof, inclusion_bytes};
use tl_device::Counted;
use tl_hash::{Sha256Tree, leaf_hash};
use tl_run::{RunFault, print_text};
use tl_text::push_line;

// Returns the lines of a log's name, its size and its root.
fn head_lines<A: Allocator + Copy>(
    alloc: A,
    origin: &str,
    head: &Head,
) -> Result<String<A>, AllocError>
    ensures { IfOk result (λ text. string_bytes text ≡ head_text origin.now head.now) }
{
    let root = STANDARD.encode(alloc, head.root.as_bytes())?;
    let mut text = String::new(alloc);
    push_line(&mut text, origin)?;
    push_line(&mut text, Buffer::new().format(head.size))?;
    push_line(&mut text, &root)?;
    Ok(text)
}

/// Prints a log's name, its size and its root in base64, a line each.
pub fn print_head<A: Allocator + Copy, W: Write>(
    alloc: A,
    origin: &str,
    head: &Head,
    writer: &mut Counted<W>,
) -> Result<(), FetchFault>
    ensures printed { OnOk result (PrintedWhole
        (λ text. text ≡ head_text origin.now head.now) (passage W.contents writer.old writer.new)) }
    ensures part { OnErr result (PrintedSome
        (λ text. text ≡ head_text origin.now head.now) (passage W.contents writer.old writer.new)) }
    ensures refused { IfErr result (λ fault.
        FailsWriting fault (passage W.contents writer.old writer.new)
        ⊎ (fault ≡ FetchFault.Run RunFault.OutOfMemory)) }
{
    let text = head_lines(alloc, origin, head)?;
    print_text(writer, text.as_bytes())?;
    Ok(())
}

/// Prints the entry with this index and a newline. It checks the entry as `fetch_entry` does, and prints nothing of
/// an entry that fails.
pub fn print_entry<S: ResourceSource, A: Allocator + Copy, O: Observer, W: Write>(
    alloc: A,
    source: &S,
    head: &Head,
    index: u64,
    observer: &mut O,
    writer: &mut Counted<W>,
) -> Result<(), FetchFault>
    ensures printed { OnOk result
        (PrintedWhole (IsEntryText head.now index) (passage W.contents writer.old writer.new)) }
    ensures part { OnErr result
        (PrintedSome (IsEntryText head.now index) (passage W.contents writer.old writer.new)) }
    ensures refused { IfErr result (λ fault. FailsPrinting
        (RefusesOne (S.may_answer source.now) (S.may_lack source.now) head.now index) fault
        (passage W.contents writer.old writer.new)) }
{
    let mut text = match fetch_entry(alloc, source, head, index, observer) {
        Ok(entry) => entry,
        Err(fault) => return Err(client_refusal(fault)),
    };
    text.push(b'\n')?;
    print_text(writer, text.as_slice())?;
    Ok(())
}

/// Prints the bytes of the entry with this index, counted from 0, and nothing else. It checks the entry as
/// `fetch_entry` does.
pub fn print_raw<S: ResourceSource, A: Allocator + Copy, O: Observer, W: Write>(
    alloc: A,
    source: &S,
    head: &Head,
    index: u64,
    observer: &mut O,
    writer: &mut Counted<W>,
) -> Result<(), FetchFault>
    ensures printed { OnOk result (PrintedWhole (IsCheckedEntry sha256 head.now index)
        (passage W.contents writer.old writer.new)) }
    ensures part { OnErr result (PrintedSome (IsCheckedEntry sha256 head.now index)
        (passage W.contents writer.old writer.new)) }
    ensures refused { IfErr result (λ fault. FailsPrinting
        (RefusesOne (S.may_answer source.now) (S.may_lack source.now) head.now index) fault
        (passage W.contents writer.old writer.new)) }
{
    let entry = match fetch_entry(alloc, source, head, index, observer) {
        Ok(entry) => entry,
        Err(fault) => return Err(client_refusal(fault)),
    };
    print_text(writer, entry.as_slice())?;
    Ok(())
}

// Returns an accepted inclusion proof of this entry, with what it is about.
fn proof_of<S: ResourceSource, A: Allocator + Copy>(
    alloc: A,
    source: &S,
    head: &Head,
    index: u64,
    entry: &[u8],
) -> Result<InclusionProof<A>, FetchFault>
    ensures proof { IfOk result (λ p. IsProofOf head.now index entry.now (inclusion_shown p)) }
    ensures refused { IfErr result (FailsChecking
        (RefusesLeaf (S.may_answer source.now) (S.may_lack source.now) head.now index)) }
{
    let leaf = leaf_hash(Sha256Tree, entry);
    let Head { size, root } = *head;
    match prove_entry(alloc, source, size, root, index, leaf) {
        Ok(proof) => Ok(InclusionProof {
            index,
            size,
            leaf,
            root,
            proof,
        }),
        Err(fault) => Err(client_refusal(fault)),
    }
}

// Returns the text of an inclusion proof of the entry with this index, which is checked.
fn proof_text<S: ResourceSource, A: Allocator + Copy, O: Observer>(
    alloc: A,
    source: &S,
    head: &Head,
    index: u64,
    observer: &mut O,
) -> Result<Vec<u8, A>, FetchFault>
    ensures text { IfOk result (λ text. IsProofText head.now index text.items) }
    ensures refused { IfErr result (FailsChecking
        (RefusesProof (S.may_answer source.now) (S.may_lack source.now) head.now index)) }
{
    let entry = match fetch_entry(alloc, source, head, index, observer) {
        Ok(entry) => entry,
        Err(fault) => return Err(client_refusal(fault)),
    };
    let proof = proof_of(alloc, source, head, index, entry.as_slice())?;
    let text = inclusion_bytes(alloc, &proof)?;
    Ok(text)
}

/// Prints the text of an accepted inclusion proof of the entry with this index (RFC 6962, section 2.1.1), as the
/// command `inclusion` does. It checks the entry as `fetch_entry` does.
pub fn print_proof<S: ResourceSource, A: Allocator + Copy, O: Observer, W: Write>(
    alloc: A,
    source: &S,
    head: &Head,
    index: u64,
    observer: &mut O,
    writer: &mut Counted<W>,
) -> Result<(), FetchFault>
    ensures printed { OnOk result
        (PrintedWhole (IsProofText head.now index) (passage W.contents writer.old writer.new)) }
    ensures part { OnErr result
        (PrintedSome (IsProofText head.now index) (passage W.contents writer.old writer.new)) }
    ensures refused { IfErr result (λ fault. FailsPrinting
        (RefusesProof (S.may_answer source.now) (S.may_lack source.now) head.now index) fault
        (passage W.contents writer.old writer.new)) }
{
    let text = proof_text(alloc, source, head, index, observer)?;
    print_text(writer, text.as_slice())?;
    Ok(())
}
