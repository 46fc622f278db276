//! Prints entries, a bundle at a time.

ghost use Rattle.std.specs.Prelude.{◌≡◌, ℕ, ◌<◌, ◌≤◌, ◌++◌, ◌/◌, IfErr, IfOk, OnErr, OnOk, map, vec_items};
ghost use Rattle.sha2.specs.Sha256.{sha256};
ghost use Rattle.tl_device.specs.Device.{passage};
ghost use Rattle.tl_fetch.specs.Entries.{AreLinesBetween, RefusesBundle};
ghost use Rattle.tl_fetch.specs.Listed.{length_line, listed, listed_text, needs_length};
ghost use Rattle.tl_tile.specs.Verified.{HavePassed};
ghost use Rattle.tl_fetch.specs.Printed.{FailsChecking, FailsPrinting, PrintedSome, PrintedWhole, RefusesAll};

use crate::ahead::Ahead;
use crate::fault::FetchFault;
use crate::faults::client_refusal;
use crate::kept::read_bundle;
use crate::observer::Observer;
use itoa::Buffer;
use std::alloc::{AllocError, Allocator};
use std::io::Write;
use tl_client::{Head, ResourceSource};
use tl_device::Counted;
use tl_run::{RunFault, print_text};
use tl_source::{AsksHost, HostClient, Requests};
use tl_tile::FetchedTiles;

// Reports whether an entry is printed after its length, since its end wouldn't show otherwise.
fn needs_length(entry: &[u8]) -> bool
    ensures { result ≡ needs_length entry.now }
{
    entry.starts_with(b"\\") || entry.contains(&b'\n')
}

// Appends the line of an entry's length, if the entry needs it.
fn push_length<A: Allocator>(out: &mut Vec<u8, A>, entry: &[u8]) -> Result<(), AllocError>
    ensures { OnOk result (out.new.items ≡ out.old.items ++ length_line entry.now) }
{
    if !needs_length(entry) {
        return Ok(());
    }
    out.push(b'\\')?;
    out.extend_from_slice(Buffer::new().format(entry.len()).as_bytes())?;
    out.push(b'\n')?;
    Ok(())
}

// Appends an entry as it is listed.
fn push_listed<A: Allocator>(out: &mut Vec<u8, A>, entry: &[u8]) -> Result<(), AllocError>
    ensures { OnOk result (out.new.items ≡ out.old.items ++ listed entry.now) }
{
    push_length(out, entry)?;
    out.extend_from_slice(entry)?;
    out.push(b'\n')?;
    Ok(())
}

// Appends entries as they are listed.
fn push_lines<A: Allocator, B: Allocator>(
    out: &mut Vec<u8, A>,
    entries: &[Vec<u8, B>],
) -> Result<(), AllocError>
    ensures { OnOk result
        (out.new.items ≡ out.old.items ++ listed_text (map vec_items entries.now)) }
{
    for entry in entries {
        push_listed(out, entry.as_slice())?;
    }
    Ok(())
}

// Returns the entries from this index to the end of its bundle, as they are listed, and the index after them. Of the
// kept tiles only those over this bundle stay.
fn lines_from<S: ResourceSource, A: Allocator + Copy, O: Observer>(
    alloc: A,
    source: &S,
    head: &Head,
    from: u64,
    kept: &mut FetchedTiles<A>,
    observer: &mut O,
) -> Result<(Vec<u8, A>, u64), FetchFault>
    requires below { from < head.now.size }
    requires passed { HavePassed sha256 head.now.size head.now.root kept.old }
    ensures lines { IfOk result (λ r. AreLinesBetween head.now from r.1 r.0.items) }
    ensures further { IfOk result (λ r. from < r.1) }
    ensures within { IfOk result (λ r. r.1 ≤ head.now.size) }
    ensures passed { OnOk result (HavePassed sha256 head.now.size head.now.root kept.new) }
    ensures refused { IfErr result (FailsChecking
        (RefusesBundle (S.may_answer source.now) (S.may_lack source.now) head.now (from / 256))) }
{
    kept.keep_path(from);
    let known = kept.as_slice().len();
    let entries = match read_bundle(alloc, source, head, from / 256, kept) {
        Ok(entries) => entries,
        Err(fault) => return Err(client_refusal(fault)),
    };
    let rest = &entries[(from % 256) as usize..];
    let next = from + rest.len() as u64;
    let mut text = Vec::new(alloc);
    push_lines(&mut text, rest)?;
    observer.checked(head, kept, known, next);
    Ok((text, next))
}

// Prints the entries from this index to the end of its bundle, and returns the index after them.
fn print_bundle<S: ResourceSource, A: Allocator + Copy, O: Observer, W: Write>(
    alloc: A,
    source: &S,
    head: &Head,
    from: u64,
    kept: &mut FetchedTiles<A>,
    observer: &mut O,
    writer: &mut Counted<W>,
) -> Result<u64, FetchFault>
    requires below { from < head.now.size }
    requires passed { HavePassed sha256 head.now.size head.now.root kept.old }
    ensures printed { IfOk result (λ next. PrintedWhole
        (AreLinesBetween head.now from next) (passage W.contents writer.old writer.new)) }
    ensures further { IfOk result (λ next. from < next) }
    ensures within { IfOk result (λ next. next ≤ head.now.size) }
    ensures passed { OnOk result (HavePassed sha256 head.now.size head.now.root kept.new) }
    ensures part { OnErr result (PrintedSome (λ text. (upto : ℕ)
        × AreLinesBetween head.now from upto text) (passage W.contents writer.old writer.new)) }
    ensures refused { IfErr result (λ fault. FailsPrinting
        (RefusesBundle (S.may_answer source.now) (S.may_lack source.now) head.now (from / 256))
        fault (passage W.contents writer.old writer.new)) }
{
    let (text, next) = lines_from(alloc, source, head, from, kept, observer)?;
    print_text(writer, text.as_slice())?;
    Ok(next)
}

/// Prints the entries from this index, counted from 0, to the end of a log of this size and root, a line each. An
/// entry that has a newline or begins with a backslash follows a line with a backslash and its length. Each is
/// checked as by `fetch_entry`; nothing is printed of a bundle that fails. A tile is asked for and hashed once; a
/// host is asked ahead, by `requests`. It fails with `BadIndex` if the index is above the size or the log exceeds
/// 2^62 entries.
pub fn print_entries<
    S: ResourceSource + AsksHost,
    H: HostClient,
    A: Allocator + Copy,
    O: Observer,
    W: Write,
>(
    alloc: A,
    source: &S,
    requests: &Requests<'_, H>,
    head: &Head,
    from: u64,
    observer: &mut O,
    writer: &mut Counted<W>,
) -> Result<(), FetchFault>
    ensures printed { OnOk result (PrintedWhole
        (AreLinesBetween head.now from head.now.size) (passage W.contents writer.old writer.new)) }
    ensures part { OnErr result (PrintedSome (λ text. (upto : ℕ)
        × AreLinesBetween head.now from upto text) (passage W.contents writer.old writer.new)) }
    ensures refused { IfErr result (λ fault. RefusesAll (S.may_answer source.now)
        (S.may_lack source.now) head.now from fault (passage W.contents writer.old writer.new)) }
{
    if from > head.size {
        return Err(FetchFault::Run(RunFault::BadIndex));
    }
    let mut kept = FetchedTiles::new(alloc);
    let mut ahead = Ahead::new(requests.alloc, source);
    let mut next = from;
    while next < head.size {
        ahead.reach(requests, head, next, &kept);
        next = match print_bundle(
            alloc,
            &ahead.window,
            head,
            next,
            &mut kept,
            observer,
            writer,
        ) {
            Ok(next) => next,
            Err(fault) => return Err(fault),
        };
    }
    Ok(())
}
