//! Reading the entries of a log, one bundle at a time.

ghost use Rattle.std.specs.Prelude.{◌≡◌, ◌↔◌, ◌<◌, ◌≤◌, ◌+◌, ◌*◌, ◌^◌, map, vec_items, IsTrue, IfOk, IfErr, OnOk};
ghost use Rattle.sha2.specs.Sha256.{sha256};
ghost use Rattle.tl_tile.specs.Bundle.{AreEntries, bundle_text};
ghost use Rattle.tl_tile.specs.declared.resource.Resource.TheVariants as resource;
ghost use Rattle.tl_tile.specs.Fetched.{tiles_of};
ghost use Rattle.tl_tile.specs.Verified.{AreVerified, HavePassed};
ghost use Rattle.tl_client.specs.Blame.{AddsServed, AreServed};
ghost use Rattle.tl_tile.specs.Needed.{bundle_width};
ghost use Rattle.tl_client.specs.Bundles.{HasBundle};
ghost use Rattle.tl_client.specs.Checked.{AreCheckedEntries};
ghost use Rattle.tl_client.specs.Refused.{RefusesEntries};
ghost use Rattle.tl_client.specs.Inner.BundleFaults.{after_bundle};
ghost use Rattle.tl_client.specs.Inner.Leaves.{RefusesBundle};

use crate::fault::ClientFault;
use crate::leaves::{check_leaves, read_leaves};
use crate::source::ResourceSource;
use std::alloc::Allocator;
use tl_hash::Hash;
use tl_tile::{BundleFault, FetchedTiles, Resource, bundle_width, read_bundle};

// Reports whether a log of this size has the bundle.
fn has_bundle(size: u64, bundle: u64) -> bool
    ensures { IsTrue result ↔ HasBundle size bundle }
{
    size <= 1 << 62 && bundle < (size + 255) / 256
}

// Converts the fault of reading the bundle with this index.
fn bundle_fault(bundle: u64, fault: BundleFault) -> ClientFault
    ensures { result ≡ after_bundle bundle fault }
{
    match fault {
        BundleFault::OutOfMemory => ClientFault::OutOfMemory,
        _ => ClientFault::BadBundle(bundle),
    }
}

// Returns the entries of a bundle of this width, as the source has them.
fn fetch_bundle<S: ResourceSource, A: Allocator + Copy>(
    alloc: A,
    source: &S,
    bundle: u64,
    width: u32,
) -> Result<Vec<Vec<u8, A>, A>, ClientFault>
    requires index { bundle < 2 ^ 56 }
    requires some { 0 < width }
    requires most { width ≤ 256 }
    ensures entries { IfOk result (λ entries. AreEntries width (map vec_items entries.items)) }
    ensures answered { IfOk result (λ entries. S.may_answer source.now
        (resource.Entries bundle width) (bundle_text (map vec_items entries.items))) }
    ensures refused { IfErr result
        (RefusesBundle (S.may_answer source.now) (S.may_lack source.now) bundle width) }
{
    let resource = Resource::Entries {
        index: bundle,
        width,
    };
    let bytes = source.get(alloc, &resource)?;
    match read_bundle(alloc, &bytes, width) {
        Ok(entries) => Ok(entries),
        Err(fault) => Err(bundle_fault(bundle, fault)),
    }
}

/// Returns the entries of a bundle of a log of this size and root, each checked against the leaf hash in checked
/// tiles (C2SP tlog-tiles, "Log Entries"). Bundles are counted from 0. `fetched` then holds the tiles that were
/// fetched and no others, even on error. `Range`: the log has no such bundle, or more than 2^62 entries.
/// `Unavailable`: the source lacks the bundle or a tile over it. `BadBundle`: the bytes are no bundle of its width.
/// `BadEntry`: the first entry that isn't the log's.
pub fn read_entries<S: ResourceSource, A: Allocator + Copy>(
    alloc: A,
    source: &S,
    size: u64,
    root: Hash,
    bundle: u64,
    fetched: &mut FetchedTiles<A>,
) -> Result<Vec<Vec<u8, A>, A>, ClientFault>
    ensures entries { IfOk result (λ entries. AreCheckedEntries sha256
        (tiles_of fetched.new) size root bundle (map vec_items entries.items)) }
    ensures verified { OnOk result (AreVerified sha256 size root fetched.new) }
    ensures within { OnOk result (HasBundle size bundle) }
    ensures served { AreServed (S.may_answer source.now) size fetched.new }
    ensures refused { IfErr result (RefusesEntries (S.may_answer source.now) (S.may_lack source.now)
        (record { size = size; root = root; bundle = bundle; fetched = fetched.new })) }
{
    *fetched = FetchedTiles::new(alloc);
    match read_entries_after(alloc, source, size, root, bundle, fetched) {
        Ok(entries) => Ok(entries),
        Err(fault) => Err(fault),
    }
}

/// Reads a bundle as `read_entries` does. `fetched` must hold tiles that have passed all checks against this size and
/// root, or none; they are neither fetched nor hashed again. Tiles fetched by this call are added after them, even on
/// error; after `BadTile` the bad one is among them, so they haven't all passed. In a run over several bundles call
/// `FetchedTiles::keep_path` between two of them to drop the tiles that the next one doesn't need.
pub fn read_entries_after<S: ResourceSource, A: Allocator + Copy>(
    alloc: A,
    source: &S,
    size: u64,
    root: Hash,
    bundle: u64,
    fetched: &mut FetchedTiles<A>,
) -> Result<Vec<Vec<u8, A>, A>, ClientFault>
    requires { HavePassed sha256 size root fetched.old }
    ensures entries { IfOk result (λ entries. AreCheckedEntries sha256
        (tiles_of fetched.new) size root bundle (map vec_items entries.items)) }
    ensures verified { OnOk result (AreVerified sha256 size root fetched.new) }
    ensures passed { OnOk result (HavePassed sha256 size root fetched.new) }
    ensures within { OnOk result (HasBundle size bundle) }
    ensures served { AddsServed (S.may_answer source.now) size fetched.old fetched.new }
    ensures refused { IfErr result (RefusesEntries (S.may_answer source.now) (S.may_lack source.now)
        (record { size = size; root = root; bundle = bundle; fetched = fetched.new })) }
{
    if !has_bundle(size, bundle) {
        return Err(ClientFault::Range);
    }
    let width = bundle_width(size, bundle);
    let entries = fetch_bundle(alloc, source, bundle, width)?;
    let leaves = read_leaves(alloc, source, size, root, 256 * bundle, width, fetched)?;
    check_leaves(256 * bundle, &entries, &leaves)?;
    Ok(entries)
}
