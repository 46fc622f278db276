//! Restoring the right edge and the partial bundle of a log from what was read.

ghost use Rattle.std.specs.Prelude.{◌≡◌, ◌<◌, ◌≤◌, ◌/◌, ◌%◌, ◌^◌, ◌⊎◌, List, length, map, vec_items, Contains, MatchBool, IfOk, IfErr};
ghost use Rattle.sha2.specs.Sha256.{sha256};
ghost use Rattle.tl_hash.specs.Bytes.{Bytes};
ghost use Rattle.tl_tile.specs.Bundle.{AreShortEntries, bundle_text};
ghost use Rattle.tl_tile.specs.Fetched.{tiles_of};
ghost use Rattle.tl_tile.specs.Folds.{TilesCollide};
ghost use Rattle.tl_tile.specs.RightEdge.{IsEdgeOf};
ghost use Rattle.tl_tile.specs.Source.{AreAnswers};
ghost use Rattle.tl_tile.specs.TileLaws.{AreHonest};
ghost use Rattle.tl_tile.specs.declared.resource.Resource.TheVariants as resource;
ghost use Rattle.tl_tile.specs.declared.resource.Tile.{Tile};
ghost use Rattle.tl_client.specs.Checked.{AreCheckedEntries};
ghost use Rattle.tl_ledger.specs.Inner.Reads.{HasPartials, IsBundleRead, ReadsOther};
ghost use Rattle.tl_ledger.specs.Inner.Restoring.{IsBundleOf, IsLogAt, PartFails};

use crate::opened::fault::OpenFault;
use crate::opened::reading::last_bundle;
use crate::opened::shelf_source::ShelfSource;
use std::alloc::{AllocError, Allocator};
use tl_client::{ClientFault, Tiles, read_entries};
use tl_hash::{Head, Sha256Tree};
use tl_store::ReadFault;
use tl_tile::{BundleFault, Edge, FetchedTiles, Resource, Tile, write_bundle};

/// Restores the right edge of a log of this size and root from the partial tiles that were read.
pub(crate) fn restore_edge<A: Allocator + Copy>(
    alloc: A,
    source: &ShelfSource<A>,
    head: &Head,
    fetched: &mut FetchedTiles<A>,
) -> Result<Edge<Sha256Tree, A>, OpenFault>
    requires small { head.now.size < 2 ^ 32 }
    requires all { HasPartials head.now.size source.now }
    ensures size { IfOk result (λ edge. edge.size ≡ head.now.size) }
    ensures edge { IfOk result (λ edge. (log : List Bytes) → IsLogAt head.now log
        → IsEdgeOf edge sha256 log ⊎ TilesCollide sha256 (tiles_of fetched.new) head.now.size log) }
    ensures honest { IfOk result (λ edge. (log : List Bytes) → length log ≡ head.now.size
        → AreHonest sha256 (tiles_of fetched.new) log → IsEdgeOf edge sha256 log) }
    ensures answers { AreAnswers (λ t text. Contains source.now (resource.Tile t, text))
        head.now.size fetched.new }
    ensures refused { (more : List (Tile × Bytes)) → IfErr result
        (PartFails (λ r text. Contains source.now (r, text)) head.now fetched.new more) }
{
    let (size, root) = (head.size, head.root);
    match Edge::restore(alloc, Sha256Tree, size, root, Tiles(source), fetched) {
        Ok(edge) => Ok(edge),
        Err(
            ReadFault::BadTile {
                level,
                index,
                width,
            },
        ) => Err(OpenFault::Damaged(Resource::Tile(Tile {
            level,
            index,
            width,
        }))),
        Err(ReadFault::OutOfMemory) => Err(OpenFault::OutOfMemory),
        Err(ReadFault::OutOfRange) => unreachable!(),
        Err(ReadFault::Source) => unreachable!(),
    }
}

// Returns the entries of the partial bundle, checked against the size and root.
fn restore_entries<A: Allocator + Copy>(
    alloc: A,
    source: &ShelfSource<A>,
    head: &Head,
    fetched: &mut FetchedTiles<A>,
) -> Result<Vec<Vec<u8, A>, A>, OpenFault>
    requires small { head.now.size < 2 ^ 32 }
    requires part { 0 < head.now.size % 256 }
    requires all { HasPartials head.now.size source.now }
    ensures checked { IfOk result (λ entries. AreCheckedEntries sha256 (tiles_of fetched.new)
        head.now.size head.now.root (head.now.size / 256) (map vec_items entries.items)) }
    ensures refused { (edge_tiles : List (Tile × Bytes)) → IfErr result
        (PartFails (λ r text. Contains source.now (r, text)) head.now edge_tiles fetched.new) }
{
    let (size, root) = (head.size, head.root);
    match read_entries(alloc, source, size, root, size / 256, fetched) {
        Ok(entries) => Ok(entries),
        Err(
            ClientFault::BadTile {
                level,
                index,
                width,
            },
        ) => Err(OpenFault::Damaged(Resource::Tile(Tile {
            level,
            index,
            width,
        }))),
        Err(ClientFault::BadBundle(_)) => Err(OpenFault::Damaged(last_bundle(size))),
        Err(ClientFault::BadEntry(_)) => Err(OpenFault::Damaged(last_bundle(size))),
        Err(ClientFault::OutOfMemory) => Err(OpenFault::OutOfMemory),
        Err(ClientFault::Range) => unreachable!(),
        Err(ClientFault::Unavailable) => unreachable!(),
        Err(ClientFault::Shrunk) => unreachable!(),
        Err(ClientFault::Forked) => unreachable!(),
    }
}

// Encodes these entries as a bundle.
fn bundle_of<A: Allocator + Copy>(
    alloc: A,
    entries: &[Vec<u8, A>],
) -> Result<Vec<u8, A>, AllocError>
    requires some { 0 < length entries.now }
    requires most { length entries.now ≤ 256 }
    requires short { AreShortEntries (map vec_items entries.now) }
    ensures { IfOk result (λ text. text.items ≡ bundle_text (map vec_items entries.now)) }
{
    match write_bundle(alloc, entries) {
        Ok(text) => Ok(text),
        Err(BundleFault::OutOfMemory) => Err(AllocError),
        Err(_) => unreachable!(),
    }
}

// Reports whether these are the bytes that were read for the partial bundle.
fn was_read<A: Allocator>(source: &ShelfSource<A>, size: u64, bytes: &[u8]) -> bool
    requires part { 0 < size % 256 }
    requires all { HasPartials size source.now }
    ensures { MatchBool result
        (Contains source.now (resource.Entries (size / 256) (size % 256), bytes.now))
        (ReadsOther source.now size bytes.now) }
{
    match source.text_of(&last_bundle(size)) {
        Some(text) => text == bytes,
        None => unreachable!(),
    }
}

/// Returns the bytes of the partial bundle of a log of this size and root. Its entries are checked and put into
/// `entries`.
pub(crate) fn restore_bundle<A: Allocator + Copy>(
    alloc: A,
    source: &ShelfSource<A>,
    head: &Head,
    entries: &mut Vec<Vec<u8, A>, A>,
    fetched: &mut FetchedTiles<A>,
) -> Result<Vec<u8, A>, OpenFault>
    requires small { head.now.size < 2 ^ 32 }
    requires all { HasPartials head.now.size source.now }
    ensures bundle { IfOk result (λ bundle.
        IsBundleOf head.now (map vec_items entries.new.items) fetched.new bundle.items) }
    ensures read { IfOk result (λ bundle. IsBundleRead source.now head.now.size bundle.items) }
    ensures refused { (edge_tiles : List (Tile × Bytes)) → IfErr result
        (PartFails (λ r text. Contains source.now (r, text)) head.now edge_tiles fetched.new) }
{
    let size = head.size;
    if size % 256 == 0 {
        return Ok(Vec::new(alloc));
    }
    let checked = match restore_entries(alloc, source, head, fetched) {
        Ok(checked) => checked,
        Err(fault) => return Err(fault),
    };
    let bundle = bundle_of(alloc, &checked);
    *entries = checked;
    let bundle = bundle?;
    if !was_read(source, size, &bundle) {
        return Err(OpenFault::Damaged(last_bundle(size)));
    }
    Ok(bundle)
}
