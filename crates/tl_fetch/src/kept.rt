//! Reads one bundle after the other, and each tile over them once.

ghost use Rattle.std.specs.Prelude.{IfErr, IfOk, OnOk, map, vec_items};
ghost use Rattle.sha2.specs.Sha256.{sha256};
ghost use Rattle.tl_client.specs.Bundles.{HasBundle};
ghost use Rattle.tl_client.specs.Checked.{AreCheckedEntries};
ghost use Rattle.tl_tile.specs.Fetched.{tiles_of};
ghost use Rattle.tl_tile.specs.Verified.{AreVerified, HavePassed};
ghost use Rattle.tl_fetch.specs.Entries.{RefusesBundle};

use std::alloc::Allocator;
use tl_client::{ClientFault, Head, ResourceSource, read_entries_after};
use tl_tile::FetchedTiles;

/// Returns the checked entries of a bundle, as `tl_client::read_entries_after` does. Tiles that were kept are neither
/// asked for nor hashed again. Afterwards the tiles over this bundle are kept.
pub(crate) fn read_bundle<S: ResourceSource, A: Allocator + Copy>(
    alloc: A,
    source: &S,
    head: &Head,
    bundle: u64,
    kept: &mut FetchedTiles<A>,
) -> Result<Vec<Vec<u8, A>, A>, ClientFault>
    requires { HavePassed sha256 head.now.size head.now.root kept.old }
    ensures entries { IfOk result (λ entries. AreCheckedEntries sha256
        (tiles_of kept.new) head.now.size head.now.root bundle (map vec_items entries.items)) }
    ensures verified { OnOk result (AreVerified sha256 head.now.size head.now.root kept.new) }
    ensures passed { OnOk result (HavePassed sha256 head.now.size head.now.root kept.new) }
    ensures within { OnOk result (HasBundle head.now.size bundle) }
    ensures refused { IfErr result
        (RefusesBundle (S.may_answer source.now) (S.may_lack source.now) head.now bundle) }
{
    let Head { size, root } = *head;
    match read_entries_after(alloc, source, size, root, bundle, kept) {
        Ok(entries) => Ok(entries),
        Err(fault) => Err(fault),
    }
}
