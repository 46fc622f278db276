//! Removing partial tiles and bundles that a log no longer needs.

ghost use Rattle.std.specs.Prelude.{◌≡◌, ℕ, ◌+◌, ◌*◌, ◌^◌, ◌<◌, ◌≤◌, List, OnErr, OnOk};
ghost use Rattle.sha2.specs.Sha256.{sha256};
ghost use Rattle.tl_hash.specs.Bytes.{Bytes};
ghost use Rattle.tl_log.specs.Histories.{Prefix};
ghost use Rattle.tl_archive.specs.Complete.{KeptSafe};
ghost use Rattle.tl_archive.specs.Shelves.{Fails};
ghost use Rattle.tl_ledger.specs.Keeping.{IsKeeping};
ghost use Rattle.tl_ledger.specs.Standing.{Ledger};
ghost use Rattle.tl_ledger.specs.Spent.{IsShown, LacksSpent, RemovesSpent};
ghost use Rattle.tl_ledger.specs.Inner.Spending.{LacksAt, LacksLevel, Sheds};

use tl_archive::{Shelf, ShelfFault};
use tl_tile::{Resource, Tile};

// Removes the partial tiles at an index of a level and, for the lowest level, the partial bundles there.
fn remove_at<S: Shelf>(shelf: &mut S, level: u32, index: u64) -> Result<(), ShelfFault>
    requires lawful { (level < 3) × (index < 2 ^ 32) }
    ensures sheds { (size : ℕ) → (index + 2) * 256 ^ (level + 1) ≤ size
        → Sheds size (S.kept shelf.old) (S.kept shelf.new)
        (S.trace shelf.old) (S.trace shelf.new) }
    ensures gone { OnOk result (LacksAt level index (S.kept shelf.new).held) }
    ensures unfailed { OnOk result (S.faults shelf.new ≡ S.faults shelf.old) }
    ensures failed { OnErr result (Fails (S.faults shelf.old) (S.faults shelf.new)) }
    ensures place { S.place shelf.new ≡ S.place shelf.old }
    ensures mark { S.published shelf.new ≡ S.published shelf.old }
{
    shelf.remove_partials(&Resource::Tile(Tile {
        level,
        index,
        width: 256,
    }))?;
    if level != 0 {
        return Ok(());
    }
    shelf.remove_partials(&Resource::Entries { index, width: 256 })?;
    Ok(())
}

// Removes the partial tiles and bundles of a level that became unnecessary while its full tiles grew from `had` to
// `has`.
fn remove_level<S: Shelf>(shelf: &mut S, level: u32, had: u64, has: u64) -> Result<(), ShelfFault>
    requires small { (level < 3) × (had < 2 ^ 56) × (has < 2 ^ 32) }
    ensures sheds { (size : ℕ) → has * 256 ^ (level + 1) ≤ size
        → Sheds size (S.kept shelf.old) (S.kept shelf.new)
        (S.trace shelf.old) (S.trace shelf.new) }
    ensures gone { OnOk result (LacksLevel level had has (S.kept shelf.new).held) }
    ensures unfailed { OnOk result (S.faults shelf.new ≡ S.faults shelf.old) }
    ensures failed { OnErr result (Fails (S.faults shelf.old) (S.faults shelf.new)) }
    ensures place { S.place shelf.new ≡ S.place shelf.old }
    ensures mark { S.published shelf.new ≡ S.published shelf.old }
{
    let end = has.saturating_sub(1).min(had + 1);
    for index in had.saturating_sub(1)..end {
        remove_at(shelf, level, index)?;
    }
    Ok(())
}

/// Removes the partial tiles and bundles that became unnecessary while the log grew from `from` to `size` entries
/// (C2SP tlog-tiles, "Partial Tiles"). A partial one is unnecessary once the full one is there, and so is the full
/// one after it; until then a client with an earlier checkpoint can still read it. If the checkpoint of `size`
/// entries is there, the shelf stays complete, even if the log has grown since.
pub fn remove_spent<S: Shelf>(shelf: &mut S, from: u64, size: u64) -> Result<(), ShelfFault>
    requires small { size < 2 ^ 32 }
    ensures kept { (history : List Prefix) (log : List Bytes) (ledger : Ledger)
        → IsKeeping sha256 history log (S.kept shelf.old) ledger
        → IsShown sha256 history size (S.kept shelf.old).held
        → IsKeeping sha256 history log (S.kept shelf.new) ledger }
    ensures safe { (history : List Prefix) (log : List Bytes) (ledger : Ledger)
        → IsKeeping sha256 history log (S.kept shelf.old) ledger
        → IsShown sha256 history size (S.kept shelf.old).held
        → KeptSafe sha256 history (S.trace shelf.old) (S.trace shelf.new) }
    ensures spent { RemovesSpent size (S.kept shelf.old) (S.kept shelf.new) }
    ensures gone { OnOk result (LacksSpent from size (S.kept shelf.new).held) }
    ensures unfailed { OnOk result (S.faults shelf.new ≡ S.faults shelf.old) }
    ensures failed { OnErr result (Fails (S.faults shelf.old) (S.faults shelf.new)) }
    ensures place { S.place shelf.new ≡ S.place shelf.old }
    ensures mark { S.published shelf.new ≡ S.published shelf.old }
{
    let mut span: u64 = 1;
    for level in 0..3u32 {
        span *= 256;
        remove_level(shelf, level, from / span, size / span)?;
    }
    Ok(())
}
