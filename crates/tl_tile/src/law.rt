//! Laws of entry bundles, of tiles and of sources of tiles.

ghost use Rattle.tl_hash.specs.Tree.{tree_hash};
ghost use Rattle.tl_store.specs.Stored.{stored_index, stored_hash};
ghost use Rattle.tl_tile.specs.Folds.{Tiles, AreChecked, IsSubtreeHash, TilesCollide, IsEdgeRoot, IsHashAt, IsTileHash};
ghost use Rattle.tl_tile.specs.TileLaws.{AreHonest};
ghost use Rattle.tl_tile.specs.TileText.{level_count, full_tile, tile_with};
ghost use Rattle.std.specs.Prelude.{◌≡◌, ℕ, List, ◌+◌, Contains, ◌↔◌, ◌≤◌, ◌*◌, ◌^◌, length, ◌⊎◌, ◌%◌, ◌<◌, Some};
ghost use Rattle.tl_hash.specs.Bytes.{Bytes, Digest};
ghost use Rattle.tl_tile.specs.Bundle.{AreEntries, bundle_text, IsTruncated, HasTrailing};
ghost use Rattle.tl_tile.specs.Law.{BundleIsOne, IsNewSince};
ghost use Rattle.tl_tile.specs.declared.resource.Tile.{Tile};
ghost use Rattle.tl_tile.specs.Needed.{needed_resources};
ghost use Rattle.tl_tile.specs.RightEdge.{filled_tiles};
ghost use Rattle.tl_tile.specs.declared.resource.Resource.{Resource};
ghost use Rattle.tl_tile.specs.declared.resource.Resource.TheVariants as resource;
ghost use Rattle.tl_tile.specs.SourceFaults.{HonestSourceIsRead};

use crate::source::TileSource;

/// Bytes have at most one reading as a bundle of a width: its entries, too few bytes, or too many.
pub fn bundle_has_one_reading()
    ensures one { (bytes : Bytes) (width : ℕ) (entries : List Bytes)
        → AreEntries width entries → bytes ≡ bundle_text entries → BundleIsOne bytes width entries }
    ensures apart { (bytes : Bytes) (width : ℕ)
        → IsTruncated bytes width → HasTrailing bytes width → ⊥ }
{}

/// The full tiles that an entry completes are exactly those that a log needs with this entry and didn't need before
/// it.
pub fn filled_tiles_are_new()
    ensures { (n : ℕ) (t : Tile) → Contains (filled_tiles (n + 1)) t
        ↔ ((t.width ≡ 256) × Contains (needed_resources (n + 1)) (resource.Tile t)
        × (Contains (needed_resources n) (resource.Tile t) → ⊥)) }
{}

/// A log needs what it needed when it was shorter, and what was added since, which it didn't need then.
pub fn needed_since_is_new()
    ensures { (from size : ℕ) → from ≤ size → (r : Resource) → IsNewSince from size r }
{}

/// Reading from a source that has each tile over the entries fails only if memory runs out.
pub fn honest_source_law<S: TileSource>(source: &S)
    ensures { HonestSourceIsRead (S.may_answer source.now) (S.may_lack source.now) }
{
    let _ = source;
}

/// If tiles are checked, the hash that those of a subtree fold to is the stored hash of each list of their size and
/// root, or two different byte strings that were hashed have one digest.
pub fn checked_tiles_law()
    ensures { (H : Digest) → ((message : Bytes) → length (H message) ≡ 32) → (tiles : Tiles)
        (size : ℕ) (root : Bytes) → AreChecked H tiles size root → (level place : ℕ) (hash : Bytes)
        → (place + 1) * 2 ^ level ≤ size → IsSubtreeHash H tiles size level place hash
        → (entries : List Bytes) → length entries ≡ size → tree_hash H entries ≡ root → (hash
        ≡ stored_hash H entries (stored_index level place)) ⊎ TilesCollide H tiles size entries }
{}

/// The tiles over a list of entries fold to its root. Each full one folds to the hash that the tile above has for it,
/// and the hashes of each subtree to its stored hash.
pub fn honest_tiles_law()
    ensures root { (H : Digest) → ((message : Bytes) → length (H message) ≡ 32)
        → (tiles : Tiles) (entries : List Bytes) → AreHonest H tiles entries
        → (root : Bytes) (strings : List Bytes) → IsEdgeRoot H tiles (length entries) root strings
        → root ≡ tree_hash H entries }
    ensures above { (H : Digest) → ((message : Bytes) → length (H message) ≡ 32)
        → (tiles : Tiles) (entries : List Bytes) → AreHonest H tiles entries → (level index : ℕ)
        (text hash : Bytes) (strings : List Bytes) → index < level_count (length entries)
        (level + 1) → tiles (full_tile level index) ≡ Some text → IsTileHash H text hash strings
        → (above own : Bytes) → tiles (tile_with (length entries) (level + 1) index) ≡ Some above
        → IsHashAt above (index % 256) own → hash ≡ own }
    ensures stored { (H : Digest) → ((message : Bytes) → length (H message) ≡ 32)
        → (tiles : Tiles) (entries : List Bytes) → AreHonest H tiles entries
        → (level place : ℕ) (hash : Bytes) → (place + 1) * 2 ^ level ≤ length entries
        → IsSubtreeHash H tiles (length entries) level place hash
        → hash ≡ stored_hash H entries (stored_index level place) }
{}

/// Partial tiles fold to one root only, and a full tile to one hash only.
pub fn folded_hashes_law()
    ensures { (H : Digest) (tiles : Tiles) (size : ℕ) (text hash other : Bytes)
        (strings others : List Bytes) → (IsEdgeRoot H tiles size hash strings
        → IsEdgeRoot H tiles size other others → hash ≡ other)
        × (IsTileHash H text hash strings → IsTileHash H text other others → hash ≡ other) }
{}
