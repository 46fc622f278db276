//! What a log of a size needs.

ghost use Rattle.std.specs.Prelude.{◌↔◌, ℕ, ◌<◌, IsTrue};
ghost use Rattle.tl_log.specs.Pieces.{HasPiece};
ghost use Rattle.tl_log.specs.Resources.{needs};
ghost use Rattle.tl_tile.specs.TileText.{level_count};
ghost use Rattle.tl_tile.specs.declared.resource.Resource.TheVariants as resource;
ghost use Rattle.tl_tile.specs.declared.resource.Tile.{Tile};

/// A log of a size needs a tile exactly if its level has that piece of 256 hashes, full or partial, and a bundle
/// exactly if its entries have that piece (C2SP tlog-tiles, "Partial Tiles"). It computes nothing: its contract is
/// the law.
pub fn needed_pieces_are_counted()
    ensures tiles { (t : Tile) (size : ℕ) → IsTrue (needs (resource.Tile t) size)
        ↔ ((t.level < 8) × HasPiece t.index t.width (level_count size t.level)) }
    ensures bundles { (index width size : ℕ) → IsTrue (needs (resource.Entries index width) size)
        ↔ HasPiece index width size }
{}
