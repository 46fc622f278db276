//! A listing can be read back in one way only.

ghost use Rattle.std.specs.Prelude.{◌≡◌, List};
ghost use Rattle.tl_fetch.specs.Listed.{listed_text};
ghost use Rattle.tl_hash.specs.Bytes.{Bytes};
ghost use Rattle.tl_tile.specs.Bundle.{AreShortEntries};

/// Proves that a listing, as `print_entries` prints it, is of one list of entries: the end of each shows, whatever
/// its bytes.
pub fn listing_is_one_list()
    ensures { (xs ys : List Bytes) → AreShortEntries xs → AreShortEntries ys
        → listed_text xs ≡ listed_text ys → xs ≡ ys }
{}
