//! What holds of a shelf to which a growing log is written.

ghost use Rattle.std.specs.Prelude.{◌≡◌, List, ◌++◌, length, Contains};
ghost use Rattle.tl_hash.specs.Bytes.{Bytes, Digest};
ghost use Rattle.tl_tile.specs.declared.resource.Resource.{Resource};
ghost use Rattle.tl_tile.specs.Needed.{needed_resources};
ghost use Rattle.tl_archive.specs.Complete.{text_of, IsComplete, IsSafe};
ghost use Rattle.tl_log.specs.Histories.{Prefix};
ghost use Rattle.tl_archive.specs.Shelves.{Kept};

/// A tile or bundle that a log needed once has the same bytes over every longer log. So what is on a shelf is never
/// wrong later.
pub fn archived_bytes_stay()
    ensures { (H : Digest) (entries more : List Bytes) (r : Resource)
        → Contains (needed_resources (length entries)) r
        → text_of H r (entries ++ more) ≡ text_of H r entries }
{}

/// What is there on a safe shelf is complete for the checkpoint that is there.
pub fn safe_shelf_is_complete()
    ensures { (H : Digest) (history : List Prefix) (kept : Kept)
        → IsSafe H history kept → IsComplete H history kept.held }
{}
