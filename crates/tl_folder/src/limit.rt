//! The largest size of a resource.

ghost use Rattle.std.specs.Prelude.{◌≡◌};
ghost use Rattle.tl_folder.specs.Limits.{most_bytes};

use tl_tile::Resource;

/// Returns the most bytes that are read of a resource: for a tile 256 hashes, for a bundle 256 of the longest entries
/// with their length prefixes (C2SP tlog-tiles), for a checkpoint 65,536.
pub fn most_bytes(resource: &Resource) -> u64
    ensures { result ≡ most_bytes resource.now }
{
    match resource {
        Resource::Tile(_) => 8_192,
        Resource::Entries { .. } => 256 * 65_537,
        Resource::Checkpoint => 65_536,
    }
}
