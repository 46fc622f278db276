//! The resources of a log.

/// Neighbouring hashes of one level of the tree (C2SP tlog-tiles, "Merkle Tree"). A hash of level L is over 256^L
/// entries.
#[derive(Clone, Copy, Debug, PartialEq, Eq)]
pub struct Tile {
    /// From 0 to 7.
    pub level: u32,
    /// The number of the tile within its level, counted from 0, below 2^56.
    pub index: u64,
    /// The number of hashes: 256 in a full tile, 1 to 255 in a partial one.
    pub width: u32,
}

/// What a log serves under a path (C2SP tlog-tiles).
#[derive(Clone, Copy, Debug, PartialEq, Eq)]
pub enum Resource {
    /// A tile of hashes.
    Tile(Tile),
    /// An entry bundle: its number, counted from 0 and below 2^56, and the number of its entries, from 1 to 256.
    Entries { index: u64, width: u32 },
    /// The checkpoint that the log published last.
    Checkpoint,
}
