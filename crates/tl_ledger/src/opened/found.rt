//! What was read of a log to open it.

ghost use Rattle.std.specs.Prelude.{◌≡◌, [], None};

use std::alloc::Allocator;
use std::marker::Model;
use tl_hash::Head;
use tl_tile::FetchedTiles;

/// What was read of a log to open it. If a ledger isn't that of the checkpoint's log, two different inputs of the
/// hash collide, and one of them can be found here.
#[derive(Drop)]
pub struct Found<A: Allocator> {
    /// The size and root of the log's checkpoint, if it has one.
    pub head: Option<Head>,
    /// The partial tiles from which the right edge was restored.
    pub edge_tiles: FetchedTiles<A>,
    /// The entries of the partial bundle.
    pub entries: Vec<Vec<u8, A>, A>,
    /// The tiles by which these entries were checked.
    pub entry_tiles: FetchedTiles<A>,
}

impl<A: Allocator> Model for Found<A> {
    ghost use Rattle.std.specs.Prelude.{map, vec_items};
    ghost use Rattle.tl_ledger.specs.Opening.{Found};

    ghost Value = { Found };

    ghost view = { λ f. record {
      head = f.head;
      edge_tiles = f.edge_tiles;
      entries = map vec_items f.entries.items;
      entry_tiles = f.entry_tiles;
    } };
}

impl<A: Allocator + Copy> Found<A> {
    /// Returns an empty value. It allocates nothing.
    pub fn new(alloc: A) -> Found<A>
        ensures { result ≡ record { head = None; edge_tiles = []; entries = []; entry_tiles = [] } }
    {
        Found {
            head: None,
            edge_tiles: FetchedTiles::new(alloc),
            entries: Vec::new(alloc),
            entry_tiles: FetchedTiles::new(alloc),
        }
    }
}
