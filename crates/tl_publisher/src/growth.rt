//! What the next publication will add.
ghost use Rattle.std.specs.Prelude.{◌≡◌, ◌+◌, ◌-◌, ◌%◌, ◌<◌, ◌≤◌, ◌^◌, ℕ, List, [], ◌∷◌, ◌++◌, vec_len, vec_capacity, length, take, drop, map, vec_items, slice_index_or, IfOk, OnOk, OnErr};
ghost use Rattle.sha2.specs.Sha256.{sha256};
ghost use Rattle.tl_hash.specs.Tree.{tree_hash};
ghost use Rattle.tl_tile.specs.Bundle.{bundled_entry, AreShortEntries, IsShortEntry};
ghost use Rattle.tl_tile.specs.TileText.{tile_text, partial_tile};
ghost use Rattle.tl_tile.specs.RightEdge.{IsEdgeOf};
ghost use Rattle.tl_publisher.specs.Filled.{filled_from};
ghost use Rattle.tl_publisher.specs.Boards.{IsFaceOf};
ghost use Rattle.tl_publisher.specs.Grown.{IsGrown, texts_of};

use crate::board_copy::Change;
use crate::face::{Face, Sheet};
use crate::text::Text;
use std::alloc::{AllocError, Allocator};
use std::marker::Model;
use std::mem;
use tl_hash::{Head, Sha256Tree};
use tl_tile::{Edge, Tile};

/// A full bundle, and the full tiles that its last entry completed.
#[derive(Drop)]
pub struct Batch<A: Allocator> {
    bundle: Vec<u8, A>,
    tiles: Vec<(Tile, Vec<u8, A>), A>,
}

impl<A: Allocator> Model for Batch<A> {
    ghost use Rattle.std.specs.Prelude.{List, ℕ, ◌∷◌, map, vec_items};

    ghost Value = { List (List ℕ) };

    ghost view = { λ b. b.bundle.items ∷ map (λ t. vec_items t.1) b.tiles.items };
}

/// The right edge of the log, its partial bundle, and the full bundles and tiles that are not yet published.
#[derive(Drop)]
pub struct Growth<A: Allocator> {
    edge: Edge<Sha256Tree, A>,
    bundle: Vec<u8, A>,
    waiting: Vec<Batch<A>, A>,
}

impl<A: Allocator> Model for Growth<A> {
    ghost use Rattle.tl_publisher.specs.Grown.{Grown};

    ghost Value = { Grown };

    ghost view = { λ g.
        record { edge = g.edge; bundle = g.bundle.items; waiting = g.waiting.items } };
}

// Appends an entry to a bundle that has room for it.
fn push_reserved_entry<A: Allocator>(bundle: &mut Vec<u8, A>, entry: &[u8])
    requires room { vec_len bundle.old + (2 + length entry.now) ≤ vec_capacity bundle.old }
    requires short { IsShortEntry entry.now }
    ensures pushed { bundle.new.items ≡ bundle.old.items ++ bundled_entry entry.now }
    ensures room { vec_capacity bundle.old ≤ vec_capacity bundle.new }
{
    let front = bundle.extend_from_slice(&(entry.len() as u16).to_be_bytes());
    prove!(front.is_ok());
    let rest = bundle.extend_from_slice(entry);
    prove!(rest.is_ok());
}

impl<A: Allocator + Copy> Growth<A> {
    /// Returns the growth of an empty log.
    pub(crate) fn new(alloc: A) -> Growth<A>
        ensures { IsGrown sha256 0 [] result }
    {
        Growth {
            edge: Edge::new(alloc, Sha256Tree),
            bundle: Vec::new(alloc),
            waiting: Vec::new(alloc),
        }
    }

    /// Returns the growth of a log with these entries, none of which is published.
    pub(crate) fn of(alloc: A, entries: &[Vec<u8, A>]) -> Result<Growth<A>, AllocError>
        requires few { length entries.now < 2 ^ 32 }
        requires short { AreShortEntries (map vec_items entries.now) }
        ensures { IfOk result (IsGrown sha256 0 (map vec_items entries.now)) }
    {
        let mut growth = Growth::new(alloc);
        let mut at = 0;
        while at < entries.len() {
            at += growth.append_some(&entries[at..])?;
        }
        Ok(growth)
    }

    /// Returns the number of entries.
    pub(crate) fn size(&self) -> u64
        ensures { result ≡ self.now.edge.size }
    {
        self.edge.size()
    }

    /// Appends one entry. If allocation fails nothing changes.
    pub(crate) fn append(&mut self, entry: &[u8]) -> Result<(), AllocError>
        requires room { self.old.edge.size < 2 ^ 32 - 1 }
        requires short { IsShortEntry entry.now }
        ensures grown { (start : ℕ) (entries : List (List ℕ)) → IsGrown sha256 start entries
            self.old → OnOk result (IsGrown sha256 start (entries ++ entry.now ∷ []) self.new) }
        ensures size { OnOk result (self.new.edge.size ≡ self.old.edge.size + 1) }
        ensures unchanged { OnErr result (self.new ≡ self.old) }
    {
        self.waiting.reserve(1)?;
        self.bundle.reserve(2 + entry.len())?;
        let tiles = self.edge.append(entry)?;
        push_reserved_entry(&mut self.bundle, entry);
        if self.edge.size() % 256 == 0 {
            let alloc = *self.bundle.allocator();
            let bundle = mem::replace(&mut self.bundle, Vec::new(alloc));
            self.waiting.push_reserved(Batch { bundle, tiles });
        }
        Ok(())
    }

    /// Appends four entries, none of which may fill a bundle, as four calls of `append` do, but hashes them side by
    /// side. If allocation fails nothing changes.
    pub(crate) fn append_four(
        &mut self,
        first: &[u8],
        second: &[u8],
        third: &[u8],
        fourth: &[u8],
    ) -> Result<(), AllocError>
        requires room { self.old.edge.size < 2 ^ 32 - 4 }
        requires within { self.old.edge.size % 256 < 252 }
        requires short { IsShortEntry first.now × IsShortEntry second.now
            × IsShortEntry third.now × IsShortEntry fourth.now }
        ensures grown { (start : ℕ) (entries : List (List ℕ))
            → IsGrown sha256 start entries self.old → OnOk result (IsGrown sha256 start
            (entries ++ first.now ∷ second.now ∷ third.now ∷ fourth.now ∷ []) self.new) }
        ensures size { OnOk result (self.new.edge.size ≡ self.old.edge.size + 4) }
        ensures unchanged { OnErr result (self.new ≡ self.old) }
    {
        let bytes = first.len() + second.len() + third.len() + fourth.len();
        self.bundle.reserve(8 + bytes)?;
        self.edge.push_four(first, second, third, fourth)?;
        push_reserved_entry(&mut self.bundle, first);
        push_reserved_entry(&mut self.bundle, second);
        push_reserved_entry(&mut self.bundle, third);
        push_reserved_entry(&mut self.bundle, fourth);
        Ok(())
    }

    // Appends the first four entries, or only the first if there are fewer or they would fill a bundle. Returns how
    // many.
    fn append_some(&mut self, entries: &[Vec<u8, A>]) -> Result<usize, AllocError>
        requires some { 0 < length entries.now }
        requires small { self.old.edge.size + length entries.now < 2 ^ 32 }
        requires short { AreShortEntries (map vec_items entries.now) }
        ensures some { IfOk result (λ count. 0 < count) }
        ensures within { IfOk result (λ count. count ≤ length entries.now) }
        ensures grown { (start : ℕ) (before : List (List ℕ))
            → IsGrown sha256 start before self.old → IfOk result (λ count. IsGrown sha256 start
            (before ++ map vec_items (take count entries.now)) self.new) }
        ensures size { IfOk result (λ count. self.new.edge.size ≡ self.old.edge.size + count) }
    {
        if self.size() % 256 < 252 {
            if let [first, second, third, fourth, ..] = entries {
                self.append_four(first, second, third, fourth)?;
                return Ok(4);
            }
        }
        self.append(&entries[0])?;
        Ok(1)
    }

    /// Returns the size and tree hash of the entries.
    pub(crate) fn head(&self) -> Head
        ensures size { result.size ≡ self.now.edge.size }
        ensures root { (start : ℕ) (entries : List (List ℕ))
            → IsGrown sha256 start entries self.now → result.root ≡ tree_hash sha256 entries }
    {
        Head {
            size: self.edge.size(),
            root: self.edge.root(),
        }
    }

    /// Returns a growth of the same entries in which nothing waits to be published.
    pub(crate) fn fork(&self) -> Result<Growth<A>, AllocError>
        ensures grown { (start : ℕ) (entries : List (List ℕ)) → IsGrown
            sha256 start entries self.now → IfOk result (IsGrown sha256 (length entries) entries) }
        ensures size { IfOk result (λ g. g.edge.size ≡ self.now.edge.size) }
    {
        let alloc = *self.bundle.allocator();
        Ok(Growth {
            edge: self.edge.copy()?,
            bundle: Vec::from_slice(alloc, &self.bundle)?,
            waiting: Vec::new(alloc),
        })
    }

    /// Continues with `next`, which was forked from this growth and has grown since. If allocation fails nothing
    /// changes.
    pub(crate) fn join(&mut self, next: Growth<A>) -> Result<(), AllocError>
        ensures grown { (start : ℕ) (entries more : List (List ℕ))
            → IsGrown sha256 start entries self.old → IsGrown sha256 (length entries)
            (entries ++ more) next → OnOk result (IsGrown sha256 start (entries ++ more) self.new) }
        ensures size { OnOk result (self.new.edge.size ≡ next.edge.size) }
        ensures unchanged { OnErr result (self.new ≡ self.old) }
    {
        let Growth {
            edge,
            bundle,
            mut waiting,
        } = next;
        self.waiting.append(&mut waiting)?;
        self.edge = edge;
        self.bundle = bundle;
        Ok(())
    }

    /// Forgets the bundles and tiles that waited, since they were published.
    pub(crate) fn settle(&mut self)
        ensures settled { (start : ℕ) (entries : List (List ℕ)) → IsGrown
            sha256 start entries self.old → IsGrown sha256 (length entries) entries self.new }
        ensures size { self.new.edge.size ≡ self.old.edge.size }
    {
        self.waiting.clear();
    }
}

// Copies the bytes into a text that can be shared.
fn shared<A: Allocator + Copy>(alloc: A, bytes: &Vec<u8, A>) -> Result<Text<A>, AllocError>
    ensures { IfOk result (λ text. text ≡ bytes.now.items) }
{
    let bytes = bytes.clone()?;
    Text::new(alloc, bytes)
}

// Appends the bytes of the tiles to `out`, as texts that can be shared.
fn put_tiles<A: Allocator + Copy>(
    alloc: A,
    tiles: &Vec<(Tile, Vec<u8, A>), A>,
    out: &mut Vec<Text<A>, A>,
) -> Result<(), AllocError>
    ensures { OnOk result
        (out.new.items ≡ out.old.items ++ map (λ t. vec_items t.1) tiles.now.items) }
{
    for tile in tiles {
        out.push(shared(alloc, &tile.1)?)?;
    }
    Ok(())
}

impl<A: Allocator + Copy> Batch<A> {
    // Appends the bundle and the tiles of this batch to `out`, as texts that can be shared.
    fn put(&self, alloc: A, out: &mut Vec<Text<A>, A>) -> Result<(), AllocError>
        ensures { OnOk result (out.new.items ≡ out.old.items ++ self.now) }
    {
        out.push(shared(alloc, &self.bundle)?)?;
        put_tiles(alloc, &self.tiles, out)?;
        Ok(())
    }
}

// Returns the texts that wait to be published, in order.
fn texts_in<A: Allocator + Copy>(
    alloc: A,
    waiting: &Vec<Batch<A>, A>,
) -> Result<Vec<Text<A>, A>, AllocError>
    ensures { IfOk result (λ texts. texts.items ≡ texts_of waiting.now.items) }
{
    let mut texts = Vec::new(alloc);
    for batch in waiting {
        batch.put(alloc, &mut texts)?;
    }
    Ok(texts)
}

// Returns the bytes of the partial tile of a level, or none if there is none.
fn partial_bytes<A: Allocator + Copy>(
    alloc: A,
    edge: &Edge<Sha256Tree, A>,
    level: u32,
) -> Result<Vec<u8, A>, AllocError>
    requires { level < 8 }
    ensures { (entries : List (List ℕ)) → IsEdgeOf edge.now sha256 entries → IfOk result
        (λ bytes. bytes.items ≡ tile_text sha256 (partial_tile (length entries) level) entries) }
{
    match edge.partial(level)? {
        Some((_tile, bytes)) => Ok(bytes),
        None => Ok(Vec::new(alloc)),
    }
}

// Returns the bytes of the partial tile of each level.
fn partial_tiles<A: Allocator + Copy>(
    alloc: A,
    edge: &Edge<Sha256Tree, A>,
) -> Result<Vec<Vec<u8, A>, A>, AllocError>
    ensures { (entries : List (List ℕ)) → IsEdgeOf edge.now sha256 entries → IfOk result
        (λ tiles. (level : ℕ) → level < 8 → slice_index_or (map vec_items tiles.items) level []
        ≡ tile_text sha256 (partial_tile (length entries) level) entries) }
{
    let mut tiles = Vec::new(alloc);
    for level in 0..8u32 {
        tiles.push(partial_bytes(alloc, edge, level)?)?;
    }
    Ok(tiles)
}

impl<A: Allocator + Copy> Growth<A> {
    /// Returns what a publication of these entries under this note adds to the board.
    pub(crate) fn change(&self, note: Vec<u8, A>) -> Result<Change<A>, AllocError>
        ensures { (start : ℕ) (entries : List (List ℕ))
            → IsGrown sha256 start entries self.now → IfOk result
            (λ c. (c.added ≡ filled_from sha256 entries start (length entries - start))
            × IsFaceOf sha256 (record { entries = entries; note = note.items }) c.face) }
    {
        let alloc = *self.bundle.allocator();
        let added = texts_in(alloc, &self.waiting)?;
        let sheet = Sheet {
            size: self.edge.size(),
            root: self.edge.root(),
            tiles: partial_tiles(alloc, &self.edge)?,
            bundle: self.bundle.clone()?,
            note,
        };
        let face = Face::new(alloc, sheet)?;
        Ok(Change { added, face })
    }
}
