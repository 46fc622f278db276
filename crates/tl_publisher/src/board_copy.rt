//! One copy of the board, and how it changes.
ghost use Rattle.std.specs.Prelude.{◌≡◌, ℕ, [], None, Some, take, IfOk, option_map, if◌then◌else◌, ◌*◌};
ghost use Rattle.tl_tile.specs.declared.resource.Resource.TheVariants as resource;
ghost use Rattle.tl_log.specs.Resources as resources;
ghost use Rattle.tl_publisher.specs.Boards as boards;
ghost use Rattle.tl_publisher.specs.Stages as stages;
ghost use Rattle.tl_publisher.specs.Inner.Needs.{IsRising};

use crate::face::{Face, Sheet};
use crate::lookup::{bundle_of, front, front_len, had_bundle, had_tile, tile_of};
use crate::past::Past;
use crate::text::{Text, copied};
use left_right::Absorb;
use std::alloc::{AllocError, Allocator};
use std::marker::Model;
use tl_hash::Head;
use tl_tile::{Resource, Tile};

/// One of the two versions of a board. It shows the first `count` texts, the first `turns` sizes and `face`. Texts, a
/// size and `next` that a change has staged after them aren't shown yet.
#[derive(Drop)]
pub struct BoardCopy<A: Allocator> {
    items: Vec<Text<A>, A>,
    count: usize,
    sizes: Vec<u64, A>,
    turns: usize,
    face: Option<Face<A>>,
    next: Option<Face<A>>,
    past: Past,
}

impl<A: Allocator> Model for BoardCopy<A> {
    ghost use Rattle.std.specs.Prelude.{◌≤◌, length};
    ghost use Rattle.tl_publisher.specs.Stages as stages;

    ghost Value = { stages.Held };

    ghost view = { λ s. record {
      items = s.items.items;
      count = s.count;
      sizes = s.sizes.items;
      turns = s.turns;
      face = s.face;
      next = s.next;
      past = s.past;
    } };

    ghost invariant = { λ s. (s.count ≤ length s.items.items) × (s.turns ≤ length s.sizes.items) };
}

/// What a publication adds: the full bundles and tiles, and the face.
#[derive(Drop)]
pub struct Change<A: Allocator> {
    pub(crate) added: Vec<Text<A>, A>,
    pub(crate) face: Face<A>,
}

impl<A: Allocator> Model for Change<A> {
    ghost use Rattle.tl_publisher.specs.Stages as stages;

    ghost Value = { stages.Change };

    ghost view = { λ c. record { added = c.added.items; face = c.face } };
}

/// One step of a change. With a change it stages that change; without one it shows what was staged, as this history.
#[derive(Drop)]
pub struct Step<A: Allocator> {
    change: Option<Change<A>>,
    past: Past,
}

impl<A: Allocator> Model for Step<A> {
    ghost use Rattle.tl_publisher.specs.Stages as stages;

    ghost Value = { stages.Step };

    ghost view = { λ s. record { change = s.change; past = s.past } };
}

impl<A: Allocator> Step<A> {
    pub(crate) fn new(change: Option<Change<A>>, past: Past) -> Step<A>
        ensures { result ≡ record { change = change; past = past } }
    {
        Step { change, past }
    }
}

// Returns the bytes of a tile if some publication needed it.
fn found_tile<'a, A: Allocator>(
    items: &'a [Text<A>],
    sizes: &[u64],
    sheet: &'a Sheet<A>,
    tile: Tile,
) -> Option<&'a [u8]>
    requires { IsRising sizes.now }
    ensures { option_map (λ t. t.now) result ≡ if resources.was_needed (resource.Tile tile) sizes.now
        then Some (take (32 * tile.width)
        (boards.tile_around items.now sheet.now tile.level tile.index)) else None }
{
    if !had_tile(sizes, tile) {
        return None;
    }
    let bytes = tile_of(items, sheet, tile.level, tile.index);
    Some(front(bytes, 32 * tile.width as usize))
}

// Returns the bytes of a bundle if some publication needed it.
fn found_bundle<'a, A: Allocator>(
    items: &'a [Text<A>],
    sizes: &[u64],
    sheet: &'a Sheet<A>,
    index: u64,
    width: u32,
) -> Option<&'a [u8]>
    requires { IsRising sizes.now }
    ensures { option_map
        (λ t. t.now) result ≡ if resources.was_needed (resource.Entries index width) sizes.now
        then Some (take (boards.front_length width (boards.bundle_around items.now sheet.now index))
        (boards.bundle_around items.now sheet.now index)) else None }
{
    if !had_bundle(sizes, index, width) {
        return None;
    }
    let bytes = bundle_of(items, sheet, index);
    Some(front(bytes, front_len(bytes, width)))
}

impl<A: Allocator> BoardCopy<A> {
    /// Returns the bytes that are shown for a resource.
    pub(crate) fn found(&self, resource: Resource) -> Option<&[u8]>
        requires { IsRising (stages.visible self.now).sizes }
        ensures { option_map (λ t. t.now) result ≡ boards.found (stages.visible self.now) resource }
    {
        let Some(face) = &self.face else {
            return None;
        };
        let sheet = face.sheet();
        let items = &self.items[..self.count];
        let sizes = &self.sizes[..self.turns];
        match resource {
            Resource::Tile(tile) => found_tile(items, sizes, sheet, tile),
            Resource::Entries { index, width } => found_bundle(items, sizes, sheet, index, width),
            Resource::Checkpoint => Some(sheet.note()),
        }
    }

    /// Returns the size and root that are shown, or `None` if nothing was published.
    pub(crate) fn head(&self) -> Option<Head>
        ensures { option_map (λ h. (h.size, h.root)) result ≡ boards.face_head self.now.face }
    {
        let Some(face) = &self.face else {
            return None;
        };
        let sheet = face.sheet();
        Some(Head {
            size: sheet.size(),
            root: sheet.root(),
        })
    }

    /// Returns the history that this copy shows.
    pub(crate) fn past(&self) -> &Past
        ensures { result.now ≡ self.now.past }
    {
        &self.past
    }

    pub(crate) fn empty(alloc: A, past: &Past) -> BoardCopy<A>
    where
        A: Copy,
        ensures { result ≡ record {
          items
              = [];
          count = 0;
          sizes = [];
          turns = 0;
          face = None;
          next = None;
          past = past.now;
        } }
    {
        BoardCopy {
            items: Vec::new(alloc),
            count: 0,
            sizes: Vec::new(alloc),
            turns: 0,
            face: None,
            next: None,
            past: past.again(),
        }
    }
}

impl<A: Allocator + Copy> Absorb<Step<A>> for BoardCopy<A> {
    type State = BoardCopy<A>;

    ghost state = { λ b. b };

    ghost applied = { stages.moved };

    fn absorb_first(&mut self, step: &Step<A>, _other: &BoardCopy<A>) -> Result<(), AllocError> {
        match &step.change {
            Some(change) => {
                let face = change.face.again()?;
                let size = face.sheet().size();
                let mut added = copied(&change.added)?;
                self.items.reserve(added.len())?;
                self.sizes.reserve(1)?;
                self.items.truncate(self.count);
                self.items.append(&mut added)?;
                self.sizes.truncate(self.turns);
                self.sizes.push_reserved(size);
                self.next = Some(face);
            }
            None => {
                self.count = self.items.len();
                self.turns = self.sizes.len();
                self.face = self.next.take();
                self.past = step.past.again();
            }
        }
        Ok(())
    }
}
