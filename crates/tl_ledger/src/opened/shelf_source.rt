//! What was read of a shelf, as a source of resources.

ghost use Rattle.std.specs.Prelude.{◌≡◌, ◌↔◌, ◌∷◌, ◌++◌, [], IsTrue, Contains, MatchOption, OnOk};
ghost use Rattle.tl_ledger.specs.Inner.Reads.{LacksItem, items_of};

use std::alloc::{AllocFailed, Allocator};
use std::marker::Model;
use tl_client::ResourceSource;
use tl_tile::{Resource, SourceFault};

// Reports whether two resources are the same.
fn is_same(a: &Resource, b: &Resource) -> bool
    ensures { IsTrue result ↔ (a.now ≡ b.now) }
{
    match (a, b) {
        (Resource::Tile(a), Resource::Tile(b)) => {
            a.level == b.level && a.index == b.index && a.width == b.width
        }
        (
            Resource::Entries { index, width },
            Resource::Entries {
                index: other_index,
                width: other_width,
            },
        ) => *index == *other_index && *width == *other_width,
        (Resource::Checkpoint, Resource::Checkpoint) => true,
        _ => false,
    }
}

// Returns the bytes of a resource if it is among these.
fn text_in<'i, A: Allocator>(
    items: &'i [(Resource, Vec<u8, A>)],
    resource: &Resource,
) -> Option<&'i [u8]>
    ensures { MatchOption result (LacksItem (items_of items.now) resource.now)
        (λ text. Contains (items_of items.now) (resource.now, text.now)) }
{
    for item in items {
        if is_same(&item.0, resource) {
            return Some(item.1.as_slice());
        }
    }
    None
}

/// The resources that were read of a shelf, as a source. Each is read only once, so all checks see the same bytes.
/// Contracts see the list of resources with their bytes.
#[derive(Drop)]
pub(crate) struct ShelfSource<A: Allocator> {
    items: Vec<(Resource, Vec<u8, A>), A>,
}

impl<A: Allocator> Model for ShelfSource<A> {
    ghost use Rattle.std.specs.Prelude.{List};
    ghost use Rattle.tl_archive.specs.Shelves.{Item};
    ghost use Rattle.tl_ledger.specs.Inner.Reads.{items_of};

    ghost Value = { List Item };

    ghost view = { λ s. items_of s.items.items };
}

impl<A: Allocator> ShelfSource<A> {
    /// Returns an empty source.
    pub(crate) fn new(alloc: A) -> ShelfSource<A>
        ensures { result ≡ [] }
    {
        ShelfSource {
            items: Vec::new(alloc),
        }
    }

    /// Appends a resource with its bytes.
    pub(crate) fn push(
        &mut self,
        resource: Resource,
        bytes: Vec<u8, A>,
    ) -> Result<(), AllocFailed<(Resource, Vec<u8, A>)>>
        ensures { OnOk result (self.new ≡ self.old ++ (resource, bytes.items) ∷ []) }
    {
        self.items.push((resource, bytes))
    }

    /// Returns the bytes of a resource if it was read.
    pub(crate) fn text_of(&self, resource: &Resource) -> Option<&[u8]>
        ensures { MatchOption result (LacksItem self.now resource.now)
            (λ text. Contains self.now (resource.now, text.now)) }
    {
        text_in(&self.items, resource)
    }
}

impl<A: Allocator> ResourceSource for ShelfSource<A> {
    ghost may_answer = { λ s r text. Contains s (r, text) };

    ghost may_lack = { λ s r. LacksItem s r };

    /// Returns a copy of the bytes that were read, or `Unavailable` if there are none.
    fn get<B: Allocator>(&self, alloc: B, resource: &Resource) -> Result<Vec<u8, B>, SourceFault> {
        match self.text_of(resource) {
            Some(text) => Ok(Vec::from_slice(alloc, text)?),
            None => Err(SourceFault::Unavailable),
        }
    }
}
