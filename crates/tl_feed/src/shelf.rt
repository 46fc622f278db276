//! A shelf as a source of a log's resources.

use std::alloc::Allocator;
use tl_archive::Shelf;
use tl_client::ResourceSource;
use tl_tile::{Resource, SourceFault};

/// A shelf as a source of resources: each is read when it is asked for. `Unavailable` if the shelf doesn't have it,
/// or fails.
#[derive(Drop)]
pub struct ShelfReader<S>(pub S);

impl<S: Shelf> ResourceSource for ShelfReader<S> {
    ghost use Rattle.std.specs.Prelude.{◌≡◌, ◌⊎◌, None, Some, true};
    ghost use Rattle.tl_archive.specs.declared.fault.ShelfFault.{ShelfFault};

    ghost may_answer = { λ s r text. S.is_honest ≡ true → (S.kept s.0).held r ≡ Some text };

    ghost may_lack = { λ s r. (S.is_honest ≡ true → (S.kept s.0).held r ≡ None)
        ⊎ ((fault : ShelfFault) × S.may_fail s.0 r fault) };

    /// Returns the bytes of the resource on the shelf.
    fn get<A: Allocator>(&self, alloc: A, resource: &Resource) -> Result<Vec<u8, A>, SourceFault> {
        match self.0.read(alloc, resource) {
            Ok(Some(bytes)) => Ok(bytes),
            Ok(None) | Err(_) => Err(SourceFault::Unavailable),
        }
    }
}
