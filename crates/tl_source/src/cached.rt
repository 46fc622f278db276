//! A source with a cache of tiles before it.

ghost use Rattle.std.specs.Prelude.{◌≡◌};
ghost use Rattle.tl_tile.specs.Path.{IsResource};
ghost use Rattle.tl_source.specs.Caches.{may_answer_either, may_lack_both};

use crate::ahead::AsksHost;
use crate::host::LogHost;
use std::alloc::{Allocator, Global};
use std::marker::Model;
use tl_client::ResourceSource;
use tl_folder::has_path;
use tl_tile::{Resource, SourceFault};

/// A source of a log's resources with a cache of its tiles before it. Contracts see the cache and the source.
#[derive(Drop)]
pub struct CachedSource<'s, C: ResourceSource, S: ResourceSource> {
    alloc: Global,
    cache: &'s C,
    source: &'s S,
}

impl<'s, C: ResourceSource, S: ResourceSource> Model for CachedSource<'s, C, S> {
    ghost Value = { C × S };

    ghost view = { λ s. (s.cache.now, s.source.now) };
}

impl<'s, C: ResourceSource, S: ResourceSource> CachedSource<'s, C, S> {
    /// Returns the source with this cache of tiles before it. It reads nothing yet.
    pub fn new(alloc: Global, cache: &'s C, source: &'s S) -> CachedSource<'s, C, S>
        ensures { result ≡ (cache.now, source.now) }
    {
        CachedSource {
            alloc,
            cache,
            source,
        }
    }
}

impl<C: ResourceSource, S: ResourceSource + AsksHost> AsksHost for CachedSource<'_, C, S> {
    fn host(&self) -> Option<&LogHost<'_>> {
        self.source.host()
    }

    /// A tile that the cache has is not asked of the host.
    fn asks_for(&self, resource: &Resource) -> bool {
        match resource {
            Resource::Tile(_) if has_path(resource) => {
                self.cache.get(self.alloc, resource).is_err() && self.source.asks_for(resource)
            }
            _ => self.source.asks_for(resource),
        }
    }
}

impl<C: ResourceSource, S: ResourceSource> ResourceSource for CachedSource<'_, C, S> {
    ghost may_answer = { λ s. may_answer_either (C.may_answer s.0) (S.may_answer s.1) };

    ghost may_lack = { λ s. may_lack_both (C.may_lack s.0) (S.may_lack s.1) };

    /// Returns a tile from the cache or, if the cache lacks it, from the source; any other resource from the source.
    fn get<A: Allocator>(&self, alloc: A, resource: &Resource) -> Result<Vec<u8, A>, SourceFault> {
        match resource {
            Resource::Tile(_) => match self.cache.get(self.alloc, resource) {
                Ok(bytes) => Ok(Vec::from_slice(alloc, bytes.as_slice())?),
                Err(SourceFault::OutOfMemory) => Err(SourceFault::OutOfMemory),
                Err(SourceFault::Unavailable) => self.source.get(alloc, resource),
            },
            _ => self.source.get(alloc, resource),
        }
    }
}
