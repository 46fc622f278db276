//! A source that takes full tiles and bundles in place of partial ones that are gone.

ghost use Rattle.std.specs.Prelude.{◌≡◌, ◌*◌, ◌<◌, ◌≤◌, ℕ, IfErr, IfOk, MatchOption, take};
ghost use Rattle.tl_hash.specs.Bytes.{Bytes};
ghost use Rattle.tl_source.specs.Fulls.{IsFrontBundle, IsFrontOf, full_of, may_answer_front};
ghost use Rattle.tl_tile.specs.Path.{IsResource};
ghost use Rattle.tl_tile.specs.declared.source.SourceFault.TheVariants.{Unavailable};

use crate::ahead::AsksHost;
use crate::host::LogHost;
use crate::lack::{Lack, LastLack, NamesLack};
use std::alloc::{AllocError, Allocator, Global};
use std::marker::Model;
use tl_client::ResourceSource;
use tl_device::DeviceFault;
use tl_tile::{BundleFault, Resource, SourceFault, Tile, read_bundle, write_bundle};

/// A source that answers with the beginning of a full tile or bundle if the partial one is gone, as a log may remove
/// it once the full one is there (C2SP tlog-tiles, "Partial Tiles"). Contracts see the source.
#[derive(Drop)]
pub struct FullSource<'s, S: ResourceSource + NamesLack> {
    alloc: Global,
    source: &'s S,
    last: LastLack,
}

impl<'s, S: ResourceSource + NamesLack> Model for FullSource<'s, S> {
    ghost Value = { S };

    ghost view = { λ s. s.source.now };
}

// Returns the full tile or bundle of a partial one, or `None` for any other resource.
fn full_resource(resource: &Resource) -> Option<Resource>
    requires { IsResource resource.now }
    ensures { MatchOption result (Unit {0})
        (λ full. (full ≡ full_of resource.now) × IsResource full) }
{
    match resource {
        Resource::Tile(tile) if tile.width < 256 => Some(Resource::Tile(Tile {
            level: tile.level,
            index: tile.index,
            width: 256,
        })),
        Resource::Entries { index, width } if *width < 256 => Some(Resource::Entries {
            index: *index,
            width: 256,
        }),
        _ => None,
    }
}

// Reports whether the resource isn't there, by the reason for which the source lacked it.
fn is_gone(lack: Option<Lack>) -> bool {
    match lack {
        Some(lack) => matches!(
            lack.why,
            DeviceFault::NotThere | DeviceFault::Status(403 | 404 | 410)
        ),
        None => false,
    }
}

// Returns the first `width` entries of a bundle of 256, as a bundle; other bytes as they are.
fn front_entries(alloc: Global, whole: &[u8], width: u32) -> Result<Vec<u8>, AllocError>
    requires some { 0 < width }
    requires most { width ≤ 256 }
    ensures { IfOk result (λ text. IsFrontBundle width whole.now text.items) }
{
    let entries = match read_bundle(alloc, whole, 256) {
        Ok(entries) => entries,
        Err(BundleFault::OutOfMemory) => return Err(AllocError),
        Err(_) => return Vec::from_slice(alloc, whole),
    };
    match write_bundle(alloc, &entries[..width as usize]) {
        Ok(text) => Ok(text),
        Err(_) => Err(AllocError),
    }
}

// Returns the first `width` hashes of a full tile.
fn front_hashes(whole: &[u8], width: u32) -> &[u8]
    requires { width ≤ 256 }
    ensures { result.now ≡ take (32 * width) whole.now }
{
    let len = 32 * width as usize;
    if len < whole.len() {
        &whole[..len]
    } else {
        whole
    }
}

// Returns the part of a full tile's or bundle's bytes that a partial one has.
fn front_of<A: Allocator>(
    alloc: A,
    own: Global,
    resource: &Resource,
    whole: &[u8],
) -> Result<Vec<u8, A>, AllocError>
    requires { IsResource resource.now }
    ensures { IfOk result (λ text. IsFrontOf resource.now whole.now text.items) }
{
    match resource {
        Resource::Tile(tile) => Vec::from_slice(alloc, front_hashes(whole, tile.width)),
        Resource::Entries { index: _, width } => {
            let front = front_entries(own, whole, *width)?;
            Vec::from_slice(alloc, front.as_slice())
        }
        Resource::Checkpoint => Vec::from_slice(alloc, whole),
    }
}

impl<'s, S: ResourceSource + NamesLack> FullSource<'s, S> {
    /// Returns the source with its full tiles and bundles in place of partial ones that are gone. It reads nothing
    /// yet.
    pub fn new(alloc: Global, source: &'s S) -> FullSource<'s, S>
        ensures { result ≡ source.now }
    {
        FullSource {
            alloc,
            source,
            last: LastLack::new(),
        }
    }

    // Returns the beginning of the full tile or bundle if the partial one is gone.
    fn get_front<A: Allocator>(
        &self,
        alloc: A,
        resource: &Resource,
    ) -> Result<Vec<u8, A>, SourceFault>
        requires own { IsResource resource.now }
        requires lacks { S.may_lack self.now resource.now }
        ensures text { IfOk result (λ text. may_answer_front
            (S.may_answer self.now) (S.may_lack self.now) resource.now text.items) }
        ensures lacks { IfErr result (λ fault. fault ≡ Unavailable
            → S.may_lack self.now resource.now) }
    {
        if !is_gone(self.last.get()) {
            return Err(SourceFault::Unavailable);
        }
        let Some(full) = full_resource(resource) else {
            return Err(SourceFault::Unavailable);
        };
        let whole = self.source.get(self.alloc, &full)?;
        let text = front_of(alloc, self.alloc, resource, whole.as_slice())?;
        self.last.keep(None);
        Ok(text)
    }
}

impl<S: ResourceSource + NamesLack> NamesLack for FullSource<'_, S> {
    fn lack(&self) -> Option<Lack> {
        self.last.get()
    }
}

impl<S: ResourceSource + NamesLack + AsksHost> AsksHost for FullSource<'_, S> {
    fn host(&self) -> Option<&LogHost<'_>> {
        self.source.host()
    }

    fn asks_for(&self, resource: &Resource) -> bool {
        self.source.asks_for(resource)
    }
}

impl<S: ResourceSource + NamesLack> ResourceSource for FullSource<'_, S> {
    ghost may_answer = { λ s. may_answer_front (S.may_answer s) (S.may_lack s) };

    ghost may_lack = { λ s. S.may_lack s };

    /// Returns what the source has or, if a partial tile or bundle is gone, the beginning of the full one.
    fn get<A: Allocator>(&self, alloc: A, resource: &Resource) -> Result<Vec<u8, A>, SourceFault> {
        let outcome = self.source.get(self.alloc, resource);
        self.last.keep(self.source.lack());
        match outcome {
            Ok(bytes) => Ok(Vec::from_slice(alloc, bytes.as_slice())?),
            Err(SourceFault::OutOfMemory) => Err(SourceFault::OutOfMemory),
            Err(SourceFault::Unavailable) => self.get_front(alloc, resource),
        }
    }
}
