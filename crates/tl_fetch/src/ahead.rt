//! Asks for bundles and tiles before their turn.

ghost use Rattle.std.specs.Prelude.{◌≡◌, ◌<◌, ◌*◌, All, IfOk, OnOk};
ghost use Rattle.tl_fetch.specs.Inner.Ahead.{IsOfLog};

use std::alloc::{AllocError, Allocator, Global};
use tl_client::Head;
use tl_source::{AsksHost, HostClient, Requests, Window};
use tl_tile::{FetchedTiles, Resource, Tile, bundle_width};

// Reports whether a tile is among the kept ones.
fn is_kept<A: Allocator>(kept: &FetchedTiles<A>, tile: Tile) -> bool {
    kept.as_slice().iter().any(|one| one.0 == tile)
}

// Appends a bundle of a log of this size, and the tile of level 0 over it unless it is known.
fn push_bundle<S: AsksHost, A: Allocator>(
    wanted: &mut Vec<Resource>,
    source: &S,
    size: u64,
    bundle: u64,
    kept: &FetchedTiles<A>,
) -> Result<(), AllocError>
    requires within { 256 * bundle < size }
    requires others { All (IsOfLog size) wanted.old.items }
    ensures { OnOk result (All (IsOfLog size) wanted.new.items) }
{
    let width = bundle_width(size, bundle);
    wanted.push(Resource::Entries {
        index: bundle,
        width,
    })?;
    let tile = Tile {
        level: 0,
        index: bundle,
        width,
    };
    if !is_kept(kept, tile) && source.asks_for(&Resource::Tile(tile)) {
        wanted.push(Resource::Tile(tile))?;
    }
    Ok(())
}

// What to ask for next, and the first bundle after it.
#[derive(Drop)]
struct Wanted {
    resources: Vec<Resource>,
    end: u64,
}

// Returns the bundles of a log of this size, from the one with this entry on, and the tiles of level 0 over them that
// aren't known. They are at most as many as requests are sent at once, or one tile more, and none if requests are
// sent one by one.
fn wanted_from<S: AsksHost, A: Allocator>(
    alloc: Global,
    source: &S,
    size: u64,
    from: u64,
    at_once: u16,
    kept: &FetchedTiles<A>,
) -> Result<Wanted, AllocError>
    requires { from < size }
    ensures { IfOk result (λ wanted. All (IsOfLog size) wanted.resources.items) }
{
    let mut resources = Vec::new(alloc);
    let first = from / 256;
    let end = ((size - 1) / 256 + 1).min(first + u64::from(at_once));
    for bundle in first..end {
        if at_once < 2 || resources.len() >= usize::from(at_once) {
            return Ok(Wanted {
                resources,
                end: bundle,
            });
        }
        push_bundle(&mut resources, source, size, bundle, kept)?;
    }
    Ok(Wanted { resources, end })
}

/// A source of a log, and what was got from it ahead.
#[derive(Drop)]
pub(crate) struct Ahead<'s, S: AsksHost> {
    source: &'s S,
    /// The source, with what was got ahead.
    pub(crate) window: Window<'s, S>,
    end: u64,
}

impl<'s, S: AsksHost> Ahead<'s, S> {
    /// Returns the source with nothing got ahead.
    pub(crate) fn new(alloc: Global, source: &'s S) -> Ahead<'s, S>
        ensures source { result.source.now ≡ source.now }
        ensures window { result.window ≡ source.now }
    {
        Ahead {
            source,
            window: Window::new(alloc, source),
            end: 0,
        }
    }

    /// Gets the next bundles and the tiles over them ahead, unless the bundle with this entry was already asked for.
    /// If memory runs out, it gets nothing more ahead.
    pub(crate) fn reach<H: HostClient, A: Allocator>(
        &mut self,
        requests: &Requests<'_, H>,
        head: &Head,
        from: u64,
        kept: &FetchedTiles<A>,
    )
        requires { from < head.now.size }
        ensures { self.new.window ≡ self.old.window }
    {
        if from / 256 < self.end {
            return;
        }
        let wanted = wanted_from(
            requests.alloc,
            self.source,
            head.size,
            from,
            requests.at_once,
            kept,
        );
        let Ok(Wanted { resources, end }) = wanted else {
            return;
        };
        self.window.get_ahead(requests, resources.as_slice());
        self.end = end;
    }
}
