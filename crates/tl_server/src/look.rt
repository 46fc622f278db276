//! Looking for a bundle.

ghost use Rattle.tl_server.specs.Adding.{LooksOnce};
ghost use Rattle.tl_server.specs.Inner.Places.{IsLooked};
ghost use Rattle.tl_server.specs.Log.{LooksUp};

use std::alloc::Allocator;
use tl_publisher::{BoardReader, GetFault};
use tl_tile::Resource;

/// The result of looking for a bundle.
#[derive(Drop)]
pub(crate) enum Looked<A: Allocator> {
    /// Reading the bundle failed.
    Failed,
    /// There is no such bundle.
    Nothing,
    /// Its bytes and its width.
    Bytes(Vec<u8, A>, u32),
}

/// Looks for a bundle on the board, which has the partial bundle of each publication.
pub(crate) fn look_on_board<A: Allocator, B: Allocator>(
    alloc: A,
    board: &mut BoardReader<B>,
    bundle: u64,
    width: u32,
) -> Looked<A>
    ensures { IsLooked (LooksOnce (LooksUp A board.old board.new) bundle width) result }
{
    let resource = Resource::Entries {
        index: bundle,
        width,
    };
    match board.get(alloc, &resource) {
        Ok(Some(bytes)) => Looked::Bytes(bytes, width),
        Ok(None) | Err(GetFault::Gone) => Looked::Nothing,
        Err(GetFault::OutOfMemory) => Looked::Failed,
    }
}
