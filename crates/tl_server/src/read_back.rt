//! A shelf that shows a log, and the bundle that was read back from it last.

ghost use Rattle.std.specs.Prelude.{◌≡◌, ◌<◌, ◌≤◌, ◌^◌, IfSome};
ghost use Rattle.tl_server.specs.Adding.{LooksOnce, LooksTwice, bundle_answer};
ghost use Rattle.tl_server.specs.Inner.Places.{IsLooked, ReadsBundle};
ghost use Rattle.tl_server.specs.Log.{ReadsShelf};

use crate::look::Looked;
use std::alloc::Allocator;
use std::marker::Model;
use tl_archive::Shelf;
use tl_tile::Resource;

/// A bundle as it was read.
#[derive(Drop)]
struct ReadBundle<A: Allocator> {
    index: u64,
    width: u32,
    bytes: Vec<u8, A>,
}

/// A shelf that shows a log. The bundle that was read last to find a posted entry is kept until it is forgotten, so
/// that a bundle with many of them is read once. Contracts see the shelf.
#[derive(Drop)]
pub struct ReadBack<S: Shelf, A: Allocator> {
    shelf: S,
    last: Option<ReadBundle<A>>,
}

impl<S: Shelf, A: Allocator> Model for ReadBack<S, A> {
    ghost Value = { S };

    ghost view = { λ r. r.shelf };

    ghost invariant = { λ r. IfSome r.last (λ last. ReadsBundle (ReadsShelf A S.is_honest
        (S.kept r.shelf).held (S.may_fail r.shelf)) last.index last.width
        (bundle_answer last.bytes.items)) };
}

impl<S: Shelf, A: Allocator> ReadBack<S, A> {
    /// Returns the shelf with no bundle kept. It reads nothing yet.
    pub fn new(shelf: S) -> ReadBack<S, A>
        ensures { result ≡ shelf }
    {
        ReadBack { shelf, last: None }
    }

    /// Returns the shelf.
    pub fn shelf(&self) -> &S
        ensures { result.now ≡ self.now }
    {
        &self.shelf
    }

    /// Forgets the bundle that is kept: the next one is read.
    pub fn forget(&mut self)
        ensures { self.new ≡ self.old }
    {
        self.last = None;
    }

    // Returns the bytes of this bundle if it was read last. No bundle is kept afterwards.
    fn take(&mut self, index: u64, width: u32) -> Option<Vec<u8, A>>
        ensures same { self.new ≡ self.old }
        ensures read { IfSome result (λ bytes. ReadsBundle (ReadsShelf A S.is_honest
            (S.kept self.old).held (S.may_fail self.old)) index width
            (bundle_answer bytes.items)) }
    {
        let last = self.last.take()?;
        if last.index == index && last.width == width {
            Some(last.bytes)
        } else {
            None
        }
    }

    // Looks for one bundle: the one that was read last, or one of the shelf.
    fn look_once(&mut self, alloc: A, bundle: u64, width: u32) -> Looked<A>
        requires index { bundle < 2 ^ 56 }
        requires some { 0 < width }
        requires most { width ≤ 256 }
        ensures same { self.new ≡ self.old }
        ensures looked { IsLooked (LooksOnce (ReadsShelf A S.is_honest (S.kept self.old).held
            (S.may_fail self.old)) bundle width) result }
    {
        if let Some(bytes) = self.take(bundle, width) {
            return Looked::Bytes(bytes, width);
        }
        let resource = Resource::Entries {
            index: bundle,
            width,
        };
        match self.shelf.read(alloc, &resource) {
            Ok(Some(bytes)) => Looked::Bytes(bytes, width),
            Ok(None) => Looked::Nothing,
            Err(_) => Looked::Failed,
        }
    }
}

impl<S: Shelf, A: Allocator + Copy> ReadBack<S, A> {
    /// Looks for a bundle on the shelf, and for the full one if that is partial and isn't there: a shelf may drop a
    /// partial bundle once it has the full one. No bundle is kept afterwards.
    pub(crate) fn look(&mut self, alloc: A, bundle: u64, width: u32) -> Looked<A>
        requires index { bundle < 2 ^ 56 }
        requires some { 0 < width }
        requires most { width ≤ 256 }
        ensures same { self.new ≡ self.old }
        ensures looked { IsLooked (LooksTwice (ReadsShelf A S.is_honest (S.kept self.old).held
            (S.may_fail self.old)) bundle width) result }
    {
        match self.look_once(alloc, bundle, width) {
            Looked::Failed => Looked::Failed,
            Looked::Bytes(bytes, width) => Looked::Bytes(bytes, width),
            Looked::Nothing => {
                if width < 256 {
                    self.look_once(alloc, bundle, 256)
                } else {
                    Looked::Nothing
                }
            }
        }
    }

    /// Keeps the bundle with this index, if it was found.
    pub(crate) fn keep(&mut self, index: u64, looked: Looked<A>)
        requires { IsLooked (ReadsBundle (ReadsShelf A S.is_honest (S.kept self.old).held
            (S.may_fail self.old)) index) looked }
        ensures { self.new ≡ self.old }
    {
        if let Looked::Bytes(bytes, width) = looked {
            self.last = Some(ReadBundle {
                index,
                width,
                bytes,
            });
        }
    }
}
