//! The resources of a log in a folder.

ghost use Rattle.std.specs.Prelude.{◌≡◌, ◌≤◌, length};
ghost use Rattle.tl_folder.specs.Limits.{most_bytes};

use crate::lack::{Lack, LastLack, NamesLack};
use std::alloc::{Allocator, Global};
use std::fs::Files;
use std::marker::Model;
use tl_client::ResourceSource;
use tl_folder::read_resource;
use tl_tile::{Resource, SourceFault};

/// The resources of a log in the plain files under a folder, each at its path (C2SP tlog-tiles). Contracts see the
/// folder's path.
#[derive(Drop)]
pub struct FolderSource<'s, H: Files> {
    files: &'s H,
    alloc: Global,
    folder: &'s str,
    follows_links: bool,
    last: LastLack,
}

impl<'s, H: Files> Model for FolderSource<'s, H> {
    ghost use Rattle.std.specs.Prelude.{ℕ, List};

    ghost Value = { List ℕ };

    ghost view = { λ s. s.folder.now };
}

impl<'s, H: Files> FolderSource<'s, H> {
    /// Returns the source of the resources under this folder, including files that symbolic links lead to. It reads
    /// nothing yet.
    pub fn new(files: &'s H, alloc: Global, folder: &'s str) -> FolderSource<'s, H>
        ensures { result ≡ folder.now }
    {
        FolderSource {
            files,
            alloc,
            folder,
            follows_links: true,
            last: LastLack::new(),
        }
    }

    /// Returns the source of the resources under this folder, in which a symbolic link counts as no file, as in a
    /// cache of tiles. It reads nothing yet.
    pub fn without_links(files: &'s H, alloc: Global, folder: &'s str) -> FolderSource<'s, H>
        ensures { result ≡ folder.now }
    {
        FolderSource {
            follows_links: false,
            ..FolderSource::new(files, alloc, folder)
        }
    }
}

impl<H: Files> NamesLack for FolderSource<'_, H> {
    fn lack(&self) -> Option<Lack> {
        self.last.get()
    }
}

impl<H: Files> ResourceSource for FolderSource<'_, H> {
    ghost may_answer = { λ _ r text. length text ≤ most_bytes r };

    ghost may_lack = { λ _ _. Unit {0} };

    /// Returns the bytes of the resource's file. `Unavailable` means that there is no such file, that it is no plain
    /// file, that it has more bytes than `most_bytes`, or that it can't be read.
    fn get<A: Allocator>(&self, alloc: A, resource: &Resource) -> Result<Vec<u8, A>, SourceFault> {
        let outcome = read_resource(
            alloc,
            self.alloc,
            self.files,
            self.folder,
            resource,
            self.follows_links,
        );
        self.last.note(resource, outcome)
    }
}
