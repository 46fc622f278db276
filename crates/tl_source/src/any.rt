//! A folder or a host as one source.

use crate::ahead::AsksHost;
use crate::folder::FolderSource;
use crate::host::LogHost;
use crate::http::HttpSource;
use crate::lack::{Lack, NamesLack};
use std::alloc::Allocator;
use std::fs::Files;
use std::net::{Net, TcpStream};
use std::time::Clock;
use tl_client::ResourceSource;
use tl_tile::{Resource, SourceFault};

/// A source of a log's resources: a folder or a host.
#[derive(Drop)]
pub enum AnySource<'s, H: Files + Net<Stream = TcpStream> + Clock> {
    /// The files under a folder.
    Folder(FolderSource<'s, H>),
    /// A host that answers over HTTP.
    Http(HttpSource<'s, H>),
}

impl<H: Files + Net<Stream = TcpStream> + Clock> NamesLack for AnySource<'_, H> {
    fn lack(&self) -> Option<Lack> {
        match self {
            AnySource::Folder(source) => source.lack(),
            AnySource::Http(source) => source.lack(),
        }
    }
}

impl<H: Files + Net<Stream = TcpStream> + Clock> AsksHost for AnySource<'_, H> {
    fn host(&self) -> Option<&LogHost<'_>> {
        match self {
            AnySource::Folder(_) => None,
            AnySource::Http(source) => source.host(),
        }
    }

    fn asks_for(&self, resource: &Resource) -> bool {
        match self {
            AnySource::Folder(_) => false,
            AnySource::Http(source) => source.asks_for(resource),
        }
    }
}

impl<H: Files + Net<Stream = TcpStream> + Clock> ResourceSource for AnySource<'_, H> {
    ghost use Rattle.tl_source.specs.Sources.{any_answers, origin_of};

    ghost may_answer = { λ s. any_answers (origin_of s) };

    ghost may_lack = { λ _ _. Unit {0} };

    /// Returns the bytes that the folder or the host has.
    fn get<A: Allocator>(&self, alloc: A, resource: &Resource) -> Result<Vec<u8, A>, SourceFault> {
        match self {
            AnySource::Folder(source) => source.get(alloc, resource),
            AnySource::Http(source) => source.get(alloc, resource),
        }
    }
}
