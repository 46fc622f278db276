//! The resources of a log over HTTP.

ghost use Rattle.std.specs.Prelude.{◌≡◌};
ghost use Rattle.tl_source.specs.Asking.{MayGive};

use crate::ahead::AsksHost;
use crate::host::{LogHost, body_of};
use crate::lack::{Lack, LastLack, NamesLack};
use crate::url::Url;
use std::alloc::{Allocator, Global};
use std::cell::RefCell;
use std::marker::Model;
use std::net::{Net, TcpStream};
use std::time::{Clock, Duration};
use tl_client::ResourceSource;
use tl_tile::{Resource, SourceFault};

/// The resources of a log over HTTP/1.1, each at its path under an address (C2SP tlog-tiles). The connection is kept
/// from one request to the next. Contracts see the address.
#[derive(Drop)]
pub struct HttpSource<'s, H: Net<Stream = TcpStream> + Clock> {
    rt: &'s H,
    alloc: Global,
    host: LogHost<'s>,
    last: LastLack,
    idle: RefCell<Option<TcpStream>>,
}

impl<'s, H: Net<Stream = TcpStream> + Clock> Model for HttpSource<'s, H> {
    ghost use Rattle.tl_source.specs.declared.url.Url.{Url};

    ghost Value = { Url };

    ghost view = { λ s. s.host.url };
}

impl<'s, H: Net<Stream = TcpStream> + Clock> HttpSource<'s, H> {
    /// Returns the source of the resources under this address. Getting one takes at most `limit`, without the look-up
    /// of the host's name. It connects to nothing yet.
    pub fn new(rt: &'s H, alloc: Global, url: Url<'s>, limit: Duration) -> HttpSource<'s, H>
        ensures { result ≡ url.entry }
    {
        HttpSource {
            rt,
            alloc,
            host: LogHost { url, limit },
            last: LastLack::new(),
            idle: RefCell::new(None),
        }
    }
}

impl<H: Net<Stream = TcpStream> + Clock> NamesLack for HttpSource<'_, H> {
    fn lack(&self) -> Option<Lack> {
        self.last.get()
    }
}

impl<H: Net<Stream = TcpStream> + Clock> AsksHost for HttpSource<'_, H> {
    fn host(&self) -> Option<&LogHost<'_>> {
        Some(&self.host)
    }

    fn asks_for(&self, _resource: &Resource) -> bool {
        true
    }
}

impl<H: Net<Stream = TcpStream> + Clock> ResourceSource for HttpSource<'_, H> {
    ghost may_answer = { λ s r text. MayGive s.authority.now s.prefix.now r text };

    ghost may_lack = { λ _ _. Unit {0} };

    /// Returns the body that the host answers with status 200. `Unavailable` means that it answers otherwise, not in
    /// time, or with more bytes than `most_bytes`.
    fn get<A: Allocator>(&self, alloc: A, resource: &Resource) -> Result<Vec<u8, A>, SourceFault> {
        let mut idle = self.idle.try_take().unwrap_or(None);
        let body = body_of(self.rt, self.alloc, &self.host, &mut idle, resource);
        let _ = self.idle.try_replace(idle);
        let body = self.last.note(resource, body)?;
        Ok(Vec::from_slice(alloc, body.as_slice())?)
    }
}
