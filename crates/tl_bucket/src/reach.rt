//! How a worker reaches its bucket, with an address and a key of its own.

ghost use Rattle.std.specs.Prelude.{◌≡◌, IfOk, IsTrue};

use crate::client::Client;
use std::alloc::{AllocError, Global};
use std::marker::Model;
use tl_s3::Credential;
use tl_source::Url;

/// The address of a bucket, and the key that signs requests to it.
#[derive(Drop)]
pub(crate) struct Reach {
    authority: String,
    host: String,
    port: u16,
    prefix: String,
    id: String,
    secret: String,
    region: String,
    service: String,
}

impl Model for Reach {
    ghost use Rattle.std.specs.Prelude.{string_bytes};
    ghost use Rattle.tl_s3.specs.Objects.{Place};

    ghost Value = { Place };

    ghost view = { λ r. record {
      host = string_bytes r.authority;
      prefix = string_bytes r.prefix;
      credential = record {
        id = string_bytes r.id;
        secret = string_bytes r.secret;
        region = string_bytes r.region;
        service = string_bytes r.service;
      };
    } };
}

impl Reach {
    /// Copies the client's address and key.
    pub(crate) fn of<H>(client: &Client<'_, H>) -> Result<Reach, AllocError>
        ensures { IfOk result (λ reach. reach ≡ client.now) }
    {
        let (alloc, url) = (client.alloc, &client.url);
        let credential = &client.bucket.credential;
        Ok(Reach {
            authority: String::from_str(alloc, client.bucket.host)?,
            host: String::from_str(alloc, url.host)?,
            port: url.port,
            prefix: String::from_str(alloc, client.bucket.prefix)?,
            id: String::from_str(alloc, credential.id)?,
            secret: String::from_str(alloc, credential.secret)?,
            region: String::from_str(alloc, credential.region)?,
            service: String::from_str(alloc, credential.service)?,
        })
    }

    /// Returns a client with this address and key.
    pub(crate) fn client<'r, H>(&'r self, rt: &'r H, alloc: Global) -> Client<'r, H>
        ensures { result ≡ self.entry.now }
    {
        let url = Url {
            authority: self.authority.as_str(),
            host: self.host.as_str(),
            port: self.port,
            prefix: self.prefix.as_str(),
        };
        let credential = Credential {
            id: self.id.as_str(),
            secret: self.secret.as_str(),
            region: self.region.as_str(),
            service: self.service.as_str(),
        };
        Client::new(rt, alloc, url, credential)
    }

    // Reports whether the key is the client's.
    fn has_key_of<H>(&self, client: &Client<'_, H>) -> bool
        ensures { IsTrue result → self.now.credential ≡ client.now.credential }
    {
        let credential = &client.bucket.credential;
        self.id.as_str() == credential.id
            && self.secret.as_str() == credential.secret
            && self.region.as_str() == credential.region
            && self.service.as_str() == credential.service
    }

    /// Reports whether address and key are the client's.
    pub(crate) fn is_of<H>(&self, client: &Client<'_, H>) -> bool
        ensures { IsTrue result → self.now ≡ client.now }
    {
        self.authority.as_str() == client.bucket.host
            && self.prefix.as_str() == client.bucket.prefix
            && self.has_key_of(client)
    }
}
