//! A source with some of its resources got ahead.

ghost use Rattle.std.specs.Prelude.{◌≡◌, ◌↔◌, All, IsTrue, MatchOption};
ghost use Rattle.tl_source.specs.Ahead.{IsAnswer};
ghost use Rattle.tl_source.specs.Inner.Ahead.{IsGot};

use crate::ahead::{Asked, AsksHost, Got, HostClient, Requests, answers_of};
use std::alloc::{Allocator, Global};
use std::marker::Model;
use std::mem;
use tl_client::ResourceSource;
use tl_tile::{Resource, SourceFault};

/// A source with what its host answered for some resources before they are needed, and the connections over which it
/// did. Contracts see the source.
#[derive(Drop)]
pub struct Window<'s, S: AsksHost> {
    source: &'s S,
    asked: Vec<Asked>,
}

impl<'s, S: AsksHost> Model for Window<'s, S> {
    ghost Value = { S };

    ghost view = { λ w. w.source.now };

    ghost invariant = { λ w. All (λ asked. IsAnswer (S.may_answer w.source.now) asked.got)
        w.asked.items };
}

impl<'s, S: AsksHost> Window<'s, S> {
    /// Returns the source with nothing got ahead.
    pub fn new(alloc: Global, source: &'s S) -> Window<'s, S>
        ensures { result ≡ source.now }
    {
        Window {
            source,
            asked: Vec::new(alloc),
        }
    }

    /// Asks the host for the first of these resources, as many at once as `requests` says, and drops what was got
    /// before. `get` asks again for what didn't come. The connections are kept for the next call.
    pub fn get_ahead<H: HostClient>(&mut self, requests: &Requests<'_, H>, wanted: &[Resource])
        ensures { self.new ≡ self.old }
    {
        let last = mem::replace(&mut self.asked, Vec::new(requests.alloc));
        self.asked = answers_of(requests, self.source, wanted, last);
    }
}

// Reports whether two resources are the same.
fn is_same(one: &Resource, other: &Resource) -> bool
    ensures { IsTrue result ↔ (one.now ≡ other.now) }
{
    one == other
}

// Returns the bytes of a resource if they are what was got.
fn bytes_of<'g>(one: &'g Option<Got>, resource: &Resource) -> Option<&'g [u8]>
    ensures { MatchOption result (Unit {0}) (λ bytes. IsGot one.now resource.now bytes.now) }
{
    match one {
        Some(got) if is_same(&got.resource, resource) => Some(got.bytes.as_slice()),
        _ => None,
    }
}

impl<'s, S: AsksHost> Window<'s, S> {
    // Returns the bytes of a resource if they were got ahead.
    fn find(&self, resource: &Resource) -> Option<&[u8]>
        ensures { MatchOption result (Unit {0})
            (λ bytes. S.may_answer self.now resource.now bytes.now) }
    {
        for one in &self.asked {
            if let Some(bytes) = bytes_of(&one.got, resource) {
                return Some(bytes);
            }
        }
        None
    }
}

impl<S: AsksHost> ResourceSource for Window<'_, S> {
    ghost may_answer = { λ s. S.may_answer s };

    ghost may_lack = { λ s. S.may_lack s };

    /// Returns what was got ahead, or else what the source has.
    fn get<A: Allocator>(&self, alloc: A, resource: &Resource) -> Result<Vec<u8, A>, SourceFault> {
        match self.find(resource) {
            Some(bytes) => Ok(Vec::from_slice(alloc, bytes)?),
            None => self.source.get(alloc, resource),
        }
    }
}
