//! Asking a host for several resources at once.

ghost use Rattle.std.specs.Prelude.{All, IfOk};
ghost use Rattle.tl_source.specs.Ahead.{IsAnswer};
ghost use Rattle.tl_source.specs.Asking.{MayGive};

use crate::host::{LogHost, body_of};
use std::alloc::{AllocError, Global};
use std::net::{Net, TcpListener, TcpStream};
use std::thread::{Threads, map_vec};
use std::time::Clock;
use tl_client::ResourceSource;
use tl_folder::has_path;
use tl_tile::Resource;

/// A source that may have a host, which can be asked for several resources at once.
pub trait AsksHost: ResourceSource {
    ghost use Rattle.std.specs.Prelude.{IfSome};
    ghost use Rattle.tl_source.specs.Ahead.{IsHostOf};

    /// Returns the host, or `None` if the source has none.
    fn host(&self) -> Option<&LogHost<'_>>
        ensures { IfSome result (λ host. IsHostOf host.now (Self.may_answer self.now)) };

    /// Reports whether this resource would be asked of the host, since nothing nearer has it.
    fn asks_for(&self, resource: &Resource) -> bool;
}

/// What asks hosts: it opens connections, reads the clock and starts threads.
pub trait HostClient: Threads + Sync + Net<Listener = TcpListener, Stream = TcpStream> + Clock {}

impl<H> HostClient for H
where
    H: Threads + Sync + Net<Listener = TcpListener, Stream = TcpStream> + Clock,
{}

/// How requests are sent: by what, with memory from where, and how many at once.
#[derive(Drop)]
pub struct Requests<'r, H> {
    /// Opens connections and starts threads.
    pub rt: &'r H,
    /// The allocator.
    pub alloc: Global,
    /// The most requests that are in flight at once.
    pub at_once: u16,
}

/// A resource, and the bytes that a host answered for it.
#[derive(Drop)]
pub(crate) struct Got {
    pub(crate) resource: Resource,
    pub(crate) bytes: Vec<u8>,
}

/// What came of a request, if an answer did, and the connection, if it can carry another request.
#[derive(Drop)]
pub(crate) struct Asked {
    pub(crate) got: Option<Got>,
    pub(crate) idle: Option<TcpStream>,
}

// A resource to ask for, and a connection over which to ask.
#[derive(Drop)]
struct Job {
    resource: Resource,
    idle: Option<TcpStream>,
}

// Asks the host for a resource. It is `None` if no answer came.
fn ask_host<H: Net<Stream = TcpStream> + Clock>(
    rt: &H,
    alloc: Global,
    host: &LogHost<'_>,
    idle: &mut Option<TcpStream>,
    resource: &Resource,
) -> Option<Got>
    ensures { IsAnswer
        (MayGive host.now.url.authority.now host.now.url.prefix.now) result }
{
    if !has_path(resource) {
        return None;
    }
    match body_of(rt, alloc, host, idle, resource) {
        Ok(bytes) => Some(Got {
            resource: *resource,
            bytes,
        }),
        Err(_) => None,
    }
}

// Asks the host for the resource of a job, over its connection or a new one.
fn run_job<H: Net<Stream = TcpStream> + Clock>(
    rt: &H,
    alloc: Global,
    host: &LogHost<'_>,
    job: Job,
) -> Asked
    ensures { IsAnswer
        (MayGive host.now.url.authority.now host.now.url.prefix.now) result.got }
{
    let Job { resource, mut idle } = job;
    let got = ask_host(rt, alloc, host, &mut idle, &resource);
    Asked { got, idle }
}

// Returns a job for each of these resources, with the connections that the last requests left.
fn jobs_for(alloc: Global, wanted: &[Resource], last: Vec<Asked>) -> Result<Vec<Job>, AllocError> {
    let mut jobs = Vec::new(alloc);
    let mut last = last.into_iter();
    for resource in wanted {
        let idle = match last.next() {
            Some(asked) => asked.idle,
            None => None,
        };
        jobs.push(Job {
            resource: *resource,
            idle,
        })?;
    }
    Ok(jobs)
}

// Asks the host for each of these resources, all at once.
fn ask_each<H: HostClient>(
    rt: &H,
    alloc: Global,
    host: &LogHost<'_>,
    wanted: &[Resource],
    last: Vec<Asked>,
) -> Result<Vec<Asked>, AllocError>
    ensures { IfOk result (λ all. All (λ asked. IsAnswer
        (MayGive host.now.url.authority.now host.now.url.prefix.now) asked.got) all.items) }
{
    let jobs = jobs_for(alloc, wanted, last)?;
    map_vec(rt, jobs, &|job| run_job(rt, alloc, host, job))
}

/// Asks the host of a source for the first `at_once` of these resources, all at once, each over a connection that one
/// of the last requests left, or over a new one. Returns an empty list if there is no host or memory runs out.
pub(crate) fn answers_of<
    S: AsksHost,
    H: Threads + Sync + Net<Listener = TcpListener, Stream = TcpStream> + Clock,
>(requests: &Requests<'_, H>, source: &S, wanted: &[Resource], last: Vec<Asked>) -> Vec<Asked>
    ensures { All (λ asked. IsAnswer (S.may_answer source.now) asked.got) result.items }
{
    let Some(host) = source.host() else {
        return Vec::new(requests.alloc);
    };
    let count = wanted.len().min(usize::from(requests.at_once));
    match ask_each(requests.rt, requests.alloc, host, &wanted[..count], last) {
        Ok(all) => all,
        Err(_) => Vec::new(requests.alloc),
    }
}
