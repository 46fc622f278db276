//! A host over HTTP.

ghost use Rattle.std.specs.Prelude.{◌≡◌, IfOk};
ghost use Rattle.tl_tile.specs.Path.{IsResource};
ghost use Rattle.tl_source.specs.Asking.{MayGive};
ghost use Rattle.tl_source.specs.Lacking.{after_get};

use crate::asking::ask;
use crate::url::Url;
use std::alloc::Global;
use std::net::{Net, TcpStream, ToSocketAddrs};
use std::time::{Clock, Duration, Instant};
use tl_device::DeviceFault;
use tl_http::HttpFault;
use tl_tile::Resource;

/// The host of a log or of a witness over HTTP/1.1, and how long a request to it may take.
#[derive(Clone, Copy, Debug, PartialEq, Eq)]
pub struct LogHost<'t> {
    /// The address.
    pub url: Url<'t>,
    /// The most time that a request takes, without the look-up of the host's name.
    pub limit: Duration,
}

/// Connects to the first address of the host that accepts, before `limit` has passed since `start`. `NoHost` means
/// that the host has no address; any other fault says why the last address failed.
pub fn connect<H: Net<Stream = TcpStream> + Clock>(
    rt: &H,
    url: &Url<'_>,
    start: &Instant,
    limit: Duration,
) -> Result<TcpStream, DeviceFault> {
    let Ok(addresses) = (url.host, url.port).to_socket_addrs(rt) else {
        return Err(DeviceFault::NoHost);
    };
    let mut why = DeviceFault::NoHost;
    for address in addresses {
        let left = limit.saturating_sub(start.elapsed(rt)?);
        match TcpStream::connect_timeout(rt, &address, left) {
            Ok(stream) => return Ok(stream),
            Err(error) => why = DeviceFault::from(error),
        }
    }
    Err(why)
}

/// Returns why a host gave no body after this fault, given whether its time was over.
pub(crate) fn why_none(fault: HttpFault, is_late: bool) -> DeviceFault
    ensures { result ≡ after_get is_late fault }
{
    match fault {
        HttpFault::Read | HttpFault::Write if is_late => DeviceFault::TimedOut,
        HttpFault::Read | HttpFault::Write => DeviceFault::Broken,
        HttpFault::NoHead | HttpFault::Version => DeviceFault::NotHttp,
        HttpFault::Status(status) => DeviceFault::Status(status),
        HttpFault::Encoded => DeviceFault::Encoded,
        HttpFault::BadLength => DeviceFault::BadLength,
        HttpFault::BadChunk => DeviceFault::BadChunk,
        HttpFault::TooLarge => DeviceFault::TooLarge,
        HttpFault::Short => DeviceFault::CutShort,
        HttpFault::OutOfMemory => DeviceFault::OutOfMemory,
        HttpFault::BadTarget => DeviceFault::System,
    }
}

/// Returns the body that a host answers for a resource, over the idle connection or a new one, which is kept if it
/// stays open.
pub(crate) fn body_of<H: Net<Stream = TcpStream> + Clock>(
    rt: &H,
    alloc: Global,
    host: &LogHost<'_>,
    idle: &mut Option<TcpStream>,
    resource: &Resource,
) -> Result<Vec<u8>, DeviceFault>
    requires { IsResource resource.now }
    ensures { IfOk result (λ body.
        MayGive host.now.url.authority.now host.now.url.prefix.now resource.now body.items) }
{
    match ask(rt, alloc, host, idle, resource) {
        Ok(body) => Ok(body),
        Err(fault) => Err(fault.reason()),
    }
}
