//! One request for a resource.

ghost use Rattle.tl_tile.specs.Path.{IsResource};
ghost use Rattle.tl_source.specs.Asking.{request_of, wanted_up_to};
ghost use Rattle.tl_source.specs.Calling.{Calls};
ghost use Rattle.tl_source.specs.Inner.Asking.{AsksFor};

use crate::calling::{CallFault, call};
use crate::host::LogHost;
use crate::place::front_of;
use std::alloc::Global;
use std::net::{Net, TcpStream};
use std::time::Clock;
use tl_folder::{most_bytes, path_under};
use tl_http::{FieldLine, HttpFault, Message, Response};
use tl_tile::Resource;

// Asks the host for a target with one GET request, for a body of at most `most` bytes.
fn ask_for<H: Net<Stream = TcpStream> + Clock>(
    rt: &H,
    alloc: Global,
    host: &LogHost<'_>,
    idle: &mut Option<TcpStream>,
    target: &str,
    most: usize,
) -> Result<Response<Global>, CallFault>
    ensures { Calls (request_of host.now.url.authority.now target.now) (wanted_up_to most) result }
{
    let fields = [FieldLine {
        name: "Host",
        value: host.url.authority,
    }];
    let message = Message {
        method: "GET",
        target,
        fields: &fields,
        body: b"",
        statuses: &[200],
        field: "",
    };
    call(rt, alloc, host, idle, &message, most)
}

/// Asks a host for a resource with one GET request, over the idle connection or a new one. Returns the body of a
/// response with status 200, of at most `most_bytes`. The fault says why no whole body came.
pub(crate) fn ask<H: Net<Stream = TcpStream> + Clock>(
    rt: &H,
    alloc: Global,
    host: &LogHost<'_>,
    idle: &mut Option<TcpStream>,
    resource: &Resource,
) -> Result<Vec<u8>, CallFault>
    requires { IsResource resource.now }
    ensures { AsksFor host.now.url.authority.now host.now.url.prefix.now resource.now result }
{
    let Ok(target) = path_under(alloc, front_of(host.url.prefix), resource) else {
        return Err(CallFault::Failed {
            fault: HttpFault::OutOfMemory,
            is_late: false,
        });
    };
    let most = most_bytes(resource) as usize;
    match ask_for(rt, alloc, host, idle, target.as_str(), most) {
        Ok(response) => Ok(response.body),
        Err(fault) => Err(fault),
    }
}
