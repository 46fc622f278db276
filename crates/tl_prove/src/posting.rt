//! Posting an entry to a log.

ghost use Rattle.std.specs.Prelude.{◌≡◌, IfErr, IfOk, string_bytes};
ghost use Rattle.tl_prove.specs.SubmitCommand.{IsAddTarget, IsNotTaken, MayTake, post_of, wanted};
ghost use Rattle.tl_source.specs.Calling.{Calls};
ghost use Rattle.tl_text.specs.Text.{number_text};

use crate::fault::ProveFault;
use std::alloc::{AllocError, Global};
use std::net::{Net, TcpStream};
use std::str;
use std::time::{Clock, Duration};
use tl_device::DeviceFault;
use tl_http::{FieldLine, Message, Response};
use tl_source::{CallFault, LogHost, Url, call, front_of};
use tl_text::parse_size;

// The most bytes of the answer.
const MOST_ANSWER: usize = 64;

// Returns the target under the log's address to which entries are posted.
fn target_of(alloc: Global, url: &Url<'_>) -> Result<String, AllocError>
    ensures { IfOk result (λ target. IsAddTarget url.now.prefix.now (string_bytes target)) }
{
    let mut target = String::from_str(alloc, front_of(url.prefix))?;
    target.push_str("/add")?;
    Ok(target)
}

// Posts an entry once, over a connection of its own, and returns the log's answer.
fn post_once<H: Net<Stream = TcpStream> + Clock>(
    rt: &H,
    alloc: Global,
    host: &LogHost<'_>,
    target: &str,
    entry: &[u8],
) -> Result<Response<Global>, CallFault>
    ensures { Calls (post_of host.now.url.authority.now target.now entry.now) wanted result }
{
    let fields = [FieldLine {
        name: "Host",
        value: host.url.authority,
    }];
    let message = Message {
        method: "POST",
        target,
        fields: &fields,
        body: entry,
        statuses: &[200],
        field: "Content-Type",
    };
    let mut idle = None;
    call(rt, alloc, host, &mut idle, &message, MOST_ANSWER)
}

// Returns the index that the log's answer is.
fn index_of(answer: &[u8]) -> Result<u64, ProveFault>
    ensures index { IfOk result (λ index. answer.now ≡ number_text index) }
    ensures refused { IfErr result IsNotTaken }
{
    let Ok(text) = str::from_utf8(answer) else {
        return Err(ProveFault::NoIndex);
    };
    match parse_size(text) {
        Some(index) => Ok(index),
        None => Err(ProveFault::NoIndex),
    }
}

// Returns the fault for a post that failed for this reason.
fn not_posted(why: DeviceFault) -> ProveFault
    ensures { IsNotTaken result }
{
    match why {
        DeviceFault::OutOfMemory => ProveFault::from(AllocError),
        _ => ProveFault::NotPosted(why),
    }
}

/// Posts an entry to the log at this address, and returns the index that it answers.
pub(crate) fn post_entry<H: Net<Stream = TcpStream> + Clock>(
    rt: &H,
    alloc: Global,
    url: &Url<'_>,
    entry: &[u8],
    limit: Duration,
) -> Result<u64, ProveFault>
    ensures taken { IfOk result (λ index. MayTake url.now entry.now index) }
    ensures refused { IfErr result IsNotTaken }
{
    let target = target_of(alloc, url)?;
    let host = LogHost { url: *url, limit };
    match post_once(rt, alloc, &host, target.as_str(), entry) {
        Ok(response) => index_of(response.body.as_slice()),
        Err(fault) => Err(not_posted(fault.reason())),
    }
}
