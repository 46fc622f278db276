//! One request to a witness, and its answer.

ghost use Rattle.std.specs.Prelude.{◌≡◌, ◌⊎◌, IfOk, string_bytes};
ghost use Rattle.tl_feed.specs.Asking.{AsksAt, IsTarget, post_of, wanted};
ghost use Rattle.tl_feed.specs.Question.{body_of};
ghost use Rattle.tl_feed.specs.Refusal.{refusal_of};
ghost use Rattle.tl_source.specs.Calling.{Calls};

use crate::fault::AskFault;
use crate::question::{Question, WitnessAnswer};
use crate::reading::read_answer;
use crate::unasked::Unasked;
use crate::writing::question_bytes;
use std::alloc::{AllocError, Global};
use std::net::{Net, TcpStream};
use std::time::Clock;
use tl_device::DeviceFault;
use tl_http::{FieldLine, HttpFault, Message, Response};
use tl_source::{CallFault, LogHost, call, front_of};

// The path under a witness's address to which requests are posted (C2SP tlog-witness, "add-checkpoint").
const TARGET: &str = "/add-checkpoint";

// The most bytes of a response's body.
const MOST_ANSWER: usize = 16_384;

/// Returns the target under an address with this prefix to which questions are posted.
pub(crate) fn target_under(alloc: Global, prefix: &str) -> Result<String, AllocError>
    ensures { IfOk result (λ target. IsTarget prefix.now (string_bytes target)) }
{
    let mut target = String::from_str(alloc, front_of(prefix))?;
    target.push_str(TARGET)?;
    Ok(target)
}

// Posts a body to a target of a host, over the idle connection or a new one.
fn post<H: Net<Stream = TcpStream> + Clock>(
    rt: &H,
    alloc: Global,
    host: &LogHost<'_>,
    idle: &mut Option<TcpStream>,
    target: &str,
    body: &[u8],
) -> Result<Response<Global>, CallFault>
    ensures { Calls (post_of host.now.url.authority.now target.now body.now) wanted result }
{
    let fields = [FieldLine {
        name: "Host",
        value: host.url.authority,
    }];
    let message = Message {
        method: "POST",
        target,
        fields: &fields,
        body,
        statuses: &[200, 409],
        field: "Content-Type",
    };
    call(rt, alloc, host, idle, &message, MOST_ANSWER)
}

// Returns why there is no answer after this fault of a request, given whether its time was over.
fn why_none(fault: HttpFault, is_late: bool) -> Unasked
    ensures { (result ≡ Unasked.Device DeviceFault.TimedOut)
        ⊎ (result ≡ Unasked.Ask (refusal_of fault)) }
{
    match fault {
        HttpFault::Read | HttpFault::Write if is_late => Unasked::Device(DeviceFault::TimedOut),
        _ => Unasked::Ask(AskFault::from(fault)),
    }
}

/// Sends a witness one add-checkpoint request, a POST to a target of its host over the idle connection or a new one,
/// and returns what it answers (C2SP tlog-witness, "add-checkpoint"). At most 16,384 bytes of a response's body are
/// read. No signature is verified: nothing that comes is trusted.
pub(crate) fn ask_witness<H: Net<Stream = TcpStream> + Clock>(
    rt: &H,
    alloc: Global,
    host: &LogHost<'_>,
    idle: &mut Option<TcpStream>,
    target: &str,
    question: &Question<'_>,
) -> Result<WitnessAnswer<Global>, Unasked>
    ensures { AsksAt host.now.url.authority.now target.now (body_of question.now) result }
{
    let Ok(body) = question_bytes(alloc, question) else {
        return Err(Unasked::Ask(AskFault::OutOfMemory));
    };
    let response = match post(rt, alloc, host, idle, target, body.as_slice()) {
        Ok(response) => response,
        Err(CallFault::Unreached(why)) => return Err(Unasked::Device(why)),
        Err(CallFault::Failed { fault, is_late }) => return Err(why_none(fault, is_late)),
    };
    match read_answer(alloc, response) {
        Ok(answer) => Ok(answer),
        Err(fault) => Err(Unasked::Ask(fault)),
    }
}
