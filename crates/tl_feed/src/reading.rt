//! Reading a witness's answer from its response.

ghost use Rattle.std.specs.Prelude.{◌≡◌, ◌⊎◌, ◌↔◌, ℕ, IsTrue, IfOk, MatchOption, OnErr, Ok, Some, codes};
ghost use Rattle.tl_feed.specs.Answer.{AnswerDecides, AreSignatures, IsSizeLine, LinesDecide, SizeDecides, answered};
ghost use Rattle.tl_http.specs.Exchange as exchange;
ghost use Rattle.tl_http.specs.Post.{value_bytes};

use crate::fault::AskFault;
use crate::question::WitnessAnswer;
use std::alloc::{AllocError, Allocator};
use std::str;
use tl_http::Response;
use tl_note::{NoteFault, parse_signatures};
use tl_text::{parse_size, split_line};

// Reports whether a text is signature lines, at least one.
fn are_signatures<A: Allocator>(alloc: A, text: &str) -> Result<bool, AllocError>
    ensures told { IfOk result (λ are. IsTrue are ↔ AreSignatures text.now) }
    ensures refused { OnErr result (AreSignatures text.now) }
{
    if text.is_empty() {
        return Ok(false);
    }
    match parse_signatures(alloc, text) {
        Ok(_) => Ok(true),
        Err(NoteFault::OutOfMemory) => Err(AllocError),
        Err(_) => Ok(false),
    }
}

// Returns the signature lines in the body of a response with status 200.
fn read_lines<A: Allocator + Copy>(alloc: A, body: Vec<u8, A>) -> Result<WitnessAnswer<A>, AskFault>
    ensures { LinesDecide body.items (answered result) }
{
    let Ok(text) = String::from_utf8(body) else {
        return Err(AskFault::BadLines);
    };
    match are_signatures(alloc, text.as_str()) {
        Err(_) => Err(AskFault::OutOfMemory),
        Ok(false) => Err(AskFault::BadLines),
        Ok(true) => Ok(WitnessAnswer::Cosigned(text)),
    }
}

// Returns the size that a body writes in decimal with a newline behind it. `None` if the body is anything else.
fn size_in(body: &[u8]) -> Option<u64>
    ensures { MatchOption result ((n : ℕ) → ¬ (IsSizeLine body.now n)) (IsSizeLine body.now) }
{
    let Ok(text) = str::from_utf8(body) else {
        return None;
    };
    let Some((digits, rest)) = split_line(text) else {
        return None;
    };
    if !rest.is_empty() {
        return None;
    }
    parse_size(digits)
}

// Reports whether the value of Content-Type is that of a size.
fn is_size_type<A: Allocator>(kind: &Option<Vec<u8, A>>) -> bool
    ensures { IsTrue result ↔ (value_bytes kind.now ≡ Some (codes "text/x.tlog.size")) }
{
    match kind {
        None => false,
        Some(value) => value.as_slice() == b"text/x.tlog.size".as_slice(),
    }
}

// Returns the size in a response with status 409, from its type and its body.
fn read_size<A: Allocator>(
    kind: &Option<Vec<u8, A>>,
    body: &[u8],
) -> Result<WitnessAnswer<A>, AskFault>
    ensures { SizeDecides (value_bytes kind.now) body.now (answered result) }
{
    if !is_size_type(kind) {
        return Err(AskFault::BadSize);
    }
    match size_in(body) {
        None => Err(AskFault::BadSize),
        Some(size) => Ok(WitnessAnswer::At(size)),
    }
}

/// Returns the answer in a response with status 200 or 409.
pub(crate) fn read_answer<A: Allocator + Copy>(
    alloc: A,
    response: Response<A>,
) -> Result<WitnessAnswer<A>, AskFault>
    requires { (response.status ≡ 200) ⊎ (response.status ≡ 409) }
    ensures { AnswerDecides (exchange.answered (Ok response)) (answered result) }
{
    if response.status == 200 {
        return read_lines(alloc, response.body);
    }
    read_size(&response.field, response.body.as_slice())
}
