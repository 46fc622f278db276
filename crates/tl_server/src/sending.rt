//! Writing answers, with few calls and without allocation.

ghost use Rattle.std.specs.Prelude.{◌≡◌, ◌<◌, ◌≤◌, ◌++◌, ◌∷◌, [], List, ℕ, OnOk, OnErr, IfOk, length};
ghost use Rattle.tl_device.specs.Device.{passage, WroteWhole, WrotePart};
ghost use Rattle.tl_server.specs.Answer.{phrase, bare, busy, not_allowed, retry_line};
ghost use Rattle.tl_server.specs.Serve.{Sends};
ghost use Rattle.tl_device.specs.Pieces.{pieces_text};
ghost use Rattle.tl_server.specs.Inner.Sending.{beside, answer_pieces, refusal};

use crate::fault::ServeFault;
use itoa::Buffer;
use std::io::Write;
use tl_device::{Counted, WriteFault, write_pieces};

// Returns the reason phrase of a status.
fn phrase_of(status: u16) -> &'static str
    ensures { result.now ≡ phrase status }
{
    match status {
        200 => "OK",
        400 => "Bad Request",
        403 => "Forbidden",
        404 => "Not Found",
        405 => "Method Not Allowed",
        409 => "Conflict",
        413 => "Payload Too Large",
        422 => "Unprocessable Entity",
        431 => "Request Header Fields Too Large",
        503 => "Service Unavailable",
        _ => "Internal Server Error",
    }
}

// Returns the text, or nothing if the list is empty.
fn beside<'a>(list: &[u8], text: &'a [u8]) -> &'a [u8]
    ensures { result.now ≡ beside list.now text.now }
{
    match list {
        [] => b"",
        _ => text,
    }
}

// Returns the field Retry-After of a 503, or nothing for another status.
fn retry_of(status: u16) -> &'static [u8]
    ensures { result.now ≡ retry_line status }
{
    if status == 503 {
        b"Retry-After: 1\r\n"
    } else {
        b""
    }
}

// Writes the parts of an answer one after another.
fn put_texts<'a, W: Write>(
    writer: &mut Counted<W>,
    status: &'a [u8],
    reason: &'a [u8],
    allow: &'a [u8],
    retry: &'a [u8],
    kind: &'a [u8],
    size: &'a [u8],
    body: &'a [u8],
) -> Result<(), WriteFault>
    ensures whole { OnOk result (WroteWhole (passage W.contents writer.old writer.new) (pieces_text
        (λ p. p)
        (answer_pieces status.now reason.now allow.now retry.now kind.now size.now body.now))) }
    ensures part { OnErr result (WrotePart (passage W.contents writer.old writer.new) (pieces_text
        (λ p. p)
        (answer_pieces status.now reason.now allow.now retry.now kind.now size.now body.now))) }
{
    let version: &'a [u8] = b"HTTP/1.1 ";
    let space: &'a [u8] = b" ";
    let line_end: &'a [u8] = b"\r\n";
    let allow_name: &'a [u8] = beside(allow, b"Allow: ");
    let allow_end: &'a [u8] = beside(allow, line_end);
    let kind_name: &'a [u8] = beside(body, b"Content-Type: ");
    let kind_text: &'a [u8] = beside(body, kind);
    let kind_end: &'a [u8] = beside(body, line_end);
    let size_name: &'a [u8] = b"Content-Length: ";
    let close: &'a [u8] = b"\r\nConnection: close\r\n\r\n";
    let pieces: [&'a [u8]; 16] = [
        version, status, space, reason, line_end, allow_name, allow, allow_end, retry, kind_name,
        kind_text, kind_end, size_name, size, close, body,
    ];
    write_pieces(writer, &pieces)
}

/// Writes an answer. It allocates nothing.
pub(crate) fn send<W: Write>(
    writer: &mut Counted<W>,
    status: u16,
    allow: &[u8],
    kind: &[u8],
    body: &[u8],
) -> Result<Option<u16>, ServeFault>
    ensures { Sends
        (record { status = status; allow = allow.now; kind = kind.now; body = body.now })
        (passage W.contents writer.old writer.new) result }
{
    let mut status_digits = Buffer::new();
    let mut size_digits = Buffer::new();
    let status_text = status_digits.format(status).as_bytes();
    let size_text = size_digits.format(body.len()).as_bytes();
    let reason = phrase_of(status).as_bytes();
    let retry = retry_of(status);
    put_texts(
        writer,
        status_text,
        reason,
        allow,
        retry,
        kind,
        size_text,
        body,
    )?;
    Ok(Some(status))
}

/// Writes an answer with no body.
pub(crate) fn refuse<W: Write>(
    writer: &mut Counted<W>,
    status: u16,
) -> Result<Option<u16>, ServeFault>
    ensures { Sends (bare status) (passage W.contents writer.old writer.new) result }
{
    send(writer, status, b"", b"", b"")
}

/// Writes the answer to an entry that isn't published: the log takes nothing now, or it took too long.
pub(crate) fn refuse_busy<W: Write>(writer: &mut Counted<W>) -> Result<Option<u16>, ServeFault>
    ensures { Sends busy (passage W.contents writer.old writer.new) result }
{
    let text = b"not published yet: post it again\n";
    send(writer, 503, b"", b"text/plain; charset=utf-8", text)
}

/// Writes the answer to a method other than the one allowed.
pub(crate) fn refuse_method<W: Write>(
    writer: &mut Counted<W>,
    allowed: &[u8],
) -> Result<Option<u16>, ServeFault>
    ensures { Sends (not_allowed allowed.now) (passage W.contents writer.old writer.new) result }
{
    send(writer, 405, allowed, b"", b"")
}

/// Writes the answer with this status to a request whose body wasn't received.
pub(crate) fn refuse_post<W: Write>(
    writer: &mut Counted<W>,
    status: u16,
) -> Result<Option<u16>, ServeFault>
    ensures { Sends (refusal status) (passage W.contents writer.old writer.new) result }
{
    if status == 405 {
        refuse_method(writer, b"POST")
    } else {
        refuse(writer, status)
    }
}
