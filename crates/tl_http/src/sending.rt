//! Writing requests, with few calls and without allocation.

ghost use Rattle.std.specs.Prelude.{◌≡◌, ◌++◌, OnOk, OnErr};
ghost use Rattle.tl_device.specs.Device.{passage, WroteWhole, WrotePart};
ghost use Rattle.tl_http.specs.Request.{request_text};
ghost use Rattle.tl_http.specs.Post.{post_text};
ghost use Rattle.tl_http.specs.Inner.Sending.{post_pieces};
ghost use Rattle.tl_device.specs.Pieces.{pieces_text};

use itoa::Buffer;
use std::io::Write;
use tl_device::{Counted, WriteFault, write_pieces};

/// Writes a GET request for a target of a host. It allocates nothing.
pub(crate) fn send_request<'a, W: Write>(
    writer: &mut Counted<W>,
    host: &'a [u8],
    target: &'a [u8],
) -> Result<(), WriteFault>
    ensures whole { OnOk result
        (WroteWhole (passage W.contents writer.old writer.new) (request_text host.now target.now)) }
    ensures part { OnErr result
        (WrotePart (passage W.contents writer.old writer.new) (request_text host.now target.now)) }
{
    let method: &'a [u8] = b"GET ";
    let version: &'a [u8] = b" HTTP/1.1\r\nHost: ";
    let close: &'a [u8] = b"\r\nConnection: close\r\n\r\n";
    let pieces: [&'a [u8]; 5] = [method, target, version, host, close];
    write_pieces(writer, &pieces)
}

// Writes a POST request; `size` is the body's length in decimal.
fn put_post<'a, W: Write>(
    writer: &mut Counted<W>,
    host: &'a [u8],
    target: &'a [u8],
    size: &'a [u8],
    body: &'a [u8],
) -> Result<(), WriteFault>
    ensures whole { OnOk result (WroteWhole (passage W.contents writer.old writer.new)
        (pieces_text (λ p. p) (post_pieces host.now target.now size.now body.now))) }
    ensures part { OnErr result (WrotePart (passage W.contents writer.old writer.new)
        (pieces_text (λ p. p) (post_pieces host.now target.now size.now body.now))) }
{
    let method: &'a [u8] = b"POST ";
    let version: &'a [u8] = b" HTTP/1.1\r\nHost: ";
    let size_name: &'a [u8] = b"\r\nContent-Length: ";
    let end: &'a [u8] = b"\r\nConnection: close\r\n\r\n";
    let pieces: [&'a [u8]; 8] = [method, target, version, host, size_name, size, end, body];
    write_pieces(writer, &pieces)
}

/// Writes a POST request with this body for a target of a host. It allocates nothing.
pub(crate) fn send_post<W: Write>(
    writer: &mut Counted<W>,
    host: &[u8],
    target: &[u8],
    body: &[u8],
) -> Result<(), WriteFault>
    ensures whole { OnOk result (WroteWhole
        (passage W.contents writer.old writer.new) (post_text host.now target.now body.now)) }
    ensures part { OnErr result (WrotePart
        (passage W.contents writer.old writer.new) (post_text host.now target.now body.now)) }
{
    let mut digits = Buffer::new();
    let size = digits.format(body.len()).as_bytes();
    put_post(writer, host, target, size, body)
}
