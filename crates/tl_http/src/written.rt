//! Writing a request in the caller's form.

ghost use Rattle.std.specs.Prelude.{◌≡◌, ◌++◌, IfOk, OnOk, OnErr, map};
ghost use Rattle.std.specs.List.{flat_map};
ghost use Rattle.tl_device.specs.Device.{passage, WroteWhole, WrotePart};
ghost use Rattle.tl_http.specs.Message.{field_of, field_text, length_text, sent, sent_head};

use crate::message::{FieldLine, Message};
use itoa::Buffer;
use std::alloc::{AllocError, Allocator};
use std::io::Write;
use tl_device::{Counted, WriteFault, write_pieces};

// Appends a text.
fn push<A: Allocator>(out: &mut Vec<u8, A>, text: &str) -> Result<(), AllocError>
    ensures pushed { OnOk result (out.new.items ≡ out.old.items ++ text.now) }
{
    out.extend_from_slice(text.as_bytes())
}

// Appends the line of a field.
fn push_field<A: Allocator>(out: &mut Vec<u8, A>, field: &FieldLine<'_>) -> Result<(), AllocError>
    ensures pushed { OnOk result (out.new.items ≡ out.old.items ++ field_text (field_of field.now)) }
{
    push(out, field.name)?;
    push(out, ": ")?;
    push(out, field.value)?;
    push(out, "\r\n")
}

// Appends the lines of fields.
fn push_fields<A: Allocator>(
    out: &mut Vec<u8, A>,
    fields: &[FieldLine<'_>],
) -> Result<(), AllocError>
    ensures pushed { OnOk result (out.new.items
        ≡ out.old.items ++ flat_map field_text (map field_of fields.now)) }
{
    for field in fields {
        push_field(out, field)?;
    }
    Ok(())
}

// Appends the line that says how long a body is, if the request has one.
fn push_length<A: Allocator>(
    out: &mut Vec<u8, A>,
    method: &str,
    body: &[u8],
) -> Result<(), AllocError>
    ensures pushed { OnOk result
        (out.new.items ≡ out.old.items ++ length_text method.now body.now) }
{
    if method == "GET" && body.is_empty() {
        return Ok(());
    }
    push(out, "content-length: ")?;
    push(out, Buffer::new().format(body.len()))?;
    push(out, "\r\n")
}

/// Returns the head of a request. It fails only when allocation fails.
#[tactic(auto, unfolding(crate::specs::Message::sent_head))]
pub(crate) fn head_of<A: Allocator>(
    alloc: A,
    message: &Message<'_>,
) -> Result<Vec<u8, A>, AllocError>
    ensures head { IfOk result (λ head. head.items ≡ sent_head (sent message.now)) }
{
    let mut head = Vec::new(alloc);
    push(&mut head, message.method)?;
    push(&mut head, " ")?;
    push(&mut head, message.target)?;
    push(&mut head, " HTTP/1.1\r\n")?;
    push_fields(&mut head, message.fields)?;
    push_length(&mut head, message.method, message.body)?;
    push(&mut head, "\r\n")?;
    Ok(head)
}

/// Writes a head and a body. It allocates nothing.
pub(crate) fn send<'a, W: Write>(
    writer: &mut Counted<W>,
    head: &'a [u8],
    body: &'a [u8],
) -> Result<(), WriteFault>
    ensures whole { OnOk result
        (WroteWhole (passage W.contents writer.old writer.new) (head.now ++ body.now)) }
    ensures part { OnErr result
        (WrotePart (passage W.contents writer.old writer.new) (head.now ++ body.now)) }
{
    let pieces: [&'a [u8]; 2] = [head, body];
    write_pieces(writer, &pieces)
}
