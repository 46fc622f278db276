//! Which requests can be sent.

ghost use Rattle.std.specs.Prelude.{◌≡◌, ◌↔◌, IsTrue, map};
ghost use Rattle.std.specs.List.{AllByRecursion};
ghost use Rattle.tl_http.specs.Message as spec;
ghost use Rattle.tl_http.specs.Message.{IsFieldSendable, IsFraming, IsMethod, IsSendable, field_of, sent};

use crate::message::{FieldLine, Message};
use crate::target::is_visible;
use httparse::{is_space_or_tab, is_token};

// Reports whether a field may have this value.
fn is_value(text: &[u8]) -> bool
    ensures value { result ≡ spec.is_value text.now }
{
    let mut visible = false;
    for byte in text {
        let is_blank = is_space_or_tab(*byte);
        if is_blank && !visible {
            return false;
        }
        if !is_blank && !byte.is_ascii_graphic() {
            return false;
        }
        visible = !is_blank;
    }
    text.is_empty() || visible
}

// Reports whether a field with this name frames the message or says when the connection ends.
fn is_framing(name: &[u8]) -> bool
    ensures framing { IsTrue result ↔ IsFraming name.now }
{
    name.eq_ignore_ascii_case(b"content-length")
        || name.eq_ignore_ascii_case(b"transfer-encoding")
        || name.eq_ignore_ascii_case(b"connection")
}

// Reports whether a field can be sent.
fn is_field_sendable(field: &FieldLine<'_>) -> bool
    ensures sendable { IsTrue result ↔ IsFieldSendable (field_of field.now) }
{
    let name = field.name.as_bytes();
    is_token(name) && is_value(field.value.as_bytes()) && !is_framing(name)
}

// Reports whether each of the fields can be sent.
fn are_fields_sendable(fields: &[FieldLine<'_>]) -> bool
    ensures each { IsTrue result ↔ AllByRecursion IsFieldSendable (map field_of fields.now) }
{
    let [first, rest @ ..] = fields else {
        return true;
    };
    if !is_field_sendable(first) {
        return false;
    }
    are_fields_sendable(rest)
}

// Reports whether a method's responses are framed as usual. Those of HEAD and CONNECT aren't.
fn is_method(method: &str) -> bool
    ensures method { IsTrue result ↔ IsMethod method.now }
{
    is_token(method.as_bytes()) && method != "HEAD" && method != "CONNECT"
}

/// Reports whether a request can be sent.
pub(crate) fn is_sendable(message: &Message<'_>) -> bool
    ensures sendable { IsTrue result ↔ IsSendable (sent message.now) }
{
    let target = message.target.as_bytes();
    is_method(message.method)
        && is_visible(target)
        && target.starts_with(b"/")
        && are_fields_sendable(message.fields)
}
