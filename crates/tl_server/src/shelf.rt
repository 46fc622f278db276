//! One request to a log that is on a shelf.

ghost use Rattle.std.specs.Prelude.{IsUtf8};
ghost use Rattle.tl_device.specs.Device.{passage};
ghost use Rattle.tl_server.specs.Exchange.{Exchange};
ghost use Rattle.tl_server.specs.Inner.Deciding.{Answered};
ghost use Rattle.tl_server.specs.Log.{ShelfAnswers, ShelfDecides, read_answer};
ghost use Rattle.tl_server.specs.Serve.{Sends, Serves};

use crate::fault::ServeFault;
use crate::head::{HeadRead, MOST_FIELDS, MOST_HEAD, read_head};
use crate::log::{resource_of, type_of};
use crate::method::is_text;
use crate::sending::{refuse, refuse_method, send};
use httparse::spans::EMPTY_HEADER_SPAN;
use std::alloc::Allocator;
use std::io::{Read, Write};
use tl_archive::{Shelf, ShelfFault};
use tl_device::Counted;
use tl_tile::Resource;

// Answers with what the shelf has under a resource.
fn answer_read<A: Allocator, O: Write>(
    writer: &mut Counted<O>,
    resource: &Resource,
    read: Result<Option<Vec<u8, A>>, ShelfFault>,
) -> Result<Option<u16>, ServeFault>
    ensures { Sends
        (read_answer resource.now read) (passage O.contents writer.old writer.new) result }
{
    match read {
        Ok(Some(bytes)) => send(writer, 200, b"", type_of(resource), bytes.as_slice()),
        Ok(None) => refuse(writer, 404),
        Err(_) => refuse(writer, 500),
    }
}

/// Answers a request with this method and target.
pub(crate) fn answer_shelf<A: Allocator, S: Shelf, O: Write>(
    alloc: A,
    writer: &mut Counted<O>,
    shelf: &S,
    method: &[u8],
    target: &[u8],
) -> Result<Option<u16>, ServeFault>
    requires { IsUtf8 target.now }
    ensures { Answered (ShelfAnswers A S.is_honest (S.kept shelf.now).held (S.may_fail shelf.now)
        method.now target.now) (passage O.contents writer.old writer.new) result }
{
    let Some(resource) = resource_of(target) else {
        return refuse(writer, 404);
    };
    if !is_text(method, b"GET") {
        return refuse_method(writer, b"GET");
    }
    let read = shelf.read(alloc, &resource);
    answer_read(writer, &resource, read)
}

/// Answers one request to a log on a shelf (C2SP tlog-tiles), and returns the status, or `None` if no byte came: as
/// `serve_log`, except that it is 404 if the shelf has no such resource and 500 if reading it fails.
pub fn serve_shelf<A: Allocator, S: Shelf, I: Read, O: Write>(
    alloc: A,
    reader: &mut Counted<I>,
    writer: &mut Counted<O>,
    shelf: &S,
) -> Result<Option<u16>, ServeFault>
    ensures { Serves (Unit {0})
        (Exchange (Unit {0})
        (ShelfDecides A S.is_honest (S.kept shelf.now).held (S.may_fail shelf.now)))
        (passage I.remaining reader.old reader.new)
        (passage O.contents writer.old writer.new) result }
{
    let mut buf = [0u8; MOST_HEAD];
    let mut headers = [EMPTY_HEADER_SPAN; MOST_FIELDS];
    match read_head(reader, &mut buf, &mut headers) {
        HeadRead::Failed => Err(ServeFault::Read),
        HeadRead::Nothing => Ok(None),
        HeadRead::NoHead(status) => refuse(writer, status),
        HeadRead::Head(len, spans) => {
            let bytes = &buf[..len];
            let (method, target) = (spans.method.of(bytes), spans.path.of(bytes));
            answer_shelf(alloc, writer, shelf, method, target)
        }
    }
}
