//! One request to a log that takes entries and shows what is on a shelf.

ghost use Rattle.std.specs.Prelude.{◌≡◌};
ghost use Rattle.tl_device.specs.Device.{passage};
ghost use Rattle.tl_server.specs.Inner.Deciding.{Rest};
ghost use Rattle.tl_server.specs.Inner.Opening.{Concluded, SomeStatus, StatusOnShelf};
ghost use Rattle.tl_server.specs.Inner.Posts.{PostCourses};
ghost use Rattle.tl_server.specs.ServeOpen.{AnswersOpenShelf, ServesOpen};

use crate::adding::{EntryStatus, Outcome, Submits};
use crate::course::{answer_looked, answer_misplaced, outcome_of};
use crate::fault::ServeFault;
use crate::head::{HeadRead, MOST_FIELDS, MOST_HEAD, read_head};
use crate::method::is_text;
use crate::open_log::MOST_ENTRY;
use crate::posted::{Posted, posted_of};
use crate::read_back::ReadBack;
use crate::receive::{Received, receive};
use crate::sending::{refuse, refuse_busy, refuse_post};
use crate::shelf::answer_shelf;
use httparse::spans::EMPTY_HEADER_SPAN;
use std::alloc::Allocator;
use std::io::{Read, Write};
use tl_archive::Shelf;
use tl_device::Counted;
use tl_tile::bundle_width;

// Answers to an entry with this status.
fn answer_status<A: Allocator + Copy, S: Shelf, O: Write>(
    alloc: A,
    writer: &mut Counted<O>,
    shelf: &mut ReadBack<S, A>,
    entry_status: EntryStatus,
    entry: &[u8],
) -> Result<Outcome, ServeFault>
    ensures same { shelf.new ≡ shelf.old }
    ensures answered { Concluded (StatusOnShelf A S.is_honest (S.kept shelf.old).held (S.may_fail shelf.old)
        entry_status entry.now) (passage O.contents writer.old writer.new) result }
{
    let (index, size) = match entry_status {
        EntryStatus::Later => return Ok(Outcome::Later),
        EntryStatus::Refused => return outcome_of(refuse_busy(writer)),
        EntryStatus::NoMemory => return outcome_of(refuse(writer, 500)),
        EntryStatus::At { index, size } => (index, size),
    };
    if index >= size {
        return answer_misplaced(writer);
    }
    let bundle = index / 256;
    let width = bundle_width(size, bundle);
    let looked = shelf.look(alloc, bundle, width);
    let answered = answer_looked(writer, index, entry, &looked);
    shelf.keep(bundle, looked);
    answered
}

// Receives the body that a head announces, and submits it as an entry. `part` is the part that came with the head.
fn answer_posted<A: Allocator + Copy, S: Shelf, T: Submits, I: Read, O: Write>(
    alloc: A,
    reader: &mut Counted<I>,
    writer: &mut Counted<O>,
    shelf: &mut ReadBack<S, A>,
    queue: &mut T,
    posted: Posted,
    part: &[u8],
) -> Result<Outcome, ServeFault>
    ensures same { shelf.new ≡ shelf.old }
    ensures answered { ServesOpen (queue.new ≡ queue.old)
        (Rest (PostCourses (queue.new ≡ queue.old) (Unit {0}) (SomeStatus
        (T.submits queue.old queue.new) (StatusOnShelf A S.is_honest (S.kept shelf.old).held
        (S.may_fail shelf.old))) posted part.now))
        (passage I.remaining reader.old reader.new)
        (passage O.contents writer.old writer.new) result }
{
    match receive(alloc, reader, posted, part) {
        Received::Failed => Err(ServeFault::Read),
        Received::Refused(status) => outcome_of(refuse_post(writer, status)),
        Received::Whole(body) => {
            let entry = body.as_slice();
            let entry_status = queue.submit(entry);
            answer_status(alloc, writer, shelf, entry_status, entry)
        }
    }
}

/// Answers one request to a log on a shelf that takes entries: `POST /add` as `serve_open_log`, and any other target
/// as `serve_shelf`. If a shelf doesn't have the bundle for the reported size, the full bundle is read instead. A
/// bundle that was read is kept until `forget`.
pub fn serve_open_shelf<A: Allocator + Copy, S: Shelf, T: Submits, I: Read, O: Write>(
    alloc: A,
    reader: &mut Counted<I>,
    writer: &mut Counted<O>,
    shelf: &mut ReadBack<S, A>,
    queue: &mut T,
) -> Result<Outcome, ServeFault>
    ensures same { shelf.new ≡ shelf.old }
    ensures answered { AnswersOpenShelf A (queue.new ≡ queue.old) (T.submits queue.old queue.new)
        S.is_honest (S.kept shelf.old).held (S.may_fail shelf.old)
        (passage I.remaining reader.old reader.new)
        (passage O.contents writer.old writer.new) result }
{
    let mut buf = [0u8; MOST_HEAD];
    let mut headers = [EMPTY_HEADER_SPAN; MOST_FIELDS];
    match read_head(reader, &mut buf, &mut headers) {
        HeadRead::Failed => Err(ServeFault::Read),
        HeadRead::Nothing => Ok(Outcome::Nothing),
        HeadRead::NoHead(status) => outcome_of(refuse(writer, status)),
        HeadRead::Head(len, spans) => {
            let bytes = &buf[..len];
            let (method, target) = (spans.method.of(bytes), spans.path.of(bytes));
            if !is_text(target, b"/add") {
                return outcome_of(answer_shelf(alloc, writer, shelf.shelf(), method, target));
            }
            let posted = posted_of(bytes, &headers, spans, MOST_ENTRY);
            let part = &bytes[spans.len..];
            answer_posted(alloc, reader, writer, shelf, queue, posted, part)
        }
    }
}
