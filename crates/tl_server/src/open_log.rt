//! One request to a log that takes entries.

ghost use Rattle.std.specs.Prelude.{◌≡◌};
ghost use Rattle.tl_device.specs.Device.{passage};
ghost use Rattle.tl_server.specs.Inner.Deciding.{Rest};
ghost use Rattle.tl_server.specs.Inner.Opening.{Concluded, SomeStatus, StatusOnBoard};
ghost use Rattle.tl_server.specs.Inner.Posts.{PostCourses};
ghost use Rattle.tl_server.specs.ServeOpen.{AnswersOpenLog, ServesOpen};

use crate::adding::{EntryStatus, Outcome, Submits};
use crate::course::{answer_looked, answer_misplaced, outcome_of};
use crate::fault::ServeFault;
use crate::head::{HeadRead, MOST_FIELDS, MOST_HEAD, read_head};
use crate::log::answer_log;
use crate::look::look_on_board;
use crate::method::is_text;
use crate::posted::{Posted, posted_of};
use crate::receive::{Received, receive};
use crate::sending::{refuse, refuse_busy, refuse_post};
use httparse::spans::EMPTY_HEADER_SPAN;
use std::alloc::Allocator;
use std::io::{Read, Write};
use tl_device::Counted;
use tl_publisher::BoardReader;
use tl_tile::{LONGEST_ENTRY, bundle_width};

/// The most bytes of an entry.
pub(crate) const MOST_ENTRY: u64 = LONGEST_ENTRY as u64;

// Answers to an entry with this status.
fn answer_status<A: Allocator, B: Allocator, O: Write>(
    alloc: A,
    writer: &mut Counted<O>,
    board: &mut BoardReader<B>,
    entry_status: EntryStatus,
    entry: &[u8],
) -> Result<Outcome, ServeFault>
    ensures { Concluded (StatusOnBoard A board.old board.new entry_status entry.now)
        (passage O.contents writer.old writer.new) result }
{
    let (index, size) = match entry_status {
        EntryStatus::Later => return Ok(Outcome::Later),
        EntryStatus::Refused => return outcome_of(refuse_busy(writer)),
        EntryStatus::NoMemory => return outcome_of(refuse(writer, 500)),
        EntryStatus::At { index, size } => (index, size),
    };
    if index >= size {
        return answer_misplaced(writer);
    }
    let bundle = index / 256;
    let width = bundle_width(size, bundle);
    let looked = look_on_board(alloc, board, bundle, width);
    answer_looked(writer, index, entry, &looked)
}

// Receives the body that a head announces, and submits it as an entry. `part` is the part that came with the head.
fn answer_posted<A: Allocator + Copy, B: Allocator, T: Submits, I: Read, O: Write>(
    alloc: A,
    reader: &mut Counted<I>,
    writer: &mut Counted<O>,
    board: &mut BoardReader<B>,
    queue: &mut T,
    posted: Posted,
    part: &[u8],
) -> Result<Outcome, ServeFault>
    ensures { ServesOpen ((queue.new ≡ queue.old) × (board.new ≡ board.old))
        (Rest (PostCourses (queue.new ≡ queue.old) (board.new ≡ board.old) (SomeStatus
        (T.submits queue.old queue.new) (StatusOnBoard A board.old board.new)) posted part.now))
        (passage I.remaining reader.old reader.new)
        (passage O.contents writer.old writer.new) result }
{
    match receive(alloc, reader, posted, part) {
        Received::Failed => Err(ServeFault::Read),
        Received::Refused(status) => outcome_of(refuse_post(writer, status)),
        Received::Whole(body) => {
            let entry = body.as_slice();
            let entry_status = queue.submit(entry);
            answer_status(alloc, writer, board, entry_status, entry)
        }
    }
}

/// Answers one request to a log that takes entries: as `serve_log`, and `POST /add` with the index of the entry in
/// its body, once the board has it there. The status is 405 for another method, 400 without one `Content-Length` (RFC
/// 9112, section 6), 413 above 65,535 bytes, 400 if the input ends before the body does, 503 if the entry isn't
/// published, 500 if allocation fails or the entry isn't there. If its index isn't known yet nothing is written: call
/// again with the same bytes.
pub fn serve_open_log<A: Allocator + Copy, B: Allocator, T: Submits, I: Read, O: Write>(
    alloc: A,
    reader: &mut Counted<I>,
    writer: &mut Counted<O>,
    board: &mut BoardReader<B>,
    queue: &mut T,
) -> Result<Outcome, ServeFault>
    ensures { AnswersOpenLog A (queue.new ≡ queue.old) (T.submits queue.old queue.new)
        board.old board.new (passage I.remaining reader.old reader.new)
        (passage O.contents writer.old writer.new) result }
{
    let mut buf = [0u8; MOST_HEAD];
    let mut headers = [EMPTY_HEADER_SPAN; MOST_FIELDS];
    match read_head(reader, &mut buf, &mut headers) {
        HeadRead::Failed => Err(ServeFault::Read),
        HeadRead::Nothing => Ok(Outcome::Nothing),
        HeadRead::NoHead(status) => outcome_of(refuse(writer, status)),
        HeadRead::Head(len, spans) => {
            let bytes = &buf[..len];
            let (method, target) = (spans.method.of(bytes), spans.path.of(bytes));
            if !is_text(target, b"/add") {
                return outcome_of(answer_log(alloc, writer, board, method, target));
            }
            let posted = posted_of(bytes, &headers, spans, MOST_ENTRY);
            let part = &bytes[spans.len..];
            answer_posted(alloc, reader, writer, board, queue, posted, part)
        }
    }
}
