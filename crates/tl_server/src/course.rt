//! Answering to a submitted entry.

ghost use Rattle.std.specs.Prelude.{◌≡◌};
ghost use Rattle.tl_device.specs.Device.{passage};
ghost use Rattle.tl_server.specs.Adding.{Misplace, Reply, index_answer};
ghost use Rattle.tl_server.specs.Inner.Opening.{Concluded, outcome_of};
ghost use Rattle.tl_server.specs.Inner.Places.{LookedCourse};
ghost use Rattle.tl_server.specs.ServeOpen.{Takes};

use crate::adding::Outcome;
use crate::entry::has_entry;
use crate::fault::ServeFault;
use crate::look::Looked;
use crate::sending::{refuse, send};
use itoa::Buffer;
use std::alloc::Allocator;
use std::io::Write;
use tl_device::Counted;

/// Returns the outcome of sending an answer.
pub(crate) fn outcome_of(sent: Result<Option<u16>, ServeFault>) -> Result<Outcome, ServeFault>
    ensures { result ≡ outcome_of sent }
{
    match sent {
        Ok(Some(status)) => Ok(Outcome::Answered(status)),
        Ok(None) => Ok(Outcome::Nothing),
        Err(fault) => Err(fault),
    }
}

/// Answers 500, because the entry isn't at the index that was reported.
pub(crate) fn answer_misplaced<O: Write>(writer: &mut Counted<O>) -> Result<Outcome, ServeFault>
    ensures { Takes Misplace (passage O.contents writer.old writer.new) result }
{
    match refuse(writer, 500) {
        Ok(_) => Ok(Outcome::Misplaced),
        Err(fault) => Err(fault),
    }
}

// Answers 200 with an index.
fn answer_index<O: Write>(writer: &mut Counted<O>, index: u64) -> Result<Outcome, ServeFault>
    ensures { Takes
        (Reply (index_answer index)) (passage O.contents writer.old writer.new) result }
{
    let mut digits = Buffer::new();
    let text = digits.format(index).as_bytes();
    outcome_of(send(writer, 200, b"", b"text/plain; charset=utf-8", text))
}

/// Answers to an entry that was reported to have this index, after its bundle was looked for.
pub(crate) fn answer_looked<A: Allocator, O: Write>(
    writer: &mut Counted<O>,
    index: u64,
    entry: &[u8],
    looked: &Looked<A>,
) -> Result<Outcome, ServeFault>
    ensures { Concluded (LookedCourse index entry.now looked.now)
        (passage O.contents writer.old writer.new) result }
{
    let (bytes, width) = match looked {
        Looked::Failed => return outcome_of(refuse(writer, 500)),
        Looked::Nothing => return answer_misplaced(writer),
        Looked::Bytes(bytes, width) => (bytes, *width),
    };
    let place = (index % 256) as u32;
    if has_entry(bytes.as_slice(), width, place, entry) {
        answer_index(writer, index)
    } else {
        answer_misplaced(writer)
    }
}
