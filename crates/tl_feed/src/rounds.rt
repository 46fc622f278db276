//! Asking one witness in each round of a ballot.

ghost use Rattle.std.specs.Prelude.{IfOk, IfSome, map, string_bytes};
ghost use Rattle.tl_feed.specs.Lines.{CosignsNote};
ghost use Rattle.tl_key.specs.NoteKey.{verifier_key};

use crate::ballot::Ballot;
use crate::failing::{Failure, is_told, next_failure};
use crate::fault::AskFault;
use crate::lines::line_of;
use crate::proposed::{AsksWitness, LogIdentity, Proposed};
use crate::unasked::Unasked;
use std::alloc::Global;
use std::sync::Wait;
use std::time::Clock;
use tl_checkpoint::{OpenCheckpointFault, open_checkpoint};
use tl_client::{Head, ResourceSource};
use tl_key::CosignerVerifier;

// Returns the line by which a witness cosigns a note, or `None` if the note isn't the log's, so that no witness is
// asked.
fn line_by<S: ResourceSource, Q: AsksWitness>(
    alloc: Global,
    source: &S,
    log: &LogIdentity<'_>,
    note: &str,
    known: &mut u64,
    asker: &mut Q,
    keys: &[CosignerVerifier<Global>],
) -> Result<Option<String>, Unasked>
    ensures { IfOk result (λ found. IfSome found
        (λ line. CosignsNote (map verifier_key keys.now) note.now (string_bytes line))) }
{
    let checkpoint = match open_checkpoint(alloc, note, log.keys) {
        Ok(checkpoint) => checkpoint,
        Err(OpenCheckpointFault::OutOfMemory) => return Err(Unasked::Ask(AskFault::OutOfMemory)),
        Err(_) => return Ok(None),
    };
    if checkpoint.origin.as_str() != log.origin {
        return Ok(None);
    }
    let head = Head {
        size: checkpoint.size,
        root: checkpoint.root,
    };
    let proposed = Proposed {
        origin: log.origin,
        log: log.keys,
        note,
        head: &head,
    };
    match line_of(alloc, source, &proposed, known, asker, keys) {
        Ok(line) => Ok(Some(line)),
        Err(why) => Err(why),
    }
}

/// Asks the witness at this place for the line by which one of its keys cosigns the note, in each round until the
/// ballot ends. After a fault it asks again in the next round, or after 1 second, then 2, 4, up to 60, or sooner if
/// the ballot is urged. It puts a fault into the ballot unless the last one in a row was in an earlier round and for
/// the same reason. It skips a note that the log didn't sign. It may wait.
pub fn ask_in_rounds<R: Wait + Clock, S: ResourceSource, Q: AsksWitness>(
    rt: &R,
    alloc: Global,
    ballot: &Ballot,
    place: usize,
    source: &S,
    log: &LogIdentity<'_>,
    asker: &mut Q,
    keys: &[CosignerVerifier<Global>],
) {
    let (mut known, mut after) = (0, 0);
    let mut last: Option<Failure> = None;
    for _ in rt.forever() {
        let Some(round) = ballot.next(rt, place, after) else {
            return;
        };
        let (note, urged) = (round.note.as_str(), ballot.urged());
        match line_by(alloc, source, log, note, &mut known, asker, keys) {
            Ok(Some(line)) => {
                ballot.put_line(rt, place, round.number, line);
                last = None;
            }
            Ok(None) => after = round.number.wrapping_add(1),
            Err(why) => {
                let failure = next_failure(last, round.number, why);
                if is_told(last, failure) {
                    ballot.put_unasked(rt, place, why);
                }
                last = Some(failure);
                if !ballot.pause(rt, round.number, failure.pause, urged) {
                    return;
                }
            }
        }
    }
}
