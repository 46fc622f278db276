//! The submitters of a log.

ghost use Rattle.std.specs.Global.{Global as GlobalValue};
ghost use Rattle.std.specs.Prelude.{◌≡◌, ◌<◌, IfSome, length};
ghost use Rattle.tl_sequencer.specs.Log.{IsSenderOf, Log};
ghost use Rattle.tl_rows.specs.Inner.Kept.{AreSenders};

use crate::words::{Step, Told, bytes_of};
use std::alloc::{AllocError, Global};
use tl_sequencer::{Refused, Submitter, Why};

/// What sends to a lane.
pub(crate) type Sender = Submitter<Global, Global>;

// Returns the entries that a word gives, `count` of them: each has its bytes, with its number behind them if the word
// ends with `#`.
fn entries_of(alloc: Global, word: &str, count: u64) -> Result<Vec<Vec<u8>>, AllocError> {
    let mut entries = Vec::new(alloc);
    for number in 0..count {
        let mut entry = bytes_of(alloc, word.trim_end_matches('#'))?;
        if word.ends_with('#') {
            entry.extend_from_slice(&number.to_be_bytes())?;
        }
        entries.push(entry)?;
    }
    Ok(entries)
}

// Sends entries, and returns the number of the last one, or why one wasn't sent and how many bytes came back.
fn sent(submitter: &mut Sender, entries: Vec<Vec<u8>>) -> Result<u64, (Why, usize)>
    ensures { (submitter.new.ring ≡ submitter.old.ring)
        × (submitter.new.lane ≡ submitter.old.lane) }
{
    let mut last = 0;
    for entry in entries {
        match submitter.submit(entry) {
            Ok(own) => last = own,
            Err(Refused { entry, why }) => return Err((why, entry.len())),
        }
    }
    Ok(last)
}

// Returns the place of the submitter of a lane.
fn place_of(submitters: &[Sender], lane: u32) -> Option<usize>
    ensures { IfSome result (λ place. place < length submitters.now) }
{
    for place in 0..submitters.len() {
        if submitters[place].lane() == lane {
            return Some(place);
        }
    }
    None
}

/// Removes the submitter of a lane, and returns it.
pub(crate) fn taken_out(submitters: &mut Vec<Sender>, lane: u32) -> Option<Sender>
    ensures rest { (log : Log GlobalValue) → AreSenders log submitters.old.items
        → AreSenders log submitters.new.items }
    ensures own { (log : Log GlobalValue) → AreSenders log submitters.old.items
        → IfSome result (λ s. IsSenderOf s log) }
{
    match place_of(submitters.as_slice(), lane) {
        Some(place) => Some(submitters.remove(place)),
        None => None,
    }
}

/// Sends the entry that a word gives to a lane, as often as the words say. The entries are made before, so that
/// nothing is sent if an allocation fails.
pub(crate) fn send(
    alloc: Global,
    submitters: &mut Vec<Sender>,
    lane: u32,
    entry: (&str, u64),
    step: &mut Step<'_>,
) -> Told
    ensures { (log : Log GlobalValue) → AreSenders log submitters.old.items
        → AreSenders log submitters.new.items }
{
    let Some(place) = place_of(submitters.as_slice(), lane) else {
        return step.say("no submitter");
    };
    let entries = entries_of(alloc, entry.0, entry.1)?;
    match sent(&mut submitters[place], entries) {
        Ok(last) => step.tell(last),
        Err(back) => step.tell(back),
    }
}
