//! When a witness that gave no line is asked again, and which failures are reported.

ghost use Rattle.std.specs.Prelude.{◌≡◌, ◌↔◌, ◌*◌, IsTrue, min};
ghost use Rattle.tl_feed.specs.Inner.Pausing.{IsTold, pause_after};

use crate::unasked::Unasked;

// How many seconds pass before a witness that gave no line is asked again: at first, and at most.
const FIRST_PAUSE: u64 = 1;

const MOST_PAUSE: u64 = 60;

/// A witness's failure to give a line: its round, its reason, and how many seconds pass before the witness is asked
/// again.
#[derive(Clone, Copy)]
pub(crate) struct Failure {
    pub(crate) round: u64,
    pub(crate) why: Unasked,
    pub(crate) pause: u64,
}

// Returns the pause after one of this many seconds.
fn next_pause(pause: u64) -> u64
    ensures { result ≡ min (2 * pause) 60 }
{
    pause.saturating_mul(2).min(MOST_PAUSE)
}

/// Returns the failure in this round that follows the last one in a row. In another round the pauses begin anew.
pub(crate) fn next_failure(last: Option<Failure>, round: u64, why: Unasked) -> Failure
    ensures { result ≡ record { round = round; why = why; pause = pause_after last round } }
{
    let pause = match last {
        Some(last) if last.round == round => next_pause(last.pause),
        _ => FIRST_PAUSE,
    };
    Failure { round, why, pause }
}

/// Reports whether a failure is reported, given the last one in a row.
pub(crate) fn is_told(last: Option<Failure>, failure: Failure) -> bool
    ensures { IsTrue result ↔ IsTold ⟦<Unasked as PartialEq>⟧.eq last failure }
{
    match last {
        Some(last) => last.round == failure.round || last.why != failure.why,
        None => true,
    }
}
