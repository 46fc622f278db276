//! Whether a connection stays open after an answer, and where the next request begins then.

ghost use Rattle.std.specs.Prelude.{◌≡◌, ◌≤◌, ◌↔◌, ℕ, IsTrue, MatchOption, length};
ghost use Rattle.tl_keepalive.specs.KeepAlive as spec;
ghost use Rattle.tl_keepalive.specs.KeepAlive.{Stays, WaitsForContinue};

use crate::facts::Facts;

// Reports whether a connection may stay after an answer with this status.
fn may_follow(status: u16) -> bool
    ensures { result ≡ spec.may_follow status }
{
    !(status == 400 || status == 413 || status == 431 || status == 500)
}

/// Returns where the next request begins, if the connection stays open after an answer with this status to the one
/// that these bytes begin with.
pub(crate) fn next_start(bytes: &[u8], status: u16) -> Option<usize>
    ensures { MatchOption result ((end : ℕ) → ¬ (Stays bytes.now status end))
        (λ end. (end ≤ length bytes.now) × Stays bytes.now status end) }
{
    if !may_follow(status) {
        return None;
    }
    let Some(facts) = Facts::of(bytes) else {
        return None;
    };
    if !facts.asks_to_stay() {
        return None;
    }
    let Some(body) = facts.body_len() else {
        return None;
    };
    if body > (bytes.len() - facts.len) as u64 {
        return None;
    }
    Some(facts.len + body as usize)
}

/// Reports whether the client waits for 100 before it sends the body of the request whose head this is.
pub(crate) fn waits_for_continue(bytes: &[u8]) -> bool
    ensures { IsTrue result ↔ WaitsForContinue bytes.now }
{
    let Some(facts) = Facts::of(bytes) else {
        return false;
    };
    if facts.len != bytes.len() {
        return false;
    }
    if facts.minor != 1 {
        return false;
    }
    facts.fields.expect_continue
}
