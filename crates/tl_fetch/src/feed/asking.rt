//! Asks a policy's witnesses about a log's checkpoint.

ghost use Rattle.tl_fetch.specs.Trusting.{IsNoteOf, alone, policy_in};

use crate::policy::Policy;
use std::alloc::Global;
use tl_client::{Head, ResourceSource};
use tl_device::DeviceFault;
use tl_feed::{AsksWitness, Proposed, Unasked, line_of};
use tl_key::CosignerVerifier;

/// Asks the witnesses of a policy, and reports why one gave no cosignature. Witnesses are counted from 0; the keys of
/// one name that follow one another are one witness's.
pub trait AsksWitnesses {
    ghost use Rattle.std.specs.Prelude.{MatchOption, ℕ};

    /// Asks one witness. `AsksWitness` says what.
    type Asker: AsksWitness + Drop;

    /// Whether the witness with an index can't be asked.
    ghost lacks: { Self → ℕ → Type 0 };

    /// Whether this asks the witness with an index.
    ghost asks: { Self → ℕ → Self.Asker → Type 0 };

    /// Returns what asks the witness with this index, or None if it can't be asked.
    fn asker(&self, place: usize) -> Option<Self::Asker>
        ensures { MatchOption result (lacks self.now place) (asks self.now place) };

    /// Reports why the witness with this index gave no cosignature.
    fn tell(&mut self, place: usize, why: Unasked);
}

// Returns the line by which the witness with this index, which has these keys, cosigns a note.
fn line_at<S: ResourceSource, Q: AsksWitnesses>(
    alloc: Global,
    source: &S,
    policy: &Policy<'_>,
    note: &str,
    head: &Head,
    known: u64,
    keys: &[CosignerVerifier<Global>],
    witnesses: &Q,
    place: usize,
) -> Result<String, Unasked>
    requires { IsNoteOf (alone (policy_in (λ v. key v) policy.now)) note.now head.now }
{
    let Some(mut asker) = witnesses.asker(place) else {
        return Err(Unasked::Device(DeviceFault::NoHost));
    };
    let proposed = Proposed {
        origin: policy.origin,
        log: policy.log,
        note,
        head,
    };
    let mut known = known;
    line_of(alloc, source, &proposed, &mut known, &mut asker, keys)
}

/// Returns the line by which the witness with this index, which has these keys, cosigns a note, or reports why it
/// doesn't.
pub(crate) fn line_by<S: ResourceSource, Q: AsksWitnesses>(
    alloc: Global,
    source: &S,
    policy: &Policy<'_>,
    note: &str,
    head: &Head,
    known: u64,
    keys: &[CosignerVerifier<Global>],
    witnesses: &mut Q,
    place: usize,
) -> Option<String>
    requires { IsNoteOf (alone (policy_in (λ v. key v) policy.now)) note.now head.now }
{
    match line_at(
        alloc, source, policy, note, head, known, keys, witnesses, place,
    ) {
        Ok(line) => Some(line),
        Err(why) => {
            witnesses.tell(place, why);
            None
        }
    }
}
