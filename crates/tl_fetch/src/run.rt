//! Fetches from any source, with any store for the state.

ghost use Rattle.std.specs.Prelude.{◌≡◌, ◌≢◌, IfErr, OnErr, OnOk, option_map, string_bytes};
ghost use Rattle.tl_device.specs.Device.{IsUnwritten, passage};
ghost use Rattle.tl_fetch.specs.Entries.{AreLinesBetween};
ghost use Rattle.tl_fetch.specs.Faults.{IsNoAccusation};
ghost use Rattle.tl_fetch.specs.Fetching.{FailsAll, FailsGrown, HasFetched, HasPrinted, RefusesFetch, RefusesGrown, first_wanted, grounds_of};
ghost use Rattle.tl_fetch.specs.Inner.Judging.{JudgesTwo, two_of};
ghost use Rattle.tl_fetch.specs.Printed.{IsBegun, IsWanted, PrintedSome, PrintedWhole, RefusesWanted};
ghost use Rattle.tl_fetch.specs.Trusting.{IsGrown, IsKnown, IsNoteOf, policy_in};

use crate::fault::FetchFault;
use crate::judging::{Update, is_same, judge};
use crate::listing::print_entries;
use crate::observer::Observer;
use crate::opening::{Trusted, trusted_last, trusted_two};
use crate::options::FetchRequest;
use crate::policy::Policy;
use crate::printing::{print_entry, print_head, print_proof, print_raw};
use crate::state::TrustStore;
use std::alloc::Global;
use std::io::Write;
use tl_client::{Head, ResourceSource};
use tl_device::Counted;
use tl_source::{AsksHost, HostClient, Requests};

// What is asked for of a log of which this many entries were known.
#[derive(Clone, Copy)]
struct Task {
    wanted: FetchRequest,
    known: u64,
}

// Prints what is asked for of the log of a policy.
fn print_asked<S: ResourceSource + AsksHost, H: HostClient, O: Observer, W: Write>(
    alloc: Global,
    source: &S,
    requests: &Requests<'_, H>,
    policy: &Policy<'_>,
    head: &Head,
    asked: Task,
    observer: &mut O,
    writer: &mut Counted<W>,
) -> Result<(), FetchFault>
    ensures printed { OnOk result (PrintedWhole (IsWanted policy.now.origin.now
        asked.known head.now asked.wanted) (passage W.contents writer.old writer.new)) }
    ensures part { OnErr result (PrintedSome (IsBegun policy.now.origin.now
        asked.known head.now asked.wanted) (passage W.contents writer.old writer.new)) }
    ensures fair { IfErr result IsNoAccusation }
    ensures refused { IfErr result (λ fault. RefusesWanted (S.may_answer source.now)
        (S.may_lack source.now) asked.known head.now asked.wanted fault
        (passage W.contents writer.old writer.new)) }
{
    match asked.wanted {
        FetchRequest::Head => print_head(alloc, policy.origin, head, writer),
        FetchRequest::Entry(index) => print_entry(alloc, source, head, index, observer, writer),
        FetchRequest::Raw(index) => print_raw(alloc, source, head, index, observer, writer),
        FetchRequest::All => {
            print_entries(alloc, source, requests, head, asked.known, observer, writer)
        }
        FetchRequest::Proof(index) => print_proof(alloc, source, head, index, observer, writer),
    }
}

// Keeps the new note, and then prints what is asked for, which isn't all entries.
fn keep_and_print<
    S: ResourceSource + AsksHost,
    H: HostClient,
    K: TrustStore,
    O: Observer,
    W: Write,
>(
    alloc: Global,
    source: &S,
    requests: &Requests<'_, H>,
    policy: &Policy<'_>,
    step: &Update<'_, '_>,
    wanted: FetchRequest,
    state: &mut K,
    observer: &mut O,
    writer: &mut Counted<W>,
) -> Result<(), FetchFault>
    requires had { K.may_have state.old (option_map (λ s. s.now) step.now.last) }
    requires known { IsKnown (policy_in (λ v. key v) policy.now)
        (option_map (λ s. s.now) step.now.last) step.now.old.now }
    requires trusted { IsNoteOf (policy_in (λ v. key v) policy.now) step.now.note.now
        step.now.new.now }
    requires grown { IsGrown step.now.old.now step.now.new.now }
    ensures printed { OnOk result (PrintedWhole (IsWanted policy.now.origin.now
        step.now.old.now.size step.now.new.now wanted) (passage W.contents writer.old writer.new)) }
    ensures kept { OnOk result (K.has_kept state.new step.now.note.now) }
    ensures refused { IfErr result (λ fault. FailsGrown (grounds_of (S.may_answer source.now)
        (S.may_lack source.now) (K.may_have state.old) (K.may_fail state.old)
        (state.new ≡ state.old) (K.has_kept state.new)) (policy_in (λ v. key v) policy.now) wanted
        (two_of (option_map (λ s. s.now) step.now.last) step.now.old.now step.now.note.now
        step.now.new.now) fault (passage W.contents writer.old writer.new)) }
{
    if let Err(fault) = state.keep(policy, step.last, step.note) {
        return Err(fault);
    }
    let asked = Task {
        wanted,
        known: step.old.size,
    };
    match print_asked(
        alloc, source, requests, policy, step.new, asked, observer, writer,
    ) {
        Ok(()) => Ok(()),
        Err(fault) => Err(fault),
    }
}

// Prints all entries from this index on, and then keeps the new note, first as the trusted one and then as that of
// what was printed. So the entries of a run that fails are printed again.
fn print_and_keep<
    S: ResourceSource + AsksHost,
    H: HostClient,
    K: TrustStore,
    C: TrustStore,
    O: Observer,
    W: Write,
>(
    alloc: Global,
    source: &S,
    requests: &Requests<'_, H>,
    policy: &Policy<'_>,
    step: &Update<'_, '_>,
    since: &Update<'_, '_>,
    from: u64,
    state: &mut K,
    printed: &mut C,
    observer: &mut O,
    writer: &mut Counted<W>,
) -> Result<(), FetchFault>
    requires had { K.may_have state.old (option_map (λ s. s.now) step.now.last) }
    requires known { IsKnown (policy_in (λ v. key v) policy.now)
        (option_map (λ s. s.now) step.now.last) step.now.old.now }
    requires trusted { IsNoteOf (policy_in (λ v. key v) policy.now) step.now.note.now
        step.now.new.now }
    requires grown { IsGrown step.now.old.now step.now.new.now }
    requires had_marked { C.may_have printed.old (option_map (λ s. s.now) since.now.last) }
    requires marked { IsKnown (policy_in (λ v. key v) policy.now)
        (option_map (λ s. s.now) since.now.last) since.now.old.now }
    requires since { IsGrown since.now.old.now step.now.new.now }
    ensures printed { OnOk result (PrintedWhole (AreLinesBetween step.now.new.now
        from step.now.new.now.size) (passage W.contents writer.old writer.new)) }
    ensures kept { OnOk result (K.has_kept state.new step.now.note.now) }
    ensures marked { OnOk result (C.has_kept printed.new step.now.note.now) }
    ensures refused { IfErr result (λ fault. FailsAll (grounds_of (S.may_answer source.now)
        (S.may_lack source.now) (K.may_have state.old) (K.may_fail state.old)
        (state.new ≡ state.old) (K.has_kept state.new)) (grounds_of (S.may_answer source.now)
        (S.may_lack source.now) (C.may_have printed.old) (C.may_fail printed.old)
        (printed.new ≡ printed.old) (C.has_kept printed.new)) (policy_in (λ v. key v) policy.now)
        from (two_of (option_map (λ s. s.now) step.now.last) step.now.old.now step.now.note.now
        step.now.new.now) fault (passage W.contents writer.old writer.new)) }
{
    let note = step.note;
    if let Err(fault) = print_entries(alloc, source, requests, step.new, from, observer, writer) {
        return Err(fault);
    }
    if let Err(fault) = state.keep(policy, step.last, note) {
        return Err(fault);
    }
    match printed.keep(policy, since.last, note) {
        Ok(()) => Ok(()),
        Err(fault) => Err(fault),
    }
}

// Returns the index from which on all entries are printed: behind those that were printed, or else behind those that
// were known.
fn first_of(mark: &Trusted<Option<String>>, known: &Head) -> u64
    ensures { result ≡ first_wanted (option_map string_bytes mark.now.note) mark.now.head
        known.now }
{
    match &mark.note {
        Some(_) => mark.head.size,
        None => known.size,
    }
}

// Checks that the log goes on from where all entries were printed. That may be what was known, from which it does go
// on.
fn judge_marked<S: ResourceSource, O: Observer, W: Write>(
    alloc: Global,
    source: &S,
    since: &Update<'_, '_>,
    known: &Head,
    observer: &mut O,
    writer: &mut Counted<W>,
) -> Result<(), FetchFault>
    requires { IsGrown known.now since.now.new.now }
    ensures grown { OnOk result (IsGrown since.now.old.now since.now.new.now) }
    ensures silent { OnOk result (IsUnwritten (passage W.contents writer.old writer.new)) }
    ensures refused { IfErr result (λ fault. JudgesTwo (S.may_answer source.now)
        (S.may_lack source.now) (two_of (option_map (λ s. s.now)
        since.now.last) since.now.old.now since.now.note.now since.now.new.now) fault
        (passage W.contents writer.old writer.new)) }
{
    if is_same(since.old, known) {
        return Ok(());
    }
    judge(alloc, source, since, observer, writer)
}

// Prints all entries that weren't printed yet, and keeps the new note.
fn fetch_all<
    S: ResourceSource + AsksHost,
    H: HostClient,
    K: TrustStore,
    C: TrustStore,
    O: Observer,
    W: Write,
>(
    alloc: Global,
    source: &S,
    requests: &Requests<'_, H>,
    policy: &Policy<'_>,
    step: &Update<'_, '_>,
    state: &mut K,
    printed: &mut C,
    observer: &mut O,
    writer: &mut Counted<W>,
) -> Result<(), FetchFault>
    requires had { K.may_have state.old (option_map (λ s. s.now) step.now.last) }
    requires known { IsKnown (policy_in (λ v. key v) policy.now)
        (option_map (λ s. s.now) step.now.last) step.now.old.now }
    requires trusted { IsNoteOf (policy_in (λ v. key v) policy.now) step.now.note.now
        step.now.new.now }
    requires grown { IsGrown step.now.old.now step.now.new.now }
    ensures printed { OnOk result (HasPrinted (C.may_have printed.old) (C.has_kept printed.new)
        (policy_in (λ v. key v) policy.now) (two_of (option_map (λ s. s.now) step.now.last)
        step.now.old.now step.now.note.now step.now.new.now) FetchRequest.All
        (passage W.contents writer.old writer.new)) }
    ensures kept { OnOk result (K.has_kept state.new step.now.note.now) }
    ensures refused { IfErr result (λ fault. RefusesGrown (grounds_of (S.may_answer source.now)
        (S.may_lack source.now) (K.may_have state.old) (K.may_fail state.old)
        (state.new ≡ state.old) (K.has_kept state.new)) (grounds_of (S.may_answer source.now)
        (S.may_lack source.now) (C.may_have printed.old) (C.may_fail printed.old)
        (printed.new ≡ printed.old) (C.has_kept printed.new)) (policy_in (λ v. key v) policy.now)
        FetchRequest.All (two_of (option_map (λ s. s.now) step.now.last) step.now.old.now
        step.now.note.now step.now.new.now) fault (passage W.contents writer.old writer.new)) }
{
    let mark = match trusted_last(alloc, policy, printed) {
        Ok(mark) => mark,
        Err(fault) => return Err(fault),
    };
    let since = Update {
        last: mark.note.as_deref(),
        old: &mark.head,
        note: step.note,
        new: step.new,
    };
    if let Err(fault) = judge_marked(alloc, source, &since, step.old, observer, writer) {
        return Err(fault);
    }
    let from = first_of(&mark, step.old);
    match print_and_keep(
        alloc, source, requests, policy, step, &since, from, state, printed, observer, writer,
    ) {
        Ok(()) => Ok(()),
        Err(fault) => Err(fault),
    }
}

// Prints what is asked for of a log that goes on from what was known, and keeps the new note. Only a request for all
// entries changes the note of what was printed.
fn fetch_grown<
    S: ResourceSource + AsksHost,
    H: HostClient,
    K: TrustStore,
    C: TrustStore,
    O: Observer,
    W: Write,
>(
    alloc: Global,
    source: &S,
    requests: &Requests<'_, H>,
    policy: &Policy<'_>,
    step: &Update<'_, '_>,
    wanted: FetchRequest,
    state: &mut K,
    printed: &mut C,
    observer: &mut O,
    writer: &mut Counted<W>,
) -> Result<(), FetchFault>
    requires had { K.may_have state.old (option_map (λ s. s.now) step.now.last) }
    requires known { IsKnown (policy_in (λ v. key v) policy.now)
        (option_map (λ s. s.now) step.now.last) step.now.old.now }
    requires trusted { IsNoteOf (policy_in (λ v. key v) policy.now) step.now.note.now
        step.now.new.now }
    requires grown { IsGrown step.now.old.now step.now.new.now }
    ensures printed { OnOk result (HasPrinted (C.may_have printed.old) (C.has_kept printed.new)
        (policy_in (λ v. key v) policy.now) (two_of (option_map (λ s. s.now) step.now.last)
        step.now.old.now step.now.note.now step.now.new.now) wanted
        (passage W.contents writer.old writer.new)) }
    ensures kept { OnOk result (K.has_kept state.new step.now.note.now) }
    ensures unmoved { wanted ≢ FetchRequest.All → printed.new ≡ printed.old }
    ensures refused { IfErr result (λ fault. RefusesGrown (grounds_of (S.may_answer source.now)
        (S.may_lack source.now) (K.may_have state.old) (K.may_fail state.old)
        (state.new ≡ state.old) (K.has_kept state.new)) (grounds_of (S.may_answer source.now)
        (S.may_lack source.now) (C.may_have printed.old) (C.may_fail printed.old)
        (printed.new ≡ printed.old) (C.has_kept printed.new)) (policy_in (λ v. key v) policy.now)
        wanted (two_of (option_map (λ s. s.now) step.now.last) step.now.old.now step.now.note.now
        step.now.new.now) fault (passage W.contents writer.old writer.new)) }
{
    match wanted {
        FetchRequest::All => fetch_all(
            alloc, source, requests, policy, step, state, printed, observer, writer,
        ),
        _ => keep_and_print(
            alloc, source, requests, policy, step, wanted, state, observer, writer,
        ),
    }
}

/// Fetches from the log of this policy. The source's checkpoint has to be trusted (`open_trusted`), and to extend the
/// state's by an accepted consistency proof (`tl_client::prove_growth`). It is kept, and what is asked for is
/// printed. All entries start behind those that `printed` has as printed, whose checkpoint the log has to extend as
/// well, or else behind the state's; both notes are kept after them. If the log forked, it prints evidence: the
/// trusted note, the new one, and what shows the fork.
pub fn fetch_under<
    S: ResourceSource + AsksHost,
    H: HostClient,
    K: TrustStore,
    C: TrustStore,
    O: Observer,
    W: Write,
>(
    alloc: Global,
    source: &S,
    requests: &Requests<'_, H>,
    policy: &Policy<'_>,
    wanted: FetchRequest,
    state: &mut K,
    printed: &mut C,
    observer: &mut O,
    writer: &mut Counted<W>,
) -> Result<(), FetchFault>
    ensures fetched { OnOk result (HasFetched (S.may_answer source.now) (record {
      may_have =
          K.may_have state.old;
      has_kept = K.has_kept state.new;
    }) (record {
      may_have = C.may_have
          printed.old;
      has_kept = C.has_kept printed.new;
    }) (policy_in (λ v. key v) policy.now) wanted
        (passage W.contents writer.old writer.new)) }
    ensures unmoved { wanted ≢ FetchRequest.All → printed.new ≡ printed.old }
    ensures refused { IfErr result (λ fault. RefusesFetch (grounds_of (S.may_answer source.now)
        (S.may_lack source.now) (K.may_have state.old) (K.may_fail state.old)
        (state.new ≡ state.old) (K.has_kept state.new)) (grounds_of (S.may_answer source.now)
        (S.may_lack source.now) (C.may_have printed.old) (C.may_fail printed.old)
        (printed.new ≡ printed.old) (C.has_kept printed.new)) (policy_in (λ v. key v) policy.now)
        wanted fault (passage W.contents writer.old writer.new)) }
{
    let (last, now) = match trusted_two(alloc, source, policy, state) {
        Ok(both) => both,
        Err(fault) => return Err(fault),
    };
    let step = Update {
        last: last.note.as_deref(),
        old: &last.head,
        note: now.note.as_str(),
        new: &now.head,
    };
    if let Err(fault) = judge(alloc, source, &step, observer, writer) {
        return Err(fault);
    }
    match fetch_grown(
        alloc, source, requests, policy, &step, wanted, state, printed, observer, writer,
    ) {
        Ok(()) => Ok(()),
        Err(fault) => Err(fault),
    }
}
