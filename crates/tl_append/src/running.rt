//! The command `append`.

ghost use Rattle.std.specs.Prelude.{◌≡◌, ◌⊎◌, ◌∷◌, [], true, false, string_bytes, OnErr, OnOk};
ghost use Rattle.tl_device.specs.Device.{passage};
ghost use Rattle.tl_note.specs.Key.{IsKeyName};
ghost use Rattle.tl_ledger.specs.Marks.{IsWithin};
ghost use Rattle.tl_ledger.specs.Opening.{found_size};
ghost use Rattle.tl_run.specs.Signing.{LogKey};
ghost use Rattle.tl_run.specs.Origins.{RefusesOrigin};
ghost use Rattle.tl_append.specs.Keys.{log_key_of, opening_key_of};
ghost use Rattle.tl_append.specs.Proposing.{HasProposal};
ghost use Rattle.tl_append.specs.Running.{BeginsAsAsked, GoesOn, HasOwnProposal, IsLogKey, IsStart};
ghost use Rattle.tl_append.specs.Running.{MarksLast, Stays, batch_size, visit};
ghost use Rattle.tl_append.specs.Inner.Under.{GoesOnUnder};

use crate::appending::append_lines;
use crate::keys::{OperatorKeys, keys_of};
use crate::opening::{check_asked, check_start, open_ledger};
use crate::options::{AppendOptions, Batching, Joining};
use crate::proposal::ProposalStore;
use std::alloc::Global;
use std::fs::Files;
use std::io::{Read, Write};
use tl_archive::Shelf;
use tl_device::Counted;
use tl_ledger::Found;
use tl_note::is_key_name;
use tl_run::RunFault;

// Appends the lines of the input to the log on the shelf under these keys.
fn append_under<S: Shelf, P: ProposalStore, R: Read, W: Write>(
    alloc: Global,
    keys: OperatorKeys,
    options: &AppendOptions,
    start: Option<u64>,
    joining: Joining,
    shelf: &mut S,
    store: &P,
    found: &mut Found<Global>,
    reader: &mut Counted<R>,
    writer: &mut Counted<W>,
) -> Result<(), RunFault>
    requires { IsKeyName (log_key_of keys.signer).name }
    ensures goes_on { GoesOnUnder (log_key_of keys.signer) (batch_size options.now.batch) found.new
        (visit S.kept S.trace shelf.old shelf.new) (passage R.remaining reader.old reader.new)
        (passage W.contents writer.old writer.new) result }
    ensures marked { OnOk result (MarksLast (log_key_of keys.signer) found.new
        (visit S.kept S.trace shelf.old shelf.new) (S.published shelf.new)) }
    ensures fresh { OnOk result (BeginsAsAsked options.now.is_new found.new.head) }
    ensures left { OnErr result (BeginsAsAsked options.now.is_new found.new.head
        ⊎ Stays (visit S.kept S.trace shelf.old shelf.new)
        (passage R.remaining reader.old reader.new)) }
    ensures within { options.now.allows_older ≡ false → S.is_honest ≡ true
        → OnOk result (IsWithin (found_size found.new.head) (S.published shelf.old)) }
    ensures newest { Stays (visit S.kept S.trace shelf.old shelf.new)
        (passage R.remaining reader.old reader.new) ⊎ HasProposal (P.may_have store.now)
        (opening_key_of keys.verifier ∷ []) (found_size found.new.head) }
    ensures start { Stays (visit S.kept S.trace shelf.old shelf.new)
        (passage R.remaining reader.old reader.new) ⊎ IsStart start (found_size found.new.head) }
    ensures place { S.place shelf.new ≡ S.place shelf.old }
{
    let OperatorKeys { signer, verifier } = keys;
    let allows_older = options.allows_older;
    let opened = match open_ledger(alloc, verifier, allows_older, shelf, store, found) {
        Ok(opened) => opened,
        Err(fault) => return Err(fault),
    };
    let mut ledger = opened.ledger;
    match check_start(&ledger, start) {
        Ok(()) => {}
        Err(fault) => return Err(fault),
    }
    match check_asked(found, options.is_new) {
        Ok(()) => {}
        Err(fault) => return Err(fault),
    }
    let size = options.batch_size();
    let batching = Batching {
        size,
        keeps_partials: options.keeps_partials,
        joining,
    };
    match append_lines(alloc, &signer, batching, shelf, &mut ledger, reader, writer) {
        Ok(()) => Ok(()),
        Err(fault) => Err(fault),
    }
}

/// Appends the lines of the input to the log on the shelf, or to a new one, and publishes it after each batch and at
/// the end, with a printed line of size and root each time. The log goes on from its checkpoint or the store's
/// proposal (`open_ledger`), and has to have `start` entries, if given; `found` holds what was read. `Taken`: there
/// is a log, and a new one was to begin. `NothingThere`: there is no log. `Older`: more entries were published, or
/// the log doesn't have `start`.
pub fn run_append<H: Files, S: Shelf, P: ProposalStore, R: Read, W: Write>(
    rt: &H,
    alloc: Global,
    options: &AppendOptions,
    start: Option<u64>,
    joining: Joining,
    shelf: &mut S,
    store: &P,
    found: &mut Found<Global>,
    reader: &mut Counted<R>,
    writer: &mut Counted<W>,
) -> Result<(), RunFault>
    ensures refuses { RefusesOrigin
        (string_bytes options.now.origin) (passage R.remaining reader.old reader.new) result }
    ensures goes_on { GoesOn options.now.key (string_bytes options.now.origin)
        (batch_size options.now.batch) found.new
        (visit S.kept S.trace shelf.old shelf.new) (passage R.remaining reader.old reader.new)
        (passage W.contents writer.old writer.new) result }
    ensures marked { OnOk result ((own : LogKey)
        × IsLogKey options.now.key (string_bytes options.now.origin) own × MarksLast own found.new
        (visit S.kept S.trace shelf.old shelf.new) (S.published shelf.new)) }
    ensures fresh { OnOk result (BeginsAsAsked options.now.is_new found.new.head) }
    ensures left { OnErr result (BeginsAsAsked options.now.is_new found.new.head
        ⊎ Stays (visit S.kept S.trace shelf.old shelf.new)
        (passage R.remaining reader.old reader.new)) }
    ensures within { options.now.allows_older ≡ false → S.is_honest ≡ true
        → OnOk result (IsWithin (found_size found.new.head) (S.published shelf.old)) }
    ensures newest { Stays (visit S.kept S.trace shelf.old shelf.new)
        (passage R.remaining reader.old reader.new) ⊎ HasOwnProposal options.now.key
        (string_bytes options.now.origin) (P.may_have store.now) (found_size found.new.head) }
    ensures start { Stays (visit S.kept S.trace shelf.old shelf.new)
        (passage R.remaining reader.old reader.new) ⊎ IsStart start (found_size found.new.head) }
    ensures place { S.place shelf.new ≡ S.place shelf.old }
{
    let origin = options.origin.as_str();
    if !is_key_name(origin) {
        return Err(RunFault::BadOrigin);
    }
    let keys = match keys_of(rt, alloc, origin, &options.key) {
        Ok(keys) => keys,
        Err(fault) => return Err(fault),
    };
    match append_under(
        alloc, keys, options, start, joining, shelf, store, found, reader, writer,
    ) {
        Ok(()) => Ok(()),
        Err(fault) => Err(fault),
    }
}
