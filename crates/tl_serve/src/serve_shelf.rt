//! The command `serve` on a shelf: a running log over HTTP that outlives its server.

ghost use Rattle.std.specs.Prelude.{◌≡◌, ◌⊎◌, ◌∷◌, [], All, IfOk, OnOk, false, string_bytes, true};
ghost use Rattle.sha2.specs.Sha256.{sha256};
ghost use Rattle.tl_device.specs.Device.{passage};
ghost use Rattle.tl_note.specs.Key.{IsKeyName};
ghost use Rattle.tl_sequencer.specs.Log.{IsSenderOf};
ghost use Rattle.tl_ledger.specs.Marks.{IsWithin};
ghost use Rattle.tl_ledger.specs.Opening.{Opens, found_size};
ghost use Rattle.tl_run.specs.Origins.{RefusesOrigin};
ghost use Rattle.tl_append.specs.Keys.{log_key_of, opening_key_of};
ghost use Rattle.tl_append.specs.Proposing.{HasProposal};
ghost use Rattle.tl_append.specs.Running.{BeginsAsAsked, HasOwnProposal, IsStart, visit};
ghost use Rattle.tl_serve.specs.Serving.{IsLeft, Serves};
ghost use Rattle.tl_serve.specs.Inner.Shelved.{IsClosed, ServesUnder};

use crate::bound_listener::Site;
use crate::gate::OpenGate;
use crate::host::Host;
use crate::lanes::Sending;
use crate::live_log::{LiveLog, MOST_ENTRIES};
use crate::opening::{Plan, lanes_with_posts, read_plan};
use crate::options::ServeOptions;
use crate::resources::OnShelf;
use crate::running::Running;
use crate::server::{Base, Server};
use crate::serving::{Ran, check_closing, tell_end};
use crate::shelf_log::ShelfLog;
use std::alloc::{AllocError, Global};
use std::io::{Read, Write};
use std::net::{Net, TcpListener, TcpStream};
use tl_append::{
    LogOpeningKey, LogShelf, OpenedLog, OperatorKeys, check_asked, check_start, keys_of,
};
use tl_archive::Shelf;
use tl_device::Counted;
use tl_ledger::Found;
use tl_lines::Lines;
use tl_loop::PublishLoop;
use tl_note::is_key_name;
use tl_run::RunFault;
use tl_sequencer::{Intake, OpenFault, Submitter};
use tl_server::ReadBack;

/// A shelf that is given back, and how its server ended.
#[derive(Drop)]
pub struct Served<S> {
    /// The shelf.
    pub shelf: S,
    /// How the server ended.
    pub outcome: Result<(), RunFault>,
}

// Returns what each thread answers from.
fn resources_of<P: Shelf + Drop>(
    alloc: Global,
    shown: Vec<P>,
    is_open: bool,
) -> Result<Vec<OnShelf<P>>, AllocError> {
    let mut resources = Vec::new(alloc);
    for shelf in shown {
        let shelf = ReadBack::new(shelf);
        resources.push(OnShelf { shelf, is_open })?;
    }
    Ok(resources)
}

// Returns the lanes of a log that has this many entries already, and their submitters.
fn open_lanes(
    alloc: Global,
    before: u64,
    lanes: u32,
    room: usize,
) -> Result<(Intake<Global, Global>, Vec<Submitter<Global, Global>>), RunFault>
    ensures own { IfOk result (λ r. All (λ s. IsSenderOf s r.0.log) r.1.items) }
    ensures none { IfOk result (λ r. (r.0.drained ≡ []) × (r.0.waiting ≡ [])) }
{
    if before > MOST_ENTRIES {
        return Err(RunFault::Operator);
    }
    match Intake::open(alloc, before, lanes, room, MOST_ENTRIES) {
        Ok(opened) => Ok(opened),
        Err(OpenFault::OutOfMemory) => Err(RunFault::OutOfMemory),
        Err(_) => Err(RunFault::Operator),
    }
}

// A log that was found on a shelf, its lanes, and what it is answered from.
#[derive(Drop)]
struct Opened<P: Shelf> {
    log: OpenedLog,
    intake: Intake<Global, Global>,
    lanes: Vec<Sending>,
    resources: Vec<OnShelf<P>>,
    lines: Lines<Global>,
}

// Opens the log on a shelf, and the lanes that the options ask for.
fn open_log<S: LogShelf + Drop, P: Shelf + Drop, R: Read>(
    alloc: Global,
    options: &ServeOptions,
    verifier: LogOpeningKey,
    start: Option<u64>,
    shelf: &mut S,
    shown: Vec<P>,
    found: &mut Found<Global>,
    reader: &mut Counted<R>,
) -> Result<Opened<P>, RunFault>
    ensures start { OnOk result (IsStart start (found_size found.new.head)) }
    ensures fresh { OnOk result (BeginsAsAsked options.now.is_new found.new.head) }
    ensures newest { OnOk result (HasProposal (S.may_have shelf.old)
        (opening_key_of verifier ∷ []) (found_size found.new.head)) }
    ensures within { options.now.allows_older ≡ false → S.is_honest ≡ true
        → OnOk result (IsWithin (found_size found.new.head) (S.published shelf.old)) }
    ensures opens { IfOk result (λ o.
        Opens sha256 (opening_key_of verifier ∷ []) found.new o.log.ledger) }
    ensures left { (S.kept shelf.new ≡ S.kept shelf.old) × (S.trace shelf.new ≡ S.trace shelf.old) }
    ensures place { S.place shelf.new ≡ S.place shelf.old }
    ensures quorum { S.quorum shelf.new ≡ S.quorum shelf.old }
    ensures lanes { IfOk result
        (λ o. All (λ l. IsSenderOf l.submitter o.intake.log) o.lanes.items) }
    ensures none { IfOk result (λ o. (o.intake.drained ≡ []) × (o.intake.waiting ≡ [])) }
{
    let log = match shelf.open(alloc, verifier, options.allows_older, found) {
        Ok(log) => log,
        Err(fault) => return Err(fault),
    };
    match check_start(&log.ledger, start) {
        Ok(()) => {}
        Err(fault) => return Err(fault),
    }
    match check_asked(found, options.is_new) {
        Ok(()) => {}
        Err(fault) => return Err(fault),
    }
    let plan = match read_plan(alloc, options, 0, reader) {
        Ok(plan) => plan,
        Err(fault) => return Err(fault),
    };
    let (intake, submitters) = match open_lanes(alloc, log.ledger.size(), plan.lanes, plan.room) {
        Ok(opened) => opened,
        Err(fault) => return Err(fault),
    };
    let Plan { entries, lines, .. } = plan;
    let lanes = lanes_with_posts(alloc, submitters, entries, options.takes_posts)?;
    let resources = resources_of(alloc, shown, options.takes_posts)?;
    Ok(Opened {
        log,
        intake,
        lanes,
        resources,
        lines,
    })
}

// Closes a log that ran, if that is the next step of its loop, and reports it.
fn close<S: LogShelf + Drop, L: Write>(
    alloc: Global,
    log: &ShelfLog<S>,
    last: Result<PublishLoop<RunFault>, RunFault>,
    is_quiet: bool,
    out: &mut Counted<L>,
) -> Result<(), RunFault>
    ensures { OnOk result (IsClosed log.now.intake log.now.is_due) }
{
    let last = match check_closing(last) {
        Ok(last) => last,
        Err(fault) => return Err(fault),
    };
    let size = match log.finish() {
        Ok(size) => size,
        Err(fault) => return Err(fault),
    };
    tell_end(alloc, last, size, is_quiet, out)
}

// Returns what a log of this size on a shelf has, and whether a publication is due. The last
// entries are remembered, if any are.
fn base_of<H: Host + Net<Listener = TcpListener, Stream = TcpStream>, S: Shelf>(
    server: &Server<'_, H, OpenGate>,
    shelf: &S,
    size: u64,
    is_due: bool,
) -> Base {
    let mut remembered = server.remembered();
    remembered.put_last(shelf, size);
    Base {
        size,
        is_due,
        remembered,
    }
}

// Serves the log on a shelf with these keys.
fn serve_under<
    H: Host + Net<Listener = TcpListener, Stream = TcpStream>,
    S: LogShelf + Drop,
    P: Shelf + Send + Drop,
    R: Read + Send,
    L: Write,
>(
    server: &Server<'_, H, OpenGate>,
    site: &Site<'_>,
    keys: OperatorKeys,
    start: Option<u64>,
    shelf: S,
    shown: Vec<P>,
    found: &mut Found<Global>,
    reader: &mut Counted<R>,
    out: &mut Counted<L>,
) -> Served<S>
    requires name { IsKeyName (log_key_of keys.signer).name }
    ensures serves { ServesUnder (log_key_of keys.signer) (S.quorum shelf) found.new
        (visit S.kept S.trace shelf result.shelf) result.outcome }
    ensures start { IsLeft (visit S.kept S.trace shelf result.shelf)
        ⊎ IsStart start (found_size found.new.head) }
    ensures fresh { IsLeft (visit S.kept S.trace shelf result.shelf)
        ⊎ BeginsAsAsked server.now.options.now.is_new found.new.head }
    ensures newest { IsLeft (visit S.kept S.trace shelf result.shelf)
        ⊎ HasProposal (S.may_have shelf) (opening_key_of keys.verifier ∷ []) (found_size found.new.head) }
    ensures within { server.now.options.now.allows_older ≡ false → S.is_honest ≡ true
        → IsLeft (visit S.kept S.trace shelf result.shelf)
        ⊎ IsWithin (found_size found.new.head) (S.published shelf) }
    ensures place { S.place result.shelf ≡ S.place shelf }
{
    let OperatorKeys { signer, verifier } = keys;
    let (alloc, options) = (server.alloc, server.options);
    let mut shelf = shelf;
    let opened = match open_log(
        alloc, options, verifier, start, &mut shelf, shown, found, reader,
    ) {
        Ok(opened) => opened,
        Err(fault) => {
            let outcome = Err(fault);
            return Served { shelf, outcome };
        }
    };
    let Opened {
        log,
        intake,
        lanes,
        resources,
        lines,
    } = opened;
    let OpenedLog { ledger, is_due } = log;
    let is_later = is_due && options.need > 0;
    let base = base_of(server, shelf.shelf(), ledger.size(), is_later);
    let mut log = ShelfLog::new(alloc, signer, shelf, ledger, intake, is_due);
    if let Err(fault) = log.show_first(is_later) {
        let (shelf, outcome) = (log.into_shelf(), Err(fault));
        return Served { shelf, outcome };
    }
    let Ran { running, last } = server.serve_published(
        site, log, base, lanes, resources, lines, reader, out,
    );
    let outcome = close(alloc, &running.log, last, options.server.quiet, out);
    let Running { log, .. } = running;
    let shelf = log.into_shelf();
    Served { shelf, outcome }
}

/// Serves as `run_serve` does, at this site, the log on a shelf, which begins or goes on there. What the lanes give
/// is appended, published, and reported once it survives a crash. A thread for each of `shown`, of which there are
/// `threads_of`, answers from it. If the shelf fails, the server ends. Gives the shelf back; `found` has what was
/// read. It may wait. Fails with `NothingThere` if no log is there, with `Taken` if one is but should begin, and with
/// `Older` if it lacks `start` entries.
pub fn run_serve_shelf<
    H: Host + Net<Listener = TcpListener, Stream = TcpStream>,
    S: LogShelf + Drop,
    P: Shelf + Send + Drop,
    R: Read + Send,
    L: Write,
>(
    rt: &H,
    alloc: Global,
    options: &ServeOptions,
    site: &Site<'_>,
    start: Option<u64>,
    shelf: S,
    shown: Vec<P>,
    found: &mut Found<Global>,
    reader: &mut Counted<R>,
    out: &mut Counted<L>,
) -> Served<S>
    ensures refuses { RefusesOrigin (string_bytes options.now.origin)
        (passage R.remaining reader.old reader.new) result.outcome }
    ensures serves { Serves options.now.key (string_bytes options.now.origin) (S.quorum shelf)
        found.new (visit S.kept S.trace shelf result.shelf) result.outcome }
    ensures start { IsLeft (visit S.kept S.trace shelf result.shelf)
        ⊎ IsStart start (found_size found.new.head) }
    ensures fresh { IsLeft (visit S.kept S.trace shelf result.shelf)
        ⊎ BeginsAsAsked options.now.is_new found.new.head }
    ensures newest { IsLeft (visit S.kept S.trace shelf result.shelf)
        ⊎ HasOwnProposal options.now.key (string_bytes options.now.origin)
        (S.may_have shelf) (found_size found.new.head) }
    ensures within { options.now.allows_older ≡ false → S.is_honest ≡ true
        → IsLeft (visit S.kept S.trace shelf result.shelf)
        ⊎ IsWithin (found_size found.new.head) (S.published shelf) }
    ensures place { S.place result.shelf ≡ S.place shelf }
{
    let origin = options.origin.as_str();
    if !is_key_name(origin) {
        let outcome = Err(RunFault::BadOrigin);
        return Served { shelf, outcome };
    }
    let keys = match keys_of(rt, alloc, origin, &options.key) {
        Ok(keys) => keys,
        Err(fault) => {
            let outcome = Err(fault);
            return Served { shelf, outcome };
        }
    };
    let server = Server {
        rt,
        alloc,
        options,
        input: site.input,
        gate: &OpenGate,
    };
    serve_under(&server, site, keys, start, shelf, shown, found, reader, out)
}
