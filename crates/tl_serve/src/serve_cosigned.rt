//! The command `serve` on a shelf, if witnesses must have cosigned what is shown.

ghost use Rattle.std.specs.Prelude.{◌≡◌, ◌⊎◌, AllPairs, Err, IfOk, false, map, option_map, string_bytes, true, vec_items};
ghost use Rattle.tl_device.specs.Device.{passage};
ghost use Rattle.tl_key.specs.NoteKey.{verifier_key};
ghost use Rattle.tl_run.specs.Origins.{RefusesOrigin};
ghost use Rattle.tl_append.specs.Running.{BeginsAsAsked, HasOwnProposal, visit};
ghost use Rattle.tl_ledger.specs.Marks.{IsWithin};
ghost use Rattle.tl_ledger.specs.Opening.{found_size};
ghost use Rattle.tl_serve.specs.Asking.{AreApart, AreKeysOf, ServesCosigned};
ghost use Rattle.tl_serve.specs.Serving.{IsLeft, Serves};

use crate::asked::{keys_of_asked, urls_of_asked};
use crate::bound_listener::Site;
use crate::cosigners::{Asking, AsksInRounds, Proposer, start_asking};
use crate::host::Host;
use crate::options::ServeOptions;
use crate::serve_shelf::{Served, run_serve_shelf};
use crate::shared_writer::SharedWriter;
use std::alloc::Global;
use std::io::{Read, Write};
use std::net::{Net, TcpListener, TcpStream};
use std::sync::{Arc, Mutex};
use std::thread;
use std::thread::Scope;
use std::time::Duration;
use tl_append::{
    ChecksCosigned, Cosigners, LogOpeningKey, LogQuorum, OperatorKeys, ProposalStore, SealedShelf,
    keys_of,
};
use tl_archive::Shelf;
use tl_device::Counted;
use tl_feed::Ballot;
use tl_key::CosignerVerifier;
use tl_ledger::Found;
use tl_note::Verifier;
use tl_run::RunFault;
use tl_source::Url;

/// The shelf of a log whose checkpoints witnesses cosign, and what belongs beside it.
#[derive(Drop)]
pub struct CosignedLog<S, T, P> {
    /// The shelf.
    pub shelf: S,
    /// The store of what the log proposes.
    pub store: T,
    /// Shelves of the same place, one for each thread that answers.
    pub shown: Vec<P>,
    /// Shelves of the same place, one for each witness.
    pub asked: Vec<P>,
}

// A shelf that is given back, how its server ended, and what was read of the shelf at first.
#[derive(Drop)]
struct Ended<S> {
    served: Served<S>,
    found: Found<Global>,
}

// What the options say of a log and of its witnesses: their keys, the addresses of the latter, and
// their ballot.
#[derive(Drop)]
struct Ready<'o> {
    log: LogOpeningKey,
    witnesses: Vec<CosignerVerifier<Global>>,
    urls: Vec<Url<'o>>,
    ballot: Arc<Ballot>,
}

// Reads keys and addresses from the options.
fn prepare<'o, H: Host>(
    rt: &H,
    alloc: Global,
    options: &'o ServeOptions,
) -> Result<Ready<'o>, RunFault>
    ensures spelled { IfOk result (λ r. AreKeysOf
        (map (λ w. string_bytes w.key) (vec_items options.now.witnesses)) r.witnesses.items) }
    ensures apart { IfOk result (λ r. AllPairs AreApart r.witnesses.items) }
{
    let asked = options.witnesses.as_slice();
    let witnesses = keys_of_asked(alloc, asked)?;
    let urls = urls_of_asked(alloc, asked)?;
    let ballot = Arc::new(alloc, Ballot::new(alloc, asked.len())?)?;
    let OperatorKeys { verifier, .. } = keys_of(rt, alloc, options.origin.as_str(), &options.key)?;
    Ok(Ready {
        log: verifier,
        witnesses,
        urls,
        ballot,
    })
}

// Returns the shelf with nothing done.
fn given_back<S: Drop, T: Drop, P: Drop>(log: CosignedLog<S, T, P>, fault: RunFault) -> Served<S>
    ensures shelf { result.shelf ≡ log.shelf }
    ensures fault { result.outcome ≡ Err fault }
{
    let CosignedLog { shelf, .. } = log;
    Served {
        shelf,
        outcome: Err(fault),
    }
}

// Starts the threads that ask, and serves the log meanwhile.
fn serve_in<
    's,
    E,
    H: Host + Net<Listener = TcpListener, Stream = TcpStream>,
    A: AsksInRounds<P> + Sync,
    S: Shelf + Drop,
    T: ProposalStore + Drop,
    C: ChecksCosigned + Copy,
    P: Shelf + Send + Drop + 's,
    R: Read + Send,
    L: Write,
>(
    scope: &'s Scope<'s, E>,
    rt: &'s H,
    alloc: Global,
    options: &'s ServeOptions,
    site: &'s Site<'s>,
    ballot: &'s Ballot,
    asker: &'s A,
    quorum: C,
    log: CosignedLog<S, T, P>,
    reader: &mut Counted<R>,
    out: &'s Mutex<&mut Counted<L>>,
) -> Ended<S>
    ensures serves { Serves options.now.key (string_bytes options.now.origin)
        (C.quorum quorum) result.found
        (visit S.kept S.trace log.shelf result.served.shelf) result.served.outcome }
    ensures fresh { IsLeft (visit S.kept S.trace log.shelf result.served.shelf)
        ⊎ BeginsAsAsked options.now.is_new result.found.head }
    ensures newest { IsLeft (visit S.kept S.trace log.shelf result.served.shelf)
        ⊎ HasOwnProposal options.now.key (string_bytes options.now.origin)
        (T.may_have log.store) (found_size result.found.head) }
    ensures within { options.now.allows_older ≡ false → S.is_honest ≡ true
        → IsLeft (visit S.kept S.trace log.shelf result.served.shelf)
        ⊎ IsWithin (found_size result.found.head) (S.published log.shelf) }
    ensures place { S.place result.served.shelf ≡ S.place log.shelf }
{
    let CosignedLog {
        shelf,
        store,
        shown,
        asked,
    } = log;
    let mut found = Found::new(alloc);
    if let Err(fault) = start_asking(scope, alloc, asker, asked) {
        ballot.end(rt);
        let outcome = Err(fault);
        let served = Served { shelf, outcome };
        return Ended { served, found };
    }
    let proposer = Proposer {
        rt,
        alloc,
        ballot,
        asked: options.witnesses.as_slice(),
        need: usize::try_from(options.need).unwrap_or(usize::MAX),
        quorum,
        out: Counted::new(SharedWriter { rt, out }),
    };
    let keeps = options.keeps_partials;
    let cosigned = SealedShelf::new(shelf, store, Cosigners::new(proposer, quorum), keeps);
    let mut told = Counted::new(SharedWriter { rt, out });
    let Served { shelf, outcome } = run_serve_shelf(
        rt, alloc, options, site, None, cosigned, shown, &mut found, reader, &mut told,
    );
    ballot.end(rt);
    let shelf = shelf.into_shelf();
    let served = Served { shelf, outcome };
    Ended { served, found }
}

// Serves as `serve_in` does, in a scope of threads of its own.
fn serve_asked<
    H: Host + Net<Listener = TcpListener, Stream = TcpStream>,
    A: AsksInRounds<P> + Sync,
    S: Shelf + Drop,
    T: ProposalStore + Drop,
    C: ChecksCosigned + Copy,
    P: Shelf + Send + Drop,
    R: Read + Send,
    L: Write,
>(
    rt: &H,
    alloc: Global,
    options: &ServeOptions,
    site: &Site<'_>,
    ballot: &Ballot,
    asker: &A,
    quorum: C,
    log: CosignedLog<S, T, P>,
    reader: &mut Counted<R>,
    out: &Mutex<&mut Counted<L>>,
) -> Ended<S>
    ensures serves { Serves options.now.key (string_bytes options.now.origin)
        (C.quorum quorum) result.found
        (visit S.kept S.trace log.shelf result.served.shelf) result.served.outcome }
    ensures fresh { IsLeft (visit S.kept S.trace log.shelf result.served.shelf)
        ⊎ BeginsAsAsked options.now.is_new result.found.head }
    ensures newest { IsLeft (visit S.kept S.trace log.shelf result.served.shelf)
        ⊎ HasOwnProposal options.now.key (string_bytes options.now.origin)
        (T.may_have log.store) (found_size result.found.head) }
    ensures within { options.now.allows_older ≡ false → S.is_honest ≡ true
        → IsLeft (visit S.kept S.trace log.shelf result.served.shelf)
        ⊎ IsWithin (found_size result.found.head) (S.published log.shelf) }
    ensures place { S.place result.served.shelf ≡ S.place log.shelf }
{
    thread::scope(
        thread::scope_env(),
        rt,
        |scope| -> Ended<S>
            ensures serves { Serves options.entry.now.key (string_bytes options.entry.now.origin)
                (C.quorum quorum) result.found
                (visit S.kept S.trace log.shelf result.served.shelf)
                result.served.outcome }
            ensures fresh { IsLeft (visit S.kept S.trace log.shelf result.served.shelf)
                ⊎ BeginsAsAsked options.entry.now.is_new result.found.head }
            ensures newest { IsLeft (visit S.kept S.trace log.shelf result.served.shelf)
                ⊎ HasOwnProposal options.entry.now.key (string_bytes options.entry.now.origin)
                (T.may_have log.store) (found_size result.found.head) }
            ensures within { options.entry.now.allows_older ≡ false → S.is_honest ≡ true
                → IsLeft (visit S.kept S.trace log.shelf result.served.shelf)
                ⊎ IsWithin (found_size result.found.head) (S.published log.shelf) }
            ensures place { S.place result.served.shelf ≡ S.place log.shelf }
        {
            serve_in(
                scope, rt, alloc, options, site, ballot, asker, quorum, log, reader, out,
            )
        },
    )
}

// Serves the log with these keys of it and of its witnesses.
fn serve_keyed<
    'x,
    H: Host + Net<Listener = TcpListener, Stream = TcpStream>,
    S: Shelf + Drop,
    T: ProposalStore + Drop,
    P: Shelf + Send + Drop,
    R: Read + Send,
    L: Write,
>(
    asker: &'x Asking<'x, H>,
    options: &'x ServeOptions,
    site: &Site<'_>,
    log: CosignedLog<S, T, P>,
    found: &mut Found<Global>,
    reader: &mut Counted<R>,
    out: &mut Counted<L>,
) -> Served<S>
    ensures serves { Serves options.now.key (string_bytes options.now.origin) (record {
      witnesses = map verifier_key asker.now.witnesses.now;
      need = options.now.need;
      policy = option_map string_bytes options.now.quorum;
    }) found.new (visit S.kept S.trace log.shelf result.shelf) result.outcome }
    ensures fresh { IsLeft (visit S.kept S.trace log.shelf result.shelf)
        ⊎ BeginsAsAsked options.now.is_new found.new.head }
    ensures newest { IsLeft (visit S.kept S.trace log.shelf result.shelf)
        ⊎ HasOwnProposal options.now.key (string_bytes options.now.origin)
        (T.may_have log.store) (found_size found.new.head) }
    ensures within { options.now.allows_older ≡ false → S.is_honest ≡ true
        → IsLeft (visit S.kept S.trace log.shelf result.shelf)
        ⊎ IsWithin (found_size found.new.head) (S.published log.shelf) }
    ensures place { S.place result.shelf ≡ S.place log.shelf }
{
    let (rt, alloc, ballot) = (asker.rt, asker.alloc, asker.ballot);
    let policy = options.quorum.as_deref();
    let quorum = LogQuorum::new(asker.log, asker.witnesses, options.need, policy);
    let out = Mutex::new(&mut *out);
    let ended = serve_asked(
        rt, alloc, options, site, ballot, asker, quorum, log, reader, &out,
    );
    *found = ended.found;
    ended.served
}

/// Serves as `run_serve_shelf` does, but shows a checkpoint only once enough witnesses have cosigned it (C2SP
/// tlog-witness, tlog-cosignature). It is kept as a proposal, and a thread for each witness asks, with proofs from a
/// shelf of its own. If one gives no cosignature, the reason is printed to `out`, and it is asked again after a pause.
/// Until then readers see the last one shown. Fails with `BadKey` if a text is no witness's key, or two have one name
/// or public key, and with `Malformed` if one is no address.
pub fn run_serve_cosigned<
    H: Host + Net<Listener = TcpListener, Stream = TcpStream>,
    S: Shelf + Drop,
    T: ProposalStore + Drop,
    P: Shelf + Send + Drop,
    R: Read + Send,
    L: Write,
>(
    rt: &H,
    alloc: Global,
    options: &ServeOptions,
    site: &Site<'_>,
    log: CosignedLog<S, T, P>,
    found: &mut Found<Global>,
    reader: &mut Counted<R>,
    out: &mut Counted<L>,
) -> Served<S>
    ensures serves { ServesCosigned options.now found.new
        (visit S.kept S.trace log.shelf result.shelf) result.outcome }
    ensures fresh { IsLeft (visit S.kept S.trace log.shelf result.shelf)
        ⊎ BeginsAsAsked options.now.is_new found.new.head }
    ensures newest { IsLeft (visit S.kept S.trace log.shelf result.shelf)
        ⊎ HasOwnProposal options.now.key (string_bytes options.now.origin)
        (T.may_have log.store) (found_size found.new.head) }
    ensures within { options.now.allows_older ≡ false → S.is_honest ≡ true
        → IsLeft (visit S.kept S.trace log.shelf result.shelf)
        ⊎ IsWithin (found_size found.new.head) (S.published log.shelf) }
    ensures place { S.place result.shelf ≡ S.place log.shelf }
{
    let ready = match prepare(rt, alloc, options) {
        Ok(ready) => ready,
        Err(fault) => return given_back(log, fault),
    };
    let own: Box<dyn Verifier> = match Box::new(alloc, ready.log) {
        Ok(own) => own,
        Err(_) => return given_back(log, RunFault::OutOfMemory),
    };
    let site = site.with_ballot(&ready.ballot);
    let asker = Asking {
        rt,
        alloc,
        ballot: &ready.ballot,
        origin: options.origin.as_str(),
        log: &[own],
        witnesses: ready.witnesses.as_slice(),
        urls: ready.urls.as_slice(),
        limit: Duration::from_secs(options.server.timeout),
    };
    serve_keyed(&asker, options, &site, log, found, reader, out)
}
