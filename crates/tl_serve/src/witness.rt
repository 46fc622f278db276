//! The command `witness`: a witness of one log, or of many, over HTTP.

ghost use Rattle.std.specs.Prelude.{IfErr, IfOk, option_map};
ghost use Rattle.sha2.specs.Sha256.{sha256};
ghost use Rattle.tl_device.specs.Device.{passage};
ghost use Rattle.tl_witness.specs.ReadChain.{chains_shown};
ghost use Rattle.tl_logs.specs.ReadLogs.{logs_shown};
ghost use Rattle.tl_run.specs.Origins.{RefusesOrigin};
ghost use Rattle.tl_serve.specs.Inner.Stating.{HaveState, LackState, ReadsLines};
ghost use Rattle.tl_serve.specs.Knowing.{RefusesLog};

use crate::bound_listener::BoundListener;
use crate::cosigner::Own;
use crate::host::Host;
use crate::listed::run_listed;
use crate::options::{KnownLogs, LogVerifierKey, WitnessOptions, WitnessSignerKey};
use crate::witness_fault::{WitnessFault, after_run, state_refusal};
use crate::witness_server::serve_all;
use std::alloc::{AllocError, Global};
use std::fs::Files;
use std::io::{Read, Write};
use std::net::{Net, TcpListener, TcpStream};
use tl_device::Counted;
use tl_hash::Sha256Tree;
use tl_key::{Cosignature, DemoKey, Note, VerifierKey, demo_key};
use tl_logs::{KnownLog, read_state, whole_chains};
use tl_note::{NoteFault, Signer, Verifier, is_key_name};
use tl_proof::Link;
use tl_run::{MOST_INPUT, RunFault, read_file, read_input, read_log_key, read_private_key};
use tl_witness::{Book, BookFault, ChainFault, SharedWitness, Trust, read_chain};

/// Reads the chains of the reader's state, each in one link: those of these logs, or of all.
pub(crate) fn read_chains<R: Read>(
    alloc: Global,
    logs: Option<&[KnownLog<Global>]>,
    reader: &mut Counted<R>,
) -> Result<Vec<(String, Vec<Link<Global>>)>, RunFault>
    ensures read { IfOk result
        (λ chains. HaveState sha256 (option_map (λ l. logs_shown l.now) logs.entry)
        (passage R.remaining reader.old reader.new) (chains_shown chains.items)) }
    ensures refused { IfErr result
        (LackState sha256 (option_map (λ l. logs_shown l.now) logs.entry)
        (passage R.remaining reader.old reader.new)) }
{
    match read_state(alloc, Sha256Tree, logs, reader) {
        Ok(heads) => Ok(whole_chains(alloc, heads)?),
        Err(fault) => Err(state_refusal(fault)),
    }
}

// Reads the chains of the lines on standard input.
fn printed_chains<R: Read>(
    alloc: Global,
    reader: &mut Counted<R>,
) -> Result<Vec<(String, Vec<Link<Global>>)>, RunFault>
    ensures { ReadsLines (passage R.remaining reader.old reader.new) result }
{
    let input = read_input(alloc, reader, MOST_INPUT)?;
    match read_chain(alloc, input.as_slice()) {
        Ok(chains) => Ok(chains),
        Err(ChainFault::Malformed(line)) => Err(RunFault::Chain(line as u64)),
        Err(ChainFault::OutOfMemory) => Err(RunFault::OutOfMemory),
    }
}

// Returns why a book was not opened.
fn refusal(fault: BookFault) -> RunFault {
    match fault {
        BookFault::OutOfMemory => RunFault::OutOfMemory,
        BookFault::BadName(_) => RunFault::Sign,
        BookFault::NoTrust(chain) => RunFault::Chain(chain as u64),
        BookFault::BadChain { chain: _, link } => RunFault::Chain(link as u64),
        BookFault::TwiceNamed => RunFault::Chain(0),
    }
}

/// Serves a witness that trusts these and has cosigned these chains.
pub(crate) fn serve_trusted<
    H: Host + Net<Listener = TcpListener, Stream = TcpStream>,
    O: Write + Send,
    L: Write,
>(
    rt: &H,
    alloc: Global,
    options: &WitnessOptions,
    bound: Option<&BoundListener>,
    trusts: Vec<Trust<Global>>,
    chains: Vec<(String, Vec<Link<Global>>)>,
    writer: &mut Counted<O>,
    log: &mut Counted<L>,
) -> Result<(), RunFault> {
    let book = match Book::open(alloc, alloc, Sha256Tree, trusts, chains) {
        Ok(book) => book,
        Err(fault) => return Err(refusal(fault)),
    };
    let Ok(witness) = SharedWitness::new(book) else {
        return Err(RunFault::OutOfMemory);
    };
    serve_all(rt, alloc, options, bound, &witness, writer, log)
}

// Returns whom a witness trusts that knows one log by `verifier` and cosigns with `cosigner`.
fn trust_of(
    alloc: Global,
    origin: &str,
    verifier: Box<dyn Verifier>,
    cosigner: Box<dyn Signer>,
) -> Result<Vec<Trust<Global>>, AllocError> {
    let mut verifiers = Vec::new(alloc);
    verifiers.push(verifier)?;
    let origin = String::from_str(alloc, origin)?;
    let mut trusts = Vec::new(alloc);
    trusts.push(Trust {
        origin,
        verifiers,
        cosigner,
    })?;
    Ok(trusts)
}

// Returns a demonstration key. Fails with `fault` if the name is no key's.
fn demonstration(
    alloc: Global,
    name: &str,
    secret: &str,
    fault: RunFault,
) -> Result<DemoKey<Global>, RunFault> {
    match demo_key(alloc, name, secret.as_bytes()) {
        Ok(key) => Ok(key),
        Err(NoteFault::BadName(_)) => Err(fault),
        Err(_) => Err(RunFault::OutOfMemory),
    }
}

// The key that the log is known by.
#[derive(Drop)]
enum Known {
    Demonstration(DemoKey<Global>),
    Public(VerifierKey<Note, Global>),
}

// Returns the key that a log of this name is known by. Fails with `BadOrigin` if the key has another name.
fn known_key(alloc: Global, origin: &str, key: &LogVerifierKey) -> Result<Known, RunFault> {
    match key {
        LogVerifierKey::Secret(secret) => {
            let key = demonstration(alloc, origin, secret, RunFault::BadOrigin)?;
            Ok(Known::Demonstration(key))
        }
        LogVerifierKey::Text(text) => {
            let key = read_log_key(alloc, text)?;
            if key.name() != origin {
                return Err(RunFault::BadOrigin);
            }
            Ok(Known::Public(key))
        }
    }
}

/// Returns the key that the options name for the witness.
pub(crate) fn own_key<H: Files>(
    rt: &H,
    alloc: Global,
    options: &WitnessOptions,
) -> Result<Own, RunFault> {
    match &options.key {
        WitnessSignerKey::Secret(name, secret) => {
            let key = demonstration(alloc, name, secret, RunFault::Sign)?;
            Ok(Own::Demonstration(key))
        }
        WitnessSignerKey::File(path) => {
            let bytes = read_file(rt, alloc, path)?;
            let key = read_private_key::<Cosignature>(alloc, bytes.as_slice())?;
            Ok(Own::Private(key))
        }
    }
}

// Serves a witness of one log.
fn run_one<
    H: Host + Net<Listener = TcpListener, Stream = TcpStream>,
    R: Read,
    O: Write + Send,
    L: Write,
>(
    rt: &H,
    alloc: Global,
    options: &WitnessOptions,
    bound: Option<&BoundListener>,
    origin: &str,
    key: &LogVerifierKey,
    reader: &mut Counted<R>,
    writer: &mut Counted<O>,
    log: &mut Counted<L>,
) -> Result<(), RunFault>
    ensures { RefusesOrigin origin.now (passage R.remaining reader.old reader.new) result }
{
    if !is_key_name(origin) {
        return Err(RunFault::BadOrigin);
    }
    let chains = match &options.state {
        Some(_) => read_chains(alloc, None, reader)?,
        None => printed_chains(alloc, reader)?,
    };
    let verifier: Box<dyn Verifier> = match known_key(alloc, origin, key)? {
        Known::Demonstration(key) => Box::new(alloc, key)?,
        Known::Public(key) => Box::new(alloc, key)?,
    };
    let cosigner: Box<dyn Signer> = match own_key(rt, alloc, options)? {
        Own::Demonstration(key) => Box::new(alloc, key)?,
        Own::Private(key) => Box::new(alloc, key)?,
    };
    let trusts = trust_of(alloc, origin, verifier, cosigner)?;
    serve_trusted(rt, alloc, options, bound, trusts, chains, writer, log)
}

/// Serves a witness over HTTP, at this bound address or else at that of the options. It reads the lines that an
/// earlier run printed and reports the address. Then it answers connections, each by `tl_server::serve_witness`, and
/// ends after as many as the options say, or once something fails. It prints a line for each checkpoint that it
/// cosigns anew before the answer; if that fails, it ends. Lines of logs that a file doesn't name are skipped. It may
/// wait.
pub fn run_witness<
    H: Host + Net<Listener = TcpListener, Stream = TcpStream>,
    R: Read,
    O: Write + Send,
    L: Write,
>(
    rt: &H,
    alloc: Global,
    options: &WitnessOptions,
    bound: Option<&BoundListener>,
    reader: &mut Counted<R>,
    writer: &mut Counted<O>,
    log: &mut Counted<L>,
) -> Result<(), WitnessFault>
    ensures { RefusesLog options.now.logs (passage R.remaining reader.old reader.new) result }
{
    match &options.logs {
        KnownLogs::One(origin, key) => after_run(run_one(
            rt, alloc, options, bound, origin, key, reader, writer, log,
        )),
        KnownLogs::Listed(path) => {
            run_listed(rt, alloc, options, bound, path, reader, writer, log)
        }
    }
}
