//! A witness of the logs that a file names.

use crate::bound_listener::BoundListener;
use crate::cosigner::{Own, SharedSigner};
use crate::host::Host;
use crate::options::WitnessOptions;
use crate::witness::{own_key, read_chains, serve_trusted};
use crate::witness_fault::{WitnessFault, after_run};
use std::alloc::Global;
use std::fs::{Files, metadata};
use std::io::{Read, Write};
use std::net::{Net, TcpListener, TcpStream};
use std::sync::Arc;
use tl_device::{Counted, DeviceFault, read_plain};
use tl_logs::{KnownLog, LogsFault, read_logs};
use tl_note::{Signer, Verifier};
use tl_proof::Link;
use tl_run::{MOST_INPUT, RunFault};
use tl_witness::Trust;

// Reads the logs that the file at this path names.
fn known_logs<H: Files>(
    rt: &H,
    alloc: Global,
    path: &str,
) -> Result<Vec<KnownLog<Global>>, WitnessFault> {
    let bytes = match read_plain(alloc, rt, path, metadata(rt, path), MOST_INPUT) {
        Ok(bytes) => bytes,
        Err(DeviceFault::OutOfMemory) => return Err(WitnessFault::Run(RunFault::OutOfMemory)),
        Err(fault) => return Err(WitnessFault::LogsFile(fault)),
    };
    match read_logs(alloc, bytes.as_slice()) {
        Ok(logs) => Ok(logs),
        Err(LogsFault::OutOfMemory) => Err(WitnessFault::Run(RunFault::OutOfMemory)),
        Err(fault) => Err(WitnessFault::Logs(fault)),
    }
}

// Serves a witness of these logs that cosigns with this key and has cosigned these chains.
fn serve_listed<
    H: Host + Net<Listener = TcpListener, Stream = TcpStream>,
    O: Write + Send,
    L: Write,
>(
    rt: &H,
    alloc: Global,
    options: &WitnessOptions,
    bound: Option<&BoundListener>,
    logs: Vec<KnownLog<Global>>,
    key: Arc<Own>,
    chains: Vec<(String, Vec<Link<Global>>)>,
    writer: &mut Counted<O>,
    log: &mut Counted<L>,
) -> Result<(), RunFault> {
    let mut trusts = Vec::new(alloc);
    trusts.reserve(logs.len())?;
    for KnownLog { origin, keys } in logs {
        let mut verifiers = Vec::new(alloc);
        for key in keys {
            let verifier: Box<dyn Verifier> = Box::new(alloc, key)?;
            verifiers.push(verifier)?;
        }
        let cosigner: Box<dyn Signer> = Box::new(alloc, SharedSigner::new(&key)?)?;
        trusts.push(Trust {
            origin,
            verifiers,
            cosigner,
        })?;
    }
    serve_trusted(rt, alloc, options, bound, trusts, chains, writer, log)
}

/// Serves a witness of the logs that the file at this path names.
pub(crate) fn run_listed<
    H: Host + Net<Listener = TcpListener, Stream = TcpStream>,
    R: Read,
    O: Write + Send,
    L: Write,
>(
    rt: &H,
    alloc: Global,
    options: &WitnessOptions,
    bound: Option<&BoundListener>,
    path: &str,
    reader: &mut Counted<R>,
    writer: &mut Counted<O>,
    log: &mut Counted<L>,
) -> Result<(), WitnessFault> {
    let logs = known_logs(rt, alloc, path)?;
    let key = Arc::new(alloc, own_key(rt, alloc, options)?)?;
    // What it cosigned for other logs is left out.
    let chains = match read_chains(alloc, Some(logs.as_slice()), reader) {
        Ok(chains) => chains,
        Err(fault) => return Err(WitnessFault::Run(fault)),
    };
    after_run(serve_listed(rt, alloc, options, bound, logs, key, chains, writer, log))
}
