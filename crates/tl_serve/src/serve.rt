//! The command `serve`: a running log over HTTP.

ghost use Rattle.std.specs.Prelude.{◌≡◌, ◌≤◌, All, string_bytes};
ghost use Rattle.tl_device.specs.Device.{passage};
ghost use Rattle.tl_publisher.specs.Operating.{IsOperating};
ghost use Rattle.tl_sequencer.specs.Log.{IsSenderOf, rings_of};
ghost use Rattle.tl_run.specs.Origins.{RefusesOrigin};

use crate::bound_listener::{BoundListener, Site};
use crate::gate::{Gate, OpenGate};
use crate::host::Host;
use crate::live_log::MOST_ENTRIES;
use crate::memory_log::{BoardLog, MemoryLog};
use crate::opening::{bundles_of, lanes_with_posts, read_plan, size_of, with_newline};
use crate::options::ServeOptions;
use crate::resources::OnBoard;
use crate::running::Running;
use crate::server::{Base, Server};
use crate::serving::{Ran, check_closing, tell_end};
use std::alloc::{AllocError, Global};
use std::io::{Read, Write};
use std::net::{Net, TcpListener, TcpStream};
use std::os::fd::RawFd;
use std::sync::Arc;
use std::thread::{Threads, available_parallelism};
use tl_append::{OperatorKeys, keys_of};
use tl_device::Counted;
use tl_lines::Lines;
use tl_note::{Signer, Verifier, is_key_name};
use tl_publisher::{BoardReader, Operator, OperatorFault, Published, ResumeFault};
use tl_run::RunFault;
use tl_sequencer::Submitter;

// The most threads that answer: one less than the board may have readers, since one more reports
// what is published.
const MOST_THREADS: u32 = 63;

/// Returns how many threads answer: as many as are asked for, or else as the machine has, and at
/// most 63.
pub fn threads_of<H: Threads>(rt: &H, asked: Option<u64>) -> u32
    ensures { result ≤ 63 }
{
    let count = match asked {
        Some(count) => count,
        None => match available_parallelism(rt) {
            Ok(count) => count.get() as u64,
            Err(_) => 1,
        },
    };
    match u32::try_from(count) {
        Ok(count) => count.clamp(1, MOST_THREADS),
        Err(_) => MOST_THREADS,
    }
}

// Makes each reader see at least this publication.
fn learn(readers: Vec<BoardReader<Global>>, published: &Published) -> Vec<BoardReader<Global>>
    requires { All (λ r. r.book ≡ published.now.book) readers.items }
{
    let mut readers = readers;
    for reader in readers.iter_mut() {
        reader.learn(published);
    }
    readers
}

// Publishes the log as it was opened, so that each reader sees it.
fn publish_first<O: BoardLog>(
    log: &mut O,
    readers: Vec<BoardReader<Global>>,
) -> Result<Vec<BoardReader<Global>>, RunFault>
    requires operating { IsOperating (O.state log.old) }
    requires seen { All (λ w. w ≡ (O.state log.old).past) readers.items }
    ensures operating { IsOperating (O.state log.new) }
    ensures same { (O.state log.new).log ≡ (O.state log.old).log }
{
    match log.publish_new() {
        Ok(Some(published)) => Ok(learn(readers, &published)),
        Ok(None) => Ok(readers),
        Err(fault) => Err(fault),
    }
}

// Returns what each thread answers from.
fn resources_of(
    alloc: Global,
    readers: Vec<BoardReader<Global>>,
    is_open: bool,
) -> Result<Vec<OnBoard>, AllocError> {
    let mut resources = Vec::new(alloc);
    for board in readers {
        resources.push(OnBoard { board, is_open })?;
    }
    Ok(resources)
}

impl<H: Host + Net<Listener = TcpListener, Stream = TcpStream>, G: Gate> Server<'_, H, G> {
    // Serves a log in memory that was opened with this many entries, and is to be sent these.
    fn serve_opened<O: BoardLog, R: Read + Send, L: Write>(
        &self,
        opened: O,
        before: u64,
        submitters: Vec<Submitter<Global, Global>>,
        readers: Vec<BoardReader<Global>>,
        entries: Vec<Vec<u8>>,
        lines: Lines<Global>,
        reader: &mut Counted<R>,
        out: &mut Counted<L>,
    ) -> Result<(), RunFault>
        requires operating { IsOperating (O.state opened) }
        requires senders { All (λ s. IsSenderOf s (O.state opened).log) submitters.items }
        requires seen { All (λ w. w ≡ (O.state opened).past) readers.items }
    {
        let mut operator = opened;
        let takes_posts = self.options.takes_posts;
        let lanes = lanes_with_posts(self.alloc, submitters, entries, takes_posts)?;
        let bound = BoundListener::bind(self.rt, self.alloc, &self.options.server, out)?;
        let mut readers = publish_first(&mut operator, readers)?;
        let Some(board) = readers.pop() else {
            return Err(RunFault::Operator);
        };
        let resources = resources_of(self.alloc, readers, takes_posts)?;
        let log = MemoryLog { operator, board };
        let base = Base {
            size: before,
            is_due: false,
            remembered: self.remembered(),
        };
        let site = Site::new(&bound, self.input);
        let Ran { running, last } = self.serve_published(
            &site, log, base, lanes, resources, lines, reader, out,
        );
        let last = check_closing(last)?;
        let Running { log, .. } = running;
        let size = log.operator.finish()?;
        tell_end(self.alloc, last, size, self.options.server.quiet, out)
    }

    // Serves a log in memory that begins empty.
    fn serve_new<R: Read + Send, L: Write>(
        &self,
        signers: Vec<Box<dyn Signer>>,
        reader: &mut Counted<R>,
        log: &mut Counted<L>,
    ) -> Result<(), RunFault> {
        let (alloc, origin) = (self.alloc, self.options.origin.as_str());
        let plan = match read_plan(alloc, self.options, 0, reader) {
            Ok(plan) => plan,
            Err(fault) => return Err(fault),
        };
        let (lanes, room, limit, readers) = (plan.lanes, plan.room, MOST_ENTRIES, self.readers());
        match Operator::open(
            *self.rt, alloc, origin, signers, lanes, room, limit, readers,
        ) {
            Ok((operator, submitters, readers)) => {
                let (entries, lines) = (plan.entries, plan.lines);
                self.serve_opened(
                    operator, 0, submitters, readers, entries, lines, reader, log,
                )
            }
            Err(OperatorFault::OutOfMemory) => Err(RunFault::OutOfMemory),
            Err(_) => Err(RunFault::Operator),
        }
    }

    // Serves a log in memory that goes on from the checkpoint of a note.
    fn serve_resumed<R: Read + Send, L: Write>(
        &self,
        signers: Vec<Box<dyn Signer>>,
        opens: &[Box<dyn Verifier>],
        note: &str,
        reader: &mut Counted<R>,
        log: &mut Counted<L>,
    ) -> Result<(), RunFault> {
        let (alloc, origin) = (self.alloc, self.options.origin.as_str());
        let size = size_of(alloc, note, opens)?;
        let plan = match read_plan(alloc, self.options, size, reader) {
            Ok(plan) => plan,
            Err(fault) => return Err(fault),
        };
        let bundles = bundles_of(alloc, plan.base.as_slice())?;
        let (lanes, room, limit, readers) = (plan.lanes, plan.room, MOST_ENTRIES, self.readers());
        let (rt, base) = (*self.rt, bundles.as_slice());
        match Operator::resume(
            rt, alloc, origin, signers, opens, lanes, room, limit, readers, note, base,
        ) {
            Ok((operator, submitters, readers)) => {
                let (entries, lines) = (plan.entries, plan.lines);
                self.serve_opened(
                    operator, size, submitters, readers, entries, lines, reader, log,
                )
            }
            Err(ResumeFault::OutOfMemory) => Err(RunFault::OutOfMemory),
            Err(_) => Err(RunFault::Operator),
        }
    }
}

/// Serves as `run_serve` does, but the thread of each lane passes this gate before it sends.
pub fn serve_gated<
    H: Host + Net<Listener = TcpListener, Stream = TcpStream>,
    R: Read + Send,
    L: Write,
    G: Gate,
>(
    rt: &H,
    alloc: Global,
    options: &ServeOptions,
    input: Option<RawFd>,
    reader: &mut Counted<R>,
    log: &mut Counted<L>,
    gate: Arc<G>,
) -> Result<(), RunFault>
    ensures { RefusesOrigin
        (string_bytes options.now.origin) (passage R.remaining reader.old reader.new) result }
{
    let origin = options.origin.as_str();
    if !is_key_name(origin) {
        return Err(RunFault::BadOrigin);
    }
    let gate: &G = &gate;
    let OperatorKeys { signer, verifier } = keys_of(rt, alloc, origin, &options.key)?;
    let opens: [Box<dyn Verifier>; 1] = [Box::new(alloc, verifier)?];
    let mut signers: Vec<Box<dyn Signer>> = Vec::new(alloc);
    signers.push(Box::new(alloc, signer)?)?;
    let server = Server {
        rt,
        alloc,
        options,
        input,
        gate,
    };
    match &options.note {
        Some(note) => {
            let note = with_newline(alloc, note)?;
            server.serve_resumed(signers, &opens, note.as_str(), reader, log)
        }
        None => server.serve_new(signers, reader, log),
    }
}

/// Serves the log of the lines of the input over HTTP. It reports the address, then answers
/// connections, each by `tl_server::serve_log`, and ends after as many as the options say, or once
/// something fails. A thread for each lane sends its entries, and this one takes and publishes
/// them. In the end the log is closed. `input` is the descriptor of the reader, if lines are
/// followed and there is one to wait for. It may wait.
pub fn run_serve<
    H: Host + Net<Listener = TcpListener, Stream = TcpStream>,
    R: Read + Send,
    L: Write,
>(
    rt: &H,
    alloc: Global,
    options: &ServeOptions,
    input: Option<RawFd>,
    reader: &mut Counted<R>,
    log: &mut Counted<L>,
) -> Result<(), RunFault>
    ensures { RefusesOrigin
        (string_bytes options.now.origin) (passage R.remaining reader.old reader.new) result }
{
    if !is_key_name(options.origin.as_str()) {
        return Err(RunFault::BadOrigin);
    }
    let Ok(gate) = Arc::new(alloc, OpenGate) else {
        return Err(RunFault::OutOfMemory);
    };
    serve_gated(rt, alloc, options, input, reader, log, gate)
}
