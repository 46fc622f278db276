//! The server of a witness: which connections are answered, and by which threads.

use crate::answering::answer;
use crate::bound_listener::BoundListener;
use crate::host::Host;
use crate::listener::Listener;
use crate::options::WitnessOptions;
use crate::queue::LineQueue;
use crate::resources::outcome_of;
use crate::saver::LineSaver;
use crate::serve::threads_of;
use crate::signals::Signals;
use mio::Poll;
use std::alloc::Global;
use std::io::{Read, Write};
use std::net::{Net, TcpListener, TcpStream};
use std::sync::Wait;
use std::thread;
use std::thread::Scope;
use std::time::{Clock, SystemTime, UNIX_EPOCH};
use tl_device::Counted;
use tl_keepalive::Resources;
use tl_loop::Event;
use tl_run::RunFault;
use tl_server::{Outcome, ServeFault, Submits, Witness, serve_witness};

// What requests to a witness are answered from.
#[derive(Drop)]
struct WitnessResources<'w, 'o, H, W, O> {
    rt: &'w H,
    witness: &'w W,
    time: Option<u64>,
    queue: &'w LineQueue<'o, O>,
    signals: &'w Signals,
}

// Returns the seconds since 1970 to cosign with: those that were given, or else those of the
// machine's clock.
fn seconds<H: Clock>(rt: &H, given: Option<u64>) -> u64 {
    if let Some(seconds) = given {
        return seconds;
    }
    let Ok(now) = SystemTime::now(rt) else {
        return 0;
    };
    match now.duration_since(UNIX_EPOCH) {
        Ok(since) => since.as_secs(),
        Err(_) => 0,
    }
}

impl<H: Clock + Wait, W: Witness<Global>, O: Write> Resources
    for WitnessResources<'_, '_, H, W, O> {
    ghost use Rattle.tl_serve.specs.Inner.Answering.{witness_courses};

    ghost courses = { λ a b _ _. witness_courses W.digest (W.shown a.witness.now) };

    ghost idle = { λ _ _ _. Unit {0} };

    fn answer<I: Read, Z: Write, T: Submits>(
        &mut self,
        alloc: Global,
        reader: &mut Counted<I>,
        writer: &mut Counted<Z>,
        _queue: &mut T,
    ) -> Result<Outcome, ServeFault> {
        let (rt, time) = (self.rt, seconds(self.rt, self.time));
        let mut saver = LineSaver::new(rt, alloc, self.queue);
        let outcome = serve_witness(rt, alloc, reader, writer, self.witness, time, &mut saver);
        if saver.has_failed() {
            self.signals.report_fault(rt, RunFault::Write);
        }
        outcome_of(outcome)
    }
}

// Answers connections to a witness.
fn answer_witness<H: Clock + Net + Wait, W: Witness<Global>, O: Write>(
    rt: &H,
    alloc: Global,
    listener: &Listener,
    poll: Poll,
    witness: &W,
    time: Option<u64>,
    queue: &LineQueue<'_, O>,
    signals: &Signals,
) {
    let resources = WitnessResources {
        rt,
        witness,
        time,
        queue,
        signals,
    };
    answer(rt, alloc, listener, poll, resources, signals);
}

// Starts the threads that answer, and waits until all connections are answered. Fails as soon as
// something does.
fn answer_in<
    's,
    'o: 's,
    E,
    H: Host + Net<Listener = TcpListener, Stream = TcpStream>,
    W: Witness<Global> + Sync,
    O: Write + Send,
>(
    scope: &'s Scope<'s, E>,
    rt: &'s H,
    alloc: Global,
    time: Option<u64>,
    listener: &'s Listener,
    witness: &'s W,
    queue: &'s LineQueue<'o, O>,
    signals: &'s Signals,
) -> Result<(), RunFault> {
    let mut threads: u64 = 0;
    for _ in 0..u64::MAX {
        let Some(poll) = listener.next_poll(rt) else {
            break;
        };
        signals.begin_answering();
        let job = move || answer_witness(rt, alloc, listener, poll, witness, time, queue, signals);
        if scope.spawn(job).is_err() {
            signals.end_answering();
            break;
        }
        threads = threads.saturating_add(1);
    }
    if threads == 0 {
        return Err(RunFault::OutOfMemory);
    }
    let outcome = match signals.wait(rt) {
        Event::Failed(fault) => Err(fault),
        _ => Ok(()),
    };
    listener.close();
    outcome
}

// Answers connections to a witness by as many threads as are to answer.
fn answer_all<
    H: Host + Net<Listener = TcpListener, Stream = TcpStream>,
    W: Witness<Global> + Sync,
    O: Write + Send,
>(
    rt: &H,
    alloc: Global,
    time: Option<u64>,
    listener: &Listener,
    witness: &W,
    queue: &LineQueue<'_, O>,
    signals: &Signals,
) -> Result<(), RunFault> {
    thread::scope(thread::scope_env(), rt, |scope| {
        answer_in(scope, rt, alloc, time, listener, witness, queue, signals)
    })
}

// Opens the listener of a witness, at its bound address if it has one.
fn open_listener<H: Host + Net<Listener = TcpListener, Stream = TcpStream>, L: Write>(
    rt: &H,
    alloc: Global,
    options: &WitnessOptions,
    bound: Option<&BoundListener>,
    threads: u32,
    log: &mut Counted<L>,
) -> Result<Listener, RunFault> {
    let server = &options.server;
    if let Some(bound) = bound {
        return Listener::open(rt, alloc, server, bound, threads, log);
    }
    let bound = BoundListener::bind(rt, alloc, server, log)?;
    Listener::open(rt, alloc, server, &bound, threads, log)
}

/// Listens, and answers connections to a witness.
pub(crate) fn serve_all<
    H: Host + Net<Listener = TcpListener, Stream = TcpStream>,
    W: Witness<Global> + Sync,
    O: Write + Send,
    L: Write,
>(
    rt: &H,
    alloc: Global,
    options: &WitnessOptions,
    bound: Option<&BoundListener>,
    witness: &W,
    writer: &mut Counted<O>,
    log: &mut Counted<L>,
) -> Result<(), RunFault> {
    let threads = threads_of(rt, options.server.threads);
    let signals = Signals::new(rt, alloc, None, None, None)?;
    let listener = open_listener(rt, alloc, options, bound, threads, log)?;
    let queue = LineQueue::new(alloc, &mut *writer)?;
    answer_all(
        rt,
        alloc,
        options.time,
        &listener,
        witness,
        &queue,
        &signals,
    )
}
