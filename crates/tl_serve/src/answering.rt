//! The threads that answer connections.

use crate::connections::Connections;
use crate::context::Context;
use crate::host::Host;
use crate::listener::Listener;
use crate::signals::Signals;
use mio::Poll;
use std::alloc::Global;
use std::net::{Net, TcpListener, TcpStream};
use std::sync::Wait;
use std::thread::{JoinHandle, Scope, Threads};
use std::time::Clock;
use tl_keepalive::Resources;
use tl_run::RunFault;

/// A thread that answers.
pub(crate) type AnsweringThread = JoinHandle<()>;

// Answers connections from these resources, until no more are to be accepted.
fn answer_from<H: Clock + Net + Wait, P: Resources>(
    rt: &H,
    alloc: Global,
    listener: &Listener,
    poll: Poll,
    resources: P,
    signals: &Signals,
) -> Result<(), RunFault> {
    let mut connections = Connections::new(Context { rt, alloc, signals }, listener, poll)?;
    connections.answer_all(resources)
}

/// Answers connections from these resources, until no more are to be accepted. Reports a fault, and
/// that it ends.
pub(crate) fn answer<H: Clock + Net + Wait, P: Resources>(
    rt: &H,
    alloc: Global,
    listener: &Listener,
    poll: Poll,
    resources: P,
    signals: &Signals,
) {
    if let Err(fault) = answer_from(rt, alloc, listener, poll, resources, signals) {
        signals.report_fault(rt, fault);
    }
    signals.end_answering();
}

/// Starts a thread that answers from each of these resources, as long as threads can be started. Fails with
/// `OutOfMemory` if none can.
pub(crate) fn start_answering<
    's,
    E,
    H: Host + Net<Listener = TcpListener, Stream = TcpStream>,
    P: Resources + Send + 's,
>(
    scope: &'s Scope<'s, E>,
    rt: &'s H,
    alloc: Global,
    listener: &'s Listener,
    resources: Vec<P>,
    signals: &'s Signals,
) -> Result<Vec<AnsweringThread>, RunFault> {
    let mut threads = Vec::new(alloc);
    for own in resources {
        let Some(poll) = listener.next_poll(rt) else {
            break;
        };
        signals.begin_answering();
        match scope.spawn(move || answer(rt, alloc, listener, poll, own, signals)) {
            Ok(thread) => threads.push(thread)?,
            Err(_) => {
                signals.end_answering();
                break;
            }
        }
    }
    if threads.is_empty() {
        return Err(RunFault::OutOfMemory);
    }
    Ok(threads)
}

/// Closes the listener, and waits for the threads that answer.
pub(crate) fn end_answering<H: Threads>(
    rt: &H,
    listener: &Listener,
    threads: Vec<AnsweringThread>,
) {
    listener.close();
    for thread in threads {
        thread.join(rt);
    }
}
