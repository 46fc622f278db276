//! How the threads of a running log start and end.

ghost use Rattle.std.specs.Global.{Global as GlobalValue};
ghost use Rattle.std.specs.Prelude.{All, IfOk};
ghost use Rattle.tl_sequencer.specs.Log.{IsEndOf, IsSenderOf, Log};
ghost use Rattle.tl_serve.specs.Inner.Running.{StaysRunning};

use crate::answering::{end_answering, start_answering};
use crate::following::{Source, start_following};
use crate::gate::Gate;
use crate::host::Host;
use crate::lanes::{AllSent, LaneThread, Sending, join_lanes, start_lanes};
use crate::listener::Listener;
use crate::live_log::LiveLog;
use crate::queued::Queued;
use crate::running::{Feed, Running};
use crate::signal_feed::SignalFeed;
use crate::signals::Signals;
use crate::telling::tell_closed;
use std::alloc::Global;
use std::io::Write;
use std::net::{Net, TcpListener, TcpStream};
use std::thread;
use std::thread::Scope;
use tl_device::Counted;
use tl_keepalive::Resources;
use tl_loop::{Event, PublishLoop, Step};
use tl_run::RunFault;

/// What all threads of a log share.
#[derive(Drop)]
pub(crate) struct Common<'c, H, G> {
    pub(crate) rt: &'c H,
    pub(crate) alloc: Global,
    pub(crate) listener: &'c Listener,
    pub(crate) gate: &'c G,
    pub(crate) signals: &'c Signals,
    // How many milliseconds entries that came wait for more.
    pub(crate) interval: u64,
}

// Starts the thread that sends what comes from a source, by the last lane.
fn start_last<'s, E, H: Host, S: Source + 's>(
    scope: &'s Scope<'s, E>,
    rt: &'s H,
    lanes: &mut Vec<Sending>,
    source: S,
    signals: &'s Signals,
) -> Result<LaneThread, RunFault>
    ensures left { (log : Log GlobalValue) → All (λ l. IsSenderOf l.submitter log) lanes.old.items
        → All (λ l. IsSenderOf l.submitter log) lanes.new.items }
    ensures promised { (log : Log GlobalValue)
        → All (λ l. IsSenderOf l.submitter log) lanes.old.items
        → IfOk result (λ thread. IsSenderOf thread.promise.0.value log) }
{
    let Some(lane) = lanes.pop() else {
        return Err(RunFault::Operator);
    };
    start_following(scope, rt, source, lane, signals)
}

// Starts the threads that send all but submitted entries: one for each lane, or the one that
// follows the input.
fn start_lines<'s, E, H: Host, S: Source + 's, G: Gate>(
    scope: &'s Scope<'s, E>,
    rt: &'s H,
    alloc: Global,
    lanes: Vec<Sending>,
    followed: Option<S>,
    gate: &'s G,
    signals: &'s Signals,
) -> Result<Vec<LaneThread>, RunFault>
    ensures { (log : Log GlobalValue) → All (λ l. IsSenderOf l.submitter log) lanes.items
        → IfOk result (λ threads. All (λ h. IsSenderOf h.promise.0.value log) threads.items) }
{
    let Some(source) = followed else {
        return start_lanes(scope, alloc, gate, lanes, signals);
    };
    let mut lanes = lanes;
    let thread = start_last(scope, rt, &mut lanes, source, signals)?;
    let mut threads = Vec::new(alloc);
    threads.push(thread)?;
    Ok(threads)
}

// Starts the threads that send: that of the queue, if there is one, by the last lane, and those of
// all else.
fn start_sending<'s, E, H: Host, S: Source + 's, G: Gate>(
    scope: &'s Scope<'s, E>,
    rt: &'s H,
    alloc: Global,
    lanes: Vec<Sending>,
    followed: Option<S>,
    gate: &'s G,
    signals: &'s Signals,
) -> Result<Vec<LaneThread>, RunFault>
    ensures { (log : Log GlobalValue) → All (λ l. IsSenderOf l.submitter log) lanes.items
        → IfOk result (λ threads. All (λ h. IsSenderOf h.promise.0.value log) threads.items) }
{
    let Some(queue) = signals.queue() else {
        return start_lines(scope, rt, alloc, lanes, followed, gate, signals);
    };
    let mut lanes = lanes;
    let queued = Queued::new(rt, alloc, queue);
    let thread = start_last(scope, rt, &mut lanes, queued, signals)?;
    let mut threads = start_lines(scope, rt, alloc, lanes, followed, gate, signals)?;
    threads.push(thread)?;
    Ok(threads)
}

/// A log that ran, and its loop once all threads have ended, or why they weren't started.
#[derive(Drop)]
pub(crate) struct Ran<O> {
    pub(crate) running: Running<O>,
    pub(crate) last: Result<PublishLoop<RunFault>, RunFault>,
}

/// Returns the fault that a log ends with if it isn't to be closed: that of its loop.
pub(crate) fn fault_of(publish_loop: PublishLoop<RunFault>) -> RunFault {
    match publish_loop.after(Event::Done(0)).step() {
        Step::End(Err(fault)) => fault,
        _ => RunFault::Operator,
    }
}

/// Returns the loop if the log is to be closed now, since nothing is owed any more. Fails with the
/// fault of the loop if it isn't.
pub(crate) fn check_closing(
    publish_loop: Result<PublishLoop<RunFault>, RunFault>,
) -> Result<PublishLoop<RunFault>, RunFault> {
    let publish_loop = publish_loop?;
    match publish_loop.step() {
        Step::CloseLog => Ok(publish_loop),
        _ => Err(fault_of(publish_loop)),
    }
}

/// Reports that the log is closed with this many entries, unless nothing is reported.
pub(crate) fn tell_end<L: Write>(
    alloc: Global,
    publish_loop: PublishLoop<RunFault>,
    size: u64,
    is_quiet: bool,
    out: &mut Counted<L>,
) -> Result<(), RunFault> {
    match publish_loop.after(Event::Done(size)).step() {
        Step::TellClosed(size) if !is_quiet => tell_closed(alloc, out, size),
        Step::TellClosed(_) => Ok(()),
        _ => Err(RunFault::Operator),
    }
}

// Takes in what is left of what was sent, if that is the next step, and goes on.
fn drive_rest<O: LiveLog, F: Feed, L: Write>(
    alloc: Global,
    running: &mut Running<O>,
    publish_loop: PublishLoop<RunFault>,
    sent: AllSent,
    feed: &mut F,
    out: &mut Counted<L>,
) -> PublishLoop<RunFault>
    requires holds { O.holds running.old.log }
    requires ends { All (λ e. IsEndOf e (O.log running.old.log)) sent.ends.items }
    ensures { StaysRunning O.holds O.log O.begun running.old.log running.new.log }
{
    let AllSent { ends, count } = sent;
    let mut publish_loop = publish_loop;
    if let Step::TakeRest = publish_loop.step() {
        publish_loop = publish_loop.after(running.take_rest(ends));
        publish_loop = running.drive(alloc, publish_loop, feed, out);
    }
    let _ = running.tell_rest(alloc, out, count);
    publish_loop
}

// Starts the threads, carries out the log's steps and takes in the ends of its lanes. Returns the loop as it is then.
fn run_threads<
    's,
    E,
    H: Host + Net<Listener = TcpListener, Stream = TcpStream>,
    O: LiveLog,
    P: Resources + Send + 's,
    S: Source + 's,
    L: Write,
    G: Gate,
>(
    scope: &'s Scope<'s, E>,
    common: &Common<'s, H, G>,
    running: &mut Running<O>,
    resources: Vec<P>,
    lanes: Vec<Sending>,
    followed: Option<S>,
    out: &mut Counted<L>,
) -> Result<PublishLoop<RunFault>, RunFault>
    requires holds { O.holds running.old.log }
    requires senders { All (λ l. IsSenderOf l.submitter (O.log running.old.log)) lanes.items }
    ensures { StaysRunning O.holds O.log O.begun running.old.log running.new.log }
{
    let (rt, alloc, listener, signals) = (common.rt, common.alloc, common.listener, common.signals);
    let gate = common.gate;
    let mut feed = SignalFeed::new(rt, signals, listener, common.interval, running.was_due);
    let sending = start_sending(scope, rt, alloc, lanes, followed, gate, signals)?;
    let answering = start_answering(scope, rt, alloc, listener, resources, signals)?;
    let publish_loop = running.drive(alloc, running.begin(), &mut feed, out);
    signals.stop();
    end_answering(rt, listener, answering);
    let sent = join_lanes(rt, alloc, sending)?;
    let publish_loop = publish_loop.after(Event::Done(0));
    Ok(drive_rest(alloc, running, publish_loop, sent, &mut feed, out))
}

// Runs the threads as `run_threads` does, and makes all of them end, however the run ended.
fn run_in<
    's,
    E,
    H: Host + Net<Listener = TcpListener, Stream = TcpStream>,
    O: LiveLog,
    P: Resources + Send + 's,
    S: Source + 's,
    L: Write,
    G: Gate,
>(
    scope: &'s Scope<'s, E>,
    common: Common<'s, H, G>,
    running: Running<O>,
    resources: Vec<P>,
    lanes: Vec<Sending>,
    followed: Option<S>,
    out: &mut Counted<L>,
) -> Ran<O>
    requires holds { O.holds running.log }
    requires senders { All (λ l. IsSenderOf l.submitter (O.log running.log)) lanes.items }
    ensures { StaysRunning O.holds O.log O.begun running.log result.running.log }
{
    let mut running = running;
    let last = run_threads(
        scope,
        &common,
        &mut running,
        resources,
        lanes,
        followed,
        out,
    );
    common.listener.close();
    common.signals.stop();
    Ran { running, last }
}

/// Runs a log that was opened and published once, until its connections are answered or something
/// fails, and gives it back. It isn't closed yet.
pub(crate) fn run_log<
    H: Host + Net<Listener = TcpListener, Stream = TcpStream>,
    O: LiveLog,
    P: Resources + Send,
    S: Source,
    L: Write,
    G: Gate,
>(
    common: Common<'_, H, G>,
    running: Running<O>,
    resources: Vec<P>,
    lanes: Vec<Sending>,
    followed: Option<S>,
    out: &mut Counted<L>,
) -> Ran<O>
    requires holds { O.holds running.log }
    requires senders { All (λ l. IsSenderOf l.submitter (O.log running.log)) lanes.items }
    ensures { StaysRunning O.holds O.log O.begun running.log result.running.log }
{
    thread::scope(
        thread::scope_env(),
        common.rt,
        |scope| -> Ran<O>
            requires holds { O.holds running.log }
            requires senders { All
                (λ l. IsSenderOf l.submitter (O.log running.log)) lanes.items }
            ensures { StaysRunning O.holds O.log O.begun running.log result.running.log }
        { run_in(scope, common, running, resources, lanes, followed, out) },
    )
}
