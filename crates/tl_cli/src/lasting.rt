//! Commands on folders and files that outlast the program.

ghost use Rattle.std.specs.Prelude.{◌↔◌, IsTrue, string_bytes};
ghost use Rattle.tl_serve.specs.Knowing.{MayServe, RefusesLog};
ghost use Rattle.tl_device.specs.Device.{passage};
ghost use Rattle.tl_run.specs.Origins.{RefusesOrigin};
ghost use Rattle.tl_cli.specs.Inner.Compacting.{CompactsFile};
ghost use Rattle.tl_cli.specs.Lasting.{AppendsIn, ServesIn, SparesStreams};

use crate::own_folder::{OwnFolder, check_log, own_folder};
use crate::proposal_file::{ReadProposal, proposal_path};
use crate::serving_folder::serve_at;
use std::alloc::Global;
use std::fs::{File, Files};
use std::io::{Read, Write};
use std::net::{Net, TcpListener, TcpStream};
use std::os::fd::RawFd;
use tl_append::{AppendOptions, Joining, run_append};
use tl_device::{Counted, DeviceFault};
use tl_folder::{CrashOutcome, DurableAppend, LineStream, stream_lines};
use tl_hash::Sha256Tree;
use tl_logs::compact_state;
use tl_note::is_key_name;
use tl_run::{Place, RunFault, print_text};
use tl_serve::{
    BoundListener, Host, KnownLogs, ServeOptions, WitnessFault, WitnessOptions, run_serve,
    run_witness,
};

// Returns how the batches of standard input are joined: reads of a plain file never wait for a writer.
fn joining_of<H: Files>(rt: &H) -> Joining {
    match rt.metadata("/dev/stdin") {
        Ok(metadata) if metadata.is_file() => Joining::Always,
        _ => Joining::AtHand,
    }
}

/// Appends the lines of the input to the log in a folder, which no other process may work on meanwhile, or begins a
/// log there, if the options say so. If the folder could be opened, `folder` has it afterwards.
pub(crate) fn append<
    D: CrashOutcome + Drop,
    H: Files<File = File> + Copy + Drop,
    R: Read,
    W: Write,
>(
    disk: D,
    rt: &H,
    alloc: Global,
    options: &AppendOptions,
    folder: &mut Option<OwnFolder<D, H>>,
    reader: &mut Counted<R>,
    writer: &mut Counted<W>,
) -> Result<(), RunFault>
    ensures refuses { RefusesOrigin
        (string_bytes options.now.origin) (passage R.remaining reader.old reader.new) result }
    ensures appends { AppendsIn D.held D.reached options.now (passage R.remaining reader.old reader.new)
        (passage W.contents writer.old writer.new) folder.new result }
{
    *folder = None;
    if !is_key_name(options.origin.as_str()) {
        return Err(RunFault::BadOrigin);
    }
    let dir = options.dir.as_str();
    match check_log(rt, alloc, dir, options.is_new) {
        Ok(()) => {}
        Err(fault) => return Err(fault),
    }
    let OwnFolder {
        lock,
        mut shelf,
        mut found,
    } = match own_folder(disk, rt, alloc, dir) {
        Ok(own) => own,
        Err(fault) => return Err(fault),
    };
    let path = match proposal_path(alloc, dir) {
        Ok(path) => path,
        Err(_) => return Err(RunFault::OutOfMemory),
    };
    let path = path.as_str();
    let store = ReadProposal { rt, path };
    let joining = joining_of(rt);
    let outcome = run_append(
        rt, alloc, options, None, joining, &mut shelf, &store, &mut found, reader, writer,
    );
    *folder = Some(OwnFolder { lock, shelf, found });
    outcome
}

/// Serves a log in a folder, if the options name one and no other process works on it, or else in memory. If the
/// folder could be opened, `folder` has it afterwards.
pub(crate) fn serve<
    D: CrashOutcome + Copy + Send + Drop,
    H: Host
        + Files<File = File, Dir: Send + Sync>
        + Net<Listener = TcpListener, Stream = TcpStream>,
    R: Read + Send,
    E: Write,
>(
    disk: D,
    rt: &H,
    alloc: Global,
    options: &ServeOptions,
    input: Option<RawFd>,
    folder: &mut Option<OwnFolder<D, H>>,
    reader: &mut Counted<R>,
    errors: &mut Counted<E>,
) -> Result<(), RunFault>
    ensures refuses { RefusesOrigin
        (string_bytes options.now.origin) (passage R.remaining reader.old reader.new) result }
    ensures serves { ServesIn D.held D.reached options.now
        (passage R.remaining reader.old reader.new) folder.new result }
{
    *folder = None;
    match &options.dir {
        None => run_serve(rt, alloc, options, input, reader, errors),
        Some(dir) => serve_at(disk, rt, alloc, options, dir, input, folder, reader, errors),
    }
}

// Reports whether a witness of these logs may be served: a single log needs the name of a key.
fn may_serve(logs: &KnownLogs) -> bool
    ensures { IsTrue result ↔ MayServe logs.now }
{
    match logs {
        KnownLogs::One(origin, _) => is_key_name(origin.as_str()),
        KnownLogs::Listed(_) => true,
    }
}

// Returns the fault of `witness` for a state that can't be opened, read or written.
fn state_fault(fault: DeviceFault) -> WitnessFault {
    WitnessFault::Run(RunFault::of_device(Place::State, fault))
}

// Replaces the lines of a file, which the reader gives, by one line of each origin, and returns how many bytes they
// have.
fn compact_lines<H: Files, R: Read>(
    alloc: Global,
    reader: &mut Counted<R>,
    end: &mut DurableAppend<'_, H>,
) -> Result<usize, WitnessFault>
    ensures { CompactsFile (passage R.remaining reader.old reader.new) end.old end.new result }
{
    let text = match compact_state(alloc, Sha256Tree, reader) {
        Ok(text) => text,
        Err(fault) => return Err(WitnessFault::from(fault)),
    };
    match end.replace(alloc, text.as_bytes()) {
        Ok(()) => Ok(text.len()),
        Err(fault) => Err(state_fault(fault)),
    }
}

// Compacts the file of lines at this path, which is locked meanwhile, and reports its size before and after.
fn compact<H: Files<File = File>, E: Write>(
    rt: &H,
    alloc: Global,
    path: &str,
    is_quiet: bool,
    errors: &mut Counted<E>,
) -> Result<(), WitnessFault> {
    let LineStream {
        lines,
        length,
        mut end,
    } = match stream_lines(rt, path) {
        Ok(stream) => stream,
        Err(fault) => return Err(state_fault(fault)),
    };
    let left = compact_lines(alloc, &mut Counted::new(lines), &mut end)?;
    if is_quiet {
        return Ok(());
    }
    let line = format!(in alloc; "compacted {length} to {left}\n")?;
    print_text(errors, line.as_bytes())?;
    Ok(())
}

// Checks, before anything is made, that no file is at this path if a state begins, and that one is if not.
fn check_state<H: Files>(rt: &H, path: &str, is_new: bool) -> Result<(), WitnessFault> {
    match (rt.symlink_metadata(path), is_new) {
        (Ok(_), true) => Err(state_fault(DeviceFault::Taken)),
        (Ok(_), false) => Ok(()),
        (Err(error), is_new) => match DeviceFault::from(error) {
            DeviceFault::NotThere if is_new => Ok(()),
            DeviceFault::NotThere => Err(WitnessFault::Run(RunFault::NothingThere(Place::State))),
            fault => Err(state_fault(fault)),
        },
    }
}

// Serves a witness whose lines are those of the file at this path.
fn witness_at<
    H: Host
        + Files<File = File, Dir: Send + Sync>
        + Net<Listener = TcpListener, Stream = TcpStream>,
    E: Write,
>(
    rt: &H,
    alloc: Global,
    options: &WitnessOptions,
    path: &str,
    errors: &mut Counted<E>,
) -> Result<(), WitnessFault> {
    let bound = match BoundListener::bind(rt, alloc, &options.server, errors) {
        Ok(bound) => bound,
        Err(fault) => return Err(WitnessFault::Run(fault)),
    };
    match check_state(rt, path, options.is_new) {
        Ok(()) => {}
        Err(fault) => return Err(fault),
    }
    if options.compacts {
        compact(rt, alloc, path, options.server.quiet, errors)?;
    }
    let LineStream { lines, end, .. } = match stream_lines(rt, path) {
        Ok(stream) => stream,
        Err(fault) => return Err(state_fault(fault)),
    };
    let (mut reader, mut writer) = (Counted::new(lines), Counted::new(end));
    let outcome = run_witness(
        rt,
        alloc,
        options,
        Some(&bound),
        &mut reader,
        &mut writer,
        errors,
    );
    match (outcome, writer.into_inner().fault()) {
        (Err(WitnessFault::Run(RunFault::Write)), Some(fault)) => Err(state_fault(fault)),
        (outcome, _) => outcome,
    }
}

/// Serves a witness whose lines are those of a file, if the options name one, or else those of the input and the
/// output. It compacts the file first, if the options say so.
pub(crate) fn witness<
    H: Host
        + Files<File = File, Dir: Send + Sync>
        + Net<Listener = TcpListener, Stream = TcpStream>,
    R: Read,
    W: Write + Send,
    E: Write,
>(
    rt: &H,
    alloc: Global,
    options: &WitnessOptions,
    reader: &mut Counted<R>,
    writer: &mut Counted<W>,
    errors: &mut Counted<E>,
) -> Result<(), WitnessFault>
    ensures refuses { RefusesLog
        options.now.logs (passage R.remaining reader.old reader.new) result }
    ensures spares { SparesStreams options.now (passage R.remaining reader.old reader.new)
        (passage W.contents writer.old writer.new) }
{
    let Some(path) = &options.state else {
        return run_witness(rt, alloc, options, None, reader, writer, errors);
    };
    if !may_serve(&options.logs) {
        return Err(WitnessFault::Run(RunFault::BadOrigin));
    }
    witness_at(rt, alloc, options, path, errors)
}
