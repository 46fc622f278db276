//! A log that is served from a folder.

ghost use Rattle.std.specs.Prelude.{◌≡◌, None, string_bytes};
ghost use Rattle.tl_device.specs.Device.{passage};
ghost use Rattle.tl_folder.specs.Folders.{kept_by, traced_by};
ghost use Rattle.tl_run.specs.Origins.{RefusesOrigin};
ghost use Rattle.tl_append.specs.Running.{visit};
ghost use Rattle.tl_serve.specs.Asking.{ServesCosigned};
ghost use Rattle.tl_serve.specs.Serving.{Serves};
ghost use Rattle.tl_cli.specs.Lasting.{ServesAsAsked, ServesAt, ServesBy, nobody};

use crate::own_folder::{OwnFolder, check_log, open_folder, own_folder};
use crate::proposal_file::{ProposalFile, ReadProposal, proposal_path};
use std::alloc::Global;
use std::fs::{File, Files};
use std::io::{Read, Write};
use std::net::{Net, TcpListener, TcpStream};
use std::os::fd::RawFd;
use tl_append::{AsSigned, SealedShelf};
use tl_device::Counted;
use tl_folder::{CrashOutcome, FolderShelf};
use tl_ledger::Found;
use tl_note::is_key_name;
use tl_run::RunFault;
use tl_serve::{
    BoundListener, CosignedLog, Host, ServeOptions, Served, Site, run_serve_cosigned,
    run_serve_shelf, threads_of,
};

// Returns this many shelves of the folder at this path, for threads that read there.
fn shown_of<D: CrashOutcome + Copy + Drop, H: Files + Copy + Drop>(
    disk: D,
    rt: &H,
    alloc: Global,
    dir: &str,
    count: usize,
) -> Result<Vec<FolderShelf<D, H>>, RunFault> {
    let mut shown = Vec::new(alloc);
    for _ in 0..count {
        shown.push(open_folder(disk, *rt, alloc, dir)?)?;
    }
    Ok(shown)
}

// Serves the log in a folder, and shows each checkpoint as soon as it is signed.
fn serve_signed<
    D: CrashOutcome + Copy + Send + Drop,
    H: Host
        + Files<File = File, Dir: Send + Sync>
        + Net<Listener = TcpListener, Stream = TcpStream>,
    R: Read + Send,
    E: Write,
>(
    rt: &H,
    alloc: Global,
    options: &ServeOptions,
    site: &Site<'_>,
    path: &str,
    shelf: FolderShelf<D, H>,
    shown: Vec<FolderShelf<D, H>>,
    found: &mut Found<Global>,
    reader: &mut Counted<R>,
    errors: &mut Counted<E>,
) -> Served<FolderShelf<D, H>>
    ensures serves { Serves options.now.key (string_bytes options.now.origin) nobody found.new
        (visit (kept_by D.held D.reached) (traced_by D.held D.reached) shelf result.shelf)
        result.outcome }
    ensures begins { ServesAsAsked options.now found.new
        (visit (kept_by D.held D.reached) (traced_by D.held D.reached) shelf result.shelf) }
    ensures place { result.shelf.place ≡ shelf.place }
{
    let store = ReadProposal { rt, path };
    let signed = SealedShelf::new(shelf, store, AsSigned, options.keeps_partials);
    let Served { shelf, outcome } = run_serve_shelf(
        rt, alloc, options, site, None, signed, shown, found, reader, errors,
    );
    let shelf = shelf.into_shelf();
    Served { shelf, outcome }
}

// Serves the log in a folder, and shows each checkpoint once enough witnesses have cosigned it.
fn serve_cosigned<
    D: CrashOutcome + Copy + Send + Drop,
    H: Host
        + Files<File = File, Dir: Send + Sync>
        + Net<Listener = TcpListener, Stream = TcpStream>,
    R: Read + Send,
    E: Write,
>(
    disk: D,
    rt: &H,
    alloc: Global,
    options: &ServeOptions,
    site: &Site<'_>,
    dir: &str,
    path: &str,
    shelf: FolderShelf<D, H>,
    shown: Vec<FolderShelf<D, H>>,
    found: &mut Found<Global>,
    reader: &mut Counted<R>,
    errors: &mut Counted<E>,
) -> Served<FolderShelf<D, H>>
    ensures serves { ServesCosigned options.now found.new
        (visit (kept_by D.held D.reached) (traced_by D.held D.reached) shelf result.shelf)
        result.outcome }
    ensures begins { ServesAsAsked options.now found.new
        (visit (kept_by D.held D.reached) (traced_by D.held D.reached) shelf result.shelf) }
    ensures place { result.shelf.place ≡ shelf.place }
{
    let store = match ProposalFile::open(rt, alloc, path) {
        Ok(store) => store,
        Err(fault) => {
            let outcome = Err(fault);
            return Served { shelf, outcome };
        }
    };
    let asked = match shown_of(disk, rt, alloc, dir, options.witnesses.len()) {
        Ok(asked) => asked,
        Err(fault) => {
            let outcome = Err(fault);
            return Served { shelf, outcome };
        }
    };
    let log = CosignedLog {
        shelf,
        store,
        shown,
        asked,
    };
    run_serve_cosigned(rt, alloc, options, site, log, found, reader, errors)
}

// Serves the log in a folder as its options say.
fn serve_folder<
    D: CrashOutcome + Copy + Send + Drop,
    H: Host
        + Files<File = File, Dir: Send + Sync>
        + Net<Listener = TcpListener, Stream = TcpStream>,
    R: Read + Send,
    E: Write,
>(
    disk: D,
    rt: &H,
    alloc: Global,
    options: &ServeOptions,
    site: &Site<'_>,
    dir: &str,
    shelf: FolderShelf<D, H>,
    shown: Vec<FolderShelf<D, H>>,
    found: &mut Found<Global>,
    reader: &mut Counted<R>,
    errors: &mut Counted<E>,
) -> Served<FolderShelf<D, H>>
    ensures serves { ServesBy options.now found.new
        (visit (kept_by D.held D.reached) (traced_by D.held D.reached) shelf result.shelf)
        result.outcome }
    ensures place { result.shelf.place ≡ shelf.place }
{
    let path = match proposal_path(alloc, dir) {
        Ok(path) => path,
        Err(_) => {
            let outcome = Err(RunFault::OutOfMemory);
            return Served { shelf, outcome };
        }
    };
    let path = path.as_str();
    if options.need == 0 {
        serve_signed(
            rt, alloc, options, site, path, shelf, shown, found, reader, errors,
        )
    } else {
        serve_cosigned(
            disk, rt, alloc, options, site, dir, path, shelf, shown, found, reader, errors,
        )
    }
}

/// Serves a log in the folder at this path, which no other process may work on meanwhile.
pub(crate) fn serve_at<
    D: CrashOutcome + Copy + Send + Drop,
    H: Host
        + Files<File = File, Dir: Send + Sync>
        + Net<Listener = TcpListener, Stream = TcpStream>,
    R: Read + Send,
    E: Write,
>(
    disk: D,
    rt: &H,
    alloc: Global,
    options: &ServeOptions,
    dir: &str,
    input: Option<RawFd>,
    folder: &mut Option<OwnFolder<D, H>>,
    reader: &mut Counted<R>,
    errors: &mut Counted<E>,
) -> Result<(), RunFault>
    requires { folder.old ≡ None }
    ensures refuses { RefusesOrigin
        (string_bytes options.now.origin) (passage R.remaining reader.old reader.new) result }
    ensures serves { ServesAt D.held D.reached options.now dir.now
        (passage R.remaining reader.old reader.new) folder.new result }
{
    if !is_key_name(options.origin.as_str()) {
        return Err(RunFault::BadOrigin);
    }
    let bound = match BoundListener::bind(rt, alloc, &options.server, errors) {
        Ok(bound) => bound,
        Err(fault) => return Err(fault),
    };
    let site = Site::new(&bound, input);
    match check_log(rt, alloc, dir, options.is_new) {
        Ok(()) => {}
        Err(fault) => return Err(fault),
    }
    let own = match own_folder(disk, rt, alloc, dir) {
        Ok(own) => own,
        Err(fault) => return Err(fault),
    };
    let threads = threads_of(rt, options.server.threads);
    let shown = match shown_of(disk, rt, alloc, dir, threads as usize) {
        Ok(shown) => shown,
        Err(fault) => return Err(fault),
    };
    let OwnFolder {
        lock,
        shelf,
        mut found,
    } = own;
    let Served { shelf, outcome } = serve_folder(
        disk, rt, alloc, options, &site, dir, shelf, shown, &mut found, reader, errors,
    );
    *folder = Some(OwnFolder { lock, shelf, found });
    outcome
}
