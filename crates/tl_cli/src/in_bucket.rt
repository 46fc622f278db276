//! Commands on a log in a bucket.

ghost use Rattle.std.specs.Prelude.{◌≡◌, ◌⊎◌, string_bytes};
ghost use Rattle.tl_append.specs.Running.{visit};
ghost use Rattle.tl_bucket.specs.Buckets.{bucket_kept, bucket_trace};
ghost use Rattle.tl_cli.specs.Lasting.{ServesAsAsked, nobody};
ghost use Rattle.tl_device.specs.Device.{passage};
ghost use Rattle.tl_ledger.specs.Opening.{found_size};
ghost use Rattle.tl_serve.specs.Serving.{IsLeft, Serves};
ghost use Rattle.tl_cli.specs.InBucket.{AppendsThere, AppendsTo, ServesFrom, ServesThere};

use crate::fault::CommandFault;
use crate::own_bucket::{
    AccessKey, BucketOptions, access_key, after_bucket, client_of, open_bucket,
};
use std::alloc::Global;
use std::env::Env;
use std::fs::{File, Files};
use std::io::{Read, Write};
use std::net::{Net, TcpListener, TcpStream};
use std::os::fd::RawFd;
use std::random::RandomSource;
use std::time::Clock;
use tl_append::{AppendOptions, AsSigned, Joining, NoProposals, SealedShelf, run_append};
use tl_bucket::{BucketShelf, PutsTogether, finish_log};
use tl_device::Counted;
use tl_folder::CrashOutcome;
use tl_ledger::Found;
use tl_note::is_key_name;
use tl_run::RunFault;
use tl_serve::{BoundListener, Host, ServeOptions, Served, Site, run_serve_shelf, threads_of};

/// The options of `append`, and of `build`, into a bucket.
#[derive(Drop)]
pub struct AppendToOptions {
    /// The bucket.
    pub bucket: BucketOptions,
    /// What is appended, as for a folder.
    pub append: AppendOptions,
}

/// The options of `serve` of a log in a bucket.
#[derive(Drop)]
pub struct ServeFromOptions {
    /// The bucket.
    pub bucket: BucketOptions,
    /// How it is served, as for a folder.
    pub serve: ServeOptions,
}

// Finishes what other operators began in a bucket, and appends the lines of the input.
fn finish_and_append<
    D: CrashOutcome + PutsTogether + Drop,
    H: Net<Stream = TcpStream> + Clock + Files<File = File>,
    R: Read,
    W: Write,
>(
    rt: &H,
    alloc: Global,
    options: &AppendOptions,
    shelf: BucketShelf<'_, D, H>,
    reader: &mut Counted<R>,
    writer: &mut Counted<W>,
) -> Result<(), CommandFault>
    ensures { AppendsThere D.held D.reached shelf.entry options.now
        (passage R.remaining reader.old reader.new) (passage W.contents writer.old writer.new)
        result }
{
    let mut shelf = shelf;
    let (origin, key) = (options.origin.as_str(), &options.key);
    match finish_log(rt, alloc, origin, key, &mut shelf) {
        Ok(()) => {}
        Err(fault) => return after_bucket(&shelf, Err(fault)),
    }
    let start = Some(shelf.committed());
    let mut found = Found::new(alloc);
    let outcome = run_append(
        rt,
        alloc,
        options,
        start,
        Joining::Never,
        &mut shelf,
        &NoProposals,
        &mut found,
        reader,
        writer,
    );
    after_bucket(&shelf, outcome)
}

/// Appends the lines of the input to the log in a bucket. It first finishes what other operators began, and goes on
/// only if the log has just the entries that commits append. A fault of the bucket itself is reported as such;
/// `Outrun` says that another operator appended meanwhile.
pub(crate) fn append_to<
    D: CrashOutcome + PutsTogether + Drop,
    H: Net<Stream = TcpStream> + Clock + Files<File = File> + RandomSource + Env,
    R: Read,
    W: Write,
>(
    disk: D,
    rt: &H,
    alloc: Global,
    options: &AppendToOptions,
    reader: &mut Counted<R>,
    writer: &mut Counted<W>,
) -> Result<(), CommandFault>
    ensures { AppendsTo D.held D.reached options.now (passage R.remaining reader.old reader.new)
        (passage W.contents writer.old writer.new) result }
{
    let (bucket, append) = (&options.bucket, &options.append);
    if !is_key_name(append.origin.as_str()) {
        return Err(CommandFault::Run(RunFault::BadOrigin));
    }
    let key = access_key(rt, alloc, bucket)?;
    let shelf = open_bucket(disk, rt, alloc, bucket, &key, append.is_new)?;
    finish_and_append(rt, alloc, append, shelf, reader, writer)
}

// Returns this many shelves of the bucket, for threads that read it.
fn shown_of<'b, D: CrashOutcome + Copy + Drop, H: Net<Stream = TcpStream> + Clock>(
    disk: D,
    rt: &'b H,
    alloc: Global,
    options: &'b BucketOptions,
    key: &'b AccessKey,
    count: usize,
) -> Result<Vec<BucketShelf<'b, D, H>>, CommandFault> {
    let mut shown = Vec::new(alloc);
    for _ in 0..count {
        let client = client_of(rt, alloc, options, key)?;
        shown.push(BucketShelf::reader(disk, client, options.address.as_str()))?;
    }
    Ok(shown)
}

// Serves the log in a bucket.
fn serve_sealed<
    'b,
    D: CrashOutcome + PutsTogether + Copy + Send + Drop,
    H: Host
        + Files<File = File, Dir: Send + Sync>
        + Net<Listener = TcpListener, Stream = TcpStream>,
    R: Read + Send,
    E: Write,
>(
    rt: &H,
    alloc: Global,
    options: &ServeOptions,
    site: &Site<'_>,
    shelf: BucketShelf<'b, D, H>,
    shown: Vec<BucketShelf<'b, D, H>>,
    found: &mut Found<Global>,
    reader: &mut Counted<R>,
    errors: &mut Counted<E>,
) -> Served<BucketShelf<'b, D, H>>
    ensures serves { Serves options.now.key (string_bytes options.now.origin) nobody found.new
        (visit (bucket_kept D.held D.reached) (bucket_trace D.held D.reached) shelf.entry
        result.shelf) result.outcome }
    ensures start { IsLeft (visit (bucket_kept D.held D.reached) (bucket_trace D.held D.reached)
        shelf.entry result.shelf) ⊎ (found_size found.new.head ≡ shelf.entry.objects.claims.start) }
    ensures begins { ServesAsAsked options.now found.new
        (visit (bucket_kept D.held D.reached) (bucket_trace D.held D.reached) shelf.entry
        result.shelf) }
    ensures place { result.shelf.place ≡ shelf.entry.place }
{
    let start = Some(shelf.committed());
    let sealed = SealedShelf::new(shelf, NoProposals, AsSigned, true);
    let Served { shelf, outcome } = run_serve_shelf(
        rt, alloc, options, site, start, sealed, shown, found, reader, errors,
    );
    let shelf = shelf.into_shelf();
    Served { shelf, outcome }
}

// Finishes what other operators began in a bucket, and serves the log there.
fn finish_and_serve<
    'b,
    D: CrashOutcome + PutsTogether + Copy + Send + Drop,
    H: Host
        + Files<File = File, Dir: Send + Sync>
        + Net<Listener = TcpListener, Stream = TcpStream>,
    R: Read + Send,
    E: Write,
>(
    rt: &H,
    alloc: Global,
    options: &ServeOptions,
    site: &Site<'_>,
    shelf: BucketShelf<'b, D, H>,
    shown: Vec<BucketShelf<'b, D, H>>,
    reader: &mut Counted<R>,
    errors: &mut Counted<E>,
) -> Result<(), CommandFault>
    ensures { ServesThere D.held D.reached shelf.entry options.now
        (passage R.remaining reader.old reader.new) result }
{
    let mut shelf = shelf;
    let (origin, key) = (options.origin.as_str(), &options.key);
    match finish_log(rt, alloc, origin, key, &mut shelf) {
        Ok(()) => {}
        Err(fault) => return after_bucket(&shelf, Err(fault)),
    }
    let mut found = Found::new(alloc);
    let Served { shelf, outcome } = serve_sealed(
        rt, alloc, options, site, shelf, shown, &mut found, reader, errors,
    );
    after_bucket(&shelf, outcome)
}

/// Serves the log in a bucket as one in a folder. It first finishes what other operators began.
pub(crate) fn serve_from<
    D: CrashOutcome + PutsTogether + Copy + Send + Drop,
    H: Host
        + Files<File = File, Dir: Send + Sync>
        + Net<Listener = TcpListener, Stream = TcpStream>
        + RandomSource
        + Env,
    R: Read + Send,
    E: Write,
>(
    disk: D,
    rt: &H,
    alloc: Global,
    options: &ServeFromOptions,
    input: Option<RawFd>,
    reader: &mut Counted<R>,
    errors: &mut Counted<E>,
) -> Result<(), CommandFault>
    ensures { ServesFrom D.held D.reached options.now (passage R.remaining reader.old reader.new) result }
{
    let (bucket, serve) = (&options.bucket, &options.serve);
    if !is_key_name(serve.origin.as_str()) {
        return Err(CommandFault::Run(RunFault::BadOrigin));
    }
    let bound = match BoundListener::bind(rt, alloc, &serve.server, errors) {
        Ok(bound) => bound,
        Err(fault) => return Err(CommandFault::Run(fault)),
    };
    let site = Site::new(&bound, input);
    let key = access_key(rt, alloc, bucket)?;
    let shelf = open_bucket(disk, rt, alloc, bucket, &key, serve.is_new)?;
    let threads = threads_of(rt, serve.server.threads);
    let shown = shown_of(disk, rt, alloc, bucket, &key, threads as usize)?;
    finish_and_serve(rt, alloc, serve, &site, shelf, shown, reader, errors)
}
