//! Runs the command that words name, and returns an exit status for its outcome.

ghost use Rattle.std.specs.Prelude.{◌≡◌, codes, option_map, string_bytes};
ghost use Rattle.tl_text.specs.Text.{line};
ghost use Rattle.tl_device.specs.Device.{passage};
ghost use Rattle.tl_command.specs.Head.{RunsHead};
ghost use Rattle.tl_cli.specs.Job.{BuildsDemo, BuildsSigned, EndsWords, RunsJob, key_kind};
ghost use Rattle.tl_command.specs.Keygen.{GivesKey};
ghost use Rattle.tl_command.specs.ProofCommands.{InclusionComes, ConsistencyComes};
ghost use Rattle.tl_run.specs.Run.{Runs};
ghost use Rattle.tl_cli.specs.Ending.{Told, status_of};
ghost use Rattle.tl_cli.specs.Told.{Tells};

use crate::checking::check_under;
use crate::fault::{
    CommandFault, after_fetch, after_prove, after_run, after_witness, command_exit_of,
};
use crate::in_bucket::{append_to, serve_from};
use crate::job::{ConsistencyOptions, InclusionOptions, Job};
use crate::key_files::keygen_to;
use crate::key_texts::{KeyTextFault, end_unread, with_texts};
use crate::lasting::{append, serve, witness};
use crate::own_folder::OwnFolder;
use crate::streams::Streams;
use crate::telling::tell;
use crate::version::{print_version, print_whole};
use crate::words::{WordsFault, read_words};
use std::alloc::{Allocator, Global};
use std::env::Env;
use std::fs::{File, Files};
use std::io::{Read, Write};
use std::net::{Net, TcpListener, TcpStream};
use std::random::RandomSource;
use std::thread::{Threads, available_parallelism};
use tl_bucket::PutsTogether;
use tl_command::{
    BuildOptions, HeadOptions, KeygenOptions, SignedOptions, run_audit, run_build,
    run_build_signed, run_check, run_consistency, run_head, run_inclusion, run_keygen, run_open,
};
use tl_device::{Counted, write_whole};
use tl_evidence::run_check_fork;
use tl_fetch::{run_feed, run_fetch};
use tl_folder::CrashOutcome;
use tl_hash::Sha256Tree;
use tl_key::{Cosignature, Note};
use tl_prove::{run_feed_by, run_fetch_by, run_prove, run_submit, run_verify};
use tl_run::{HmacLogSigner, RunFault, read_file};
use tl_serve::Host;

// Returns how many threads hash at once: as many as are asked for, or else as the machine has.
fn threads_of<H: Threads>(rt: &H, asked: Option<u16>) -> usize {
    if let Some(count) = asked {
        return usize::from(count);
    }
    match available_parallelism(rt) {
        Ok(count) => count.get(),
        Err(_) => 1,
    }
}

// Prints the checkpoint of the log of the input's lines.
fn head<H: Threads + Sync, R: Read, W: Write>(
    rt: &H,
    alloc: Global,
    options: &HeadOptions,
    reader: &mut Counted<R>,
    writer: &mut Counted<W>,
) -> Result<(), RunFault>
    ensures { RunsHead (string_bytes options.now.origin) (passage R.remaining reader.old reader.new)
        (passage W.contents writer.old writer.new) result }
{
    let (threads, origin) = (threads_of(rt, options.threads), options.origin.as_str());
    run_head(rt, alloc, alloc, threads, origin, reader, writer)
}

// Proves that a line of the input is in the log of its lines.
fn inclusion<H: Threads + Sync, R: Read, W: Write>(
    rt: &H,
    alloc: Global,
    options: InclusionOptions,
    reader: &mut Counted<R>,
    writer: &mut Counted<W>,
) -> Result<(), RunFault>
    ensures { Runs (InclusionComes options.index) (passage R.remaining reader.old reader.new)
        (passage W.contents writer.old writer.new) result }
{
    let InclusionOptions { index, threads } = options;
    run_inclusion(
        rt,
        alloc,
        alloc,
        threads_of(rt, threads),
        index,
        reader,
        writer,
    )
}

// Proves that the log of the input's lines extends that of its first ones.
fn consistency<H: Threads + Sync, R: Read, W: Write>(
    rt: &H,
    alloc: Global,
    options: ConsistencyOptions,
    reader: &mut Counted<R>,
    writer: &mut Counted<W>,
) -> Result<(), RunFault>
    ensures { Runs (ConsistencyComes options.old) (passage R.remaining reader.old reader.new)
        (passage W.contents writer.old writer.new) result }
{
    let ConsistencyOptions { old, threads } = options;
    run_consistency(
        rt,
        alloc,
        alloc,
        threads_of(rt, threads),
        old,
        reader,
        writer,
    )
}

// Makes a key of a witness or of a log.
fn key<H: RandomSource, W: Write, E: Write>(
    rt: &H,
    alloc: Global,
    options: &KeygenOptions,
    writer: &mut Counted<W>,
    errors: &mut Counted<E>,
) -> Result<(), RunFault>
    ensures { GivesKey (string_bytes options.now.name) (key_kind options.now.is_cosigner) (passage
        W.contents writer.old writer.new) (passage E.contents errors.old errors.new) result }
{
    let name = options.name.as_str();
    if options.is_cosigner {
        return run_keygen::<Cosignature, H, W, E>(rt, alloc, name, writer, errors);
    }
    run_keygen::<Note, H, W, E>(rt, alloc, name, writer, errors)
}

// Builds a mirror that is signed by the demonstration key of a secret.
fn build<H: Threads + Sync, R: Read, W: Write>(
    rt: &H,
    alloc: Global,
    options: &BuildOptions,
    reader: &mut Counted<R>,
    writer: &mut Counted<W>,
) -> Result<(), RunFault>
    ensures { BuildsDemo (string_bytes options.now.origin) (string_bytes options.now.secret)
        (option_map string_bytes options.now.get) (passage R.remaining reader.old reader.new)
        (passage W.contents writer.old writer.new) result }
{
    let key = HmacLogSigner::new(options.origin.as_str(), options.secret.as_bytes());
    let (threads, get) = (threads_of(rt, options.threads), options.get.as_deref());
    run_build(rt, alloc, alloc, threads, alloc, &key, get, reader, writer)
}

// Builds a mirror that is signed by the key in a file.
fn build_signed<H: Files + Threads + Sync, R: Read, W: Write>(
    rt: &H,
    alloc: Global,
    options: &SignedOptions,
    reader: &mut Counted<R>,
    writer: &mut Counted<W>,
) -> Result<(), RunFault>
    ensures { BuildsSigned (string_bytes options.now.origin)
        (option_map string_bytes options.now.get) (passage R.remaining reader.old reader.new)
        (passage W.contents writer.old writer.new) result }
{
    let bytes = match read_file(rt, alloc, options.key.as_str()) {
        Ok(bytes) => bytes,
        Err(fault) => return Err(fault),
    };
    let (origin, get) = (options.origin.as_str(), options.get.as_deref());
    let (bytes, threads) = (bytes.as_slice(), threads_of(rt, options.threads));
    run_build_signed(
        rt, alloc, alloc, threads, alloc, origin, bytes, get, reader, writer,
    )
}

/// Runs the command of a job with its options on the reader and the writer. `keygen`, `serve`, `witness` and `feed`
/// write to `errors` too, and `fetch` does if that is a terminal. Afterwards `folder` has the folder of a log that
/// `append` or `serve` had to itself, which stays locked until it is dropped. The servers may wait.
pub fn run_job<
    D: CrashOutcome + PutsTogether + Copy + Send + Drop,
    H: Host
        + Files<File = File, Dir: Send + Sync>
        + Net<Listener = TcpListener, Stream = TcpStream>
        + RandomSource
        + Env,
    R: Read + Send,
    W: Write + Send,
    E: Write,
>(
    disk: D,
    rt: &H,
    alloc: Global,
    job: &Job,
    streams: Streams,
    folder: &mut Option<OwnFolder<D, H>>,
    reader: &mut Counted<R>,
    writer: &mut Counted<W>,
    errors: &mut Counted<E>,
) -> Result<(), CommandFault>
    ensures { RunsJob D.held D.reached job.now folder.new (passage R.remaining reader.old reader.new)
        (passage W.contents writer.old writer.new) (passage E.contents errors.old errors.new)
        result }
{
    let Streams { is_terminal, input } = streams;
    match job {
        Job::Head(options) => after_run(head(rt, alloc, options, reader, writer)),
        Job::Build(options) => after_run(build(rt, alloc, options, reader, writer)),
        Job::BuildSigned(options) => after_run(build_signed(rt, alloc, options, reader, writer)),
        Job::Append(options) => after_run(append(disk, rt, alloc, options, folder, reader, writer)),
        Job::AppendTo(options) => append_to(disk, rt, alloc, options, reader, writer),
        Job::Inclusion(options) => after_run(inclusion(rt, alloc, *options, reader, writer)),
        Job::Consistency(options) => after_run(consistency(rt, alloc, *options, reader, writer)),
        Job::Check => after_run(run_check(alloc, reader, writer)),
        Job::CheckUnder(options) => after_run(check_under(rt, alloc, options, reader, writer)),
        Job::CheckFork { key } => after_run(run_check_fork(alloc, key, reader, writer)),
        Job::Keygen(options) => after_run(key(rt, alloc, options, writer, errors)),
        Job::KeygenTo(options) => keygen_to(rt, alloc, &options.key, options.out.as_str()),
        Job::Open { key } => after_run(run_open(alloc, key, reader, writer)),
        Job::Audit => after_run(run_audit(alloc, Sha256Tree, reader, writer)),
        Job::Serve(options) => {
            after_run(serve(disk, rt, alloc, options, input, folder, reader, errors))
        }
        Job::ServeFrom(options) => serve_from(disk, rt, alloc, options, input, reader, errors),
        Job::Witness(options) => {
            after_witness(witness(rt, alloc, options, reader, writer, errors))
        }
        Job::Fetch(options) => {
            after_fetch(run_fetch(rt, alloc, options, writer, errors, is_terminal))
        }
        Job::FetchBy(options) => {
            after_prove(run_fetch_by(rt, alloc, options, writer, errors, is_terminal))
        }
        Job::FeedBy(options) => after_prove(run_feed_by(rt, alloc, options, writer, errors)),
        Job::Feed(options) => after_fetch(run_feed(rt, alloc, options, writer, errors)),
        Job::Verify(options) => after_prove(run_verify(rt, alloc, options, reader, writer)),
        Job::Prove(options) => after_prove(run_prove(rt, alloc, options, writer)),
        Job::Submit(options) => {
            after_prove(run_submit(rt, alloc, options, writer, errors, is_terminal))
        }
        Job::Version => after_run(print_version(writer)),
        Job::Help { text } => after_run(print_whole(text, writer)),
    }
}

/// Runs the command that the words name, the program's own name first, and returns the exit status. If the words name
/// none, it prints the text on how to call the program to `errors` and returns 2, with nothing else read or written.
/// `@FILE` in place of a public key stands for the text of that file, and `--witnesses FILE` of `serve` for the
/// witnesses of a policy; if the file can't be read, that is reported.
pub fn run_words<
    D: CrashOutcome + PutsTogether + Copy + Send + Drop,
    H: Host
        + Files<File = File, Dir: Send + Sync>
        + Net<Listener = TcpListener, Stream = TcpStream>
        + RandomSource
        + Env,
    R: Read + Send,
    W: Write + Send,
    E: Write,
>(
    disk: D,
    rt: &H,
    alloc: Global,
    words: &[String],
    streams: Streams,
    reader: &mut Counted<R>,
    writer: &mut Counted<W>,
    errors: &mut Counted<E>,
) -> u8
    ensures { EndsWords D.held D.reached (passage R.remaining reader.old reader.new)
        (passage W.contents writer.old writer.new) (passage E.contents errors.old errors.new)
        result }
{
    let words = match with_texts(rt, alloc, words) {
        Ok(words) => words,
        Err(KeyTextFault::OutOfMemory) => return end_early(errors),
        Err(fault) => return end_unread(alloc, &fault, errors),
    };
    match read_words(alloc, words.as_slice()) {
        Ok(job) => {
            let mut folder = None;
            let outcome = run_job(
                disk,
                rt,
                alloc,
                &job,
                streams,
                &mut folder,
                reader,
                writer,
                errors,
            );
            end_run(alloc, &job, outcome, errors)
        }
        Err(WordsFault::Usage(text)) => {
            let _ = write_whole(errors, text.as_bytes());
            2
        }
        Err(WordsFault::OutOfMemory) => end_early(errors),
    }
}

/// Ends a run before there was a command, because memory ran out: it prints that to `errors`, and returns the exit
/// status.
pub fn end_early<E: Write>(errors: &mut Counted<E>) -> u8
    ensures status { result ≡ 1 }
    ensures told { Told (line (codes "tlog: out of memory"))
        (passage E.contents errors.old errors.new) }
{
    let _ = write_whole(errors, b"tlog: out of memory\n");
    1
}

/// Ends a run of a job's command and returns the exit status: 0 if it succeeded, else the fault's. It prints the line
/// of the fault to `errors`, if the fault has one and memory for it can be allocated.
pub fn end_run<A: Allocator + Copy, E: Write>(
    alloc: A,
    job: &Job,
    outcome: Result<(), CommandFault>,
    errors: &mut Counted<E>,
) -> u8
    ensures status { result ≡ status_of outcome }
    ensures told { Tells job.now outcome (passage E.contents errors.old errors.new) }
{
    let Err(fault) = outcome else {
        return 0;
    };
    tell(alloc, job, &fault, errors);
    command_exit_of(&fault)
}
