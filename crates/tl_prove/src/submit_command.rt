//! The command `submit`.

ghost use Rattle.std.specs.Prelude.{◌<◌, option_map, vec_items};
ghost use Rattle.tl_device.specs.Device.{passage};
ghost use Rattle.tl_policy.specs.Terms.{terms_of};
ghost use Rattle.tl_prove.specs.Inner.Proving.{LooksAt};
ghost use Rattle.tl_prove.specs.ProveCommand.{text_of};
ghost use Rattle.tl_prove.specs.SubmitCommand.{ProvesTaken, RunsSubmit, Submits};

use crate::entry::given_entry;
use crate::fault::ProveFault;
use crate::files::{policy_of, policy_text, read_extra};
use crate::options::SubmitOptions;
use crate::posting::post_entry;
use crate::prove_command::with_lack;
use crate::proving::{Found, TrustedNote, open_source, prove_found};
use std::alloc::{AllocError, Global};
use std::fs::{File, Files};
use std::io::Write;
use std::net::{Net, TcpStream};
use std::thread::sleep;
use std::time::{Clock, Duration, Instant};
use tl_client::ResourceSource;
use tl_device::{Counted, DeviceFault, write_whole};
use tl_fetch::{Address, FetchFault};
use tl_hash::{Sha256Tree, leaf_hash};
use tl_policy::{Policy, TrustFault};
use tl_run::print_text;
use tl_source::{FullSource, HttpSource, NamesLack, Url};

// How many milliseconds one waits before the checkpoint is looked at again.
const PAUSE: u64 = 500;

// Reports whether a log that goes on may have what is lacking later.
fn may_pass(fault: &ProveFault) -> bool {
    matches!(
        fault,
        ProveFault::Untrusted(TrustFault::NotSatisfied(_))
            | ProveFault::Fetch(FetchFault::Unavailable)
            | ProveFault::TooLate
    )
}

// Reports whether `limit` has passed since `start`.
fn is_late<H: Clock>(rt: &H, start: &Instant, limit: Duration) -> bool {
    match start.elapsed(rt) {
        Ok(elapsed) => elapsed >= limit,
        Err(_) => true,
    }
}

// Returns the source's checkpoint, if the policy trusts it and it has the entry with this index. It fails with
// `TooLate` if the checkpoint hasn't.
fn look<S: ResourceSource>(
    alloc: Global,
    source: &S,
    policy: &Policy<'_, Global>,
    index: u64,
) -> Result<TrustedNote, ProveFault>
    ensures { LooksAt (S.may_answer source.now) (S.may_lack source.now) (terms_of policy.now) index result }
{
    let checkpoint = match open_source(alloc, source, policy) {
        Ok(checkpoint) => checkpoint,
        Err(fault) => return Err(fault),
    };
    if checkpoint.head().size <= index {
        return Err(ProveFault::TooLate);
    }
    Ok(checkpoint)
}

// Returns the first checkpoint of the source that the policy trusts and that has the entry with this index, before
// `limit` has passed since `start`.
fn wait_for<H: Clock, S: ResourceSource>(
    rt: &H,
    alloc: Global,
    source: &S,
    policy: &Policy<'_, Global>,
    index: u64,
    start: &Instant,
    limit: Duration,
) -> Result<TrustedNote, ProveFault>
    ensures { LooksAt (S.may_answer source.now) (S.may_lack source.now) (terms_of policy.now) index result }
{
    for _ in 0..u64::MAX {
        match look(alloc, source, policy, index) {
            Ok(checkpoint) => return Ok(checkpoint),
            Err(fault) if !may_pass(&fault) || is_late(rt, start, limit) => return Err(fault),
            Err(_) => {}
        }
        sleep(rt, Duration::from_millis(PAUSE));
    }
    look(alloc, source, policy, index)
}

// Says on a terminal that an entry was taken.
fn tell<E: Write>(alloc: Global, index: u64, errors: &mut Counted<E>) -> Result<(), AllocError> {
    let text = format!(in alloc;
        "tlog: entry {index} is taken; waiting for a checkpoint that has it\n"
    )?;
    let _ = write_whole(errors, text.as_bytes());
    Ok(())
}

// Returns the text of a proof of an entry that the log took, with this index, once a checkpoint has it.
fn prove_taken<H: Clock, S: ResourceSource>(
    rt: &H,
    alloc: Global,
    source: &S,
    policy: &Policy<'_, Global>,
    entry: &[u8],
    index: u64,
    extra: Option<Vec<u8>>,
    start: &Instant,
    limit: Duration,
) -> Result<String, ProveFault>
    ensures { ProvesTaken (S.may_answer source.now) (S.may_lack source.now) (terms_of policy.now)
        entry.now index (option_map vec_items extra) (text_of result) }
{
    let checkpoint = match wait_for(rt, alloc, source, policy, index, start, limit) {
        Ok(checkpoint) => checkpoint,
        Err(fault) => return Err(fault),
    };
    let leaf = leaf_hash(Sha256Tree, entry);
    match prove_found(alloc, source, &checkpoint, Found { index, leaf }, extra) {
        Ok(proof) => Ok(proof),
        Err(fault) => Err(fault),
    }
}

// Posts an entry to the log at this address, and returns the text of a proof of it under a policy.
fn submit<H: Net<Stream = TcpStream> + Clock, E: Write>(
    rt: &H,
    alloc: Global,
    url: Url<'_>,
    policy: &Policy<'_, Global>,
    entry: &[u8],
    extra: Option<Vec<u8>>,
    limit: Duration,
    told: Option<&mut Counted<E>>,
) -> Result<String, ProveFault>
    ensures { Submits url.entry (terms_of policy.now) entry.now (option_map vec_items extra) (text_of result) }
{
    let Ok(start) = Instant::now(rt) else {
        return Err(ProveFault::NotPosted(DeviceFault::System));
    };
    let index = post_entry(rt, alloc, &url, entry, limit)?;
    if let Some(errors) = told {
        tell(alloc, index, errors)?;
    }
    let source = HttpSource::new(rt, alloc, url, limit);
    let source = FullSource::new(alloc, &source);
    match prove_taken(
        rt, alloc, &source, policy, entry, index, extra, &start, limit,
    ) {
        Ok(proof) => Ok(proof),
        Err(fault) => Err(with_lack(fault, source.lack())),
    }
}

/// Posts an entry to a log, waits until a checkpoint that the policy trusts has it, and prints a proof of it, which
/// `verify` accepts under the same policy. It reads the files that the options name first. If `errors` is a terminal,
/// it says there when the log has taken the entry.
pub fn run_submit<H: Files<File = File> + Net<Stream = TcpStream> + Clock, W: Write, E: Write>(
    rt: &H,
    alloc: Global,
    options: &SubmitOptions,
    writer: &mut Counted<W>,
    errors: &mut Counted<E>,
    is_terminal: bool,
) -> Result<(), ProveFault>
    ensures { RunsSubmit options.now (passage W.contents writer.old writer.new) result }
{
    let text = policy_text(rt, alloc, options.policy.as_str())?;
    let policy = policy_of(alloc, text.as_str())?;
    let entry = given_entry(rt, alloc, &options.entry)?;
    let extra = read_extra(rt, alloc, options.extra.as_deref())?;
    let Some(url) = Url::parse(options.to.as_str()) else {
        return Err(ProveFault::Fetch(FetchFault::BadAddress(Address::From)));
    };
    let limit = Duration::from_secs(options.timeout);
    let told = is_terminal.then_some(errors);
    let entry = entry.as_slice();
    let proof = match submit(rt, alloc, url, &policy, entry, extra, limit, told) {
        Ok(proof) => proof,
        Err(fault) => return Err(fault),
    };
    match print_text(writer, proof.as_bytes()) {
        Ok(()) => Ok(()),
        Err(fault) => Err(ProveFault::Fetch(FetchFault::Run(fault))),
    }
}
