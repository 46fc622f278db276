//! The command `prove`.

ghost use Rattle.std.specs.Prelude.{◌≡◌, option_map, vec_items};
ghost use Rattle.tl_device.specs.Device.{passage};
ghost use Rattle.tl_prove.specs.ProveCommand.{IsShownAs, ProvesBy, ProvesFor, RunsProve, text_of};

use crate::entry::given_entry;
use crate::fault::ProveFault;
use crate::files::{policy_of, policy_text, read_extra};
use crate::options::{ProveOptions, ProveRequest};
use crate::proving::{Wanted, prove};
use std::alloc::Global;
use std::fs::{File, Files};
use std::io::Write;
use std::net::{Net, TcpStream};
use std::time::Clock;
use tl_client::ResourceSource;
use tl_device::Counted;
use tl_fetch::{FetchFault, name_lack, source_of};
use tl_run::print_text;
use tl_source::{FullSource, Lack, NamesLack};

/// Returns a fault that names what the source lacked in its last call, if that is the reason.
pub(crate) fn with_lack(fault: ProveFault, lack: Option<Lack>) -> ProveFault
    ensures { IsShownAs fault result }
{
    match fault {
        ProveFault::Fetch(fault) => ProveFault::Fetch(name_lack(fault, lack)),
        _ => fault,
    }
}

// Returns the text of a proof of what a source has, under the policy of a text.
fn prove_by<S: ResourceSource + NamesLack>(
    alloc: Global,
    source: &S,
    text: &str,
    wanted: Wanted<'_>,
    extra: Option<Vec<u8>>,
) -> Result<String, ProveFault>
    ensures { ProvesBy (S.may_answer source.now) (S.may_lack source.now) text.now wanted.entry
        (option_map vec_items extra) (text_of result) }
{
    let policy = match policy_of(alloc, text) {
        Ok(policy) => policy,
        Err(fault) => return Err(fault),
    };
    match prove(alloc, source, &policy, wanted, extra) {
        Ok(proof) => Ok(proof),
        Err(fault) => Err(with_lack(fault, source.lack())),
    }
}

// Returns the text of the proof that the options ask for.
fn proof_for<H: Files<File = File> + Net<Stream = TcpStream> + Clock>(
    rt: &H,
    alloc: Global,
    options: &ProveOptions,
    text: &str,
    extra: Option<Vec<u8>>,
) -> Result<String, ProveFault>
    ensures { ProvesFor options.now text.now (option_map vec_items extra) (text_of result) }
{
    let from = options.from.as_str();
    let source = match source_of(rt, alloc, from, options.timeout) {
        Ok(source) => source,
        Err(fault) => return Err(ProveFault::Fetch(fault)),
    };
    let source = FullSource::new(alloc, &source);
    match &options.wanted {
        ProveRequest::Index(index) => prove_by(alloc, &source, text, Wanted::Index(*index), extra),
        ProveRequest::Entry(entry) => match given_entry(rt, alloc, entry) {
            Ok(entry) => prove_by(alloc, &source, text, Wanted::Entry(entry.as_slice()), extra),
            Err(fault) => Err(fault),
        },
    }
}

/// Prints a proof of an entry of a log, from a folder or over HTTP, which `verify` accepts under the same policy
/// (`prove`). It reads the files that the options name first.
pub fn run_prove<H: Files<File = File> + Net<Stream = TcpStream> + Clock, W: Write>(
    rt: &H,
    alloc: Global,
    options: &ProveOptions,
    writer: &mut Counted<W>,
) -> Result<(), ProveFault>
    ensures { RunsProve options.now (passage W.contents writer.old writer.new) result }
{
    let text = policy_text(rt, alloc, options.policy.as_str())?;
    let extra = read_extra(rt, alloc, options.extra.as_deref())?;
    let proof = match proof_for(rt, alloc, options, text.as_str(), extra) {
        Ok(proof) => proof,
        Err(fault) => return Err(fault),
    };
    match print_text(writer, proof.as_bytes()) {
        Ok(()) => Ok(()),
        Err(fault) => Err(ProveFault::Fetch(FetchFault::Run(fault))),
    }
}
