//! The command `verify`.

ghost use Rattle.tl_device.specs.Device.{passage};
ghost use Rattle.tl_policy.specs.Terms.{terms_of};
ghost use Rattle.tl_prove.specs.VerifyCommand.{PrintsAccepted, RunsVerify, VerifiesBy, VerifiesInput};

use crate::accepted::accepted_lines;
use crate::entry::given_entry;
use crate::fault::{ProveFault, Refusal};
use crate::files::{policy_of, policy_text, write_extra};
use crate::options::VerifyOptions;
use crate::verifying::{Verified, verify};
use std::alloc::{AllocError, Global};
use std::fs::{File, Files};
use std::io::{Read, Write};
use tl_device::Counted;
use tl_hash::{Hash, Sha256Tree, leaf_hash};
use tl_policy::Policy;
use tl_run::{MOST_INPUT, print_text, read_input};

// Reads the whole input, and returns what it shows of the entry with this leaf hash.
fn verify_input<R: Read>(
    alloc: Global,
    policy: &Policy<'_, Global>,
    leaf: Hash,
    reader: &mut Counted<R>,
) -> Result<Verified<Global>, ProveFault>
    ensures { VerifiesInput (terms_of policy.now) leaf
        (passage R.remaining reader.old reader.new) result }
{
    let input = read_input(alloc, reader, MOST_INPUT)?;
    match verify(alloc, policy, leaf, input.as_slice()) {
        Ok(verified) => Ok(verified),
        Err(Refusal::OutOfMemory) => Err(ProveFault::from(AllocError)),
        Err(why) => Err(ProveFault::Refused(why)),
    }
}

// Prints what an accepted proof shows.
fn print_accepted<W: Write>(
    alloc: Global,
    policy: &Policy<'_, Global>,
    verified: &Verified<Global>,
    writer: &mut Counted<W>,
) -> Result<(), ProveFault>
    ensures { PrintsAccepted (terms_of policy.now) verified.now
        (passage W.contents writer.old writer.new) result }
{
    let text = accepted_lines(alloc, policy, verified)?;
    print_text(writer, text.as_bytes())?;
    Ok(())
}

// Verifies the input under the policy of a text.
fn verify_by<H: Files<File = File>, R: Read, W: Write>(
    rt: &H,
    alloc: Global,
    text: &str,
    entry: &[u8],
    extra: Option<&str>,
    reader: &mut Counted<R>,
    writer: &mut Counted<W>,
) -> Result<(), ProveFault>
    ensures { VerifiesBy text.now entry.now (passage R.remaining reader.old reader.new)
        (passage W.contents writer.old writer.new) result }
{
    let policy = match policy_of(alloc, text) {
        Ok(policy) => policy,
        Err(fault) => return Err(fault),
    };
    let leaf = leaf_hash(Sha256Tree, entry);
    let verified = match verify_input(alloc, &policy, leaf, reader) {
        Ok(verified) => verified,
        Err(fault) => return Err(fault),
    };
    if let Err(fault) = write_extra(rt, extra, verified.extra.as_deref()) {
        return Err(fault);
    }
    match print_accepted(alloc, &policy, &verified, writer) {
        Ok(()) => Ok(()),
        Err(fault) => Err(fault),
    }
}

/// Reads a proof, the whole input, and prints `accepted`, the size of the log and the entry's index, and for each
/// witness of the policy that cosigned its name and the time, a line each, if the policy accepts the proof for the
/// entry (`verify`). It first reads the files that the options name, and writes the proof's extra data before it
/// prints. `Refused` says why a proof isn't accepted; nothing is printed then.
pub fn run_verify<H: Files<File = File>, R: Read, W: Write>(
    rt: &H,
    alloc: Global,
    options: &VerifyOptions,
    reader: &mut Counted<R>,
    writer: &mut Counted<W>,
) -> Result<(), ProveFault>
    ensures { RunsVerify options.now (passage R.remaining reader.old reader.new)
        (passage W.contents writer.old writer.new) result }
{
    let text = policy_text(rt, alloc, options.policy.as_str())?;
    let entry = given_entry(rt, alloc, &options.entry)?;
    let extra = options.extra.as_deref();
    verify_by(
        rt,
        alloc,
        text.as_str(),
        entry.as_slice(),
        extra,
        reader,
        writer,
    )
}
