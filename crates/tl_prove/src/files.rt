//! The files that the options name: the policy's, and that of extra data.

ghost use Rattle.std.specs.Prelude.{IfErr, IfOk, option_map, vec_items};
ghost use Rattle.tl_prove.specs.Faults.{IsOfFile, IsOfPolicy};
ghost use Rattle.tl_prove.specs.ProveCommand.{HasExtra};
ghost use Rattle.tl_prove.specs.Policies.{ReadsTerms, WritesExtra};

use crate::fault::{NamedFile, ProveFault};
use std::alloc::{AllocError, Global};
use std::fs::{File, Files, metadata};
use tl_device::{Counted, DeviceFault, read_plain, write_whole};
use tl_policy::{Policy, PolicyFault, parse_policy};

// The most bytes of the file of a policy.
const MOST_POLICY: u64 = 65_536;

// The most bytes of the file of extra data, 1 MiB.
const MOST_EXTRA: u64 = 1_048_576;

/// Returns the text of the policy's file, of at most 65,536 bytes.
pub fn policy_text<H: Files>(rt: &H, alloc: Global, path: &str) -> Result<String, ProveFault>
    ensures { IfErr result IsOfPolicy }
{
    let bytes = match read_plain(alloc, rt, path, metadata(rt, path), MOST_POLICY) {
        Ok(bytes) => bytes,
        Err(why) => return Err(ProveFault::of_file(NamedFile::Policy, why)),
    };
    match String::from_utf8(bytes) {
        Ok(text) => Ok(text),
        Err(_) => Err(ProveFault::PolicyNotText),
    }
}

/// Returns the policy that a text is.
pub fn policy_of(alloc: Global, text: &str) -> Result<Policy<'_, Global>, ProveFault>
    ensures { ReadsTerms text.now result }
{
    match parse_policy(alloc, alloc, text) {
        Ok(policy) => Ok(policy),
        Err(PolicyFault::OutOfMemory) => Err(ProveFault::from(AllocError)),
        Err(fault) => Err(ProveFault::Policy(fault)),
    }
}

/// Returns the bytes of the file of extra data, of at most 1 MiB, if one is named.
pub(crate) fn read_extra<H: Files>(
    rt: &H,
    alloc: Global,
    path: Option<&str>,
) -> Result<Option<Vec<u8>>, ProveFault>
    ensures extra { IfOk result (λ extra. HasExtra path.entry (option_map vec_items extra)) }
    ensures refused { IfErr result (IsOfFile NamedFile.Extra) }
{
    let Some(path) = path else {
        return Ok(None);
    };
    match read_plain(alloc, rt, path, metadata(rt, path), MOST_EXTRA) {
        Ok(bytes) => Ok(Some(bytes)),
        Err(why) => Err(ProveFault::of_file(NamedFile::Extra, why)),
    }
}

// Writes the bytes to the file at this path, in place of what it had.
fn write_file<H: Files<File = File>>(rt: &H, path: &str, bytes: &[u8]) -> Result<(), DeviceFault> {
    let mut writer = Counted::new(File::create(rt, path)?);
    if write_whole(&mut writer, bytes).is_err() {
        return Err(DeviceFault::System);
    }
    Ok(writer.into_inner().sync_all()?)
}

/// Writes a proof's extra data to the file at this path, if one is named. It fails with `NoExtra` if the proof has
/// none.
pub(crate) fn write_extra<H: Files<File = File>>(
    rt: &H,
    path: Option<&str>,
    extra: Option<&[u8]>,
) -> Result<(), ProveFault>
    ensures { WritesExtra (option_map (λ e. e.now) extra.entry) result }
{
    let Some(path) = path else {
        return Ok(());
    };
    let Some(bytes) = extra else {
        return Err(ProveFault::NoExtra);
    };
    match write_file(rt, path, bytes) {
        Ok(()) => Ok(()),
        Err(why) => Err(ProveFault::of_file(NamedFile::Extra, why)),
    }
}
