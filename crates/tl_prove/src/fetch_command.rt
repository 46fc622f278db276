//! The commands `fetch` and `feed` under the policy of a file.

ghost use Rattle.tl_device.specs.Device.{passage};
ghost use Rattle.tl_prove.specs.FetchCommand.{FeedsUnder, FetchesUnder, RunsFeedBy, RunsFetchBy};

use crate::fault::ProveFault;
use crate::files::{policy_of, policy_text};
use crate::options::PolicyFetchOptions;
use std::alloc::Global;
use std::fs::{File, Files};
use std::io::Write;
use std::net::{Net, TcpListener, TcpStream};
use std::thread::Threads;
use std::time::Clock;
use tl_device::Counted;
use tl_fetch::{FetchOptions, feed_by_policy, fetch_by_policy};
use tl_source::HostClient;

// Fetches under the policy that a text is.
fn fetch_under<'s, H: Files<File = File> + HostClient, W: Write, E: Write>(
    rt: &'s H,
    alloc: Global,
    text: &str,
    options: &'s FetchOptions,
    writer: &mut Counted<W>,
    errors: &'s mut Counted<E>,
    is_terminal: bool,
) -> Result<(), ProveFault>
    ensures { FetchesUnder text.now options.now (passage W.contents writer.old writer.new) result }
{
    let policy = match policy_of(alloc, text) {
        Ok(policy) => policy,
        Err(fault) => return Err(fault),
    };
    match fetch_by_policy(rt, alloc, &policy, options, writer, errors, is_terminal) {
        Ok(()) => Ok(()),
        Err(fault) => Err(ProveFault::Fetch(fault)),
    }
}

/// Runs the command `fetch` under the policy of a file, in place of keys (`tl_fetch::fetch_by_policy`). It reads the
/// file first. If `errors` is a terminal, it shows how far the checks are.
pub fn run_fetch_by<
    's,
    H: Files<File = File>
        + Net<Listener = TcpListener, Stream = TcpStream>
        + Clock
        + Threads
        + Sync,
    W: Write,
    E: Write,
>(
    rt: &'s H,
    alloc: Global,
    options: &'s PolicyFetchOptions,
    writer: &mut Counted<W>,
    errors: &'s mut Counted<E>,
    is_terminal: bool,
) -> Result<(), ProveFault>
    ensures { RunsFetchBy options.now (passage W.contents writer.old writer.new) result }
{
    let text = match policy_text(rt, alloc, options.policy.as_str()) {
        Ok(text) => text,
        Err(fault) => return Err(fault),
    };
    match fetch_under(
        rt,
        alloc,
        text.as_str(),
        &options.fetch,
        writer,
        errors,
        is_terminal,
    ) {
        Ok(()) => Ok(()),
        Err(fault) => Err(fault),
    }
}

// Feeds under the policy that a text is.
fn feed_under<H: Files<File = File> + Net<Stream = TcpStream> + Clock, W: Write, E: Write>(
    rt: &H,
    alloc: Global,
    text: &str,
    options: &FetchOptions,
    writer: &mut Counted<W>,
    errors: &mut Counted<E>,
) -> Result<(), ProveFault>
    ensures { FeedsUnder text.now options.now (passage W.contents writer.old writer.new) result }
{
    let policy = match policy_of(alloc, text) {
        Ok(policy) => policy,
        Err(fault) => return Err(fault),
    };
    match feed_by_policy(rt, alloc, &policy, options, writer, errors) {
        Ok(()) => Ok(()),
        Err(fault) => Err(ProveFault::Fetch(fault)),
    }
}

/// Runs the command `feed` under the policy of a file, in place of keys and addresses (`tl_fetch::feed_by_policy`). It
/// reads the file first. It prints to `errors` a line for each witness that gave no cosignature.
pub fn run_feed_by<H: Files<File = File> + Net<Stream = TcpStream> + Clock, W: Write, E: Write>(
    rt: &H,
    alloc: Global,
    options: &PolicyFetchOptions,
    writer: &mut Counted<W>,
    errors: &mut Counted<E>,
) -> Result<(), ProveFault>
    ensures { RunsFeedBy options.now (passage W.contents writer.old writer.new) result }
{
    let text = match policy_text(rt, alloc, options.policy.as_str()) {
        Ok(text) => text,
        Err(fault) => return Err(fault),
    };
    match feed_under(rt, alloc, text.as_str(), &options.fetch, writer, errors) {
        Ok(()) => Ok(()),
        Err(fault) => Err(fault),
    }
}
