//! The command `build` with a private key.

ghost use Rattle.std.specs.Prelude.{option_map};
ghost use Rattle.tl_device.specs.Device.{passage};
ghost use Rattle.tl_command.specs.Signed.{RunsSigned};

use crate::commands::build::run_build;
use std::alloc::{Allocator, Global};
use std::io::{Read, Write};
use std::thread::Threads;
use tl_device::Counted;
use tl_key::Note;
use tl_run::{LogSigner, RunFault, read_private_key};

/// The options of `build` with a private key.
#[derive(Drop)]
pub struct SignedOptions {
    /// The name of the log and of the key.
    pub origin: String,
    /// The file with the key.
    pub key: String,
    /// The path of the one resource to print; without it, the listing of all of them.
    pub get: Option<String>,
    /// How many threads hash at once, at least 1; without it, as many as the machine has.
    pub threads: Option<u16>,
}

/// Runs `build` as `run_build` does, signed by the private key whose text the bytes are, with or without a newline at
/// its end (`tl_key::read_signer_key`). It is a key of notes, and its name is the origin. It fails before it reads,
/// with `BadKeyFile` if the bytes are no such key's, and with `BadOrigin` if the key has another name.
pub fn run_build_signed<
    H: Threads + Sync,
    A: Allocator + Copy,
    B: Allocator + Copy + Send,
    R: Read,
    W: Write,
>(
    rt: &H,
    alloc: A,
    workers: B,
    threads: usize,
    global: Global,
    origin: &str,
    bytes: &[u8],
    get: Option<&str>,
    reader: &mut Counted<R>,
    writer: &mut Counted<W>,
) -> Result<(), RunFault>
    ensures { RunsSigned origin.now bytes.now (option_map (λ path. path.now) get.entry) (passage
        R.remaining reader.old reader.new) (passage W.contents writer.old writer.new) result }
{
    let key = match read_private_key::<Note>(global, bytes) {
        Ok(key) => key,
        Err(fault) => return Err(fault),
    };
    if key.origin() != origin {
        return Err(RunFault::BadOrigin);
    }
    run_build(
        rt, alloc, workers, threads, global, &key, get, reader, writer,
    )
}
