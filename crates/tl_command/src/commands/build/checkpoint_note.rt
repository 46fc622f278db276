//! The checkpoint of a log as a note, signed by the log's key.

ghost use Rattle.std.specs.Prelude.{◌≡◌, string_bytes, IfOk, IfErr};
ghost use Rattle.tl_note.specs.Key.{IsKeyName};
ghost use Rattle.tl_run.specs.Signing.{checkpoint_note};

use crate::log_lines::LogLines;
use std::alloc::{Allocator, Global};
use std::thread::Threads;
use tl_run::{LogSigner, RunFault, sign_checkpoint};

/// Returns the note of the checkpoint of the log of these lines, signed by the log's key. Up to `threads` threads
/// hash, with memory from `workers`.
pub(crate) fn checkpoint_note_of<
    H: Threads + Sync,
    K: LogSigner,
    A: Allocator + Copy,
    B: Allocator + Copy + Send,
>(
    rt: &H,
    alloc: A,
    workers: B,
    threads: usize,
    global: Global,
    key: &K,
    lines: &LogLines<'_>,
) -> Result<String<A>, RunFault>
    requires { IsKeyName (K.log_key key.now).name }
    ensures note { IfOk result
        (λ note. string_bytes note ≡ checkpoint_note (K.log_key key.now) lines.now) }
    ensures fault { IfErr result (λ fault. fault ≡ RunFault.OutOfMemory) }
{
    let root = lines.root(rt, workers, threads)?;
    sign_checkpoint(alloc, global, key, lines.count(), root)
}
