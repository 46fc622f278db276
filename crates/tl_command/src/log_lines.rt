//! The lines of a text as the entries of a log, hashed part by part without a copy.

ghost use Rattle.std.specs.Prelude.{◌≡◌, ◌-◌, ◌<◌, ◌^◌, length, map, take, drop, vec_items, IfOk};
ghost use Rattle.sha2.specs.Sha256.{sha256};
ghost use Rattle.tl_hash.specs.Tree.{tree_hash};
ghost use Rattle.tl_tile.specs.Bundle.{AreShortEntries};

use crate::entries::split_entries;
use crate::growing::reading::edge_of;
use crate::marked_text::MarkedText;
use std::alloc::{AllocError, Allocator};
use std::marker::Model;
use std::thread::Threads;
use tl_hash::Hash;
use tl_run::RunFault;

/// The lines of a text, none of which is too long, as the entries of a log. They are borrowed from the text.
/// Contracts see the list of them.
#[derive(Drop)]
pub(crate) struct LogLines<'a> {
    pub(crate) marked: MarkedText<'a>,
    pub(crate) count: u64,
}

impl<'a> Model for LogLines<'a> {
    ghost use Rattle.std.specs.Prelude.{List};
    ghost use Rattle.tl_hash.specs.Bytes.{Bytes};
    ghost use Rattle.tl_command.specs.Inner.Cuts.{AreMarkedLines};
    ghost use Rattle.tl_command.specs.Lines.{entries_of};

    ghost Value = { List Bytes };

    ghost view = { λ lines. entries_of lines.marked.text.now };

    ghost invariant = { λ lines. AreMarkedLines lines.marked.text.now lines.marked.base
        lines.marked.ends.now lines.count };
}

// Returns the only fault that hashing lines which aren't too long can have: allocation failed.
fn only_memory(fault: RunFault) -> AllocError
    requires { fault ≡ RunFault.OutOfMemory }
{
    match fault {
        RunFault::OutOfMemory => AllocError,
        _ => unreachable!(),
    }
}

impl<'a> LogLines<'a> {
    /// Returns the number of lines.
    pub(crate) fn count(&self) -> u64
        ensures count { result ≡ length self.now }
        ensures few { result < 2 ^ 32 - 1 }
    {
        self.count
    }

    /// Returns the first `count` lines, or all of them if there are fewer, and the lines after these.
    pub(crate) fn split(&self, count: u64) -> (LogLines<'a>, LogLines<'a>)
        ensures first { result.0 ≡ take count self.now }
        ensures others { result.1 ≡ drop count self.now }
    {
        let (front, back) = self.marked.split(count as usize);
        let taken = count.min(self.count);
        let first = LogLines {
            marked: front,
            count: taken,
        };
        let others = LogLines {
            marked: back,
            count: self.count - taken,
        };
        (first, others)
    }

    /// Returns a copy of each line.
    pub(crate) fn copied<A: Allocator + Copy>(
        &self,
        alloc: A,
    ) -> Result<Vec<Vec<u8, A>, A>, AllocError>
        ensures entries { IfOk result (λ entries. map vec_items entries.items ≡ self.now) }
        ensures short { AreShortEntries self.now }
    {
        split_entries(alloc, self.marked.text)
    }

    /// Returns the root of the log of the lines (RFC 6962, section 2.1). Up to `threads` threads hash, with memory
    /// from `workers`. It fails only if allocation fails.
    pub(crate) fn root<H: Threads + Sync, B: Allocator + Copy + Send>(
        &self,
        rt: &H,
        workers: B,
        threads: usize,
    ) -> Result<Hash, AllocError>
        ensures { IfOk result (λ root. root ≡ tree_hash sha256 self.now) }
    {
        match edge_of(rt, workers, workers, threads, self.marked.text) {
            Ok(edge) => Ok(edge.root()),
            Err(fault) => Err(only_memory(fault)),
        }
    }
}
