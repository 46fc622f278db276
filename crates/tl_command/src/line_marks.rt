//! Counts the lines of a text in one pass, and notes where each 256th line ends.

ghost use Rattle.std.specs.Prelude.{◌≡◌, ◌-◌, ◌*◌, ◌<◌, ◌^◌, List, length, None, IfErr, IfOk, OnErr, OnOk};
ghost use Rattle.tl_hash.specs.Bytes.{Bytes};
ghost use Rattle.tl_command.specs.Inner.Cuts.{AreMarks, BeginsWithLines, IsMarkFault};
ghost use Rattle.tl_command.specs.Inner.Growing.{BeginsWith};
ghost use Rattle.tl_command.specs.Lines.{entries_of, first_too_long};

use crate::log_lines::LogLines;
use crate::marked_text::MarkedText;
use crate::text::{TILE, count_lines};
use crate::whole_lines::cut_tile;
use std::alloc::{AllocError, Allocator};
use std::marker::Model;
use tl_run::RunFault;

/// The lines of a text, none of which is too long, and where each 256th of them ends, if that line has its newline.
/// Contracts see the list of lines.
#[derive(Drop)]
pub(crate) struct LineMarks<'a, A: Allocator> {
    text: &'a [u8],
    count: u64,
    ends: Vec<usize, A>,
}

impl<'a, A: Allocator> Model for LineMarks<'a, A> {
    ghost use Rattle.std.specs.Prelude.{List};
    ghost use Rattle.tl_hash.specs.Bytes.{Bytes};
    ghost use Rattle.tl_command.specs.Inner.Cuts.{AreMarkedLines};
    ghost use Rattle.tl_command.specs.Lines.{entries_of};

    ghost Value = { List Bytes };

    ghost view = { λ marks. entries_of marks.text.now };

    ghost invariant = { λ marks.
        AreMarkedLines marks.text.now 0 marks.ends.items marks.count };
}

// Returns the places where each 256th line of a text ends, up to the first line that is too long or has no newline,
// and what follows the last of these places.
fn mark_tiles<A: Allocator>(alloc: A, text: &[u8]) -> Result<(Vec<usize, A>, &[u8]), AllocError>
    ensures marks { IfOk result (λ marked. AreMarks text.entry.now 0 marked.0.items) }
    ensures lines { IfOk result (λ marked. (lines : List Bytes)
        × BeginsWith text.entry.now lines marked.1.now
        × (length lines ≡ length marked.0.items * 256)) }
    ensures all { IfOk result (λ marked. BeginsWithLines marked.1.now 256 → ⊥) }
    ensures memory { OnErr result (BeginsWithLines text.entry.now 256) }
{
    let mut ends = Vec::new(alloc);
    let mut rest = text;
    while let Some(tile) = cut_tile(rest) {
        rest = tile.rest;
        ends.push(text.len() - rest.len())?;
    }
    Ok((ends, rest))
}

impl<'a, A: Allocator> LineMarks<'a, A> {
    /// Returns the lines of a text. It fails with `EntryTooLong` of the first line that has more than 65,535 bytes.
    /// It allocates one place for each 256 lines.
    pub(crate) fn of(alloc: A, text: &'a [u8]) -> Result<LineMarks<'a, A>, RunFault>
        requires { length text.now < 2 ^ 32 - 1 }
        ensures lines { IfOk result (λ marks. marks ≡ entries_of text.now) }
        ensures short { OnOk result (first_too_long (entries_of text.now) ≡ None) }
        ensures fault { IfErr result (IsMarkFault text.now) }
    {
        let (ends, rest) = mark_tiles(alloc, text)?;
        let marked = (ends.len() * TILE) as u64;
        match count_lines(rest) {
            Ok(count) => Ok(LineMarks {
                text,
                count: marked + count,
                ends,
            }),
            Err(place) => Err(RunFault::EntryTooLong(marked + place)),
        }
    }

    /// Returns the lines as the entries of a log.
    pub(crate) fn lines(&self) -> LogLines<'_>
        ensures { result ≡ self.now }
    {
        LogLines {
            marked: MarkedText {
                text: self.text,
                ends: self.ends.as_slice(),
                base: 0,
            },
            count: self.count,
        }
    }
}
