//! The part of a witness's state that was read so far.

ghost use Rattle.std.specs.Prelude.{◌≡◌, ◌≢◌, ◌<◌, ◌^◌, ◌∷◌, ◌++◌, [], IfErr, IfOk, length};
ghost use Rattle.tl_hash.specs.Bytes.{Bytes};
ghost use Rattle.tl_proof.specs.Acceptance.{step_of};
ghost use Rattle.tl_logs.specs.LogsFile.{IsInOneLine};
ghost use Rattle.tl_logs.specs.ReadState.{heads_shown};
ghost use Rattle.tl_logs.specs.State.{Counts};
ghost use Rattle.tl_logs.specs.StateFaults.{RefusesBytes};
ghost use Rattle.tl_logs.specs.Inner.Counting.{counts_of};
ghost use Rattle.tl_logs.specs.Inner.Stream.{HasRead, KeepsLink, TakesBytes, TookSome, link_outcome};

use crate::by_origin::ByOrigin;
use crate::head::OriginHead;
use crate::known::Counting;
use crate::one_line::read_link;
use crate::reading::first_newline;
use crate::state_fault::StateFault;
use crate::taking::{LinkFault, take_link};
use std::alloc::Allocator;
use std::marker::Model;
use tl_hash::TreeHash;
use tl_proof::Link;
use tl_witness::ChainFault;

// The most bytes that a line may have, 64 MiB.
const LONGEST_LINE: usize = 67_108_864;

/// What was read of a state so far. Contracts see the heads that the counting lines lead to, the number of lines, and
/// the bytes of the next line that have come.
#[derive(Drop)]
pub(crate) struct StateReading<T: TreeHash, A: Allocator> {
    alloc: A,
    tree: T,
    heads: Vec<OriginHead<A>, A>,
    index: ByOrigin<A>,
    line: u64,
    begun: Vec<u8, A>,
}

impl<T: TreeHash, A: Allocator> Model for StateReading<T, A> {
    ghost use Rattle.tl_logs.specs.Inner.ByOrigin.{Indexes, index_of};
    ghost use Rattle.tl_logs.specs.Inner.Heads.{head_origins};
    ghost use Rattle.tl_logs.specs.Inner.Stream as seen;
    ghost use Rattle.tl_logs.specs.ReadState.{heads_shown};

    ghost Value = { seen.SoFar };

    ghost view = { λ s. record {
      heads = heads_shown s.heads.items;
      line = s.line;
      begun = s.begun.items;
    } };

    ghost invariant = { λ s.
        Indexes (index_of s.index) (head_origins (heads_shown s.heads.items)) };
}

// Converts the outcome of taking the link of this line.
fn outcome_at(outcome: Result<(), LinkFault>, line: u64) -> Result<(), StateFault>
    ensures { result ≡ link_outcome outcome line }
{
    match outcome {
        Ok(()) => Ok(()),
        Err(LinkFault::Broken) => Err(StateFault::Broken(line)),
        Err(LinkFault::OutOfMemory) => Err(StateFault::OutOfMemory),
    }
}

impl<T: TreeHash, A: Allocator + Copy> StateReading<T, A> {
    /// Returns the value before anything was read.
    pub(crate) fn new(alloc: A, tree: T) -> Self
        ensures { result ≡ record { heads = []; line = 0; begun = [] } }
    {
        StateReading {
            alloc,
            tree,
            heads: Vec::new(alloc),
            index: ByOrigin::new(alloc),
            line: 0,
            begun: Vec::new(alloc),
        }
    }

    // Takes a link as the last one of its origin, if that origin counts.
    fn keep(
        &mut self,
        counting: &Counting<A>,
        origin: &str,
        link: &Link<A>,
    ) -> Result<(), StateFault>
        ensures kept { KeepsLink T.digest_of (counts_of counting.now)
            origin.now (step_of link.now) self.old self.new result }
        ensures line { self.new.line ≡ self.old.line }
        ensures begun { self.new.begun ≡ self.old.begun }
    {
        if !counting.counts(origin) {
            return Ok(());
        }
        let (heads, index) = (&mut self.heads, &mut self.index);
        let outcome = take_link(self.alloc, self.tree, heads, index, origin, link);
        outcome_at(outcome, self.line)
    }

    // Appends bytes to the line that has begun.
    fn begin(&mut self, part: &[u8]) -> Result<(), StateFault>
        requires { IsInOneLine part.now }
        ensures { (counts : Counts) (input after : Bytes) → 0 < length (part.now ++ after)
            → HasRead T.digest_of counts self.old input
            → TakesBytes T.digest_of counts self.new input part.now after result }
    {
        if part.len() > LONGEST_LINE.saturating_sub(self.begun.len()) {
            return Err(StateFault::TooLarge);
        }
        self.begun.extend_from_slice(part)?;
        Ok(())
    }

    // Ends the line that has begun with its newline, and takes its link.
    fn end_line(&mut self, counting: &Counting<A>) -> Result<(), StateFault>
        ensures { (input after : Bytes) → length (input ++ after) < 2 ^ 63
            → HasRead T.digest_of (counts_of counting.now) self.old input
            → TakesBytes T.digest_of (counts_of counting.now)
            self.new input (10 ∷ []) after result }
    {
        self.begun.push(b'\n')?;
        let (origin, link) = match read_link(self.alloc, self.begun.as_slice()) {
            Ok(read) => read,
            Err(ChainFault::Malformed(_)) => return Err(StateFault::Malformed(self.line)),
            Err(ChainFault::OutOfMemory) => return Err(StateFault::OutOfMemory),
        };
        match self.keep(counting, origin.as_str(), &link) {
            Ok(()) => {}
            Err(fault) => return Err(fault),
        }
        self.begun.clear();
        self.line = self.line.saturating_add(1);
        Ok(())
    }

    // Takes the bytes up to and with the first newline, or all if there is none. Returns the rest.
    fn take_some<'b>(
        &mut self,
        counting: &Counting<A>,
        bytes: &'b [u8],
    ) -> Result<&'b [u8], StateFault>
        requires { 0 < length bytes.now }
        ensures taken { IfOk result
            (λ rest. (input : Bytes) → length (input ++ bytes.now) < 2 ^ 63
            → HasRead T.digest_of (counts_of counting.now) self.old input
            → TookSome T.digest_of (counts_of counting.now)
            self.new input bytes.now rest.now) }
        ensures refused { IfErr result
            (λ fault. (input : Bytes) → length (input ++ bytes.now) < 2 ^ 63
            → HasRead T.digest_of (counts_of counting.now) self.old input
            → RefusesBytes T.digest_of (counts_of counting.now) (input ++ bytes.now) fault) }
        ensures shorter { IfOk result (λ rest. length rest.now < length bytes.now) }
    {
        let Some(end) = first_newline(bytes) else {
            return match self.begin(bytes) {
                Ok(()) => Ok(&bytes[bytes.len()..]),
                Err(fault) => Err(fault),
            };
        };
        match self.begin(&bytes[..end]) {
            Ok(()) => {}
            Err(fault) => return Err(fault),
        }
        match self.end_line(counting) {
            Ok(()) => Ok(&bytes[end + 1..]),
            Err(fault) => Err(fault),
        }
    }

    /// Takes a block of bytes.
    pub(crate) fn take_block(
        &mut self,
        counting: &Counting<A>,
        block: &[u8],
    ) -> Result<(), StateFault>
        ensures { (input : Bytes) → length (input ++ block.now) < 2 ^ 63
            → HasRead T.digest_of (counts_of counting.now) self.old input
            → TakesBytes T.digest_of (counts_of counting.now)
            self.new input block.now [] result }
    {
        let mut left = block;
        while !left.is_empty() {
            left = match self.take_some(counting, left) {
                Ok(rest) => rest,
                Err(fault) => return Err(fault),
            };
        }
        Ok(())
    }

    /// Returns the heads if the state ends here. `Malformed` means that its last line has no newline.
    pub(crate) fn end(self) -> Result<Vec<OriginHead<A>, A>, StateFault>
        ensures heads { IfOk result
            (λ heads. (self.begun ≡ []) × (heads_shown heads.items ≡ self.heads)) }
        ensures begun { IfErr result
            (λ fault. (self.begun ≢ []) × (fault ≡ StateFault.Malformed self.line)) }
    {
        if !self.begun.is_empty() {
            return Err(StateFault::Malformed(self.line));
        }
        let StateReading { heads, .. } = self;
        Ok(heads)
    }
}
