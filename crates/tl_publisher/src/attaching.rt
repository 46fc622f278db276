//! Publishing a proposal once enough witnesses have cosigned it.

ghost use Rattle.std.specs.Prelude.{◌≡◌, ◌<◌, IfOk, Some, length, string_bytes};
ghost use Rattle.std.specs.List.{All};
ghost use Rattle.tl_log.specs.Histories.{Prefix};
ghost use Rattle.tl_publisher.specs.Inner.Attaching.{CosignsNote, CutsLines, HasBehind};
ghost use Rattle.tl_publisher.specs.Operating.{IsOfSame, IsOperating};
ghost use Rattle.tl_publisher.specs.Proposing.{Attaches};

use crate::fault::AttachFault;
use crate::noting::text_of;
use crate::operator::{Operator, RunningLog};
use crate::published::Published;
use std::alloc::{AllocError, Global};
use std::sync::Wait;
use tl_checkpoint::{Cosigned, cosignatures_by};
use tl_note::{NoteFault, SigView, parse_signatures};

// Returns the note with the lines found added after its own.
fn with_lines(
    note: &String,
    lines: &[SigView<'_>],
    found: &[Cosigned],
) -> Result<String, AllocError>
    requires { All (λ c. c.line < length lines.now) found.now }
    ensures { IfOk result
        (λ whole. HasBehind (string_bytes note.now) lines.now found.now (string_bytes whole)) }
{
    let mut whole = note.clone()?;
    for cosigned in found {
        lines[cosigned.line].push_to(&mut whole)?;
    }
    Ok(whole)
}

// Parses the signature lines of a text.
fn lines_of(alloc: Global, text: &str) -> Result<Vec<SigView<'_>>, AttachFault>
    ensures { CutsLines text.now result }
{
    match parse_signatures(alloc, text) {
        Ok(lines) => Ok(lines),
        Err(NoteFault::OutOfMemory) => Err(AttachFault::OutOfMemory),
        Err(_) => Err(AttachFault::Malformed),
    }
}

impl<R: Wait + Drop> Operator<R> {
    // Returns the note of the proposal with the cosignatures of enough witnesses after its own lines.
    fn cosigned(&self, note: &String, lines: &str) -> Result<Vec<u8>, AttachFault>
        requires { IsOperating (⟦<Operator<R> as RunningLog>⟧.state self.now) }
        ensures { (q : Prefix) → (⟦<Operator<R> as RunningLog>⟧.state self.now).proposal ≡ Some q
            → q.note ≡ string_bytes note.now
            → CosignsNote lines.now (⟦<Operator<R> as RunningLog>⟧.state self.now) q result }
    {
        let lines = lines_of(self.alloc, lines)?;
        let text = text_of(self.alloc, self.origin.as_str(), self.run.grown())?;
        let found = cosignatures_by(self.alloc, text.as_str(), &lines, self.witnesses.as_slice())?;
        if found.len() < self.need as usize {
            return Err(AttachFault::TooFew(found.len() as u32));
        }
        let whole = with_lines(note, &lines, &found)?;
        Ok(whole.into_bytes())
    }

    // Publishes the proposal if these lines have the cosignatures of enough witnesses.
    fn attach_lines(&mut self, lines: &str) -> Result<Published, AttachFault>
        requires { IsOperating (⟦<Operator<R> as RunningLog>⟧.state self.old) }
        ensures keys { IsOfSame (⟦<Operator<R> as RunningLog>⟧.state self.old)
            (⟦<Operator<R> as RunningLog>⟧.state self.new) }
        ensures attached { Attaches lines.now (⟦<Operator<R> as RunningLog>⟧.state self.old)
            (⟦<Operator<R> as RunningLog>⟧.state self.new) result }
    {
        let Some(note) = &self.proposal else {
            return Err(AttachFault::NoProposal);
        };
        let whole = self.cosigned(note, lines)?;
        let published = self.run.show(whole)?;
        self.proposal = None;
        Ok(published)
    }

    /// Publishes the proposal in one step if enough witnesses have cosigned it. `lines` are the signature lines that
    /// the witnesses returned (C2SP tlog-witness). The checkpoint gets the signers' lines, then the first valid line
    /// of each witness in the order of `lines`; other lines are left out. Entries taken after `propose` wait for the
    /// next publication. `TooFew(k)` means that only `k` witnesses have a valid line. An error keeps the proposal.
    /// Waits until no reader uses the version that is replaced.
    pub fn attach(&mut self, lines: &str) -> Result<Published, AttachFault>
        requires { IsOperating (⟦<Operator<R> as RunningLog>⟧.state self.old) }
        ensures operating { IsOperating (⟦<Operator<R> as RunningLog>⟧.state self.new) }
        ensures keys { IsOfSame (⟦<Operator<R> as RunningLog>⟧.state self.old)
            (⟦<Operator<R> as RunningLog>⟧.state self.new) }
        ensures attached { Attaches lines.now (⟦<Operator<R> as RunningLog>⟧.state self.old)
            (⟦<Operator<R> as RunningLog>⟧.state self.new) result }
    {
        self.attach_lines(lines)
    }
}
