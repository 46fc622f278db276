//! The lines of links, and links whose lines were written.

ghost use Rattle.std.specs.Prelude.{◌≡◌, ◌↔◌, IfOk, IsTrue, OnOk, false, string_bytes};
ghost use Rattle.tl_device.specs.Device.{WroteWhole, passage};
ghost use Rattle.tl_proof.specs.Acceptance.{step_of};
ghost use Rattle.tl_witness.specs.ChainLine.{IsChainLine, chain_line};
ghost use Rattle.tl_serve.specs.Inner.Saving.{link_lines, link_of};

use std::alloc::{AllocError, Allocator, Global};
use std::io::Write;
use std::marker::Model;
use tl_device::Counted;
use tl_hash::Hash;
use tl_proof::Link;
use tl_run::print_text;
use tl_witness::{SaveFault, write_chain_line};

/// The line of a link of an origin (docs/FORMATS.md, "Saved links"). Contracts see the origin and the step.
#[derive(Drop)]
pub(crate) struct LinkLine {
    origin: String,
    link: Link<Global>,
    text: String,
}

impl Model for LinkLine {
    ghost use Rattle.std.specs.Prelude.{◌≡◌, string_bytes};
    ghost use Rattle.tl_hash.specs.Bytes.{Bytes};
    ghost use Rattle.tl_proof.specs.Acceptance.{Step, step_of};
    ghost use Rattle.tl_witness.specs.ChainLine.{chain_line};
    ghost use Rattle.tl_serve.specs.Inner.Saving.{link_of};

    ghost Value = { Bytes × Step };

    ghost view = { λ l. (string_bytes l.origin, step_of l.link) };

    ghost invariant = { λ l. string_bytes l.text
        ≡ chain_line (link_of (string_bytes l.origin, step_of l.link)) };
}

impl LinkLine {
    /// Returns the line of a link. Fails only if allocation fails.
    pub(crate) fn of<A: Allocator>(
        alloc: Global,
        origin: &str,
        link: &Link<A>,
    ) -> Result<LinkLine, AllocError>
        requires { IsChainLine (link_of (origin.now, step_of link.now)) }
        ensures { IfOk result (λ line. line ≡ (origin.now, step_of link.now)) }
    {
        let text = write_chain_line(alloc, origin, link)?;
        Ok(LinkLine {
            origin: String::from_str(alloc, origin)?,
            link: Link::copy_of(alloc, link)?,
            text,
        })
    }

    // Returns the text of the line.
    fn text(&self) -> &str
        ensures { result.now ≡ chain_line (link_of self.now) }
    {
        self.text.as_str()
    }
}

/// A link of an origin whose line was written whole. Only `write_lines` makes one. Contracts see
/// the origin and the step.
#[derive(Drop)]
pub(crate) struct WrittenLink {
    line: LinkLine,
}

impl Model for WrittenLink {
    ghost use Rattle.tl_hash.specs.Bytes.{Bytes};
    ghost use Rattle.tl_proof.specs.Acceptance.{Step};

    ghost Value = { Bytes × Step };

    ghost view = { λ w. w.line };
}

// Reports whether two lists of hashes are the same.
fn are_same(hashes: &[Hash], others: &[Hash]) -> bool
    ensures { IsTrue result ↔ (hashes.now ≡ others.now) }
{
    hashes == others
}

// Reports whether two links are the same.
fn is_same<A: Allocator>(one: &Link<Global>, other: &Link<A>) -> bool
    ensures { IsTrue result ↔ (step_of one.now ≡ step_of other.now) }
{
    if one.size != other.size || one.root != other.root {
        return false;
    }
    are_same(one.proof.as_slice(), other.proof.as_slice())
}

impl WrittenLink {
    /// Reports whether it is this link of this origin.
    pub(crate) fn is_of<A: Allocator>(&self, origin: &str, link: &Link<A>) -> bool
        ensures { IsTrue result ↔ (self.now ≡ (origin.now, step_of link.now)) }
    {
        self.line.origin.as_str() == origin && is_same(&self.line.link, link)
    }
}

// Returns the texts of lines, one after another.
fn text_of(alloc: Global, lines: &[LinkLine]) -> Result<String, AllocError>
    ensures { IfOk result (λ text. string_bytes text ≡ link_lines lines.now) }
{
    let mut text = String::new(alloc);
    for line in lines {
        text.push_str(line.text())?;
    }
    Ok(text)
}

/// Writes lines, all at once as far as the writer takes them. After a line that was cut short none
/// is written.
pub(crate) fn write_lines<O: Write>(
    alloc: Global,
    out: &mut Counted<O>,
    lines: Vec<LinkLine>,
) -> Result<Vec<WrittenLink>, SaveFault>
    ensures whole { OnOk result (WroteWhole (passage O.contents out.old out.new)
        (link_lines lines.items)) }
    ensures behind { OnOk result ((passage O.contents out.old out.new).had_failed ≡ false) }
    ensures links { IfOk result (λ written. written.items ≡ lines.items) }
{
    if out.failed() {
        return Err(SaveFault);
    }
    let mut written = Vec::new(alloc);
    if written.reserve(lines.len()).is_err() {
        return Err(SaveFault);
    }
    let Ok(text) = text_of(alloc, lines.as_slice()) else {
        return Err(SaveFault);
    };
    match print_text(out, text.as_bytes()) {
        Ok(()) => {}
        Err(_) => return Err(SaveFault),
    }
    for line in lines {
        written.push_reserved(WrittenLink { line });
    }
    Ok(written)
}
