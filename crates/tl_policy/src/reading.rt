//! Reads the text of a policy.

ghost use Rattle.std.specs.Prelude.{◌≡◌};
ghost use Rattle.tl_policy.specs.ReadPolicy.{ReadsPolicy, ended, first_draft};
ghost use Rattle.tl_policy.specs.Inner.Drafts.{draft_of};
ghost use Rattle.tl_policy.specs.Inner.Outcomes.{said};

use crate::draft::Draft;
use crate::fault::PolicyFault;
use crate::lines::take_line;
use crate::policy::Policy;
use crate::words::cut_line;
use std::alloc::{Allocator, Global};

// What no line says.
fn first_draft<'t, A: Allocator + Copy>(alloc: A) -> Draft<'t, A>
    ensures { draft_of result ≡ first_draft }
{
    Draft {
        policy: Policy {
            logs: Vec::new(alloc),
            witnesses: Vec::new(alloc),
            groups: Vec::new(alloc),
            quorum: None,
        },
        has_quorum: false,
    }
}

// What all lines say.
fn end_draft<'t, A: Allocator>(draft: Draft<'t, A>) -> Result<Policy<'t, A>, PolicyFault>
    ensures { said result ≡ ended (draft_of draft.entry) }
{
    if draft.policy.logs.is_empty() {
        return Err(PolicyFault::NoLog);
    }
    if !draft.has_quorum {
        return Err(PolicyFault::NoQuorum);
    }
    Ok(draft.policy)
}

/// The policy of a text: lines of words, between spaces and tabs. Empty lines, and those whose first word begins with
/// `#`, say nothing. The others are `log VKEY [URL]`, one or more; `witness NAME VKEY [URL]`; `group NAME any|all|K
/// MEMBER..` over witnesses and groups of earlier lines; `quorum NAME|none`, one (C2SP tlog-policy). No name and no
/// public key comes twice, and a member stands in one group. The first line that is wrong decides. `global` is what
/// keys take memory from.
pub fn parse_policy<A: Allocator + Copy>(
    alloc: A,
    global: Global,
    text: &str,
) -> Result<Policy<'_, A>, PolicyFault>
    ensures { ReadsPolicy text.now (said result) }
{
    let mut draft = first_draft(alloc);
    let mut left = text;
    let mut line = 0;
    while !left.is_empty() {
        let (first, rest) = cut_line(left);
        line += 1;
        take_line(alloc, global, &mut draft, line, first)?;
        left = rest;
    }
    end_draft(draft)
}
