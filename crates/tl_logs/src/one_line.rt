//! One line of the state of a witness.

ghost use Rattle.std.specs.Prelude.{◌≡◌, ◌++◌, ◌∷◌, []};
ghost use Rattle.tl_hash.specs.Bytes.{Bytes};
ghost use Rattle.tl_logs.specs.LogsFile.{IsInOneLine};
ghost use Rattle.tl_logs.specs.Inner.OneLine.{ReadsLink};

use std::alloc::Allocator;
use tl_proof::Link;
use tl_witness::{ChainFault, read_chain};

/// Returns the origin and the link of a line, which ends with its newline.
pub(crate) fn read_link<A: Allocator + Copy>(
    alloc: A,
    line: &[u8],
) -> Result<(String<A>, Link<A>), ChainFault>
    ensures { (words : Bytes) → IsInOneLine words → line.now ≡ words ++ 10 ∷ []
        → ReadsLink words result }
{
    let mut chains = match read_chain(alloc, line) {
        Ok(chains) => chains,
        Err(fault) => return Err(fault),
    };
    let Some((origin, mut links)) = chains.pop() else {
        return Err(ChainFault::Malformed(0));
    };
    let Some(link) = links.pop() else {
        return Err(ChainFault::Malformed(0));
    };
    Ok((origin, link))
}
