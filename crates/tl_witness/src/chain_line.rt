//! The line of an accepted link (a format of this project, for savers).

ghost use Rattle.std.specs.Prelude.{◌≡◌, ◌++◌, IfOk, OnOk, string_bytes};
ghost use Rattle.tl_proof.specs.Acceptance.{step_of};
ghost use Rattle.tl_witness.specs.ChainLine.{IsChainLine, chain_line, spaced_hashes};

use base64::engine::general_purpose::STANDARD;
use itoa::Buffer;
use std::alloc::{AllocError, Allocator};
use tl_hash::Hash;
use tl_proof::Link;

// Appends the hashes, each with a space before it.
fn push_hashes<A: Allocator>(out: &mut String<A>, hashes: &[Hash]) -> Result<(), AllocError>
    ensures { OnOk result
        (string_bytes out.new ≡ string_bytes out.old ++ spaced_hashes hashes.now) }
{
    for hash in hashes {
        out.push_str(" ")?;
        STANDARD.encode_string(hash.as_bytes(), out)?;
    }
    Ok(())
}

/// Returns the line of a link of an origin: the size, the root, the number of hashes of the proof, these hashes and
/// the origin, separated by spaces, and a newline. Numbers are decimal, hashes base64. It fails only if allocation
/// fails.
pub fn write_chain_line<A: Allocator, B: Allocator>(
    alloc: A,
    origin: &str,
    link: &Link<B>,
) -> Result<String<A>, AllocError>
    requires { IsChainLine (record { origin = origin.now; step = step_of link.now }) }
    ensures { IfOk result (λ line.
        string_bytes line ≡ chain_line (record { origin = origin.now; step = step_of link.now })) }
{
    let hashes = link.proof.as_slice();
    let mut line = String::new(alloc);
    line.push_str(Buffer::new().format(link.size))?;
    line.push_str(" ")?;
    STANDARD.encode_string(link.root.as_bytes(), &mut line)?;
    line.push_str(" ")?;
    line.push_str(Buffer::new().format(hashes.len()))?;
    push_hashes(&mut line, hashes)?;
    line.push_str(" ")?;
    line.push_str(origin)?;
    line.push_str("\n")?;
    Ok(line)
}
