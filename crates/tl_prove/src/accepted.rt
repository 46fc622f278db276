//! What is printed of an accepted proof.

ghost use Rattle.std.specs.Prelude.{◌≡◌, ◌++◌, IfOk, OnOk, map, string_bytes, vec_items};
ghost use Rattle.tl_policy.specs.Terms.{terms_of, witness_term};
ghost use Rattle.tl_prove.specs.Accepted.{accepted_text, witness_line, witness_lines};

use crate::verifying::Verified;
use itoa::Buffer;
use std::alloc::{AllocError, Allocator};
use tl_policy::{Policy, PolicyWitness};
use tl_text::push_line;

// Appends the line of a witness, if it cosigned.
fn push_witness<A: Allocator>(
    text: &mut String<A>,
    name: &str,
    time: Option<u64>,
) -> Result<(), AllocError>
    ensures { OnOk result
        (string_bytes text.new ≡ string_bytes text.old ++ witness_line name.now time) }
{
    let Some(time) = time else {
        return Ok(());
    };
    text.push_str("witness ")?;
    text.push_str(name)?;
    text.push_str(" ")?;
    push_line(text, Buffer::new().format(time))?;
    Ok(())
}

// Appends the line of each witness that cosigned.
fn push_witnesses<A: Allocator>(
    text: &mut String<A>,
    witnesses: &[PolicyWitness<'_>],
    times: &[Option<u64>],
) -> Result<(), AllocError>
    ensures { OnOk result (string_bytes text.new
        ≡ string_bytes text.old ++ witness_lines (map witness_term witnesses.now) times.now) }
{
    let [witness, witnesses @ ..] = witnesses else {
        return Ok(());
    };
    let [time, times @ ..] = times else {
        return Ok(());
    };
    push_witness(text, witness.name, *time)?;
    push_witnesses(text, witnesses, times)
}

/// Returns the lines of an accepted proof: `accepted`, the size of the checkpoint and the entry's index, and for each
/// witness that cosigned it its name in the policy and the time, in seconds since 1970. It fails only if allocation
/// fails.
pub fn accepted_lines<A: Allocator + Copy>(
    alloc: A,
    policy: &Policy<'_, A>,
    verified: &Verified<A>,
) -> Result<String<A>, AllocError>
    ensures { IfOk result (λ text. string_bytes text ≡ accepted_text (terms_of policy.now).witnesses
        verified.now.trusted.checkpoint.size verified.now.index (vec_items verified.now.trusted.times)) }
{
    let mut text = String::from_str(alloc, "accepted ")?;
    text.push_str(Buffer::new().format(verified.trusted.checkpoint.size))?;
    text.push_str(" ")?;
    push_line(&mut text, Buffer::new().format(verified.index))?;
    let times = verified.trusted.times.as_slice();
    push_witnesses(&mut text, policy.witnesses.as_slice(), times)?;
    Ok(text)
}
