//! The line by which a witness cosigns.

ghost use Rattle.std.specs.Prelude.{◌≡◌, IfOk, MatchOption, string_bytes};
ghost use Rattle.std.proofs.Props.{props};
ghost use Rattle.tl_checkpoint.specs.Cosignature.{Cosigns, MayFailToCosign};
ghost use Rattle.tl_note.specs.Key.{IsKeyName, named_key};

use std::alloc::{AllocError, Allocator, Global};
use tl_checkpoint::cosignature_line_named;
use tl_hash::TreeHash;
use tl_note::{SignFault, Signer};

/// The digest function and the allocators. The cosigner allocates from `global`.
#[derive(Clone, Copy)]
pub(crate) struct Tools<T: TreeHash, A: Allocator + Copy> {
    pub(crate) tree: T,
    pub(crate) alloc: A,
    pub(crate) global: Global,
}

impl<T: TreeHash, A: Allocator + Copy> Tools<T, A> {
    /// Returns these tools.
    pub(crate) fn new(tree: T, alloc: A, global: Global) -> Tools<T, A>
        ensures { result ≡ record { tree = tree; alloc = alloc; global = global } }
    {
        Tools {
            tree,
            alloc,
            global,
        }
    }
}

/// A valid key name.
#[derive(Drop)]
pub(crate) struct KeyName<A: Allocator> {
    pub(crate) text: String<A>,
    ghost lawful: { IsKeyName (string_bytes text) } by { Prim.hlevel props },
}

// Returns a copy of the signer's name. It fails only if allocation fails.
pub(crate) fn name_of<A: Allocator>(
    alloc: A,
    signer: &Box<dyn Signer>,
) -> Result<KeyName<A>, AllocError>
    requires { IsKeyName (signing_key signer.now).name }
    ensures { IfOk result (λ name. string_bytes name.text ≡ (signing_key signer.now).name) }
{
    let text = String::from_str(alloc, signer.name())?;
    Ok(KeyName { text })
}

/// Returns the line by which a signer cosigns the text at this time, under the name that it had when the book was
/// opened. It is `None` if the signer refused the message or returned no bytes. It fails only if allocation fails.
pub(crate) fn cosign<T: TreeHash, A: Allocator + Copy>(
    tools: Tools<T, A>,
    signer: &Box<dyn Signer>,
    name: &KeyName<A>,
    time: u64,
    text: &str,
) -> Result<Option<String<A>>, AllocError>
    ensures { IfOk result (λ signed. MatchOption signed
        (MayFailToCosign text.now time (signing_key signer.now)) (λ line. Cosigns text.now time
        (named_key (string_bytes name.now.text) (signing_key signer.now)) (string_bytes line))) }
{
    match cosignature_line_named(
        tools.alloc,
        tools.global,
        name.text.as_str(),
        &**signer,
        time,
        text,
    ) {
        Ok(line) => Ok(Some(line)),
        Err(SignFault::Refused) => Ok(None),
        Err(SignFault::OutOfMemory) => Err(AllocError),
    }
}
