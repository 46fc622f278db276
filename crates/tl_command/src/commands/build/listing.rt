//! The listing of the resources of a log: the path and the length of each, found without making its bytes.

ghost use Rattle.std.specs.Prelude.{◌≡◌, ◌*◌, ◌<◌, ◌≤◌, ◌^◌, ◌++◌, ◌∷◌, All, List, length, string_bytes, Contains, IfErr, IfOk, OnOk};
ghost use Rattle.sha2.specs.Sha256.{sha256};
ghost use Rattle.tl_hash.specs.Bytes.{Bytes};
ghost use Rattle.tl_hash.specs.Tree.{tree_hash};
ghost use Rattle.tl_note.specs.Key.{IsKeyName};
ghost use Rattle.tl_text.specs.Text.{line, number_text};
ghost use Rattle.tl_tile.specs.Path.{IsResource, path_text};
ghost use Rattle.tl_command.specs.Inner.BundleLengths.{AreBundleLengths, HasLength};
ghost use Rattle.tl_run.specs.Signing.{checkpoint_note};
ghost use Rattle.tl_command.specs.Mirror.{mirrored, resource_text, listing_text};

use itoa::Buffer;
use std::alloc::{AllocError, Allocator, Global};
use tl_hash::Hash;
use tl_run::{LogSigner, RunFault, sign_checkpoint};
use tl_tile::{Resource, needed, path_of};

/// Returns the resources of a log of this many entries: those that it needs, and then the checkpoint.
pub(crate) fn mirrored_of<A: Allocator>(alloc: A, size: u64) -> Result<Vec<Resource, A>, AllocError>
    requires { size < 2 ^ 32 }
    ensures { IfOk result (λ resources. resources.items ≡ mirrored size) }
{
    let mut resources = needed(alloc, size)?;
    resources.push(Resource::Checkpoint)?;
    Ok(resources)
}

// Returns the number of bytes of a resource of a log whose bundles have these lengths and whose checkpoint is this
// note.
fn resource_length(resource: Resource, lengths: &[u64], note: &str) -> u64
    requires { HasLength lengths.now resource }
    ensures { (entries : List Bytes)
        → length entries < 2 ^ 32
        → AreBundleLengths lengths.now entries
        → Contains (mirrored (length entries)) resource
        → result ≡ length (resource_text note.now entries resource) }
{
    match resource {
        Resource::Tile(tile) => 32 * tile.width as u64,
        Resource::Entries { index, width: _ } => lengths[index as usize],
        Resource::Checkpoint => note.len() as u64,
    }
}

// Appends the line of a resource that has this many bytes.
fn push_line<A: Allocator + Copy>(
    alloc: A,
    out: &mut String<A>,
    resource: &Resource,
    count: u64,
) -> Result<(), AllocError>
    requires { IsResource resource.now }
    ensures { OnOk result (string_bytes out.new
        ≡ string_bytes out.old ++ line (path_text resource.now ++ 32 ∷ number_text count)) }
{
    out.push_str(path_of(alloc, resource)?.as_str())?;
    out.push_str(" ")?;
    out.push_str(Buffer::new().format(count))?;
    out.push_str("\n")?;
    Ok(())
}

// Returns the lines of these resources of a log whose bundles have these lengths and whose checkpoint is this note.
fn lines_of<A: Allocator + Copy>(
    alloc: A,
    resources: &[Resource],
    lengths: &[u64],
    note: &str,
) -> Result<String<A>, AllocError>
    requires lawful { All IsResource resources.now }
    requires measured { All (HasLength lengths.now) resources.now }
    ensures { (entries : List Bytes) → length entries < 2 ^ 32 → AreBundleLengths lengths.now entries
        → All (Contains (mirrored (length entries))) resources.now → IfOk result
        (λ text. string_bytes text ≡ listing_text note.now entries resources.now) }
{
    let mut out = String::new(alloc);
    for resource in resources {
        let count = resource_length(*resource, lengths, note);
        push_line(alloc, &mut out, resource, count)?;
    }
    Ok(out)
}

/// Returns the listing of a log of `size` entries with this root, whose bundles have these lengths: the path and the
/// length of each of its resources, the checkpoint last. The log's key signs the checkpoint, with memory from
/// `global`. It fails only if allocation fails.
pub(crate) fn listing_of<K: LogSigner, A: Allocator + Copy>(
    alloc: A,
    global: Global,
    key: &K,
    size: u64,
    root: Hash,
    lengths: &[u64],
) -> Result<String<A>, RunFault>
    requires origin { IsKeyName (K.log_key key.now).name }
    requires few { size < 2 ^ 32 }
    requires measured { size ≤ length lengths.now * 256 }
    ensures text { (entries : List Bytes) → length entries ≡ size → tree_hash sha256 entries ≡ root
        → AreBundleLengths lengths.now entries → IfOk result (λ text. string_bytes text
        ≡ listing_text (checkpoint_note (K.log_key key.now) entries) entries (mirrored size)) }
    ensures fault { IfErr result (λ fault. fault ≡ RunFault.OutOfMemory) }
{
    let resources = mirrored_of(alloc, size)?;
    let note = sign_checkpoint(alloc, global, key, size, root)?;
    let text = lines_of(alloc, resources.as_slice(), lengths, note.as_str())?;
    Ok(text)
}
