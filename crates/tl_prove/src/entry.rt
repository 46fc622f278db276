//! The entry that the options of a command give.

ghost use Rattle.std.specs.Prelude.{◌≡◌, ◌++◌, IfErr, IfOk, codes, option_map, string_bytes};
ghost use Rattle.sha2.specs.Sha256.{sha256};
ghost use Rattle.tl_hash.specs.Bytes.{Bytes};
ghost use Rattle.tl_device.specs.Device.{passage};
ghost use Rattle.tl_prove.specs.Entry.{DigestsWhole, IsGiven, name_words};
ghost use Rattle.tl_prove.specs.Faults.{IsOfFile};
ghost use Rattle.hex.specs.Hex.{encode_lower};

use crate::fault::{NamedFile, ProveFault};
use crate::options::EntryOptions;
use sha2::{Digest, Sha256};
use std::alloc::{AllocError, Global};
use std::fs::{File, Files, metadata};
use std::io::Read;
use tl_device::{Counted, DeviceFault, InputFault, read_plain};
use tl_tile::LONGEST_ENTRY;

/// The most bytes of a file that is hashed, 2^62.
pub const MOST_DIGESTED: u64 = 1 << 62;

/// Returns SHA-256 of all bytes that the reader gives, to its end. It fails with `Read` if a read fails, and with
/// `TooLarge` if there are more than 2^62. It allocates nothing.
pub fn digest_of<R: Read>(reader: &mut Counted<R>) -> Result<[u8; 32], InputFault>
    ensures { DigestsWhole (passage R.remaining reader.old reader.new) result }
{
    let mut hasher = Sha256::new();
    let mut buf = [0u8; 65536];
    let mut total = 0;
    while total <= MOST_DIGESTED {
        match reader.read_some(&mut buf) {
            None => return Err(InputFault::Read),
            Some(0) => return Ok(hasher.finalize()),
            Some(count) => {
                hasher.update(&buf[..count]);
                total += count as u64;
            }
        }
    }
    Err(InputFault::TooLarge)
}

/// Returns the entry that stands for a file with this SHA-256: `sha256 `, the digest in hexadecimal, and a space and
/// a name, if one is given. It fails only if allocation fails.
pub fn digest_entry(
    alloc: Global,
    digest: &[u8; 32],
    name: Option<&str>,
) -> Result<String, AllocError>
    ensures { IfOk result (λ text. string_bytes text
        ≡ codes "sha256 " ++ encode_lower digest.now ++ name_words (option_map (λ s. s.now) name.entry)) }
{
    let mut text = String::from_str(alloc, "sha256 ")?;
    text.push_str(hex::encode(alloc, digest)?.as_str())?;
    if let Some(name) = name {
        text.push_str(" ")?;
        text.push_str(name)?;
    }
    Ok(text)
}

// Returns SHA-256 of the plain file at this path.
fn digest_at<H: Files<File = File>>(rt: &H, path: &str) -> Result<[u8; 32], DeviceFault>
    ensures { IfOk result (λ digest. (bytes : Bytes) × (digest ≡ sha256 bytes)) }
{
    if !metadata(rt, path)?.is_file() {
        return Err(DeviceFault::NotPlain);
    }
    let mut reader = Counted::new(File::open(rt, path)?);
    match digest_of(&mut reader) {
        Ok(digest) => Ok(digest),
        Err(fault) => Err(DeviceFault::from(fault)),
    }
}

/// Returns the entry that the options give. A file that is the entry itself has at most 65,535 bytes.
pub(crate) fn given_entry<H: Files<File = File>>(
    rt: &H,
    alloc: Global,
    options: &EntryOptions,
) -> Result<Vec<u8>, ProveFault>
    ensures given { IfOk result (λ entry. IsGiven options.now entry.items) }
    ensures refused { IfErr result (IsOfFile NamedFile.Entry) }
{
    match options {
        EntryOptions::Text(text) => Ok(Vec::from_slice(alloc, text.as_bytes())?),
        EntryOptions::File(path) => {
            let path = path.as_str();
            match read_plain(alloc, rt, path, metadata(rt, path), LONGEST_ENTRY as u64) {
                Ok(entry) => Ok(entry),
                Err(why) => Err(ProveFault::of_file(NamedFile::Entry, why)),
            }
        }
        EntryOptions::Digest { file, name } => match digest_at(rt, file.as_str()) {
            Ok(digest) => Ok(digest_entry(alloc, &digest, name.as_deref())?.into_bytes()),
            Err(why) => Err(ProveFault::of_file(NamedFile::Entry, why)),
        },
    }
}
