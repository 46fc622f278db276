//! The command `keygen` makes a new key.

ghost use Rattle.std.specs.Prelude.{◌≡◌, IfOk, OnOk, string_bytes};
ghost use Rattle.tl_device.specs.Device.{passage};
ghost use Rattle.tl_key.specs.KeyText.{IsSignerText, private_text, verifier_text};
ghost use Rattle.tl_key.specs.NoteKey.{SeedKey, public_of};
ghost use Rattle.tl_command.specs.Inner.Texts.{MakesKey};
ghost use Rattle.tl_command.specs.Keygen.{GivesKey};
ghost use Rattle.tl_text.specs.Text.{line};

use std::alloc::{AllocError, Global};
use std::io::Write;
use std::random::RandomSource;
use tl_device::Counted;
use tl_key::{KeyFault, KeyKind, SignerKey, write_signer_key, write_verifier_key};
use tl_run::{RunFault, print_text};

/// The options of `keygen`.
#[derive(Drop)]
pub struct KeygenOptions {
    /// The key's name.
    pub name: String,
    /// Whether it is a key of a witness, which cosigns, and not a log's.
    pub is_cosigner: bool,
}

// The texts of a key, each with a newline.
#[derive(Drop)]
struct Texts {
    private: String,
    verifier: String,
}

// Returns the key of this name and these random bytes.
fn key_of<K: KeyKind>(
    alloc: Global,
    name: &str,
    seed: &[u8; 32],
) -> Result<SignerKey<K, Global>, RunFault>
    ensures { MakesKey (record { name = name.now; kind = K.KIND; seed = seed.now }) result }
{
    match SignerKey::new(alloc, name, seed) {
        Ok(key) => Ok(key),
        Err(KeyFault::OutOfMemory) => Err(RunFault::OutOfMemory),
        Err(_) => Err(RunFault::BadName),
    }
}

// Returns the texts of a key.
fn texts_of<K: KeyKind>(alloc: Global, key: &SignerKey<K, Global>) -> Result<Texts, AllocError>
    ensures lawful { OnOk result (IsSignerText K.KIND (private_text key.now) key.now) }
    ensures private { IfOk result
        (λ texts. string_bytes texts.private ≡ line (private_text key.now)) }
    ensures verifier { IfOk result
        (λ texts. string_bytes texts.verifier ≡ line (verifier_text (public_of key.now))) }
{
    let mut private = write_signer_key(alloc, key)?;
    private.push_str("\n")?;
    let public = key.verifier(alloc)?;
    let mut verifier = write_verifier_key(alloc, &public)?;
    verifier.push_str("\n")?;
    Ok(Texts { private, verifier })
}

/// Makes a key of this name and type from 32 random bytes. It prints the text of the verifier key to `errors`, and
/// then that of the private key to `writer`, a line each (C2SP signed-note, "Verifier keys";
/// golang.org/x/mod/sumdb/note). It fails with `Read` if the system gives no random bytes, and with `BadName` if the
/// name can't be a key's. Nothing is written until both texts are made.
pub fn run_keygen<K: KeyKind, H: RandomSource, W: Write, E: Write>(
    rt: &H,
    alloc: Global,
    name: &str,
    writer: &mut Counted<W>,
    errors: &mut Counted<E>,
) -> Result<(), RunFault>
    ensures { GivesKey name.now K.KIND (passage W.contents writer.old writer.new)
        (passage E.contents errors.old errors.new) result }
{
    let mut seed = [0; 32];
    if rt.fill_bytes(&mut seed).is_err() {
        return Err(RunFault::Read);
    }
    let key = key_of::<K>(alloc, name, &seed)?;
    let texts = texts_of(alloc, &key)?;
    if let Err(fault) = print_text(errors, texts.verifier.as_bytes()) {
        return Err(fault);
    }
    print_text(writer, texts.private.as_bytes())
}
