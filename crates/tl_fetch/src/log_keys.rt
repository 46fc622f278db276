//! The keys that the options name.

ghost use Rattle.std.specs.Prelude.{◌≡◌, ◌∷◌, [], IfErr, IfOk, MatchBool, Some, string_bytes};
ghost use Rattle.tl_fetch.specs.Command.{HaveLogKeys, IsKeyFault, keys_of, log_texts};
ghost use Rattle.tl_fetch.specs.Inner.LogKeys.{AreNamed, AreNotTwo, AreTwo};
ghost use Rattle.tl_key.specs.KeyText.{IsVerifierText};
ghost use Rattle.tl_key.specs.NoteKey.{note_kind};

use crate::fault::FetchFault;
use crate::options::FetchOptions;
use crate::witnesses::{is_same, read_text, witness_keys};
use std::alloc::Global;
use tl_key::{CosignerVerifier, Note, NoteVerifier};
use tl_note::Verifier;
use tl_run::RunFault;

/// The keys of a log, one or two.
#[derive(Drop)]
pub(crate) struct LogKeys {
    /// The key that names the log.
    pub(crate) key: NoteVerifier<Global>,
    /// The other key, if the log has two.
    pub(crate) other: Option<NoteVerifier<Global>>,
}

/// The keys that the options name.
#[derive(Drop)]
pub(crate) struct NamedKeys {
    /// The log's.
    pub(crate) log: LogKeys,
    /// The witnesses', in order.
    pub(crate) witnesses: Vec<CosignerVerifier<Global>>,
}

// Returns the log's key whose text comes first.
#[tactic(auto, using(crate::proofs::LogKeyLemmas::no_first))]
fn first_key(alloc: Global, options: &FetchOptions) -> Result<NoteVerifier<Global>, FetchFault>
    ensures read { IfOk result (λ k. IsVerifierText note_kind (string_bytes options.now.key) k) }
    ensures refused { IfErr result (IsKeyFault options.now) }
{
    match read_text::<Note>(alloc, options.key.as_str())? {
        Some(key) => Ok(key),
        None => Err(FetchFault::Run(RunFault::BadKey)),
    }
}

// Reports whether a key has the name of another and a public key of its own.
fn is_another(key: &NoteVerifier<Global>, other: &NoteVerifier<Global>) -> bool
    ensures { MatchBool result (AreTwo key.now other.now) (AreNotTwo key.now other.now) }
{
    if other.name() != key.name() {
        return false;
    }
    !is_same(other.public_key(), key.public_key())
}

// Returns the log's key whose text comes second, which must be another one than the first.
#[tactic(auto, using(crate::proofs::LogKeyLemmas::no_second, crate::proofs::LogKeyLemmas::no_other, crate::proofs::LogKeyLemmas::two_told))]
fn second_key(
    alloc: Global,
    options: &FetchOptions,
    text: &String,
    key: &NoteVerifier<Global>,
) -> Result<NoteVerifier<Global>, FetchFault>
    requires text { options.now.other_key ≡ Some text.now }
    requires key { IsVerifierText note_kind (string_bytes options.now.key) key.now }
    ensures read { IfOk result
        (λ k. HaveLogKeys key.now.name (log_texts options.now) (key.now ∷ k ∷ [])) }
    ensures refused { IfErr result (IsKeyFault options.now) }
{
    let Some(other) = read_text::<Note>(alloc, text.as_str())? else {
        return Err(FetchFault::Run(RunFault::BadKey));
    };
    if !is_another(key, &other) {
        return Err(FetchFault::OtherKey);
    }
    Ok(other)
}

/// Returns the keys that the options name (C2SP signed-note, "Verifier keys"), if each of the witnesses has a public
/// key of its own. It reads the log's texts first.
pub(crate) fn named_keys(alloc: Global, options: &FetchOptions) -> Result<NamedKeys, FetchFault>
    ensures named { IfOk result (λ k. AreNamed options.now k.log.key.name
        (keys_of k.log.key k.log.other) k.witnesses.items) }
    ensures refused { IfErr result (IsKeyFault options.now) }
{
    let key = first_key(alloc, options)?;
    let Some(text) = &options.other_key else {
        let witnesses = witness_keys(alloc, options, &[*key.public_key()])?;
        let log = LogKeys { key, other: None };
        return Ok(NamedKeys { log, witnesses });
    };
    let other = second_key(alloc, options, text, &key)?;
    let public = [*key.public_key(), *other.public_key()];
    let witnesses = witness_keys(alloc, options, &public)?;
    let log = LogKeys {
        key,
        other: Some(other),
    };
    Ok(NamedKeys { log, witnesses })
}
