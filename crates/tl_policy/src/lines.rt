//! Reads one line of a policy's text.

ghost use Rattle.std.specs.Prelude.{◌≡◌};
ghost use Rattle.tl_policy.specs.PolicyText.{words_of};
ghost use Rattle.tl_policy.specs.ReadPolicy.{ReadsKey, ReadsLine, ReadsLog, ReadsWitness, after_quorum, quorum_of};
ghost use Rattle.tl_policy.specs.Terms.{terms_of};
ghost use Rattle.tl_policy.specs.Inner.Drafts.{draft_of};
ghost use Rattle.tl_policy.specs.Inner.Outcomes.{outcome};

use crate::draft::Draft;
use crate::fault::PolicyFault;
use crate::grouping::take_group;
use crate::naming::{has_key, is_taken, member_named};
use crate::policy::{Member, Policy, PolicyLog, PolicyWitness};
use crate::words::{has_no_word, is_comment, next_word, read_key_words};
use std::alloc::{Allocator, Global};
use tl_key::{KeyFault, KeyKind, VerifierKey, read_verifier_key};

// The key that a word is the text of, unless an earlier line has it.
fn read_key<K: KeyKind, A: Allocator>(
    global: Global,
    policy: &Policy<'_, A>,
    line: u64,
    word: &str,
) -> Result<VerifierKey<K, Global>, PolicyFault>
    ensures { ReadsKey line K.KIND (terms_of policy.now) word.now result }
{
    let key = match read_verifier_key(global, word) {
        Ok(key) => key,
        Err(KeyFault::OutOfMemory) => return Err(PolicyFault::OutOfMemory),
        Err(_) => return Err(PolicyFault::BadKey(line)),
    };
    if has_key(policy, key.public_key()) {
        return Err(PolicyFault::TwiceKeyed(line));
    }
    Ok(key)
}

// Takes the words behind `log`: a key, and a URL or none.
fn take_log<'t, A: Allocator>(
    global: Global,
    policy: &mut Policy<'t, A>,
    line: u64,
    words: &'t str,
) -> Result<(), PolicyFault>
    ensures { ReadsLog line (terms_of policy.old) (words_of words.now)
        (outcome result (terms_of policy.new)) }
{
    let Some((word, url)) = read_key_words(words) else {
        return Err(PolicyFault::Malformed(line));
    };
    let key = read_key(global, policy, line, word)?;
    policy.logs.push(PolicyLog { key, url })?;
    Ok(())
}

// Takes the words behind `witness`: a name, a key, and a URL or none.
fn take_witness<'t, A: Allocator>(
    global: Global,
    policy: &mut Policy<'t, A>,
    line: u64,
    words: &'t str,
) -> Result<(), PolicyFault>
    ensures { ReadsWitness line (terms_of policy.old) (words_of words.now)
        (outcome result (terms_of policy.new)) }
{
    let Some((name, rest)) = next_word(words) else {
        return Err(PolicyFault::Malformed(line));
    };
    let Some((word, url)) = read_key_words(rest) else {
        return Err(PolicyFault::Malformed(line));
    };
    if is_taken(policy, name) {
        return Err(PolicyFault::TwiceNamed(line));
    }
    let key = read_key(global, policy, line, word)?;
    policy.witnesses.push(PolicyWitness { name, key, url })?;
    Ok(())
}

// Who has to be satisfied: nobody, or the member of this name.
fn quorum_of<A: Allocator>(
    policy: &Policy<'_, A>,
    line: u64,
    name: &str,
) -> Result<Option<Member>, PolicyFault>
    ensures { result ≡ quorum_of line (terms_of policy.now) name.now }
{
    if name == "none" {
        return Ok(None);
    }
    match member_named(policy, name) {
        Some(member) => Ok(Some(member)),
        None => Err(PolicyFault::UnknownMember(line)),
    }
}

// Takes the words behind `quorum`: a name, or `none`.
fn take_quorum<A: Allocator>(
    draft: &mut Draft<'_, A>,
    line: u64,
    words: &str,
) -> Result<(), PolicyFault>
    ensures { outcome result (draft_of draft.new)
        ≡ after_quorum line (draft_of draft.old) (words_of words.now) }
{
    let Some((name, rest)) = next_word(words) else {
        return Err(PolicyFault::Malformed(line));
    };
    if !has_no_word(rest) {
        return Err(PolicyFault::Malformed(line));
    }
    if draft.has_quorum {
        return Err(PolicyFault::SecondQuorum(line));
    }
    match quorum_of(&draft.policy, line, name) {
        Ok(quorum) => {
            draft.policy.quorum = quorum;
            draft.has_quorum = true;
            Ok(())
        }
        Err(fault) => Err(fault),
    }
}

/// Takes a line: adds what it says to what the lines before it say.
pub(crate) fn take_line<'t, A: Allocator + Copy>(
    alloc: A,
    global: Global,
    draft: &mut Draft<'t, A>,
    line: u64,
    text: &'t str,
) -> Result<(), PolicyFault>
    ensures { ReadsLine line (draft_of draft.old) (words_of text.now)
        (outcome result (draft_of draft.new)) }
{
    let Some((word, words)) = next_word(text) else {
        return Ok(());
    };
    if is_comment(word) {
        return Ok(());
    }
    if word == "log" {
        return take_log(global, &mut draft.policy, line, words);
    }
    if word == "witness" {
        return take_witness(global, &mut draft.policy, line, words);
    }
    if word == "group" {
        return take_group(alloc, &mut draft.policy, line, words);
    }
    if word == "quorum" {
        return take_quorum(draft, line, words);
    }
    Err(PolicyFault::Malformed(line))
}
