//! Reads the line of a group.

ghost use Rattle.std.specs.Prelude.{◌<◌, ◌^◌, ℕ, [], MatchOption, vec_items};
ghost use Rattle.tl_policy.specs.PolicyText.{GivesNumber, IsThreshold, words_of};
ghost use Rattle.tl_policy.specs.ReadPolicy.{EndsGroup, Gives, ReadsGroup, members_from};
ghost use Rattle.tl_policy.specs.Terms.{terms_of};
ghost use Rattle.tl_policy.specs.Inner.Outcomes.{listed, outcome};

use crate::fault::PolicyFault;
use crate::naming::{is_grouped, is_taken, member_named};
use crate::policy::{Member, Policy, PolicyGroup};
use crate::words::next_word;
use std::alloc::Allocator;
use tl_text::parse_size;

/// The most groups of a policy.
pub const MOST_GROUPS: usize = 1024;

// The members of these names.
fn read_members<A: Allocator>(
    alloc: A,
    policy: &Policy<'_, A>,
    line: u64,
    names: &str,
) -> Result<Vec<Member, A>, PolicyFault>
    ensures { Gives (listed result)
        (members_from line (terms_of policy.now) [] (words_of names.now)) }
{
    let mut members = Vec::new(alloc);
    let mut left = names;
    while let Some((name, rest)) = next_word(left) {
        let Some(member) = member_named(policy, name) else {
            return Err(PolicyFault::UnknownMember(line));
        };
        if is_grouped(policy, members.as_slice(), member) {
            return Err(PolicyFault::TwiceMember(line));
        }
        members.push(member)?;
        left = rest;
    }
    Ok(members)
}

// The number that a word gives of this many members.
fn number_of(word: &str, members: usize) -> Option<u64>
    requires { members < 2 ^ 63 }
    ensures { MatchOption result
        ((number : ℕ) → number < 2 ^ 63 → ¬ (GivesNumber word.now members number))
        (λ number. (number < 2 ^ 63) × GivesNumber word.now members number) }
{
    if word == "any" {
        return Some(1);
    }
    if word == "all" {
        return Some(members as u64);
    }
    parse_size(word)
}

// The threshold that a word is, of this many members.
fn read_threshold(word: &str, members: usize) -> Option<usize>
    requires { members < 2 ^ 63 }
    ensures { MatchOption result
        ((threshold : ℕ) → ¬ (IsThreshold word.now members threshold))
        (IsThreshold word.now members) }
{
    let Some(threshold) = number_of(word, members) else {
        return None;
    };
    if threshold == 0 || threshold > members as u64 {
        return None;
    }
    Some(threshold as usize)
}

// Puts a group of these members behind the others, if the word is a threshold for it.
fn end_group<'t, A: Allocator>(
    policy: &mut Policy<'t, A>,
    line: u64,
    name: &'t str,
    word: &str,
    members: Vec<Member, A>,
) -> Result<(), PolicyFault>
    ensures { EndsGroup line (terms_of policy.old) name.now word.now (vec_items members)
        (outcome result (terms_of policy.new)) }
{
    let Some(threshold) = read_threshold(word, members.len()) else {
        return Err(PolicyFault::BadThreshold(line));
    };
    policy.groups.push(PolicyGroup {
        name,
        threshold,
        members,
    })?;
    Ok(())
}

/// Takes the words behind `group`: a name, a threshold and the members.
pub(crate) fn take_group<'t, A: Allocator>(
    alloc: A,
    policy: &mut Policy<'t, A>,
    line: u64,
    words: &'t str,
) -> Result<(), PolicyFault>
    ensures { ReadsGroup line (terms_of policy.old) (words_of words.now)
        (outcome result (terms_of policy.new)) }
{
    let Some((name, rest)) = next_word(words) else {
        return Err(PolicyFault::Malformed(line));
    };
    let Some((word, names)) = next_word(rest) else {
        return Err(PolicyFault::Malformed(line));
    };
    if is_taken(policy, name) {
        return Err(PolicyFault::TwiceNamed(line));
    }
    if policy.groups.len() >= MOST_GROUPS {
        return Err(PolicyFault::TooManyGroups(line));
    }
    let members = read_members(alloc, policy, line, names)?;
    end_group(policy, line, name, word, members)
}
