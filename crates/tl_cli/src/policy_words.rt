//! The witnesses that a policy names, for `serve --witnesses FILE`.

use std::alloc::{AllocError, Global};
use tl_key::write_verifier_key;
use tl_policy::{Member, Policy, PolicyFault, parse_policy};
use tl_serve::AskedWitness;

/// Who is asked to cosign: witnesses, how many are needed at least, and the policy that they must satisfy, too.
#[derive(Drop)]
pub(crate) struct AskedByPolicy {
    pub(crate) witnesses: Vec<AskedWitness>,
    pub(crate) need: u64,
    pub(crate) quorum: Option<String>,
}

// Returns this many places without a mark.
fn unmarked(alloc: Global, count: usize) -> Result<Vec<bool>, AllocError> {
    let mut marks = Vec::new(alloc);
    for _ in 0..count {
        marks.push(false)?;
    }
    Ok(marks)
}

// Marks the place of a member.
fn mark(member: Member, witnesses: &mut [bool], groups: &mut [bool]) {
    match member {
        Member::Witness(place) => {
            if let Some(mark) = witnesses.get_mut(place) {
                *mark = true;
            }
        }
        Member::Group(place) => {
            if let Some(mark) = groups.get_mut(place) {
                *mark = true;
            }
        }
    }
}

// Returns which witnesses of a policy stand in its quorum. The members of a group have smaller places than its own.
fn in_quorum(alloc: Global, policy: &Policy<'_, Global>) -> Result<Vec<bool>, AllocError> {
    let mut witnesses = unmarked(alloc, policy.witnesses.len())?;
    let mut groups = unmarked(alloc, policy.groups.len())?;
    if let Some(member) = policy.quorum {
        mark(member, &mut witnesses, &mut groups);
    }
    for place in (0..policy.groups.len()).rev() {
        if groups.get(place) == Some(&true) {
            for member in policy.groups[place].members.as_slice() {
                mark(*member, &mut witnesses, &mut groups);
            }
        }
    }
    Ok(witnesses)
}

// Returns the witnesses of a policy's quorum that have a URL.
fn with_urls(alloc: Global, policy: &Policy<'_, Global>) -> Result<Vec<AskedWitness>, AllocError> {
    let marks = in_quorum(alloc, policy)?;
    let mut asked = Vec::new(alloc);
    for (place, witness) in policy.witnesses.iter().enumerate() {
        if let (Some(true), Some(url)) = (marks.get(place).copied(), witness.url) {
            asked.push(AskedWitness {
                key: write_verifier_key(alloc, &witness.key)?,
                url: String::from_str(alloc, url)?,
            })?;
        }
    }
    Ok(asked)
}

/// Reports whether the witnesses of a policy that have a URL can satisfy its quorum.
pub(crate) fn can_be_satisfied(
    alloc: Global,
    policy: &Policy<'_, Global>,
) -> Result<bool, AllocError> {
    let mut set = Vec::new(alloc);
    for witness in policy.witnesses.as_slice() {
        set.push(witness.url.is_some())?;
    }
    Ok(policy.is_satisfied(set.as_slice()))
}

// Returns how many witnesses a quorum needs at least.
fn least_of(policy: &Policy<'_, Global>) -> u64 {
    match policy.quorum {
        None => 0,
        Some(Member::Witness(_)) => 1,
        Some(Member::Group(place)) => match policy.groups.get(place) {
            Some(group) => group.threshold as u64,
            None => 1,
        },
    }
}

/// Returns who is asked under the policy that a text is: each witness of its quorum that has a URL. If the quorum is
/// none, nobody is.
pub(crate) fn asked_by(alloc: Global, text: &str) -> Result<AskedByPolicy, PolicyFault> {
    let policy = parse_policy(alloc, alloc, text)?;
    if policy.quorum.is_none() {
        return Ok(AskedByPolicy {
            witnesses: Vec::new(alloc),
            need: 0,
            quorum: None,
        });
    }
    Ok(AskedByPolicy {
        witnesses: with_urls(alloc, &policy)?,
        need: least_of(&policy),
        quorum: Some(String::from_str(alloc, text)?),
    })
}
