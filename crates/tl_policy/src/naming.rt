//! Names, keys and members that a policy has so far.

ghost use Rattle.std.specs.Prelude.{◌≡◌, bytes_eq, position};
ghost use Rattle.std.specs.List.{list_any};
ghost use Rattle.tl_policy.specs.ReadPolicy.{has_key, has_member, is_grouped, is_same_member, is_taken, member_named};
ghost use Rattle.tl_policy.specs.Terms.{group_term, log_term, terms_of, witness_term};

use crate::policy::{Member, Policy, PolicyGroup, PolicyLog, PolicyWitness};
use std::alloc::Allocator;

// The place of the witness of this name.
fn witness_named(witnesses: &[PolicyWitness<'_>], name: &str) -> Option<usize>
    ensures { result ≡ position (λ w. bytes_eq (witness_term w).name name.now) witnesses.now }
{
    witnesses.iter().position(|witness| witness.name == name)
}

// The place of the group of this name.
fn group_named<A: Allocator>(groups: &[PolicyGroup<'_, A>], name: &str) -> Option<usize>
    ensures { result ≡ position (λ g. bytes_eq (group_term g).name name.now) groups.now }
{
    groups.iter().position(|group| group.name == name)
}

/// The witness of this name, or the group.
pub(crate) fn member_named<A: Allocator>(policy: &Policy<'_, A>, name: &str) -> Option<Member>
    ensures { result ≡ member_named (terms_of policy.now) name.now }
{
    match witness_named(policy.witnesses.as_slice(), name) {
        Some(place) => Some(Member::Witness(place)),
        None => match group_named(policy.groups.as_slice(), name) {
            Some(place) => Some(Member::Group(place)),
            None => None,
        },
    }
}

/// Whether a name can't be given any more.
pub(crate) fn is_taken<A: Allocator>(policy: &Policy<'_, A>, name: &str) -> bool
    ensures { result ≡ is_taken (terms_of policy.now) name.now }
{
    name == "none" || member_named(policy, name).is_some()
}

// Whether a log has this public key.
fn is_of_log(logs: &[PolicyLog<'_>], key: &[u8; 32]) -> bool
    ensures { result ≡ list_any (λ l. bytes_eq (log_term l).key.key key.now) logs.now }
{
    logs.iter().any(|log| log.key.public_key() == key)
}

// Whether a witness has it.
fn is_of_witness(witnesses: &[PolicyWitness<'_>], key: &[u8; 32]) -> bool
    ensures { result ≡ list_any (λ w. bytes_eq (witness_term w).key.key key.now) witnesses.now }
{
    witnesses
        .iter()
        .any(|witness| witness.key.public_key() == key)
}

/// Whether a log or a witness has this public key.
pub(crate) fn has_key<A: Allocator>(policy: &Policy<'_, A>, key: &[u8; 32]) -> bool
    ensures { result ≡ has_key (terms_of policy.now) key.now }
{
    is_of_log(policy.logs.as_slice(), key) || is_of_witness(policy.witnesses.as_slice(), key)
}

// Whether both are one member.
fn is_same(member: Member, other: Member) -> bool
    ensures { result ≡ is_same_member member other }
{
    match (member, other) {
        (Member::Witness(a), Member::Witness(b)) => a == b,
        (Member::Group(a), Member::Group(b)) => a == b,
        _ => false,
    }
}

// Whether it is one of these.
fn has_member(member: Member, members: &[Member]) -> bool
    ensures { result ≡ has_member member members.now }
{
    members.iter().any(|other| is_same(member, *other))
}

// Whether it stands in one of these groups.
fn is_in_some<A: Allocator>(member: Member, groups: &[PolicyGroup<'_, A>]) -> bool
    ensures { result ≡ list_any (λ g. has_member member (group_term g).members) groups.now }
{
    groups
        .iter()
        .any(|group| has_member(member, group.members.as_slice()))
}

/// Whether it is one of these, or stands in a group.
pub(crate) fn is_grouped<A: Allocator>(
    policy: &Policy<'_, A>,
    members: &[Member],
    member: Member,
) -> bool
    ensures { result ≡ is_grouped (terms_of policy.now) members.now member }
{
    has_member(member, members) || is_in_some(member, policy.groups.as_slice())
}
