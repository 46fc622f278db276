//! Whether witnesses satisfy a policy.

ghost use Rattle.std.specs.Prelude.{◌≡◌, ◌<◌, ◌≤◌, length, map, take, slice_index_or, true, false, MatchOption};
ghost use Rattle.tl_policy.specs.Satisfied.{FallsShort, IsShortOf, count_satisfied, is_member_satisfied, is_satisfied, satisfied_groups};
ghost use Rattle.tl_policy.specs.Terms.{group_term, terms_of};

use crate::policy::{Member, Policy, PolicyGroup};
use std::alloc::Allocator;

// Whether a member is satisfied, by groups before this place alone.
#[cycle(satisfied)]
fn is_member_satisfied<A: Allocator>(
    groups: &[PolicyGroup<'_, A>],
    set: &[bool],
    before: usize,
    member: Member,
) -> bool
    requires { before ≤ length groups.now }
    ensures { result ≡ is_member_satisfied set.now
        (take before (satisfied_groups set.now (map group_term groups.now))) member }
{
    match member {
        Member::Witness(place) => place < set.len() && set[place],
        Member::Group(place) => place < before && is_group_satisfied(groups, set, place),
    }
}

// Whether the group at this place is satisfied.
#[cycle(satisfied)]
fn is_group_satisfied<A: Allocator>(
    groups: &[PolicyGroup<'_, A>],
    set: &[bool],
    place: usize,
) -> bool
    requires { place < length groups.now }
    ensures { result ≡
        slice_index_or (satisfied_groups set.now (map group_term groups.now)) place false }
{
    let group = &groups[place];
    count_satisfied(groups, set, place, group.members.as_slice()) >= group.threshold
}

// Returns how many of these members are satisfied, by groups before this place alone.
#[cycle(satisfied)]
fn count_satisfied<A: Allocator>(
    groups: &[PolicyGroup<'_, A>],
    set: &[bool],
    before: usize,
    members: &[Member],
) -> usize
    requires { before ≤ length groups.now }
    ensures { result ≡ count_satisfied set.now
        (take before (satisfied_groups set.now (map group_term groups.now))) members.now }
{
    let mut count = 0;
    for member in members {
        count += is_member_satisfied(groups, set, before, *member) as usize;
    }
    count
}

/// How many members of a quorum are satisfied, and how many have to be.
#[derive(Clone, Copy, Debug)]
pub struct Shortfall {
    pub have: usize,
    pub want: usize,
}

// Returns how many of a member's own members are satisfied, and how many have to be, if it isn't satisfied itself.
fn shortfall_of<A: Allocator>(
    groups: &[PolicyGroup<'_, A>],
    set: &[bool],
    member: Member,
) -> Shortfall
    ensures { IsShortOf set.now (map group_term groups.now) member result.have result.want }
{
    let alone = Shortfall { have: 0, want: 1 };
    let Member::Group(place) = member else {
        return alone;
    };
    let Some(group) = groups.get(place) else {
        return alone;
    };
    Shortfall {
        have: count_satisfied(groups, set, place, group.members.as_slice()),
        want: group.threshold,
    }
}

impl<'t, A: Allocator> Policy<'t, A> {
    /// Whether a set of witnesses satisfies the quorum: `set` says of each witness, by its place, whether it is in
    /// it. A member is satisfied if it is a witness of the set, or a group of which as many members are as its
    /// threshold says (C2SP tlog-policy). If the quorum is none, any set does.
    pub fn is_satisfied(&self, set: &[bool]) -> bool
        ensures { result ≡ is_satisfied set.now (terms_of self.now) }
    {
        match self.quorum {
            Some(member) => {
                let groups = self.groups.as_slice();
                is_member_satisfied(groups, set, groups.len(), member)
            }
            None => true,
        }
    }
    /// Returns how far a set of witnesses is from satisfying the quorum, or `None` if it satisfies it. The members
    /// that count are those of the quorum's own group.
    pub fn shortfall(&self, set: &[bool]) -> Option<Shortfall>
        ensures { MatchOption result (is_satisfied set.now (terms_of self.now) ≡ true)
            (λ s. FallsShort set.now (terms_of self.now) s.have s.want) }
    {
        let Some(member) = self.quorum else {
            return None;
        };
        if self.is_satisfied(set) {
            return None;
        }
        Some(shortfall_of(self.groups.as_slice(), set, member))
    }
}
