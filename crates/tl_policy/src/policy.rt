//! A policy as data: logs, witnesses, groups of them, and the quorum.

use std::alloc::{AllocError, Allocator, Global};
use tl_key::{CosignerVerifier, NoteVerifier};

/// A witness or a group of a policy, by its place among them, from 0.
#[derive(Copy)]
pub enum Member {
    Witness(usize),
    Group(usize),
}

impl Clone for Member {
    fn clone(&self) -> Result<Member, AllocError> {
        Ok(*self)
    }
}

/// A log that a policy trusts.
#[derive(Drop)]
pub struct PolicyLog<'t> {
    /// The key that signs its checkpoints; the key's name is their origin.
    pub key: NoteVerifier<Global>,
    /// Where the log is served.
    pub url: Option<&'t str>,
}

/// A witness of a policy.
#[derive(Drop)]
pub struct PolicyWitness<'t> {
    /// The policy's name for it, which need not be the key's.
    pub name: &'t str,
    /// The key that signs its cosignatures.
    pub key: CosignerVerifier<Global>,
    /// Where it is asked.
    pub url: Option<&'t str>,
}

/// A group of a policy: it is satisfied if as many of its members are as its threshold says, or more.
#[derive(Drop)]
pub struct PolicyGroup<'t, A: Allocator> {
    /// The policy's name for it.
    pub name: &'t str,
    /// How many members have to be satisfied.
    pub threshold: usize,
    /// Witnesses, and groups with a smaller place.
    pub members: Vec<Member, A>,
}

/// Which logs are trusted, and which witnesses have to have cosigned a checkpoint (C2SP tlog-policy). Names and URLs
/// are those of the text that it was read from.
#[derive(Drop)]
pub struct Policy<'t, A: Allocator> {
    /// The logs, in the order of their lines.
    pub logs: Vec<PolicyLog<'t>, A>,
    /// The witnesses, in the order of their lines.
    pub witnesses: Vec<PolicyWitness<'t>, A>,
    /// The groups, in the order of their lines.
    pub groups: Vec<PolicyGroup<'t, A>, A>,
    /// Who has to be satisfied, or nobody.
    pub quorum: Option<Member>,
}
