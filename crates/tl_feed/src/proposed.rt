//! A checkpoint that a log proposes, and what asks a witness about it.

use crate::question::{Question, WitnessAnswer};
use crate::unasked::Unasked;
use std::alloc::Global;
use tl_client::{Head, ResourceSource};
use tl_note::Verifier;

/// The name and the keys of a log, under which its checkpoints open (C2SP tlog-checkpoint).
#[derive(Drop)]
pub struct LogIdentity<'p> {
    /// The log's name.
    pub origin: &'p str,
    /// The log's keys.
    pub keys: &'p [Box<dyn Verifier>],
}

/// A checkpoint that a log proposes to witnesses.
#[derive(Drop)]
pub struct Proposed<'p> {
    /// The log's name.
    pub origin: &'p str,
    /// The log's keys.
    pub log: &'p [Box<dyn Verifier>],
    /// The signed note.
    pub note: &'p str,
    /// The size and the root that the note states.
    pub head: &'p Head,
}

/// Asks one witness. Its answers are untrusted. Its faults are `Device` or `Ask`.
pub trait AsksWitness {
    ghost use Rattle.std.specs.Global.{Global as GlobalValue};
    ghost use Rattle.std.specs.Prelude.{IfErr, Result, map};
    ghost use Rattle.tl_feed.specs.Growing.{IsGrowthFrom};
    ghost use Rattle.tl_feed.specs.Proposing.{IsSignedBy};
    ghost use Rattle.tl_feed.specs.Question.{body_of};
    ghost use Rattle.tl_feed.specs.Refusing.{IsOfAsking};
    ghost use Rattle.tl_feed.specs.declared.question.WitnessAnswer.{WitnessAnswer};
    ghost use Rattle.tl_feed.specs.declared.unasked.Unasked.{Unasked};
    ghost use Rattle.tl_witness.specs.Request.{Body};

    /// What one question may have as its result. An `impl` may leave it out.
    ghost asks: { Self → Body → Result (WitnessAnswer GlobalValue) Unasked → Type 0 } = { λ _ _ _. Unit {0} };

    /// Returns the witness's answer. It is only ever called with a note that the log signed, and with the proof from
    /// the old size to that of the note's head.
    fn ask<S: ResourceSource>(
        &mut self,
        source: &S,
        proposed: &Proposed<'_>,
        question: &Question<'_>,
    ) -> Result<WitnessAnswer<Global>, Unasked>
        requires signed { IsSignedBy proposed.now.origin.now
            (map (λ v. key v) proposed.now.log.now) question.now.note.now proposed.now.head.now }
        requires proof { IsGrowthFrom (S.may_answer source.now)
            proposed.now.head.now question.now.old question.now.proof.now }
        ensures fault { IfErr result IsOfAsking }
        ensures asked { asks self.old (body_of question.now) result };
}
