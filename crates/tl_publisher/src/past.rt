//! The history of publications that somebody has seen. At run time it is only a length; the rest exists in proofs.
ghost use Rattle.std.specs.Prelude.{◌≡◌, ◌+◌, ◌<◌, ◌^◌, ◌++◌, ◌∷◌, [], length, MatchBool};
ghost use Rattle.tl_log.specs.Histories as histories;
ghost use Rattle.tl_log.specs.Histories.{StartsWith};
ghost use Rattle.tl_publisher.specs.Pasts.{Grew};
ghost use Rattle.tl_publisher.specs.Pages.{head_of};

use logbook::{Gain, Offer, Plain, Play, Rule, Seen, Start, Word};
use std::marker::{Brand, Model, PhantomData};

/// A publication, in proofs. No value of this type is made.
pub struct Publication {}

impl Model for Publication {
    ghost use Rattle.std.specs.Prelude.{[]};
    ghost use Rattle.tl_log.specs.Histories as histories;

    ghost Value = { histories.Prefix };

    ghost view = { λ _. record { entries = []; note = [] } };
}

/// The rule of the history's book: its first word is the length of the history. Nothing else is shared.
pub struct HistoryRule;

impl Rule<Publication, u64> for HistoryRule {
    ghost use Rattle.std.specs.Prelude.{[]};
    ghost use base.Fml.{ftrue};
    ghost use Rattle.tl_publisher.specs.Pages.{IsKept};

    ghost first = { [] };

    ghost holds = { IsKept };

    ghost shows = { λ _. [] };

    ghost moves = { λ _ _ _ _. Unit {0} };

    ghost keeps = { λ _ _. ftrue };

    ghost hinted = { λ _ _. Unit {0} };
}

/// Says that callers gain nothing by a step.
pub struct Nothing;

impl Gain<Publication, u64> for Nothing {
    ghost use base.Fml.{ftrue};

    ghost after = { λ _ _ _. ftrue };
}

/// The publication that is added next. Each call chooses it.
pub trait Next {
    ghost next: { histories.Prefix };
}

impl Next for Brand {
    ghost next = { record { entries = []; note = [] } };
}

/// A step that adds the publication `N::next`.
pub struct Add<N> {
    next: PhantomData<N>,
}

impl<N: Next> Play<Publication, u64> for Add<N> {
    ghost use Rattle.tl_publisher.specs.Pages.{Adds};

    ghost then = { Adds };
}

impl<N: Next> Plain<(), Publication, u64> for Add<N> {
    ghost use Rattle.std.specs.Prelude.{None};

    ghost ask = { λ _. N.next };

    ghost state = { λ _. None };
}

/// A beginning of the history: what somebody has seen of it.
#[derive(Drop)]
pub struct Past {
    count: u64,
    seen: Seen<Publication, u64, HistoryRule>,
}

impl Model for Past {
    ghost use Rattle.std.specs.Prelude.{◌≡◌, length};
    ghost use Rattle.tl_publisher.specs.Pasts as pasts;

    ghost Value = { pasts.Past };

    ghost view = { λ p. record { book = p.seen.book; log = p.seen.log } };

    ghost invariant = { λ p. p.count ≡ length p.seen.log };
}

impl Past {
    /// Returns a copy.
    pub(crate) fn again(&self) -> Past
        ensures { result ≡ self.now }
    {
        Past {
            count: self.count,
            seen: self.seen.again(),
        }
    }

    /// Extends what was seen by what `other` has seen.
    pub(crate) fn learn(&mut self, other: &Past)
        requires { other.now.book ≡ self.old.book }
        ensures this { Grew self.old self.new }
        ensures that { StartsWith self.new.log other.now.log }
    {
        let mut both = self.seen.again();
        both.learn(&other.seen);
        if self.count < other.count {
            self.count = other.count;
            self.seen = other.seen.again();
        }
    }

    /// Continues with what `other` has seen and returns true, unless that is less; then nothing changes.
    pub(crate) fn follow(&mut self, other: &Past) -> bool
        requires { other.now.book ≡ self.old.book }
        ensures { MatchBool result ((self.new ≡ other.now) × Grew self.old self.new)
            ((self.new ≡ self.old) × (length other.now.log < length self.old.log)) }
    {
        let mut both = self.seen.again();
        both.learn(&other.seen);
        if self.count > other.count {
            return false;
        }
        self.count = other.count;
        self.seen = other.seen.again();
        true
    }
}

/// The history as the writer of the board has it. Only the writer adds to it.
#[derive(Drop)]
pub struct HistoryWriter {
    head: Word<Publication, u64, HistoryRule>,
    past: Past,
    ghost head_is: { head ≡ head_of past.book },
}

impl HistoryWriter {
    /// Returns an empty history.
    pub(crate) fn open() -> HistoryWriter
        ensures { result.past.log ≡ [] }
    {
        let (seen, mut first, _second) = Seen::open(Start::alone(), 0, 0);
        HistoryWriter {
            head: Word::tracked(0, &mut first),
            past: Past { count: 0, seen },
        }
    }

    /// Returns all publications so far.
    pub(crate) fn past(&self) -> &Past
        ensures { result.now ≡ self.now.past }
    {
        &self.past
    }

    /// Adds the publication `N::next` and returns true, unless the history has a publication that this writer hasn't
    /// seen.
    pub(crate) fn add<N: Next>(&mut self) -> bool
        requires room { length self.old.past.log < 2 ^ 62 }
        ensures book { self.new.past.book ≡ self.old.past.book }
        ensures added { MatchBool result
            (self.new.past.log ≡ self.old.past.log ++ N.next ∷ []) (Unit {0}) }
    {
        self.past.add::<N>(&self.head)
    }
}

impl Past {
    fn add<N: Next>(&mut self, head: &Word<Publication, u64, HistoryRule>) -> bool
        requires head { head.now ≡ head_of self.old.book }
        requires room { length self.old.log < 2 ^ 62 }
        ensures book { self.new.book ≡ self.old.book }
        ensures added { MatchBool result (self.new.log ≡ self.old.log ++ N.next ∷ []) (Unit {0}) }
    {
        let mut offer: Offer<Publication, u64, HistoryRule, Nothing> = self
            .seen
            .plain::<Nothing, (), Add<N>>(&());
        let mut pen = self.seen.no_pen();
        let count = self.count;
        let found = head.compare_exchange::<Add<N>, Nothing>(
            count,
            count + 1,
            &mut self.seen,
            &mut offer,
            &mut pen,
        );
        self.count = if found == count { count + 1 } else { found };
        found == count
    }
}
