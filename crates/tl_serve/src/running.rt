//! A running log, driven by the thread that carries out its steps.

ghost use Rattle.std.specs.Prelude.{◌≡◌, ◌-◌, All};
ghost use Rattle.tl_sequencer.specs.Log.{IsEndOf};
ghost use Rattle.tl_device.specs.Device.{passage};
ghost use Rattle.tl_loop.specs.Order.{Begins};
ghost use Rattle.tl_serve.specs.Inner.Carrying.{Carries, CountsEnds, CountsRound, Drives, ShowsTaken, TellsHead, TellsInputEnded, count_event, owed_first, taken_after, told_event};
ghost use Rattle.tl_serve.specs.Inner.Rounds.{TakesEnds, TakesRound};
ghost use Rattle.tl_serve.specs.Inner.Running.{StaysRunning};
ghost use Rattle.tl_serve.specs.Inner.Telling.{TellsRest};

use crate::live_log::LiveLog;
use crate::telling::{tell_head, tell_input_ended, tell_not_published, tell_too_long};
use std::alloc::Global;
use std::io::Write;
use tl_device::Counted;
use tl_loop::{Event, PublishLoop, Step};
use tl_run::RunFault;
use tl_sequencer::Ended;

/// What informs the thread that carries out the steps of what happens beside it.
pub(crate) trait Feed {
    ghost use Rattle.tl_run.specs.declared.fault.RunFault.{RunFault};
    ghost use Rattle.tl_loop.specs.declared.publish_loop.Event.{Event};

    /// How waiting changes it, by what happened.
    ghost gives: { Self → Self → Event RunFault → Type 0 };

    /// Waits until something happens. If entries were taken in that aren't published, `published`
    /// is how many are: then it waits only until a publication is due.
    fn wait(&mut self, published: Option<u64>) -> Event<RunFault>
        ensures { gives self.old self.new result };

    /// Records that this many entries of a lane were taken in, the first of them at this index of
    /// the log.
    fn note_taken(&self, lane: u32, index: u64, count: u64);

    /// Records that this many entries of the log are published.
    fn note_published(&self, size: u64);
}

/// How much is taken and published at a time, and what is reported.
#[derive(Clone, Copy)]
pub(crate) struct Rounds {
    /// How many entries the log had before.
    pub(crate) before: u64,
    /// How many entries make a publication due at once.
    pub(crate) batch: u64,
    /// Whether a smaller batch waits until a publication is due.
    pub(crate) gathers: bool,
    /// How many lanes there are.
    pub(crate) lanes: u32,
    /// How many entries of a lane a round takes at most. Without it, as many as make a publication
    /// due.
    pub(crate) most: Option<u64>,
    /// The word that is reported before size and root. Without it, nothing is reported.
    pub(crate) word: Option<&'static str>,
}

/// A running log, and how many entries were taken and published.
#[derive(Drop)]
pub(crate) struct Running<O> {
    pub(crate) log: O,
    pub(crate) rounds: Rounds,
    pub(crate) taken: u64,
    pub(crate) published: u64,
    /// Whether a publication was due at first, since entries that were there before aren't shown.
    pub(crate) was_due: bool,
}

// Returns the event of a call that counts nothing.
fn done(outcome: Result<(), RunFault>) -> Event<RunFault>
    ensures { result ≡ told_event outcome }
{
    match outcome {
        Ok(()) => Event::Done(0),
        Err(fault) => Event::Failed(fault),
    }
}

// Takes from each lane in turn, and returns how many entries in all. The first of them has this
// index in the log.
fn take_round<O: LiveLog, F: Feed>(
    log: &mut O,
    feed: &F,
    lanes: u32,
    most: u64,
    index: u64,
) -> Result<u64, RunFault>
    requires { O.holds log.old }
    ensures kept { StaysRunning O.holds O.log O.begun log.old log.new }
    ensures taken { TakesRound lanes most (O.log log.old) (O.log log.new) result }
{
    let mut count = 0u64;
    for lane in 0..lanes {
        match log.take_in(lane, most) {
            Ok(taken) => {
                feed.note_taken(lane, index.saturating_add(count), taken);
                count = count.saturating_add(taken);
            }
            Err(fault) => return Err(fault),
        }
    }
    Ok(count)
}

// Takes in what is left of the lanes of these ends, and returns how many entries.
fn take_ends<O: LiveLog>(log: &mut O, ends: Vec<Ended<Global, Global>>) -> Result<u64, RunFault>
    requires holds { O.holds log.old }
    requires ends { All (λ e. IsEndOf e (O.log log.old)) ends.items }
    ensures kept { StaysRunning O.holds O.log O.begun log.old log.new }
    ensures taken { TakesEnds ends.items (O.log log.old) (O.log log.new) result }
{
    let mut count = 0u64;
    for ended in ends {
        match log.end_lane(ended) {
            Ok(left) => count = count.saturating_add(left),
            Err(fault) => return Err(fault),
        }
    }
    Ok(count)
}

impl<O: LiveLog> Running<O> {
    /// Returns a log of which nothing is taken yet, and which may be due.
    pub(crate) fn new(log: O, rounds: Rounds, is_due: bool) -> Running<O>
        ensures log { result.log ≡ log }
        ensures rounds { result.rounds ≡ rounds }
        ensures none { (result.taken ≡ 0) × (result.published ≡ 0) }
        ensures due { result.was_due ≡ is_due }
    {
        Running {
            log,
            rounds,
            taken: 0,
            published: 0,
            was_due: is_due,
        }
    }

    /// Returns the loop that a served log begins with: it publishes what is due, or else reports
    /// what was published.
    pub(crate) fn begin(&self) -> PublishLoop<RunFault>
        ensures begins { Begins result (owed_first self.now.was_due) }
        ensures batch { (result.batch ≡ self.now.rounds.batch) × (result.left ≡ self.now.rounds.batch) }
    {
        let Rounds { batch, gathers, .. } = self.rounds;
        if self.was_due {
            PublishLoop::owing(batch, gathers)
        } else {
            PublishLoop::serving(batch, gathers)
        }
    }

    // Counts entries that were taken.
    fn count(&mut self, outcome: Result<u64, RunFault>) -> Event<RunFault>
        ensures log { self.new.log ≡ self.old.log }
        ensures counted { self.new ≡ record self.old {
          taken = taken_after self.old.taken outcome;
        } }
        ensures event { result ≡ count_event outcome }
    {
        match outcome {
            Ok(count) => {
                self.taken = self.taken.saturating_add(count);
                Event::Done(count)
            }
            Err(fault) => Event::Failed(fault),
        }
    }

    // Takes in what waits, of each lane at most as many entries as a round takes.
    fn take<F: Feed>(&mut self, left: u64, feed: &F) -> Event<RunFault>
        requires { O.holds self.old.log }
        ensures kept { StaysRunning O.holds O.log O.begun self.old.log self.new.log }
        ensures counts { CountsRound O.log left self.old self.new result }
    {
        let most = self.rounds.most.unwrap_or(left);
        let index = self.rounds.before.saturating_add(self.taken);
        let outcome = take_round(&mut self.log, feed, self.rounds.lanes, most, index);
        self.count(outcome)
    }

    /// Takes in all that is left of the lanes of these ends.
    pub(crate) fn take_rest(&mut self, ends: Vec<Ended<Global, Global>>) -> Event<RunFault>
        requires holds { O.holds self.old.log }
        requires ends { All (λ e. IsEndOf e (O.log self.old.log)) ends.items }
        ensures kept { StaysRunning O.holds O.log O.begun self.old.log self.new.log }
        ensures counts { CountsEnds O.log ends.items self.old self.new result }
    {
        let outcome = take_ends(&mut self.log, ends);
        self.count(outcome)
    }

    // Publishes what was taken in.
    fn publish<F: Feed>(&mut self, feed: &F) -> Event<RunFault>
        requires { O.holds self.old.log }
        ensures kept { StaysRunning O.holds O.log O.begun self.old.log self.new.log }
        ensures shown { ShowsTaken O.shows self.old self.new result }
    {
        match self.log.show() {
            Ok(true) => {
                self.published = self.taken;
                feed.note_published(self.rounds.before.saturating_add(self.taken));
                Event::Done(0)
            }
            Ok(false) => Event::NothingNew,
            Err(fault) => Event::Failed(fault),
        }
    }

    // Reports size and root of what was published.
    fn tell_head<L: Write>(&mut self, alloc: Global, out: &mut Counted<L>) -> Event<RunFault>
        requires { O.holds self.old.log }
        ensures kept { StaysRunning O.holds O.log O.begun self.old.log self.new.log }
        ensures told { TellsHead O.heads self.old.rounds.word self.old self.new
            (passage L.contents out.old out.new) result }
    {
        let Some(word) = self.rounds.word else {
            return Event::Done(0);
        };
        match self.log.head() {
            Some(head) => done(tell_head(alloc, out, word, head)),
            None => Event::Done(0),
        }
    }

    // Reports that the input has ended.
    fn tell_input_ended<L: Write>(&self, out: &mut Counted<L>) -> Event<RunFault>
        ensures { TellsInputEnded self.now.rounds.word (passage L.contents out.old out.new) result }
    {
        match self.rounds.word {
            Some(_) => done(tell_input_ended(out)),
            None => Event::Done(0),
        }
    }

    // Returns how many of the taken entries are published, if others wait for more.
    fn pending(&self, publish_loop: PublishLoop<RunFault>) -> Option<u64> {
        if publish_loop.has_new {
            Some(self.published)
        } else {
            None
        }
    }

    // Carries out a step and returns what came of it, or none if the step isn't this thread's
    // alone.
    fn carry_out<F: Feed, L: Write>(
        &mut self,
        alloc: Global,
        publish_loop: PublishLoop<RunFault>,
        feed: &mut F,
        out: &mut Counted<L>,
    ) -> Option<Event<RunFault>>
        requires { O.holds self.old.log }
        ensures kept { StaysRunning O.holds O.log O.begun self.old.log self.new.log }
        ensures carried { Carries O.log O.shows O.heads F.gives L.contents publish_loop
            (record { running = self.old; feed = feed.old; out = out.old })
            (record { running = self.new; feed = feed.new; out = out.new }) result }
    {
        match publish_loop.step() {
            Step::Wait => Some(feed.wait(self.pending(publish_loop))),
            Step::Take => Some(self.take(publish_loop.left, feed)),
            Step::Publish => Some(self.publish(feed)),
            Step::TellHead => Some(self.tell_head(alloc, out)),
            Step::TellTooLong(line) => Some(done(tell_too_long(alloc, out, line))),
            Step::TellInputEnded => Some(self.tell_input_ended(out)),
            _ => None,
        }
    }

    /// Carries out steps, up to one that isn't this thread's alone. That step is the next.
    pub(crate) fn drive<F: Feed, L: Write>(
        &mut self,
        alloc: Global,
        publish_loop: PublishLoop<RunFault>,
        feed: &mut F,
        out: &mut Counted<L>,
    ) -> PublishLoop<RunFault>
        requires { O.holds self.old.log }
        ensures kept { StaysRunning O.holds O.log O.begun self.old.log self.new.log }
        ensures driven { Drives O.log O.shows O.heads F.gives L.contents publish_loop
            (record { running = self.old; feed = feed.old; out = out.old })
            (record { running = self.new; feed = feed.new; out = out.new }) result }
    {
        let mut publish_loop = publish_loop;
        for _ in 0..u64::MAX {
            let Some(event) = self.carry_out(alloc, publish_loop, feed, out) else {
                break;
            };
            publish_loop = publish_loop.after(event);
        }
        publish_loop
    }

    /// Reports how many of these lines were not published, if any weren't.
    pub(crate) fn tell_rest<L: Write>(
        &self,
        alloc: Global,
        out: &mut Counted<L>,
        lines: u64,
    ) -> Result<(), RunFault>
        ensures { TellsRest (lines - self.now.published)
            (passage L.contents out.old out.new) result }
    {
        let rest = lines.saturating_sub(self.published);
        if rest == 0 {
            return Ok(());
        }
        tell_not_published(alloc, out, rest)
    }
}
