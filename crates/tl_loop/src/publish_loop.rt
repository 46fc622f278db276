//! The state machine of a running log.

ghost use Rattle.std.specs.Prelude.{◌≡◌, false, true};
ghost use Rattle.tl_loop.specs.declared.publish_loop.Doing.TheVariants as doing;
ghost use Rattle.tl_loop.specs.Order.{Begins, publication, telling};
ghost use Rattle.tl_loop.specs.PublishLoop.{after, after_done, after_failure, after_nothing, is_waiting, next_due, next_taking, now_doing, step_of, with_taken, without_new};

use std::alloc::AllocError;

/// What came of a step, or what happened meanwhile.
#[derive(Debug)]
pub enum Event<F> {
    /// The step is done. The count is of the entries that were taken in, or that the closed log
    /// has. After a wait, something may have come.
    Done(u64),
    /// Nothing was published, since nothing was new.
    NothingNew,
    /// The line with this number, counted from 0, is too long and was left out.
    TooLong(u64),
    /// The input has ended.
    InputEnded,
    /// What was taken in has waited long enough for more.
    Due,
    /// The log is to end: all connections that were to be answered are answered, and nothing more
    /// is sent.
    Stopped,
    /// The step failed, or something that runs beside it did.
    Failed(F),
}

impl<F: Copy> Clone for Event<F> {
    ghost use Rattle.std.specs.Prelude.{◌≡◌};

    ghost is_clone = { λ event copy. copy ≡ event };

    ghost is_infallible = { λ _. Unit {0} };

    fn clone(&self) -> Result<Event<F>, AllocError> {
        Ok(*self)
    }
}

impl<F: Copy> Copy for Event<F> {}

/// The next step.
#[derive(Debug)]
pub enum Step<F> {
    /// Wait until something happens.
    Wait,
    /// Take in what waits.
    Take,
    /// Publish what was taken in.
    Publish,
    /// Report what was published.
    TellHead,
    /// Report that the line with this number is too long.
    TellTooLong(u64),
    /// Report that the input has ended.
    TellInputEnded,
    /// Stop accepting connections, and wait until all accepted ones are answered.
    CloseListener,
    /// Take in all that is left, now that nothing more is sent.
    TakeRest,
    /// Close the log.
    CloseLog,
    /// Report that the log is closed, with this many entries.
    TellClosed(u64),
    /// End with this result.
    End(Result<(), F>),
}

impl<F: Copy> Clone for Step<F> {
    ghost use Rattle.std.specs.Prelude.{◌≡◌};

    ghost is_clone = { λ step copy. copy ≡ step };

    ghost is_infallible = { λ _. Unit {0} };

    fn clone(&self) -> Result<Step<F>, AllocError> {
        Ok(*self)
    }
}

impl<F: Copy> Copy for Step<F> {}

/// What the loop is doing.
#[derive(Debug)]
pub enum Doing<F> {
    /// It waits.
    Waiting,
    /// It takes in what waits.
    Taking,
    /// It publishes. Here and below, `true` means for the last time.
    Publishing(bool),
    /// It reports what was published.
    Telling(bool),
    /// It reports that a line was too long.
    TellingTooLong(u64),
    /// It reports that the input has ended.
    TellingInputEnded,
    /// It closes the listener, since the log is to end.
    Closing,
    /// It takes in all that is left.
    TakingRest,
    /// It closes the log.
    Sealing,
    /// It reports that the log is closed.
    TellingClosed(u64),
    /// It closes the listener after a failure.
    Failing(F),
    /// It has ended.
    Ended(Result<(), F>),
}

impl<F: Copy> Clone for Doing<F> {
    ghost use Rattle.std.specs.Prelude.{◌≡◌};

    ghost is_clone = { λ doing copy. copy ≡ doing };

    ghost is_infallible = { λ _. Unit {0} };

    fn clone(&self) -> Result<Doing<F>, AllocError> {
        Ok(*self)
    }
}

impl<F: Copy> Copy for Doing<F> {}

/// The state of a running log, as far as it decides what to do next.
#[derive(Debug)]
pub struct PublishLoop<F> {
    /// What it is doing.
    pub doing: Doing<F>,
    /// Whether something is to be published: entries that were taken in, or a log that never was.
    pub has_new: bool,
    /// How many more entries make a publication due at once.
    pub left: u64,
    /// The value of `left` after a publication.
    pub batch: u64,
    /// Whether a smaller batch waits until a publication is due. If not, it is published once no
    /// more entries wait.
    pub gathers: bool,
}

impl<F: Copy> Clone for PublishLoop<F> {
    ghost use Rattle.std.specs.Prelude.{◌≡◌};

    ghost is_clone = { λ publish_loop copy. copy ≡ publish_loop };

    ghost is_infallible = { λ _. Unit {0} };

    fn clone(&self) -> Result<PublishLoop<F>, AllocError> {
        Ok(*self)
    }
}

impl<F: Copy> Copy for PublishLoop<F> {}

impl<F: Copy> PublishLoop<F> {
    /// Returns the loop of a log that was published, which it reports first. It publishes each
    /// `batch` entries at once. A smaller batch is published once no more entries wait or, if it
    /// gathers, once they have waited long enough.
    pub fn serving(batch: u64, gathers: bool) -> PublishLoop<F>
        ensures value { result ≡ record {
          doing = doing.Telling false;
          has_new = false;
          left = batch;
          batch = batch;
          gathers = gathers;
        } }
        ensures begins { Begins result telling }
    {
        PublishLoop {
            doing: Doing::Telling(false),
            has_new: false,
            left: batch,
            batch,
            gathers,
        }
    }

    /// Returns the loop of a log that owes a publication, since what was there isn't shown. It
    /// waits until the publication is due, and then goes on as `serving` says.
    pub fn owing(batch: u64, gathers: bool) -> PublishLoop<F>
        ensures value { result ≡ record {
          doing = doing.Waiting;
          has_new = true;
          left = batch;
          batch = batch;
          gathers = gathers;
        } }
        ensures begins { Begins result publication }
    {
        PublishLoop {
            doing: Doing::Waiting,
            has_new: true,
            left: batch,
            batch,
            gathers,
        }
    }

    /// Returns the next step.
    pub fn step(self) -> Step<F>
        ensures { result ≡ step_of self.doing }
    {
        match self.doing {
            Doing::Waiting => Step::Wait,
            Doing::Taking => Step::Take,
            Doing::Publishing(_) => Step::Publish,
            Doing::Telling(_) => Step::TellHead,
            Doing::TellingTooLong(line) => Step::TellTooLong(line),
            Doing::TellingInputEnded => Step::TellInputEnded,
            Doing::Closing | Doing::Failing(_) => Step::CloseListener,
            Doing::TakingRest => Step::TakeRest,
            Doing::Sealing => Step::CloseLog,
            Doing::TellingClosed(size) => Step::TellClosed(size),
            Doing::Ended(outcome) => Step::End(outcome),
        }
    }

    // Returns the same loop, doing this.
    fn now_doing(self, doing: Doing<F>) -> PublishLoop<F>
        ensures { result ≡ now_doing self doing }
    {
        PublishLoop { doing, ..self }
    }

    // Returns the same loop after it took in this many more entries.
    fn with_taken(self, count: u64) -> PublishLoop<F>
        ensures { result ≡ with_taken self count }
    {
        PublishLoop {
            has_new: self.has_new || count > 0,
            left: self.left.saturating_sub(count),
            ..self
        }
    }

    // Returns the same loop once nothing is to be published.
    fn without_new(self) -> PublishLoop<F>
        ensures { result ≡ without_new self }
    {
        PublishLoop {
            has_new: false,
            left: self.batch,
            ..self
        }
    }

    // Returns what it does next if the last call took in this many entries.
    fn next_taking(self, count: u64) -> Doing<F>
        ensures { result ≡ next_taking self count }
    {
        if self.has_new && self.left == 0 {
            return Doing::Publishing(false);
        }
        if count > 0 {
            return Doing::Taking;
        }
        if self.has_new && !self.gathers {
            return Doing::Publishing(false);
        }
        Doing::Waiting
    }

    // Returns the same loop after a `Take` that took in this many entries.
    fn after_taking(self, count: u64) -> PublishLoop<F>
        ensures { result ≡ now_doing (with_taken self count) (next_taking (with_taken self count) count) }
    {
        let taken = self.with_taken(count);
        taken.now_doing(taken.next_taking(count))
    }

    // Returns the same loop after a `TakeRest` that took in this many entries.
    fn after_rest(self, count: u64) -> PublishLoop<F>
        ensures { result ≡ after_done doing.TakingRest count self }
    {
        let taken = self.with_taken(count);
        if taken.has_new {
            taken.now_doing(Doing::Publishing(true))
        } else {
            taken.now_doing(Doing::Sealing)
        }
    }

    // Returns the same loop after its step is done.
    fn after_done(self, count: u64) -> PublishLoop<F>
        ensures { result ≡ after_done self.doing count self }
    {
        match self.doing {
            Doing::Waiting
            | Doing::Telling(false)
            | Doing::TellingTooLong(_)
            | Doing::TellingInputEnded => self.now_doing(Doing::Taking),
            Doing::Taking => self.after_taking(count),
            Doing::Publishing(is_last) => self.without_new().now_doing(Doing::Telling(is_last)),
            Doing::Telling(true) => self.now_doing(Doing::Sealing),
            Doing::Closing => self.now_doing(Doing::TakingRest),
            Doing::TakingRest => self.after_rest(count),
            Doing::Sealing => self.now_doing(Doing::TellingClosed(count)),
            Doing::TellingClosed(_) => self.now_doing(Doing::Ended(Ok(()))),
            Doing::Failing(fault) => self.now_doing(Doing::Ended(Err(fault))),
            Doing::Ended(_) => self,
        }
    }

    // Returns the same loop if nothing was new.
    fn after_nothing(self) -> PublishLoop<F>
        ensures { result ≡ after_nothing self.doing self }
    {
        match self.doing {
            Doing::Publishing(true) => self.without_new().now_doing(Doing::Sealing),
            Doing::Publishing(false) => self.without_new().now_doing(Doing::Waiting),
            _ => self,
        }
    }

    // Reports whether it waits.
    fn is_waiting(self) -> bool
        ensures { result ≡ is_waiting self.doing }
    {
        match self.doing {
            Doing::Waiting => true,
            _ => false,
        }
    }

    // Returns what it does next after a call failed.
    fn after_failure(self, fault: F) -> Doing<F>
        ensures { result ≡ after_failure fault self.doing }
    {
        match self.doing {
            Doing::Failing(first) => Doing::Ended(Err(first)),
            Doing::Ended(outcome) => Doing::Ended(outcome),
            _ => Doing::Failing(fault),
        }
    }

    // Returns what it does next if a publication is due while it waits.
    fn next_due(self) -> Doing<F>
        ensures { result ≡ next_due self }
    {
        if self.has_new {
            Doing::Publishing(false)
        } else {
            Doing::Waiting
        }
    }

    /// Returns the loop after an event. An event that comes meanwhile, other than a failure, is
    /// ignored unless the loop waits.
    pub fn after(self, event: Event<F>) -> PublishLoop<F>
        ensures { result ≡ after self event }
    {
        match event {
            Event::Done(count) => self.after_done(count),
            Event::NothingNew => self.after_nothing(),
            Event::Failed(fault) => self.now_doing(self.after_failure(fault)),
            _ if !self.is_waiting() => self,
            Event::TooLong(line) => self.now_doing(Doing::TellingTooLong(line)),
            Event::InputEnded => self.now_doing(Doing::TellingInputEnded),
            Event::Due => self.now_doing(self.next_due()),
            Event::Stopped => self.now_doing(Doing::Closing),
        }
    }
}
