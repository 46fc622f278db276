//! The requests and the answers of one connection.

ghost use Rattle.std.specs.Prelude.{◌≡◌, ◌<◌, ◌≤◌, ◌↔◌, ℕ, [], false, true, IsTrue, MatchBool, MatchOption, codes, OnErr, OnOk, drop, length, vec_items};
ghost use Rattle.tl_keepalive.specs.Exchanges as spec;
ghost use Rattle.tl_keepalive.specs.Exchanges.{Turns};
ghost use Rattle.tl_keepalive.specs.KeepAlive.{Stays, WaitsForContinue, without};
ghost use Rattle.tl_keepalive.specs.Inner.Coming.{Concludes};
ghost use Rattle.tl_keepalive.specs.declared.turn.Turn.TheVariants as Turn;
ghost use Rattle.tl_keepalive.specs.Inner.Replying.{Replies};

use crate::facts::MOST_HEAD;
use crate::kept_text::{CLOSE, take_out};
use crate::partial::Partial;
use crate::resources::Resources;
use crate::staying::{next_start, waits_for_continue};
use crate::turn::Turn;
use std::alloc::{AllocError, Global};
use std::marker::Model;
use tl_device::Counted;
use tl_server::{Outcome, ServeFault, Submits};

/// The requests and the answers of one connection: what came and isn't answered yet, and what is to be sent.
#[derive(Drop)]
pub struct Exchanges {
    alloc: Global,
    came: Vec<u8>,
    has_ended: bool,
    // The number of bytes with which an answer is tried, and the most that are taken before.
    enough: usize,
    most: usize,
    // The last answer, and where what isn't sent of it begins.
    answer: Vec<u8>,
    start: usize,
}

impl Model for Exchanges {
    ghost use Rattle.std.specs.Prelude.{drop, vec_items};
    ghost use Rattle.tl_keepalive.specs.Exchanges as seen;

    ghost Value = { seen.Exchanges };

    ghost view = { λ e. record {
      came = vec_items e.came;
      ended = e.has_ended;
      unsent = drop e.start (vec_items e.answer);
    } };
}

impl Exchanges {
    /// Returns the exchanges of a connection of which nothing came.
    pub fn new(alloc: Global) -> Exchanges
        ensures { result ≡ record { came = []; ended = false; unsent = [] } }
    {
        Exchanges {
            alloc,
            came: Vec::new(alloc),
            has_ended: false,
            enough: 1,
            most: MOST_HEAD,
            answer: Vec::new(alloc),
            start: 0,
        }
    }

    /// Returns how many bytes are taken at most before an answer is tried, at least one.
    pub fn room(&self) -> usize
        ensures { 0 < result }
    {
        self.most.saturating_sub(self.came.len()).max(1)
    }

    /// Takes bytes that came. Fails only if allocation fails.
    pub fn feed(&mut self, bytes: &[u8]) -> Result<(), AllocError>
        ensures fed { OnOk result (self.new ≡ spec.fed self.old bytes.now) }
        ensures left { OnErr result (self.new ≡ self.old) }
    {
        self.came.extend_from_slice(bytes)
    }

    /// Records that nothing more comes.
    pub fn close(&mut self)
        ensures { self.new ≡ spec.closed self.old }
    {
        self.has_ended = true;
    }

    /// Reports whether nothing came that isn't answered.
    pub fn is_idle(&self) -> bool
        ensures { IsTrue result ↔ (self.now.came ≡ []) }
    {
        self.came.is_empty()
    }

    /// Reports whether enough came to try an answer.
    pub fn is_enough(&self) -> bool {
        self.came.len() >= self.enough
    }

    /// Reports whether a head is read, as far as that is known, and not a body.
    pub fn is_in_head(&self) -> bool {
        self.most <= MOST_HEAD
    }

    /// Reports whether the client waits for 100 before it sends a body (RFC 9110, section 10.1.1).
    pub fn waits_for_continue(&self) -> bool
        ensures { IsTrue result ↔ WaitsForContinue self.now.came }
    {
        waits_for_continue(self.came.as_slice())
    }

    /// Returns what is to be sent.
    pub fn unsent(&self) -> &[u8]
        ensures { result.now ≡ self.now.unsent }
    {
        self.answer.as_slice().get(self.start..).unwrap_or(&[])
    }

    /// Records that this many bytes of it were sent. Once all of them are, their memory is given back.
    pub fn send(&mut self, count: usize)
        ensures { self.new ≡ spec.sent self.old count }
    {
        self.start = self.start.saturating_add(count);
        if self.start >= self.answer.len() {
            self.answer = Vec::new(self.alloc);
            self.start = 0;
        }
    }

    // Records that an answer could not be given yet, because it asked for this many more bytes. Up to the most bytes
    // of a head, each byte may end it. Beyond, they are of a body, and all are needed.
    fn want(&mut self, asked: usize)
        ensures { self.new ≡ self.old }
    {
        let len = self.came.len();
        self.most = len.saturating_add(asked);
        self.enough = if self.is_in_head() {
            len.saturating_add(1)
        } else {
            self.most
        };
    }

    // Puts an answer, of which the bytes from `start` on are to be sent.
    fn put(&mut self, answer: Vec<u8>, start: usize)
        ensures { self.new ≡ spec.answered self.old 0 (drop start (vec_items answer)) }
    {
        self.answer = answer;
        self.start = start;
    }

    // Puts an answer without its line `Connection: close`.
    fn put_kept(&mut self, answer: Vec<u8>)
        ensures { self.new ≡ spec.answered self.old 0
            (without (codes "Connection: close\r\n") (vec_items answer)) }
    {
        let mut answer = answer;
        let start = take_out(&mut answer, CLOSE);
        self.put(answer, start);
    }

    // Drops the request that was answered, of this many bytes.
    fn pass(&mut self, end: usize)
        requires { end ≤ length self.old.came }
        ensures { self.new ≡ spec.answered self.old end self.old.unsent }
    {
        let left = self.came.len() - end;
        self.came.rotate_left(end);
        self.came.truncate(left);
        if left == 0 {
            self.came = Vec::new(self.alloc);
        }
        self.enough = 1;
        self.most = MOST_HEAD;
    }

    // Returns where the next request begins, if the connection stays open after an answer with this status.
    fn next_start(&self, status: u16) -> Option<usize>
        ensures { MatchOption result ((end : ℕ) → ¬ (Stays self.now.came status end))
            (λ end. (end ≤ length self.now.came) × Stays self.now.came status end) }
    {
        next_start(self.came.as_slice(), status)
    }

    // Puts an answer with this status. Reports whether the connection stays open after it.
    fn reply(&mut self, answer: Vec<u8>, status: u16, may_stay: bool) -> bool
        ensures { Replies may_stay status (vec_items answer) self.old self.new result }
    {
        if !may_stay {
            self.put(answer, 0);
            return false;
        }
        let Some(end) = self.next_start(status) else {
            self.put(answer, 0);
            return false;
        };
        self.put_kept(answer);
        self.pass(end);
        true
    }

    // Goes on once more came, by at least this many bytes beyond a head, unless nothing more comes.
    fn go_on(&mut self, asked: usize) -> Turn
        ensures turn { MatchBool self.old.ended (result ≡ Turn.Failed) (result ≡ Turn.More) }
        ensures same { self.new ≡ self.old }
    {
        if self.has_ended {
            return Turn::Failed;
        }
        self.want(asked);
        Turn::More
    }

    // Takes what a call that answers wrote, and its outcome; it asked for this many bytes beyond what came.
    fn conclude(
        &mut self,
        outcome: Result<Outcome, ServeFault>,
        answer: Vec<u8>,
        asked: usize,
        may_stay: bool,
    ) -> Turn
        ensures { Concludes may_stay (vec_items answer) self.old self.new outcome result }
    {
        match outcome {
            Ok(Outcome::Answered(status)) => Turn::Answered(self.reply(answer, status, may_stay)),
            Ok(Outcome::Misplaced) => {
                self.put(answer, 0);
                Turn::Misplaced
            }
            Ok(Outcome::Later) => Turn::Later,
            Ok(Outcome::Nothing) => Turn::Nothing,
            Err(ServeFault::Read) => self.go_on(asked),
            Err(ServeFault::Write) => Turn::Failed,
        }
    }

    // Tries to answer what came, if nothing more comes.
    fn answer_last<P: Resources, T: Submits>(
        &mut self,
        resources: &mut P,
        queue: &mut T,
        may_stay: bool,
    ) -> Turn
        requires ended { self.old.ended ≡ true }
        requires sent { self.old.unsent ≡ [] }
        ensures { Turns (P.idle resources.old resources.new (queue.new ≡ queue.old))
            (P.courses resources.old resources.new (queue.new ≡ queue.old)
            (T.submits queue.old queue.new)) may_stay self.old self.new result }
    {
        let mut reader = Counted::new(self.came.as_slice());
        let mut writer = Counted::new(Vec::new(self.alloc));
        let outcome = resources.answer(self.alloc, &mut reader, &mut writer, queue);
        self.conclude(outcome, writer.into_inner(), 0, may_stay)
    }

    // Tries to answer what came, if more may come.
    fn answer_next<P: Resources, T: Submits>(
        &mut self,
        resources: &mut P,
        queue: &mut T,
        may_stay: bool,
    ) -> Turn
        requires open { self.old.ended ≡ false }
        requires sent { self.old.unsent ≡ [] }
        ensures { Turns (P.idle resources.old resources.new (queue.new ≡ queue.old))
            (P.courses resources.old resources.new (queue.new ≡ queue.old)
            (T.submits queue.old queue.new)) may_stay self.old self.new result }
    {
        let mut reader = Counted::new(Partial::new(self.came.as_slice()));
        let mut writer = Counted::new(Vec::new(self.alloc));
        let outcome = resources.answer(self.alloc, &mut reader, &mut writer, queue);
        let asked = reader.into_inner().asked();
        let answer = writer.into_inner();
        self.conclude(outcome, answer, asked, may_stay)
    }

    /// Tries to answer the next request from these resources. The queue is asked for the index of a posted entry. With
    /// `may_stay` the connection stays open after the answer, unless the client asks to close it, the status is 400,
    /// 413, 431 or 500, or the request's body didn't come whole.
    pub fn answer<P: Resources, T: Submits>(
        &mut self,
        resources: &mut P,
        queue: &mut T,
        may_stay: bool,
    ) -> Turn
        ensures { Turns (P.idle resources.old resources.new (queue.new ≡ queue.old))
            (P.courses resources.old resources.new (queue.new ≡ queue.old)
            (T.submits queue.old queue.new)) may_stay self.old self.new result }
    {
        if !self.unsent().is_empty() {
            return Turn::Unsent;
        }
        if self.has_ended {
            return self.answer_last(resources, queue, may_stay);
        }
        self.answer_next(resources, queue, may_stay)
    }
}
