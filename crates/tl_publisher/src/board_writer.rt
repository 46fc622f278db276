//! The writer of the board.
ghost use Rattle.std.specs.Prelude.{◌≡◌, ℕ, Option, Some, None, List, [], ◌∷◌, ◌++◌, take, drop, fold, length, ◌<◌, ◌≤◌, ◌^◌, IfErr, IfOk, IsSome, OnOk, OnErr, MatchResult, option_map};
ghost use Rattle.left_right.specs.Sides.{view};
ghost use Rattle.sha2.specs.Sha256.{sha256};
ghost use Rattle.tl_sequencer.specs.Log.{entries_of};
ghost use Rattle.tl_publisher.specs.Boards as boards;
ghost use Rattle.tl_publisher.specs.Inner.Publications.{published_as};
ghost use Rattle.tl_publisher.specs.Stages as stages;
ghost use Rattle.tl_publisher.specs.Rules.{knows};

use crate::board_copy::{BoardCopy, Change, Step};
use crate::past::{HistoryWriter, Next, Past};
use crate::reader::{BoardReader, bytes_of};
use crate::rule::{CopyWriter, Name, Note, Show};
use core::mem::replace_with;
use std::alloc::{AllocError, Allocator, Global};
use std::marker::{Brand, Model};
use std::sync::Wait;
use tl_hash::Head;
use tl_sequencer::Sequencer;
use tl_tile::Resource;

/// Writes the board and records the history of its publications. It keeps the runtime `R` because dropping it waits
/// for the readers. Contracts see the board that it shows.
pub(crate) struct BoardWriter<R: Wait + Drop> {
    writer: CopyWriter,
    history: HistoryWriter,
    rt: R,
}

impl<R: Wait + Drop> Model for BoardWriter<R> {
    ghost use Rattle.std.specs.Prelude.{◌≡◌, drop};
    ghost use Rattle.left_right.specs.Sides as sides;
    ghost use Rattle.sha2.specs.Sha256.{sha256};
    ghost use Rattle.tl_publisher.specs.Boards as boards;
    ghost use Rattle.tl_publisher.specs.Stages as stages;
    ghost use Rattle.tl_publisher.specs.Rules.{knows};

    ghost Value = { boards.Board };

    ghost view = { λ p. stages.visible p.writer.desk.shown.value };

    ghost invariant = { λ p. (p.writer.desk.shown.value.past ≡ p.history.past)
        × (sides.view p.writer.desk.place ≡ knows p.history.past.book)
        × stages.Rests sha256 p.writer.desk.shown.value (drop p.writer.behind p.writer.log.items) };
}

// Adds a publication to the history. No one else adds to it, so the loop is never reached.
fn added<N: Next, R: Wait>(rt: &R, history: HistoryWriter) -> HistoryWriter
    requires { length history.past.log < 2 ^ 62 }
    ensures book { result.past.book ≡ history.past.book }
    ensures added { result.past.log ≡ history.past.log ++ N.next ∷ [] }
{
    let mut history = history;
    if history.add::<N>() {
        return history;
    }
    for _ in rt.forever() {}
    unreachable!()
}

// Logs a step. The log has room for it, so the first round ends the loop.
fn logged<R: Wait>(rt: &R, writer: CopyWriter, step: Step<Global>) -> CopyWriter
    ensures desk { result.desk ≡ writer.desk }
    ensures pending { drop result.behind result.log.items
        ≡ drop writer.behind writer.log.items ++ step ∷ [] }
{
    let mut writer = writer;
    let mut step = step;
    for _ in rt.forever() {
        match writer.append(step) {
            Ok(()) => return writer,
            Err(back) => step = back,
        }
    }
    unreachable!()
}

// Shows the copy that has the pending steps. If allocation fails, what was shown stays.
fn published<R: Wait>(rt: &R, writer: CopyWriter) -> (CopyWriter, Result<(), AllocError>)
    requires shown { stages.IsShown sha256 (stages.visible
        (fold stages.moved writer.desk.shown.value (drop writer.behind writer.log.items))) }
    requires book { (fold stages.moved writer.desk.shown.value
        (drop writer.behind writer.log.items)).past.book ≡ writer.desk.shown.value.past.book }
    ensures values { MatchResult result.1
        (λ _. (result.0.desk.shown.value ≡ fold stages.moved writer.desk.shown.value
        (drop writer.behind writer.log.items)) × (drop result.0.behind result.0.log.items ≡ []))
        (λ _. (result.0.desk.shown.value ≡ writer.desk.shown.value)
        × (drop result.0.behind result.0.log.items ≡ drop writer.behind writer.log.items)) }
    ensures view { view result.0.desk.place ≡ view writer.desk.place }
{
    writer.publish_as::<Show, R>(rt)
}

// Shows what was staged and logged. It allocates nothing, so the first round ends the loop.
fn shown<R: Wait>(rt: &R, writer: CopyWriter) -> CopyWriter
    requires shown { stages.IsShown sha256 (stages.visible
        (fold stages.moved writer.desk.shown.value (drop writer.behind writer.log.items))) }
    requires book { (fold stages.moved writer.desk.shown.value
        (drop writer.behind writer.log.items)).past.book ≡ writer.desk.shown.value.past.book }
    ensures value { result.desk.shown.value
        ≡ fold stages.moved writer.desk.shown.value (drop writer.behind writer.log.items) }
    ensures view { view result.desk.place ≡ view writer.desk.place }
    ensures pending { drop result.behind result.log.items ≡ [] }
{
    let mut writer = writer;
    for _ in rt.forever() {
        let (next, done) = published(rt, writer);
        writer = next;
        if done.is_ok() {
            return writer;
        }
    }
    unreachable!()
}

// Applies the pending steps to one copy. What is shown stays.
fn tried<R: Wait>(rt: &R, writer: CopyWriter) -> (CopyWriter, Result<(), AllocError>)
    requires { stages.Rests sha256 writer.desk.shown.value (drop writer.behind writer.log.items) }
    ensures rests { stages.Rests sha256 result.0.desk.shown.value
        (drop result.0.behind result.0.log.items) }
    ensures visible { stages.visible result.0.desk.shown.value
        ≡ stages.visible writer.desk.shown.value }
    ensures ok { OnOk result.1
        ((result.0.desk.shown.value ≡ fold stages.moved writer.desk.shown.value
        (drop writer.behind writer.log.items)) × (drop result.0.behind result.0.log.items ≡ [])) }
    ensures view { view result.0.desk.place ≡ view writer.desk.place }
{
    published(rt, writer)
}

// Applies the pending steps to both copies. What is shown stays.
fn settled<R: Wait>(rt: &R, writer: CopyWriter) -> (CopyWriter, Result<(), AllocError>)
    requires { stages.Rests sha256 writer.desk.shown.value (drop writer.behind writer.log.items) }
    ensures rests { stages.Rests sha256 result.0.desk.shown.value
        (drop result.0.behind result.0.log.items) }
    ensures visible { stages.visible result.0.desk.shown.value
        ≡ stages.visible writer.desk.shown.value }
    ensures ok { OnOk result.1
        ((result.0.desk.shown.value ≡ fold stages.moved writer.desk.shown.value
        (drop writer.behind writer.log.items)) × (drop result.0.behind result.0.log.items ≡ [])) }
    ensures view { view result.0.desk.place ≡ view writer.desk.place }
{
    let (writer, first) = tried(rt, writer);
    match first {
        Ok(()) => tried(rt, writer),
        Err(_) => (writer, Err(AllocError)),
    }
}

// Stages a change in both copies. What is shown stays.
fn lay<R: Wait>(
    rt: &R,
    writer: CopyWriter,
    step: Step<Global>,
) -> (CopyWriter, Result<(), AllocError>)
    requires rests { stages.Rests sha256 writer.desk.shown.value
        (drop writer.behind writer.log.items) }
    requires laid { stages.IsLaid step }
    ensures rests { stages.Rests sha256 result.0.desk.shown.value
        (drop result.0.behind result.0.log.items) }
    ensures visible { stages.visible result.0.desk.shown.value
        ≡ stages.visible writer.desk.shown.value }
    ensures ok { OnOk result.1
        ((result.0.desk.shown.value ≡ stages.moved writer.desk.shown.value step)
        × (drop result.0.behind result.0.log.items ≡ [])) }
    ensures view { view result.0.desk.place ≡ view writer.desk.place }
{
    let mut writer = writer;
    match writer.append(step) {
        Ok(()) => settled(rt, writer),
        Err(_) => (writer, Err(AllocError)),
    }
}

impl<R: Wait + Drop> BoardWriter<R> {
    // Shows a change as the publication `N::next`, which the caller chooses.
    fn show_change<N: Next, E: Allocator>(
        self,
        change: Change<Global>,
        _log: &Sequencer<E, Global>,
        _size: u64,
    ) -> (BoardWriter<R>, Result<Past, AllocError>)
        requires room { length self.past.log < 2 ^ 62 }
        requires change { stages.IsChangeFor sha256 self.past.log N.next change }
        ensures book { result.0.past.book ≡ self.past.book }
        ensures published { IfOk result.1
            (λ p. (result.0.past.log ≡ self.past.log ++ N.next ∷ []) × (p ≡ result.0.past)) }
        ensures refused { OnErr result.1 (result.0 ≡ self) }
    {
        let Self {
            writer,
            history,
            rt,
        } = self;
        let step = Step::new(Some(change), history.past().again());
        let (writer, laid) = lay(&rt, writer, step);
        let Ok(()) = laid else {
            let board = BoardWriter {
                writer,
                history,
                rt,
            };
            return (board, Err(AllocError));
        };
        let history = added::<N, R>(&rt, history);
        let past = history.past().again();
        let writer = logged(&rt, writer, Step::new(None, history.past().again()));
        let writer = shown(&rt, writer);
        let board = BoardWriter {
            writer,
            history,
            rt,
        };
        (board, Ok(past))
    }

    // Shows a change as the publication of the first `size` entries of the log.
    fn show_log<E: Allocator>(
        self,
        ask: (Change<Global>, &Sequencer<E, Global>, u64),
    ) -> (BoardWriter<R>, Result<Past, AllocError>)
        requires room { length self.past.log < 2 ^ 62 }
        requires change { stages.IsChangeFor sha256 self.past.log
            (published_as (take ask.2 (entries_of ask.1.now)) ask.0.face.note) ask.0 }
        ensures book { result.0.past.book ≡ self.past.book }
        ensures published { IfOk result.1 (λ p. (result.0.past.log ≡ self.past.log ++ published_as
            (take ask.entry.2 (entries_of ask.entry.1.now)) ask.entry.0.face.note ∷ [])
            × (p ≡ result.0.past)) }
        ensures refused { OnErr result.1 (result.0 ≡ self) }
    {
        let (change, log, size) = ask;
        self.show_change::<Brand, E>(change, log, size)
    }

    /// Publishes the first `size` entries of the log in one step; `change` is what that publication adds. On error
    /// nothing changes.
    pub(crate) fn show<E: Allocator>(
        &mut self,
        change: Change<Global>,
        log: &Sequencer<E, Global>,
        size: u64,
    ) -> Result<Past, AllocError>
        requires room { length self.old.past.log < 2 ^ 62 }
        requires change { stages.IsChangeFor sha256 self.old.past.log
            (published_as (take size (entries_of log.now)) change.face.note) change }
        ensures book { self.new.past.book ≡ self.old.past.book }
        ensures published { IfOk result (λ p. (self.new.past.log ≡ self.old.past.log
            ++ published_as (take size (entries_of log.now)) change.face.note ∷ [])
            × (p ≡ self.new.past)) }
        ensures refused { OnErr result (self.new ≡ self.old) }
    {
        replace_with(self, (change, log, size), BoardWriter::<R>::show_log::<E>)
    }

    /// Returns a reader of the board that has seen all publications so far.
    pub(crate) fn reader(&mut self) -> Result<BoardReader<Global>, AllocError>
        ensures same { self.new ≡ self.old }
        ensures reader { IfOk result (λ w. w ≡ self.old.past) }
    {
        let mut reader = self.writer.factory().reader()?;
        reader.learn::<Note>(self.writer.tell::<Note>());
        Ok(BoardReader::new(reader, self.history.past().again()))
    }

    /// Returns a copy of the bytes that are shown for a resource.
    pub(crate) fn get<B: Allocator>(
        &self,
        alloc: B,
        resource: Resource,
    ) -> Result<Option<Vec<u8, B>>, AllocError>
        ensures bytes { IfOk result
            (λ r. option_map (λ v. v.items) r ≡ boards.shown sha256 resource self.now.past.log) }
        ensures memory { IfErr result
            (λ _. IsSome (boards.shown sha256 resource self.now.past.log)) }
    {
        bytes_of(self.writer.published(), alloc, resource)
    }

    /// Returns the size and root of the last publication.
    pub(crate) fn head(&self) -> Option<Head>
        ensures shown { stages.IsShown sha256 self.now }
        ensures head { option_map (λ h. (h.size, h.root)) result ≡ boards.face_head self.now.face }
    {
        self.writer.published().head()
    }

    /// Returns the writer of an empty board with room for `readers` readers. It doesn't wait, since nobody reads yet.
    pub(crate) fn open(rt: R, alloc: Global, readers: usize) -> Result<BoardWriter<R>, AllocError>
        requires { (0 < readers) × (readers < 2 ^ 32) }
        ensures { IfOk result (λ p. (p.past.log ≡ []) × (p.face ≡ None)) }
    {
        let history = HistoryWriter::open();
        let first = BoardCopy::empty(alloc, history.past());
        let second = BoardCopy::empty(alloc, history.past());
        let writer = CopyWriter::new(alloc, first, second, readers)?;
        let (writer, named) = writer.publish_as::<Name, R>(&rt);
        if named.is_err() {
            writer.take(&rt);
            return Err(AllocError);
        }
        Ok(BoardWriter {
            writer,
            history,
            rt,
        })
    }
}

impl<R: Wait + Drop> Drop for BoardWriter<R> {
    fn drop(self) {
        let Self {
            writer,
            history: _history,
            rt,
        } = self;
        drop(writer.take(&rt));
    }
}
