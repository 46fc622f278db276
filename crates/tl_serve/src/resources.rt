//! What requests to a log are answered from.

ghost use Rattle.std.specs.Prelude.{◌≡◌};
ghost use Rattle.tl_serve.specs.Inner.Answering.{outcome_of};

use std::alloc::Global;
use std::io::{Read, Write};
use tl_archive::Shelf;
use tl_device::Counted;
use tl_keepalive::Resources;
use tl_publisher::BoardReader;
use tl_server::{
    Outcome, ReadBack, ServeFault, Submits, serve_log, serve_open_log, serve_open_shelf,
    serve_shelf,
};

/// Returns the outcome of a request that was answered at once: with this status, or not at all if
/// no byte came.
pub(crate) fn outcome_of(answered: Result<Option<u16>, ServeFault>) -> Result<Outcome, ServeFault>
    ensures { result ≡ outcome_of answered }
{
    match answered {
        Ok(Some(status)) => Ok(Outcome::Answered(status)),
        Ok(None) => Ok(Outcome::Nothing),
        Err(fault) => Err(fault),
    }
}

/// The resources of a board.
#[derive(Drop)]
pub(crate) struct OnBoard {
    pub(crate) board: BoardReader<Global>,
    /// Whether the log takes posted entries.
    pub(crate) is_open: bool,
}

impl Resources for OnBoard {
    ghost use Rattle.tl_serve.specs.Inner.Answering.{board_courses, board_idle};

    ghost courses = { λ a b Unasked Submits.
        board_courses a.is_open a.board b.board Unasked Submits };

    ghost idle = { λ a b Unasked. board_idle a.is_open a.board b.board Unasked };

    fn answer<I: Read, O: Write, T: Submits>(
        &mut self,
        alloc: Global,
        reader: &mut Counted<I>,
        writer: &mut Counted<O>,
        queue: &mut T,
    ) -> Result<Outcome, ServeFault> {
        if self.is_open {
            return serve_open_log(alloc, reader, writer, &mut self.board, queue);
        }
        outcome_of(serve_log(alloc, reader, writer, &mut self.board))
    }
}

/// The resources of a shelf.
#[derive(Drop)]
pub(crate) struct OnShelf<S: Shelf> {
    pub(crate) shelf: ReadBack<S, Global>,
    /// Whether the log takes posted entries.
    pub(crate) is_open: bool,
}

impl<S: Shelf + Send + Drop> Resources for OnShelf<S> {
    ghost use Rattle.tl_serve.specs.Inner.Answering.{shelf_courses, shelf_idle};

    ghost courses = { λ a b Unasked Submits. shelf_courses a.is_open S.is_honest
        (S.kept a.shelf).held (S.may_fail a.shelf) Unasked Submits };

    ghost idle = { λ a b Unasked. shelf_idle a.is_open Unasked };

    fn answer<I: Read, O: Write, T: Submits>(
        &mut self,
        alloc: Global,
        reader: &mut Counted<I>,
        writer: &mut Counted<O>,
        queue: &mut T,
    ) -> Result<Outcome, ServeFault> {
        if self.is_open {
            return serve_open_shelf(alloc, reader, writer, &mut self.shelf, queue);
        }
        outcome_of(serve_shelf(alloc, reader, writer, self.shelf.shelf()))
    }

    fn forget(&mut self) {
        self.shelf.forget();
    }
}
