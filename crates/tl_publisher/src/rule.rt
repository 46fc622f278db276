//! The rule that the board and its readers keep, for the proofs.
ghost use Rattle.tl_publisher.specs.Rules.{AllKnow, Looks, Names, Stays, second, newcomer};

use crate::board_copy::{BoardCopy, Step};
use atomic_table::{Join, Split};
use crossbeam_utils::rule::{Outcome, Protocol};
use left_right::reader::Reader;
use left_right::writer::Writer;
use std::alloc::{Allocator, Global};
use std::marker::Model;

/// What the writer or a reader knows. No value of this type is made.
pub struct Known {}

impl Model for Known {
    ghost use Rattle.tl_publisher.specs.Rules as rules;

    ghost Value = { rules.View };

    ghost view = { λ _. rules.newcomer };
}

/// The rule: the board shows its own history, and whoever knows a book knows the board's own.
pub struct BoardRule;

impl<A: Allocator> Protocol<BoardCopy<A>, Known> for BoardRule {
    ghost holds = { AllKnow };

    ghost first = { newcomer };
}

/// The step of a reader that looks at the board.
pub(crate) struct Look;

impl<A: Allocator> Outcome<BoardCopy<A>, Known> for Look {
    ghost then = { Looks };
}

/// The step by which the writer gets to know the board's book.
pub(crate) struct Name;

impl<A: Allocator> Outcome<BoardCopy<A>, Known> for Name {
    ghost then = { Names };
}

/// The step of the writer that publishes.
pub(crate) struct Show;

impl<A: Allocator> Outcome<BoardCopy<A>, Known> for Show {
    ghost then = { Stays };
}

/// The step that lets a reader know the board's book.
pub(crate) struct Note;

impl Split<Known> for Note {
    ghost left = { λ v. v };

    ghost right = { λ v. v };
}

impl Join<Known> for Note {
    ghost both = { second };

    ghost spent = { newcomer };
}

pub(crate) type CopyWriter = Writer<BoardCopy<Global>, Step<Global>, Known, BoardRule>;

pub(crate) type CopyReader<A> = Reader<BoardCopy<A>, Known, BoardRule, A>;
