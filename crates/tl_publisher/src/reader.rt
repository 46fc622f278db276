//! A reader of the board.
ghost use Rattle.std.specs.Prelude.{◌≡◌, ◌<◌, Some, None, IfErr, IfOk, IsSome, MatchBool, length, option_map};
ghost use Rattle.left_right.specs.Sides.{view};
ghost use Rattle.sha2.specs.Sha256.{sha256};
ghost use Rattle.tl_publisher.specs.Boards as boards;
ghost use Rattle.tl_log.specs.Histories.{StartsWith, last_of};
ghost use Rattle.tl_publisher.specs.Pasts.{Grew};
ghost use Rattle.tl_publisher.specs.Rules.{knows};
ghost use Rattle.tl_publisher.specs.Stages as stages;
ghost use Rattle.tl_publisher.specs.Answers.{AnswersBytes, AnswersHead, Sees};

use crate::board_copy::BoardCopy;
use crate::fault::GetFault;
use crate::past::Past;
use crate::published::Published;
use crate::rule::{CopyReader, Look};
use core::mem::replace_with;
use std::alloc::{AllocError, Allocator};
use std::marker::Model;
use tl_hash::Head;
use tl_tile::Resource;

/// Reads the board and never waits. Contracts see the history of publications that it has seen.
#[derive(Drop)]
pub struct BoardReader<A: Allocator> {
    reader: CopyReader<A>,
    past: Past,
}

impl<A: Allocator> Model for BoardReader<A> {
    ghost use Rattle.std.specs.Prelude.{◌≡◌};
    ghost use Rattle.left_right.specs.Sides as sides;
    ghost use Rattle.tl_publisher.specs.Pasts as pasts;
    ghost use Rattle.tl_publisher.specs.Rules.{knows};

    ghost Value = { pasts.Past };

    ghost view = { λ r. r.past };

    ghost invariant = { λ r. sides.view r.reader.place ≡ knows r.past.book };
}

// Continues with the history that the copy shows and returns true, unless it is shorter than what was seen.
fn follow<A: Allocator>(past: &mut Past, copy: &BoardCopy<A>) -> bool
    requires shown { stages.IsShown sha256 (stages.visible copy.now) }
    requires book { copy.now.past.book ≡ past.old.book }
    ensures { MatchBool result ((past.new ≡ copy.now.past) × Sees past.old past.new)
        ((past.new ≡ past.old) × (length copy.now.past.log < length past.old.log)) }
{
    past.follow(copy.past())
}

/// Returns a copy of the bytes that the board shows for a resource.
pub(crate) fn bytes_of<A: Allocator, B: Allocator>(
    copy: &BoardCopy<A>,
    alloc: B,
    resource: Resource,
) -> Result<Option<Vec<u8, B>>, AllocError>
    requires { stages.IsShown sha256 (stages.visible copy.now) }
    ensures bytes { IfOk result
        (λ r. option_map (λ v. v.items) r ≡ boards.shown sha256 resource copy.now.past.log) }
    ensures memory { IfErr result (λ _. IsSome (boards.shown sha256 resource copy.now.past.log)) }
{
    match copy.found(resource) {
        Some(bytes) => Ok(Some(Vec::from_slice(alloc, bytes)?)),
        None => Ok(None),
    }
}

// Looks once at the bytes of a resource.
fn look<A: Allocator, B: Allocator>(
    reader: BoardReader<A>,
    ask: (B, Resource),
) -> (BoardReader<A>, Result<Option<Vec<u8, B>>, GetFault>)
    ensures { AnswersBytes (boards.shown sha256 ask.1 result.0.log) reader result.0 result.1 }
{
    let (alloc, resource) = ask;
    let BoardReader { reader, past } = reader;
    let mut past = past;
    match reader.enter_as::<Look>() {
        Ok(reading) => {
            let copy = reading.get();
            let follows = follow(&mut past, copy);
            let bytes = bytes_of(copy, alloc, resource);
            let reader = BoardReader {
                reader: reading.leave(),
                past,
            };
            if !follows {
                return (reader, Err(GetFault::Gone));
            }
            match bytes {
                Ok(bytes) => (reader, Ok(bytes)),
                Err(_) => (reader, Err(GetFault::OutOfMemory)),
            }
        }
        Err(reader) => (BoardReader { reader, past }, Err(GetFault::Gone)),
    }
}

// Looks once at the size and root.
fn look_ahead<A: Allocator>(
    reader: BoardReader<A>,
    _nothing: (),
) -> (BoardReader<A>, Result<Option<Head>, GetFault>)
    ensures { AnswersHead (boards.head_if sha256 (last_of result.0.log)) reader result.0 result.1 }
{
    let BoardReader { reader, past } = reader;
    let mut past = past;
    match reader.enter_as::<Look>() {
        Ok(reading) => {
            let copy = reading.get();
            let follows = follow(&mut past, copy);
            let head = copy.head();
            let reader = BoardReader {
                reader: reading.leave(),
                past,
            };
            if !follows {
                return (reader, Err(GetFault::Gone));
            }
            (reader, Ok(head))
        }
        Err(reader) => (BoardReader { reader, past }, Err(GetFault::Gone)),
    }
}

impl<A: Allocator> BoardReader<A> {
    pub(crate) fn new(reader: CopyReader<A>, past: Past) -> BoardReader<A>
        requires { view reader.place ≡ knows past.book }
        ensures { result ≡ past }
    {
        BoardReader { reader, past }
    }

    /// Returns a copy of the bytes of a resource (C2SP tlog-tiles), or `None` if no publication needed it. `Gone`
    /// means that the board is gone; then nothing changes. `OutOfMemory` comes only if there is something to copy.
    pub fn get<B: Allocator>(
        &mut self,
        alloc: B,
        resource: &Resource,
    ) -> Result<Option<Vec<u8, B>>, GetFault>
        ensures { AnswersBytes
            (boards.shown sha256 resource.now self.new.log) self.old self.new result }
    {
        replace_with(self, (alloc, *resource), look)
    }

    /// Returns the size and root of the last publication, or `None` if there is none. It allocates nothing. `Gone`
    /// means that the board is gone.
    pub fn head(&mut self) -> Result<Option<Head>, GetFault>
        ensures { AnswersHead
            (boards.head_if sha256 (last_of self.new.log)) self.old self.new result }
    {
        replace_with(self, (), look_ahead)
    }

    /// Makes the reader show at least this publication from now on.
    pub fn learn(&mut self, published: &Published)
        requires { published.now.book ≡ self.old.book }
        ensures seen { Grew self.old self.new }
        ensures published { StartsWith self.new.log published.now.log }
    {
        self.past.learn(published.past());
    }
}
