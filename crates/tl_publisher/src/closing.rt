//! Closing an operator, and the board that remains.

ghost use Rattle.std.specs.Prelude.{◌≡◌, IfErr, IfOk, IsSome, ℕ, option_map, vec_items};
ghost use Rattle.sha2.specs.Sha256.{sha256};
ghost use Rattle.tl_publisher.specs.Boards as boards;
ghost use Rattle.tl_log.specs.Histories as histories;
ghost use Rattle.tl_publisher.specs.Operating.{IsClosed, IsOperating};
ghost use Rattle.tl_sequencer.specs.Steps.{IsFirstOpen};

use crate::board_writer::BoardWriter;
use crate::fault::GetFault;
use crate::operator::{Operator, RunningLog};
use std::alloc::{Allocator, Global};
use std::marker::Model;
use std::sync::Wait;
use tl_hash::Head;
use tl_sequencer::Complete;
use tl_tile::Resource;

/// The error of `close`: some lane has not ended.
#[derive(Drop)]
pub struct OperatorBack<R: Wait + Drop> {
    /// The operator, unchanged.
    pub operator: Operator<R>,
    /// The smallest lane whose end was not taken.
    pub lane: u32,
}

impl<R: Wait + Drop> Operator<R> {
    /// Closes the log and returns it with its board, which keeps the last publication. The log is complete: it has
    /// every entry that was submitted. A proposal is dropped. If the end of some lane was not taken, `close` returns
    /// the operator unchanged, with the smallest such lane.
    pub fn close(self) -> Result<(Complete<Global, Global>, Board<R>), OperatorBack<R>>
        requires { IsOperating (⟦<Operator<R> as RunningLog>⟧.state self) }
        ensures closed { IfOk result
            (λ r. IsClosed (⟦<Operator<R> as RunningLog>⟧.state self) r.0 r.1) }
        ensures back { IfErr result (λ r. r.operator ≡ self) }
        ensures lane { IfErr result
            (λ r. IsFirstOpen (⟦<Operator<R> as RunningLog>⟧.state self).log r.lane) }
    {
        let Operator {
            alloc,
            origin,
            signers,
            witnesses,
            need,
            proposal,
            run,
        } = self;
        match run.close() {
            Ok((complete, writer)) => Ok((complete, Board { writer })),
            Err((run, lane)) => Err(OperatorBack {
                operator: Operator {
                    alloc,
                    origin,
                    signers,
                    witnesses,
                    need,
                    proposal,
                    run,
                },
                lane,
            }),
        }
    }
}

/// The board of a log that was closed. Readers can still use it. Contracts see the history that it shows.
#[derive(Drop)]
pub struct Board<R: Wait + Drop> {
    writer: BoardWriter<R>,
}

impl<R: Wait + Drop> Model for Board<R> {
    ghost use Rattle.tl_publisher.specs.Pasts as pasts;

    ghost Value = { pasts.Past };

    ghost view = { λ b. b.writer.past };
}

impl<R: Wait + Drop> Board<R> {
    /// Returns a copy of the bytes of a resource (C2SP tlog-tiles): the signed checkpoint of the last publication, or
    /// a tile or bundle, full or partial, that some publication needed. It is `None` for any other resource. It fails
    /// only if allocation fails, which can happen only if there is something to copy.
    pub fn get<B: Allocator>(
        &mut self,
        alloc: B,
        resource: &Resource,
    ) -> Result<Option<Vec<u8, B>>, GetFault>
        ensures same { self.new ≡ self.old }
        ensures answer { IfOk result
            (λ r. option_map vec_items r ≡ boards.shown sha256 resource.now self.old.log) }
        ensures memory { IfErr result (λ fault. fault ≡ GetFault.OutOfMemory) }
        ensures there { IfErr result
            (λ _. IsSome (boards.shown sha256 resource.now self.old.log)) }
    {
        let found = self.writer.get(alloc, *resource)?;
        Ok(found)
    }

    /// Returns the size and root of the last publication, or `None` if nothing was published. It never fails.
    pub fn head(&mut self) -> Result<Option<Head>, GetFault>
        ensures same { self.new ≡ self.old }
        ensures answer { IfOk result (λ r. option_map
            (λ h. (h.size, h.root)) r ≡ boards.head_if sha256 (histories.last_of self.old.log)) }
        ensures never { IfErr result (λ _. ⊥) }
    {
        Ok(self.writer.head())
    }
}
