//! Opening an operator.

ghost use Rattle.std.specs.Prelude.{◌≡◌, ◌≤◌, ◌<◌, ◌^◌, ◌↔◌, ℕ, [], IfErr, IfOk, IsTrue, MatchOption, map};
ghost use Rattle.sha2.specs.Sha256.{sha256};
ghost use Rattle.tl_publisher.specs.Grown.{IsGrown};
ghost use Rattle.tl_publisher.specs.Inner.Opening.{IsBegun, IsWant};
ghost use Rattle.tl_publisher.specs.Operating.{HaveSeen, IsNew, IsOperating};
ghost use Rattle.tl_publisher.specs.Publishing.{MayOpenAll, OpenRefusesOperator};
ghost use Rattle.tl_publisher.specs.Signed.{AreSigners};
ghost use Rattle.tl_sequencer.specs.Log.{entries_of};
ghost use Rattle.tl_text.specs.Text.{IsOneLine};

use crate::fault::OperatorFault;
use crate::growth::Growth;
use crate::operator::{OpenedLog, Operator, RunningLog};
use crate::reader::BoardReader;
use crate::run::Run;
use std::alloc::Global;
use std::sync::Wait;
use tl_note::{Signer, first_bad_name};
use tl_sequencer::{OpenFault, Sequencer};
use tl_text::is_one_line;

const MOST_SIGNERS: usize = 100;

const MOST_READERS: u32 = 64;

// Reports whether there are 1 to 100 signers, each with a valid key name.
fn are_signers(signers: &[Box<dyn Signer>]) -> bool
    ensures { IsTrue result ↔ AreSigners (map (λ s. signing_key s) signers.now) }
{
    let count = signers.len();
    if count < 1 || count > MOST_SIGNERS {
        return false;
    }
    match first_bad_name(signers) {
        Some(_place) => false,
        None => true,
    }
}

// Returns what is wrong with the origin, the signers or the number of readers.
pub(crate) fn first_wrong(
    origin: &str,
    signers: &[Box<dyn Signer>],
    readers: u32,
) -> Option<OperatorFault>
    ensures { MatchOption result
        (MayOpenAll origin.now (map (λ s. signing_key s) signers.now) readers)
        (λ fault. (lanes capacity limit : ℕ) → OpenRefusesOperator origin.now
        (map (λ s. signing_key s) signers.now) lanes capacity limit readers fault) }
{
    if !is_one_line(origin) {
        return Some(OperatorFault::Origin);
    }
    if !are_signers(signers) {
        return Some(OperatorFault::Signers);
    }
    if readers < 1 || readers > MOST_READERS {
        return Some(OperatorFault::Readers);
    }
    None
}

// Returns `count` readers that have seen all publications so far.
fn readers_of<R: Wait + Drop>(
    alloc: Global,
    run: &mut Run<R>,
    count: u32,
) -> Result<Vec<BoardReader<Global>>, OperatorFault>
    ensures same { run.new ≡ run.old }
    ensures readers { IfOk result (λ all. HaveSeen run.old.past count all.items) }
    ensures refused { IfErr result IsWant }
{
    let mut all = Vec::with_capacity(alloc, count as usize)?;
    for _reader in 0..count {
        let Ok(reader) = run.reader() else {
            return Err(OperatorFault::Place);
        };
        all.push_reserved(reader);
    }
    Ok(all)
}

// Returns an operator of this log, of which nothing is published, with its readers.
pub(crate) fn begin<R: Wait + Drop>(
    rt: R,
    alloc: Global,
    origin: &str,
    signers: Vec<Box<dyn Signer>>,
    log: Sequencer<Global, Global>,
    growth: Growth<Global>,
    readers: u32,
) -> Result<(Operator<R>, Vec<BoardReader<Global>>), OperatorFault>
    requires origin { IsOneLine origin.now }
    requires signers { AreSigners (map (λ s. signing_key s) signers.items) }
    requires grown { IsGrown sha256 0 (entries_of log) growth }
    requires few { log.limit < 2 ^ 32 }
    requires readers { (1 ≤ readers) × (readers ≤ 64) }
    ensures log { IfOk result (λ r. (⟦<Operator<R> as RunningLog>⟧.state r.0).log ≡ log) }
    ensures begun { IfOk result (λ r. IsBegun origin.now
        (map (λ s. signing_key s) signers.items) (⟦<Operator<R> as RunningLog>⟧.state r.0)) }
    ensures operating { IfOk result (λ r. IsOperating (⟦<Operator<R> as RunningLog>⟧.state r.0)) }
    ensures readers { IfOk result
        (λ r. HaveSeen (⟦<Operator<R> as RunningLog>⟧.state r.0).past readers r.1.items) }
    ensures refused { IfErr result IsWant }
{
    let origin = String::from_str(alloc, origin)?;
    let mut run = Run::open(rt, alloc, log, growth, readers as usize)?;
    let all = readers_of(alloc, &mut run, readers)?;
    let operator = Operator {
        alloc,
        origin,
        signers,
        witnesses: Vec::new(alloc),
        need: 0,
        proposal: None,
        run,
    };
    Ok((operator, all))
}

impl<R: Wait + Drop> Operator<R> {
    /// Opens an empty log of at most `limit` entries. It has `lanes` lanes (1 to 64), each with a ring of `capacity`
    /// entries. The origin must be one line, and there must be 1 to 100 signers (C2SP tlog-checkpoint, signed-note).
    /// Returns the operator, a submitter for each lane in order, and `readers` readers (1 to 64). Nothing is
    /// published yet.
    ///
    /// If several faults apply, the first is returned. `Place` and `OutOfMemory` come only if no other applies.
    pub fn open(
        rt: R,
        alloc: Global,
        origin: &str,
        signers: Vec<Box<dyn Signer>>,
        lanes: u32,
        capacity: usize,
        limit: u64,
        readers: u32,
    ) -> Result<OpenedLog<R>, OperatorFault>
        ensures opened { IfOk result (λ r. IsNew origin.now (map (λ s. signing_key s) signers.items)
            [] lanes capacity limit (⟦<Operator<R> as RunningLog>⟧.state r.0) r.1.items) }
        ensures operating { IfOk result
            (λ r. IsOperating (⟦<Operator<R> as RunningLog>⟧.state r.0)) }
        ensures readers { IfOk result
            (λ r. HaveSeen (⟦<Operator<R> as RunningLog>⟧.state r.0).past readers r.2.items) }
        ensures refused { IfErr result (λ fault. OpenRefusesOperator origin.now
            (map (λ s. signing_key s) signers.items) lanes capacity limit readers fault) }
    {
        if let Some(fault) = first_wrong(origin, signers.as_slice(), readers) {
            return Err(fault);
        }
        let (log, submitters) = match tl_sequencer::open(alloc, lanes, capacity, limit) {
            Ok(opened) => opened,
            Err(OpenFault::OutOfMemory) => return Err(OperatorFault::OutOfMemory),
            Err(fault) => return Err(OperatorFault::Lanes(fault)),
        };
        let growth = Growth::new(alloc);
        let (operator, all) = begin(rt, alloc, origin, signers, log, growth, readers)?;
        Ok((operator, submitters, all))
    }
}
