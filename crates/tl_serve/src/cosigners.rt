//! The threads that ask witnesses to cosign what a log proposes, and what waits for them.

use crate::options::AskedWitness;
use crate::shared_writer::SharedWriter;
use std::alloc::Global;
use std::io::Write;
use std::net::{Net, TcpStream};
use std::slice;
use std::sync::Wait;
use std::thread::{JoinHandle, Scope};
use std::time::{Clock, Duration};
use tl_append::{AsksCosigners, ChecksCosigned, ProposalStore};
use tl_archive::Shelf;
use tl_device::Counted;
use tl_feed::{Ballot, BallotEvent, HttpWitness, LogIdentity, ShelfReader, Unasked, ask_in_rounds};
use tl_key::CosignerVerifier;
use tl_note::Verifier;
use tl_run::{RunFault, print_text};
use tl_source::Url;

/// Proposes notes for the threads of a ballot to ask about, waits until enough witnesses have
/// cosigned, and reports why others haven't.
#[derive(Drop)]
pub(crate) struct Proposer<'b, 'w, H, L, C> {
    pub(crate) rt: &'b H,
    pub(crate) alloc: Global,
    pub(crate) ballot: &'b Ballot,
    pub(crate) asked: &'b [AskedWitness],
    pub(crate) need: usize,
    pub(crate) quorum: C,
    pub(crate) out: Counted<SharedWriter<'b, 'w, H, L>>,
}

// Returns the name that the text of a verifier key begins with.
fn name_of(text: &str) -> &str {
    match text.find('+') {
        Some(end) => &text[..end],
        None => text,
    }
}

impl<H: Wait, L: Write, C: ChecksCosigned> Proposer<'_, '_, H, L, C> {
    // Reports why a witness gave no cosignature.
    fn tell(&mut self, place: usize, why: Unasked) -> Result<(), RunFault> {
        let Some(witness) = self.asked.get(place) else {
            return Ok(());
        };
        let name = name_of(witness.key.as_str());
        let line = format!(in self.alloc; "witness {name}: {why}\n")?;
        print_text(&mut self.out, line.as_bytes())
    }

    // Waits until this many witnesses have cosigned the proposed note, and returns their lines.
    fn lines_of(&mut self, need: usize) -> Result<String, RunFault> {
        for _ in 0..u64::MAX {
            match self.ballot.wait(self.rt, need)? {
                BallotEvent::Enough(lines) => return Ok(lines),
                BallotEvent::Unasked(place, why) => self.tell(place, why)?,
                BallotEvent::Ended => break,
            }
        }
        Err(RunFault::Operator)
    }

    // Reports whether the lines behind a note make up the quorum.
    fn is_enough(&self, note: &str, lines: &str) -> Result<bool, RunFault> {
        let mut whole = String::from_str(self.alloc, note)?;
        whole.push_str(lines)?;
        match self.quorum.check(self.alloc, whole.as_str()) {
            Ok(()) => Ok(true),
            Err(RunFault::OutOfMemory) => Err(RunFault::OutOfMemory),
            Err(_) => Ok(false),
        }
    }
}

impl<H: Wait, L: Write, C: ChecksCosigned> AsksCosigners for Proposer<'_, '_, H, L, C> {
    fn ask<P: ProposalStore>(&mut self, _store: &P, note: &str) -> Result<String, RunFault> {
        // If as many as are needed don't satisfy a policy, one more is asked for; each answers again at once.
        for need in self.need..=self.asked.len().max(self.need) {
            self.ballot.propose(self.rt, note)?;
            let lines = self.lines_of(need)?;
            if self.is_enough(note, lines.as_str())? {
                return Ok(lines);
            }
        }
        Err(RunFault::Operator)
    }
}

/// What the threads of a ballot share.
#[derive(Drop)]
pub(crate) struct Asking<'b, H> {
    pub(crate) rt: &'b H,
    pub(crate) alloc: Global,
    pub(crate) ballot: &'b Ballot,
    pub(crate) origin: &'b str,
    pub(crate) log: &'b [Box<dyn Verifier>],
    pub(crate) witnesses: &'b [CosignerVerifier<Global>],
    pub(crate) urls: &'b [Url<'b>],
    pub(crate) limit: Duration,
}

/// Asks the witness at a place in each round of a ballot, with proofs from the shelf. It may wait.
pub(crate) trait AsksInRounds<P> {
    fn ask(&self, place: usize, shelf: P);
}

impl<H: Wait + Clock + Net<Stream = TcpStream>, P: Shelf + Drop> AsksInRounds<P> for Asking<'_, H> {
    fn ask(&self, place: usize, shelf: P) {
        let (Some(witness), Some(url)) = (self.witnesses.get(place), self.urls.get(place)) else {
            return;
        };
        let (rt, alloc, ballot) = (self.rt, self.alloc, self.ballot);
        let mut asker = HttpWitness::new(rt, alloc, *url, self.limit);
        let log = LogIdentity {
            origin: self.origin,
            keys: self.log,
        };
        let source = ShelfReader(shelf);
        let keys = slice::from_ref(witness);
        ask_in_rounds(rt, alloc, ballot, place, &source, &log, &mut asker, keys);
    }
}

/// Starts a thread for each witness, which reads what its proofs need from a shelf of its own. Fails with
/// `OutOfMemory` if a thread can't be started.
pub(crate) fn start_asking<'s, E, A: AsksInRounds<P> + Sync + 's, P: Send + Drop + 's>(
    scope: &'s Scope<'s, E>,
    alloc: Global,
    asker: &'s A,
    shelves: Vec<P>,
) -> Result<Vec<JoinHandle<()>>, RunFault> {
    let mut threads = Vec::new(alloc);
    for (place, shelf) in shelves.into_iter().enumerate() {
        match scope.spawn(move || asker.ask(place, shelf)) {
            Ok(thread) => threads.push(thread)?,
            Err(_) => return Err(RunFault::OutOfMemory),
        }
    }
    Ok(threads)
}
