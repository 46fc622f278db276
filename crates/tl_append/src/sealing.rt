//! Making the note that is shown of a log's own note.

ghost use Rattle.std.specs.Prelude.{◌≡◌, ◌++◌, string_bytes, IfOk, OnOk};
ghost use Rattle.tl_hash.specs.Bytes.{Bytes};
ghost use Rattle.tl_append.specs.Cosigning.{HasQuorum};

use crate::cosigners::{AsksCosigners, ChecksCosigned};
use crate::proposal::ProposalStore;
use std::alloc::Global;
use tl_run::RunFault;

/// Makes the note that is shown of a log's own note.
pub trait SealsNotes {
    ghost use Rattle.std.specs.Prelude.{◌≡◌, ◌++◌, string_bytes, IfOk};
    ghost use Rattle.tl_hash.specs.Bytes.{Bytes};
    ghost use Rattle.tl_append.specs.Cosigning.{HasQuorum, Quorum};

    /// The witnesses that must have cosigned what is shown. No call changes that.
    ghost quorum: { Self → Quorum };

    /// Returns the note with lines behind it by which enough witnesses cosigned it (C2SP tlog-cosignature). It may
    /// wait for them. `Operator`: too few did.
    fn seal<P: ProposalStore>(
        &mut self,
        alloc: Global,
        store: &mut P,
        note: String,
    ) -> Result<String, RunFault>
        ensures lines { IfOk result (λ text. (lines : Bytes)
            × (string_bytes text ≡ string_bytes note ++ lines)) }
        ensures quorum { IfOk result (λ text. HasQuorum (quorum self.old) (string_bytes text)) }
        ensures same { quorum self.new ≡ quorum self.old };
}

/// A sealer without witnesses: the note is shown as the log signed it.
#[derive(Clone, Copy, Debug, PartialEq, Eq)]
pub struct AsSigned;

impl SealsNotes for AsSigned {
    ghost use Rattle.std.specs.Prelude.{[], None};

    ghost quorum = { λ _. record { witnesses = []; need = 0; policy = None } };

    fn seal<P: ProposalStore>(
        &mut self,
        _alloc: Global,
        _store: &mut P,
        note: String,
    ) -> Result<String, RunFault> {
        Ok(note)
    }
}

/// A sealer that asks witnesses and checks their answers. The note is kept as a proposal before any witness is asked.
#[derive(Drop)]
pub struct Cosigners<Q, C> {
    asker: Q,
    quorum: C,
}

impl<Q: AsksCosigners, C: ChecksCosigned> Cosigners<Q, C> {
    ghost use Rattle.std.specs.Prelude.{◌≡◌};

    /// Creates a sealer that asks by `asker` and checks by `quorum`.
    pub fn new(asker: Q, quorum: C) -> Cosigners<Q, C>
        ensures { ⟦<Cosigners<Q, C> as SealsNotes>⟧.quorum result ≡ C.quorum quorum }
    {
        Cosigners { asker, quorum }
    }
}

impl<Q: AsksCosigners, C: ChecksCosigned> SealsNotes for Cosigners<Q, C> {
    ghost quorum = { λ s. C.quorum s.quorum };

    fn seal<P: ProposalStore>(
        &mut self,
        alloc: Global,
        store: &mut P,
        note: String,
    ) -> Result<String, RunFault> {
        match cosign(alloc, store, &mut self.asker, &self.quorum, note) {
            Ok(text) => Ok(text),
            Err(fault) => Err(fault),
        }
    }
}

// Keeps a note as a proposal, and returns it with lines behind it by which enough witnesses cosigned it.
fn cosign<P: ProposalStore, Q: AsksCosigners, C: ChecksCosigned>(
    alloc: Global,
    store: &mut P,
    asker: &mut Q,
    quorum: &C,
    note: String,
) -> Result<String, RunFault>
    ensures lines { IfOk result (λ text. (lines : Bytes)
        × (string_bytes text ≡ string_bytes note ++ lines)) }
    ensures quorum { IfOk result
        (λ text. HasQuorum (C.quorum quorum.now) (string_bytes text)) }
    ensures kept { OnOk result (P.has_kept store.new (string_bytes note)) }
{
    match store.keep(note.as_str()) {
        Ok(()) => {}
        Err(fault) => return Err(fault),
    }
    let lines = match asker.ask(store, note.as_str()) {
        Ok(lines) => lines,
        Err(fault) => return Err(fault),
    };
    let mut text = note;
    text.push_str(lines.as_str())?;
    match quorum.check(alloc, text.as_str()) {
        Ok(()) => Ok(text),
        Err(fault) => Err(fault),
    }
}
