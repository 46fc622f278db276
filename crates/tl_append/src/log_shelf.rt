//! Shelves with a log that grows in batches.

use crate::keys::LogOpeningKey;
use std::alloc::Global;
use tl_archive::Shelf;
use tl_ledger::{Found, Ledger};
use tl_run::{LogSigner, RunFault};

/// A log that was opened.
#[derive(Drop)]
pub struct OpenedLog {
    /// The ledger from which it goes on.
    pub ledger: Ledger<Global>,
    /// Whether it is due to be shown: it never was, or it is that of a proposal that is kept.
    pub is_due: bool,
}

/// A shelf with a log that grows in batches, each shown once it may be, and with a store of proposals. Contracts see
/// what is there and what is staged on the shelf, now and after each call so far, and the shelf's place.
pub trait LogShelf: Drop {
    ghost use Rattle.std.specs.Prelude.{◌≡◌, ◌⊎◌, ℕ, ◌+◌, ◌<◌, ◌^◌, ◌∷◌, [], None, Some, Option, Bool, false, true, List, length, map, vec_items, IfOk, OnErr, OnOk};
    ghost use Rattle.sha2.specs.Sha256.{sha256};
    ghost use Rattle.tl_hash.specs.Bytes.{Bytes};
    ghost use Rattle.tl_note.specs.Key.{IsKeyName};
    ghost use Rattle.tl_tile.specs.Bundle.{AreShortEntries};
    ghost use Rattle.tl_tile.specs.declared.resource.Resource.TheVariants as resource;
    ghost use Rattle.tl_archive.specs.Shelves.{Kept};
    ghost use Rattle.tl_ledger.specs.Marks.{IsWithin};
    ghost use Rattle.tl_ledger.specs.Opening.{Opens, found_size};
    ghost use Rattle.tl_ledger.specs.Spent.{LacksSpent};
    ghost use Rattle.tl_append.specs.Appending.{course};
    ghost use Rattle.tl_append.specs.Cosigning.{HasCosigned, Quorum, ShowsAtMost, ShowsBatch};
    ghost use Rattle.tl_append.specs.Keys.{opening_key_of};
    ghost use Rattle.tl_append.specs.Proposing.{HasProposal, IsNoOlder, IsProposed, IsThere};

    /// What is there, and what is staged.
    ghost kept: { Self → Kept };

    /// What is there and what is staged, after each call so far.
    ghost trace: { Self → List Kept };

    /// The shelf's place, as it was given when it was opened. No call changes that.
    ghost place: { Self → Bytes };

    /// How many entries were marked as published last.
    ghost published: { Self → Option ℕ };

    /// Whether reads are known to return what is there.
    ghost is_honest: { Bool };

    /// The witnesses that must have cosigned what is shown. No call changes that.
    ghost quorum: { Self → Quorum };

    /// Whether partial tiles and bundles are kept once full ones replace them. No call changes that.
    ghost keeps_partials: { Self → Bool };

    /// The note that may be kept as the last proposal.
    ghost may_have: { Self → Option Bytes → Type 0 };

    /// The shelf.
    type Shelf: Shelf;

    /// Returns the shelf.
    fn shelf(&self) -> &Self::Shelf
        ensures kept { Self.Shelf.kept result.now ≡ kept self.now }
        ensures trace { Self.Shelf.trace result.now ≡ trace self.now }
        ensures mark { Self.Shelf.published result.now ≡ published self.now }
        ensures place { Self.Shelf.place result.now ≡ place self.now };

    /// Opens the log, whose checkpoint opens under the verifier (C2SP tlog-checkpoint), at its checkpoint or at the
    /// proposal that is kept, whichever has more entries. `found` holds what was read. `Older`: more entries were
    /// published, and that isn't allowed. `BadCheckpoint`: the checkpoint or, if the fault names no resource, the
    /// proposal doesn't open, or belongs to another log: its origin isn't the verifier's name.
    fn open(
        &mut self,
        alloc: Global,
        verifier: LogOpeningKey,
        allows_older: bool,
        found: &mut Found<Global>,
    ) -> Result<OpenedLog, RunFault>
        ensures opens { IfOk result (λ o.
            Opens sha256 (opening_key_of verifier ∷ []) found.new o.ledger) }
        ensures newest { OnOk result (HasProposal (may_have self.old)
            (opening_key_of verifier ∷ []) (found_size found.new.head)) }
        ensures due { IfOk result (λ o. o.is_due ≡ true → (found.new.head ≡ None)
            ⊎ IsProposed (may_have self.old) (opening_key_of verifier ∷ []) found.new.head) }
        ensures shown { is_honest ≡ true → OnOk result
            (IsNoOlder ((kept self.old).held resource.Checkpoint) (opening_key_of verifier ∷ [])
            (found_size found.new.head)) }
        ensures first { IfOk result (λ o. found.new.head ≡ None → o.is_due ≡ true) }
        ensures there { is_honest ≡ true → IfOk result (λ o. o.is_due ≡ false
            → IsThere (kept self.old).held (opening_key_of verifier ∷ []) found.new.head) }
        ensures within { allows_older ≡ false → is_honest ≡ true
            → OnOk result (IsWithin (found_size found.new.head) (published self.old)) }
        ensures kept { kept self.new ≡ kept self.old }
        ensures trace { trace self.new ≡ trace self.old }
        ensures mark { published self.new ≡ published self.old }
        ensures place { place self.new ≡ place self.old }
        ensures quorum { quorum self.new ≡ quorum self.old }
        ensures keeps { keeps_partials self.new ≡ keeps_partials self.old };

    /// Puts a batch behind the log of this ledger, and shows it under a note of its checkpoint by the key, whose name
    /// is the log's, once its tiles and bundles outlast a crash and enough witnesses cosigned the note. The size is
    /// then marked, and spent partial tiles and bundles are removed unless they are kept. At a fault the ledger's
    /// size shows whether the batch was put. `Operator`: the log would have more than 2^32 - 1 entries, or too few
    /// witnesses cosigned.
    fn append<K: LogSigner>(
        &mut self,
        alloc: Global,
        key: &K,
        batch: &[Vec<u8>],
        ledger: &mut Ledger<Global>,
    ) -> Result<(), RunFault>
        requires origin { IsKeyName (K.log_key key.now).name }
        requires short { AreShortEntries (map vec_items batch.now) }
        ensures all { OnOk result (ShowsBatch (K.log_key key.now) (quorum self.old)
            (map vec_items batch.now)
            (course kept trace self.old self.new ledger.old ledger.new)) }
        ensures there { OnOk result (HasCosigned (K.log_key key.now) (quorum self.old)
            (map vec_items batch.now)
            (course kept trace self.old self.new ledger.old ledger.new)) }
        ensures part { OnErr result (ShowsAtMost (K.log_key key.now) (quorum self.old)
            (map vec_items batch.now)
            (course kept trace self.old self.new ledger.old ledger.new)) }
        ensures sized { OnOk result
            (ledger.new.edge.size ≡ ledger.old.edge.size + length batch.now) }
        ensures marked { OnOk result (published self.new ≡ Some ledger.new.edge.size) }
        ensures small { OnOk result (ledger.new.edge.size < 2 ^ 32) }
        ensures spent { keeps_partials self.old ≡ false → OnOk result (LacksSpent
            ledger.old.edge.size ledger.new.edge.size (kept self.new).held) }
        ensures place { place self.new ≡ place self.old }
        ensures quorum { quorum self.new ≡ quorum self.old }
        ensures keeps { keeps_partials self.new ≡ keeps_partials self.old };
}
