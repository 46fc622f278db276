//! Finishing commits that another run began.

ghost use Rattle.std.specs.Prelude.{◌≡◌, IfOk, IsTrue, OnOk, map, vec_items};
ghost use Rattle.tl_append.specs.Appending.{course};
ghost use Rattle.tl_bucket.specs.Buckets.{bucket_kept, bucket_trace};
ghost use Rattle.tl_bucket.specs.Claims.{no_claims_of_other};
ghost use Rattle.tl_bucket.specs.Commits.{Commit as Committed};
ghost use Rattle.tl_bucket.specs.Finishing.{Finishes, FinishesLog, FinishesOne, IsFirstBehind};
ghost use Rattle.tl_bucket.specs.Finishing.{ShowsSize};
ghost use Rattle.tl_bucket.specs.Opened.{WasReadAs};
ghost use Rattle.tl_note.specs.Key.{IsKeyName};
ghost use Rattle.tl_tile.specs.Bundle.{AreShortEntries};

use crate::client::{Client, Connection};
use crate::commit::Commit;
use crate::fault::BucketFault;
use crate::noting::size_told;
use crate::opening::{has_commit, read_numbered};
use crate::shelf::BucketShelf;
use crate::together::PutsTogether;
use std::alloc::Global;
use std::fs::Files;
use std::net::{Net, TcpStream};
use std::time::Clock;
use tl_append::{NoProposals, OperatorKeys, append_batch, keys_of, open_ledger};
use tl_folder::CrashOutcome;
use tl_ledger::{Found, Ledger};
use tl_note::is_key_name;
use tl_run::{LogKey, LogSigner, Place, RunFault};

impl<D: CrashOutcome + PutsTogether + Drop, H: Net<Stream = TcpStream> + Clock> BucketShelf<
    '_,
    D,
    H,
> {
    // Makes each later staging and settling fail, and returns the fault.
    fn failed(&mut self, fault: BucketFault) -> RunFault
        ensures events { self.new.events ≡ self.old.events }
        ensures place { self.new.place ≡ self.old.place }
    {
        self.fail(fault);
        RunFault::of_device(Place::Log(None), fault.of_shelf())
    }

    // Reports whether the checkpoint that is there states the size of all that is committed.
    fn shows_all(&self) -> bool
        ensures { IsTrue result → ShowsSize self.now.objects.shown self.now.objects.claims.start }
    {
        let Some(note) = self.objects.note_shown() else {
            return false;
        };
        match size_told(note) {
            Some(told) if told == self.objects.claims.start() => true,
            _ => false,
        }
    }

    // Returns the number of the first commit that comes after at least `size` entries: if there is none, the number
    // after the last.
    fn first_behind(&self, size: u64) -> Result<u64, BucketFault>
        ensures { IfOk result
            (IsFirstBehind self.now.objects.at size self.now.objects.claims.number) }
    {
        let mut connection = Connection::new();
        let mut number = self.objects.claims.number();
        for _ in 0..u64::MAX {
            if number <= 1 {
                return Ok(number);
            }
            let commit = read_numbered(&self.objects.client, &mut connection, number - 1)?;
            if commit.start < size {
                return Ok(number);
            }
            number -= 1;
        }
        Err(BucketFault::BadCommit(number))
    }

    // Returns the entries of the commit with this number, which has to come after `size` entries. They are put next.
    fn take_entries(
        &mut self,
        client: &Client<'_, H>,
        number: u64,
        size: u64,
    ) -> Result<Vec<Vec<u8>>, BucketFault>
        ensures short { IfOk result (λ entries. AreShortEntries (map vec_items entries.items)) }
        ensures claimed { IfOk result (λ entries. (c : Committed) × WasReadAs client.now number c
            × (c.start ≡ size) × (c.entries ≡ map vec_items entries.items)
            × (self.new.objects.claims
            ≡ no_claims_of_other number size self.old.objects.claims.token c.token)) }
        ensures events { self.new.events ≡ self.old.events }
        ensures place { self.new.place ≡ self.old.place }
    {
        let commit = read_numbered(client, &mut Connection::new(), number)?;
        let Commit {
            start,
            token,
            entries,
        } = commit;
        if start != size {
            return Err(BucketFault::BadCommit(number));
        }
        self.objects.claims.finish(number, size, token);
        Ok(entries)
    }

    // Puts and shows what the commit with this number appends.
    fn finish_one<K: LogSigner>(
        &mut self,
        alloc: Global,
        client: &Client<'_, H>,
        key: &K,
        number: u64,
        ledger: &mut Ledger<Global>,
    ) -> Result<(), RunFault>
        requires origin { IsKeyName (K.log_key key.now).name }
        ensures finishes { FinishesOne (K.log_key key.now) client.now number
            (course (bucket_kept D.held D.reached) (bucket_trace D.held D.reached)
            self.old self.new ledger.old ledger.new) result }
        ensures place { self.new.place ≡ self.old.place }
    {
        let entries = match self.take_entries(client, number, ledger.size()) {
            Ok(entries) => entries,
            Err(fault) => return Err(self.failed(fault)),
        };
        match append_batch(alloc, key, entries.as_slice(), true, self, ledger) {
            Ok(()) => Ok(()),
            Err(fault) => Err(fault),
        }
    }

    /// Puts and shows what commits append behind the log of this ledger, which was shown, each under a note of its
    /// checkpoint by the key, whose name is the log's. Other operators may do the same meanwhile, and put the same
    /// bytes.
    pub fn finish<K: LogSigner>(
        &mut self,
        alloc: Global,
        key: &K,
        ledger: &mut Ledger<Global>,
    ) -> Result<(), RunFault>
        requires origin { IsKeyName (K.log_key key.now).name }
        ensures finishes { Finishes (K.log_key key.now) self.old.objects.at
            self.old.objects.claims.number (course (bucket_kept D.held D.reached)
            (bucket_trace D.held D.reached) self.old self.new ledger.old ledger.new) result }
        ensures even { OnOk result (ledger.new.edge.size ≡ self.new.objects.claims.start) }
        ensures place { self.new.place ≡ self.old.place }
    {
        let client = self.objects.client.again();
        let end = self.objects.claims.number();
        let first = match self.first_behind(ledger.size()) {
            Ok(first) => first,
            Err(fault) => return Err(self.failed(fault)),
        };
        for number in first..end {
            match self.finish_one(alloc, &client, key, number, ledger) {
                Ok(()) => {}
                Err(fault) => return Err(fault),
            }
        }
        self.check_size(ledger.size())
    }

    // Returns why the log that is shown has another size than the commits append. `Outrun`: it has more, and there is
    // a commit after those that were found, because another operator went on meanwhile.
    fn why_uneven(&self, size: u64) -> BucketFault {
        let (number, start) = (self.objects.claims.number(), self.objects.claims.start());
        if size < start {
            return BucketFault::BadCommit(number);
        }
        match has_commit(&self.objects.client, &mut Connection::new(), number) {
            Ok(true) => BucketFault::Outrun,
            Ok(false) => BucketFault::BadCommit(number),
            Err(fault) => fault,
        }
    }

    // Checks that the log that is shown has as many entries as the commits append.
    fn check_size(&mut self, size: u64) -> Result<(), RunFault>
        ensures events { self.new.events ≡ self.old.events }
        ensures place { self.new.place ≡ self.old.place }
        ensures same { OnOk result (size ≡ self.old.objects.claims.start) }
        ensures unchanged { OnOk result (self.new ≡ self.old) }
    {
        if size == self.objects.claims.start() {
            return Ok(());
        }
        let fault = self.why_uneven(size);
        Err(self.failed(fault))
    }
}

/// Finishes the commits of the log of this name in a bucket: puts and shows what they append, under this key, which
/// has to open the log's checkpoint. If the checkpoint states the size of all of them, nothing more is read.
/// `BadOrigin`: no key can have this name.
pub fn finish_log<
    F: Files,
    D: CrashOutcome + PutsTogether + Drop,
    H: Net<Stream = TcpStream> + Clock,
>(
    rt: &F,
    alloc: Global,
    origin: &str,
    key: &LogKey,
    shelf: &mut BucketShelf<'_, D, H>,
) -> Result<(), RunFault>
    ensures finishes { FinishesLog D.held D.reached key.now origin.now shelf.old shelf.new result }
    ensures place { shelf.new.place ≡ shelf.old.place }
{
    if !is_key_name(origin) {
        return Err(RunFault::BadOrigin);
    }
    let OperatorKeys { signer, verifier } = match keys_of(rt, alloc, origin, key) {
        Ok(keys) => keys,
        Err(fault) => return Err(fault),
    };
    if shelf.shows_all() {
        return Ok(());
    }
    let mut found = Found::new(alloc);
    let opened = match open_ledger(alloc, verifier, true, shelf, &NoProposals, &mut found) {
        Ok(opened) => opened,
        Err(fault) => return Err(fault),
    };
    let mut ledger = opened.ledger;
    shelf.finish(alloc, &signer, &mut ledger)
}
