//! A shelf in a bucket. What is staged waits in memory. Settling puts the commit, the tiles and bundles side by side,
//! and the checkpoint.

ghost use Rattle.std.specs.Prelude.{◌≡◌, [], ◌∷◌, ◌++◌, OnOk, OnErr, Some, None, IfOk, option_map, vec_items};
ghost use Rattle.tl_bucket.specs.Buckets.{SettlesObjects, bucket_kept, bucket_trace, no_objects};
ghost use Rattle.tl_bucket.specs.Inner.Puts.{shown_of};

use crate::claims::Claims;
use crate::client::Client;
use crate::fault::BucketFault;
use crate::noting::{Shown, read_object};
use crate::objects::Objects;
use crate::record::{Record, note_of};
use crate::together::PutsTogether;
use http_server::Log;
use std::alloc::Allocator;
use std::marker::Model;
use std::net::{Net, TcpStream};
use std::time::Clock;
use tl_archive::{Shelf, ShelfFault};
use tl_device::DeviceFault;
use tl_folder::{CallOutcome, CrashOutcome};
use tl_tile::Resource;

/// A bucket with a log in the layout of C2SP tlog-tiles: the path of each resource is that of its object. If a
/// settling fails, each later staging and settling fails with its fault: how much of it is there isn't known, and the
/// next start finds out. Nothing is ever removed. The checkpoint that it reads is the one that was there when it was
/// opened, or that it put since: a store may answer with an older one later.
#[derive(Drop)]
pub struct BucketShelf<'b, D, H> {
    disk: D,
    pub(crate) objects: Objects<'b, H>,
    reads_anew: bool,
    calls: Record,
    failures: u64,
    place: Log<(), u8>,
    published: Option<u64>,
}

impl<'b, D, H> Model for BucketShelf<'b, D, H> {
    ghost use Rattle.tl_folder.specs.Events.{noted};
    ghost use Rattle.tl_bucket.specs.Buckets as seen;

    ghost Value = { seen.Bucketed };

    ghost view = { λ s. record {
      objects = s.objects;
      reads_anew = s.reads_anew;
      place = noted s.place;
      events = s.calls;
      failures = s.failures;
      published = s.published;
    } };
}

// Returns the fault of a shelf, over a resource or over all of the bucket.
fn fault_over(resource: Option<Resource>, fault: BucketFault) -> ShelfFault
    ensures { result.resource ≡ resource }
{
    ShelfFault {
        resource,
        why: fault.of_shelf(),
    }
}

// Copies these bytes, if there are any.
fn copy_of<A: Allocator>(alloc: A, bytes: Option<&[u8]>) -> Result<Option<Vec<u8, A>>, BucketFault>
    ensures { IfOk result (λ copy.
        option_map vec_items copy ≡ option_map (λ text. text.now) bytes.entry) }
{
    match bytes {
        Some(bytes) => Ok(Some(Vec::from_slice(alloc, bytes)?)),
        None => Ok(None),
    }
}

impl<'b, D: CrashOutcome + Drop, H: Net<Stream = TcpStream> + Clock> BucketShelf<'b, D, H> {
    /// Creates a shelf of the bucket that the client reaches, by this address. Its log goes as far as the claims do,
    /// and has this checkpoint, if any. `reads_anew`: the checkpoint is read anew each time.
    pub(crate) fn new(
        disk: D,
        client: Client<'b, H>,
        address: &str,
        claims: Claims,
        shown: Option<Shown>,
        reads_anew: bool,
    ) -> BucketShelf<'b, D, H>
        ensures objects { result.objects
            ≡ no_objects client.entry claims (option_map shown_of shown) }
        ensures reads { result.reads_anew ≡ reads_anew }
        ensures place { result.place ≡ address.now }
        ensures events { result.events ≡ [] }
        ensures unmarked { result.published ≡ None }
    {
        BucketShelf {
            disk,
            objects: Objects::new(client, claims, shown),
            reads_anew,
            calls: Record::new(),
            failures: 0,
            place: note_of(address.as_bytes()),
            published: None,
        }
    }

    /// Returns how many entries commits append.
    pub fn committed(&self) -> u64
        ensures { result ≡ self.now.objects.claims.start }
    {
        self.objects.claims.start()
    }

    /// Returns why a settling failed, if one did.
    pub fn fault(&self) -> Option<BucketFault> {
        self.objects.fault
    }

    /// Makes each later staging and settling fail.
    pub(crate) fn fail(&mut self, fault: BucketFault)
        ensures objects { self.new.objects ≡ self.old.objects }
        ensures events { self.new.events ≡ self.old.events }
        ensures place { self.new.place ≡ self.old.place }
    {
        self.objects.fault = Some(fault);
    }
}

impl<D: CrashOutcome + PutsTogether, H: Net<Stream = TcpStream> + Clock> Shelf
    for BucketShelf<'_, D, H> {
    ghost use Rattle.std.specs.Prelude.{false, true, IfErr, IfOk};
    ghost use Rattle.tl_tile.specs.declared.resource.Resource.TheVariants.{Checkpoint};
    ghost use Rattle.tl_archive.specs.Partials.{IsFull};
    ghost use Rattle.tl_archive.specs.Shelves.{Stages, Unstages, Settles, Removes, LacksPartials, Fails};
    ghost use Rattle.tl_tile.specs.Path.{IsResource};
    ghost use Rattle.tl_bucket.specs.Buckets.{KeepsBytes};

    ghost kept = { λ s. bucket_kept D.held D.reached s };

    ghost trace = { λ s. bucket_trace D.held D.reached s };

    ghost faults = { λ s. s.failures };

    ghost place = { λ s. s.place };

    ghost published = { λ s. s.published };

    ghost may_fail = { λ s r fault. fault.resource ≡ Some r };

    ghost is_honest = { false };

    fn stage(&mut self, resource: &Resource, bytes: &[u8]) -> Result<(), ShelfFault>
        requires { IsResource resource.now }
        ensures staged { OnOk result (Stages (bucket_kept D.held D.reached self.old)
            (bucket_kept D.held D.reached self.new) resource.now bytes.now) }
        ensures unstaged { OnErr result
            (bucket_kept D.held D.reached self.new ≡ bucket_kept D.held D.reached self.old) }
        ensures unfailed { OnOk result (self.new.failures ≡ self.old.failures) }
        ensures failed { OnErr result (Fails self.old.failures self.new.failures) }
        ensures trace { bucket_trace D.held D.reached self.new
            ≡ bucket_trace D.held D.reached self.old ++ bucket_kept D.held D.reached self.new ∷ [] }
        ensures keeps { OnOk result (KeepsBytes resource.now bytes.now
            self.old.objects self.new.objects) }
        ensures place { self.new.place ≡ self.old.place }
        ensures mark { self.new.published ≡ self.old.published }
    {
        match self.objects.keep(resource, bytes) {
            Ok(()) => {
                self.calls.note(CallOutcome::Staged(*resource), bytes);
                Ok(())
            }
            Err(fault) => {
                self.calls.note(CallOutcome::Failed, &[]);
                self.failures = self.failures.saturating_add(1);
                Err(fault_over(Some(*resource), fault))
            }
        }
    }

    fn settle(&mut self) -> Result<(), ShelfFault>
        ensures unstaged { Unstages (bucket_kept D.held D.reached self.old)
            (bucket_kept D.held D.reached self.new) }
        ensures settled { OnOk result (Settles (bucket_kept D.held D.reached self.old)
            (bucket_kept D.held D.reached self.new)) }
        ensures unfailed { OnOk result (self.new.failures ≡ self.old.failures) }
        ensures failed { OnErr result (Fails self.old.failures self.new.failures) }
        ensures trace { bucket_trace D.held D.reached self.new
            ≡ bucket_trace D.held D.reached self.old ++ bucket_kept D.held D.reached self.new ∷ [] }
        ensures there { OnOk result (SettlesObjects self.old.objects self.new.objects) }
        ensures place { self.new.place ≡ self.old.place }
        ensures mark { self.new.published ≡ self.old.published }
    {
        match self.objects.settle(&self.disk) {
            Ok(()) => {
                self.calls.note(CallOutcome::Settled, &[]);
                Ok(())
            }
            Err(fault) => {
                self.calls.note(CallOutcome::Cut, &[]);
                self.failures = self.failures.saturating_add(1);
                Err(fault_over(None, fault))
            }
        }
    }

    // Always fails: a bucket keeps all. Readers may come late, and no operator knows what another one still reads.
    fn remove_partials(&mut self, full: &Resource) -> Result<(), ShelfFault>
        requires { IsFull full.now }
        ensures removed { Removes full.now (bucket_kept D.held D.reached self.old)
            (bucket_kept D.held D.reached self.new) }
        ensures objects { self.new.objects ≡ self.old.objects }
        ensures none { OnOk result
            (LacksPartials full.now (bucket_kept D.held D.reached self.new).held) }
        ensures unfailed { OnOk result (self.new.failures ≡ self.old.failures) }
        ensures failed { OnErr result (Fails self.old.failures self.new.failures) }
        ensures trace { bucket_trace D.held D.reached self.new
            ≡ bucket_trace D.held D.reached self.old ++ bucket_kept D.held D.reached self.new ∷ [] }
        ensures place { self.new.place ≡ self.old.place }
        ensures mark { self.new.published ≡ self.old.published }
    {
        self.calls.note(CallOutcome::Failed, &[]);
        self.failures = self.failures.saturating_add(1);
        Err(fault_over(Some(*full), BucketFault::Device(DeviceFault::Denied)))
    }

    // Puts nothing: commits show how far the log goes.
    fn mark_published(&mut self, size: u64) -> Result<(), ShelfFault>
        ensures kept { bucket_kept D.held D.reached self.new ≡ bucket_kept D.held D.reached self.old }
        ensures objects { self.new.objects ≡ self.old.objects }
        ensures marked { OnOk result (self.new.published ≡ Some size) }
        ensures unfailed { OnOk result (self.new.failures ≡ self.old.failures) }
        ensures failed { OnErr result (Fails self.old.failures self.new.failures) }
        ensures trace { bucket_trace D.held D.reached self.new
            ≡ bucket_trace D.held D.reached self.old ++ bucket_kept D.held D.reached self.new ∷ [] }
        ensures place { self.new.place ≡ self.old.place }
    {
        self.calls.note(CallOutcome::Marked, &[]);
        self.published = Some(size);
        Ok(())
    }

    fn read_mark(&self) -> Result<Option<u64>, ShelfFault> {
        Ok(self.published)
    }

    fn read<A: Allocator>(
        &self,
        alloc: A,
        resource: &Resource,
    ) -> Result<Option<Vec<u8, A>>, ShelfFault>
        requires { IsResource resource.now }
        ensures found { false ≡ true → IfOk result (λ found. option_map vec_items found
            ≡ (bucket_kept D.held D.reached self.now).held resource.now) }
        ensures failed { IfErr result (λ fault. fault.resource ≡ Some resource.now) }
        ensures shown { resource.now ≡ Checkpoint → self.now.reads_anew ≡ false
            → IfOk result (λ found. option_map vec_items found
            ≡ option_map (λ shown. shown.note) self.now.objects.shown) }
    {
        let found = match resource {
            Resource::Checkpoint if !self.reads_anew => copy_of(alloc, self.objects.note_shown()),
            _ => read_object(alloc, &self.objects.client, resource),
        };
        match found {
            Ok(found) => Ok(found),
            Err(fault) => Err(fault_over(Some(*resource), fault)),
        }
    }
}
