//! Putting side by side, by workers that each have a connection of their own.

ghost use Rattle.std.specs.Prelude.{◌≡◌, [], All, OnOk};
ghost use Rattle.tl_bucket.specs.Inner.Puts.{IsThere};
ghost use Rattle.tl_bucket.specs.Shelved.{WereThere};

use crate::claims::Claims;
use crate::client::{Client, Connection};
use crate::fault::BucketFault;
use crate::reach::Reach;
use crate::staged::{Staged, put_each};
use crate::together::PutsTogether;
use std::alloc::Global;
use std::marker::Model;
use std::net::{Net, TcpStream};
use std::time::Clock;
use tl_device::DeviceFault;

// The most workers that put at once.
const MOST_WORKERS: usize = 16;

// The outcome of a worker that has put nothing.
const UNPUT: BucketFault = BucketFault::Device(DeviceFault::System);

/// A connection to a bucket that is kept, with its own copies of objects to put. If its outcome is success, all of
/// them were there: so whatever makes it work need not be trusted.
#[derive(Drop)]
pub struct Worker {
    alloc: Global,
    reach: Reach,
    connection: Connection,
    items: Vec<Staged>,
    outcome: Result<(), BucketFault>,
}

impl Model for Worker {
    ghost use Rattle.std.specs.Prelude.{All, OnOk, map, vec_items};
    ghost use Rattle.tl_bucket.specs.Inner.Puts.{IsThere, item_of};
    ghost use Rattle.tl_bucket.specs.Workers as seen;

    ghost Value = { seen.Work };

    ghost view = { λ w. record {
      at = w.reach;
      items = map item_of (vec_items w.items);
      told = w.outcome;
    } };

    ghost invariant = { λ w. OnOk w.outcome (All (IsThere w.reach) (vec_items w.items)) };
}

impl Worker {
    // Creates a worker of the client's bucket, with nothing to put.
    fn new<H>(client: &Client<'_, H>) -> Result<Worker, BucketFault> {
        Ok(Worker {
            alloc: client.alloc,
            reach: Reach::of(client)?,
            connection: Connection::new(),
            items: Vec::new(client.alloc),
            outcome: Err(UNPUT),
        })
    }

    // Drops the objects and the outcome.
    fn clear(&mut self) {
        self.outcome = Err(UNPUT);
        self.items.clear();
    }

    // Takes one more object to put.
    fn take(&mut self, item: Staged) -> Result<(), BucketFault> {
        self.outcome = Err(UNPUT);
        self.items.push(item)?;
        Ok(())
    }

    /// Puts the worker's objects one after another, up to the first failure, and records the outcome, which is
    /// success only if each was there.
    pub fn work<H: Net<Stream = TcpStream> + Clock>(&mut self, rt: &H)
        ensures at { self.new.at ≡ self.old.at }
        ensures items { self.new.items ≡ self.old.items }
        ensures done { OnOk self.new.told (WereThere self.new.at self.new.items) }
    {
        let client = self.reach.client(rt, self.alloc);
        let outcome = put_each(&client, &mut self.connection, self.items.as_slice());
        self.outcome = outcome;
    }

    // Checks that the object with this number was put into this client's bucket, and is this one.
    fn check<H>(
        &self,
        client: &Client<'_, H>,
        number: usize,
        item: &Staged,
    ) -> Result<(), BucketFault>
        ensures { OnOk result (IsThere client.now item.now) }
    {
        self.outcome?;
        let Some(own) = self.items.get(number) else {
            return Err(UNPUT);
        };
        if !self.reach.is_of(client) || !own.is_same(item) {
            return Err(UNPUT);
        }
        Ok(())
    }
}

/// The workers of a shelf.
#[derive(Drop)]
pub(crate) struct Workers {
    workers: Vec<Worker>,
    // The most that work at once.
    most: usize,
}

// Makes each worker drop what it put.
fn clear_each(workers: &mut [Worker]) {
    for worker in workers {
        worker.clear();
    }
}

// Gives copies of the items to the workers, in turn.
fn share_out(alloc: Global, staged: &[Staged], workers: &mut [Worker]) -> Result<(), BucketFault> {
    clear_each(workers);
    for (i, item) in staged.iter().enumerate() {
        let copy = Staged::of(alloc, &item.resource, item.bytes.as_slice())?;
        let Some(number) = i.checked_rem(workers.len()) else {
            return Err(UNPUT);
        };
        workers[number].take(copy)?;
    }
    Ok(())
}

// Checks that the item with this number was put by the worker that it was given to.
fn check_one<H>(
    client: &Client<'_, H>,
    workers: &[Worker],
    number: usize,
    item: &Staged,
) -> Result<(), BucketFault>
    ensures { OnOk result (IsThere client.now item.now) }
{
    if workers.is_empty() {
        return Err(UNPUT);
    }
    workers[number % workers.len()].check(client, number / workers.len(), item)
}

// Checks that all items were put.
fn check_each<H>(
    client: &Client<'_, H>,
    workers: &[Worker],
    staged: &[Staged],
) -> Result<(), BucketFault>
    ensures { OnOk result (All (IsThere client.now) staged.now) }
{
    for i in 0..staged.len() {
        check_one(client, workers, i, &staged[i])?;
    }
    Ok(())
}

impl Workers {
    /// Creates no workers yet.
    pub(crate) fn new(alloc: Global) -> Workers {
        Workers {
            workers: Vec::new(alloc),
            most: MOST_WORKERS,
        }
    }

    // Adds workers of the client's bucket until there are at least `count`.
    fn open<H>(&mut self, client: &Client<'_, H>, count: usize) -> Result<(), BucketFault> {
        for _ in self.workers.len()..count {
            self.workers.push(Worker::new(client)?)?;
        }
        Ok(())
    }

    // Puts the objects of resources, as many at once as allowed.
    fn try_put<D: PutsTogether, H: Net<Stream = TcpStream> + Clock>(
        &mut self,
        disk: &D,
        client: &Client<'_, H>,
        staged: &[Staged],
    ) -> Result<(), BucketFault>
        ensures { OnOk result (All (IsThere client.now) staged.now) }
    {
        let count = staged.len().min(self.most);
        self.open(client, count)?;
        let held = self.workers.as_mut_slice();
        let (workers, _) = held.split_at_mut(count.min(held.len()));
        share_out(client.alloc, staged, workers)?;
        disk.put_together(client.rt, workers);
        let told = check_each(client, workers, staged);
        clear_each(workers);
        told
    }

    /// Puts the objects of resources side by side, once the entries that are claimed for them are committed. If a put
    /// isn't answered in time, the store may serve fewer connections at once: the workers are dropped, and there is
    /// one from then on. Otherwise connections are kept, but no copies.
    pub(crate) fn put<D: PutsTogether, H: Net<Stream = TcpStream> + Clock>(
        &mut self,
        disk: &D,
        client: &Client<'_, H>,
        _claims: &Claims,
        staged: &[Staged],
    ) -> Result<(), BucketFault>
        requires committed { _claims.now.entries ≡ [] }
        ensures { OnOk result (All (IsThere client.now) staged.now) }
    {
        match self.try_put(disk, client, staged) {
            Err(BucketFault::Device(DeviceFault::TimedOut)) if self.most > 1 => {}
            told => return told,
        }
        self.workers.clear();
        self.most = 1;
        self.try_put(disk, client, staged)
    }
}
