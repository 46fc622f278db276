//! The objects of a log in a bucket, and those that wait to be put.

ghost use Rattle.std.specs.Prelude.{◌≡◌, [], ◌∷◌, ◌++◌, IfOk, OnOk, OnErr, option_map};
ghost use Rattle.tl_bucket.specs.Buckets.{KeepsBytes, SettlesObjects, no_objects};
ghost use Rattle.tl_bucket.specs.Inner.Puts.{item_of, shown_of};

use crate::claims::Claims;
use crate::client::{Client, Connection};
use crate::fault::BucketFault;
use crate::noting::{Shown, put_note};
use crate::staged::Staged;
use crate::together::PutsTogether;
use crate::workers::Workers;
use std::alloc::Global;
use std::marker::Model;
use std::net::{Net, TcpStream};
use std::time::Clock;
use tl_tile::Resource;

/// The objects of a log in a bucket, and those that wait to be put. If a settling fails, each later call that keeps
/// or puts fails with its fault.
#[derive(Drop)]
pub(crate) struct Objects<'b, H> {
    alloc: Global,
    pub(crate) client: Client<'b, H>,
    pub(crate) claims: Claims,
    pub(crate) fault: Option<BucketFault>,
    connection: Connection,
    workers: Workers,
    staged: Vec<Staged>,
    note: Option<Vec<u8>>,
    shown: Option<Shown>,
}

impl<'b, H> Model for Objects<'b, H> {
    ghost use Rattle.std.specs.Prelude.{map, option_map, vec_items};
    ghost use Rattle.tl_bucket.specs.Buckets as seen;
    ghost use Rattle.tl_bucket.specs.Inner.Puts.{item_of, shown_of};

    ghost Value = { seen.Objects };

    ghost view = { λ o. record {
      at = o.client;
      waiting = map item_of (vec_items o.staged);
      note = option_map vec_items o.note;
      claims = o.claims;
      shown = option_map shown_of o.shown;
    } };
}

impl<'b, H: Net<Stream = TcpStream> + Clock> Objects<'b, H> {
    /// Creates the objects of a log that goes as far as the claims do and has this checkpoint, if any. Nothing waits.
    pub(crate) fn new(client: Client<'b, H>, claims: Claims, shown: Option<Shown>) -> Objects<'b, H>
        ensures { result ≡ no_objects client.entry claims (option_map shown_of shown) }
    {
        let alloc = client.alloc;
        Objects {
            alloc,
            client,
            claims,
            fault: None,
            connection: Connection::new(),
            workers: Workers::new(alloc),
            staged: Vec::new(alloc),
            note: None,
            shown,
        }
    }

    /// Returns the note of the checkpoint that was there, if any.
    pub(crate) fn note_shown(&self) -> Option<&[u8]>
        ensures { option_map (λ note. note.now) result
            ≡ option_map (λ shown. shown.note) self.now.shown }
    {
        match &self.shown {
            Some(shown) => Some(shown.note.as_slice()),
            None => None,
        }
    }

    // Adds a tile or a bundle to those that wait.
    fn wait(&mut self, staged: Staged) -> Result<(), BucketFault>
        ensures { OnOk result (self.new ≡ record self.old {
          waiting = self.old.waiting ++ item_of staged ∷ [];
        }) }
    {
        self.staged.push(staged)?;
        Ok(())
    }

    // Keeps the bytes of a resource until all are put.
    fn try_keep(&mut self, resource: &Resource, bytes: &[u8]) -> Result<(), BucketFault>
        ensures { OnOk result (KeepsBytes resource.now bytes.now self.old self.new) }
    {
        if let Some(fault) = self.fault {
            return Err(fault);
        }
        let staged = Staged::of(self.alloc, resource, bytes)?;
        match resource {
            Resource::Checkpoint => {
                self.note = Some(staged.bytes);
                Ok(())
            }
            Resource::Entries { index, width } => {
                self.claims.add(*index, *width, bytes)?;
                self.wait(staged)
            }
            Resource::Tile(_) => self.wait(staged),
        }
    }

    /// Keeps the bytes of a resource until all are put. If that fails, nothing is put: what waits may be tiles of
    /// entries that are in no bundle yet, and so in no commit.
    pub(crate) fn keep(&mut self, resource: &Resource, bytes: &[u8]) -> Result<(), BucketFault>
        ensures kept { OnOk result (KeepsBytes resource.now bytes.now self.old self.new) }
    {
        match self.try_keep(resource, bytes) {
            Ok(()) => Ok(()),
            Err(fault) => {
                self.fault = Some(fault);
                Err(fault)
            }
        }
    }

    // Puts all that waits.
    fn put_waiting<D: PutsTogether>(&mut self, disk: &D) -> Result<(), BucketFault>
        ensures { OnOk result (SettlesObjects self.old self.new) }
    {
        if let Some(fault) = self.fault {
            return Err(fault);
        }
        self.claims.claim(&self.client, &mut self.connection)?;
        self.workers
            .put(disk, &self.client, &self.claims, self.staged.as_slice())?;
        let Some(note) = self.note.take() else {
            self.staged.clear();
            return Ok(());
        };
        let (connection, shown) = (&mut self.connection, &self.shown);
        let staged = self.staged.as_slice();
        let etag = put_note(&self.client, connection, staged, note.as_slice(), shown)?;
        self.staged.clear();
        self.shown = Some(Shown { note, etag });
        Ok(())
    }

    /// Puts all that waits: the commit of the entries that the bundles add, then tiles and bundles, side by side, and
    /// then the checkpoint.
    pub(crate) fn settle<D: PutsTogether>(&mut self, disk: &D) -> Result<(), BucketFault>
        ensures { OnOk result (SettlesObjects self.old self.new) }
    {
        match self.put_waiting(disk) {
            Ok(()) => Ok(()),
            Err(fault) => {
                self.fault = Some(fault);
                Err(fault)
            }
        }
    }
}
