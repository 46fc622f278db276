//! The end of a lane, after its submitter was closed.
ghost use Rattle.std.specs.Prelude.{◌≡◌, map, vec_items};
ghost use Rattle.rtrb.specs.Ring.{all_sent};
ghost use Rattle.tl_sequencer.specs.Rings.{ring_of};

use crate::lane::ShortEntries;
use rtrb::Finished;
use std::alloc::Allocator;
use std::marker::Model;

/// All that one submitter sent, once it can send no more. `Sequencer::end` takes in what is left of it.
#[derive(Drop)]
pub struct Ended<E: Allocator, A: Allocator> {
    pub(crate) entries: Finished<Vec<u8, E>, A, ShortEntries>,
    lane: u32,
}

impl<E: Allocator, A: Allocator> Model for Ended<E, A> {
    ghost use Rattle.std.specs.Prelude.{map, vec_items};
    ghost use Rattle.rtrb.specs.Ring.{all_sent};
    ghost use Rattle.tl_sequencer.specs.Log.{End};
    ghost use Rattle.tl_sequencer.specs.Rings.{ring_of};

    ghost Value = { End A };

    ghost view = { λ e. record {
      ring = ring_of e.entries.end;
      lane = e.lane;
      sent = map vec_items (all_sent e.entries);
    } };
}

impl<E: Allocator, A: Allocator> Ended<E, A> {
    pub(crate) fn new(entries: Finished<Vec<u8, E>, A, ShortEntries>, lane: u32) -> Ended<E, A>
        ensures { result ≡ record
            { ring = ring_of entries.end; lane = lane; sent = map vec_items (all_sent entries) } }
    {
        Ended { entries, lane }
    }

    /// Returns the lane's number.
    pub fn lane(&self) -> u32
        ensures { result ≡ self.now.lane }
    {
        self.lane
    }
}
