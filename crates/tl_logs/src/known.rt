//! Which origins count.

ghost use Rattle.std.specs.Prelude.{◌≡◌, ◌<◌, IfOk, None, OnErr, Some, is_some, length};
ghost use Rattle.tl_hash.specs.Bytes.{Bytes};
ghost use Rattle.tl_logs.specs.ReadLogs.{is_origin_of, logs_shown};
ghost use Rattle.tl_logs.specs.Inner.ByOrigin.{index_of};
ghost use Rattle.tl_logs.specs.Inner.Counting.{counts_of};
ghost use Rattle.tl_logs.specs.State.{of_logs};

use crate::by_origin::ByOrigin;
use crate::log::KnownLog;
use std::alloc::{AllocError, Allocator};

/// Which origins count: all, or those in the map.
#[derive(Drop)]
pub(crate) struct Counting<A: Allocator> {
    places: Option<ByOrigin<A>>,
}

// Returns the positions of the logs' origins. It fails only if allocation fails.
fn places_of<A: Allocator + Copy>(alloc: A, logs: &[KnownLog<A>]) -> Result<ByOrigin<A>, AllocError>
    ensures places { IfOk result (λ places. (origin : Bytes)
        → is_some (index_of places origin) ≡ is_origin_of (logs_shown logs.now) origin) }
    ensures memory { OnErr result (0 < length logs.now) }
{
    let mut places = ByOrigin::new(alloc);
    for i in 0..logs.len() {
        places.add(alloc, logs[i].origin.as_str(), i)?;
    }
    Ok(places)
}

impl<A: Allocator + Copy> Counting<A> {
    /// Returns a value by which all origins count. It allocates nothing.
    pub(crate) fn all() -> Self
        ensures { counts_of result ≡ of_logs None }
    {
        Counting { places: None }
    }

    /// Returns a value by which the origins of these logs count. It fails only if allocation fails.
    pub(crate) fn of(alloc: A, logs: &[KnownLog<A>]) -> Result<Self, AllocError>
        ensures counts { IfOk result
            (λ counting. counts_of counting ≡ of_logs (Some (logs_shown logs.now))) }
        ensures memory { OnErr result (0 < length logs.now) }
    {
        let places = places_of(alloc, logs)?;
        Ok(Counting {
            places: Some(places),
        })
    }

    /// Reports whether the lines of an origin count.
    pub(crate) fn counts(&self, origin: &str) -> bool
        ensures { result ≡ counts_of self.now origin.now }
    {
        match &self.places {
            Some(places) => places.find(origin).is_some(),
            None => true,
        }
    }
}
