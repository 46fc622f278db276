//! Finding the position of an origin in a list, in time that grows with the logarithm of the list's length.

ghost use Rattle.std.specs.Prelude.{◌≡◌, None, OnErr, OnOk, ◌≢◌, ◌<◌, ℕ, All, IfNone, IfOk, IfSome, MatchOption, Some, length, map, slice_get};
ghost use Rattle.tl_hash.specs.Bytes.{Bytes};
ghost use Rattle.tl_witness.specs.ByOrigin.{index_of, Indexes};
ghost use Rattle.tl_witness.specs.Inner.PutsOrigin.{PutsOrigin};
ghost use Rattle.tl_witness.specs.Open.{HasTwice, IsFirstNot};

use std::alloc::{AllocError, Allocator};
use std::collections::BTreeMap;

/// Maps each origin to its position. A contract sees it by `index_of`, the function from an origin to its position.
#[derive(Drop)]
pub(crate) struct ByOrigin<A: Allocator> {
    places: BTreeMap<String<A>, usize, A>,
}

impl<A: Allocator + Copy> ByOrigin<A> {
    /// Returns an empty map. It allocates nothing.
    pub(crate) fn new(alloc: A) -> Self
        ensures { (origin : Bytes) → index_of result origin ≡ None }
    {
        ByOrigin {
            places: BTreeMap::new(alloc),
        }
    }

    /// Returns the position of an origin, or `None` if it has none.
    pub(crate) fn find(&self, origin: &str) -> Option<usize>
        ensures { result ≡ index_of self.now origin.now }
    {
        self.places.get(origin).copied()
    }

    /// Gives an origin this position, in place of an earlier one. It fails only if allocation fails, and then changes
    /// nothing.
    pub(crate) fn add(&mut self, alloc: A, origin: &str, place: usize) -> Result<(), AllocError>
        ensures added { OnOk result
            (PutsOrigin origin.now place (index_of self.old) (index_of self.new)) }
        ensures kept { OnErr result
            ((other : Bytes) → index_of self.new other ≡ index_of self.old other) }
    {
        self.places.insert(String::from_str(alloc, origin)?, place)?;
        Ok(())
    }
}

/// Something that has an origin.
pub(crate) trait OfOrigin {
    ghost use Rattle.std.specs.Prelude.{List, ℕ};

    ghost origin_of: { Self → Bytes };

    /// Returns its origin.
    fn origin(&self) -> &str
        ensures { result.now ≡ origin_of self.now };
}

/// Returns the position of an item with this origin, or `None` if there is none.
pub(crate) fn place_of<N: OfOrigin>(list: &[N], origin: &str) -> Option<usize>
    ensures room { IfSome result (λ i. i < length list.now) }
    ensures found { IfSome result (λ i. slice_get (map N.origin_of list.now) i ≡ Some origin.now) }
    ensures none { IfNone result
        ((i : ℕ) → slice_get (map N.origin_of list.now) i ≢ Some origin.now) }
{
    for i in 0..list.len() {
        if list[i].origin() == origin {
            return Some(i);
        }
    }
    None
}

/// Returns the position of an item with this origin, or `None` if there is none. It tries the map first and checks
/// the position that it finds. If that isn't right it searches the whole list, so the answer is right for any map.
pub(crate) fn place_by<N: OfOrigin, A: Allocator + Copy>(
    places: &ByOrigin<A>,
    list: &[N],
    origin: &str,
) -> Option<usize>
    ensures room { IfSome result (λ i. i < length list.now) }
    ensures found { IfSome result (λ i. slice_get (map N.origin_of list.now) i ≡ Some origin.now) }
    ensures none { IfNone result
        ((i : ℕ) → slice_get (map N.origin_of list.now) i ≢ Some origin.now) }
{
    if let Some(place) = places.find(origin) {
        if place < list.len() && list[place].origin() == origin {
            return Some(place);
        }
    }
    place_of(list, origin)
}

/// Returns the position of each origin of a list, or `None` if an origin is in the list twice. It fails only if
/// allocation fails, and never for an empty list.
pub(crate) fn places_in<N: OfOrigin, A: Allocator + Copy>(
    alloc: A,
    list: &[N],
) -> Result<Option<ByOrigin<A>>, AllocError>
    ensures ok { IfOk result
        (λ found. MatchOption found (HasTwice (map N.origin_of list.now)) (λ places. Indexes
        (index_of places) (map N.origin_of list.now) × ¬ (HasTwice (map N.origin_of list.now)))) }
    ensures err { OnErr result (0 < length list.now) }
{
    let mut places = ByOrigin::new(alloc);
    for i in 0..list.len() {
        let origin = list[i].origin();
        if places.find(origin).is_some() {
            return Ok(None);
        }
        places.add(alloc, origin, i)?;
    }
    Ok(Some(places))
}

/// Returns the position of the first item whose origin isn't in the map.
pub(crate) fn first_without<N: OfOrigin, A: Allocator + Copy>(
    places: &ByOrigin<A>,
    list: &[N],
) -> Option<usize>
    ensures { MatchOption result
        (All (λ o. index_of places.now o ≢ None) (map N.origin_of list.now))
        (IsFirstNot (λ o. index_of places.now o ≢ None) (map N.origin_of list.now)) }
{
    for i in 0..list.len() {
        if places.find(list[i].origin()).is_none() {
            return Some(i);
        }
    }
    None
}
