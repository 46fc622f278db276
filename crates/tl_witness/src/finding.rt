//! Finding the origin that a request is for. Nothing here waits, and no chain is read.

ghost use Rattle.std.specs.Prelude.{◌≡◌, ℕ, map};
ghost use Rattle.tl_witness.specs.Book.{asked_of};
ghost use Rattle.tl_witness.specs.Inner.Finding.{FindsOrigin};
ghost use Rattle.tl_witness.specs.Inner.Offer.{asked_by};
ghost use Rattle.tl_witness.specs.ReadRequest.{body_of};
ghost use Rattle.tl_witness.specs.Inner.ReadSigned.{signed_of};

use crate::by_origin::{ByOrigin, OfOrigin, place_by};
use crate::request::{AddRequest, RequestFault, SignedCheckpoint, parse_request, read_signed};
use std::alloc::Allocator;
use tl_note::NoteView;
use tl_proof::Link;

/// What a request asks of its origin: the size that the client believes was cosigned last, the link from there to the
/// checkpoint, and the note with the checkpoint. No signature is verified yet.
#[derive(Drop)]
pub(crate) struct Offer<'m, A: Allocator> {
    pub(crate) old: u64,
    pub(crate) link: Link<A>,
    pub(crate) note: NoteView<'m, A>,
}

/// The position of an origin, and what is asked of it.
#[derive(Drop)]
pub(crate) struct Found<'m, A: Allocator> {
    pub(crate) place: usize,
    pub(crate) offer: Offer<'m, A>,
}

/// Why a request has no origin.
#[derive(Clone, Copy)]
pub(crate) enum Unfound {
    /// The body is no request, or its note is no checkpoint.
    Malformed,
    /// The origin is unknown.
    Unknown,
    /// Allocation failed.
    OutOfMemory,
}

// Returns what a request asks whose note is this signed checkpoint.
fn offer_of<'m, A: Allocator>(
    request: AddRequest<'m, A>,
    signed: SignedCheckpoint<'m, A>,
) -> Offer<'m, A>
    ensures { (time : ℕ)
        → asked_by result time ≡ asked_of (body_of request.entry) (signed_of signed.entry) time }
{
    let AddRequest { old, proof, .. } = request;
    let SignedCheckpoint { note, checkpoint } = signed;
    let link = Link {
        size: checkpoint.size,
        root: checkpoint.root,
        proof,
    };
    Offer { old, link, note }
}

/// Reads a request and the checkpoint in its note, and finds the position of the checkpoint's origin (C2SP
/// tlog-witness, "add-checkpoint").
pub(crate) fn find_origin<'m, N: OfOrigin, A: Allocator + Copy>(
    alloc: A,
    places: &ByOrigin<A>,
    list: &[N],
    body: &'m [u8],
) -> Result<Found<'m, A>, Unfound>
    ensures { FindsOrigin body.now (map N.origin_of list.now) result }
{
    let request = match parse_request(alloc, body) {
        Ok(request) => request,
        Err(RequestFault::Malformed) => return Err(Unfound::Malformed),
        Err(RequestFault::OutOfMemory) => return Err(Unfound::OutOfMemory),
    };
    let signed = match read_signed(alloc, request.note) {
        Ok(signed) => signed,
        Err(RequestFault::Malformed) => return Err(Unfound::Malformed),
        Err(RequestFault::OutOfMemory) => return Err(Unfound::OutOfMemory),
    };
    let Some(place) = place_by(places, list, signed.checkpoint.origin.as_str()) else {
        return Err(Unfound::Unknown);
    };
    Ok(Found {
        place,
        offer: offer_of(request, signed),
    })
}
