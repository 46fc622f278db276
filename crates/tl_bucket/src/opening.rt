//! Opening a bucket: whether its store keeps conditions, and how far its log goes.

ghost use Rattle.std.specs.Prelude.{◌≡◌, None, IfOk, OnOk, MatchBool, map, option_map, string_bytes, vec_items};
ghost use Rattle.tl_bucket.specs.Answered.{WasPut};
ghost use Rattle.tl_bucket.specs.Buckets.{no_objects};
ghost use Rattle.tl_bucket.specs.Claims.{no_claims};
ghost use Rattle.tl_bucket.specs.Opened.{BeginsThere, EndsAt, HasCommit, IsAtEnd, has_log};
ghost use Rattle.tl_bucket.specs.Opened.{IsLastFound, KnowsShown, LacksCommit, RefusesPuts, WasReadAs};
ghost use Rattle.tl_s3.specs.Objects.{Content};
ghost use Rattle.tl_s3.specs.declared.object.PutAnswer.TheVariants.{Refused};
ghost use Rattle.tl_bucket.specs.Inner.Puts.{shown_of};
ghost use Rattle.tl_bucket.specs.Inner.Searches.{AreBounds};

use crate::asking::PutOutcome;
use crate::claims::{Claims, find_commit};
use crate::client::{Client, Connection};
use crate::commit::{Commit, CommitFault, read_commit};
use crate::fault::BucketFault;
use crate::noting::{Shown, find_shown};
use crate::shelf::BucketShelf;
use std::alloc::Global;
use std::net::{Net, TcpStream};
use std::time::Clock;
use tl_device::DeviceFault;
use tl_folder::CrashOutcome;
use tl_s3::{Condition, Object};

// The object that is put to see whether a store keeps conditions.
const PROBE: Object<'static> = Object {
    path: "/probe",
    content_type: "text/plain; charset=utf-8",
    cache_control: "no-store",
    body: b"no tlog was here\n",
};

// Checks that a put of other content, which no run had before, is refused under this condition, which doesn't hold.
fn check_refused<H: Net<Stream = TcpStream> + Clock>(
    client: &Client<'_, H>,
    connection: &mut Connection,
    content: &[u8],
    condition: Condition<'_>,
) -> Result<(), BucketFault>
    ensures { OnOk result ((content : Content)
        × WasPut client.now content condition.entry Refused) }
{
    let object = Object {
        body: content,
        ..PROBE
    };
    match connection.put(client, &object, condition)? {
        PutOutcome::Refused => Ok(()),
        PutOutcome::Done(_) => Err(BucketFault::NoConditions),
    }
}

// Checks that the store refuses puts whose condition doesn't hold (RFC 9110, sections 13.1.1 and 13.1.2).
fn check_conditions<H: Net<Stream = TcpStream> + Clock>(
    client: &Client<'_, H>,
    connection: &mut Connection,
    token: &[u8],
) -> Result<(), BucketFault>
    ensures { OnOk result (RefusesPuts client.now) }
{
    connection.put(client, &PROBE, Condition::Absent)?;
    check_refused(client, connection, token, Condition::Absent)?;
    check_refused(client, connection, token, Condition::Matches("0"))
}

/// Reports whether the commit with this number is there.
pub(crate) fn has_commit<H: Net<Stream = TcpStream> + Clock>(
    client: &Client<'_, H>,
    connection: &mut Connection,
    number: u64,
) -> Result<bool, BucketFault>
    ensures { IfOk result (λ has.
        MatchBool has (HasCommit client.now number) (LacksCommit client.now number)) }
{
    let Some(_found) = find_commit(client, connection, number)? else {
        return Ok(false);
    };
    Ok(true)
}

// Returns a power of two whose commit isn't there, and the power of two before it, whose commit is, or 0.
fn find_bounds<H: Net<Stream = TcpStream> + Clock>(
    client: &Client<'_, H>,
    connection: &mut Connection,
) -> Result<(u64, u64), BucketFault>
    ensures { IfOk result (λ bounds. AreBounds client.now bounds.0 bounds.1) }
{
    let (mut low, mut high) = (0, 1);
    for _ in 0..63u32 {
        if !has_commit(client, connection, high)? {
            return Ok((low, high));
        }
        low = high;
        high = high.saturating_mul(2);
    }
    Err(BucketFault::Device(DeviceFault::TooLarge))
}

// Returns closer bounds of the last commit, after a look at the middle.
fn halve<H: Net<Stream = TcpStream> + Clock>(
    client: &Client<'_, H>,
    connection: &mut Connection,
    low: u64,
    high: u64,
) -> Result<(u64, u64), BucketFault>
    requires { AreBounds client.now low high }
    ensures { IfOk result (λ bounds. AreBounds client.now bounds.0 bounds.1) }
{
    let middle = low.saturating_add(high.saturating_sub(low) / 2);
    if has_commit(client, connection, middle)? {
        Ok((middle, high))
    } else {
        Ok((low, middle))
    }
}

// Returns the number of the last commit, or 0 if there is none, by doubling a number and then halving.
fn last_commit<H: Net<Stream = TcpStream> + Clock>(
    client: &Client<'_, H>,
    connection: &mut Connection,
) -> Result<u64, BucketFault>
    ensures { IfOk result (IsLastFound client.now) }
{
    let (mut low, mut high) = find_bounds(client, connection)?;
    for _ in 0..64u32 {
        if high.saturating_sub(low) == 1 {
            return Ok(low);
        }
        (low, high) = halve(client, connection, low, high)?;
    }
    Err(BucketFault::Device(DeviceFault::TooLarge))
}

/// Returns the commit with this number, which is there. `BadCommit`: its bytes aren't a commit's, or it has no
/// entries.
pub(crate) fn read_numbered<H: Net<Stream = TcpStream> + Clock>(
    client: &Client<'_, H>,
    connection: &mut Connection,
    number: u64,
) -> Result<Commit<Global>, BucketFault>
    ensures { IfOk result (λ c. WasReadAs client.now number (record {
      start = c.start;
      token = c.token.items;
      entries = map vec_items c.entries.items;
    })) }
{
    let Some(found) = find_commit(client, connection, number)? else {
        return Err(BucketFault::BadCommit(number));
    };
    match read_commit(client.alloc, found.body.as_slice()) {
        Ok(commit) if !commit.entries.is_empty() => Ok(commit),
        Err(CommitFault::OutOfMemory) => Err(BucketFault::Device(DeviceFault::OutOfMemory)),
        _ => Err(BucketFault::BadCommit(number)),
    }
}

// Returns how many entries all commits up to the one with this number append.
fn committed_size<H: Net<Stream = TcpStream> + Clock>(
    client: &Client<'_, H>,
    connection: &mut Connection,
    number: u64,
) -> Result<u64, BucketFault>
    ensures { IfOk result (EndsAt client.now number) }
{
    if number == 0 {
        return Ok(0);
    }
    let commit = read_numbered(client, connection, number)?;
    match commit.start.checked_add(commit.entries.len() as u64) {
        Some(size) => Ok(size),
        None => Err(BucketFault::BadCommit(number)),
    }
}

// Returns the claims of an operator with this token, whose next commit comes after the last one.
fn claims_behind<H: Net<Stream = TcpStream> + Clock>(
    client: &Client<'_, H>,
    connection: &mut Connection,
    token: String,
) -> Result<Claims, BucketFault>
    ensures { IfOk result (IsAtEnd client.now (string_bytes token)) }
{
    let last = last_commit(client, connection)?;
    let size = committed_size(client, connection, last)?;
    match last.checked_add(1) {
        Some(next) => Ok(Claims::new(client.alloc, next, size, token.into_bytes())),
        None => Err(BucketFault::Device(DeviceFault::TooLarge)),
    }
}

// Reports whether a log is there, by the commits and the checkpoint that were found.
fn has_log(claims: &Claims, shown: &Option<Shown>) -> bool
    ensures { result ≡ has_log claims.now (option_map shown_of shown.now) }
{
    claims.number() > 1 || shown.is_some()
}

// Checks that a log is there if and only if it isn't to begin. `Taken`: there is a log, and a new one was to begin.
// `NothingThere`: there is no log to go on from.
fn check_begins(is_new: bool, claims: &Claims, shown: &Option<Shown>) -> Result<(), BucketFault>
    ensures { OnOk result (BeginsThere is_new claims.now (option_map shown_of shown.now)) }
{
    match (is_new, has_log(claims, shown)) {
        (true, true) => Err(BucketFault::Device(DeviceFault::Taken)),
        (false, false) => Err(BucketFault::NothingThere),
        _ => Ok(()),
    }
}

impl<'b, D: CrashOutcome + Drop, H: Net<Stream = TcpStream> + Clock> BucketShelf<'b, D, H> {
    ghost use Rattle.std.specs.Prelude.{[], false};

    /// Opens the bucket that the client reaches, by this address. The token is a line that distinguishes the
    /// operator's commits from all others. `Taken`: a log is to begin, and one is there. `NothingThere`: none is to
    /// begin, and none is there. `NoConditions`: the store doesn't keep the conditions of puts. `ClockIsOff`: the
    /// machine's clock differs from the store's. Nothing of a log is put; only `probe` is, once the log may begin or
    /// go on, to see whether the store keeps conditions.
    pub fn open(
        disk: D,
        client: Client<'b, H>,
        address: &str,
        token: String,
        is_new: bool,
    ) -> Result<BucketShelf<'b, D, H>, BucketFault>
        ensures begins { IfOk result
            (λ shelf. BeginsThere is_new shelf.objects.claims shelf.objects.shown) }
        ensures refuses { OnOk result (RefusesPuts client.entry) }
        ensures end { IfOk result (λ shelf.
            IsAtEnd client.entry (string_bytes token) shelf.objects.claims) }
        ensures waiting { IfOk result (λ shelf. shelf.objects
            ≡ no_objects client.entry shelf.objects.claims shelf.objects.shown) }
        ensures shown { IfOk result (λ shelf. KnowsShown client.entry shelf.objects.shown) }
        ensures place { IfOk result (λ shelf. shelf.place ≡ address.now) }
        ensures events { IfOk result (λ shelf. shelf.events ≡ []) }
        ensures reads { IfOk result (λ shelf. shelf.reads_anew ≡ false) }
        ensures unmarked { IfOk result (λ shelf. shelf.published ≡ None) }
    {
        let mut connection = Connection::new();
        let claims = claims_behind(&client, &mut connection, token)?;
        let shown = find_shown(&client, &mut connection)?;
        check_begins(is_new, &claims, &shown)?;
        match check_conditions(&client, &mut connection, claims.token()) {
            Ok(()) => {}
            Err(fault) => return Err(fault),
        }
        Ok(BucketShelf::new(disk, client, address, claims, shown, false))
    }

    /// Opens the bucket that the client reaches, by this address, for reading alone: any store that has a commit
    /// would refuse what is staged. Nothing is requested yet.
    pub fn reader(disk: D, client: Client<'b, H>, address: &str) -> BucketShelf<'b, D, H>
        ensures objects { result.objects ≡ no_objects client.entry (no_claims 1 0 [] None) None }
        ensures place { result.place ≡ address.now }
    {
        let claims = Claims::new(client.alloc, 1, 0, Vec::new(client.alloc));
        BucketShelf::new(disk, client, address, claims, None, true)
    }
}
