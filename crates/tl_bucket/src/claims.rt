//! The commits of an operator: which entries it is to commit next.

ghost use Rattle.std.specs.Prelude.{◌≡◌, ℕ, ◌+◌, ◌++◌, [], IfOk, OnErr, OnOk, None, string_bytes, vec_items};
ghost use Rattle.tl_bucket.specs.Claims.{Adds, CommitsEntries, no_claims, no_claims_of_other, token_of};
ghost use Rattle.tl_bucket.specs.Commits.{commit_front};
ghost use Rattle.tl_bucket.specs.Inner.Outcomes.{Concludes, Finds};
ghost use Rattle.tl_bucket.specs.Shelved.{commit_at, commit_path};
ghost use Rattle.tl_s3.specs.Objects.{content_of};
ghost use Rattle.tl_s3.specs.declared.object.Condition.TheVariants.{Absent};

use crate::asking::{Found, MOST_BYTES, PutOutcome};
use crate::client::{Client, Connection};
use crate::commit::{behind, commit_front};
use crate::fault::BucketFault;
use crate::staged::LASTING;
use itoa::Buffer;
use std::alloc::{AllocError, Global};
use std::marker::Model;
use std::net::{Net, TcpStream};
use std::time::Clock;
use tl_device::DeviceFault;
use tl_s3::{Condition, Object};

// Returns the path of the commit with this number.
fn commit_path(alloc: Global, number: u64) -> Result<String, AllocError>
    ensures { IfOk result (λ path. string_bytes path ≡ commit_path number) }
{
    let mut path = String::from_str(alloc, "/commit/")?;
    path.push_str(Buffer::new().format(number))?;
    Ok(path)
}

/// Returns the commit with this number, if there is one.
pub(crate) fn find_commit<H: Net<Stream = TcpStream> + Clock>(
    client: &Client<'_, H>,
    connection: &mut Connection,
    number: u64,
) -> Result<Option<Found>, BucketFault>
    ensures { IfOk result (Finds client.now (commit_path number)) }
{
    let path = commit_path(client.alloc, number)?;
    connection.find(client, path.as_str(), MOST_BYTES)
}

// Returns the object of a commit, with its path.
fn object_of<'o>(path: &'o str, body: &'o [u8]) -> Object<'o>
    ensures { (number : ℕ) → path.now ≡ commit_path number
        → content_of result ≡ commit_at number body.now }
{
    Object {
        path,
        content_type: "application/octet-stream",
        cache_control: LASTING,
        body,
    }
}

// Puts a commit with these bytes under this number, where nothing may be yet.
fn put_commit<H: Net<Stream = TcpStream> + Clock>(
    client: &Client<'_, H>,
    connection: &mut Connection,
    number: u64,
    bytes: &[u8],
) -> Result<PutOutcome, BucketFault>
    ensures { IfOk result (Concludes client.now (commit_at number bytes.now) Absent) }
{
    let path = commit_path(client.alloc, number)?;
    let object = object_of(path.as_str(), bytes);
    connection.put(client, &object, Condition::Absent)
}

/// How far commits go, and the entries that the next one is to append.
#[derive(Drop)]
pub(crate) struct Claims {
    // The number of the next commit, and how many entries come before it.
    number: u64,
    start: u64,
    // The bytes of its entries, each with its length before it, and the log's size with them.
    entries: Vec<u8>,
    end: u64,
    // The token of this operator's commits.
    token: Vec<u8>,
    // The token of the next commit, if another operator made it.
    other: Option<Vec<u8>>,
}

impl Model for Claims {
    ghost use Rattle.std.specs.Prelude.{option_map, vec_items};
    ghost use Rattle.tl_bucket.specs.Claims as seen;

    ghost Value = { seen.Claims };

    ghost view = { λ c. record {
      number = c.number;
      start = c.start;
      entries = vec_items c.entries;
      end = c.end;
      token = vec_items c.token;
      other = option_map vec_items c.other;
    } };
}

impl Claims {
    /// Creates claims without entries: the next commit has this number, comes after `start` entries, and has this
    /// token.
    pub(crate) fn new(alloc: Global, number: u64, start: u64, token: Vec<u8>) -> Claims
        ensures { result ≡ no_claims number start token.items None }
    {
        Claims {
            number,
            start,
            entries: Vec::new(alloc),
            end: start,
            token,
            other: None,
        }
    }

    /// Returns the token of this operator's commits.
    pub(crate) fn token(&self) -> &[u8] {
        self.token.as_slice()
    }

    /// Returns the number of the next commit.
    pub(crate) fn number(&self) -> u64
        ensures { result ≡ self.now.number }
    {
        self.number
    }

    /// Returns how many entries come before the next commit.
    pub(crate) fn start(&self) -> u64
        ensures { result ≡ self.now.start }
    {
        self.start
    }

    /// Goes to the commit with this number, which comes after `start` entries. It is there already, from another
    /// operator, with this token.
    pub(crate) fn finish(&mut self, number: u64, start: u64, token: Vec<u8>)
        ensures { self.new ≡ no_claims_of_other number start self.old.token token.items }
    {
        self.entries.clear();
        self.number = number;
        self.start = start;
        self.end = start;
        self.other = Some(token);
    }

    /// Adds the entries of a bundle with this index and width that come after all committed ones.
    pub(crate) fn add(&mut self, index: u64, width: u32, bundle: &[u8]) -> Result<(), BucketFault>
        ensures added { OnOk result (Adds index width bundle.now self.old self.new) }
        ensures unchanged { OnErr result (self.new ≡ self.old) }
    {
        let Some(front) = index.checked_mul(256) else {
            return Err(BucketFault::Device(DeviceFault::TooLarge));
        };
        let Some(end) = front.checked_add(u64::from(width)) else {
            return Err(BucketFault::Device(DeviceFault::TooLarge));
        };
        let Some(own) = behind(bundle, self.start.saturating_sub(front)) else {
            return Err(BucketFault::BadCommit(self.number));
        };
        self.entries.extend_from_slice(own)?;
        self.end = self.end.max(end);
        Ok(())
    }

    // Returns the token of the next commit.
    fn next_token(&self) -> &[u8]
        ensures { result.now ≡ token_of self.now.other self.now.token }
    {
        match &self.other {
            Some(token) => token.as_slice(),
            None => self.token.as_slice(),
        }
    }

    // Returns the bytes of the commit that appends the entries.
    fn commit_bytes(&self, alloc: Global) -> Result<Vec<u8>, AllocError>
        ensures { IfOk result (λ bytes. bytes.items
            ≡ commit_front self.now.start (token_of self.now.other self.now.token) ++ self.now.entries) }
    {
        let mut bytes = commit_front(alloc, self.start, self.next_token())?;
        bytes.extend_from_slice(self.entries.as_slice())?;
        Ok(bytes)
    }

    // Goes on once the entries are committed: the next commit has this number, and comes after them.
    fn go_on(&mut self, number: u64)
        ensures { self.new ≡ no_claims number self.old.end self.old.token None }
    {
        self.entries.clear();
        self.number = number;
        self.start = self.end;
        self.other = None;
    }

    /// Commits the entries, if there are any, under the next number, where nothing may be yet. `Outrun`: another
    /// operator's commit is there.
    pub(crate) fn claim<H: Net<Stream = TcpStream> + Clock>(
        &mut self,
        client: &Client<'_, H>,
        connection: &mut Connection,
    ) -> Result<(), BucketFault>
        ensures claimed { OnOk result (CommitsEntries client.now self.old self.new) }
        ensures none { OnOk result (self.new.entries ≡ []) }
        ensures unchanged { OnErr result (self.new ≡ self.old) }
    {
        if self.entries.is_empty() {
            return Ok(());
        }
        let Some(next) = self.number.checked_add(1) else {
            return Err(BucketFault::Device(DeviceFault::TooLarge));
        };
        let bytes = self.commit_bytes(client.alloc)?;
        match put_commit(client, connection, self.number, bytes.as_slice())? {
            PutOutcome::Done(_) => {}
            PutOutcome::Refused => return Err(BucketFault::Outrun),
        }
        self.go_on(next);
        Ok(())
    }
}
