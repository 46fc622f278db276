//! What decides on the requests to a witness.

ghost use Rattle.tl_witness.specs.Shared.{AnswersShared};

use std::alloc::Allocator;
use std::sync::Wait;
use tl_hash::TreeHash;
use tl_witness::{Reply, Saver, SharedWitness, Shown};

/// Decides on add-checkpoint requests, as a witness that threads share does. A function over this bound has a
/// contract that states all that it rests on; over the witness itself it would rest on the keys inside it too.
pub trait Witness<A: Allocator>: Shown {
    ghost use Rattle.tl_hash.specs.Bytes.{Digest};

    /// The digest function, as contracts see it.
    ghost digest: { Digest };

    /// Returns the reply to the body of a request at this time, in seconds since the Unix epoch (C2SP tlog-witness,
    /// "add-checkpoint"). It may wait for other threads.
    fn reply<R: Wait, S: Saver>(&self, rt: &R, body: &[u8], time: u64, saver: &mut S) -> Reply<A>
        ensures { AnswersShared digest (Self.shown self.now) body.now time
            (record {
              status = result.status;
              body = result.body.items;
              saved = S.saved saver.old;
              saved_after = S.saved saver.new;
            }) };
}

impl<T: TreeHash, A: Allocator + Copy> Witness<A> for SharedWitness<T, A> {
    ghost digest = { T.digest_of };

    fn reply<R: Wait, S: Saver>(&self, rt: &R, body: &[u8], time: u64, saver: &mut S) -> Reply<A> {
        self.add(rt, body, time, saver)
    }
}
