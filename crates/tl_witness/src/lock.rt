//! A lock whose value fits a tag that was fixed when the lock was made, and grows from turn to turn.

ghost use Rattle.std.specs.Prelude.{◌≡◌};

use counted_slot::{Counted, FREE, Fits, TAKEN};
use std::snapshot::Snapshot;
use std::sync::{Mutex, MutexGuard, Wait};

/// A value that can be behind a lock. The value that a turn puts back has grown from the one that it took.
pub(crate) trait Grows: Fits {
    ghost grows: { Self → Self → Type 0 };
}

/// A value that one thread has at a time. A contract sees the tag, which each value behind the lock fits. The slot is
/// empty only while the gate is held.
#[derive(Drop)]
pub(crate) struct Lock<X: Fits> {
    gate: Mutex<()>,
    slot: Counted<Option<X>>,
}

/// A turn at the value of a lock. It can't be dropped: it ends by `leave`, which puts a value back.
pub(crate) struct Turn<'a, X: Fits> {
    lock: &'a Lock<X>,
    gate: MutexGuard<'a, ()>,
    before: Snapshot<X>,
}

/// What a turn did: the value that it took and the value that it put back. Only `leave` makes one.
#[derive(Drop)]
pub(crate) struct Change<X> {
    before: Snapshot<X>,
    after: Snapshot<X>,
}

impl<X: Grows> Lock<X> {
    /// Returns a lock with this value.
    pub(crate) fn new(value: X, tag: &X::Tag) -> Self
        requires { X.fits tag.now value }
        ensures { result.slot ≡ tag.now }
    {
        Lock {
            gate: Mutex::new(()),
            slot: Counted::new(Some(value), tag),
        }
    }

    /// Waits for its turn and takes the value out. The next turn begins when this one has left.
    pub(crate) fn enter<R: Wait>(&self, rt: &R) -> (Turn<'_, X>, X)
        ensures fits { X.fits self.now.slot result.1 }
        ensures lock { result.0.lock.now ≡ self.now }
        ensures before { result.0.before.value ≡ result.1 }
    {
        let gate = self.gate.lock(rt);
        let value = self.take(rt);
        let before = Snapshot::of(&value);
        let turn = Turn {
            lock: self,
            gate,
            before,
        };
        (turn, value)
    }

    // Takes the value out. The gate must be held.
    fn take<R: Wait>(&self, rt: &R) -> X
        ensures { X.fits self.now.slot result }
    {
        for _ in rt.forever() {
            let (found, claim) = self.slot.turn(FREE, TAKEN);
            if found != FREE {
                claim.done();
                continue;
            }
            match claim.put(None, FREE) {
                Some(value) => return value,
                None => {}
            }
        }
        unreachable!()
    }

    // Puts the value back. The gate must be held and the slot be empty. It would loop forever if it found another
    // value there.
    fn put_back<R: Wait>(&self, rt: &R, value: X)
        requires { X.fits self.now.slot value }
    {
        let mut value = value;
        for _ in rt.forever() {
            let (found, claim) = self.slot.turn(FREE, TAKEN);
            if found != FREE {
                claim.done();
                continue;
            }
            match claim.put(Some(value), FREE) {
                None => return,
                Some(other) => value = other,
            }
        }
        unreachable!()
    }

    /// Returns the value once nobody shares the lock. It would wait forever for a value that was taken and not put
    /// back.
    pub(crate) fn into_inner<R: Wait>(self, rt: &R) -> X
        ensures { X.fits self.slot result }
    {
        let Lock { gate: _, slot } = self;
        let Some(value) = slot.into_inner() else {
            for _ in rt.forever() {}
            unreachable!()
        };
        value
    }
}

impl<X: Grows> Turn<'_, X> {
    /// Puts back a value that has grown from the one taken, and ends the turn.
    pub(crate) fn leave<R: Wait>(self, rt: &R, value: X) -> Change<X>
        requires fits { X.fits self.lock.now.slot value }
        requires grows { X.grows self.before.value value }
        ensures before { result.before.value ≡ self.entry.before.value }
        ensures after { result.after.value ≡ value }
    {
        let Turn { lock, gate, before } = self;
        let after = Snapshot::of(&value);
        lock.put_back(rt, value);
        drop(gate);
        Change { before, after }
    }
}
