//! Remembering which resource a source lacked, and why.

ghost use Rattle.std.specs.Prelude.{◌≡◌};
ghost use Rattle.tl_source.specs.Inner.Asking.{NotedAs, after_lack};

use std::cell::Cell;
use tl_device::DeviceFault;
use tl_tile::{Resource, SourceFault};

/// A resource that a source lacked, and why.
#[derive(Clone, Copy, Debug, PartialEq, Eq)]
pub struct Lack {
    /// The resource that was asked for.
    pub resource: Resource,
    /// Why it didn't come.
    pub why: DeviceFault,
}

// Converts the reason into the fault that the source returns.
fn told_as(why: DeviceFault) -> SourceFault
    ensures { result ≡ after_lack why }
{
    match why {
        DeviceFault::OutOfMemory => SourceFault::OutOfMemory,
        _ => SourceFault::Unavailable,
    }
}

/// What the last call of a source lacked. No contract says anything about it.
#[derive(Drop)]
pub(crate) struct LastLack {
    last: Cell<Option<Lack>>,
}

impl LastLack {
    /// Returns the value before any call.
    pub(crate) fn new() -> LastLack {
        LastLack {
            last: Cell::new(None),
        }
    }

    /// Returns what the last call lacked, if anything.
    pub(crate) fn get(&self) -> Option<Lack> {
        self.last.get()
    }

    /// Sets what was lacked.
    pub(crate) fn keep(&self, lack: Option<Lack>) {
        self.last.set(lack);
    }

    /// Notes the outcome of a call for a resource, and returns it as the source does.
    pub(crate) fn note<T: Drop>(
        &self,
        resource: &Resource,
        outcome: Result<T, DeviceFault>,
    ) -> Result<T, SourceFault>
        ensures { NotedAs outcome result }
    {
        match outcome {
            Ok(found) => {
                self.last.set(None);
                Ok(found)
            }
            Err(why) => {
                self.last.set(Some(Lack {
                    resource: *resource,
                    why,
                }));
                Err(told_as(why))
            }
        }
    }
}

/// A source that remembers what it lacked.
pub trait NamesLack {
    /// Returns what the last call lacked, and why, if it lacked anything.
    fn lack(&self) -> Option<Lack>;
}
