//! What requests are answered from.

ghost use Rattle.std.specs.Prelude.{◌≡◌};
ghost use Rattle.tl_device.specs.Device.{passage};
ghost use Rattle.tl_server.specs.ServeOpen.{ServesOpen};

use std::alloc::Global;
use std::io::{Read, Write};
use tl_device::Counted;
use tl_server::{Outcome, ServeFault, Submits};

/// What requests are answered from, such as a log's board or a shelf.
pub trait Resources: Drop {
    ghost use Rattle.std.specs.Prelude.{Option};
    ghost use Rattle.tl_hash.specs.Bytes.{Bytes};
    ghost use Rattle.tl_server.specs.Adding.{Course};
    ghost use Rattle.tl_server.specs.declared.adding.EntryStatus.{EntryStatus};

    /// What an input leads to, by these resources before and after. The third argument says that no entry was
    /// submitted, the fourth that one call reported this status of an entry.
    ghost courses: { Self → Self → Type 0 → (Bytes → EntryStatus → Type 0)
        → Bytes → Option Course → Type 0 };

    /// Nothing was asked, if the third argument says that no entry was submitted.
    ghost idle: { Self → Self → Type 0 → Type 0 };

    /// Answers one request, if its answer is known. The queue is asked for the index of a posted entry.
    fn answer<I: Read, O: Write, T: Submits>(
        &mut self,
        alloc: Global,
        reader: &mut Counted<I>,
        writer: &mut Counted<O>,
        queue: &mut T,
    ) -> Result<Outcome, ServeFault>
        ensures { ServesOpen (idle self.old self.new (queue.new ≡ queue.old))
            (courses self.old self.new (queue.new ≡ queue.old) (T.submits queue.old queue.new))
            (passage I.remaining reader.old reader.new)
            (passage O.contents writer.old writer.new) result };

    /// Forgets what was read for the answers so far: for the next ones it is read anew. An `impl` that keeps nothing
    /// may leave it out.
    fn forget(&mut self)
        ensures { self.new ≡ self.old }
    {}
}
