//! The trait of shelves.

use crate::fault::ShelfFault;
use std::alloc::Allocator;
use tl_tile::Resource;

/// Keeps bytes by resource (C2SP tlog-tiles). Bytes are staged first; `settle` then puts all that are staged under
/// their resources. Besides them a shelf has a mark: how many entries were published. Contracts see what is there and
/// what is staged, now and after each call so far, how many calls failed, and where the shelf is.
pub trait Shelf {
    ghost use Rattle.std.specs.Prelude.{◌≡◌, ℕ, Bool, true, List, [], ◌∷◌, ◌++◌, OnOk, OnErr, IfOk, IfErr, Option, Some, option_map, vec_items};
    ghost use Rattle.tl_hash.specs.Bytes.{Bytes};
    ghost use Rattle.tl_tile.specs.Path.{IsResource};
    ghost use Rattle.tl_tile.specs.declared.resource.Resource.{Resource};
    ghost use Rattle.tl_archive.specs.declared.fault.ShelfFault.{ShelfFault};
    ghost use Rattle.tl_archive.specs.Partials.{IsFull};
    ghost use Rattle.tl_archive.specs.Shelves.{Kept, Stages, Unstages, Settles, Removes, LacksPartials, Fails};

    /// What is there and what is staged.
    ghost kept: { Self → Kept };

    /// What was there and what was staged after each call so far.
    ghost trace: { Self → List Kept };

    /// How many calls failed.
    ghost faults: { Self → ℕ };

    /// Where the shelf is, as it was opened. No call changes it.
    ghost place: { Self → Bytes };

    /// The last mark: how many entries were published.
    ghost published: { Self → Option ℕ };

    /// The errors with which a read of a resource may fail.
    ghost may_fail: { Self → Resource → ShelfFault → Type 0 };

    /// Whether contracts may assume that a read returns what is there. No specification of a file system says so.
    ghost is_honest: { Bool };

    /// Stages the bytes, which are to replace those of the resource. On error nothing is staged.
    fn stage(&mut self, resource: &Resource, bytes: &[u8]) -> Result<(), ShelfFault>
        requires { IsResource resource.now }
        ensures staged { OnOk result
            (Stages (kept self.old) (kept self.new) resource.now bytes.now) }
        ensures unstaged { OnErr result (kept self.new ≡ kept self.old) }
        ensures unfailed { OnOk result (faults self.new ≡ faults self.old) }
        ensures failed { OnErr result (Fails (faults self.old) (faults self.new)) }
        ensures trace { trace self.new ≡ trace self.old ++ kept self.new ∷ [] }
        ensures place { place self.new ≡ place self.old }
        ensures mark { published self.new ≡ published self.old };

    /// Puts all that is staged under its resources, so that it outlasts a crash. Each resource has its old bytes
    /// until some moment, and the new ones from then on. On error a part of what was staged may be there, and the
    /// rest is no longer staged.
    fn settle(&mut self) -> Result<(), ShelfFault>
        ensures unstaged { Unstages (kept self.old) (kept self.new) }
        ensures settled { OnOk result (Settles (kept self.old) (kept self.new)) }
        ensures unfailed { OnOk result (faults self.new ≡ faults self.old) }
        ensures failed { OnErr result (Fails (faults self.old) (faults self.new)) }
        ensures trace { trace self.new ≡ trace self.old ++ kept self.new ∷ [] }
        ensures place { place self.new ≡ place self.old }
        ensures mark { published self.new ≡ published self.old };

    /// Removes the partial tiles or bundles of a full one (C2SP tlog-tiles, "Partial Tiles"), all at one moment, and
    /// so that they stay away after a crash. On error some may be gone.
    fn remove_partials(&mut self, full: &Resource) -> Result<(), ShelfFault>
        requires { IsFull full.now }
        ensures removed { Removes full.now (kept self.old) (kept self.new) }
        ensures none { OnOk result (LacksPartials full.now (kept self.new).held) }
        ensures unfailed { OnOk result (faults self.new ≡ faults self.old) }
        ensures failed { OnErr result (Fails (faults self.old) (faults self.new)) }
        ensures trace { trace self.new ≡ trace self.old ++ kept self.new ∷ [] }
        ensures place { place self.new ≡ place self.old }
        ensures mark { published self.new ≡ published self.old };

    /// Marks that a checkpoint of `size` entries was published. The call doesn't wait for the disk: a crash may leave
    /// an older mark or none.
    fn mark_published(&mut self, size: u64) -> Result<(), ShelfFault>
        ensures kept { kept self.new ≡ kept self.old }
        ensures marked { OnOk result (published self.new ≡ Some size) }
        ensures unfailed { OnOk result (faults self.new ≡ faults self.old) }
        ensures failed { OnErr result (Fails (faults self.old) (faults self.new)) }
        ensures trace { trace self.new ≡ trace self.old ++ kept self.new ∷ [] }
        ensures place { place self.new ≡ place self.old };

    /// Returns the mark, or `None` if there is none. A shelf that isn't honest may answer anything.
    fn read_mark(&self) -> Result<Option<u64>, ShelfFault>
        ensures { is_honest ≡ true → IfOk result (λ found. found ≡ published self.now) };

    /// Returns the bytes of the resource, or `None` if there are none. A shelf that isn't honest may answer anything.
    fn read<A: Allocator>(
        &self,
        alloc: A,
        resource: &Resource,
    ) -> Result<Option<Vec<u8, A>>, ShelfFault>
        requires { IsResource resource.now }
        ensures found { is_honest ≡ true → IfOk result
            (λ found. option_map vec_items found ≡ (kept self.now).held resource.now) }
        ensures failed { IfErr result (may_fail self.now resource.now) };
}
