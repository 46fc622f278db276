//! Removing what a publication spent.

ghost use Rattle.std.specs.Prelude.{◌≡◌, ◌<◌, ◌^◌, false, OnOk};
ghost use Rattle.tl_ledger.specs.Spent.{LacksSpent};
ghost use Rattle.tl_append.specs.Inner.Shedding.{ShedsSpent};

use crate::faults::unkept;
use tl_archive::Shelf;
use tl_ledger::remove_spent;
use tl_run::RunFault;

/// Removes the partial tiles and bundles that are spent since the log had `from` entries, unless they are kept (C2SP
/// tlog-tiles, "Partial Tiles"). The checkpoint of `size` entries has to be there.
pub(crate) fn shed_spent<S: Shelf>(
    from: u64,
    size: u64,
    keeps_partials: bool,
    shelf: &mut S,
) -> Result<(), RunFault>
    requires small { size < 2 ^ 32 }
    ensures sheds { ShedsSpent size (S.kept shelf.old) (S.kept shelf.new)
        (S.trace shelf.old) (S.trace shelf.new) }
    ensures gone { keeps_partials ≡ false
        → OnOk result (LacksSpent from size (S.kept shelf.new).held) }
    ensures mark { S.published shelf.new ≡ S.published shelf.old }
    ensures place { S.place shelf.new ≡ S.place shelf.old }
{
    if keeps_partials {
        return Ok(());
    }
    match remove_spent(shelf, from, size) {
        Ok(()) => Ok(()),
        Err(fault) => Err(unkept(fault)),
    }
}
