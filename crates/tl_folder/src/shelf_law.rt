//! What a crash leaves of a shelf in a folder. These laws hold of the definitions alone, over the calls that the
//! contracts of `FolderShelf` name.

ghost use Rattle.std.specs.Prelude.{◌≡◌, ◌⊎◌, true, List, [], ◌∷◌, ◌++◌, Option, None};
ghost use Rattle.tl_tile.specs.declared.resource.Resource.{Resource};
ghost use Rattle.tl_tile.specs.Path.{IsResource};
ghost use Rattle.tl_archive.specs.Partials.{IsFull, IsPartialOf};
ghost use Rattle.tl_archive.specs.Shelves.{Item, Held};
ghost use Rattle.tl_folder.specs.Step as step;
ghost use Rattle.tl_folder.specs.Step.{Path, Bytes};
ghost use Rattle.tl_folder.specs.FileCalls.{Call, Begins, done};
ghost use Rattle.tl_folder.specs.Posix.{Disk, Becomes, MayBe};
ghost use Rattle.tl_folder.specs.Places.{partials_path, place_of, removed_path};
ghost use Rattle.tl_folder.specs.Removing.{AreFirst, HasMoved, removing};
ghost use Rattle.tl_folder.specs.Settling.{AreCovered, IsAside, marking, new_path, settling};
ghost use Rattle.tl_folder.specs.Folders.{is_partial_of, put, without};
ghost use Rattle.tl_folder.specs.OnDisk.{AreOnce, AreStaged, Reflects, ReflectsEither, ReflectsSome, moves_of};

/// Staging bytes for a resource, whatever the outcome, changes the file of no resource. It computes nothing: its
/// contract is the law.
pub fn staging_spares_each_resource()
    ensures { (disk now : Disk) (root : Path) (r s : Resource) (bytes : Bytes) (calls : List Call)
        → IsResource s → IsAside (new_path (place_of root r)) bytes calls
        → Becomes disk calls now → now (place_of root s) ≡ disk (place_of root s) }
{}

/// Marking how many entries were published, whatever the outcome, changes the file of no resource. It computes
/// nothing: its contract is the law.
pub fn marking_spares_each_resource()
    ensures { (disk now : Disk) (root : Path) (s : Resource) (bytes : Bytes) (calls : List Call)
        → IsResource s → Begins (marking root bytes) calls
        → Becomes disk calls now → now (place_of root s) ≡ disk (place_of root s) }
{}

/// At each moment of a settling, and after one that failed, a crash leaves under each resource what was held, or the
/// bytes that were staged for it. It computes nothing: its contract is the law.
pub fn settling_shelves_tear_nothing()
    ensures { (root : Path) (held : Held) (items : List Item) (folders : List Path)
        (calls some : List Call) (disk now : Disk) → Reflects root held disk
        → AreOnce items → AreStaged root items calls
        → Begins (settling (moves_of root items) folders) some
        → Becomes disk (calls ++ some) now
        → ReflectsEither root (record { held = held; staged = items }) now }
{}

/// Once what was staged is settled, a crash leaves under each resource the bytes that were staged for it, or what was
/// held if none were staged, and nothing else. It computes nothing: its contract is the law.
pub fn settled_shelves_outlast_a_crash()
    ensures { (root : Path) (held : Held) (items : List Item) (folders : List Path)
        (calls : List Call) (disk now : Disk) → Reflects root held disk
        → AreOnce items → AreStaged root items calls
        → AreCovered root folders (moves_of root items)
        → Becomes disk (calls ++ done (settling (moves_of root items) folders)) now
        → Reflects root (put items held) now }
{}

/// Removing the partial tiles or bundles of a full one, whatever the outcome, changes the file of no other resource.
/// It computes nothing: its contract is the law.
pub fn removing_spares_other_resources()
    ensures { (disk now : Disk) (root : Path) (full s : Resource) (calls : List Call)
        → IsFull full → IsResource s → ¬ IsPartialOf full s
        → AreFirst (removing (partials_path root full) (removed_path root)) calls
        → Becomes disk calls now → now (place_of root s) ≡ disk (place_of root s) }
{}

/// Once the folder of a full one's partial tiles or bundles was moved away, a crash leaves none of them, whatever the
/// outcome of the calls before and of the removal after. It computes nothing: its contract is the law.
pub fn removed_partials_stay_away()
    ensures { (disk now : Disk) (root : Path) (full s : Resource) (before more : List Call)
        (left : Option Bytes) → IsFull full → IsPartialOf full s
        → AreFirst (step.RemoveFolder (removed_path root) ∷ []) more
        → Becomes disk (before
        ++ (step.MoveAway (partials_path root full) (removed_path root), true) ∷ more) now
        → MayBe (now (place_of root s)) left → left ≡ None }
{}

/// At each moment of a removal, and after one that failed, a crash leaves of each partial tile or bundle what it
/// might have left before, or nothing. It computes nothing: its contract is the law.
pub fn removing_tears_nothing()
    ensures { (disk now : Disk) (root : Path) (full s : Resource) (calls : List Call)
        (left : Option Bytes) → IsFull full → IsPartialOf full s
        → AreFirst (removing (partials_path root full) (removed_path root)) calls
        → Becomes disk calls now → MayBe (now (place_of root s)) left
        → MayBe (disk (place_of root s)) left ⊎ (left ≡ None) }
{}

/// At each moment of a removal, and after one that failed, a crash leaves under each resource what was held, or
/// nothing of a partial one. It computes nothing: its contract is the law.
pub fn removing_shelves_tear_nothing()
    ensures { (root : Path) (held : Held) (full : Resource) (calls : List Call) (disk now : Disk)
        → IsFull full → Reflects root held disk
        → AreFirst (removing (partials_path root full) (removed_path root)) calls
        → Becomes disk calls now → ReflectsSome root full held now }
{}

/// Once the folder of the partial tiles or bundles was moved and removed, a crash leaves none of them, and under each
/// other resource what was held and nothing else. It computes nothing: its contract is the law.
pub fn removed_shelves_outlast_a_crash()
    ensures { (root : Path) (held : Held) (full : Resource) (calls : List Call) (disk now : Disk)
        → IsFull full → Reflects root held disk
        → HasMoved (partials_path root full) (removed_path root) [] calls
        → Becomes disk calls now → Reflects root (without (is_partial_of full) held) now }
{}
