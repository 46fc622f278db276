//! A shelf in a folder. A file is first written beside its place, under its name with `.new` added. The mark is the
//! number in decimal and a newline.

ghost use Rattle.std.specs.Prelude.{◌≡◌, [], ◌∷◌, ◌++◌, IfOk, OnOk, OnErr};
ghost use Rattle.tl_folder.specs.Folders.{IsOver};

use crate::call_outcome::CallOutcome;
use crate::disk::CrashOutcome;
use crate::files::FolderFiles;
use crate::record::{Record, note_of};
use crate::system::SystemCalls;
use http_server::Log;
use std::alloc::{Allocator, Global};
use std::fs::Files;
use std::marker::Model;
use tl_archive::{Shelf, ShelfFault};
use tl_device::DeviceFault;
use tl_tile::Resource;

/// A folder with a log in the layout of C2SP tlog-tiles: each resource is the file at its path, and the file
/// `published` has the number of published entries. The partial tiles or bundles of a full one are in one folder; to
/// remove them it is moved to the path `removed` in one step. After a settling or such a move failed, every call
/// fails, since it isn't known what outlasts a crash. If another folder has taken its path, writes fail and write
/// nothing.
#[derive(Drop)]
pub struct FolderShelf<D, H> {
    disk: D,
    files: FolderFiles<H>,
    calls: Record,
    failures: u64,
    place: Log<(), u8>,
    published: Option<u64>,
}

impl<D, H> Model for FolderShelf<D, H> {
    ghost use Rattle.tl_folder.specs.Folders as seen;

    ghost Value = { seen.Calls };

    ghost use Rattle.std.specs.Prelude.{map, string_bytes, vec_items};
    ghost use Rattle.tl_folder.specs.Events.{noted};
    ghost use Rattle.tl_folder.specs.Inner.Staged.{move_of};

    ghost view = { λ s. record {
      events = s.calls;
      failures = s.failures;
      root = string_bytes s.files.root;
      moves = map move_of (vec_items s.files.staged);
      made = s.files.calls;
      place = noted s.place;
      published = s.published;
    } };
}

// Returns the fault that the folder failed for a resource. If another folder took its path, the fault is for no
// single resource.
fn fault_over(resource: &Resource, why: DeviceFault) -> ShelfFault
    ensures why { result.why ≡ why }
    ensures over { IsOver resource.now result }
{
    let resource = match why {
        DeviceFault::Moved => None,
        _ => Some(*resource),
    };
    ShelfFault { resource, why }
}

impl<D: CrashOutcome + Drop, H: Files + Drop> FolderShelf<D, H> {
    ghost use Rattle.std.specs.Prelude.{None};
    ghost use Rattle.tl_folder.specs.Settling.{OpensFolder};

    /// Opens the folder at this path, which is made if it isn't there.
    pub fn open(
        disk: D,
        files: H,
        alloc: Global,
        path: &str,
    ) -> Result<FolderShelf<D, H>, DeviceFault>
        ensures events { IfOk result (λ shelf. shelf.events ≡ []) }
        ensures moves { IfOk result (λ shelf. shelf.moves ≡ []) }
        ensures made { IfOk result (λ shelf. OpensFolder path.now [] shelf.made) }
        ensures place { IfOk result (λ shelf. shelf.place ≡ path.now) }
        ensures unmarked { IfOk result (λ shelf. shelf.published ≡ None) }
        ensures unfailed { IfOk result (λ shelf. shelf.failures ≡ 0) }
    {
        let files = FolderFiles::open(SystemCalls::new(files), alloc, path)?;
        Ok(FolderShelf {
            disk,
            files,
            calls: Record::new(),
            failures: 0,
            place: note_of(path.as_bytes()),
            published: None,
        })
    }
}

impl<D: CrashOutcome, H: Files + Drop> Shelf for FolderShelf<D, H> {
    ghost use Rattle.std.specs.Prelude.{false, Some};
    ghost use Rattle.tl_archive.specs.Partials.{IsFull};
    ghost use Rattle.tl_archive.specs.Shelves.{Stages, Unstages, Settles, Removes, LacksPartials, Fails};
    ghost use Rattle.tl_tile.specs.Path.{IsResource};
    ghost use Rattle.tl_folder.specs.FileCalls.{Takes};
    ghost use Rattle.tl_folder.specs.Folders.{SettlesFiles, NotesRemoval, kept_by, traced_by};
    ghost use Rattle.tl_folder.specs.Places.{mark_text, partials_path, place_of, removed_path};
    ghost use Rattle.tl_folder.specs.Removing.{RemovesFolder};
    ghost use Rattle.tl_folder.specs.Settling.{WritesAside, marking, move_to, new_path};

    ghost kept = { λ s. kept_by D.held D.reached s };

    ghost trace = { λ s. traced_by D.held D.reached s };

    ghost faults = { λ s. s.failures };

    ghost place = { λ s. s.place };

    ghost published = { λ s. s.published };

    ghost may_fail = { λ s r fault. IsOver r fault };

    ghost is_honest = { false };

    fn stage(&mut self, resource: &Resource, bytes: &[u8]) -> Result<(), ShelfFault>
        requires { IsResource resource.now }
        ensures staged { OnOk result (Stages (kept_by D.held D.reached self.old)
            (kept_by D.held D.reached self.new) resource.now bytes.now) }
        ensures unstaged { OnErr result
            (kept_by D.held D.reached self.new ≡ kept_by D.held D.reached self.old) }
        ensures unfailed { OnOk result (self.new.failures ≡ self.old.failures) }
        ensures failed { OnErr result (Fails self.old.failures self.new.failures) }
        ensures trace { traced_by D.held D.reached self.new
            ≡ traced_by D.held D.reached self.old ++ kept_by D.held D.reached self.new ∷ [] }
        ensures made { WritesAside (new_path (place_of self.old.root resource.now)) bytes.now
            self.old.made self.new.made result }
        ensures moves { OnOk result (self.new.moves
            ≡ self.old.moves ++ move_to (place_of self.old.root resource.now) ∷ []) }
        ensures unmoved { OnErr result (self.new.moves ≡ self.old.moves) }
        ensures root { self.new.root ≡ self.old.root }
        ensures place { self.new.place ≡ self.old.place }
        ensures mark { self.new.published ≡ self.old.published }
    {
        match self.files.stage(resource, bytes) {
            Ok(()) => {
                self.calls.note(CallOutcome::Staged(*resource), bytes);
                Ok(())
            }
            Err(why) => {
                self.calls.note(CallOutcome::Failed, &[]);
                self.failures = self.failures.saturating_add(1);
                Err(fault_over(resource, why))
            }
        }
    }

    fn settle(&mut self) -> Result<(), ShelfFault>
        ensures unstaged { Unstages (kept_by D.held D.reached self.old)
            (kept_by D.held D.reached self.new) }
        ensures settled { OnOk result (Settles (kept_by D.held D.reached self.old)
            (kept_by D.held D.reached self.new)) }
        ensures unfailed { OnOk result (self.new.failures ≡ self.old.failures) }
        ensures failed { OnErr result (Fails self.old.failures self.new.failures) }
        ensures trace { traced_by D.held D.reached self.new
            ≡ traced_by D.held D.reached self.old ++ kept_by D.held D.reached self.new ∷ [] }
        ensures made { SettlesFiles self.old self.new.made result }
        ensures moves { OnOk result (self.new.moves ≡ []) }
        ensures root { self.new.root ≡ self.old.root }
        ensures place { self.new.place ≡ self.old.place }
        ensures mark { self.new.published ≡ self.old.published }
    {
        match self.files.settle(&self.disk) {
            Ok(()) => {
                self.calls.note(CallOutcome::Settled, &[]);
                Ok(())
            }
            Err(why) => {
                self.calls.note(CallOutcome::Cut, &[]);
                self.failures = self.failures.saturating_add(1);
                Err(ShelfFault {
                    resource: None,
                    why,
                })
            }
        }
    }

    fn remove_partials(&mut self, full: &Resource) -> Result<(), ShelfFault>
        requires { IsFull full.now }
        ensures removed { Removes full.now (kept_by D.held D.reached self.old)
            (kept_by D.held D.reached self.new) }
        ensures none { OnOk result
            (LacksPartials full.now (kept_by D.held D.reached self.new).held) }
        ensures unfailed { OnOk result (self.new.failures ≡ self.old.failures) }
        ensures failed { OnErr result (Fails self.old.failures self.new.failures) }
        ensures trace { traced_by D.held D.reached self.new
            ≡ traced_by D.held D.reached self.old ++ kept_by D.held D.reached self.new ∷ [] }
        ensures made { RemovesFolder (partials_path self.old.root full.now)
            (removed_path self.old.root) self.old.made self.new.made result }
        ensures noted { NotesRemoval full.now self.old self.new result }
        ensures moves { self.new.moves ≡ self.old.moves }
        ensures root { self.new.root ≡ self.old.root }
        ensures place { self.new.place ≡ self.old.place }
        ensures mark { self.new.published ≡ self.old.published }
    {
        match self.files.going_of(full) {
            Ok(going) => match self.files.remove(&going) {
                Ok(()) => {
                    self.calls.note(CallOutcome::Removed(*full), &[]);
                    Ok(())
                }
                Err(why) => {
                    self.calls.note(CallOutcome::PartRemoved(*full), &[]);
                    self.failures = self.failures.saturating_add(1);
                    Err(fault_over(full, why))
                }
            },
            Err(why) => {
                self.calls.note(CallOutcome::Failed, &[]);
                self.failures = self.failures.saturating_add(1);
                Err(fault_over(full, why))
            }
        }
    }

    fn mark_published(&mut self, size: u64) -> Result<(), ShelfFault>
        ensures kept { kept_by D.held D.reached self.new ≡ kept_by D.held D.reached self.old }
        ensures marked { OnOk result (self.new.published ≡ Some size) }
        ensures unmarked { OnErr result (self.new.published ≡ self.old.published) }
        ensures unfailed { OnOk result (self.new.failures ≡ self.old.failures) }
        ensures failed { OnErr result (Fails self.old.failures self.new.failures) }
        ensures trace { traced_by D.held D.reached self.new
            ≡ traced_by D.held D.reached self.old ++ kept_by D.held D.reached self.new ∷ [] }
        ensures made { Takes (marking self.old.root (mark_text size))
            self.old.made self.new.made result }
        ensures moves { self.new.moves ≡ self.old.moves }
        ensures root { self.new.root ≡ self.old.root }
        ensures place { self.new.place ≡ self.old.place }
    {
        match self.files.mark(size) {
            Ok(()) => {
                self.calls.note(CallOutcome::Marked, &[]);
                self.published = Some(size);
                Ok(())
            }
            Err(why) => {
                self.calls.note(CallOutcome::Failed, &[]);
                self.failures = self.failures.saturating_add(1);
                Err(ShelfFault {
                    resource: None,
                    why,
                })
            }
        }
    }

    fn read_mark(&self) -> Result<Option<u64>, ShelfFault> {
        match self.files.read_mark() {
            Ok(found) => Ok(found),
            Err(why) => Err(ShelfFault {
                resource: None,
                why,
            }),
        }
    }

    fn read<A: Allocator>(
        &self,
        alloc: A,
        resource: &Resource,
    ) -> Result<Option<Vec<u8, A>>, ShelfFault> {
        match self.files.read(alloc, resource) {
            Ok(found) => Ok(found),
            Err(why) => Err(fault_over(resource, why)),
        }
    }
}
