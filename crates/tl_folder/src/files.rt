//! The files of a folder. Each is written beside its place, and all that were written are put in place together.

ghost use Rattle.std.specs.Prelude.{◌≡◌, ◌⊎◌, [], ◌∷◌, ◌++◌, map, string_bytes, vec_items, IfOk, OnOk, OnErr};
ghost use Rattle.tl_tile.specs.Path.{IsResource};
ghost use Rattle.tl_folder.specs.FileCalls.{Does, Takes};
ghost use Rattle.tl_folder.specs.Posix.{folder_of};
ghost use Rattle.tl_folder.specs.Settling.{AreCovered, OpensFolder, WritesAside, new_path, move_to, settling, naming_in, marking};
ghost use Rattle.tl_folder.specs.Places.{mark_path, mark_text, partials_path, place_of, removed_path};
ghost use Rattle.tl_folder.specs.Removing.{HasMoved, HasNotMoved};
ghost use Rattle.tl_folder.specs.Inner.Staged.{move_of};

use crate::file_id::FileId;
use crate::folders::{folder_of, note_folders};
use crate::making::make_folders;
use crate::mark::{MOST_MARK, parse_mark};
use crate::over::put_over;
use crate::place::{beside, path_under};
use crate::removing::{Going, remove_moved};
use crate::resource::read_at;
use crate::staged::{Staged, put_staged, write_in_folder};
use crate::system::SystemCalls;
use crate::together::SyncsTogether;
use std::alloc::{AllocError, Allocator, Global};
use std::fs::Files;
use std::mem;
use tl_device::DeviceFault;
use tl_tile::Resource;

/// The files under a folder.
#[derive(Drop)]
pub(crate) struct FolderFiles<H> {
    pub(crate) calls: SystemCalls<H>,
    alloc: Global,
    root: String,
    // The folder that was at the path when it was opened.
    folder: FileId,
    staged: Vec<Staged>,
    // The folders that the next settling must sync: files are put there, or folders were made for them.
    changed: Vec<String>,
    // Whether a settling or a removal has failed. It isn't known then what of it outlasts a crash.
    is_broken: bool,
    // `changed` has, for each place, its folder and those above it up to the root.
    ghost covered: { AreCovered (string_bytes root)
        (map string_bytes (vec_items changed)) (map move_of (vec_items staged)) },
}

/// Syncs the folder that this path is in, so that the path's name outlasts a crash.
pub(crate) fn sync_parent<H: Files>(
    calls: &mut SystemCalls<H>,
    path: &str,
) -> Result<(), DeviceFault>
    ensures { Does (naming_in (folder_of path.now))
        calls.old calls.new result }
{
    match folder_of(path) {
        Some(folder) => calls.sync_folder(folder),
        None => Ok(()),
    }
}

impl<H: Files + Drop> FolderFiles<H> {
    /// Opens the files under this folder, which is made if it isn't there. Syncs its name and the names in it, since
    /// a process that was killed may have put a file there without syncing it.
    pub(crate) fn open(
        mut calls: SystemCalls<H>,
        alloc: Global,
        root: &str,
    ) -> Result<FolderFiles<H>, DeviceFault>
        ensures calls { IfOk result
            (λ files. OpensFolder root.now calls files.calls) }
        ensures unstaged { IfOk result (λ files. vec_items files.staged ≡ []) }
    {
        make_folders(&mut calls, root, true)?;
        sync_parent(&mut calls, root)?;
        calls.sync_folder(root)?;
        let folder = FileId::of(&calls.metadata(root)?);
        Ok(FolderFiles {
            calls,
            alloc,
            root: String::from_str(alloc, root.trim_end_matches('/'))?,
            folder,
            staged: Vec::new(alloc),
            changed: Vec::new(alloc),
            is_broken: false,
        })
    }

    // Fails with `Moved` if the folder at the path isn't the one that was opened.
    fn check_folder(&self) -> Result<(), DeviceFault> {
        let root = self.root.as_str();
        let path = if root.is_empty() { "/" } else { root };
        self.folder.check(self.calls.metadata(path))
    }

    // Returns the path of a resource's file.
    fn place_of(&self, resource: &Resource) -> Result<String, AllocError>
        requires { IsResource resource.now }
        ensures { IfOk result (λ place. string_bytes place
            ≡ place_of (string_bytes self.now.root) resource.now) }
    {
        path_under(self.alloc, self.root.as_str(), resource)
    }

    // Returns the path of the mark's file.
    fn mark_place(&self) -> Result<String, AllocError>
        ensures { IfOk result (λ place. string_bytes place
            ≡ mark_path (string_bytes self.now.root)) }
    {
        let mut place = String::from_str(self.alloc, self.root.as_str())?;
        place.push_str("/")?;
        place.push_str("published")?;
        Ok(place)
    }

    /// Writes the bytes beside the place of a resource. `Moved` means that the folder at the path isn't the one that
    /// was opened; `NotPlain` that something else than a plain file, such as a symbolic link, is where the bytes
    /// would be written. Nothing was written then.
    pub(crate) fn stage(&mut self, resource: &Resource, bytes: &[u8]) -> Result<(), DeviceFault>
        requires { IsResource resource.now }
        ensures calls { WritesAside (new_path (place_of (string_bytes self.old.root) resource.now)) bytes.now
            self.old.calls self.new.calls result }
        ensures staged { OnOk result (map move_of (vec_items self.new.staged)
            ≡ map move_of (vec_items self.old.staged)
            ++ move_to (place_of (string_bytes self.old.root) resource.now) ∷ []) }
        ensures unstaged { OnErr result (map move_of (vec_items self.new.staged)
            ≡ map move_of (vec_items self.old.staged)) }
        ensures root { string_bytes self.new.root ≡ string_bytes self.old.root }
    {
        if self.is_broken {
            return Err(DeviceFault::System);
        }
        self.check_folder()?;
        let place = self.place_of(resource)?;
        let beside = beside(self.alloc, place.as_str())?;
        note_folders(
            self.alloc,
            &mut self.changed,
            self.root.as_str(),
            place.as_str(),
        )?;
        self.staged.reserve(1)?;
        write_in_folder(&mut self.calls, beside.as_str(), bytes)?;
        self.staged.push_reserved(Staged { beside, place });
        Ok(())
    }

    /// Returns the paths for removing the partial tiles or bundles of a full one. `Moved` means that the folder at
    /// the path isn't the one that was opened.
    pub(crate) fn going_of(&self, full: &Resource) -> Result<Going, DeviceFault>
        requires { IsResource full.now }
        ensures partials { IfOk result (λ going. string_bytes going.partials
            ≡ partials_path (string_bytes self.now.root) full.now) }
        ensures removed { IfOk result (λ going. string_bytes going.removed
            ≡ removed_path (string_bytes self.now.root)) }
    {
        if self.is_broken {
            return Err(DeviceFault::System);
        }
        self.check_folder()?;
        let mut partials = self.place_of(full)?;
        partials.push_str(".p")?;
        let mut removed = String::from_str(self.alloc, self.root.as_str())?;
        removed.push_str("/")?;
        removed.push_str("removed")?;
        Ok(Going { partials, removed })
    }

    /// Removes the folder of partial tiles or bundles, if it is there. Waits for the disk: the folder stays away
    /// after a crash, though what was in it may be left at another path. After an error every call fails.
    pub(crate) fn remove(&mut self, going: &Going) -> Result<(), DeviceFault>
        ensures moved { OnOk result (HasMoved (string_bytes going.now.partials)
            (string_bytes going.now.removed) self.old.calls self.new.calls
            ⊎ HasNotMoved (string_bytes going.now.partials) (string_bytes going.now.removed)
            self.old.calls self.new.calls) }
        ensures failed { OnErr result (HasNotMoved (string_bytes going.now.partials)
            (string_bytes going.now.removed) self.old.calls self.new.calls) }
        ensures staged { map move_of (vec_items self.new.staged)
            ≡ map move_of (vec_items self.old.staged) }
        ensures root { string_bytes self.new.root ≡ string_bytes self.old.root }
    {
        self.is_broken = true;
        remove_moved(
            &mut self.calls,
            self.alloc,
            going.partials.as_str(),
            going.removed.as_str(),
        )?;
        self.is_broken = false;
        Ok(())
    }

    /// Returns the bytes of a resource's file, or `None` if there is none. Links are followed, and must end at a
    /// plain file. `TooLarge` means that it has more bytes than `most_bytes`.
    pub(crate) fn read<A: Allocator>(
        &self,
        alloc: A,
        resource: &Resource,
    ) -> Result<Option<Vec<u8, A>>, DeviceFault>
        requires { IsResource resource.now }
    {
        let place = self.place_of(resource)?;
        read_at(&self.calls, alloc, place.as_str(), resource, true)
    }

    /// Writes how many entries were published beside the mark's file, and puts it there. It isn't synced: a crash may
    /// leave an older mark or none. `Moved` means that the folder at the path isn't the one that was opened; nothing
    /// was written then.
    pub(crate) fn mark(&mut self, size: u64) -> Result<(), DeviceFault>
        ensures calls { Takes (marking (string_bytes self.old.root) (mark_text size))
            self.old.calls self.new.calls result }
        ensures staged { map move_of (vec_items self.new.staged)
            ≡ map move_of (vec_items self.old.staged) }
        ensures root { string_bytes self.new.root ≡ string_bytes self.old.root }
    {
        if self.is_broken {
            return Err(DeviceFault::System);
        }
        self.check_folder()?;
        let place = self.mark_place()?;
        let beside = beside(self.alloc, place.as_str())?;
        let text = format!(in self.alloc; "{size}\n")?;
        let (aside, place) = (beside.as_str(), place.as_str());
        put_over(&mut self.calls, aside, place, text.as_bytes(), false)
    }

    /// Returns how many entries the mark's file says were published, or `None` if there is no such file or it has no
    /// such number.
    pub(crate) fn read_mark(&self) -> Result<Option<u64>, DeviceFault> {
        let place = self.mark_place()?;
        let told = self.calls.metadata(place.as_str());
        match self.calls.read(self.alloc, place.as_str(), told, MOST_MARK) {
            Ok(Some(bytes)) => Ok(parse_mark(bytes.as_slice())),
            Ok(None) | Err(DeviceFault::TooLarge) => Ok(None),
            Err(fault) => Err(fault),
        }
    }
}

impl<H: Files + Drop> FolderFiles<H> {
    /// Puts all files that were written beside their places in place. Waits for the disk: they then outlast a crash.
    /// `Moved` means that the folder at the path isn't the one that was opened; nothing was put in place then. After
    /// an error every call fails.
    pub(crate) fn settle<D: SyncsTogether>(&mut self, disk: &D) -> Result<(), DeviceFault>
        ensures calls { Takes (settling (map move_of (vec_items self.old.staged))
            (map string_bytes (vec_items self.old.changed)))
            self.old.calls self.new.calls result }
        ensures covered { AreCovered (string_bytes self.old.root)
            (map string_bytes (vec_items self.old.changed)) (map move_of (vec_items self.old.staged)) }
        ensures root { string_bytes self.new.root ≡ string_bytes self.old.root }
        ensures unstaged { OnOk result (vec_items self.new.staged ≡ []) }
    {
        if self.is_broken {
            return Err(DeviceFault::System);
        }
        let staged = mem::replace(&mut self.staged, Vec::new(self.alloc));
        let changed = mem::replace(&mut self.changed, Vec::new(self.alloc));
        self.is_broken = true;
        self.check_folder()?;
        put_staged(
            &mut self.calls,
            disk,
            self.alloc,
            staged.as_slice(),
            changed.as_slice(),
        )?;
        self.is_broken = false;
        Ok(())
    }
}
