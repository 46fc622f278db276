//! The folders above a path.

ghost use Rattle.std.specs.Prelude.{◌≡◌, map, vec_items, string_bytes, IsTrue, OnOk, option_copied};
ghost use Rattle.tl_folder.specs.Step as step;
ghost use Rattle.tl_folder.specs.Posix.{spelled, folder_of};
ghost use Rattle.tl_folder.specs.Settling.{IsAbove, has_path};

use std::alloc::{AllocError, Global};
use std::path::Path;

// Returns a folder's path, given the part of a path before a name: `.` if that is empty.
fn spelled(parent: &str) -> &str
    ensures { result.now ≡ spelled parent.now }
{
    if parent.is_empty() { "." } else { parent }
}

/// Returns the folder that a path is in, or `None` if the path has no name.
pub(crate) fn folder_of(path: &str) -> Option<&str>
    ensures { option_copied result ≡ folder_of path.now }
{
    match Path::new(path).parent() {
        Some(parent) => Some(spelled(parent.as_str())),
        None => None,
    }
}

// Reports whether the folder is in the list.
fn has(folders: &[String], folder: &str) -> bool
    ensures { result ≡ has_path (map string_bytes folders.now) folder.now }
{
    folders.iter().any(|it| it.as_str() == folder)
}

// Adds a folder to the list if it isn't there.
#[tactic(auto, using(crate::proofs::Above::has_more, crate::proofs::Above::has_last))]
fn note_folder(alloc: Global, folders: &mut Vec<String>, folder: &str) -> Result<(), AllocError>
    ensures kept { (it : step.Path) → IsTrue (has_path (map string_bytes (vec_items folders.old)) it)
        → IsTrue (has_path (map string_bytes (vec_items folders.new)) it) }
    ensures noted { OnOk result
        (IsTrue (has_path (map string_bytes (vec_items folders.new)) folder.now)) }
{
    if !has(folders.as_slice(), folder) {
        folders.push(String::from_str(alloc, folder)?)?;
    }
    Ok(())
}

/// Adds the folders that must be synced when a file is put in this place: its own, and those above it up to the root.
pub(crate) fn note_folders(
    alloc: Global,
    folders: &mut Vec<String>,
    root: &str,
    place: &str,
) -> Result<(), AllocError>
    ensures kept { (it : step.Path) → IsTrue (has_path (map string_bytes (vec_items folders.old)) it)
        → IsTrue (has_path (map string_bytes (vec_items folders.new)) it) }
    ensures covered { OnOk result ((folder : step.Path) → IsAbove root.now place.now folder
        → IsTrue (has_path (map string_bytes (vec_items folders.new)) (spelled folder))) }
{
    let mut path = place;
    while let Some(parent) = Path::new(path).parent() {
        let folder = parent.as_str();
        note_folder(alloc, folders, spelled(folder))?;
        if folder.len() <= root.len() {
            return Ok(());
        }
        path = folder;
    }
    Ok(())
}
