//! What was done to a disk in memory, one change after another, and what that comes to.
ghost use Rattle.std.specs.Prelude.{◌≡◌, IfErr, IfOk, IfSome, None, OnOk, option_map};
ghost use Rattle.flute_memory.specs.MemoryDisk.{run_of, leads, LeadsBack, LeadsTo};
ghost use Rattle.flute_memory.specs.MemoryFolders.{AddsBytes, Decides, IsPassed, seen_within, within};

use std::alloc::{AllocError, Global};

/// What a call did to the disk. A file or folder goes by the count of the changes before it was
/// made.
#[derive(Drop)]
pub enum Change {
    /// An empty file was made.
    Made { name: Vec<u8> },
    /// A folder without files was made.
    FolderMade { name: Vec<u8> },
    /// An empty file of this name was made in a folder.
    MadeWithin { folder: usize, name: Vec<u8> },
    /// A file got these bytes at its end.
    Written { file: usize, bytes: Vec<u8> },
    /// A file lost all its bytes.
    Truncated { file: usize },
    /// The disk has all of a file, or of the names in a folder.
    Synced { file: usize },
    /// The file of one name got another.
    Renamed { source: Vec<u8>, target: Vec<u8> },
    /// A name is gone.
    Removed { name: Vec<u8> },
    /// A name in a folder is gone.
    RemovedWithin { folder: usize, name: Vec<u8> },
    /// All names in a folder are gone.
    Emptied { folder: usize },
    /// The disk has all names as they are, but for those in folders.
    Confirmed,
}

/// The file or folder that the name leads to after these changes.
pub fn target(changes: &[Change], name: &str) -> Option<usize>
    ensures { result ≡ leads (run_of changes.now) name.now }
{
    let mut wanted = name.as_bytes();
    let mut left = changes.len();
    while left > 0 {
        left -= 1;
        match sought(&changes[left], left, wanted) {
            Ok(earlier) => wanted = earlier,
            Err(found) => return found,
        }
    }
    None
}

// The name that led before a change to what this name leads to after it; or what that is, where
// the change says so.
fn sought<'a>(
    change: &'a Change,
    number: usize,
    wanted: &'a [u8],
) -> Result<&'a [u8], Option<usize>>
    ensures earlier { IfOk result (λ earlier. LeadsBack change.now wanted.now earlier.now) }
    ensures found { IfErr result (λ found. LeadsTo change.now number wanted.now found) }
{
    match change {
        Change::Made { name } | Change::FolderMade { name } if wanted == name.as_slice() => {
            Err(Some(number))
        }
        Change::Renamed { source, target } => {
            if wanted == target.as_slice() {
                Ok(source.as_slice())
            } else if wanted == source.as_slice() {
                Err(None)
            } else {
                Ok(wanted)
            }
        }
        Change::Removed { name } if wanted == name.as_slice() => Err(None),
        _ => Ok(wanted),
    }
}

/// The file that the name in this folder leads to after these changes.
pub fn target_within(changes: &[Change], folder: usize, name: &[u8]) -> Option<usize>
    ensures { result ≡ within folder name.now changes.now }
{
    let mut left = changes.len();
    while left > 0 {
        left -= 1;
        if let Some(found) = decided(&changes[left], left, folder, name) {
            return found;
        }
    }
    None
}

// What the name in the folder leads to after this change, if the change decides that.
fn decided(change: &Change, number: usize, folder: usize, name: &[u8]) -> Option<Option<usize>>
    ensures decides { IfSome result (Decides change.now number folder name.now) }
    ensures passes { result ≡ None → IsPassed change.now number folder name.now }
{
    match change {
        Change::MadeWithin {
            folder: made_in,
            name: made,
        } if *made_in == folder && name == made.as_slice() => Some(Some(number)),
        Change::RemovedWithin {
            folder: removed_in,
            name: removed,
        } if *removed_in == folder && name == removed.as_slice() => Some(None),
        Change::Emptied { folder: emptied } if *emptied == folder => Some(None),
        _ => None,
    }
}

/// Whether the folder has files after these changes.
pub fn has_files(changes: &[Change], folder: usize) -> bool {
    let mut left = changes.len();
    while left > 0 {
        left -= 1;
        if let Change::MadeWithin { name, .. } = &changes[left] {
            if target_within(changes, folder, name) == Some(left) {
                return true;
            }
        }
    }
    false
}

/// What a reader finds at this name in the folder of that name after these changes.
///
/// # Errors
///
/// `AllocError`.
pub fn contents(
    alloc: Global,
    changes: &[Change],
    folder: &str,
    name: &str,
) -> Result<Option<Vec<u8>>, AllocError>
    ensures { IfOk result (λ found. option_map (λ bytes. bytes.items) found
        ≡ seen_within folder.now name.now changes.now) }
{
    let Some(folder) = target(changes, folder) else {
        return Ok(None);
    };
    let Some(file) = target_within(changes, folder, name.as_bytes()) else {
        return Ok(None);
    };
    Ok(Some(bytes_of(alloc, changes, file)?))
}

/// The bytes of a file after these changes.
///
/// # Errors
///
/// `AllocError`.
pub fn bytes_of(alloc: Global, changes: &[Change], file: usize) -> Result<Vec<u8>, AllocError>
    ensures { IfOk result (λ bytes. bytes.items ≡ ((run_of changes.now).now.files file).bytes) }
{
    let mut bytes = Vec::new(alloc);
    let mut count = 0;
    while count < changes.len() {
        add_bytes(&mut bytes, &changes[count], count, file)?;
        count += 1;
    }
    Ok(bytes)
}

// What the file has after this change, where it had these bytes before.
fn add_bytes(
    bytes: &mut Vec<u8>,
    change: &Change,
    number: usize,
    file: usize,
) -> Result<(), AllocError>
    ensures { OnOk result (AddsBytes change.now number file bytes.old.items bytes.new.items) }
{
    match change {
        Change::Made { .. } | Change::FolderMade { .. } | Change::MadeWithin { .. }
            if number == file => {
            bytes.clear();
            Ok(())
        }
        Change::Written {
            file: written,
            bytes: more,
        } if *written == file => bytes.extend_from_slice(more),
        Change::Truncated { file: emptied } if *emptied == file => {
            bytes.clear();
            Ok(())
        }
        _ => Ok(()),
    }
}
