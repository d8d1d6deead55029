//! What the path of an output leads to.

use crate::beside::Wanted;
use crate::device_file::DeviceFile;
use crate::disk_folder::{DiskFolder, new_mode};
use crate::file_limit::FileLimit;
use crate::found::is_standard_output;
use crate::name_pair::{NamePair, found_at};
use flute_calls::{FileId, SystemCalls};
use std::alloc::Global;
use std::fs::{self, File};
use std::io::{self, ErrorKind};
use std::path::PathBuf;
use std::rt::Files;

/// The path that means standard output.
const STANDARD: &str = "-";

/// The most links that are followed, as the system does.
const MAX_LINKS: u32 = 40;

/// What the path of an output leads to.
#[derive(Drop)]
pub enum Place<F, D> {
    /// A regular file, or nothing yet: its bytes go beside it first.
    File(F),
    /// What is neither, as a pipe or a device: it takes the bytes itself.
    Device(D),
    /// Standard output.
    StandardOutput,
}

/// What the path of an output leads to, or standard output for the path `-`. Nothing is made, and
/// what is there stays as it is. No later call asks for memory. The output may be one of `inputs`,
/// but none of them may be the file beside it. It has to be the file `before` still once it is
/// made, or still not there.
///
/// # Errors
///
/// Those of the system; `InvalidInput` if the path is empty, and `IsADirectory` if it is a folder;
/// `WouldBlock` if another run has replaced the file meanwhile; and `OutOfMemory`.
pub fn place_at<'a, R: Files<File = File>>(
    rt: &'a R,
    alloc: Global,
    path: &str,
    before: Option<FileId>,
    inputs: Vec<FileId>,
) -> io::Result<Place<DiskFolder<SystemCalls<'a, R>>, DeviceFile<'a, R>>> {
    if path == STANDARD {
        return Ok(Place::StandardOutput);
    }
    if path.is_empty() {
        return Err(ErrorKind::InvalidInput.into());
    }
    let found = match fs::metadata(rt, path) {
        Err(error) if error.kind() == ErrorKind::NotFound => None,
        found => Some(found?),
    };
    if let Some(found) = &found {
        if found.is_dir() {
            return Err(ErrorKind::IsADirectory.into());
        }
        if is_standard_output(rt, found) {
            return Ok(Place::StandardOutput);
        }
        if !found.is_file() {
            return Ok(Place::Device(DeviceFile::new(rt, alloc, path)?));
        }
    }
    let names = NamePair::new(alloc, without_links(rt, alloc, path)?)?;
    if let Some(found) = &found {
        // A regular file without a name, as an open one that was removed, takes its bytes itself.
        // If another file has the name by now, another run has put it there.
        match found_at(rt, names.out.as_str())? {
            Some(named) if FileId::of(&named) == FileId::of(found) => {}
            Some(_) => return Err(ErrorKind::WouldBlock.into()),
            None => return Ok(Place::Device(DeviceFile::new(rt, alloc, path)?)),
        }
    }
    let wanted = Wanted {
        mode: new_mode(&found),
        replaces: found.is_some(),
        before,
        inputs,
    };
    let limit = FileLimit::of_process(rt);
    let folder = DiskFolder::new(SystemCalls::new(rt), alloc, limit, names, wanted)?;
    Ok(Place::File(folder))
}

// Where the path leads to, without symbolic links at its end.
fn without_links<R: Files>(rt: &R, alloc: Global, path: &str) -> io::Result<PathBuf> {
    let mut path = PathBuf::from_str(alloc, path)?;
    for _ in 0..=MAX_LINKS {
        match found_at(rt, path.as_str())? {
            Some(found) if found.is_symlink() => {}
            _ => return Ok(path),
        }
        let link = rt.read_link(alloc, path.as_str())?;
        path = match path.parent() {
            Some(folder) => folder.join(alloc, &link)?,
            None => link,
        };
    }
    Err(ErrorKind::FilesystemLoop.into())
}
