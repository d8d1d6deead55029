//! The calls of the system.
ghost use Rattle.std.specs.Prelude.{◌≡◌, true, false, IfOk, Ok};
ghost use Rattle.flute_calls.specs.Moments.{no_run};

use crate::calls::{CallFault, Calls, Seen};
use crate::file_id::FileId;
use crate::folder_calls::FolderCalls;
use std::alloc::Alloc;
use std::fs::{self, File, Metadata, OpenOptions, Permissions, TryLockError};
use std::io::{self, ErrorKind, Write};
use std::os::unix::fs::{OpenOptionsExt, PermissionsExt};
use std::path::Path;
use std::rt::Files;

/// The folder of a path that names none.
const HERE: &str = ".";

/// How often a write is tried that a signal interrupts, which then wrote nothing.
const TRIES: u32 = 64;

/// The calls of the system. Contracts see nothing of its disk: that it does what the trait says is
/// trusted.
#[derive(Drop)]
pub struct SystemCalls<'a, R: Files<File = File>> {
    rt: &'a R,
}

impl<'a, R: Files<File = File>> SystemCalls<'a, R> {
    /// The calls.
    pub fn new(rt: &'a R) -> SystemCalls<'a, R> {
        SystemCalls { rt }
    }
}

impl<R: Files<File = File>> Calls for SystemCalls<'_, R> {
    type File = File;

    // None if it may not be read.
    type Folder = Option<File>;

    ghost told = { false };

    ghost run = { λ _. no_run };

    ghost number = { λ _. 0 };

    ghost identified = { λ _. 0 };

    ghost has_name = { λ _ _. true };

    fn look(&mut self, name: &str) -> Result<Option<Seen>, CallFault> {
        match fs::symlink_metadata(self.rt, name) {
            Ok(found) => Ok(Some(seen_of(&found))),
            Err(error) if error.kind() == ErrorKind::NotFound => Ok(None),
            Err(error) => Err(error.into()),
        }
    }

    fn look_at(&mut self, file: &File) -> Result<Seen, CallFault> {
        match file.metadata() {
            Ok(found) => Ok(seen_of(&found)),
            Err(error) => Err(error.into()),
        }
    }

    fn open(&mut self, name: &str) -> Result<File, CallFault> {
        told(fs::open(self.rt, name))
    }

    fn open_to_write(&mut self, name: &str) -> Result<File, CallFault> {
        told(
            OpenOptions::new()
                .read(true)
                .write(true)
                .open(self.rt, name),
        )
    }

    fn open_parent(&mut self, name: &str) -> Result<Option<File>, CallFault> {
        let opened = match Path::new(name).parent() {
            Some(folder) if !folder.as_str().is_empty() => fs::open(self.rt, folder),
            _ => fs::open(self.rt, HERE),
        };
        match opened {
            Ok(folder) => Ok(Some(folder)),
            Err(error) if error.kind() == ErrorKind::PermissionDenied => Ok(None),
            Err(error) => Err(error.into()),
        }
    }

    fn lock(&mut self, file: &File) -> Result<(), CallFault> {
        match file.try_lock() {
            Err(TryLockError::WouldBlock) => Err(CallFault::Locked),
            Ok(()) | Err(TryLockError::Error(_)) => Ok(()),
        }
    }

    fn set_mode(&mut self, file: &File, mode: u32) -> Result<(), CallFault> {
        told(file.set_permissions(Permissions::from_mode(mode)))
    }

    fn create_new(&mut self, name: &str, mode: u32) -> Result<File, CallFault> {
        let made = OpenOptions::new()
            .write(true)
            .create_new(true)
            .mode(mode)
            .open(self.rt, name);
        told(made)
    }

    fn write(&mut self, file: &mut File, bytes: &[u8]) -> Result<usize, CallFault> {
        for _ in 0..TRIES {
            match file.write(bytes) {
                Err(error) if error.kind() == ErrorKind::Interrupted => {}
                Ok(0) if !bytes.is_empty() => return Err(CallFault::Other),
                written => return told(written),
            }
        }
        Err(CallFault::Other)
    }

    fn fsync(&mut self, file: &File) -> Result<(), CallFault> {
        told(file.sync_all())
    }

    fn rename(&mut self, source: &str, target: &str) -> Result<(), CallFault> {
        told(fs::rename(self.rt, source, target))
    }

    fn unlink(&mut self, name: &str) -> Result<(), CallFault> {
        told(fs::remove_file(self.rt, name))
    }

    fn sync_folder(&mut self, folder: &Option<File>) -> Result<(), CallFault> {
        match folder {
            Some(folder) => synced(folder),
            None => Ok(()),
        }
    }
}

impl<R: Files<File = File> + Alloc + Clone + Drop> FolderCalls for SystemCalls<'_, R> {
    fn create_folder(&mut self, name: &str) -> Result<(), CallFault> {
        told(fs::create_dir(self.rt, name))
    }

    fn is_folder(&mut self, name: &str) -> Result<Option<bool>, CallFault> {
        match fs::symlink_metadata(self.rt, name) {
            Ok(found) => Ok(Some(found.is_dir())),
            Err(error) if error.kind() == ErrorKind::NotFound => Ok(None),
            Err(error) => Err(error.into()),
        }
    }

    fn empty_folder(&mut self, _folder: &File, name: &str) -> Result<(), CallFault> {
        for entry in fs::read_dir(self.rt, name)? {
            if !entry?.metadata()?.is_file() {
                return Err(CallFault::AlreadyExists);
            }
        }
        for entry in fs::read_dir(self.rt, name)? {
            fs::remove_file(self.rt, entry?.path())?;
        }
        Ok(())
    }

    fn create_within(&mut self, _folder: &File, path: &str, mode: u32) -> Result<File, CallFault> {
        self.create_new(path, mode)
    }

    fn unlink_within(&mut self, _folder: &File, path: &str) -> Result<(), CallFault> {
        self.unlink(path)
    }

    fn sync_names(&mut self, folder: &File) -> Result<(), CallFault> {
        synced(folder)
    }

    fn remove_folder(&mut self, name: &str) -> Result<(), CallFault> {
        told(fs::remove_dir(self.rt, name))
    }
}

// Waits until the disk has the names in a folder, if the file system has such a call.
fn synced(folder: &File) -> Result<(), CallFault> {
    match folder.sync_all() {
        Err(error) => match error.kind() {
            ErrorKind::InvalidInput | ErrorKind::Unsupported => Ok(()),
            _ => Err(error.into()),
        },
        Ok(()) => Ok(()),
    }
}

fn seen_of(found: &Metadata) -> Seen {
    Seen {
        id: FileId::of(found),
        is_regular: found.is_file(),
    }
}

impl From<io::Error> for CallFault {
    fn from(error: io::Error) -> CallFault {
        match error.kind() {
            ErrorKind::NotFound => CallFault::NotFound,
            ErrorKind::AlreadyExists => CallFault::AlreadyExists,
            _ => CallFault::Other,
        }
    }
}

// What a call returned.
fn told<T: Drop>(done: io::Result<T>) -> Result<T, CallFault>
    ensures { IfOk result (λ value. done ≡ Ok value) }
{
    match done {
        Ok(value) => Ok(value),
        Err(error) => Err(error.into()),
    }
}
