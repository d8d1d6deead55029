//! The calls for a folder in memory that is made, and filled with files.

ghost use Rattle.std.specs.Prelude.{◌<◌, length, OnOk};

use super::{MemoryCalls, OpenFile};
use crate::changes::{Change, has_files, target_within};
use flute_calls::{CallFault, FolderCalls};

impl MemoryCalls {
    // Checks that this open folder has the name.
    fn check_folder(&self, folder: &OpenFile, name: &str) -> Result<(), CallFault>
        ensures { OnOk result (folder.now.number < length self.now.changes.items) }
    {
        self.check_file(folder)?;
        if self.find(name) == Some(folder.number) && self.has_folder(folder.number) {
            Ok(())
        } else {
            Err(CallFault::NotFound)
        }
    }

    // What this path is called in the open folder.
    fn name_within<'a>(&self, folder: &OpenFile, path: &'a str) -> Result<&'a str, CallFault>
        ensures { OnOk result (folder.now.number < length self.now.changes.items) }
    {
        let Some((before, name)) = path.rsplit_once('/') else {
            return Err(CallFault::NotFound);
        };
        self.check_folder(folder, before)?;
        Ok(name)
    }
}

impl FolderCalls for MemoryCalls {
    fn create_folder(&mut self, name: &str) -> Result<(), CallFault> {
        self.turn()?;
        if self.find(name).is_some() {
            return Err(CallFault::AlreadyExists);
        }
        let name = self.copied(name.as_bytes())?;
        self.note(Change::FolderMade { name })?;
        Ok(())
    }

    fn is_folder(&mut self, name: &str) -> Result<Option<bool>, CallFault> {
        self.turn()?;
        match self.find(name) {
            Some(number) => Ok(Some(self.has_folder(number))),
            None => Ok(None),
        }
    }

    fn empty_folder(&mut self, folder: &OpenFile, name: &str) -> Result<(), CallFault> {
        self.turn()?;
        self.check_folder(folder, name)?;
        self.note(Change::Emptied {
            folder: folder.number,
        })?;
        Ok(())
    }

    fn create_within(
        &mut self,
        folder: &OpenFile,
        path: &str,
        _mode: u32,
    ) -> Result<OpenFile, CallFault> {
        self.turn()?;
        let name = self.name_within(folder, path)?;
        if target_within(&self.changes, folder.number, name.as_bytes()).is_some() {
            return Err(CallFault::AlreadyExists);
        }
        let number = self.changes.len();
        let name = self.copied(name.as_bytes())?;
        self.note(Change::MadeWithin {
            folder: folder.number,
            name,
        })?;
        Ok(OpenFile { number })
    }

    fn unlink_within(&mut self, folder: &OpenFile, path: &str) -> Result<(), CallFault> {
        self.turn()?;
        let name = self.name_within(folder, path)?;
        if target_within(&self.changes, folder.number, name.as_bytes()).is_none() {
            return Err(CallFault::NotFound);
        }
        let name = self.copied(name.as_bytes())?;
        self.note(Change::RemovedWithin {
            folder: folder.number,
            name,
        })?;
        Ok(())
    }

    fn sync_names(&mut self, folder: &OpenFile) -> Result<(), CallFault> {
        self.turn()?;
        self.check_file(folder)?;
        self.note(Change::Synced {
            file: folder.number,
        })?;
        Ok(())
    }

    fn remove_folder(&mut self, name: &str) -> Result<(), CallFault> {
        self.turn()?;
        let folder = self.opened(name)?;
        if !self.has_folder(folder.number) || has_files(&self.changes, folder.number) {
            return Err(CallFault::Other);
        }
        let name = self.copied(name.as_bytes())?;
        self.note(Change::Removed { name })?;
        Ok(())
    }
}
