//! The calls of a system whose disk is in memory.
ghost use Rattle.std.specs.Prelude.{◌≡◌, ◌++◌, ◌∷◌, [], ◌<◌, length, true, Some};
ghost use Rattle.std.specs.Prelude.{IfOk, OnOk, OnErr};
ghost use Rattle.flute_calls.specs.Moments.{no_run};
ghost use Rattle.flute_memory.specs.MemoryDisk.{run_of, leads, AreUnused, IsOfEarlier};

mod asides;
mod folders;

use crate::changes::{Change, target};
pub use asides::OpenAside;
use flute_calls::{CallFault, Calls, FileId, Seen};
use flute_parts::Failures;
use std::alloc::Global;

/// How many bytes a write takes at most.
const PIECE: usize = 4;

/// An open file in memory.
#[derive(Drop)]
pub struct OpenFile {
    number: usize,
}

/// The one folder in memory that all names are in, but for those of files in folders that were
/// made.
#[derive(Drop)]
pub struct OneFolder {}

/// The calls of a system for tests, whose disk is one folder in memory, with the folders that were
/// made in it: what was done to it, one change after another. Some calls fail, and leave it as it
/// was.
#[derive(Drop)]
pub struct MemoryCalls {
    alloc: Global,
    changes: Vec<Change>,
    good: usize,
    bad: usize,
    /// How often the name of a file that was put aside could not be removed, for contracts alone.
    stuck: Failures,
    ghost unused: { AreUnused (length changes.items) (run_of changes.items).now },
}

impl MemoryCalls {
    /// An empty folder. A call fails only if it finds no memory, or a name does not lead where it
    /// has to.
    pub fn new(alloc: Global) -> MemoryCalls
        ensures { ⟦<MemoryCalls as Calls>⟧.run result ≡ no_run }
    {
        MemoryCalls {
            alloc,
            changes: Vec::new(alloc),
            good: 0,
            bad: 0,
            stuck: Failures::none(),
        }
    }

    /// After `good` calls from now on, the next `bad` fail.
    pub fn fail_after(&mut self, good: usize, bad: usize)
        ensures { ⟦<MemoryCalls as Calls>⟧.run self.new
            ≡ ⟦<MemoryCalls as Calls>⟧.run self.old }
    {
        self.good = good;
        self.bad = bad;
    }

    /// What was done to the disk, the first change first.
    pub fn changes(&self) -> &[Change]
        ensures { ⟦<MemoryCalls as Calls>⟧.run self.now ≡ run_of result.now }
    {
        &self.changes
    }

    // Whether this call may succeed.
    fn turn(&mut self) -> Result<(), CallFault>
        ensures same { self.new.changes ≡ self.old.changes }
        ensures stuck { self.new.stuck ≡ self.old.stuck }
    {
        if self.good > 0 {
            self.good -= 1;
            Ok(())
        } else if self.bad > 0 {
            self.bad -= 1;
            Err(CallFault::Other)
        } else {
            Ok(())
        }
    }

    // Does this.
    fn note(&mut self, change: Change) -> Result<(), CallFault>
        requires { IsOfEarlier change (length self.old.changes.items) }
        ensures noted { OnOk result (self.new.changes.items
            ≡ self.old.changes.items ++ change ∷ []) }
        ensures refused { OnErr result (self.new.changes.items ≡ self.old.changes.items) }
        ensures stuck { self.new.stuck ≡ self.old.stuck }
    {
        match self.changes.push(change) {
            Ok(()) => Ok(()),
            Err(_) => Err(CallFault::Other),
        }
    }

    // Checks that a change made this file or folder.
    fn check_file(&self, file: &OpenFile) -> Result<(), CallFault>
        ensures { OnOk result (file.now.number < length self.now.changes.items) }
    {
        if file.number < self.changes.len() {
            Ok(())
        } else {
            Err(CallFault::NotFound)
        }
    }

    // A copy of the bytes.
    fn copied(&self, bytes: &[u8]) -> Result<Vec<u8>, CallFault>
        ensures { IfOk result (λ copy. copy.items ≡ bytes.now) }
    {
        match bytes.to_vec(self.alloc) {
            Ok(copy) => Ok(copy),
            Err(_) => Err(CallFault::Other),
        }
    }

    // The file that the name leads to.
    fn find(&self, name: &str) -> Option<usize>
        ensures { result ≡ leads (run_of self.now.changes.items) name.now }
    {
        target(&self.changes, name)
    }

    // Whether this is a folder.
    fn has_folder(&self, number: usize) -> bool {
        matches!(self.changes.get(number), Some(Change::FolderMade { .. }))
    }

    // What a call reports of this file.
    fn seen(&self, number: usize) -> Seen
        ensures { result.id.number ≡ number }
    {
        Seen {
            id: FileId::new(0, number as u64),
            is_regular: !self.has_folder(number),
        }
    }

    // The file that the name leads to, opened.
    fn opened(&self, name: &str) -> Result<OpenFile, CallFault>
        ensures { IfOk result (λ file.
            leads (run_of self.now.changes.items) name.now ≡ Some file.number) }
    {
        match self.find(name) {
            Some(number) => Ok(OpenFile { number }),
            None => Err(CallFault::NotFound),
        }
    }

    // The file that the name leads to, opened, if it is no folder.
    fn opened_file(&self, name: &str) -> Result<OpenFile, CallFault>
        ensures { IfOk result (λ file.
            leads (run_of self.now.changes.items) name.now ≡ Some file.number) }
    {
        let file = self.opened(name)?;
        if self.has_folder(file.number) {
            return Err(CallFault::Other);
        }
        Ok(file)
    }

    // Checks that the source is there, and that no folder is replaced, nor replaces a file.
    fn check_rename(&self, source: &str, target: &str) -> Result<(), CallFault> {
        let source = self.opened(source)?;
        if let Some(target) = self.find(target) {
            if self.has_folder(target) || self.has_folder(source.number) {
                return Err(CallFault::Other);
            }
        }
        Ok(())
    }
}

impl Calls for MemoryCalls {
    type File = OpenFile;

    type Folder = OneFolder;

    ghost told = { true };

    ghost run = { λ calls. run_of calls.changes.items };

    ghost number = { λ file. file.number };

    ghost identified = { λ id. id.number };

    ghost has_name = { λ _ _. true };

    fn look(&mut self, name: &str) -> Result<Option<Seen>, CallFault> {
        self.turn()?;
        match self.find(name) {
            Some(number) => Ok(Some(self.seen(number))),
            None => Ok(None),
        }
    }

    fn look_at(&mut self, file: &OpenFile) -> Result<Seen, CallFault> {
        self.turn()?;
        Ok(self.seen(file.number))
    }

    fn open(&mut self, name: &str) -> Result<OpenFile, CallFault> {
        self.turn()?;
        self.opened(name)
    }

    fn open_to_write(&mut self, name: &str) -> Result<OpenFile, CallFault> {
        self.turn()?;
        self.opened_file(name)
    }

    fn open_parent(&mut self, _name: &str) -> Result<OneFolder, CallFault> {
        self.turn()?;
        Ok(OneFolder {})
    }

    fn lock(&mut self, _file: &OpenFile) -> Result<(), CallFault> {
        self.turn()
    }

    fn set_mode(&mut self, _file: &OpenFile, _mode: u32) -> Result<(), CallFault> {
        self.turn()
    }

    fn create_new(&mut self, name: &str, _mode: u32) -> Result<OpenFile, CallFault> {
        self.turn()?;
        if self.find(name).is_some() {
            return Err(CallFault::AlreadyExists);
        }
        let number = self.changes.len();
        let name = self.copied(name.as_bytes())?;
        self.note(Change::Made { name })?;
        Ok(OpenFile { number })
    }

    fn write(&mut self, file: &mut OpenFile, bytes: &[u8]) -> Result<usize, CallFault> {
        self.turn()?;
        self.check_file(file)?;
        if self.has_folder(file.number) {
            return Err(CallFault::Other);
        }
        let count = bytes.len().min(PIECE);
        let bytes = self.copied(&bytes[..count])?;
        self.note(Change::Written {
            file: file.number,
            bytes,
        })?;
        Ok(count)
    }

    fn fsync(&mut self, file: &OpenFile) -> Result<(), CallFault> {
        self.turn()?;
        self.check_file(file)?;
        self.note(Change::Synced { file: file.number })?;
        Ok(())
    }

    fn rename(&mut self, source: &str, target: &str) -> Result<(), CallFault> {
        self.turn()?;
        self.check_rename(source, target)?;
        let source = self.copied(source.as_bytes())?;
        let target = self.copied(target.as_bytes())?;
        self.note(Change::Renamed { source, target })?;
        Ok(())
    }

    fn unlink(&mut self, name: &str) -> Result<(), CallFault> {
        self.turn()?;
        self.opened_file(name)?;
        let name = self.copied(name.as_bytes())?;
        self.note(Change::Removed { name })?;
        Ok(())
    }

    fn sync_folder(&mut self, _folder: &OneFolder) -> Result<(), CallFault> {
        self.turn()?;
        self.note(Change::Confirmed)?;
        Ok(())
    }
}
