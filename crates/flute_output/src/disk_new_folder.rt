//! A new folder whose calls are those of a system.
ghost use Rattle.std.specs.Prelude.{◌≡◌, ◌+◌, None, Some, true, false, IfSome, OnOk, OnErr, Ok};
ghost use Rattle.std.specs.Prelude.{[], option_map, string_bytes, if◌then◌else◌, is_ok};
ghost use Rattle.std.specs.Prelude.{◌++◌, IfOk, IsSome};
ghost use Rattle.std.specs.Path.{path_buf_bytes};
ghost use Rattle.flute_calls.specs.Disks.{Confirms, CreatesWithin, Renames, Syncs, Touches};
ghost use Rattle.flute_calls.specs.Disks.{UnlinksWithin};
ghost use Rattle.flute_calls.specs.Moments.{Always, Does, Passes};
ghost use Rattle.flute_output.specs.DiskWrites.{Keeps, OnlyNames, taken_for};

use crate::beside::sync_parent;
use crate::file_limit::FileLimit;
use crate::folder_beside::{make_folder, rename_folder, sync_names, take_folder_away};
use crate::name_pair::{NEW_MODE, NamePair};
use crate::new_folder::NewFolder;
use crate::waiting_file::WaitingFile;
use flute_calls::{CallFault, FolderCalls};
use flute_parts::DeviceFault;
use std::alloc::Global;
use std::io::{self, ErrorKind};
use std::path::{Path, PathBuf};

/// A new folder, over the calls of a system.
#[derive(Drop)]
pub struct DiskNewFolder<C: FolderCalls + Drop> {
    calls: C,
    alloc: Global,
    names: NamePair,
    /// The folder beside OUT, open and locked, and the folder that both are in. Both are open once
    /// the folder beside OUT is made.
    beside: Option<C::File>,
    parent: Option<C::Folder>,
    /// The open file, and its path.
    writer: WaitingFile<C>,
    path: PathBuf,
    /// Whether a file has lost bytes, or may have. Then the folder is not put in place.
    is_broken: bool,
}

impl<C: FolderCalls + Drop> DiskNewFolder<C> {
    /// The new folder at this path, which may end with slashes. Nothing is made. A file in it may
    /// become as long as this limit says.
    ///
    /// # Errors
    ///
    /// `InvalidInput` if there is nothing before the slashes, and `OutOfMemory`.
    pub fn new(
        calls: C,
        alloc: Global,
        limit: FileLimit,
        path: &str,
    ) -> io::Result<DiskNewFolder<C>>
        ensures { IfOk result (λ f. f.calls ≡ calls) }
    {
        let path = path.trim_end_matches('/');
        if path.is_empty() {
            return Err(ErrorKind::InvalidInput.into());
        }
        let out = PathBuf::from_str(alloc, path)?;
        Ok(DiskNewFolder {
            calls,
            alloc,
            names: NamePair::new(alloc, out)?,
            beside: None,
            parent: None,
            writer: WaitingFile::closed(alloc, limit)?,
            path: PathBuf::new(alloc),
            is_broken: false,
        })
    }

    /// The calls that it is over.
    pub fn calls(&self) -> &C
        ensures { result.now ≡ self.now.calls }
    {
        &self.calls
    }

    // Makes the folder beside OUT.
    fn make(&mut self) -> Result<(), CallFault>
        ensures made { C.told ≡ true → OnOk result (
            ((C.run self.new.calls).now.names (string_bytes self.old.names.beside)).leads
            ≡ option_map C.number self.new.beside) }
        ensures parent { C.told ≡ true → OnOk result (IfSome self.new.parent (λ p.
            C.has_name p (path_buf_bytes self.old.names.out) ≡ true)) }
        ensures any_moment { C.told ≡ true →
            Always (OnlyNames (string_bytes self.old.names.beside) (C.run self.old.calls).now)
            (C.run self.old.calls) (C.run self.new.calls) }
        ensures open { OnOk result (IsSome self.new.beside) }
        ensures found { OnOk result (IsSome self.new.parent) }
        ensures failures { self.new.writer.failures ≡ self.old.writer.failures }
    {
        // The folder that it is in is opened first, so that later it only needs to be synced.
        let parent = self.calls.open_parent(self.names.out.as_str())?;
        let beside = make_folder(&mut self.calls, self.names.out.as_str(), &self.names.beside)?;
        self.parent = Some(parent);
        self.beside = Some(beside);
        self.is_broken = false;
        Ok(())
    }

    // Makes a file of this name in the folder beside OUT.
    fn make_file(&mut self, name: &[u8]) -> Result<(), CallFault>
        ensures made { C.told ≡ true → OnOk result (
            IfSome (option_map C.number self.old.beside) (λ f.
            IfSome (option_map C.number self.new.writer.file) (λ k.
            Does (CreatesWithin f k) (C.run self.old.calls) (C.run self.new.calls)))) }
        ensures none_wait { OnOk result (self.new.writer.waiting.items ≡ []) }
        ensures as_broken { self.new.is_broken ≡ self.old.is_broken }
        ensures folder { OnOk result (IsSome self.old.beside) }
        ensures open { OnOk result (IsSome self.new.writer.file) }
        ensures failures { self.new.writer.failures ≡ self.old.writer.failures }
    {
        let (Some(folder), Ok(name)) = (&self.beside, std::str::from_utf8(name)) else {
            return Err(CallFault::Other);
        };
        let Ok(path) = Path::new(&self.names.beside).join(self.alloc, name) else {
            return Err(CallFault::Other);
        };
        let file = self.calls.create_within(folder, path.as_str(), NEW_MODE)?;
        self.path = path;
        self.writer.open(&mut self.calls, file);
        Ok(())
    }

    // Removes the open file.
    fn remove_file(&mut self) -> Result<(), CallFault>
        ensures removed { C.told ≡ true → OnOk result (
            IfSome (option_map C.number self.old.beside) (λ f.
            Does (UnlinksWithin f) (C.run self.old.calls) (C.run self.new.calls))) }
        ensures as_broken { self.new.is_broken ≡ self.old.is_broken }
        ensures open { OnOk result (IsSome self.old.beside) }
        ensures failures { self.new.writer.failures ≡ self.old.writer.failures }
    {
        self.writer.file = None;
        match &self.beside {
            Some(folder) => self.calls.unlink_within(folder, self.path.as_str()),
            None => Err(CallFault::Other),
        }
    }

    // Takes all the bytes.
    fn receive(&mut self, bytes: &[u8]) -> Result<(), CallFault>
        ensures received { C.told ≡ true → OnOk result (
            IfSome (option_map C.number self.old.writer.file) (λ k.
            taken_for k self.new.writer.waiting.items (C.run self.new.calls).now
            ≡ taken_for k self.old.writer.waiting.items (C.run self.old.calls).now
            ++ bytes.now)) }
        ensures same_file { option_map C.number self.new.writer.file
            ≡ option_map C.number self.old.writer.file }
        ensures as_broken { self.new.is_broken ≡ self.old.is_broken }
        ensures failures { self.new.writer.failures ≡ self.old.writer.failures }
    {
        let mut taken = 0;
        while taken < bytes.len() {
            taken += self.writer.receive(&mut self.calls, &bytes[taken..])?;
        }
        Ok(())
    }
}

impl<C: FolderCalls + Drop> NewFolder for DiskNewFolder<C> {
    ghost places = { λ _. None };

    ghost failures = { λ f. f.writer.failures.count };

    fn create(&mut self) -> Result<(), DeviceFault>
        ensures made { C.told ≡ true → OnOk result (
            ((C.run self.new.calls).now.names (string_bytes self.old.names.beside)).leads
            ≡ option_map C.number self.new.beside) }
        ensures parent { C.told ≡ true → OnOk result (IfSome self.new.parent (λ p.
            C.has_name p (path_buf_bytes self.old.names.out) ≡ true)) }
        ensures any_moment { C.told ≡ true →
            Always (OnlyNames (string_bytes self.old.names.beside) (C.run self.old.calls).now)
            (C.run self.old.calls) (C.run self.new.calls) }
        ensures open { OnOk result (IsSome self.new.beside) }
        ensures found { OnOk result (IsSome self.new.parent) }
        ensures failures { self.new.writer.failures.count
            ≡ self.old.writer.failures.count + (if is_ok result then 0 else 1) }
    {
        let made = self.make();
        self.writer.count(made)
    }

    fn begin(&mut self, name: &[u8]) -> Result<(), DeviceFault>
        ensures begun { C.told ≡ true → OnOk result (
            IfSome (option_map C.number self.old.beside) (λ f.
            IfSome (option_map C.number self.new.writer.file) (λ k.
            Does (CreatesWithin f k) (C.run self.old.calls) (C.run self.new.calls)))) }
        ensures none_wait { OnOk result (self.new.writer.waiting.items ≡ []) }
        ensures as_broken { self.new.is_broken ≡ self.old.is_broken }
        ensures folder { OnOk result (IsSome self.old.beside) }
        ensures open { OnOk result (IsSome self.new.writer.file) }
        ensures failures { self.new.writer.failures.count
            ≡ self.old.writer.failures.count + (if is_ok result then 0 else 1) }
    {
        let begun = self.make_file(name);
        self.writer.count(begun)
    }

    fn put(&mut self, bytes: &[u8]) -> Result<(), DeviceFault>
        ensures received { C.told ≡ true → OnOk result (
            IfSome (option_map C.number self.old.writer.file) (λ k.
            taken_for k self.new.writer.waiting.items (C.run self.new.calls).now
            ≡ taken_for k self.old.writer.waiting.items (C.run self.old.calls).now
            ++ bytes.now)) }
        ensures same_file { option_map C.number self.new.writer.file
            ≡ option_map C.number self.old.writer.file }
        ensures broken { OnErr result (self.new.is_broken ≡ true) }
        ensures as_broken { OnOk result (self.new.is_broken ≡ self.old.is_broken) }
        ensures failures { self.new.writer.failures.count
            ≡ self.old.writer.failures.count + (if is_ok result then 0 else 1) }
    {
        let received = self.receive(bytes);
        if received.is_err() {
            self.is_broken = true;
        }
        self.writer.count(received)
    }

    fn keep(&mut self) -> Result<(), DeviceFault>
        ensures kept { C.told ≡ true → OnOk result (
            IfSome (option_map C.number self.old.writer.file) (λ k.
            Passes (Touches k) (Keeps k self.old.writer.waiting.items)
            (C.run self.old.calls) (C.run self.new.calls))) }
        ensures whole { OnOk result (self.old.writer.is_broken ≡ false) }
        ensures broken { OnErr result (self.new.is_broken ≡ true) }
        ensures as_broken { OnOk result (self.new.is_broken ≡ self.old.is_broken) }
        ensures open { OnOk result (IsSome self.old.writer.file) }
        ensures failures { self.new.writer.failures.count
            ≡ self.old.writer.failures.count + (if is_ok result then 0 else 1) }
    {
        let kept = self.writer.end(&mut self.calls);
        if kept.is_err() {
            self.is_broken = true;
        }
        self.writer.count(kept)
    }

    fn leave(&mut self) -> Result<(), DeviceFault>
        ensures left { C.told ≡ true → OnOk result (
            IfSome (option_map C.number self.old.beside) (λ f.
            Does (UnlinksWithin f) (C.run self.old.calls) (C.run self.new.calls))) }
        ensures as_broken { self.new.is_broken ≡ self.old.is_broken }
        ensures open { OnOk result (IsSome self.old.beside) }
        ensures failures { self.new.writer.failures.count
            ≡ self.old.writer.failures.count + (if is_ok result then 0 else 1) }
    {
        let removed = self.remove_file();
        self.writer.count(removed)
    }

    fn sync(&mut self) -> Result<(), DeviceFault>
        ensures synced { C.told ≡ true → OnOk result (
            IfSome (option_map C.number self.old.beside) (λ f.
            Does (Syncs f) (C.run self.old.calls) (C.run self.new.calls))) }
        ensures as_broken { self.new.is_broken ≡ self.old.is_broken }
        ensures open { OnOk result (IsSome self.old.beside) }
        ensures failures { self.new.writer.failures.count
            ≡ self.old.writer.failures.count + (if is_ok result then 0 else 1) }
    {
        let synced = sync_names(&mut self.calls, &self.beside);
        self.writer.count(synced)
    }

    fn put_in_place(&mut self) -> Result<(), DeviceFault>
        ensures renamed { C.told ≡ true → OnOk result (
            Does (Renames (string_bytes self.old.names.beside) (path_buf_bytes self.old.names.out))
            (C.run self.old.calls) (C.run self.new.calls)) }
        ensures checked { C.told ≡ true → OnOk result (
            ((C.run self.old.calls).now.names (string_bytes self.old.names.beside)).leads
            ≡ option_map C.number self.old.beside) }
        ensures free { C.told ≡ true → OnOk result (
            ((C.run self.old.calls).now.names (path_buf_bytes self.old.names.out)).leads ≡ None) }
        ensures whole { OnOk result (self.old.is_broken ≡ false) }
        ensures open { OnOk result (IsSome self.old.beside) }
        ensures failures { self.new.writer.failures.count
            ≡ self.old.writer.failures.count + (if is_ok result then 0 else 1) }
    {
        let placed = if self.is_broken {
            Err(CallFault::Other)
        } else {
            rename_folder(&mut self.calls, &self.names, &self.beside)
        };
        self.writer.count(placed)
    }

    fn sync_name(&mut self) -> Result<(), DeviceFault>
        ensures confirmed { C.told ≡ true → OnOk result (IfSome self.old.parent (λ p.
            Does (Confirms (C.has_name p)) (C.run self.old.calls) (C.run self.new.calls))) }
        ensures found { OnOk result (IsSome self.old.parent) }
        ensures failures { self.new.writer.failures.count
            ≡ self.old.writer.failures.count + (if is_ok result then 0 else 1) }
    {
        let synced = sync_parent(&mut self.calls, &self.parent);
        self.writer.count(synced)
    }

    fn remove(&mut self) -> Result<(), DeviceFault>
        ensures removed { C.told ≡ true → OnOk result (
            ((C.run self.new.calls).now.names (string_bytes self.old.names.beside)).leads
            ≡ None) }
        ensures checked { C.told ≡ true → OnOk result (
            ((C.run self.old.calls).now.names (string_bytes self.old.names.beside)).leads
            ≡ option_map C.number self.old.beside) }
        ensures open { OnOk result (IsSome self.old.beside) }
        ensures failures { self.new.writer.failures.count
            ≡ self.old.writer.failures.count + (if is_ok result then 0 else 1) }
    {
        let removed = take_folder_away(&mut self.calls, &self.names, &self.beside);
        self.writer.count(removed)
    }
}
