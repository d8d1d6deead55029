//! A folder whose calls are those of a system.
ghost use Rattle.std.specs.Prelude.{◌≡◌, ℕ, ◌+◌, ◌<◌, ◌≤◌, None, Some, true, false, string_bytes};
ghost use Rattle.std.specs.Prelude.{IfOk, IfSome, IsSome, OnOk, OnErr, Ok, if◌then◌else◌, is_ok};
ghost use Rattle.std.specs.Prelude.{length, option_map, take, ◌++◌, [], MatchOption};
ghost use Rattle.std.specs.Path.{path_buf_bytes};
ghost use Rattle.flute_calls.specs.Disks.{Confirms, OnlyTouches, Renames, Syncs, Touches, Unlinks};
ghost use Rattle.flute_calls.specs.Moments.{Always, Does, IsSame, Passes};
ghost use Rattle.flute_output.specs.DiskWrites.{IsBegun, Extends, GoesOn, HasOnly, HasTaken};
ghost use Rattle.flute_output.specs.DiskWrites.{LeavesOthers, taken_for, writing};
ghost use Rattle.std.proofs.Props.{props};
ghost use Rattle.flute_output.specs.Modes.{mode_of};

use crate::beside::{Wanted, make, rename, sync_parent, take_away};
use crate::file_limit::FileLimit;
use crate::folder::Folder;
use crate::name_pair::{NEW_MODE, NamePair};
use crate::waiting_file::WaitingFile;
use flute_calls::{CallFault, Calls};
use flute_parts::DeviceFault;
use std::alloc::Global;
use std::fs::Metadata;
use std::io;
use std::os::unix::fs::PermissionsExt;

/// The bits of a mode that are permissions.
const ACCESS: u32 = 0o777;

/// The folder of an output, over the calls of a system.
#[derive(Drop)]
pub struct DiskFolder<C: Calls + Drop> {
    calls: C,
    names: NamePair,
    wanted: Wanted,
    /// The folder that OUT is in, and the file beside OUT, once that is made. A broken file is not
    /// put in place.
    folder: Option<C::Folder>,
    writer: WaitingFile<C>,
    /// Whether the file beside OUT has been named OUT since it was made.
    is_placed: bool,
    ghost parent: { C.told ≡ true → IfSome folder (λ f.
        C.has_name f (path_buf_bytes names.out) ≡ true) } by { Prim.hlevel props },
    ghost apart: { C.told ≡ true → IfSome (option_map C.number writer.file) (λ k.
        HasOnly (string_bytes names.beside) k (C.run calls).now) } by { Prim.hlevel props },
    ghost taken: { C.told ≡ true → IfSome (option_map C.number writer.file) (λ k.
        HasTaken k (writing writer.taken writer.is_broken writer.waiting.items
        (C.run calls).now)) } by { Prim.hlevel props },
}

impl<C: Calls + Drop> DiskFolder<C> {
    /// The folder of these names. Nothing is made, and what is there stays as it is. No later call
    /// asks for memory. A regular file may become as long as this limit says.
    ///
    /// # Errors
    ///
    /// `OutOfMemory`.
    pub fn new(
        calls: C,
        alloc: Global,
        limit: FileLimit,
        names: NamePair,
        wanted: Wanted,
    ) -> io::Result<DiskFolder<C>>
        ensures { IfOk result (λ f. f.calls ≡ calls) }
    {
        Ok(DiskFolder {
            calls,
            names,
            wanted,
            folder: None,
            writer: WaitingFile::closed(alloc, limit)?,
            is_placed: false,
        })
    }

    /// The calls that it is over.
    pub fn calls(&self) -> &C
        ensures { result.now ≡ self.now.calls }
    {
        &self.calls
    }

    // Makes the file beside OUT.
    fn begin(&mut self) -> Result<(), CallFault>
        ensures made { C.told ≡ true → OnOk result (
            IfSome (option_map C.number self.new.writer.file) (λ k.
            IsBegun (string_bytes self.old.names.beside) k (C.run self.new.calls).now)) }
        ensures folder { C.told ≡ true → OnOk result (IfSome self.new.folder (λ f.
            C.has_name f (path_buf_bytes self.old.names.out) ≡ true)) }
        ensures expected { C.told ≡ true → OnOk result (
            option_map C.identified self.old.wanted.before
            ≡ ((C.run self.new.calls).now.names (path_buf_bytes self.old.names.out)).leads) }
        ensures any_moment { C.told ≡ true →
            Always (OnlyTouches (string_bytes self.old.names.beside) (C.run self.old.calls).now)
            (C.run self.old.calls) (C.run self.new.calls) }
        ensures none_wait { OnOk result (self.new.writer.waiting.items ≡ []) }
        ensures open { OnOk result (IsSome self.new.writer.file) }
        ensures found { OnOk result (IsSome self.new.folder) }
        ensures none_taken { OnOk result (self.new.writer.taken ≡ 0) }
        ensures placed { self.new.is_placed
            ≡ (if is_ok result then false else self.old.is_placed) }
        ensures same_name { self.new.names.out ≡ self.old.names.out }
        ensures failures { self.new.writer.failures ≡ self.old.writer.failures }
    {
        self.writer.close();

        // The folder is opened first, so that later it only needs to be synced.
        let folder = self.calls.open_parent(self.names.out.as_str())?;
        let file = make(
            &mut self.calls,
            self.names.out.as_str(),
            &self.names.beside,
            &self.wanted,
        )?;
        self.folder = Some(folder);
        self.writer.open(&mut self.calls, file);
        self.is_placed = false;
        Ok(())
    }
}

/// The permissions of the new file: those of OUT, if it was there, and else those of any new file,
/// before the user's mask.
pub fn new_mode(found: &Option<Metadata>) -> u32
    ensures { result ≡ mode_of found.now }
{
    match found {
        Some(found) => found.permissions().mode() & ACCESS,
        None => NEW_MODE,
    }
}

impl<C: Calls + Drop> Folder for DiskFolder<C> {
    ghost use Rattle.flute_output.specs.DiskEntries.{disk_entries, disk_moments};

    ghost entries = { λ f. if C.told then Some (disk_entries (path_buf_bytes f.names.out)
        (option_map C.number f.writer.file) f.is_placed
        (writing f.writer.taken f.writer.is_broken f.writer.waiting.items (C.run f.calls).now))
        else None };

    ghost moments = { λ f. if C.told then disk_moments (path_buf_bytes f.names.out)
        (C.run f.calls) else [] };

    ghost failures = { λ f. f.writer.failures.count };

    fn create(&mut self) -> Result<(), DeviceFault>
        ensures begun { C.told ≡ true → OnOk result (
            IfSome (option_map C.number self.new.writer.file) (λ k.
            IsBegun (string_bytes self.old.names.beside) k (C.run self.new.calls).now)) }
        ensures folder { C.told ≡ true → OnOk result (IfSome self.new.folder (λ f.
            C.has_name f (path_buf_bytes self.old.names.out) ≡ true)) }
        ensures expected { C.told ≡ true → OnOk result (
            option_map C.identified self.old.wanted.before
            ≡ ((C.run self.new.calls).now.names (path_buf_bytes self.old.names.out)).leads) }
        ensures any_moment { C.told ≡ true →
            Always (OnlyTouches (string_bytes self.old.names.beside) (C.run self.old.calls).now)
            (C.run self.old.calls) (C.run self.new.calls) }
        ensures none_wait { OnOk result (self.new.writer.waiting.items ≡ []) }
        ensures open { OnOk result (IsSome self.new.writer.file) }
        ensures found { OnOk result (IsSome self.new.folder) }
        ensures none_taken { OnOk result (self.new.writer.taken ≡ 0) }
        ensures placed { self.new.is_placed
            ≡ (if is_ok result then false else self.old.is_placed) }
        ensures same_name { self.new.names.out ≡ self.old.names.out }
        ensures failures { self.new.writer.failures.count
            ≡ self.old.writer.failures.count + (if is_ok result then 0 else 1) }
    {
        let begun = self.begin();
        self.writer.count(begun)
    }

    fn write(&mut self, bytes: &[u8]) -> Result<usize, DeviceFault>
        ensures bound { IfOk result (λ n. n ≤ length bytes.now) }
        ensures progress { 0 < length bytes.now → IfOk result (λ n. 0 < n) }
        ensures received { C.told ≡ true → IfOk result (λ n.
            IfSome (option_map C.number self.old.writer.file) (λ k.
            taken_for k self.new.writer.waiting.items (C.run self.new.calls).now
            ≡ taken_for k self.old.writer.waiting.items (C.run self.old.calls).now
            ++ take n bytes.now)) }
        ensures any_moment { C.told ≡ true → Always
            (LeavesOthers (option_map C.number self.old.writer.file) (C.run self.old.calls).now)
            (C.run self.old.calls) (C.run self.new.calls) }
        ensures same_file { option_map C.number self.new.writer.file
            ≡ option_map C.number self.old.writer.file }
        ensures goes_on { C.told ≡ true → IfOk result (λ n. GoesOn
            (option_map C.number self.old.writer.file) (take n bytes.now)
            (writing self.old.writer.taken self.old.writer.is_broken
            self.old.writer.waiting.items (C.run self.old.calls).now)
            (writing self.new.writer.taken self.new.writer.is_broken
            self.new.writer.waiting.items (C.run self.new.calls).now)) }
        ensures refused { C.told ≡ true → OnErr result (GoesOn
            (option_map C.number self.old.writer.file) []
            (writing self.old.writer.taken self.old.writer.is_broken
            self.old.writer.waiting.items (C.run self.old.calls).now)
            (writing self.new.writer.taken self.new.writer.is_broken
            self.new.writer.waiting.items (C.run self.new.calls).now)) }
        ensures placed { self.new.is_placed ≡ self.old.is_placed }
        ensures same_name { self.new.names.out ≡ self.old.names.out }
        ensures failures { self.new.writer.failures.count
            ≡ self.old.writer.failures.count + (if is_ok result then 0 else 1) }
    {
        let received = self.writer.receive(&mut self.calls, bytes);
        self.writer.count(received)
    }

    fn flush(&mut self) -> Result<(), DeviceFault>
        ensures poured { C.told ≡ true → OnOk result (
            IfSome (option_map C.number self.old.writer.file) (λ k.
            Passes (Touches k) (Extends k self.old.writer.waiting.items)
            (C.run self.old.calls) (C.run self.new.calls))) }
        ensures none_wait { OnOk result (self.new.writer.waiting.items ≡ []) }
        ensures whole { OnOk result (self.old.writer.is_broken ≡ false) }
        ensures broken { OnErr result (self.new.writer.is_broken ≡ true) }
        ensures open { OnOk result (IsSome self.old.writer.file) }
        ensures goes_on { C.told ≡ true → GoesOn (option_map C.number self.old.writer.file) []
            (writing self.old.writer.taken self.old.writer.is_broken
            self.old.writer.waiting.items (C.run self.old.calls).now)
            (writing self.new.writer.taken self.new.writer.is_broken
            self.new.writer.waiting.items (C.run self.new.calls).now) }
        ensures any_moment { C.told ≡ true → Always
            (LeavesOthers (option_map C.number self.old.writer.file) (C.run self.old.calls).now)
            (C.run self.old.calls) (C.run self.new.calls) }
        ensures same_file { option_map C.number self.new.writer.file
            ≡ option_map C.number self.old.writer.file }
        ensures placed { self.new.is_placed ≡ self.old.is_placed }
        ensures same_name { self.new.names.out ≡ self.old.names.out }
        ensures failures { self.new.writer.failures.count
            ≡ self.old.writer.failures.count + (if is_ok result then 0 else 1) }
    {
        let poured = self.writer.pour(&mut self.calls);
        self.writer.count(poured)
    }

    fn sync(&mut self) -> Result<(), DeviceFault>
        ensures settled { C.told ≡ true → OnOk result (
            IfSome (option_map C.number self.old.writer.file) (λ k.
            Does (Syncs k) (C.run self.old.calls) (C.run self.new.calls))) }
        ensures broken { OnErr result (self.new.writer.is_broken ≡ true) }
        ensures open { OnOk result (IsSome self.old.writer.file) }
        ensures refused { C.told ≡ true → OnErr result (
            MatchOption (option_map C.number self.old.writer.file)
            (C.run self.new.calls ≡ C.run self.old.calls)
            (λ k. Passes (Touches k) (Touches k) (C.run self.old.calls) (C.run self.new.calls))) }
        ensures same_file { self.new.writer.file ≡ self.old.writer.file }
        ensures same_taken { self.new.writer.taken ≡ self.old.writer.taken }
        ensures same_waiting { self.new.writer.waiting ≡ self.old.writer.waiting }
        ensures placed { self.new.is_placed ≡ self.old.is_placed }
        ensures same_name { self.new.names.out ≡ self.old.names.out }
        ensures failures { self.new.writer.failures.count
            ≡ self.old.writer.failures.count + (if is_ok result then 0 else 1) }
    {
        let settled = self.writer.settle(&mut self.calls);
        self.writer.count(settled)
    }

    fn put_in_place(&mut self) -> Result<(), DeviceFault>
        ensures renamed { C.told ≡ true → OnOk result (
            Does (Renames (string_bytes self.old.names.beside) (path_buf_bytes self.old.names.out))
            (C.run self.old.calls) (C.run self.new.calls)) }
        ensures checked { C.told ≡ true → OnOk result (
            ((C.run self.old.calls).now.names (string_bytes self.old.names.beside)).leads
            ≡ option_map C.number self.old.writer.file) }
        ensures whole { OnOk result (self.old.writer.is_broken ≡ false) }
        ensures open { OnOk result (IsSome self.old.writer.file) }
        ensures refused { C.told ≡ true → OnErr result (
            Passes IsSame IsSame (C.run self.old.calls) (C.run self.new.calls)) }
        ensures closed { OnOk result (self.new.writer.file ≡ None) }
        ensures first { OnOk result (self.old.is_placed ≡ false) }
        ensures placed { self.new.is_placed
            ≡ (if is_ok result then true else self.old.is_placed) }
        ensures same_waiting { self.new.writer.waiting ≡ self.old.writer.waiting }
        ensures same_name { self.new.names.out ≡ self.old.names.out }
        ensures failures { self.new.writer.failures.count
            ≡ self.old.writer.failures.count + (if is_ok result then 0 else 1) }
    {
        let placed = if self.writer.is_broken || self.is_placed {
            Err(CallFault::Other)
        } else {
            rename(&mut self.calls, &self.names, &self.writer.file)
        };
        if placed.is_ok() {
            self.writer.file = None;
            self.is_placed = true;
        }
        self.writer.count(placed)
    }

    fn sync_names(&mut self) -> Result<(), DeviceFault>
        ensures confirmed { C.told ≡ true → OnOk result (IfSome self.old.folder (λ f.
            Does (Confirms (C.has_name f)) (C.run self.old.calls) (C.run self.new.calls))) }
        ensures found { OnOk result (IsSome self.old.folder) }
        ensures refused { C.told ≡ true → OnErr result (
            Passes IsSame IsSame (C.run self.old.calls) (C.run self.new.calls)) }
        ensures same_file { self.new.writer.file ≡ self.old.writer.file }
        ensures same_taken { self.new.writer.taken ≡ self.old.writer.taken }
        ensures same_waiting { self.new.writer.waiting ≡ self.old.writer.waiting }
        ensures placed { self.new.is_placed ≡ self.old.is_placed }
        ensures same_name { self.new.names.out ≡ self.old.names.out }
        ensures failures { self.new.writer.failures.count
            ≡ self.old.writer.failures.count + (if is_ok result then 0 else 1) }
    {
        let confirmed = sync_parent(&mut self.calls, &self.folder);
        self.writer.count(confirmed)
    }

    fn remove(&mut self) -> Result<(), DeviceFault>
        ensures unlinked { C.told ≡ true → OnOk result (
            Does (Unlinks (string_bytes self.old.names.beside))
            (C.run self.old.calls) (C.run self.new.calls)) }
        ensures checked { C.told ≡ true → OnOk result (
            ((C.run self.old.calls).now.names (string_bytes self.old.names.beside)).leads
            ≡ option_map C.number self.old.writer.file) }
        ensures open { OnOk result (IsSome self.old.writer.file) }
        ensures refused { C.told ≡ true → OnErr result (
            Passes IsSame IsSame (C.run self.old.calls) (C.run self.new.calls)) }
        ensures closed { OnOk result (self.new.writer.file ≡ None) }
        ensures none_wait { OnOk result (self.new.writer.waiting.items ≡ []) }
        ensures placed { self.new.is_placed ≡ self.old.is_placed }
        ensures same_name { self.new.names.out ≡ self.old.names.out }
        ensures failures { self.new.writer.failures.count
            ≡ self.old.writer.failures.count + (if is_ok result then 0 else 1) }
    {
        let removed = take_away(&mut self.calls, &self.names, &self.writer.file);
        if removed.is_ok() {
            self.writer.close();
        }
        self.writer.count(removed)
    }
}
