//! A file over the calls of a system, and the bytes that wait for it.
ghost use Rattle.std.specs.Prelude.{◌≡◌, ◌+◌, ◌<◌, ◌≤◌, None, Some, true, false, length, take};
ghost use Rattle.std.specs.Prelude.{IfOk, IfSome, IsSome, OnOk, OnErr, Ok, if◌then◌else◌, is_ok};
ghost use Rattle.std.specs.Prelude.{option_map, ◌++◌, [], MatchOption};
ghost use Rattle.flute_calls.specs.Disks.{Syncs, Touches};
ghost use Rattle.flute_calls.specs.Moments.{Always, Does, Passes};
ghost use Rattle.flute_output.specs.DiskWrites.{Extends, GoesOn, Keeps, LeavesOthers};
ghost use Rattle.flute_output.specs.DiskWrites.{taken_for, writing};

use crate::beside::{fill_file, sync_file};
use crate::file_limit::FileLimit;
use flute_calls::{CallFault, Calls};
use flute_parts::{DeviceFault, Failures};
use std::alloc::Global;
use std::io;

/// How many bytes wait in memory at most.
const BUFFER: usize = 131_072;

/// A file that is opened later. Its bytes wait in memory until they are many, or are handed on.
#[derive(Drop)]
pub struct WaitingFile<C: Calls + Drop> {
    /// The file, if it is open.
    pub file: Option<C::File>,
    /// How many bytes the file took, and which wait.
    pub taken: u64,
    pub waiting: Vec<u8>,
    /// How long it may become, and how long a regular file may.
    most: FileLimit,
    limit: FileLimit,
    /// Whether a write or a sync of it has failed.
    pub is_broken: bool,
    pub failures: Failures,
}

impl<C: Calls + Drop> WaitingFile<C> {
    /// Not open yet. A regular file may become as long as this limit says. No later call asks for
    /// memory.
    ///
    /// # Errors
    ///
    /// `OutOfMemory`.
    pub fn closed(alloc: Global, limit: FileLimit) -> io::Result<WaitingFile<C>>
        ensures { IfOk result (λ writer. writer.file ≡ None) }
    {
        Ok(WaitingFile {
            file: None,
            taken: 0,
            waiting: Vec::with_capacity(alloc, BUFFER)?,
            most: FileLimit::NONE,
            limit,
            is_broken: false,
            failures: Failures::none(),
        })
    }

    /// It is this file from now on, an empty one. Bytes that wait for another are dropped.
    pub fn open(&mut self, calls: &mut C, file: C::File)
        ensures opened { option_map C.number self.new.file ≡ Some (C.number file) }
        ensures none_wait { self.new.waiting.items ≡ [] }
        ensures none_taken { self.new.taken ≡ 0 }
        ensures same { C.told ≡ true → C.run calls.new ≡ C.run calls.old }
        ensures failures { self.new.failures ≡ self.old.failures }
    {
        self.most = match calls.look_at(&file) {
            Ok(found) if found.is_regular => self.limit.again(),
            _ => FileLimit::NONE,
        };
        self.taken = 0;
        self.waiting.clear();
        self.is_broken = false;
        self.file = Some(file);
    }

    /// It is not open from now on. Bytes that wait for it are dropped.
    pub fn close(&mut self)
        ensures closed { self.new.file ≡ None }
        ensures none_wait { self.new.waiting.items ≡ [] }
        ensures failures { self.new.failures ≡ self.old.failures }
    {
        self.file = None;
        self.waiting.clear();
    }

    /// Counts the failure of a call that failed.
    pub fn count<T, E: Drop>(&mut self, done: Result<T, E>) -> Result<T, DeviceFault>
        ensures same { self.new ≡ record self.old { failures = self.new.failures } }
        ensures failures { self.new.failures.count
            ≡ self.old.failures.count + (if is_ok result then 0 else 1) }
        ensures value { IfOk result (λ x. done ≡ Ok x) }
        ensures refused { is_ok result ≡ is_ok done }
    {
        match done {
            Ok(value) => Ok(value),
            Err(_) => {
                self.failures = self.failures.and_one();
                Err(DeviceFault)
            }
        }
    }

    // How long the file is with the bytes that wait, if it may become so.
    fn next_length(&self) -> Option<u64>
        ensures { IfSome result (λ n. (self.now.is_broken ≡ false)
            × (n ≡ self.now.taken + length self.now.waiting.items)) }
    {
        if self.is_broken || self.most.check(self.taken, self.waiting.len()).is_err() {
            return None;
        }
        self.taken.checked_add(self.waiting.len() as u64)
    }

    /// Hands the bytes that wait on to the file.
    ///
    /// # Errors
    ///
    /// If a call failed, the file is not open or is broken, or it would be longer than it may be.
    /// It is broken then.
    pub fn pour(&mut self, calls: &mut C) -> Result<(), CallFault>
        ensures flushed { C.told ≡ true → OnOk result (
            IfSome (option_map C.number self.old.file) (λ k.
            Passes (Touches k) (Extends k self.old.waiting.items)
            (C.run calls.old) (C.run calls.new))) }
        ensures any_moment { C.told ≡ true → Always
            (LeavesOthers (option_map C.number self.old.file) (C.run calls.old).now)
            (C.run calls.old) (C.run calls.new) }
        ensures same_file { option_map C.number self.new.file
            ≡ option_map C.number self.old.file }
        ensures none_wait { OnOk result (self.new.waiting.items ≡ []) }
        ensures whole { OnOk result (self.old.is_broken ≡ false) }
        ensures goes_on { C.told ≡ true → GoesOn (option_map C.number self.old.file) []
            (writing self.old.taken self.old.is_broken self.old.waiting.items (C.run calls.old).now)
            (writing self.new.taken self.new.is_broken self.new.waiting.items
            (C.run calls.new).now) }
        ensures broken { OnErr result (self.new.is_broken ≡ true) }
        ensures open { OnOk result (IsSome self.old.file) }
        ensures failures { self.new.failures ≡ self.old.failures }
    {
        let Some(next) = self.next_length() else {
            self.is_broken = true;
            return Err(CallFault::Other);
        };
        let filled = fill_file(calls, &mut self.file, &self.waiting);
        if filled.is_ok() {
            self.taken = next;
            self.waiting.clear();
        } else {
            self.is_broken = true;
        }
        filled
    }

    /// Waits until the disk has all of the file.
    ///
    /// # Errors
    ///
    /// If the call failed, or the file is not open. It is broken then.
    pub fn settle(&mut self, calls: &mut C) -> Result<(), CallFault>
        ensures settled { C.told ≡ true → OnOk result (
            IfSome (option_map C.number self.old.file) (λ k.
            Does (Syncs k) (C.run calls.old) (C.run calls.new))) }
        ensures refused { C.told ≡ true → OnErr result (
            MatchOption (option_map C.number self.old.file) (C.run calls.new ≡ C.run calls.old)
            (λ k. Passes (Touches k) (Touches k) (C.run calls.old) (C.run calls.new))) }
        ensures same { self.new ≡ record self.old { is_broken = self.new.is_broken } }
        ensures whole { OnOk result (self.new.is_broken ≡ self.old.is_broken) }
        ensures open { OnOk result (IsSome self.old.file) }
        ensures broken { OnErr result (self.new.is_broken ≡ true) }
        ensures failures { self.new.failures ≡ self.old.failures }
    {
        let settled = sync_file(calls, &self.file);
        if settled.is_err() {
            self.is_broken = true;
        }
        settled
    }

    /// Takes the first bytes, and hands on before that what waits if there is no room for them.
    ///
    /// # Errors
    ///
    /// As those of `pour`.
    pub fn receive(&mut self, calls: &mut C, bytes: &[u8]) -> Result<usize, CallFault>
        ensures bound { IfOk result (λ n. n ≤ length bytes.now) }
        ensures progress { 0 < length bytes.now → IfOk result (λ n. 0 < n) }
        ensures received { C.told ≡ true → IfOk result (λ n.
            IfSome (option_map C.number self.old.file) (λ k.
            taken_for k self.new.waiting.items (C.run calls.new).now
            ≡ taken_for k self.old.waiting.items (C.run calls.old).now
            ++ take n bytes.now)) }
        ensures goes_on { C.told ≡ true → IfOk result (λ n. GoesOn
            (option_map C.number self.old.file) (take n bytes.now)
            (writing self.old.taken self.old.is_broken self.old.waiting.items (C.run calls.old).now)
            (writing self.new.taken self.new.is_broken self.new.waiting.items
            (C.run calls.new).now)) }
        ensures refused { C.told ≡ true → OnErr result (GoesOn
            (option_map C.number self.old.file) []
            (writing self.old.taken self.old.is_broken self.old.waiting.items (C.run calls.old).now)
            (writing self.new.taken self.new.is_broken self.new.waiting.items
            (C.run calls.new).now)) }
        ensures any_moment { C.told ≡ true → Always
            (LeavesOthers (option_map C.number self.old.file) (C.run calls.old).now)
            (C.run calls.old) (C.run calls.new) }
        ensures same_file { option_map C.number self.new.file
            ≡ option_map C.number self.old.file }
        ensures failures { self.new.failures ≡ self.old.failures }
    {
        let count = bytes.len().min(BUFFER);
        if self.waiting.len().saturating_add(count) > BUFFER {
            self.pour(calls)?;
        }
        match self.waiting.extend_from_slice(&bytes[..count]) {
            Ok(()) => Ok(count),
            Err(_) => Err(CallFault::Other),
        }
    }

    /// Hands the bytes that wait on to the file, waits until the disk has all of it, and closes it.
    ///
    /// # Errors
    ///
    /// As those of `pour` and `settle`.
    pub fn end(&mut self, calls: &mut C) -> Result<(), CallFault>
        ensures kept { C.told ≡ true → OnOk result (
            IfSome (option_map C.number self.old.file) (λ k.
            Passes (Touches k) (Keeps k self.old.waiting.items)
            (C.run calls.old) (C.run calls.new))) }
        ensures whole { OnOk result (self.old.is_broken ≡ false) }
        ensures open { OnOk result (IsSome self.old.file) }
        ensures failures { self.new.failures ≡ self.old.failures }
    {
        self.pour(calls)?;
        self.settle(calls)?;
        self.file = None;
        Ok(())
    }
}
