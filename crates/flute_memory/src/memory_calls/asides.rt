//! The calls for files in memory that are put aside.
ghost use Rattle.std.specs.Prelude.{◌≡◌, [], OnOk, true};
ghost use Rattle.flute_calls.specs.Disks.{Unlinks};
ghost use Rattle.flute_calls.specs.Moments.{Does, IsSame, Passes};
ghost use Rattle.std.specs.Prelude.{OnErr};

use super::MemoryCalls;
use crate::changes::{Change, bytes_of};
use flute_asides::AsideCalls;
use flute_calls::CallFault;

/// How many bytes a write takes, and a read gives, at most.
const PIECE: usize = 30_000;

/// An open file in memory, which is read and written from one place on.
#[derive(Drop)]
pub struct OpenAside {
    number: usize,
    at: usize,
    mode: u32,
}

impl MemoryCalls {
    // Removes the name of a file, if there is one.
    fn take_away(&mut self, name: &str) -> Result<(), CallFault>
        ensures removed { OnOk result (Does (Unlinks name.now)
            (⟦<MemoryCalls as AsideCalls>⟧.run self.old)
            (⟦<MemoryCalls as AsideCalls>⟧.run self.new)) }
        ensures refused { OnErr result (Passes IsSame IsSame
            (⟦<MemoryCalls as AsideCalls>⟧.run self.old)
            (⟦<MemoryCalls as AsideCalls>⟧.run self.new)) }
        ensures stuck { self.new.stuck ≡ self.old.stuck }
    {
        self.turn()?;
        if let Some(number) = self.find(name) {
            if self.has_folder(number) {
                return Err(CallFault::Other);
            }
        }
        let name = self.copied(name.as_bytes())?;
        self.note(Change::Removed { name })?;
        Ok(())
    }
}

impl AsideCalls for MemoryCalls {
    ghost use Rattle.flute_memory.specs.MemoryDisk.{run_of};

    type File = OpenAside;

    ghost told = { true };

    ghost run = { λ calls. run_of calls.changes.items };

    ghost opened = { λ file.
        record { number = file.number; at = file.at; mode = file.mode } };

    ghost stuck = { λ calls. calls.stuck.count };

    fn create_new(&mut self, name: &str, mode: u32) -> Result<OpenAside, CallFault> {
        self.turn()?;
        if self.find(name).is_some() {
            return Err(CallFault::AlreadyExists);
        }
        let number = self.changes.len();
        let name = self.copied(name.as_bytes())?;
        self.note(Change::Made { name })?;
        Ok(OpenAside {
            number,
            at: 0,
            mode,
        })
    }

    fn is_empty(&mut self, name: &str) -> Result<bool, CallFault> {
        self.turn()?;
        let file = self.opened_file(name)?;
        match bytes_of(self.alloc, &self.changes, file.number) {
            Ok(bytes) => Ok(bytes.is_empty()),
            Err(_) => Err(CallFault::Other),
        }
    }

    fn unlink(&mut self, name: &str) -> Result<(), CallFault> {
        let removed = self.take_away(name);
        if removed.is_err() {
            self.stuck = self.stuck.and_one();
        }
        removed
    }

    // The bytes go to the end, wherever the file is.
    fn write(&mut self, file: &mut OpenAside, bytes: &[u8]) -> Result<usize, CallFault> {
        self.turn()?;
        if file.number >= self.changes.len() {
            return Err(CallFault::NotFound);
        }
        let count = bytes.len().min(PIECE);
        let Some(at) = file.at.checked_add(count) else {
            return Err(CallFault::Other);
        };
        let bytes = self.copied(&bytes[..count])?;
        self.note(Change::Written {
            file: file.number,
            bytes,
        })?;
        file.at = at;
        Ok(count)
    }

    fn rewind(&mut self, file: &mut OpenAside) -> Result<(), CallFault> {
        self.turn()?;
        file.at = 0;
        Ok(())
    }

    fn read(&mut self, file: &mut OpenAside, buffer: &mut [u8]) -> Result<usize, CallFault> {
        self.turn()?;
        let Ok(bytes) = bytes_of(self.alloc, &self.changes, file.number) else {
            return Err(CallFault::Other);
        };
        if file.at >= bytes.len() {
            return Ok(0);
        }
        let left = &bytes[file.at..];
        let count = left.len().min(buffer.len()).min(PIECE);
        buffer[..count].copy_from_slice(&left[..count]);
        file.at += count;
        Ok(count)
    }

    fn truncate(&mut self, file: &OpenAside) -> Result<(), CallFault> {
        self.turn()?;
        if file.number >= self.changes.len() {
            return Err(CallFault::NotFound);
        }
        self.note(Change::Truncated { file: file.number })?;
        Ok(())
    }
}
