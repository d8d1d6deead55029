//! A folder in memory, in which an output is made, filled, synced and renamed.
ghost use Rattle.std.specs.Prelude.{◌≡◌, IfOk, ◌+◌, ◌-◌, ◌++◌, ◌∷◌, Some};
ghost use Rattle.std.specs.Prelude.{true, OnOk, IfSome, MatchOption, option_map, [], None};
ghost use Rattle.std.specs.Prelude.{if◌then◌else◌, is_ok};
ghost use Rattle.flute_memory.specs.Memory.{stored};

use flute_output::Folder;
use flute_parts::{DeviceFault, Failures};
use std::alloc::{AllocError, Global};

/// A file in memory.
#[derive(Drop)]
pub struct StoredFile {
    pub bytes: Vec<u8>,
    pub on_disk: bool,
}

/// A folder for tests. Bytes wait in memory until a flush, and it fails for good after a given
/// number of calls.
#[derive(Drop)]
pub struct MemoryFolder {
    alloc: Global,
    out: Option<StoredFile>,
    beside: Option<StoredFile>,
    waiting: Vec<u8>,
    found: Option<StoredFile>,
    past: Vec<Option<StoredFile>>,
    named: bool,
    good: usize,
    failures: Failures,
}

impl MemoryFolder {
    ghost use Rattle.flute_memory.specs.Memory.{memory_entries};

    /// A folder where OUT has these bytes, or is not there, and the disk has all of that. After
    /// `good` calls each call fails; before that only if it finds no memory, or no file beside OUT.
    pub fn new(alloc: Global, out: Option<Vec<u8>>, good: usize) -> MemoryFolder
        ensures { memory_entries result ≡ record {
          out = option_map (λ v. record { bytes = v.items; on_disk = true }) out;
          beside = None;
          waiting = [];
          found = None;
          past = [];
          named = true;
        } }
    {
        MemoryFolder {
            alloc,
            out: out.map(|bytes| StoredFile {
                bytes,
                on_disk: true,
            }),
            beside: None,
            waiting: Vec::new(alloc),
            found: None,
            past: Vec::new(alloc),
            named: true,
            good,
            failures: Failures::none(),
        }
    }

    /// The bytes of OUT, if it is there.
    pub fn out(&self) -> Option<&[u8]>
        ensures { option_map (λ b. b.now) result
            ≡ option_map (λ s. s.bytes) (memory_entries self.now).out }
    {
        self.out.as_ref().map(|file| file.bytes.as_slice())
    }

    /// The bytes of the file beside OUT, if it is there.
    pub fn beside(&self) -> Option<&[u8]>
        ensures { option_map (λ b. b.now) result
            ≡ option_map (λ s. s.bytes) (memory_entries self.now).beside }
    {
        self.beside.as_ref().map(|file| file.bytes.as_slice())
    }

    // Counts a failure.
    fn fail(&mut self) -> DeviceFault
        ensures entries { memory_entries self.new ≡ memory_entries self.old }
        ensures failures { self.new.failures.count ≡ self.old.failures.count + 1 }
    {
        self.failures = self.failures.and_one();
        DeviceFault
    }

    // Whether this call may succeed.
    fn turn(&mut self) -> Result<(), DeviceFault>
        ensures same { OnOk result (self.new ≡ record self.old { good = self.old.good - 1 }) }
        ensures entries { memory_entries self.new ≡ memory_entries self.old }
        ensures failures { self.new.failures.count
            ≡ self.old.failures.count + (if is_ok result then 0 else 1) }
    {
        if self.good == 0 {
            return Err(self.fail());
        }
        self.good -= 1;
        Ok(())
    }
}

// A copy of the file.
fn copied(alloc: Global, file: &Option<StoredFile>) -> Result<Option<StoredFile>, AllocError>
    ensures { IfOk result (λ copy. option_map stored copy ≡ option_map stored file.now) }
{
    match file {
        Some(file) => Ok(Some(StoredFile {
            bytes: file.bytes.as_slice().to_vec(alloc)?,
            on_disk: file.on_disk,
        })),
        None => Ok(None),
    }
}

impl Folder for MemoryFolder {
    ghost use Rattle.flute_memory.specs.Memory.{memory_entries};

    ghost entries = { λ f. Some (memory_entries f) };

    ghost moments = { λ _. [] };

    ghost failures = { λ f. f.failures.count };

    fn create(&mut self) -> Result<(), DeviceFault> {
        self.turn()?;
        let found = match copied(self.alloc, &self.out) {
            Ok(found) => found,
            Err(_) => return Err(self.fail()),
        };
        self.found = found;
        self.past = Vec::new(self.alloc);
        self.beside = Some(StoredFile {
            bytes: Vec::new(self.alloc),
            on_disk: false,
        });
        self.waiting.clear();
        Ok(())
    }

    fn write(&mut self, bytes: &[u8]) -> Result<usize, DeviceFault> {
        self.turn()?;
        match self.waiting.extend_from_slice(bytes) {
            Ok(()) => Ok(bytes.len()),
            Err(_) => Err(self.fail()),
        }
    }

    fn flush(&mut self) -> Result<(), DeviceFault> {
        self.turn()?;
        match &mut self.beside {
            Some(file) => match file.bytes.extend_from_slice(&self.waiting) {
                Ok(()) => {
                    file.on_disk = false;
                    self.waiting.clear();
                    Ok(())
                }
                Err(_) => Err(self.fail()),
            },
            None => Err(self.fail()),
        }
    }

    fn sync(&mut self) -> Result<(), DeviceFault> {
        self.turn()?;
        match &mut self.beside {
            Some(file) => {
                file.on_disk = true;
                Ok(())
            }
            None => Err(self.fail()),
        }
    }

    fn put_in_place(&mut self) -> Result<(), DeviceFault> {
        self.turn()?;
        if self.beside.is_none() {
            return Err(self.fail());
        }
        match self.past.push(self.out.take()) {
            Ok(()) => {
                self.out = self.beside.take();
                self.named = false;
                Ok(())
            }
            Err(failed) => {
                self.out = failed.value;
                Err(self.fail())
            }
        }
    }

    fn sync_names(&mut self) -> Result<(), DeviceFault> {
        self.turn()?;
        self.named = true;
        Ok(())
    }

    fn remove(&mut self) -> Result<(), DeviceFault> {
        self.turn()?;
        self.beside = None;
        self.waiting.clear();
        Ok(())
    }
}
