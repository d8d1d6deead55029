//! A new folder in memory, which gets files and then its name.
ghost use Rattle.std.specs.Prelude.{◌≡◌, ◌+◌, ◌-◌, [], Some, None, true, OnOk};
ghost use Rattle.std.specs.Prelude.{option_map, if◌then◌else◌, is_ok};
ghost use Rattle.flute_memory.specs.NewMemory.{filled, memory_places};

use flute_output::NewFolder;
use flute_parts::{DeviceFault, Failures};
use std::alloc::Global;

/// A file in memory.
#[derive(Drop)]
pub struct MemoryFile {
    pub name: Vec<u8>,
    pub bytes: Vec<u8>,
}

/// A folder of files in memory.
#[derive(Drop)]
pub struct MemoryFiles {
    pub files: Vec<MemoryFile>,
    pub on_disk: bool,
}

/// A new folder for tests. It fails for good after a given number of calls.
#[derive(Drop)]
pub struct MemoryNewFolder {
    alloc: Global,
    out: Option<MemoryFiles>,
    beside: Option<MemoryFiles>,
    open_file: Option<MemoryFile>,
    past: Vec<Option<MemoryFiles>>,
    named: bool,
    good: usize,
    failures: Failures,
}

impl MemoryNewFolder {
    /// A place where OUT is not there, and the disk knows that; or where it is this folder. After
    /// `good` calls each call fails; before that only if it finds no memory, or not what it needs.
    pub fn new(alloc: Global, out: Option<MemoryFiles>, good: usize) -> MemoryNewFolder
        ensures { memory_places result ≡ record {
          out = option_map filled out;
          beside = None;
          open_file = None;
          past = [];
          named = true;
        } }
    {
        MemoryNewFolder {
            alloc,
            out,
            beside: None,
            open_file: None,
            past: Vec::new(alloc),
            named: true,
            good,
            failures: Failures::none(),
        }
    }

    /// The folder OUT, if it is there.
    pub fn out(&self) -> Option<&MemoryFiles>
        ensures { option_map (λ f. filled f.now) result ≡ (memory_places self.now).out }
    {
        self.out.as_ref()
    }

    /// The folder beside OUT, if it is there.
    pub fn beside(&self) -> Option<&MemoryFiles>
        ensures { option_map (λ f. filled f.now) result ≡ (memory_places self.now).beside }
    {
        self.beside.as_ref()
    }

    // Counts a failure.
    fn fail(&mut self) -> DeviceFault
        ensures places { memory_places self.new ≡ memory_places self.old }
        ensures failures { self.new.failures.count ≡ self.old.failures.count + 1 }
    {
        self.failures = self.failures.and_one();
        DeviceFault
    }

    // Whether this call may succeed.
    fn turn(&mut self) -> Result<(), DeviceFault>
        ensures same { OnOk result (self.new ≡ record self.old { good = self.old.good - 1 }) }
        ensures places { memory_places self.new ≡ memory_places self.old }
        ensures failures { self.new.failures.count
            ≡ self.old.failures.count + (if is_ok result then 0 else 1) }
    {
        if self.good == 0 {
            return Err(self.fail());
        }
        self.good -= 1;
        Ok(())
    }
}

impl NewFolder for MemoryNewFolder {
    ghost use Rattle.flute_memory.specs.NewMemory.{memory_places};

    ghost places = { λ f. Some (memory_places f) };

    ghost failures = { λ f. f.failures.count };

    fn create(&mut self) -> Result<(), DeviceFault> {
        self.turn()?;
        if self.out.is_some() {
            return Err(self.fail());
        }
        self.beside = Some(MemoryFiles {
            files: Vec::new(self.alloc),
            on_disk: false,
        });
        self.open_file = None;
        self.past = Vec::new(self.alloc);
        Ok(())
    }

    fn begin(&mut self, name: &[u8]) -> Result<(), DeviceFault> {
        self.turn()?;
        match name.to_vec(self.alloc) {
            Ok(name) => {
                self.open_file = Some(MemoryFile {
                    name,
                    bytes: Vec::new(self.alloc),
                });
                Ok(())
            }
            Err(_) => Err(self.fail()),
        }
    }

    fn put(&mut self, bytes: &[u8]) -> Result<(), DeviceFault> {
        self.turn()?;
        match &mut self.open_file {
            Some(file) => match file.bytes.extend_from_slice(bytes) {
                Ok(()) => Ok(()),
                Err(_) => Err(self.fail()),
            },
            None => Err(self.fail()),
        }
    }

    fn keep(&mut self) -> Result<(), DeviceFault> {
        self.turn()?;
        match (&mut self.beside, self.open_file.take()) {
            (Some(folder), Some(file)) => match folder.files.push(file) {
                Ok(()) => {
                    folder.on_disk = false;
                    Ok(())
                }
                Err(_) => Err(self.fail()),
            },
            _ => Err(self.fail()),
        }
    }

    fn leave(&mut self) -> Result<(), DeviceFault> {
        self.turn()?;
        self.open_file = None;
        Ok(())
    }

    fn sync(&mut self) -> Result<(), DeviceFault> {
        self.turn()?;
        match &mut self.beside {
            Some(folder) => {
                folder.on_disk = true;
                Ok(())
            }
            None => Err(self.fail()),
        }
    }

    fn put_in_place(&mut self) -> Result<(), DeviceFault> {
        self.turn()?;
        if self.beside.is_none() {
            return Err(self.fail());
        }
        match self.past.push(self.out.take()) {
            Ok(()) => {
                self.out = self.beside.take();
                self.named = false;
                Ok(())
            }
            Err(failed) => {
                self.out = failed.value;
                Err(self.fail())
            }
        }
    }

    fn sync_name(&mut self) -> Result<(), DeviceFault> {
        self.turn()?;
        self.named = true;
        Ok(())
    }

    fn remove(&mut self) -> Result<(), DeviceFault> {
        self.turn()?;
        self.beside = None;
        self.open_file = None;
        Ok(())
    }
}
