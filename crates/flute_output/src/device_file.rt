//! A pipe or a device of the system.
ghost use Rattle.std.specs.Prelude.{◌≡◌, ◌+◌, None, if◌then◌else◌, is_ok};

use crate::buffered_file::BufferedFile;
use crate::file_limit::FileLimit;
use flute_parts::{DeviceFault, Sink};
use std::alloc::Global;
use std::fs::{self, File};
use std::io;
use std::rt::Files;

/// A pipe, a device, or a file without a name, at a path. It takes its bytes itself, and what it
/// took is not taken back. Contracts see nothing of them.
#[derive(Drop)]
pub struct DeviceFile<'a, R: Files<File = File>> {
    rt: &'a R,
    path: String,
    file: BufferedFile,
}

impl<'a, R: Files<File = File>> DeviceFile<'a, R> {
    /// What is at this path. It is not opened yet. No later call asks for memory.
    ///
    /// # Errors
    ///
    /// `OutOfMemory`.
    pub fn new(rt: &'a R, alloc: Global, path: &str) -> io::Result<DeviceFile<'a, R>> {
        Ok(DeviceFile {
            rt,
            path: String::from_str(alloc, path)?,
            file: BufferedFile::closed(alloc, FileLimit::of_process(rt))?,
        })
    }

    /// Opens it.
    ///
    /// # Errors
    ///
    /// `DeviceFault` if the system does not open it.
    pub fn open(&mut self) -> Result<(), DeviceFault>
        ensures { ⟦<DeviceFile<'a, R> as Sink>⟧.failures self.new
            ≡ ⟦<DeviceFile<'a, R> as Sink>⟧.failures self.old + (if is_ok result then 0 else 1) }
    {
        let opened = fs::create(self.rt, &self.path);
        let file = self.file.count(opened)?;
        self.file.open(file);
        Ok(())
    }

    /// Flushes the bytes that wait.
    ///
    /// # Errors
    ///
    /// `DeviceFault` if it failed. Which of them it has is then not known.
    pub fn flush(&mut self) -> Result<(), DeviceFault>
        ensures { ⟦<DeviceFile<'a, R> as Sink>⟧.failures self.new
            ≡ ⟦<DeviceFile<'a, R> as Sink>⟧.failures self.old + (if is_ok result then 0 else 1) }
    {
        self.file.flush()
    }
}

impl<R: Files<File = File>> Sink for DeviceFile<'_, R> {
    ghost failures = { λ d. ⟦<BufferedFile as Sink>⟧.failures d.file };

    ghost written = { λ _. None };

    fn write(&mut self, bytes: &[u8]) -> Result<usize, DeviceFault> {
        self.file.write(bytes)
    }
}
