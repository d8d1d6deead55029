//! A file that is opened later, and the bytes that wait for it.
ghost use Rattle.std.specs.Prelude.{◌≡◌, ◌+◌, None, if◌then◌else◌, is_ok};

use crate::file_limit::FileLimit;
use flute_parts::{DeviceFault, Failures, Sink};
use std::alloc::Global;
use std::fs::File;
use std::io::{self, ErrorKind, Write};

/// How many bytes wait in memory at most.
const BUFFER: usize = 131_072;

/// A file of the system whose bytes wait in memory until a flush, or until it is dropped. Contracts
/// see nothing of them.
pub struct BufferedFile {
    /// The file, if it is open.
    pub file: Option<File>,
    /// How long the file is, without the bytes that wait, and may become.
    length: u64,
    most: FileLimit,
    /// How long a regular file may become.
    limit: FileLimit,
    waiting: Vec<u8>,
    /// Whether a flush has failed. Then each later one does, so that no bytes are left out.
    is_broken: bool,
    failures: Failures,
}

impl BufferedFile {
    /// Not open yet. A regular file may become as long as this limit says. No later call asks for
    /// memory.
    ///
    /// # Errors
    ///
    /// `OutOfMemory`.
    pub fn closed(alloc: Global, limit: FileLimit) -> io::Result<BufferedFile> {
        Ok(BufferedFile {
            file: None,
            length: 0,
            most: FileLimit::NONE,
            limit,
            waiting: Vec::with_capacity(alloc, BUFFER)?,
            is_broken: false,
            failures: Failures::none(),
        })
    }

    /// It is this file from now on, an empty one. Bytes that wait for another are dropped.
    pub fn open(&mut self, file: File)
        ensures { self.new.failures ≡ self.old.failures }
    {
        self.most = match file.metadata() {
            Ok(found) => self.limit.of(&found),
            Err(_) => FileLimit::NONE,
        };
        self.length = 0;
        self.file = Some(file);
        self.waiting.clear();
        self.is_broken = false;
    }

    /// Counts the failure of a call that failed.
    pub fn count<T, E: Drop>(&mut self, done: Result<T, E>) -> Result<T, DeviceFault>
        ensures { self.new.failures.count
            ≡ self.old.failures.count + (if is_ok result then 0 else 1) }
    {
        match done {
            Ok(value) => Ok(value),
            Err(_) => {
                self.failures = self.failures.and_one();
                Err(DeviceFault)
            }
        }
    }

    /// Flushes the bytes that wait.
    ///
    /// # Errors
    ///
    /// `DeviceFault` if the file failed, is not open, or would be longer than the process may make
    /// it. Which of them it has is then not known, and each later flush fails.
    pub fn flush(&mut self) -> Result<(), DeviceFault>
        ensures { self.new.failures.count
            ≡ self.old.failures.count + (if is_ok result then 0 else 1) }
    {
        let flushed = match &mut self.file {
            Some(file) if !self.is_broken => {
                match self.most.check(self.length, self.waiting.len()) {
                    Ok(()) => file.write_all(&self.waiting),
                    too_long => too_long,
                }
            }
            _ => Err(ErrorKind::NotConnected.into()),
        };
        self.length = self.length.saturating_add(self.waiting.len() as u64);
        self.is_broken = flushed.is_err();
        self.waiting.clear();
        self.count(flushed)
    }
}

impl Drop for BufferedFile {
    fn drop(mut self) {
        let _ = self.flush();
        let BufferedFile {
            file: _,
            length: _,
            most: _,
            limit: _,
            waiting: _,
            is_broken: _,
            failures: _,
        } = self;
    }
}

impl Sink for BufferedFile {
    ghost failures = { λ f. f.failures.count };

    ghost written = { λ _. None };

    fn write(&mut self, bytes: &[u8]) -> Result<usize, DeviceFault> {
        let count = bytes.len().min(BUFFER);
        if self.waiting.len().saturating_add(count) > BUFFER {
            self.flush()?;
        }
        let waits = self.waiting.extend_from_slice(&bytes[..count]);
        self.count(waits)?;
        Ok(count)
    }
}
