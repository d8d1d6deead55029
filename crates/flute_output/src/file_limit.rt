//! How long a file may become.
ghost use Rattle.std.specs.Prelude.{◌≡◌, ◌+◌, ◌-◌, ◌^◌, ◌==◌, ◌<◌, ◌≤◌, OnOk, OnErr};

use std::fs::{File, Metadata};
use std::io::{self, ErrorKind, Read};
use std::marker::Model;
use std::rt::Files;

/// Where the system says what a process may do, and how long it may make a file.
const LIMITS: (&str, &str) = ("/proc/self/limits", "Max file size");

/// How many bytes the process may make a file long, as `ulimit -f` sets it. The system ends one
/// that writes behind that by a signal, SIGXFSZ, so it is checked before a write.
///
/// Contracts see it as this number of bytes.
#[derive(Drop)]
pub struct FileLimit {
    most: u64,
}

impl Model for FileLimit {
    ghost use Rattle.std.specs.Prelude.{ℕ};

    ghost Value = { ℕ };

    ghost view = { λ l. l.most };
}

impl FileLimit {
    /// More bytes than any file has.
    pub const NONE: FileLimit = FileLimit { most: u64::MAX };

    /// That of the process, as it is now. It is `NONE` if there is none, or the system has no
    /// `/proc` that says it.
    pub fn of_process<R: Files<File = File>>(rt: &R) -> FileLimit {
        let (path, words) = LIMITS;
        match number_in(rt, path, words) {
            Some(most) => FileLimit { most },
            None => FileLimit::NONE,
        }
    }

    /// This one for what was found: `NONE` for all but a regular file.
    pub fn of(&self, found: &Metadata) -> FileLimit {
        if found.is_file() {
            self.again()
        } else {
            FileLimit::NONE
        }
    }

    /// The same limit once more.
    pub fn again(&self) -> FileLimit {
        FileLimit { most: self.most }
    }

    /// Whether there is none.
    pub fn is_none(&self) -> bool
        ensures { result ≡ (self.now == 2 ^ 64 - 1) }
    {
        self.most == u64::MAX
    }

    /// Checks that a file of `length` bytes may get `count` more.
    ///
    /// # Errors
    ///
    /// `FileTooLarge` if it would be longer than its limit.
    pub fn check(&self, length: u64, count: usize) -> io::Result<()>
        ensures allowed { OnOk result (length + count ≤ self.now) }
        ensures refused { OnErr result (self.now < length + count) }
    {
        if length <= self.most && count as u64 <= self.most - length {
            Ok(())
        } else {
            Err(ErrorKind::FileTooLarge.into())
        }
    }
}

/// The number behind these words in the first bytes of a file of the system, if there is one.
pub(crate) fn number_in<R: Files<File = File>>(rt: &R, path: &str, words: &str) -> Option<u64> {
    let mut bytes = [0; 512];
    let mut file = File::open(rt, path).ok()?;
    let count = file.read(&mut bytes).ok()?;
    let text = str::from_utf8(bytes.get(..count)?).ok()?;
    let (_, rest) = text.split_once(words)?;
    rest.split_ascii_whitespace().next()?.parse().ok()
}
