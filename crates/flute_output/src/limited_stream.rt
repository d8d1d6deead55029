//! A standard stream that may be a file of limited length.

use crate::file_limit::{FileLimit, number_in};
use std::fmt::Display;
use std::fs::{self, File};
use std::io::{self, Print, Write};
use std::os::fd::AsRawFd;
use std::rt::Files;

/// What standard output is, whatever the program was started with, and where the system says its
/// position.
const STANDARD_OUTPUT: (&str, &str) = ("/proc/self/fd/1", "/proc/self/fdinfo/1");

/// The same of standard error.
const STANDARD_ERROR: (&str, &str) = ("/proc/self/fd/2", "/proc/self/fdinfo/2");

/// Standard output or standard error. If it is a regular file, and the process may not make it as
/// long as it would be with some bytes (`ulimit -f`), these are refused as `FileTooLarge`.
#[derive(Drop)]
pub struct LimitedStream<R, S> {
    rt: R,
    stream: S,
    limit: FileLimit,
}

impl<R: Files<File = File>, S: AsRawFd> LimitedStream<R, S> {
    /// The stream, with the limit that it has now.
    pub fn new(rt: R, stream: S) -> LimitedStream<R, S> {
        let (path, _) = paths_of(&stream);
        let limit = match fs::metadata(&rt, path) {
            Ok(found) => FileLimit::of_process(&rt).of(&found),
            Err(_) => FileLimit::NONE,
        };
        LimitedStream { rt, stream, limit }
    }

    // Checks that it may get so many bytes: at its position, or, if they are appended, at its end.
    fn check(&self, count: usize) -> io::Result<()> {
        if self.limit.is_none() {
            return Ok(());
        }
        let (path, information) = paths_of(&self.stream);
        let position = number_in(&self.rt, information, "pos:").unwrap_or(0);
        let length = fs::metadata(&self.rt, path)?.len();
        self.limit.check(position.max(length), count)
    }
}

impl<R: Files<File = File>, S: Print + AsRawFd> Print for LimitedStream<R, S> {
    fn print<D: Display + Drop>(&self, value: D) -> io::Result<()> {
        let mut count = Count(0);
        write!(count, "{value}")?;
        self.check(count.0)?;
        self.stream.print(value)
    }

    fn println<D: Display + Drop>(&self, value: D) -> io::Result<()> {
        let mut count = Count(0);
        writeln!(count, "{value}")?;
        self.check(count.0)?;
        self.stream.println(value)
    }

    fn write_all(&self, bytes: &[u8]) -> io::Result<()> {
        self.check(bytes.len())?;
        self.stream.write_all(bytes)
    }

    fn write_some(&self, bytes: &[u8]) -> io::Result<usize> {
        self.check(bytes.len())?;
        self.stream.write_some(bytes)
    }
}

fn paths_of<S: AsRawFd>(stream: &S) -> (&'static str, &'static str) {
    if stream.as_raw_fd() == 1 {
        STANDARD_OUTPUT
    } else {
        STANDARD_ERROR
    }
}

// How many bytes were written to it.
#[derive(Drop)]
struct Count(usize);

impl Write for Count {
    fn write(&mut self, bytes: &[u8]) -> io::Result<usize> {
        self.0 = self.0.saturating_add(bytes.len());
        Ok(bytes.len())
    }

    fn flush(&mut self) -> io::Result<()> {
        Ok(())
    }
}
