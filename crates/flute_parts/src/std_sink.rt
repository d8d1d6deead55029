//! A sink over a writer of the standard library.
ghost use Rattle.std.specs.Prelude.{◌≡◌, ◌+◌, if◌then◌else◌, is_ok};
ghost use Rattle.std.specs.Io.KnownBytes.{Keeps};

use crate::device::{DeviceFault, Sink};
use crate::failures::Failures;
use std::io::{ErrorKind, Write};

/// How often an interrupted call is repeated.
const REPEATS: u32 = 64;

/// A sink over a writer, as a file or standard output. Contracts see the bytes that they see of the
/// writer: those of a writer over memory, and none of a file.
///
/// An interrupted call is repeated at most 64 times, and then it is a failure. No clause has that
/// bound. A writer that takes none of some bytes has failed.
#[derive(Drop)]
pub struct StdSink<W> {
    writer: W,
    failures: Failures,
}

impl<W: Write> StdSink<W> {
    /// A sink over this writer.
    pub fn new(writer: W) -> StdSink<W>
        ensures failures { ⟦<StdSink<W> as Sink>⟧.failures result ≡ 0 }
        ensures bytes { ⟦<StdSink<W> as Sink>⟧.written result ≡ W.contents writer }
    {
        StdSink {
            writer,
            failures: Failures::none(),
        }
    }

    /// Flushes what a buffering writer still holds.
    ///
    /// # Errors
    ///
    /// `DeviceFault` if the writer failed. What it still holds is then not known.
    pub fn flush(&mut self) -> Result<(), DeviceFault>
        ensures bytes { Keeps (⟦<StdSink<W> as Sink>⟧.written self.old)
            (⟦<StdSink<W> as Sink>⟧.written self.new) }
        ensures failures { ⟦<StdSink<W> as Sink>⟧.failures self.new
            ≡ ⟦<StdSink<W> as Sink>⟧.failures self.old + (if is_ok result then 0 else 1) }
    {
        match self.writer.flush() {
            Ok(()) => Ok(()),
            Err(_) => {
                self.failures = self.failures.and_one();
                Err(DeviceFault)
            }
        }
    }
}

impl<W: Write> Sink for StdSink<W> {
    ghost failures = { λ s. s.failures.count };

    ghost written = { λ s. W.contents s.writer };

    fn write(&mut self, bytes: &[u8]) -> Result<usize, DeviceFault> {
        for _ in 0..=REPEATS {
            match self.writer.write(bytes) {
                Ok(count) if count > 0 || bytes.is_empty() => return Ok(count),
                Err(error) if error.kind() == ErrorKind::Interrupted => {}
                _ => break,
            }
        }
        self.failures = self.failures.and_one();
        Err(DeviceFault)
    }
}
