//! A source over a reader of the standard library.
ghost use Rattle.std.specs.Prelude.{◌≡◌};

use crate::device::DeviceFault;
use crate::failures::Failures;
use crate::source::Source;
use std::io::{ErrorKind, Read};

/// How often an interrupted call is repeated.
const REPEATS: u32 = 64;

/// A source over a reader, as a file or standard input. Contracts see the bytes that they see of
/// the reader: those of a reader over memory, and none of a file. So a body that reports a failed
/// read as the end cannot be proved.
///
/// An interrupted call is repeated at most 64 times, and then it is a failure. No clause has that
/// bound.
#[derive(Drop)]
pub struct StdSource<R> {
    pub(crate) reader: R,
    pub(crate) failures: Failures,
}

impl<R: Read> StdSource<R> {
    /// A source over this reader.
    pub fn new(reader: R) -> StdSource<R>
        ensures failures { ⟦<StdSource<R> as Source>⟧.failures result ≡ 0 }
        ensures bytes { ⟦<StdSource<R> as Source>⟧.unread result ≡ R.remaining reader }
    {
        StdSource {
            reader,
            failures: Failures::none(),
        }
    }
}

impl<R: Read> Source for StdSource<R> {
    ghost failures = { λ s. s.failures.count };

    ghost unread = { λ s. R.remaining s.reader };

    fn read(&mut self, buffer: &mut [u8]) -> Result<usize, DeviceFault> {
        for _ in 0..=REPEATS {
            match self.reader.read(buffer) {
                Ok(count) => return Ok(count),
                Err(error) if error.kind() == ErrorKind::Interrupted => {}
                Err(_) => break,
            }
        }
        self.failures = self.failures.and_one();
        Err(DeviceFault)
    }

    fn buffer(&self) -> &[u8] {
        &[]
    }

    fn consume(&mut self, _count: usize) {}
}
