//! A source over a buffered reader of std: it lends bytes of its buffer.
ghost use Rattle.std.specs.Prelude.{◌≡◌};
ghost use Rattle.std.specs.Io.Buffered.{reader_buffer, reader_remaining};

use crate::device::DeviceFault;
use crate::source::Source;
use crate::std_source::StdSource;
use std::io::{BufRead, BufReader, Read};

/// A source over a buffered reader, as [`StdSource`] is, that lends what its buffer holds.
#[derive(Drop)]
pub struct BufferedSource<R: Read> {
    source: StdSource<BufReader<R>>,
}

impl<R: Read> BufferedSource<R> {
    /// A source over this reader.
    pub fn new(reader: BufReader<R>) -> BufferedSource<R>
        ensures failures { ⟦<BufferedSource<R> as Source>⟧.failures result ≡ 0 }
        ensures bytes { ⟦<BufferedSource<R> as Source>⟧.unread result
            ≡ reader_remaining R.remaining reader }
    {
        BufferedSource {
            source: StdSource::new(reader),
        }
    }
}

impl<R: Read> Source for BufferedSource<R> {
    ghost failures = { λ s. s.source.failures.count };

    ghost unread = { λ s. reader_remaining R.remaining s.source.reader };

    ghost buffered = { λ s. reader_buffer s.source.reader };

    fn read(&mut self, buffer: &mut [u8]) -> Result<usize, DeviceFault> {
        self.source.read(buffer)
    }

    fn buffer(&self) -> &[u8] {
        self.source.reader.buffer()
    }

    fn consume(&mut self, count: usize) {
        self.source.reader.consume(count);
    }
}
