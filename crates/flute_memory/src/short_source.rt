//! A source that gives little at a time, and fails.
ghost use Rattle.std.specs.Prelude.{◌≡◌, ◌<◌, Some};

use flute_parts::{DeviceFault, Failures, MemorySource, Source};

/// A source for tests: it gives the bytes of a slice in short pieces, until it fails for
/// good. It takes no memory.
#[derive(Drop)]
pub struct ShortSource<'a> {
    source: MemorySource<'a>,
    piece: usize,
    good: usize,
    failures: Failures,
    ghost some_piece: { 0 < piece },
}

impl<'a> ShortSource<'a> {
    /// A source of these bytes that gives at most `piece` of them at a time, which is at least 1,
    /// and fails in each call from the moment that it has given `good` of them.
    pub fn new(bytes: &'a [u8], piece: usize, good: usize) -> ShortSource<'a>
        requires { 0 < piece }
        ensures bytes { ⟦<ShortSource<'a> as Source>⟧.unread result ≡ Some bytes.now }
        ensures failures { ⟦<ShortSource<'a> as Source>⟧.failures result ≡ 0 }
    {
        ShortSource {
            source: MemorySource::new(bytes),
            piece,
            good,
            failures: Failures::none(),
        }
    }
}

impl<'a> Source for ShortSource<'a> {
    ghost failures = { λ s. s.failures.count };

    ghost unread = { λ s. ⟦<MemorySource<'a> as Source>⟧.unread s.source };

    fn read(&mut self, buffer: &mut [u8]) -> Result<usize, DeviceFault> {
        if self.good == 0 {
            self.failures = self.failures.and_one();
            return Err(DeviceFault);
        }
        let most = self.piece.min(self.good).min(buffer.len());
        let count = self.source.read(&mut buffer[..most])?;
        self.good -= count;
        Ok(count)
    }

    fn buffer(&self) -> &[u8] {
        &[]
    }

    fn consume(&mut self, _count: usize) {}
}
