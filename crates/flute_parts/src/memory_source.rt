//! A source of bytes that are in memory.
ghost use Rattle.std.specs.Prelude.{◌≡◌, Some};

use crate::device::DeviceFault;
use crate::source::Source;

/// A source that gives the bytes of a slice, as many at a time as it is asked for. It never fails,
/// and takes no memory.
#[derive(Drop)]
pub struct MemorySource<'a> {
    unread: &'a [u8],
}

impl<'a> MemorySource<'a> {
    /// A source of these bytes.
    pub fn new(bytes: &'a [u8]) -> MemorySource<'a>
        ensures bytes { ⟦<MemorySource<'a> as Source>⟧.unread result ≡ Some bytes.now }
    {
        MemorySource { unread: bytes }
    }
}

impl Source for MemorySource<'_> {
    ghost failures = { λ _. 0 };

    ghost unread = { λ s. Some s.unread.now };

    ghost buffered = { λ s. s.unread.now };

    fn read(&mut self, buffer: &mut [u8]) -> Result<usize, DeviceFault> {
        let count = self.unread.len().min(buffer.len());
        let (given, rest) = self.unread.split_at(count);
        buffer[..count].copy_from_slice(given);
        self.unread = rest;
        Ok(count)
    }

    fn buffer(&self) -> &[u8] {
        self.unread
    }

    fn consume(&mut self, count: usize) {
        self.unread = &self.unread[count..];
    }
}
