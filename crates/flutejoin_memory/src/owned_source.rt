//! A source that owns the bytes which it gives.
ghost use Rattle.std.specs.Prelude.{◌≡◌, ◌≤◌, length, take, drop, min, Some};

use flute_parts::{DeviceFault, Source};

/// A source that gives the bytes of a vector, as many at a time as it is asked for. It never
/// fails, and takes no more memory.
#[derive(Drop)]
pub struct OwnedSource {
    bytes: Vec<u8>,
    used: usize,
    ghost inside: { used ≤ length bytes.items },
}

impl OwnedSource {
    /// A source of these bytes.
    pub fn new(bytes: Vec<u8>) -> OwnedSource
        ensures { ⟦<OwnedSource as Source>⟧.unread result ≡ Some bytes.items }
    {
        OwnedSource { bytes, used: 0 }
    }

    fn unread(&self) -> &[u8]
        ensures { result.now ≡ drop self.now.used self.now.bytes.items }
    {
        &self.bytes[self.used..]
    }
}

impl Source for OwnedSource {
    ghost failures = { λ _. 0 };

    ghost unread = { λ s. Some (drop s.used s.bytes.items) };

    ghost buffered = { λ s. drop s.used s.bytes.items };

    fn read(&mut self, buffer: &mut [u8]) -> Result<usize, DeviceFault> {
        let count = copied(self.unread(), buffer);
        self.used += count;
        Ok(count)
    }

    fn buffer(&self) -> &[u8] {
        self.unread()
    }

    fn consume(&mut self, count: usize) {
        self.used += count;
    }
}

// Copies the first bytes to the front of `buffer`, as many as both have.
fn copied(unread: &[u8], buffer: &mut [u8]) -> usize
    ensures count { result ≡ min (length unread.now) (length buffer.new) }
    ensures same { take result unread.now ≡ take result buffer.new }
{
    let count = unread.len().min(buffer.len());
    buffer[..count].copy_from_slice(&unread[..count]);
    count
}
