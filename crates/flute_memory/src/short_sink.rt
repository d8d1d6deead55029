//! A sink that takes little, and fails.
ghost use Rattle.std.specs.Prelude.{◌≡◌, ◌+◌, Some, []};

use flute_parts::{DeviceFault, Failures, MemorySink, Sink};
use std::alloc::Global;

/// A sink for tests: it takes a given number of bytes, keeps them in memory, and then fails for
/// good.
#[derive(Drop)]
pub struct ShortSink {
    sink: MemorySink,
    good: usize,
    failures: Failures,
}

impl ShortSink {
    /// A sink that takes `good` bytes, and fails in each call from then on. Before that it fails
    /// only if it finds no memory for more. It takes no memory yet.
    pub fn new(alloc: Global, good: usize) -> ShortSink
        ensures bytes { ⟦<ShortSink as Sink>⟧.written result ≡ Some [] }
        ensures failures { ⟦<ShortSink as Sink>⟧.failures result ≡ 0 }
    {
        ShortSink {
            sink: MemorySink::new(alloc),
            good,
            failures: Failures::none(),
        }
    }

    /// The bytes taken so far.
    pub fn as_slice(&self) -> &[u8]
        ensures { ⟦<ShortSink as Sink>⟧.written self.now ≡ Some result.now }
    {
        self.sink.as_slice()
    }
}

impl Sink for ShortSink {
    ghost failures = { λ s. ⟦<MemorySink as Sink>⟧.failures s.sink + s.failures.count };

    ghost written = { λ s. ⟦<MemorySink as Sink>⟧.written s.sink };

    fn write(&mut self, bytes: &[u8]) -> Result<usize, DeviceFault> {
        if self.good == 0 {
            self.failures = self.failures.and_one();
            return Err(DeviceFault);
        }
        let count = self.sink.write(&bytes[..self.good.min(bytes.len())])?;
        self.good -= count;
        Ok(count)
    }
}
