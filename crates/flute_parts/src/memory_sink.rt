//! A sink that keeps what is written in memory.
ghost use Rattle.std.specs.Prelude.{◌≡◌, Some, []};

use crate::device::{DeviceFault, Sink};
use crate::failures::Failures;
use std::alloc::Global;

/// A sink that keeps its bytes in memory. It fails only if it finds no memory for more.
#[derive(Drop)]
pub struct MemorySink {
    bytes: Vec<u8>,
    failures: Failures,
}

impl MemorySink {
    /// A sink that has taken nothing. It takes no memory yet.
    pub fn new(alloc: Global) -> MemorySink
        ensures bytes { ⟦<MemorySink as Sink>⟧.written result ≡ Some [] }
        ensures failures { ⟦<MemorySink as Sink>⟧.failures result ≡ 0 }
    {
        MemorySink {
            bytes: Vec::new(alloc),
            failures: Failures::none(),
        }
    }

    /// The bytes taken so far.
    pub fn as_slice(&self) -> &[u8]
        ensures { ⟦<MemorySink as Sink>⟧.written self.now ≡ Some result.now }
    {
        &self.bytes
    }
}

impl Sink for MemorySink {
    ghost failures = { λ s. s.failures.count };

    ghost written = { λ s. Some s.bytes.items };

    fn write(&mut self, bytes: &[u8]) -> Result<usize, DeviceFault> {
        match self.bytes.extend_from_slice(bytes) {
            Ok(()) => Ok(bytes.len()),
            Err(_) => {
                self.failures = self.failures.and_one();
                Err(DeviceFault)
            }
        }
    }
}
