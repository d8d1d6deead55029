//! Bytes that are put aside in memory.
ghost use Rattle.std.specs.Prelude.{◌≡◌, Some, []};

use flute_parts::{DeviceFault, Failures, Sink};
use flutejoin::Aside;
use std::alloc::Global;

/// Bytes that are put aside in memory. It fails only if it finds no memory for more.
#[derive(Drop)]
pub struct MemoryAside {
    bytes: Vec<u8>,
    failures: Failures,
}

impl MemoryAside {
    /// Nothing is put aside yet. It takes no memory.
    pub fn new(alloc: Global) -> MemoryAside
        ensures bytes { ⟦<MemoryAside as Sink>⟧.written result ≡ Some [] }
        ensures failures { ⟦<MemoryAside as Sink>⟧.failures result ≡ 0 }
    {
        MemoryAside {
            bytes: Vec::new(alloc),
            failures: Failures::none(),
        }
    }

    /// The bytes, handed over.
    pub fn into_vec(self) -> Vec<u8>
        ensures bytes { ⟦<MemoryAside as Sink>⟧.written self ≡ Some result.items }
    {
        let MemoryAside { bytes, .. } = self;
        bytes
    }
}

impl Sink for MemoryAside {
    ghost failures = { λ a. a.failures.count };

    ghost written = { λ a. Some a.bytes.items };

    fn write(&mut self, bytes: &[u8]) -> Result<usize, DeviceFault> {
        match self.bytes.extend_from_slice(bytes) {
            Ok(()) => Ok(bytes.len()),
            Err(_) => {
                self.failures = self.failures.and_one();
                Err(DeviceFault)
            }
        }
    }
}

impl Aside for MemoryAside {
    fn move_to<W: Sink>(&mut self, sink: &mut W) -> Result<(), DeviceFault> {
        sink.write_all(&self.bytes)?;
        self.bytes.clear();
        Ok(())
    }
}
