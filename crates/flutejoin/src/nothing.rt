//! A sink that keeps nothing of what is written to it.
ghost use Rattle.std.specs.Prelude.{None};

use flute_parts::{DeviceFault, Sink};

/// A sink that takes all bytes, keeps none of them, and never fails.
#[derive(Drop)]
pub struct Nothing;

impl Sink for Nothing {
    ghost failures = { λ _. 0 };

    ghost written = { λ _. None };

    fn write(&mut self, bytes: &[u8]) -> Result<usize, DeviceFault> {
        Ok(bytes.len())
    }
}
