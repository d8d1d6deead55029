//! The trait `Sink`: devices that bytes are written to.
ghost use Rattle.std.specs.Prelude.{◌≡◌, ℕ, ◌+◌, ◌<◌, ◌≤◌, List, length};
ghost use Rattle.std.specs.Prelude.{IfOk, Option, if◌then◌else◌, is_ok};
ghost use Rattle.std.specs.Io.KnownBytes.{WriteAppends};
ghost use Rattle.flute_parts.specs.Devices.{Writes};

use thiserror::Error;

/// A call of a device failed. What the device holds is as before that call.
#[derive(Clone, Copy, Debug, PartialEq, Eq, Error)]
#[error("the device failed")]
pub struct DeviceFault;

/// A device that takes bytes, some at a time.
pub trait Sink {
    // How often a call has failed.
    ghost failures: { Self → ℕ };

    // The bytes taken so far, if contracts see them.
    ghost written: { Self → Option (List ℕ) };

    /// Takes the first bytes of `bytes`, and returns how many: at least one, unless `bytes` is
    /// empty.
    ///
    /// # Errors
    ///
    /// `DeviceFault` if the device failed. It then took nothing.
    fn write(&mut self, bytes: &[u8]) -> Result<usize, DeviceFault>
        ensures bound { IfOk result (λ n. n ≤ length bytes.now) }
        ensures progress { 0 < length bytes.now → IfOk result (λ n. 0 < n) }
        ensures bytes { WriteAppends (written self.old) (written self.new) result bytes.now }
        ensures failures { failures self.new ≡ failures self.old
            + (if is_ok result then 0 else 1) };

    /// Takes all the bytes, in as many calls of `write` as that needs.
    ///
    /// # Errors
    ///
    /// `DeviceFault` if one of them failed. The device then took a proper prefix of the bytes.
    final fn write_all(&mut self, bytes: &[u8]) -> Result<(), DeviceFault>
        ensures bytes { Writes (written self.old) (written self.new) bytes.now result }
        ensures failures { failures self.new ≡ failures self.old + (if is_ok result then 0 else 1) }
    {
        let mut written = 0;
        while written < bytes.len() {
            written += self.write(&bytes[written..])?;
        }
        Ok(())
    }
}
