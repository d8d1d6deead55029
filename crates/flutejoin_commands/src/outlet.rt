//! The trait `Outlet`: outputs that take bytes directly, as a pipe or a device.
ghost use Rattle.std.specs.Prelude.{◌≡◌, ◌+◌, List, ℕ, Option, OnOk, if◌then◌else◌, is_ok};

use flute_parts::{DeviceFault, Sink};

/// An output that takes its bytes itself, as a pipe, a device or standard output: what it took is
/// not taken back. Its bytes may wait in memory until a flush hands them on.
pub trait Outlet: Sink {
    // The bytes that were handed on so far, if the output's contracts say.
    ghost handed_on: { Self → Option (List ℕ) };

    /// Opens it. Standard output is open already.
    ///
    /// # Errors
    ///
    /// `DeviceFault` if it cannot be opened.
    fn open(&mut self) -> Result<(), DeviceFault>
        ensures same { Self.written self.new ≡ Self.written self.old }
        ensures failures { Self.failures self.new
            ≡ Self.failures self.old + (if is_ok result then 0 else 1) };

    /// Hands on the bytes that wait.
    ///
    /// # Errors
    ///
    /// `DeviceFault` if the device failed. Which of them it has is then not known.
    fn flush(&mut self) -> Result<(), DeviceFault>
        ensures same { Self.written self.new ≡ Self.written self.old }
        ensures flushed { OnOk result (handed_on self.new ≡ Self.written self.new) }
        ensures failures { Self.failures self.new
            ≡ Self.failures self.old + (if is_ok result then 0 else 1) };
}
