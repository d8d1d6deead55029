//! The trait `Source`: devices that bytes are read from.
ghost use Rattle.std.specs.Prelude.{◌≡◌, ℕ, ◌+◌, ◌≤◌, List, [], length, take};
ghost use Rattle.std.specs.Prelude.{drop, IfOk, IfSome, Option, if◌then◌else◌, is_ok};
ghost use Rattle.std.specs.Io.{StartsWith};
ghost use Rattle.std.specs.Io.KnownBytes.{Consumes, ReadConsumes};

use crate::device::DeviceFault;

/// A device that gives bytes, some at a time.
pub trait Source {
    // How often a call has failed.
    ghost failures: { Self → ℕ };

    // The bytes still unread, if contracts see them.
    ghost unread: { Self → Option (List ℕ) };

    // The next of these, as far as they lie in memory.
    ghost buffered: { Self → List ℕ } = { λ _. [] };

    /// Puts the next bytes at the front of `buffer`, and returns how many: none only at the end, or
    /// if `buffer` is empty.
    ///
    /// # Errors
    ///
    /// `DeviceFault` if the device failed. It then gave nothing, and `buffer` may hold anything.
    fn read(&mut self, buffer: &mut [u8]) -> Result<usize, DeviceFault>
        ensures bound { IfOk result (λ n. n ≤ length buffer.new) }
        ensures bytes { ReadConsumes (unread self.old) (unread self.new) result buffer.new }
        ensures failures { failures self.new ≡ failures self.old
            + (if is_ok result then 0 else 1) };

    /// Lends the next bytes, as far as they lie in memory already: perhaps none. It reads
    /// nothing, and cannot fail.
    fn buffer(&self) -> &[u8]
        ensures buffered { result.now ≡ buffered self.now }
        ensures front { IfSome (unread self.now) (λ bytes. StartsWith bytes result.now) };

    /// Takes the next `count` bytes, which `buffer` lends.
    fn consume(&mut self, count: usize)
        requires { count ≤ length (buffered self.old) }
        ensures buffered { buffered self.new ≡ drop count (buffered self.old) }
        ensures bytes { Consumes (unread self.old) (unread self.new)
            (take count (buffered self.old)) }
        ensures failures { failures self.new ≡ failures self.old };
}
