//! Bytes that are put aside until all are known.
ghost use Rattle.std.specs.Prelude.{◌≡◌, ◌+◌, List, ℕ, Some, OnOk, OnErr, [], if◌then◌else◌, is_ok};
ghost use Rattle.std.specs.Prelude.{Bool, true, IfOk, IfErr};
ghost use Rattle.std.specs.Io.KnownBytes.{Appends};
ghost use Rattle.flute_parts.specs.Devices.{AppendsPart};
ghost use Rattle.flutejoin.specs.Asides.{HasAside, IsNotAgain};
ghost use Rattle.flutejoin.specs.declared.command_fault.CommandFault.TheVariants.{OutOfMemory};

use crate::command_fault::CommandFault;
use flute_parts::{DeviceFault, Sink, Source};

/// A sink whose bytes are put aside, in memory or in a file, and moved to another sink later.
pub trait Aside: Sink {
    /// Moves all the bytes to a sink. None is left here then.
    ///
    /// # Errors
    ///
    /// `DeviceFault` if one of the two failed. The sink then took a proper prefix of the bytes, and
    /// what is left here is not known.
    fn move_to<W: Sink>(&mut self, sink: &mut W) -> Result<(), DeviceFault>
        ensures moved { (bytes : List ℕ) → Self.written self.old ≡ Some bytes
            → OnOk result (Appends (W.written sink.old) (W.written sink.new) bytes
            × (Self.written self.new ≡ Some [])) }
        ensures part { (bytes : List ℕ) → Self.written self.old ≡ Some bytes
            → OnErr result (AppendsPart (W.written sink.old) (W.written sink.new) bytes) }
        ensures failures { Self.failures self.new + W.failures sink.new
            ≡ Self.failures self.old + W.failures sink.old + (if is_ok result then 0 else 1) };
}

/// Makes what bytes are put aside in, and inputs of these bytes.
pub trait Asides {
    type Aside: Aside + Drop;

    type Input: Source + Drop;

    // Whether contracts see which bytes are put aside.
    ghost tells: { Self → Bool };

    // How often `aside` was called, in vain too. `Makes` (`specs/Asides`) says by it that a join
    // returns `CannotPutAside` only if something was to be put aside.
    ghost made: { Self → ℕ };

    /// Where bytes are put aside. None is there yet.
    ///
    /// # Errors
    ///
    /// `OutOfMemory`.
    fn aside(&mut self) -> Result<Self::Aside, CommandFault>
        ensures empty { tells self.old ≡ true
            → IfOk result (λ aside. Self.Aside.written aside ≡ Some []) }
        ensures refused { IfErr result (λ fault. fault ≡ OutOfMemory) }
        ensures same_tells { tells self.new ≡ tells self.old }
        ensures made { made self.new ≡ made self.old + 1 };

    /// An input of the bytes that were put aside.
    ///
    /// # Errors
    ///
    /// `CannotWrite` if they cannot be read again, and `OutOfMemory`.
    fn again(&mut self, aside: Self::Aside) -> Result<Self::Input, CommandFault>
        ensures told { IfOk result
            (λ input. HasAside (Self.Aside.written aside) (Self.Input.unread input)) }
        ensures refused { IfErr result IsNotAgain }
        ensures same_tells { tells self.new ≡ tells self.old }
        ensures same_made { made self.new ≡ made self.old };
}
