//! The trait `Work`: what a command reads and writes, whatever its output is.
ghost use Rattle.std.specs.Prelude.{◌≡◌, ◌+◌, List, ℕ, Option, OnOk, IfOk, IfErr};
ghost use Rattle.flutejoin.specs.declared.command_fault.CommandFault.TheVariants.{CannotWrite};
ghost use Rattle.flutejoin.specs.declared.command_fault.CommandFault.{CommandFault as Fault};

use flute_parts::Sink;
use flutejoin::{CommandFault, Report};

/// What a command does with its inputs: it writes an output, and reports its answer in some lines.
pub trait Work {
    type Answer: Drop;

    // What it writes, from what its sink had taken to what it has, if it returns this.
    ghost writes: { Self → Self.Answer → Option (List ℕ) → Option (List ℕ) → Type 0 };

    // Why it fails.
    ghost fails: { Self → Fault → Type 0 };

    // The lines that report an answer.
    ghost tells: { Self → Self.Answer → List ℕ };

    /// Does the work, and tells what it did, with the lines that report that.
    ///
    /// # Errors
    ///
    /// What is wrong with the inputs; or `CannotWrite` if the sink failed.
    fn write<W: Sink>(&mut self, sink: &mut W) -> Result<(Self::Answer, Report), CommandFault>
        ensures written { IfOk result
            (λ x. writes self.old x.0 (W.written sink.old) (W.written sink.new)) }
        ensures told { IfOk result (λ x. x.1 ≡ tells self.old x.0) }
        ensures failed { IfErr result (fails self.old) }
        ensures quiet { OnOk result (W.failures sink.new ≡ W.failures sink.old) }
        ensures cause { IfErr result (λ fault. fault ≡ CannotWrite
            → W.failures sink.new ≡ W.failures sink.old + 1) };
}
