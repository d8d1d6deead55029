//! Does a work whose output could not be made, so that a fault of its inputs comes first.
ghost use Rattle.std.specs.Prelude.{◌≡◌, ◌⊎◌};
ghost use Rattle.flutejoin.specs.declared.command_fault.CommandFault.TheVariants.{CannotWrite};
ghost use Rattle.flutejoin_commands.specs.Commands.{CouldBeDone};

use crate::work::Work;
use flutejoin::{CommandFault, Nothing};

/// What becomes of a work that has no output.
#[derive(Clone, Copy)]
pub enum IfNoOutput {
    /// It is tried all the same: its fault comes before that of the output.
    Try,
    /// The fault of the output is returned, and the inputs are not read.
    Report,
}

/// The fault of a work that has no output, for this reason: its own, if it is tried and fails, or
/// else the reason.
pub fn without_output<K: Work>(
    work: &mut K,
    if_none: IfNoOutput,
    reason: CommandFault,
) -> CommandFault
    ensures first { K.fails work.old result
        ⊎ ((result ≡ reason) × (if_none ≡ IfNoOutput.Try → CouldBeDone (K.writes work.old))) }
    ensures nothing_failed { result ≡ CannotWrite → reason ≡ CannotWrite }
{
    match if_none {
        IfNoOutput::Report => reason,
        IfNoOutput::Try => match work.write(&mut Nothing) {
            Ok(_) => reason,
            Err(fault) => fault,
        },
    }
}
